//! Reads the literals of an answer.
ghost use Rattle.std.specs.Prelude.{◌≡◌, ◌≢◌, ◌≤◌, Ok, Err, IfErr, IfOk, OnOk};
ghost use Rattle.lrup_model.specs.Literal.{max_variable};
ghost use Rattle.dimacs.specs.Lines.{is_comment, runs};
ghost use Rattle.model_check.specs.ModelText.{IsModelText, is_byte_alone};
ghost use Rattle.model_check.specs.Reading.{all_lines, model_in, take_bytes, take_line, take_token, take_tokens};
ghost use Rattle.model_check.specs.declared.fault.ModelFault.TheVariants.{Memory};

use crate::fault::ModelFault;
use crate::numbers::{literal, number};
use crate::pieces::{first_token, split_line};
use lrup_model::Lit;
use std::alloc::Global;
use std::marker::Model;

/// The literals so far, and whether the 0 that ends them was read.
#[derive(Drop)]
struct Reader {
    literals: Vec<Lit>,
    ended: bool,
}

impl Model for Reader {
    ghost use Rattle.model_check.specs.Reading.{Assigned};

    ghost Value = { Assigned };

    ghost view = { λ r. record { literals = r.literals.items; ended = r.ended } };
}

impl Reader {
    /// Takes a token of the line with this number.
    fn token(&mut self, token: &[u8], line: u64, vars: u32) -> Result<(), ModelFault>
        requires { vars ≤ max_variable }
        ensures ok { OnOk result (take_token vars line token.now self.old ≡ Ok self.new) }
        ensures err { IfErr result (λ fault. fault ≢ Memory
            → take_token vars line token.now self.old ≡ Err fault) }
    {
        if self.ended {
            return Err(ModelFault::AfterEnd(line));
        }
        let Some((negative, variable)) = number(token) else {
            return Err(ModelFault::BadNumber(line));
        };
        if variable == 0 {
            self.ended = true;
            return Ok(());
        }
        if variable > vars {
            return Err(ModelFault::VariableRange(line));
        }
        match self.literals.push(literal(variable, negative)) {
            Ok(()) => Ok(()),
            Err(_) => Err(ModelFault::Memory),
        }
    }

    /// Takes the tokens after the `v` of the line with this number.
    fn values(&mut self, values: &[u8], line: u64, vars: u32) -> Result<(), ModelFault>
        requires { vars ≤ max_variable }
        ensures ok { OnOk result (take_tokens vars line (runs values.now) self.old ≡ Ok self.new) }
        ensures err { IfErr result (λ fault. fault ≢ Memory
            → take_tokens vars line (runs values.now) self.old ≡ Err fault) }
    {
        let mut rest = values;
        while let Some((token, after)) = first_token(rest) {
            self.token(token, line, vars)?;
            rest = after;
        }
        Ok(())
    }

    /// Takes a line that isn't a comment.
    fn line(&mut self, bytes: &[u8], line: u64, vars: u32) -> Result<(), ModelFault>
        requires { vars ≤ max_variable }
        ensures ok { OnOk result (take_line vars line (runs bytes.now) self.old ≡ Ok self.new) }
        ensures err { IfErr result (λ fault. fault ≢ Memory
            → take_line vars line (runs bytes.now) self.old ≡ Err fault) }
    {
        let Some((first, rest)) = first_token(bytes) else {
            return Ok(());
        };
        if is_alone(b'v', first) {
            return self.values(rest, line, vars);
        }
        if is_alone(b's', first) {
            return Ok(());
        }
        Err(ModelFault::OtherLine(line))
    }

    /// Takes a line.
    fn any_line(&mut self, bytes: &[u8], line: u64, vars: u32) -> Result<(), ModelFault>
        requires { vars ≤ max_variable }
        ensures ok { OnOk result (take_bytes vars line bytes.now self.old ≡ Ok self.new) }
        ensures err { IfErr result (λ fault. fault ≢ Memory
            → take_bytes vars line bytes.now self.old ≡ Err fault) }
    {
        if begins_comment(bytes) {
            return Ok(());
        }
        self.line(bytes, line, vars)
    }
}

/// Whether the token is this byte, alone.
fn is_alone(letter: u8, token: &[u8]) -> bool
    ensures { result ≡ is_byte_alone letter token.now }
{
    match token.split_first() {
        Some((&byte, rest)) => byte == letter && rest.is_empty(),
        None => false,
    }
}

/// Whether the line is a comment.
fn begins_comment(line: &[u8]) -> bool
    ensures { result ≡ is_comment line.now }
{
    match line.split_first() {
        Some((&byte, _)) => byte == b'c',
        None => false,
    }
}

/// Reads the literals of a whole answer, over the variables 1 to `vars` (at most 16,777,215).
pub(crate) fn read_model(alloc: Global, bytes: &[u8], vars: u32) -> Result<Vec<Lit>, ModelFault>
    requires { vars ≤ max_variable }
    ensures model { IfOk result (λ literals. IsModelText vars bytes.now literals.items) }
    ensures fault { IfErr result (λ fault. fault ≢ Memory → model_in vars bytes.now ≡ Err fault) }
{
    let reader = read_lines(alloc, bytes, vars)?;
    if !reader.ended {
        return Err(ModelFault::NoEnd);
    }
    Ok(reader.literals)
}

/// Reads all lines.
fn read_lines(alloc: Global, bytes: &[u8], vars: u32) -> Result<Reader, ModelFault>
    requires { vars ≤ max_variable }
    ensures ok { IfOk result (λ read. all_lines vars bytes.now ≡ Ok read) }
    ensures err { IfErr result (λ fault. fault ≢ Memory → all_lines vars bytes.now ≡ Err fault) }
{
    let mut reader = Reader {
        literals: Vec::new(alloc),
        ended: false,
    };
    let mut line = 0;
    let mut next = Some(bytes);
    while let Some(text) = next {
        let (bytes, rest) = split_line(text);
        line += 1;
        reader.any_line(bytes, line, vars)?;
        next = rest;
    }
    Ok(reader)
}
