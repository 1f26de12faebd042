//! The header line: `p cnf V C`.
ghost use Rattle.std.specs.Prelude.{◌≡◌, false, MatchOption, MatchResult};
ghost use Rattle.dimacs.specs.Lines.{runs};
ghost use Rattle.dimacs.specs.Numerals.{is_count};
ghost use Rattle.dimacs.specs.internal.Places.{first_run, after_run, with_run, IsAtToken, ReadsCount, IsSmallHeader, IsLineFault};

use crate::fault::DimacsFault;
use crate::tokens::{MAX_VARIABLE, is_separator, numeral};
use lrup_model::Formula;

/// The header: the numbers of variables and of clauses, each at most 16,777,215.
#[derive(Clone, Copy)]
pub struct Header {
    pub vars: u32,
    pub clauses: u32,
}

/// The maximum number of clauses.
const MAX_CLAUSES: u32 = Formula::MAX_CLAUSES;

fn skip_separators(line: &[u8]) -> &[u8]
    ensures same { runs result.now ≡ runs line.now }
    ensures place { IsAtToken result.now }
{
    let mut rest = line;
    while let Some((&byte, after)) = rest.split_first() {
        if !is_separator(byte) {
            break;
        }
        rest = after;
    }
    rest
}

/// The bytes before the next separator, and the bytes from the separator on.
fn split_run(text: &[u8]) -> (&[u8], &[u8])
    ensures run { result.0.now ≡ first_run text.now }
    ensures after { result.1.now ≡ after_run text.now }
{
    let mut end = 0;
    while end < text.len() && !is_separator(text[end]) {
        end += 1;
    }
    text.split_at(end)
}

/// The first token of a line, and the rest of the line after it. If there is no token, the first
/// part is empty.
fn next_run(line: &[u8]) -> (&[u8], &[u8])
    ensures runs { runs line.now ≡ with_run result.0.now (runs result.1.now) }
    ensures whole { first_run result.0.now ≡ result.0.now }
{
    split_run(skip_separators(line))
}

/// The number that a token spells without a sign; `None` if the token spells no such number. For a
/// number above `MAX_VARIABLE` the result may be any number above that limit.
fn count(text: &[u8]) -> Option<u32>
    requires { first_run text.now ≡ text.now }
    ensures { MatchOption result (is_count text.now ≡ false) (ReadsCount text.now) }
{
    if text == b"0".as_slice() {
        return Some(0);
    }
    match numeral(text) {
        Some((value, _)) => Some(value),
        None => None,
    }
}

/// Reads the header from the tokens of its line.
pub fn parse_header(line: &[u8]) -> Result<Header, DimacsFault>
    ensures { MatchResult result
        (λ header. IsSmallHeader (runs line.now) header.vars header.clauses)
        (IsLineFault (runs line.now)) }
{
    let (p, rest) = next_run(line);
    if p != b"p".as_slice() {
        return Err(DimacsFault::NoHeader);
    }
    let (cnf, rest) = next_run(rest);
    let (variables, rest) = next_run(rest);
    let (clauses, rest) = next_run(rest);
    let (more, _) = next_run(rest);
    let Some(vars) = count(variables) else {
        return Err(DimacsFault::BadHeader);
    };
    let Some(clauses) = count(clauses) else {
        return Err(DimacsFault::BadHeader);
    };
    if cnf != b"cnf".as_slice() || !more.is_empty() {
        return Err(DimacsFault::BadHeader);
    }
    if vars > MAX_VARIABLE || clauses > MAX_CLAUSES {
        return Err(DimacsFault::Limit);
    }
    Ok(Header { vars, clauses })
}
