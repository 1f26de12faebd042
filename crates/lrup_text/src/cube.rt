//! Reads the text of a cube.
ghost use Rattle.std.specs.Prelude.{◌≡◌, ◌≢◌, ◌↔◌, ◌≤◌, [], ◌∷◌, ◌++◌, ℕ, ℤ, true, List, IfOk, IfErr, IfSome, IsSome, IsTrue, MatchResult};
ghost use Rattle.lrup_model.specs.Cube.{IsCubeOver};
ghost use Rattle.lrup_model.specs.Literal.{IsLiteral, max_variable};
ghost use Rattle.lrup_text.specs.internal.CubeReading.{EndsAtSpot, IsRestFault, BeginsWithNumber, ReadsLiteral, AreKept, AreNotKept};
ghost use Rattle.lrup_text.specs.Cubes.{IsLiteralsText, IsCubeText, IsCubeLine, IsTextFault, IsCubeFault};
ghost use Rattle.lrup_text.specs.internal.ByteNames.{line_feed, zero_digit};
ghost use Rattle.lrup_text.specs.Grammar.{IsDigit};
ghost use Rattle.lrup_text.specs.internal.Rests.{BeforeLiteral, AfterMinus, InLiteral};
ghost use Rattle.lrup_text.specs.declared.cube.CubeFault.TheVariants.{Memory};

use crate::partial_line::{MAX_DIGITS, MAX_LITERALS, literal_of};
use lrup_model::{Cube, Lit};
use std::alloc::{AllocError, Global};
use thiserror::Error;

/// Why a cube's text was refused: the first of these faults that the text has.
#[derive(Clone, Copy, Debug, PartialEq, Eq, Error)]
pub enum CubeFault {
    /// The text ends inside a line `*( lit SP ) "0" LF`, or its first wrong byte would be wrong
    /// without the limits, too.
    #[error("spelling")]
    Spelling,
    /// Only a limit is exceeded: with longer numbers or more literals allowed, the text up to its
    /// first wrong byte could still become the text of a cube.
    #[error("too long")]
    TooLong,
    /// The magnitude of a literal is above the number of variables.
    #[error("variable out of range")]
    Range,
    /// Memory was refused. The text has no fault.
    #[error("out of memory")]
    Memory,
}

impl From<AllocError> for CubeFault {
    ghost from_gives = { λ _ fault. fault ≡ Memory };

    fn from(_error: AllocError) -> Self {
        CubeFault::Memory
    }
}

/// Reads the cube of a whole text, over the variables 1 to `vars` (at most 16,777,215). The text is
/// one line: literals, each with a space after it, then `0` and LF; at most 65,535 literals,
/// repeats included, and at most 18 digits in a number.
pub fn read_cube(alloc: Global, bytes: &[u8], vars: u32) -> Result<Cube, CubeFault>
    requires { vars ≤ max_variable }
    ensures cube { IfOk result (IsCubeText vars bytes.now) }
    ensures fault { IfErr result (IsCubeFault vars bytes.now) }
{
    let literals = read_cube_literals(alloc, bytes, vars)?;
    Ok(Cube::of(alloc, &literals)?)
}

/// Reads the literals of a cube's text, as they are written.
fn read_cube_literals(alloc: Global, text: &[u8], vars: u32) -> Result<Vec<Lit>, CubeFault>
    requires { vars ≤ max_variable }
    ensures text { IfOk result (λ literals. IsLiteralsText literals.items text.now) }
    ensures over { IfOk result (λ literals. IsCubeOver vars literals.items) }
    ensures fault { IfErr result (IsCubeFault vars text.now) }
{
    let mut kept = Ok(Vec::new(alloc));
    let mut count = 0;
    let mut rest = text;
    while let Some((&first, after)) = rest.split_first() {
        if first == b'0' {
            return if is_end(after) {
                kept
            } else {
                Err(CubeFault::Spelling)
            };
        }
        if count == MAX_LITERALS {
            return Err(after_most(first));
        }
        let (literal, next) = read_literal(first, after)?;
        kept = with_literal(kept, literal, vars);
        count += 1;
        rest = next;
    }
    Err(CubeFault::Spelling)
}

/// Whether only the LF is left.
fn is_end(rest: &[u8]) -> bool
    ensures { IsTrue result ↔ (rest.now ≡ line_feed ∷ []) }
{
    rest == b"\n".as_slice()
}

/// The fault of a byte other than `0` after the maximum number of literals.
fn after_most(byte: u8) -> CubeFault
    requires { byte ≢ zero_digit }
    ensures { (read after : List ℕ) → EndsAtSpot read (BeforeLiteral true 65535)
        → IsTextFault IsCubeLine (read ++ byte ∷ after) result }
{
    if byte == b'-' || begins_number(byte) {
        CubeFault::TooLong
    } else {
        CubeFault::Spelling
    }
}

/// Whether the byte is a digit from 1 to 9.
fn begins_number(byte: u8) -> bool
    ensures { IsTrue result ↔ (49 ≤ byte) × (byte ≤ 57) }
{
    matches!(byte, b'1'..=b'9')
}

/// Whether the byte is a digit from 0 to 9.
fn is_digit(byte: u8) -> bool
    ensures { IsTrue result ↔ IsDigit byte }
{
    matches!(byte, b'0'..=b'9')
}

/// Reads a literal with the given first byte, and the space after it. Returns the literal and the
/// rest.
fn read_literal(first: u8, after: &[u8]) -> Result<(i64, &[u8]), CubeFault>
    requires { first ≢ zero_digit }
    ensures literal { IfOk result (λ read. ReadsLiteral (first ∷ after.now) read.0 read.1.now) }
    ensures fault { IfErr result (IsRestFault (BeforeLiteral true) (first ∷ after.now)) }
{
    if first == b'-' {
        let (number, rest) = read_number(after)?;
        return Ok((literal_of(true, number), rest));
    }
    if !begins_number(first) {
        return Err(CubeFault::Spelling);
    }
    let (number, rest) = read_digits(first, after)?;
    Ok((literal_of(false, number), rest))
}

/// Reads a number and the space after it. Returns the number and the rest.
fn read_number(text: &[u8]) -> Result<(u64, &[u8]), CubeFault>
    ensures number { IfOk result (λ read. BeginsWithNumber text.now read.0 read.1.now) }
    ensures fault { IfErr result (IsRestFault (AfterMinus true) text.now) }
{
    let Some((&first, after)) = text.split_first() else {
        return Err(CubeFault::Spelling);
    };
    if !begins_number(first) {
        return Err(CubeFault::Spelling);
    }
    read_digits(first, after)
}

/// Reads a number with the given first digit, and the space after it. Returns the number and the
/// rest.
fn read_digits(first: u8, after: &[u8]) -> Result<(u64, &[u8]), CubeFault>
    requires low { 49 ≤ first }
    requires high { first ≤ 57 }
    ensures number { IfOk result (λ read. BeginsWithNumber (first ∷ after.now) read.0 read.1.now) }
    ensures fault { IfErr result (IsRestFault (InLiteral true 1) after.now) }
{
    let mut number = u64::from(first - b'0');
    let mut digits = 1;
    let mut rest = after;
    while let Some((&byte, next)) = rest.split_first() {
        if byte == b' ' {
            return Ok((number, next));
        }
        if !is_digit(byte) {
            return Err(CubeFault::Spelling);
        }
        if digits == MAX_DIGITS {
            return Err(CubeFault::TooLong);
        }
        number = number * 10 + u64::from(byte - b'0');
        digits += 1;
        rest = next;
    }
    Err(CubeFault::Spelling)
}

/// The literals kept so far and one more, unless that one is out of range or memory ran out.
fn with_literal(
    kept: Result<Vec<Lit>, CubeFault>,
    literal: i64,
    vars: u32,
) -> Result<Vec<Lit>, CubeFault>
    requires { vars ≤ max_variable }
    ensures { (literals : List ℤ) →
        MatchResult kept (λ old. AreKept vars literals old.items) (AreNotKept vars literals) →
        MatchResult result (λ new. AreKept vars (literals ++ literal ∷ []) new.items)
        (AreNotKept vars (literals ++ literal ∷ [])) }
{
    let Some(literal) = literal_within(literal, vars) else {
        return Err(CubeFault::Range);
    };
    let mut literals = kept?;
    match literals.push(literal) {
        Ok(()) => Ok(literals),
        Err(_) => Err(CubeFault::Memory),
    }
}

/// The literal with this value, if it is over the variables 1 to `vars`.
fn literal_within(value: i64, vars: u32) -> Option<Lit>
    requires { vars ≤ max_variable }
    ensures within { IsSome result ↔ IsLiteral vars value }
    ensures value { IfSome result (λ literal. literal ≡ value) }
{
    match Lit::new(value) {
        Some(literal) if literal.var() <= vars => Some(literal),
        _ => None,
    }
}
