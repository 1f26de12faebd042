//! Lines, comments and tokens, read once from left to right.
ghost use Rattle.std.specs.Prelude.{neg_ℤ, pos, ◌↔◌, true, false, MatchOption, IsTrue, ◌≡◌, ◌+◌, ◌-◌, ◌<◌, ◌≤◌, ◌^◌, [], ◌∷◌, length, drop, if◌then◌else◌};
ghost use Rattle.dimacs.specs.Lines.{lines_of, runs, is_separator as separates};
ghost use Rattle.dimacs.specs.internal.Places.{lines_at, lines_at_start, tokens_at, first_run, after_run, IsAtToken, ReadsNumeral, FindsNext};
ghost use Rattle.dimacs.specs.Numerals.{is_numeral, all_digits, is_digit as counts};
ghost use Rattle.lrup_model.specs.Literal.{max_variable};

use lrup_model::Lit;
use memchr::memchr;

/// The first byte of a comment.
const COMMENT: u8 = b'c';

/// The rest of a file, from an index that isn't inside a token or a comment.
#[derive(Drop)]
pub struct Tokens<'a> {
    rest: &'a [u8],
    line: u64,
    ghost countable: { line + length rest.now < 2 ^ 64 },
}

/// The next token of a formula's clauses.
#[derive(Clone, Copy)]
pub enum Next {
    /// There is no token left.
    End,
    /// A token that can't occur in a clause.
    Bad,
    /// A number whose magnitude is above the number of variables.
    Range,
    /// The 0 that ends a clause.
    Zero,
    /// A literal over the formula's variables.
    Literal(Lit),
}

/// Whether the byte separates tokens: space, tab, CR or LF.
pub(crate) fn is_separator(byte: u8) -> bool
    ensures { result ≡ separates byte }
{
    matches!(byte, b' ' | b'\t' | b'\r' | b'\n')
}

fn is_digit(byte: u8) -> bool
    ensures value { result ≡ counts byte }
    ensures bound { IsTrue result → (48 ≤ byte) × (byte ≤ 57) }
{
    byte.is_ascii_digit()
}

/// Whether a token ends here.
fn ends_token(rest: &[u8]) -> bool
    ensures { IsTrue result ↔ (first_run rest.now ≡ []) }
{
    match rest.split_first() {
        Some((&byte, _)) => is_separator(byte),
        None => true,
    }
}

/// The largest variable that any formula may have.
pub(crate) const MAX_VARIABLE: u32 = Lit::MAX_VARIABLE;

/// Skips digits up to the end of their token, and returns the rest. `None` if the token contains
/// another byte.
#[cold]
#[inline(never)]
fn skip_digits(text: &[u8]) -> Option<&[u8]>
    ensures { MatchOption result
        (all_digits (first_run text.now) ≡ false)
        (λ rest. (all_digits (first_run text.now) ≡ true) × (rest.now ≡ after_run text.now)) }
{
    let mut rest = text;
    while let Some((&byte, after)) = rest.split_first() {
        if is_separator(byte) {
            break;
        }
        if !is_digit(byte) {
            return None;
        }
        rest = after;
    }
    Some(rest)
}

/// Reads a number that begins with a digit from 1 to 9, up to the end of its token, and returns the
/// number and the rest. For a number above `MAX_VARIABLE` the result may be any number above that
/// limit. `None` if the token has another spelling.
pub(crate) fn numeral(text: &[u8]) -> Option<(u32, &[u8])>
    ensures { MatchOption result (is_numeral (first_run text.now) ≡ false)
        (λ r. ReadsNumeral text.now r.0 r.1.now) }
{
    let Some((&first, mut rest)) = text.split_first() else {
        return None;
    };
    if first == b'0' || !is_digit(first) {
        return None;
    }
    let mut value = u32::from(first - b'0');
    while let Some((&byte, after)) = rest.split_first() {
        if !is_digit(byte) {
            if is_separator(byte) {
                break;
            }
            return None;
        }
        if value > MAX_VARIABLE {
            return match skip_digits(rest) {
                Some(rest) => Some((value, rest)),
                None => None,
            };
        }
        value = 10 * value + u32::from(byte - b'0');
        rest = after;
    }
    Some((value, rest))
}

/// The text, without its sign if it has one.
fn after_sign(text: &[u8], signed: bool) -> &[u8]
    requires { IsTrue signed → 0 < length text.now }
    ensures { result.now ≡ (if signed then drop 1 text.now else text.now) }
{
    &text[usize::from(signed)..]
}

/// The literal of this variable, from 1 to `MAX_VARIABLE`.
fn literal(variable: u32, negative: bool) -> Lit
    requires some { 0 < variable }
    requires few { variable ≤ max_variable }
    ensures { result ≡ (if negative then neg_ℤ (pos variable) else pos variable) }
{
    let number = i64::from(variable);
    Lit::new(if negative { -number } else { number }).unwrap()
}

impl<'a> Tokens<'a> {
    /// All the tokens of a file.
    pub fn new(bytes: &'a [u8]) -> Self
        ensures { lines_at result.line result.rest.now ≡ lines_of bytes.now }
    {
        let mut tokens = Tokens {
            rest: bytes,
            line: 1,
        };
        tokens.skip_comments();
        tokens
    }

    /// The number of the current line, counted from 1.
    pub fn line(&self) -> u64
        ensures { result ≡ self.now.line }
    {
        self.line
    }

    /// Goes to the end of the next line that has a token, and returns that line from its first
    /// token on. `None` at the end of the file.
    pub fn next_line(&mut self) -> Option<&'a [u8]>
        ensures { MatchOption result
            (lines_at self.old.line self.old.rest.now ≡ [])
            (λ line. lines_at self.old.line self.old.rest.now
            ≡ record { number = self.new.line; tokens = runs line.now }
            ∷ lines_at self.new.line self.new.rest.now) }
    {
        self.skip();
        if self.rest.is_empty() {
            return None;
        }
        let end = memchr(b'\n', self.rest).unwrap_or(self.rest.len());
        let (line, rest) = self.rest.split_at(end);
        self.rest = rest;
        Some(line)
    }

    /// Takes the next token, for a formula of `vars` variables.
    pub fn next(&mut self, vars: u32) -> Next
        requires { vars ≤ max_variable }
        ensures { FindsNext vars self.new.line
            (tokens_at self.old.line self.old.rest.now) (tokens_at self.new.line self.new.rest.now)
            result }
    {
        self.skip();
        let Some((&first, after)) = self.rest.split_first() else {
            return Next::End;
        };
        if first == b'0' {
            if !ends_token(after) {
                return Next::Bad;
            }
            self.rest = after;
            return Next::Zero;
        }
        let negative = first == b'-';
        let digits = after_sign(self.rest, negative);
        let Some((value, rest)) = numeral(digits) else {
            return Next::Bad;
        };
        if value > vars {
            return Next::Range;
        }
        self.rest = rest;
        Next::Literal(literal(value, negative))
    }

    /// Skips the comments that begin here, at the start of a line.
    fn skip_comments(&mut self)
        ensures same { lines_at self.new.line self.new.rest.now
            ≡ lines_at_start self.old.line self.old.rest.now }
        ensures shorter { length self.new.rest.now ≤ length self.old.rest.now }
    {
        while let Some((&first, after)) = self.rest.split_first() {
            if first != COMMENT {
                break;
            }
            match memchr(b'\n', after) {
                Some(end) => {
                    self.rest = &after[end + 1..];
                    self.line += 1;
                }
                None => self.rest = &[],
            }
        }
    }

    /// Goes to the next token, or to the end.
    fn skip(&mut self)
        ensures same { lines_at self.new.line self.new.rest.now
            ≡ lines_at self.old.line self.old.rest.now }
        ensures place { IsAtToken self.new.rest.now }
        ensures shorter { length self.new.rest.now ≤ length self.old.rest.now }
    {
        while let Some((&byte, rest)) = self.rest.split_first() {
            if byte == b'\n' {
                self.rest = rest;
                self.line += 1;
                self.skip_comments();
            } else if is_separator(byte) {
                self.rest = rest;
            } else {
                break;
            }
        }
    }
}
