//! Reads one line, in any number of pieces.
ghost use Rattle.std.specs.Prelude.{◌≡◌, ◌<◌, ◌+◌, ◌-◌, ◌*◌, ◌^◌, ◌↔◌, [], length, IfOk, IfSome, IfNone, IsTrue, unsigned_abs};
ghost use Rattle.std.specs.Fmt.{signed_decimal};
ghost use Rattle.lrup_text.specs.Grammar.{IsDigit};
ghost use Rattle.lrup_text.specs.internal.Kernel.{EndsLine};
ghost use Rattle.lrup_text.specs.Lines.{line_of, LineText};
ghost use Rattle.lrup_text.specs.internal.Reading.{IsPartialLine, ReadsAhead, ReadsByte, StepsThrough, literal_front, pending, line_so_far};

use crate::kernel::{read_line, read_words_ahead};
use crate::{Line, LineFault};
use memchr::memchr;
use std::alloc::{AllocError, Global};

/// The maximum number of digits of a number.
pub const MAX_DIGITS: usize = 18;
/// The largest number with `MAX_DIGITS` digits.
pub const MAX_NUMBER: u64 = 999_999_999_999_999_999;
/// The maximum number of literals of an addition or of an import.
pub const MAX_LITERALS: usize = 65_535;
/// The maximum number of hints of an addition, and of identities of a deletion.
pub const MAX_IDENTITIES: usize = 65_536;

/// What may come next in a line.
#[derive(Clone, Copy)]
pub enum ParserState {
    /// The line's first digit.
    Start,
    /// More of the line's first number.
    Lead,
    /// The space after the `i` of an import.
    Import,
    /// A literal, the `0` after the literals, the `d` of a deletion, or the `i` of an import.
    Body,
    /// The number of a literal, after its sign.
    Minus,
    /// More of a literal's number.
    Literal,
    /// The space before a list.
    List,
    /// An item of a list, or the `0` that closes it.
    Item,
    /// More of an item.
    Number,
    /// The LF.
    LineEnd,
}

/// The effect of a byte.
#[derive(Clone, Copy)]
pub enum ByteStep {
    /// The line continues.
    More,
    /// The line is complete.
    Done,
    /// No line begins like this.
    Refused(LineFault),
}

/// The part of a line that has been read so far.
#[derive(Drop)]
pub struct PartialLine {
    /// What may come next.
    pub state: ParserState,
    /// Whether the line is an import.
    pub imports: bool,
    /// Whether the line is a deletion.
    pub deletes: bool,
    /// Whether the literal that is being read has a sign.
    pub negative: bool,
    /// How many digits of the current number were read.
    pub digits: usize,
    /// The current number.
    pub number: u64,
    /// The line's first number.
    pub lead: u64,
    /// How many literals were read, at most 65,535.
    pub literal_count: usize,
    /// How many hints, or identities of a deletion, were read, at most 65,536.
    pub identity_count: usize,
    /// Room for all literals that a line can have; those already read are at the front.
    pub literals: Vec<i64>,
    /// Room for all hints or identities that a line can have; those already read are at the front.
    pub identities: Vec<u64>,
}

/// The effect of some bytes of a piece.
#[derive(Clone, Copy)]
pub struct BytesRead {
    /// How many bytes were used.
    pub used: usize,
    /// The effect of the last byte used.
    pub step: ByteStep,
}

impl PartialLine {
    /// A line of which no byte was read, with all the memory that it may need.
    pub fn new(alloc: Global) -> Result<PartialLine, AllocError>
        ensures { IfOk result (λ line. IsPartialLine line × (pending line ≡ [])) }
    {
        let literals = places(alloc, 0i64, MAX_LITERALS)?;
        let identities = places(alloc, 0u64, MAX_IDENTITIES)?;
        Ok(PartialLine {
            state: ParserState::Start,
            imports: false,
            deletes: false,
            negative: false,
            // The invariant requires a number of 1 to 18 digits even before the first one is read.
            digits: 1,
            number: 1,
            lead: 1,
            literal_count: 0,
            identity_count: 0,
            literals,
            identities,
        })
    }

    /// Whether no byte of a line was read.
    pub fn is_empty(&self) -> bool
        requires { IsPartialLine self.now }
        ensures { IsTrue result ↔ (pending self.now ≡ []) }
    {
        matches!(self.state, ParserState::Start)
    }

    /// The line that was read.
    pub fn line(&self) -> Line<'_>
        requires { IsPartialLine self.now }
        ensures { line_of result ≡ line_so_far self.now }
    {
        let literals = &self.literals[..self.literal_count];
        let identities = &self.identities[..self.identity_count];
        if self.imports {
            Line::Import {
                id: self.lead,
                lits: literals,
            }
        } else if self.deletes {
            Line::Delete {
                lead: self.lead,
                ids: identities,
            }
        } else {
            Line::Add {
                id: self.lead,
                lits: literals,
                hints: identities,
            }
        }
    }

    /// Takes bytes of a piece up to and including the end of the line, or the byte that shows that
    /// there is no line; otherwise takes all of them.
    pub fn read(&mut self, piece: &[u8]) -> BytesRead
        requires { IsPartialLine self.old }
        ensures { StepsThrough self.old piece.now result.used result.step self.new }
    {
        match self.read_at_once(piece) {
            Some(used) => BytesRead {
                used,
                step: ByteStep::Done,
            },
            None => self.read_bytes(piece),
        }
    }

    /// If no line was begun, reads a whole line at the front of the piece at once, and returns how
    /// many bytes it has.
    ///
    /// If the result is `None`, nothing was read, and the piece may still begin with a line.
    fn read_at_once(&mut self, piece: &[u8]) -> Option<usize>
        requires { IsPartialLine self.old }
        ensures whole { IfSome result
            (λ used. StepsThrough self.old piece.now used ByteStep.Done self.new) }
        ensures reads { IfNone result (IsPartialLine self.new) }
        ensures same { IfNone result (pending self.new ≡ pending self.old) }
    {
        let ParserState::Start = self.state else {
            return None;
        };
        let used = memchr(b'\n', piece)? + 1;
        if self.read_whole(&piece[..used]) {
            Some(used)
        } else {
            None
        }
    }

    /// Reads the whole slice as one line, and returns whether it is one. If not, nothing was read.
    fn read_whole(&mut self, line: &[u8]) -> bool
        requires reads { IsPartialLine self.old }
        requires start { self.old.state ≡ ParserState.Start }
        requires ends { EndsLine line.now }
        ensures reads { IsPartialLine self.new }
        ensures empty { pending self.new ≡ [] }
        ensures line { IsTrue result → LineText (line_so_far self.new) line.now }
    {
        self.literal_count = 0;
        self.identity_count = 0;
        let literals = self.literals.as_mut_slice();
        let identities = self.identities.as_mut_slice();
        let Some(whole) = read_line(line, literals, identities) else {
            return false;
        };
        self.lead = whole.lead;
        self.imports = whole.imports;
        self.deletes = whole.deletes;
        self.literal_count = whole.literal_count;
        self.identity_count = whole.identity_count;
        true
    }

    /// Takes bytes of a piece as `read` does: many at once inside a list, otherwise one by one.
    #[inline(never)]
    fn read_bytes(&mut self, piece: &[u8]) -> BytesRead
        requires { IsPartialLine self.old }
        ensures { StepsThrough self.old piece.now result.used result.step self.new }
    {
        let mut used = 0;
        while used < piece.len() {
            used += self.read_ahead(&piece[used..]);
            if used < piece.len() {
                let step = self.step(piece[used]);
                used += 1;
                let ByteStep::More = step else {
                    return BytesRead { used, step };
                };
            }
        }
        BytesRead {
            used,
            step: ByteStep::More,
        }
    }

    /// Reads whole literals or items at the front of a piece, and returns how many bytes they have.
    fn read_ahead(&mut self, piece: &[u8]) -> usize
        requires { IsPartialLine self.old }
        ensures { ReadsAhead self.old piece.now result self.new }
    {
        match self.state {
            ParserState::Body => {
                let literals = self.literals.as_mut_slice();
                let (count, used) = read_words_ahead(piece, literals, self.literal_count);
                self.literal_count = count;
                used
            }
            ParserState::Item => {
                let identities = self.identities.as_mut_slice();
                let (count, used) = read_words_ahead(piece, identities, self.identity_count);
                self.identity_count = count;
                used
            }
            _ => 0,
        }
    }

    /// Takes the next byte of the line.
    pub fn step(&mut self, byte: u8) -> ByteStep
        requires { IsPartialLine self.old }
        ensures { ReadsByte self.old byte result self.new }
    {
        match self.state {
            ParserState::Start => self.step_at_start(byte),
            ParserState::Lead => self.step_in_lead(byte),
            ParserState::Import => self.step_after_import(byte),
            ParserState::Body => self.step_in_body(byte),
            ParserState::Minus => self.step_after_minus(byte),
            ParserState::Literal => self.step_in_literal(byte),
            ParserState::List => self.step_before_list(byte),
            ParserState::Item => self.step_before_item(byte),
            ParserState::Number => self.step_in_number(byte),
            ParserState::LineEnd => self.step_at_end(byte),
        }
    }

    /// Begins a number with its first digit.
    fn begin_number(&mut self, byte: u8)
        requires { IsDigit byte }
        ensures { self.new ≡ record self.old { number = byte - 48; digits = 1 } }
    {
        self.number = u64::from(byte - b'0');
        self.digits = 1;
    }

    /// Takes one more digit of a number.
    fn extend_number(&mut self, byte: u8)
        requires digit { IsDigit byte }
        requires room { self.old.digits < 18 }
        requires fits { self.old.number < 10 ^ self.old.digits }
        ensures { self.new
            ≡ record self.old {
              number = self.old.number * 10 + (byte - 48);
              digits = self.old.digits + 1;
            } }
    {
        self.number = self.number * 10 + u64::from(byte - b'0');
        self.digits += 1;
    }

    fn step_at_start(&mut self, byte: u8) -> ByteStep
        requires reads { IsPartialLine self.old }
        requires state { self.old.state ≡ ParserState.Start }
        ensures { ReadsByte self.old byte result self.new }
    {
        match byte {
            b'1'..=b'9' => {
                self.begin_number(byte);
                self.state = ParserState::Lead;
                ByteStep::More
            }
            _ => ByteStep::Refused(LineFault::Spelling),
        }
    }

    fn step_in_lead(&mut self, byte: u8) -> ByteStep
        requires reads { IsPartialLine self.old }
        requires state { self.old.state ≡ ParserState.Lead }
        ensures { ReadsByte self.old byte result self.new }
    {
        match byte {
            b'0'..=b'9' if self.digits < MAX_DIGITS => {
                self.extend_number(byte);
                ByteStep::More
            }
            b'0'..=b'9' => ByteStep::Refused(LineFault::TooLong),
            b' ' => {
                self.lead = self.number;
                // `deletes` may still have the previous line's value: only a `0` or `d` sets it,
                // and it isn't read before that.
                self.imports = false;
                self.literal_count = 0;
                self.identity_count = 0;
                self.state = ParserState::Body;
                ByteStep::More
            }
            _ => ByteStep::Refused(LineFault::Spelling),
        }
    }

    fn step_after_import(&mut self, byte: u8) -> ByteStep
        requires reads { IsPartialLine self.old }
        requires state { self.old.state ≡ ParserState.Import }
        ensures { ReadsByte self.old byte result self.new }
    {
        match byte {
            b' ' => {
                self.state = ParserState::Body;
                ByteStep::More
            }
            _ => ByteStep::Refused(LineFault::Spelling),
        }
    }

    fn step_in_body(&mut self, byte: u8) -> ByteStep
        requires reads { IsPartialLine self.old }
        requires state { self.old.state ≡ ParserState.Body }
        ensures { ReadsByte self.old byte result self.new }
    {
        match byte {
            b'0' if self.imports => {
                self.state = ParserState::LineEnd;
                ByteStep::More
            }
            b'0' => {
                self.deletes = false;
                self.state = ParserState::List;
                ByteStep::More
            }
            b'd' if self.literal_count == 0 && !self.imports => {
                self.deletes = true;
                self.state = ParserState::List;
                ByteStep::More
            }
            b'i' if self.literal_count == 0 && !self.imports => {
                self.imports = true;
                self.state = ParserState::Import;
                ByteStep::More
            }
            b'-' if self.literal_count < MAX_LITERALS => {
                self.state = ParserState::Minus;
                ByteStep::More
            }
            b'1'..=b'9' if self.literal_count < MAX_LITERALS => {
                self.negative = false;
                self.begin_number(byte);
                self.state = ParserState::Literal;
                ByteStep::More
            }
            b'-' | b'1'..=b'9' => ByteStep::Refused(LineFault::TooLong),
            _ => ByteStep::Refused(LineFault::Spelling),
        }
    }

    fn step_after_minus(&mut self, byte: u8) -> ByteStep
        requires reads { IsPartialLine self.old }
        requires state { self.old.state ≡ ParserState.Minus }
        ensures { ReadsByte self.old byte result self.new }
    {
        match byte {
            b'1'..=b'9' => {
                self.negative = true;
                self.begin_number(byte);
                self.state = ParserState::Literal;
                ByteStep::More
            }
            _ => ByteStep::Refused(LineFault::Spelling),
        }
    }

    fn step_in_literal(&mut self, byte: u8) -> ByteStep
        requires reads { IsPartialLine self.old }
        requires state { self.old.state ≡ ParserState.Literal }
        ensures { ReadsByte self.old byte result self.new }
    {
        match byte {
            b'0'..=b'9' if self.digits < MAX_DIGITS => {
                self.extend_number(byte);
                ByteStep::More
            }
            b'0'..=b'9' => ByteStep::Refused(LineFault::TooLong),
            b' ' => {
                self.literals[self.literal_count] = literal_of(self.negative, self.number);
                self.literal_count += 1;
                self.state = ParserState::Body;
                ByteStep::More
            }
            _ => ByteStep::Refused(LineFault::Spelling),
        }
    }

    fn step_before_list(&mut self, byte: u8) -> ByteStep
        requires reads { IsPartialLine self.old }
        requires state { self.old.state ≡ ParserState.List }
        ensures { ReadsByte self.old byte result self.new }
    {
        match byte {
            b' ' => {
                self.state = ParserState::Item;
                ByteStep::More
            }
            _ => ByteStep::Refused(LineFault::Spelling),
        }
    }

    fn step_before_item(&mut self, byte: u8) -> ByteStep
        requires reads { IsPartialLine self.old }
        requires state { self.old.state ≡ ParserState.Item }
        ensures { ReadsByte self.old byte result self.new }
    {
        match byte {
            b'0' => {
                self.state = ParserState::LineEnd;
                ByteStep::More
            }
            b'1'..=b'9' if self.identity_count == MAX_IDENTITIES => {
                ByteStep::Refused(LineFault::TooLong)
            }
            b'1'..=b'9' => {
                self.begin_number(byte);
                self.state = ParserState::Number;
                ByteStep::More
            }
            b'-' if !self.deletes => ByteStep::Refused(LineFault::RatHint),
            _ => ByteStep::Refused(LineFault::Spelling),
        }
    }

    fn step_in_number(&mut self, byte: u8) -> ByteStep
        requires reads { IsPartialLine self.old }
        requires state { self.old.state ≡ ParserState.Number }
        ensures { ReadsByte self.old byte result self.new }
    {
        match byte {
            b'0'..=b'9' if self.digits < MAX_DIGITS => {
                self.extend_number(byte);
                ByteStep::More
            }
            b'0'..=b'9' => ByteStep::Refused(LineFault::TooLong),
            b' ' => {
                self.identities[self.identity_count] = self.number;
                self.identity_count += 1;
                self.state = ParserState::Item;
                ByteStep::More
            }
            _ => ByteStep::Refused(LineFault::Spelling),
        }
    }

    fn step_at_end(&mut self, byte: u8) -> ByteStep
        requires reads { IsPartialLine self.old }
        requires state { self.old.state ≡ ParserState.LineEnd }
        ensures { ReadsByte self.old byte result self.new }
    {
        match byte {
            b'\n' => {
                self.state = ParserState::Start;
                ByteStep::Done
            }
            _ => ByteStep::Refused(LineFault::Spelling),
        }
    }
}

/// A buffer of `count` elements.
fn places<T: Copy>(alloc: Global, filler: T, count: usize) -> Result<Vec<T>, AllocError>
    ensures { IfOk result (λ v. length v.items ≡ count) }
{
    vec![in alloc; filler; count]
}

/// The literal with this sign and magnitude.
pub fn literal_of(negative: bool, number: u64) -> i64
    requires low { 0 < number }
    requires high { number < 10 ^ 18 }
    ensures text { signed_decimal result ≡ literal_front negative number }
    ensures magnitude { unsigned_abs result ≡ number }
{
    let magnitude = number as i64;
    if negative { -magnitude } else { magnitude }
}
