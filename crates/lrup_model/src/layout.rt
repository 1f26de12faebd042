//! The sizes of a run, and who owns an identity.
ghost use Rattle.std.specs.Prelude.{◌≡◌, ◌↔◌, ◌+◌, ◌*◌, ◌≤◌, ◌<◌, IsTrue, IfOk, IfErr, Some};
ghost use Rattle.lrup_model.specs.Formula.{max_clauses};
ghost use Rattle.lrup_model.specs.Layout.{layout_value, IsLayout, IsFault, layout_fault_text, Fits, IsIdentity, owner, last_identity, row_words, max_streams, max_row_words};

use crate::formula::Formula;
use crate::lit::Lit;
use std::error::Error;
use std::fmt;
use std::marker::Model;

/// Who owns an identity.
#[derive(Clone, Copy, Debug, PartialEq, Eq)]
pub enum Owner {
    /// A clause of the formula; no stream owns it.
    Formula,
    /// The stream with this number (from 1) owns it.
    Stream(u64),
    /// Not an identity: 0, or above the last one.
    Outside,
}

/// Why some sizes have no layout. If several faults apply, the first in this order is reported.
#[derive(Clone, Copy, Debug, PartialEq, Eq)]
pub enum LayoutFault {
    /// More than 16,777,215 variables.
    TooManyVariables,
    /// More than 16,777,215 clauses in the formula.
    TooManyClauses,
    /// No stream, or more than 64.
    BadStreamCount,
    /// The shared row would have more than 2^28 words.
    RowTooLong,
}

impl fmt::Display for LayoutFault {
    ghost output = { λ fault. Some (layout_fault_text fault) };

    fn fmt<W: fmt::Write>(&self, f: &mut fmt::Formatter<W>) -> fmt::Result {
        f.write_str(match self {
            LayoutFault::TooManyVariables | LayoutFault::TooManyClauses => "formula refused: limit",
            LayoutFault::BadStreamCount => "stream count",
            LayoutFault::RowTooLong => "row too long",
        })
    }
}

impl Error for LayoutFault {}

/// The sizes of a run: the formula's sizes, the number of streams, and how many identities and how
/// much room, in literals, each stream has.
#[derive(Clone, Copy, Debug, PartialEq, Eq)]
pub struct Layout {
    vars: u32,
    clauses: u32,
    literals: u32,
    streams: u32,
    /// How many identities each stream has, i.e. how many lines of its proof can be additions.
    lines: u32,
    /// How many literals the clauses of each stream may have in total.
    room: u32,
}

impl Model for Layout {
    ghost use Rattle.lrup_model.specs.Layout.{LayoutValue, IsLayout};

    ghost Value = { LayoutValue };

    ghost view = { λ l. record { vars = l.vars; clauses = l.clauses; literals = l.literals; streams = l.streams; lines = l.lines; room = l.room } };

    ghost invariant = { λ l. IsLayout (record { vars = l.vars; clauses = l.clauses; literals = l.literals; streams = l.streams; lines = l.lines; room = l.room }) };

    ghost inverse = { λ p. record { vars = p.vars; clauses = p.clauses; literals = p.literals; streams = p.streams; lines = p.lines; room = p.room } };
}

impl Layout {
    /// The largest number of streams.
    pub const MAX_STREAMS: u64 = 64;

    /// The largest number of words of the shared row, 2^28.
    pub const MAX_ROW_WORDS: u64 = 268_435_456;

    /// The layout for a formula with this many variables, clauses and literals, for this many
    /// streams, and for this many identities (`lines`) and literals (`room`) per stream. The fault
    /// is the first that applies, in the order in which `LayoutFault` lists them.
    pub fn new(
        vars: u64,
        clauses: u64,
        literals: u64,
        streams: u64,
        lines: u64,
        room: u64,
    ) -> Result<Layout, LayoutFault>
        ensures layout { let layout = layout_value vars clauses literals streams lines room in
            IfOk result (λ given. (given ≡ layout) × IsLayout layout) }
        // The tests are in the order of the faults, so the result is the first fault that applies.
        ensures fault { IfErr result
            (IsFault (layout_value vars clauses literals streams lines room)) }
    {
        if vars > u64::from(Lit::MAX_VARIABLE) {
            return Err(LayoutFault::TooManyVariables);
        }
        if clauses > u64::from(Formula::MAX_CLAUSES) {
            return Err(LayoutFault::TooManyClauses);
        }
        if streams == 0 || streams > Layout::MAX_STREAMS {
            return Err(LayoutFault::BadStreamCount);
        }
        if !row_fits(clauses, literals, streams, lines, room) {
            return Err(LayoutFault::RowTooLong);
        }
        Ok(Layout {
            vars: vars as u32,
            clauses: clauses as u32,
            literals: literals as u32,
            streams: streams as u32,
            lines: lines as u32,
            room: room as u32,
        })
    }

    /// Whether this layout has the formula's sizes.
    pub fn fits(&self, formula: &Formula) -> bool
        ensures { IsTrue result ↔ Fits self.now formula.now }
    {
        self.vars == formula.vars()
            && self.clauses as usize == formula.len()
            && self.literals as usize == formula.literals()
    }

    /// Who owns the identity: after the formula's identities, the streams own one identity each in
    /// turn, stream 1 first.
    pub fn owner(&self, id: u64) -> Owner
        ensures { result ≡ owner self.now id }
    {
        let clauses = self.clauses as u64;
        if id == 0 {
            Owner::Outside
        } else if id <= clauses {
            Owner::Formula
        } else if id <= self.last_identity() {
            // An identity is below 2^28, so a 32-bit division is enough.
            let place = id as u32 - self.clauses - 1;
            Owner::Stream(u64::from(place % self.streams) + 1)
        } else {
            Owner::Outside
        }
    }

    /// The number of variables, at most 16,777,215.
    pub fn vars(&self) -> u32
        ensures vars { result ≡ self.now.vars }
        ensures limits { IsLayout self.now }
    {
        self.vars
    }

    /// The number of the formula's clauses, at most 16,777,215.
    pub fn clauses(&self) -> u32
        ensures clauses { result ≡ self.now.clauses }
        ensures limits { IsLayout self.now }
    {
        self.clauses
    }

    /// The number of streams, 1 to 64.
    pub fn streams(&self) -> u64
        ensures streams { result ≡ self.now.streams }
        ensures limits { IsLayout self.now }
    {
        self.streams as u64
    }

    /// The room of each stream, in literals.
    pub fn room(&self) -> u64
        ensures room { result ≡ self.now.room }
        ensures limits { IsLayout self.now }
    {
        self.room as u64
    }

    /// The room of all streams together, in literals, below 2^28.
    pub fn all_room(&self) -> u64
        ensures room { result ≡ self.now.streams * self.now.room }
        ensures limits { IsLayout self.now }
    {
        self.streams as u64 * self.room as u64
    }

    /// The last identity, below 2^28.
    pub fn last_identity(&self) -> u64
        ensures last { result ≡ last_identity self.now }
        ensures limits { IsLayout self.now }
    {
        self.clauses as u64 + self.streams as u64 * self.lines as u64
    }

    /// The number of words of the shared row, 1 to 2^28: one that stays 0, one for each identity,
    /// and one for each literal of the formula and of the streams' room.
    pub fn row_words(&self) -> u64
        ensures words { result ≡ row_words self.now }
        ensures limits { IsLayout self.now }
    {
        1 + self.last_identity() + self.literals as u64 + self.all_room()
    }

    /// Whether this number is an identity: at least 1, and at most the last one.
    pub fn covers(&self, id: u64) -> bool
        ensures { IsTrue result ↔ IsIdentity self.now id }
    {
        0 < id && id <= self.last_identity()
    }
}

/// Whether the row has at most 2^28 words. No sum here exceeds 64 bits.
fn row_fits(clauses: u64, literals: u64, streams: u64, lines: u64, room: u64) -> bool
    requires clauses { clauses ≤ max_clauses }
    requires some_stream { 0 < streams }
    requires streams { streams ≤ max_streams }
    ensures { IsTrue result
        ↔ (1 + (clauses + streams * lines) + literals + streams * room ≤ max_row_words) }
{
    const MOST: u64 = Layout::MAX_ROW_WORDS;
    if literals > MOST || lines > MOST || room > MOST {
        return false;
    }
    1 + clauses + streams * lines + literals + streams * room <= MOST
}
