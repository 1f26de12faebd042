//! Why a file isn't a formula.
ghost use Rattle.std.specs.Prelude.{◌≡◌};
ghost use Rattle.dimacs.specs.declared.fault.DimacsFault.TheVariants.{Memory};

use std::alloc::AllocError;
use thiserror::Error;

/// Why a file was refused: its first fault in byte order. The header is judged as a whole line, and
/// the tokens after it one by one. If one token, or the header, has several faults, the first one
/// in this list is given. Lines are counted from 1.
#[derive(Clone, Copy, Debug, PartialEq, Eq, Error)]
pub enum DimacsFault {
    /// No line has a token, or the first line that has one doesn't begin with the token `p`.
    #[error("formula refused: no header")]
    NoHeader,
    /// The header isn't spelled `p cnf V C`, with two numbers that have no sign and no leading
    /// zero.
    #[error("formula refused: bad header")]
    BadHeader,
    /// A token in this line isn't a number, or has a plus sign or a leading zero.
    #[error("formula refused: bad number in line {0}")]
    BadNumber(u64),
    /// A number in this line has a magnitude above the header's number of variables.
    #[error("formula refused: variable out of range in line {0}")]
    VariableRange(u64),
    /// The file ends inside a clause.
    #[error("formula refused: open clause")]
    OpenClause,
    /// The file has fewer clauses than the header says.
    #[error("formula refused: too few clauses")]
    TooFew,
    /// There is a token in this line after the last clause that the header announces.
    #[error("formula refused: too many clauses in line {0}")]
    TooMany(u64),
    /// More than 16,777,215 variables or clauses, or more than 1,048,575 literals written in one
    /// clause.
    #[error("formula refused: limit")]
    Limit,
    /// Memory was refused. The file may be a formula.
    #[error("out of memory")]
    Memory,
}

impl From<AllocError> for DimacsFault {
    ghost from_gives = { λ _ fault. fault ≡ Memory };

    fn from(_error: AllocError) -> Self {
        DimacsFault::Memory
    }
}
