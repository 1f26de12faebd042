//! The only reason why a clause can't be begun.
ghost use Rattle.std.specs.Prelude.{Some, codes};

use std::error::Error;
use std::fmt;

/// The clause contains a literal and its complement.
#[derive(Clone, Copy, Debug, PartialEq, Eq)]
pub struct Tautology;

impl fmt::Display for Tautology {
    ghost output = { λ _. Some (codes "tautology") };

    fn fmt<W: fmt::Write>(&self, f: &mut fmt::Formatter<W>) -> fmt::Result {
        f.write_str("tautology")
    }
}

impl Error for Tautology {}
