//! Why a line is bad.
ghost use Rattle.std.specs.Prelude.{◌≡◌, ◌++◌, Some};
ghost use Rattle.stream_check.specs.Faults.{fault_text, number_text};

use lrup_model::Id;
use lrup_text::LineFault;
use std::error::Error;
use std::fmt;

/// Why a line is bad. A line has at most one fault: the first one in the order in which a line is
/// judged.
#[derive(Clone, Copy, Debug, PartialEq, Eq)]
pub enum Fault {
    /// The text isn't a line.
    Text(LineFault),
    /// The identity of an addition isn't the stream's own, or doesn't exceed all that the stream
    /// published; or the number in an import is the stream's own identity, or not an identity.
    Identity,
    /// A literal's variable isn't one of the formula's.
    Literal,
    /// The clause contains a literal and its complement.
    Tautology,
    /// The stream has no room left for the clause.
    NoRoom,
    /// This hint, or identity of an import, isn't the stream's own, and an earlier line of the
    /// stream deleted it.
    Dropped(Id),
    /// Nothing was published under this hint or identity of an import, or the hint isn't an
    /// identity.
    Missing(Id),
    /// The clause of this hint, or identity of an import, was retired.
    Retired(Id),
    /// The clause of this hint is neither unit nor a conflict.
    NotUnit(Id),
    /// This hint comes after a conflict.
    Excess(Id),
    /// The hints ended without a conflict.
    NoConflict,
    /// A deletion lists this number, which is one of the stream's own identities that isn't live,
    /// an identity that the stream dropped before, or not an identity.
    NotLive(Id),
    /// The import's literals differ from the literals of the clause under this identity.
    Differs(Id),
}

impl Fault {
    /// The fault's words in the report, and the identity after them, if there is one; the words
    /// then end with a space.
    pub fn words(self) -> (&'static str, Option<Id>)
        ensures { fault_text self ≡ result.0.now ++ number_text result.1 }
    {
        match self {
            Fault::Text(LineFault::Spelling) => ("spelling", None),
            Fault::Text(LineFault::TooLong) => ("too long", None),
            Fault::Text(LineFault::Truncated) => ("truncated", None),
            Fault::Text(LineFault::RatHint) => ("rat hint", None),
            Fault::Identity => ("identity", None),
            Fault::Literal => ("literal", None),
            Fault::Tautology => ("tautology", None),
            Fault::NoRoom => ("no room", None),
            Fault::Dropped(hint) => ("dropped ", Some(hint)),
            Fault::Missing(hint) => ("missing ", Some(hint)),
            Fault::Retired(hint) => ("retired ", Some(hint)),
            Fault::NotUnit(hint) => ("not unit ", Some(hint)),
            Fault::Excess(hint) => ("excess ", Some(hint)),
            Fault::NoConflict => ("no conflict", None),
            Fault::NotLive(id) => ("not live ", Some(id)),
            Fault::Differs(id) => ("differs ", Some(id)),
        }
    }
}

impl fmt::Display for Fault {
    ghost output = { λ fault. Some (fault_text fault) };

    fn fmt<W: fmt::Write>(&self, f: &mut fmt::Formatter<W>) -> fmt::Result {
        let (words, number) = self.words();
        match number {
            None => f.write_str(words),
            Some(number) => write!(f, "{words}{number}"),
        }
    }
}

impl Error for Fault {}
