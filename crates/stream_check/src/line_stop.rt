//! Why a line ends the stream.
ghost use Rattle.std.specs.Prelude.{◌≡◌};
ghost use Rattle.stream_check.specs.internal.Taking.{ending_of};

use crate::fault::Fault;
use crate::report::Ending;

/// Why a line ends the stream.
#[derive(Clone, Copy)]
pub enum LineStop {
    /// The line is bad.
    Bad(Fault),
    /// Memory was refused for an identity that the line drops.
    Memory,
}

impl From<Fault> for LineStop {
    ghost use Rattle.stream_check.specs.declared.line_stop.LineStop.TheVariants.{Bad};

    ghost from_gives = { λ fault stop. stop ≡ Bad fault };

    fn from(fault: Fault) -> LineStop {
        LineStop::Bad(fault)
    }
}

impl LineStop {
    /// How the stream ends if the line with this number ended it for this reason.
    pub fn ending(self, line: u64) -> Ending
        ensures { result ≡ ending_of line self }
    {
        match self {
            LineStop::Bad(fault) => Ending::Bad(line, fault),
            LineStop::Memory => Ending::Memory(line),
        }
    }
}
