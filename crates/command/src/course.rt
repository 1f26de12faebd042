//! What the rounds of a run share, and what one round hands to the next.
ghost use Rattle.std.specs.Prelude.{◌≡◌, ◌<◌, ◌≤◌};
ghost use Rattle.stream_check.specs.StreamParams.{max_tries};
ghost use Rattle.run_files.specs.Asked.{options_by};

use checkpoint::SaveFault;
use command_line::{CommandLine, Sizes};
use lrup_model::{Cube, Formula};
use portfolio::{Options, Verdict};
use run_files::CommandFault;
use std::borrow::Cow;
use std::time::Instant;
use stream_check::Report;

/// What is the same in all rounds: the command line, and the assumed literals.
#[derive(Clone, Copy)]
pub(crate) struct Course<'a> {
    pub(crate) line: &'a CommandLine<'a>,
    pub(crate) cube: &'a Cube,
    ghost few: { line.now.tries ≤ max_tries },
}

impl Course<'_> {
    /// The options of a round with these sizes. Such options exist, since `few` limits the tries.
    pub(crate) fn options(&self, sizes: Sizes) -> Options
        ensures { result ≡ options_by self.now.line.now.tries sizes }
    {
        Options::new(self.line.tries, sizes.lines, sizes.room).unwrap()
    }
}

/// A round whose streams are open.
#[derive(Drop)]
pub(crate) struct OpenRound<'a, R: Drop> {
    /// The round's number, counted from 1.
    pub(crate) number: u64,
    pub(crate) sizes: Sizes,
    /// Its formula. That of round 1 may be lent; all later ones are owned.
    pub(crate) formula: Cow<'a, Formula>,
    /// The readers of its streams, `sizes.streams` in number.
    pub(crate) readers: Vec<R>,
}

/// A round that was checked.
#[derive(Drop)]
pub(crate) struct CheckedRound {
    /// The round's number, counted from 1.
    pub(crate) number: u64,
    pub(crate) sizes: Sizes,
    /// The report of each stream, in order.
    pub(crate) reports: Vec<Report>,
    /// The verdict of the reports.
    pub(crate) verdict: Verdict,
    /// Why the checkpoint wasn't saved, if it wasn't.
    pub(crate) unsaved: Option<SaveFault>,
    /// When the round's streams finished, if rounds and `--watch` were asked for and the clock gave
    /// the time.
    pub(crate) ended_at: Option<Instant>,
    ghost some: { 0 < sizes.streams },
}

/// A round that was checked, and the next round's formula, if the run continues.
#[derive(Drop)]
pub(crate) struct RoundResult {
    pub(crate) last: CheckedRound,
    pub(crate) next: Option<Formula>,
}

/// Why a round has no report.
#[derive(Drop)]
pub(crate) struct RoundFault {
    /// The round's number, counted from 1.
    pub(crate) round: u64,
    pub(crate) fault: CommandFault,
}
