//! The options of a run.
ghost use Rattle.std.specs.Prelude.{◌≡◌, ◌≤◌, ◌<◌, ◌↔◌, IsNone, IfSome, IfOk, IfErr};
ghost use Rattle.lrup_model.specs.Layout.{IsLayout, IsFault, Fits};
ghost use Rattle.lrup_model.specs.declared.layout.LayoutFault.{LayoutFault};
ghost use Rattle.run_outcome.specs.Outcomes.{layout_of};
ghost use Rattle.stream_check.specs.StreamParams.{max_tries};

use lrup_model::{Formula, Layout, LayoutFault};
use std::marker::Model;
use stream_check::Checker;

/// The options of a run: how many times a vacant identity of another stream is fetched again, and
/// how much each stream may publish.
#[derive(Clone, Copy, Debug, PartialEq, Eq)]
pub struct Options {
    tries: u64,
    lines: u64,
    room: u64,
}

impl Model for Options {
    ghost use Rattle.run_outcome.specs.Outcomes.{OptionsValue};
    ghost use Rattle.stream_check.specs.StreamParams.{max_tries};
    ghost use Rattle.std.specs.Prelude.{◌≤◌};

    ghost Value = { OptionsValue };

    ghost view = { λ o. record { tries = o.tries; lines = o.lines; room = o.room } };

    ghost invariant = { λ o. o.tries ≤ max_tries };

    ghost inverse = { λ o. record { tries = o.tries; lines = o.lines; room = o.room } };
}

impl Options {
    /// The largest number of tries.
    pub const MAX_TRIES: u64 = Checker::MAX_TRIES;

    /// Options with which a vacant hint is fetched again up to `tries` times, and each stream has
    /// `lines` identities and room for `room` literals. `None` exactly if `tries` is above
    /// 1,000,000. `layout` says whether a formula and a number of streams fit.
    pub fn new(tries: u64, lines: u64, room: u64) -> Option<Options>
        ensures none { IsNone result ↔ (max_tries < tries) }
        ensures some { IfSome result (λ o.
            o ≡ record { tries = tries; lines = lines; room = room }) }
    {
        if tries > Options::MAX_TRIES {
            return None;
        }
        Some(Options { tries, lines, room })
    }

    /// How many times a vacant identity of another stream is fetched again: at most 1,000,000.
    pub fn tries(&self) -> u64
        ensures tries { result ≡ self.now.tries }
        ensures limit { self.now.tries ≤ max_tries }
    {
        self.tries
    }

    /// The layout of a formula and `streams` streams, or why there is no layout.
    pub fn layout(&self, formula: &Formula, streams: usize) -> Result<Layout, LayoutFault>
        ensures layout { IfOk result (λ layout. (layout ≡ layout_of self.now formula.now streams)
            × IsLayout layout × Fits layout formula.now) }
        ensures fault { IfErr result (IsFault (layout_of self.now formula.now streams)) }
    {
        Layout::new(
            u64::from(formula.vars()),
            formula.len() as u64,
            formula.literals() as u64,
            streams as u64,
            self.lines,
            self.room,
        )
    }
}
