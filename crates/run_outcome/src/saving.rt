//! Saves the clauses that are live after a run.
ghost use Rattle.std.specs.Prelude.{◌≡◌, ◌↔◌, ◌<◌, Err, IfOk, IsTrue, List, false, is_some, vec_len};
ghost use Rattle.lrup_model.specs.Event.{History, Reply};
ghost use Rattle.lrup_model.specs.Formula.{Cnf};
ghost use Rattle.lrup_model.specs.Layout.{Fits};
ghost use Rattle.lrup_model.specs.Plain.{PlainMoves, formula_of, plain_state};
ghost use Rattle.lrup_model.specs.State.{state};
ghost use Rattle.clause_store.specs.Passes.{AreOf, views};
ghost use Rattle.stream_check.specs.SequentialConsistency.{HaveOneHistory};
ghost use Rattle.checkpoint.specs.Checkpoints.{WritesCheckpoint};
ghost use Rattle.checkpoint.specs.Live.{fetches};
ghost use Rattle.run_outcome.specs.Saving.{CanBeSaved, SavesState, WereLeftBy, is_wanted, layout_left};

use checkpoint::{SaveFault, Wanted, save};
use clause_store::{Desk, Pass, Store};
use lrup_model::{Formula, Id, PlainMap};
use lrup_text::Sink;
use std::alloc::Global;
use stream_check::DroppedIds;

/// The clauses that a run left.
#[derive(Drop)]
pub enum Clauses {
    /// In the store of a run with threads, together with the run's passes.
    Shared(Store, Vec<Pass>),
    /// In the map of a run on one thread.
    Plain(PlainMap),
}

impl Clauses {
    /// Writes a formula of the live clauses, except those that all streams dropped, and returns the
    /// formula if the run continues. Each identity is fetched once. Allocates as `checkpoint::save`
    /// does.
    pub fn save<W: Sink>(
        self,
        alloc: Global,
        dropped: &[DroppedIds],
        goes_on: bool,
        sink: &mut W,
    ) -> Result<Option<Formula>, SaveFault>
        requires ready { CanBeSaved self }
        requires running { W.has_failed sink.old ≡ false }
        // A successful save wrote a text of a formula whose clauses all follow from the run's
        // formula.
        ensures checkpoint { (f : Cnf) (h : History) → WereLeftBy f h self
            → IfOk result (WritesCheckpoint f (W.written sink.old) (W.written sink.new)) }
        // The formula is returned exactly if the run continues.
        ensures goes_on { IfOk result (λ next. is_some next ≡ goes_on) }
        // The formula has the clauses that are live after the run's history, except those that all
        // streams dropped.
        ensures saves { (f : Cnf) (h : History) → WereLeftBy f h self
            → SavesState W.written result (state f h) (layout_left self) (is_wanted dropped.now)
            sink.old sink.new }
        ensures failed { IsTrue (W.has_failed sink.new) ↔ (result ≡ Err SaveFault.Unwritten) }
    {
        match self {
            Clauses::Shared(store, passes) => {
                save_shared(alloc, &store, passes, dropped, goes_on, sink)
            }
            Clauses::Plain(mut map) => save_plain(alloc, &mut map, dropped, goes_on, sink),
        }
    }
}

/// Selects the clauses that some stream hasn't dropped, or all clauses if there are no streams.
#[derive(Drop)]
struct NotAllDropped<'a> {
    dropped: &'a [DroppedIds],
}

impl Wanted for NotAllDropped<'_> {
    ghost wants = { λ w. is_wanted w.dropped.now };

    fn wants(&self, id: Id) -> bool {
        self.dropped.is_empty() || self.dropped.iter().any(|one| !one.has(id))
    }
}

/// Saves the clauses of a run with threads, and consumes the passes.
fn save_shared<W: Sink>(
    alloc: Global,
    store: &Store,
    passes: Vec<Pass>,
    dropped: &[DroppedIds],
    goes_on: bool,
    sink: &mut W,
) -> Result<Option<Formula>, SaveFault>
    requires of { AreOf store.now passes.items }
    requires some { 0 < vec_len passes }
    requires running { W.has_failed sink.old ≡ false }
    // A successful save wrote a text of a formula whose clauses all follow from the run's formula.
    ensures checkpoint { (f : Cnf) (h : History)
        → HaveOneHistory f store.now.layout h (views passes.items)
        → IfOk result (WritesCheckpoint f (W.written sink.old) (W.written sink.new)) }
    // The formula is returned exactly if the run continues.
    ensures goes_on { IfOk result (λ next. is_some next ≡ goes_on) }
    // The formula has the clauses that are live after the run's history, except those that all
    // streams dropped.
    ensures saves { (f : Cnf) (h : History)
        → HaveOneHistory f store.now.layout h (views passes.items) → SavesState W.written result
        (state f h) store.now.layout (is_wanted dropped.now) sink.old sink.new }
    ensures failed { IsTrue (W.has_failed sink.new) ↔ (result ≡ Err SaveFault.Unwritten) }
{
    let layout = store.layout();
    let mut passes = passes;
    let Some(pass) = passes.pop() else {
        unreachable!()
    };
    // For the proof only: by the contract of `stream` the pass is fair, so the layout fits the
    // formula.
    let _ = pass.stream();
    let mut desk = Desk::new(store, pass);
    let wanted = NotAllDropped { dropped };
    let saved = save(alloc, &mut desk, layout, &wanted, goes_on, sink);
    // For the proof only: the passes meet once more, which shows that no other stream published or
    // retired in between. So the fetched clauses are those that the run left.
    passes.push_reserved(desk.into_pass());
    store.meet_all(&mut passes);
    saved
}

/// Saves the clauses of a run on one thread.
fn save_plain<W: Sink>(
    alloc: Global,
    map: &mut PlainMap,
    dropped: &[DroppedIds],
    goes_on: bool,
    sink: &mut W,
) -> Result<Option<Formula>, SaveFault>
    requires fits { Fits map.old.layout (formula_of map.old) }
    requires running { W.has_failed sink.old ≡ false }
    // A successful save wrote a text of a formula whose clauses all follow from the map's formula.
    ensures checkpoint { IfOk result
        (WritesCheckpoint (formula_of map.old) (W.written sink.old) (W.written sink.new)) }
    ensures goes_on { IfOk result (λ next. is_some next ≡ goes_on) }
    // The formula has the clauses that are live in the map, except those that all streams dropped.
    ensures saves { SavesState W.written result (plain_state map.old) map.old.layout
        (is_wanted dropped.now) sink.old sink.new }
    // The map answered these fetches, and no other call was made.
    ensures moves { (replies : List Reply)
        × PlainMoves map.old map.new 1 (fetches 1 1 replies) }
    ensures failed { IsTrue (W.has_failed sink.new) ↔ (result ≡ Err SaveFault.Unwritten) }
{
    let layout = *map.layout();
    // For the proof only: by the contract of `streams` there is a stream.
    let _ = layout.streams();
    let mut desk = map.desk(1);
    let wanted = NotAllDropped { dropped };
    save(alloc, &mut desk, &layout, &wanted, goes_on, sink)
}
