//! The rule of the row, which holds between any two steps of any threads, and a type for each kind
//! of step. The prover shows for each kind that a step keeps the rule, and what the step's caller
//! learns.
use atomic_table::{Join, Play, Split, Table, TableRule};
use lrup_model::{Formula, Layout};
use std::alloc::Global;
use std::marker::{Model, PhantomData};
use std::snapshot::Snapshot;

/// What a token knows: a thread state for each of its streams. A thread state is what the thread
/// that checks the stream knows of the row: what it has seen, where the stream's free room begins,
/// and the draft. Ghost type: used in contracts only, never constructed.
pub struct Knowledge {
    none: PhantomData<u8>,
}

impl Model for Knowledge {
    ghost use Rattle.std.specs.Prelude.{List, []};
    ghost use Rattle.idwords.specs.Seats.{ThreadState};

    ghost Value = { List ThreadState };

    ghost view = { λ _. [] };
}

/// The formula and the layout that the rule is about. A `Snapshot` exists for contracts only, so
/// the formula takes no bytes here.
#[derive(Drop)]
pub struct Plan {
    pub formula: Snapshot<Formula>,
    pub layout: Layout,
}

/// The rule: some legal history leads to exactly these words. The history that each stream has seen
/// is a prefix of that history, and contains all calls of the stream, in the order in which the
/// stream made them. In a legal history each reply is correct, given the earlier calls.
pub struct RowInvariant;

impl TableRule<u8, Knowledge, Plan> for RowInvariant {
    ghost use Rattle.idwords.specs.internal.Rule.{HoldsRowInvariant, opening_threads};

    ghost holds = { λ plan. HoldsRowInvariant plan.formula.value plan.layout };

    ghost first = { λ plan. opening_threads plan.formula.value plan.layout 1 plan.layout.streams };
}

/// The table of words. It uses none of the slots that `atomic_table` has for values of other types.
pub type WordTable = Table<u8, Knowledge, Plan, RowInvariant, Global>;

/// The right to take steps on the table, which `atomic_table` calls a seat. A `Seat` of this crate
/// has such a token and a few numbers. The steps are method calls on the table's field `shared`.
pub type StepToken = atomic_table::Seat<u8, Knowledge>;

/// The load of a fetch.
pub struct Look;

impl Play<u8, Knowledge> for Look {
    ghost use Rattle.idwords.specs.internal.Steps.{Changes, Looks};

    ghost then = { Changes Looks };
}

/// The load of a word of literals, which is not an event.
pub struct Read;

impl Play<u8, Knowledge> for Read {
    ghost use Rattle.idwords.specs.internal.Steps.{Changes, Reads};

    ghost then = { Changes Reads };
}

/// The store of a word of literals, which is not an event.
pub struct Write;

impl Play<u8, Knowledge> for Write {
    ghost use Rattle.idwords.specs.internal.Steps.{Stores};

    ghost then = { Stores };
}

/// The compare-exchange of a publish, from vacant to live.
pub struct Claim;

impl Play<u8, Knowledge> for Claim {
    ghost use Rattle.idwords.specs.internal.Steps.{Changes, Claims};

    ghost then = { Changes Claims };
}

/// The load of a retire. If no clause is live there, this load is the event, with the reply
/// `NotLive`.
pub struct Find;

impl Play<u8, Knowledge> for Find {
    ghost use Rattle.idwords.specs.internal.Steps.{Changes, Finds};

    ghost then = { Changes Finds };
}

/// The compare-exchange of a retire, from live to retired.
pub struct Retire;

impl Play<u8, Knowledge> for Retire {
    ghost use Rattle.idwords.specs.internal.Steps.{Changes, Retires};

    ghost then = { Changes (λ id v _ w. Retires id v w) };
}

/// The load of a meeting, by a token that has the thread states of two streams.
pub struct Meet;

impl Play<u8, Knowledge> for Meet {
    ghost use Rattle.idwords.specs.internal.Steps.{Joined};

    ghost then = { Joined };
}

/// Moves a token's first thread state to a new token.
pub struct SplitFirst;

impl Split<Knowledge> for SplitFirst {
    ghost use Rattle.idwords.specs.internal.Seating.{first_only, others};

    ghost left = { others };

    ghost right = { first_only };
}

/// Moves all thread states of a token to a new token.
pub struct SplitAll;

impl Split<Knowledge> for SplitAll {
    ghost use Rattle.std.specs.Prelude.{[]};

    ghost left = { λ _. [] };

    ghost right = { λ vs. vs };
}

/// Moves all thread states of a token except the first to a new token.
pub struct SplitRest;

impl Split<Knowledge> for SplitRest {
    ghost use Rattle.idwords.specs.internal.Seating.{first_only, others};

    ghost left = { first_only };

    ghost right = { others };
}

/// A token takes over the thread states of another token.
pub struct JoinAll;

impl Join<Knowledge> for JoinAll {
    ghost use Rattle.std.specs.Prelude.{◌++◌, []};

    ghost both = { λ vs ws. vs ++ ws };

    ghost spent = { [] };
}
