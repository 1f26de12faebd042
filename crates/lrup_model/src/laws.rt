//! Laws of the definitions. Each function does nothing: its contract is the law.
ghost use Rattle.lrup_model.specs.Laws.{PropagationSound, WithinRefutes, ClausesFollow, OwnCallsDecide, EntriesAdvance, KnownStays, PassSteps};

/// If hints derive a clause, and all hinted clauses follow from a formula, then so does the clause.
pub fn propagation_sound()
    ensures { PropagationSound }
{}

/// If a clause follows from a formula, and assumptions make the clause false, no assignment
/// satisfies both the formula and the assumptions.
pub fn within_refutes()
    ensures { WithinRefutes }
{}

/// Every clause that a legal history leaves, live or retired, follows from the formula.
pub fn clauses_follow()
    ensures { ClausesFollow }
{}

/// What a legal history leaves under a stream's own identity depends only on the stream's calls.
pub fn own_calls_decide()
    ensures { OwnCallsDecide }
{}

/// An entry goes from absent to live to retired, never back, and its clause never changes.
pub fn entries_advance()
    ensures { EntriesAdvance }
{}

/// A clip that is known in a view stays known, with the same literals, through all later calls.
pub fn known_stays()
    ensures { KnownStays }
{}

/// A pass's calls change its caller's view only as `CallerStep` says.
pub fn pass_steps()
    ensures { PassSteps }
{}
