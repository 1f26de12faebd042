//! Evaluates the clauses and the assumed literals under a model's literals.
ghost use Rattle.std.specs.Prelude.{◌≡◌, ◌↔◌, ◌+◌, ◌≤◌, ◌<◌, ℤ, List, IsTrue, IfOk, MatchOption, Ok, length};
ghost use Rattle.std.specs.List.{AllByRecursion};
ghost use Rattle.lrup_model.specs.Literal.{IsLiteral, max_variable};
ghost use Rattle.lrup_model.specs.Clause.{Has};
ghost use Rattle.lrup_model.specs.Cube.{IsCubeOver};
ghost use Rattle.model_check.specs.Answers.{AreConsistent, AreSatisfiedBy, HasOneOf, IsAnswer, IsFirstMissing, IsFirstUntrue, IsModel};
ghost use Rattle.model_check.specs.internal.Marks.{AreMarked};

use crate::answer::Answer;
use crate::marks::{is_marked, mark_all, no_marks};
use lrup_model::{Cube, Formula, Lit};
use std::alloc::{AllocError, Global};

/// What the literals are to the formula and the assumed literals: the evaluation of `check_model`,
/// for a caller who has read all three. The literals may stand in any order and more than once, and
/// variables may be missing. The only failure is that memory is refused: the call takes two bytes
/// for each variable.
pub fn evaluate(
    alloc: Global,
    formula: &Formula,
    cube: &Cube,
    literals: &[Lit],
) -> Result<Answer, AllocError>
    requires over { IsCubeOver formula.now.vars cube.now }
    requires within { AllByRecursion (IsLiteral formula.now.vars) literals.now }
    // What a user relies on.
    ensures satisfied { result ≡ Ok Answer.Satisfies
        → AreSatisfiedBy formula.now cube.now literals.now }
    ensures exact { IfOk result (λ answer.
        (answer ≡ Answer.Satisfies) ↔ IsModel formula.now cube.now literals.now) }
    // Each answer.
    ensures answer { IfOk result (IsAnswer formula.now cube.now literals.now) }
{
    let vars = formula.vars();
    let mut marks = no_marks(alloc, vars)?;
    match mark_all(&mut marks, literals, vars) {
        Some(l) => Ok(Answer::Contradiction(l)),
        None => Ok(answer_of(formula, cube, &marks)),
    }
}

/// What the marked literals are, if none stands beside its complement.
fn answer_of(formula: &Formula, cube: &Cube, marks: &[bool]) -> Answer
    requires { IsCubeOver formula.now.vars cube.now }
    ensures { (literals : List ℤ) → AreMarked marks.now literals → AreConsistent literals
        → IsAnswer formula.now cube.now literals result }
{
    if let Some(number) = first_untrue(formula, marks) {
        return Answer::UntrueClause(number);
    }
    match first_missing(cube, marks, formula.vars()) {
        Some(l) => Answer::UntrueAssumption(l),
        None => Answer::Satisfies,
    }
}

/// Whether a literal of the clause is marked.
fn has_one(clause: &[Lit], marks: &[bool]) -> bool
    ensures { (literals : List ℤ) → AreMarked marks.now literals
        → IsTrue result ↔ HasOneOf literals clause.now }
{
    for l in clause {
        if is_marked(marks, *l) {
            return true;
        }
    }
    false
}

/// The number, from 1, of the first clause without a marked literal.
fn first_untrue(formula: &Formula, marks: &[bool]) -> Option<u64>
    ensures { (literals : List ℤ) → AreMarked marks.now literals → MatchOption result
        (AllByRecursion (HasOneOf literals) formula.now.clauses)
        (IsFirstUntrue formula.now.clauses literals) }
{
    for i in 0..formula.len() {
        if !has_one(formula.clause(i + 1), marks) {
            return Some(i as u64 + 1);
        }
    }
    None
}

/// The first assumed literal that isn't marked: variable by variable, the positive literal first.
fn first_missing(cube: &Cube, marks: &[bool], vars: u32) -> Option<Lit>
    requires few { vars ≤ max_variable }
    requires over { IsCubeOver vars cube.now }
    ensures { (literals : List ℤ) → AreMarked marks.now literals → MatchOption result
        (AllByRecursion (Has literals) cube.now)
        (IsFirstMissing cube.now literals) }
{
    for code in 2..2 * cube.vars() + 2 {
        let l = Lit::from_code(code);
        if cube.has(l) && !is_marked(marks, l) {
            return Some(l);
        }
    }
    None
}
