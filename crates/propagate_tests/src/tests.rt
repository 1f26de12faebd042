//! Clauses that `begin` accepts, the text of its only fault, and hints over a plain map.
ghost use Rattle.std.specs.Prelude.{◌≡◌, IfOk, IfSome, OnOk, IsTrue};
ghost use Rattle.std.specs.List.{AllByRecursion};
ghost use Rattle.lrup_model.specs.Literal.{IsLiteral};
ghost use Rattle.lrup_model.specs.Plain.{formula_of};
ghost use Rattle.lrup_model.specs.CallerView.{IsKnown, AllFollow};

use lrup_model::{ClauseMap, Clip, Fetched, Formula, Layout, Lit, PlainMap};
use propagate::{Marks, Step, Tautology};
use std::alloc::AllocError;
use std::fmt;
use std::process::Abort;
use std::test::Fail;
use test_support::lit;

/// Stops the test if two values differ. This is a function, so the assertion is proved only once.
fn same<T: PartialEq + fmt::Debug + Drop>(rt: &impl Abort, value: T, wanted: T) {
    assert_eq!(rt; value, wanted);
}

/// Stops the test if the fact is false.
fn holds(rt: &impl Abort, fact: bool)
    ensures { IsTrue fact }
{
    assert!(rt; fact);
}

/// The literal of this number, over three variables.
fn literal(rt: &impl Abort, value: i64) -> Lit
    ensures { IsLiteral 3 result }
{
    let literal = Lit::new(value).expect(rt, "no literal");
    holds(rt, literal.var() <= 3);
    literal
}

/// Begins a clause with repeats, and then the empty clause.
fn take_up(rt: &impl Abort, marks: &mut Marks) -> Result<(), Fail>
    requires { marks.old.vars ≡ 16777215 }
    ensures { marks.new.vars ≡ 16777215 }
{
    let (one, three, not_last) = (lit(1), lit(3), lit(-16_777_215));
    marks.begin(&[three, not_last, three, one, not_last])?;
    same(rt, marks.clause(), [three, not_last, one].as_slice());
    same(rt, marks.ready(), true);
    marks.begin(&[])?;
    same(rt, (marks.clause().is_empty(), marks.ready()), (true, true));
    Ok(())
}

/// Tries to begin two tautologies, and then begins a clause.
fn take_up_tautologies(rt: &impl Abort, marks: &mut Marks) -> Result<(), Fail>
    requires { marks.old.vars ≡ 16777215 }
{
    let (last, not_last) = (lit(16_777_215), lit(-16_777_215));
    same(rt, marks.begin(&[last, not_last]), Err(Tautology));
    let fault = marks.begin(&[lit(2), lit(1), lit(-2)]);
    let left = (marks.clause().is_empty(), marks.ready());
    same(rt, (fault, left), (Err(Tautology), (true, false)));
    marks.begin(&[not_last])?;
    same(rt, marks.clause(), [not_last].as_slice());
    Ok(())
}

/// Uses the largest number of variables.
#[test]
fn clauses_are_taken_up(rt: HostRuntime) -> Result<(), Fail> {
    same(&rt, Tautology.to_string(rt.alloc())?.as_str(), "tautology");
    let mut marks = Marks::new(rt.alloc(), Lit::MAX_VARIABLE)?;
    same(&rt, marks.ready(), false);
    take_up(&rt, &mut marks)?;
    take_up_tautologies(&rt, &mut marks)
}

/// Adds a clause of these two literals, over three variables.
fn push_pair(rt: &impl Abort, formula: &mut Formula, one: i64, other: i64) -> Result<(), AllocError>
    requires { formula.old.vars ≡ 3 }
    ensures { OnOk result (formula.new.vars ≡ 3) }
{
    let (one, other) = (literal(rt, one), literal(rt, other));
    holds(rt, one != other && formula.len() <= 9);
    formula.push(&[one, other])
}

/// The formula, over three variables, of these two-literal clauses and an empty clause after them.
fn formula_of_pairs(
    rt: &(impl Abort + AllocGlobal),
    pairs: &[(i64, i64)],
) -> Result<Formula, AllocError>
    ensures { IfOk result (λ formula. formula.vars ≡ 3) }
{
    let mut formula = Formula::new(rt.alloc(), 3);
    for &(one, other) in pairs {
        push_pair(rt, &mut formula, one, other)?;
    }
    holds(rt, formula.len() <= 9);
    formula.push(&[])?;
    Ok(formula)
}

/// The map of the formula of these two-literal clauses.
fn map_of_pairs(rt: &(impl Abort + AllocGlobal), pairs: &[(i64, i64)]) -> Result<PlainMap, Fail>
    ensures formula { IfOk result (λ map. (formula_of map).vars ≡ 3) }
    ensures streams { IfOk result (λ map. map.layout.streams ≡ 1) }
{
    let count = pairs.len() as u64;
    let layout = Layout::new(3, count + 1, 2 * count, 1, 1, 1)?;
    let formula = formula_of_pairs(rt, pairs)?;
    holds(rt, layout.fits(&formula));
    let map = PlainMap::open(rt.alloc(), &formula, &layout)?;
    Ok(map)
}

/// The clip of the clause that the map has under the identity.
fn live<M: ClauseMap>(map: &mut M, id: u64) -> Option<Clip>
    requires { (M.caller_view map.old).caller.formula.vars ≡ 3 }
    ensures vars { (M.caller_view map.new).caller.formula.vars ≡ 3 }
    ensures known { IfSome result (λ clip. IsKnown (M.caller_view map.new) clip) }
    ensures follow { IfSome result (λ _. AllFollow (M.caller_view map.new)) }
{
    if !map.covers(id) {
        return None;
    }
    match map.fetch(id) {
        Fetched::Live(clip) => Some(clip),
        _ => None,
    }
}

/// Tries the clause that the map has under the identity.
fn try_hint<M: ClauseMap>(marks: &mut Marks, map: &mut M, id: u64) -> Option<Step>
    requires marks { marks.old.vars ≡ 3 }
    requires map { (M.caller_view map.old).caller.formula.vars ≡ 3 }
    ensures marks { marks.new.vars ≡ 3 }
    ensures map { (M.caller_view map.new).caller.formula.vars ≡ 3 }
{
    let clip = live(map, id)?;
    if !marks.ready() {
        return None;
    }
    Some(marks.hint(map, &clip))
}

/// Begins the clause of the literal 1 and tries these hints. Returns the step of the last hint,
/// whether another hint may follow, and whether the clause is unchanged.
fn try_hints<M: ClauseMap>(
    marks: &mut Marks,
    map: &mut M,
    ids: &[u64],
) -> Option<(Option<Step>, bool, bool)>
    requires marks { marks.old.vars ≡ 3 }
    requires map { (M.caller_view map.old).caller.formula.vars ≡ 3 }
    ensures marks { marks.new.vars ≡ 3 }
    ensures map { (M.caller_view map.new).caller.formula.vars ≡ 3 }
{
    let clause = [lit(1)];
    marks.begin(&clause).ok()?;
    let mut step = None;
    for &id in ids {
        step = Some(try_hint(marks, map, id)?);
    }
    Some((step, marks.ready(), marks.clause() == clause.as_slice()))
}

/// Hints, the step of the last one, and whether another may follow.
type HintRow = (&'static [u64], Step, bool);

/// Tries the hints of each row.
fn try_rows<M: ClauseMap>(rt: &impl Abort, marks: &mut Marks, map: &mut M, rows: &[HintRow])
    requires marks { marks.old.vars ≡ 3 }
    requires map { (M.caller_view map.old).caller.formula.vars ≡ 3 }
{
    for &(ids, step, more) in rows {
        let found = try_hints(marks, map, ids);
        same(rt, (ids, found), (ids, Some((Some(step), more, true))));
    }
}

/// Hints over the clauses 1 2, -2 3, -3 1 and 2 3.
static UNTIL_CONFLICT: [HintRow; 3] = [
    (&[1], Step::Unit, true),
    (&[1, 2], Step::Unit, true),
    (&[1, 2, 3], Step::Conflict, false),
];

#[test]
fn hints_are_unit_until_the_conflict(rt: HostRuntime) -> Result<(), Fail> {
    let mut map = map_of_pairs(&rt, &[(1, 2), (-2, 3), (-3, 1), (2, 3)])?;
    let mut marks = Marks::new(rt.alloc(), 3)?;
    try_rows(&rt, &mut marks, &mut map.desk(1), &UNTIL_CONFLICT);
    Ok(())
}

/// Hints over the clauses 1 2 and 2 3, one of which is unit.
static TWO_CLAUSES: [HintRow; 3] = [
    (&[2], Step::NotUnit, false),
    (&[1], Step::Unit, true),
    (&[1, 2], Step::NotUnit, false),
];

#[test]
fn a_true_literal_or_two_left_are_not_unit(rt: HostRuntime) -> Result<(), Fail> {
    let mut map = map_of_pairs(&rt, &[(1, 2), (2, 3)])?;
    let mut marks = Marks::new(rt.alloc(), 3)?;
    try_rows(&rt, &mut marks, &mut map.desk(1), &TWO_CLAUSES);
    Ok(())
}

/// Literals over three variables.
fn lits_of(rt: &(impl Abort + AllocGlobal), values: &[i64]) -> Result<Vec<Lit>, Fail>
    ensures { IfOk result (λ lits. AllByRecursion (IsLiteral 3) lits.items) }
{
    let mut lits = Vec::new(rt.alloc());
    for &value in values {
        lits.push(literal(rt, value))?;
    }
    Ok(lits)
}

/// Whether the clause under the identity has exactly these literals.
fn is_clause<M: ClauseMap>(marks: &mut Marks, map: &mut M, id: u64, lits: &[Lit]) -> Option<bool>
    requires marks { marks.old.vars ≡ 3 }
    requires map { (M.caller_view map.old).caller.formula.vars ≡ 3 }
    requires literals { AllByRecursion (IsLiteral 3) lits.now }
    ensures marks { marks.new.vars ≡ 3 }
    ensures map { (M.caller_view map.new).caller.formula.vars ≡ 3 }
{
    let clip = live(map, id)?;
    Some(marks.same(map, &clip, lits))
}

/// An identity, literals, and whether the identity's clause has exactly these literals.
static COMPARED: [(u64, &[i64], bool); 12] = [
    (1, &[1, 2], true),
    (1, &[2, 1, 2, 2], true),
    (1, &[1], false),
    (1, &[1, 1], false),
    (1, &[3, 2, 1], false),
    (1, &[1, 3], false),
    (1, &[1, -2], false),
    (1, &[], false),
    (2, &[-2, 2], true),
    (2, &[2, 2], false),
    (3, &[], true),
    (3, &[-3], false),
];

/// Compares a row's literals with the clause under its identity.
fn compare<M: ClauseMap>(
    rt: &(impl Abort + AllocGlobal),
    marks: &mut Marks,
    map: &mut M,
    row: (u64, &[i64], bool),
) -> Result<(), Fail>
    requires marks { marks.old.vars ≡ 3 }
    requires map { (M.caller_view map.old).caller.formula.vars ≡ 3 }
    ensures marks { marks.new.vars ≡ 3 }
    ensures map { (M.caller_view map.new).caller.formula.vars ≡ 3 }
{
    let (id, values, wanted) = row;
    let lits = lits_of(rt, values)?;
    let found = is_clause(marks, map, id, lits.as_slice());
    same(rt, (id, values, found), (id, values, Some(wanted)));
    holds(rt, marks.clause().is_empty() && !marks.ready());
    Ok(())
}

/// Compares the literals of each row.
fn compare_all<M: ClauseMap>(
    rt: &(impl Abort + AllocGlobal),
    marks: &mut Marks,
    map: &mut M,
) -> Result<(), Fail>
    requires marks { marks.old.vars ≡ 3 }
    requires map { (M.caller_view map.old).caller.formula.vars ≡ 3 }
{
    for &row in &COMPARED {
        compare(rt, marks, map, row)?;
    }
    Ok(())
}

#[test]
fn a_clause_is_compared_as_a_set(rt: HostRuntime) -> Result<(), Fail> {
    let mut map = map_of_pairs(&rt, &[(1, 2), (2, -2)])?;
    let mut marks = Marks::new(rt.alloc(), 3)?;
    compare_all(&rt, &mut marks, &mut map.desk(1))
}

/// Begins a clause, tries hints, and compares a clause, a thousand times.
fn call_often<M: ClauseMap>(marks: &mut Marks, map: &mut M, lits: &[Lit]) -> Option<()>
    requires marks { marks.old.vars ≡ 3 }
    requires map { (M.caller_view map.old).caller.formula.vars ≡ 3 }
    requires literals { AllByRecursion (IsLiteral 3) lits.now }
{
    for _ in 0..1_000 {
        try_hints(marks, map, &[1, 2])?;
        is_clause(marks, map, 2, lits)?;
    }
    Some(())
}

/// No call of `Marks` allocates: the ninth allocation comes after the last call. `make sweep`
/// refuses that one, and expects this test to fail.
#[test]
fn the_ninth_allocation_comes_after_all_calls(rt: HostRuntime) -> Result<(), Fail> {
    let mut map = map_of_pairs(&rt, &[(1, 2), (-2, 3)])?;
    let mut marks = Marks::new(rt.alloc(), 3)?;
    let lits = lits_of(&rt, &[3, -2, 3])?;
    let done = call_often(&mut marks, &mut map.desk(1), lits.as_slice());
    same(&rt, done, Some(()));
    let _last: Vec<u8> = Vec::with_capacity(rt.alloc(), 1)?;
    Ok(())
}
