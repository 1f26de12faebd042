//! Worked values, texts of faults, and each public call at least once.
ghost use Rattle.std.specs.Prelude.{◌≡◌, ◌∷◌, ◌++◌, [], pos, negsuc, Some, None, IsTrue};
ghost use Rattle.lrup_model.specs.Cube.{IsUnsatisfiableUnder, Within};
ghost use Rattle.lrup_model.specs.Entailment.{Follows, IsUnsatisfiable};
ghost use Rattle.lrup_model.specs.Event.{History, vacant, fetch, own, publish, spent};
ghost use Rattle.lrup_model.specs.Formula.{IsCnf};
ghost use Rattle.lrup_model.specs.History.{IsLegal};
ghost use Rattle.lrup_model.specs.Layout.{IsStream, row_words};
ghost use Rattle.lrup_model.specs.Plain.{formula_of};
ghost use Rattle.lrup_model.specs.Propagation.{Accepts};
ghost use Rattle.lrup_model.specs.State.{absent, state, retired};
ghost use Rattle.test_support.specs.Worked.{four, first, second, third, fourth, unit};
ghost use Rattle.test_support.specs.Worked.{one_line, calls};

use lrup_model::laws::{clauses_follow, own_calls_decide, propagation_sound, within_refutes};
use lrup_model::{
    ClauseMap, Clip, Cube, Fetched, Formula, Id, Layout, LayoutFault, Lit, Owner, PlainMap,
    Published, Retired,
};
use std::alloc::Global;
use std::fmt;
use std::process::Abort;
use std::test::Fail;
use test_support::{four_clauses, lit};

/// Stops the test if two values differ. This is a function, so the assertion is proved only once.
fn same<T: PartialEq + fmt::Debug + Drop>(rt: &impl Abort, value: T, wanted: T) {
    assert_eq!(rt; value, wanted);
}

/// Stops the test if the fact is false.
fn holds(rt: &impl Abort, fact: bool)
    ensures { IsTrue fact }
{
    assert!(rt; fact);
}

/// Literals: the number, the variable and the code of each.
static LITERALS: [(i64, u32, u32); 6] = [
    (1, 1, 2),
    (-1, 1, 3),
    (2, 2, 4),
    (-2, 2, 5),
    (16_777_215, 16_777_215, 33_554_430),
    (-16_777_215, 16_777_215, 33_554_431),
];

/// Numbers that aren't literals.
static NO_LITERALS: [i64; 5] = [0, 16_777_216, -16_777_216, i64::MAX, i64::MIN];

#[test]
fn literals_have_variables_and_codes(rt: HostRuntime) -> Result<(), Fail> {
    for &(value, var, code) in &LITERALS {
        let literal = Lit::new(value).ok_or("no literal")?;
        let found = (literal.value(), literal.var(), literal.code());
        same(&rt, found, (value, var, code));
        holds(&rt, 2 <= code && code <= 33_554_431);
        same(&rt, (code, Lit::from_code(code)), (code, literal));
        same(&rt, literal.complement().value(), value.saturating_neg());
    }
    for &value in &NO_LITERALS {
        same(&rt, (value, Lit::new(value)), (value, None));
    }
    Ok(())
}

/// The largest number.
const ALL: u64 = u64::MAX;

const VARIABLES: Option<LayoutFault> = Some(LayoutFault::TooManyVariables);

const CLAUSES: Option<LayoutFault> = Some(LayoutFault::TooManyClauses);

const STREAMS: Option<LayoutFault> = Some(LayoutFault::BadStreamCount);

const TOO_LONG: Option<LayoutFault> = Some(LayoutFault::RowTooLong);

/// Six numbers, and why they give no layout; `None` if they give one.
static LAYOUTS: [([u64; 6], Option<LayoutFault>); 21] = [
    ([16_777_215, 4, 8, 1, 0, 0], None),
    ([16_777_216, 4, 8, 1, 0, 0], VARIABLES),
    ([2, 16_777_215, 8, 1, 0, 0], None),
    ([2, 16_777_216, 8, 1, 0, 0], CLAUSES),
    ([2, 4, 8, 0, 0, 0], STREAMS),
    ([2, 4, 8, 64, 0, 0], None),
    ([2, 4, 8, 65, 0, 0], STREAMS),
    ([2, 4, 8, 1, 268_435_443, 0], None),
    ([2, 4, 8, 1, 268_435_444, 0], TOO_LONG),
    ([2, 4, 8, 1, 0, 268_435_443], None),
    ([2, 4, 8, 1, 0, 268_435_444], TOO_LONG),
    ([2, 4, 268_435_451, 1, 0, 0], None),
    ([2, 4, 268_435_452, 1, 0, 0], TOO_LONG),
    ([2, 4, 8, 64, 2_097_151, 2_097_152], None),
    ([2, 4, 8, 64, 2_097_152, 2_097_152], TOO_LONG),
    ([ALL, ALL, ALL, ALL, ALL, ALL], VARIABLES),
    ([2, ALL, ALL, ALL, ALL, ALL], CLAUSES),
    ([2, 4, ALL, ALL, ALL, ALL], STREAMS),
    ([2, 4, ALL, 64, ALL, ALL], TOO_LONG),
    ([2, 4, 8, 64, ALL, 0], TOO_LONG),
    ([2, 4, 8, 64, 0, ALL], TOO_LONG),
];

#[test]
fn layouts_have_limits(rt: HostRuntime) {
    for &(numbers, fault) in &LAYOUTS {
        let [vars, clauses, literals, streams, lines, room] = numbers;
        let found = Layout::new(vars, clauses, literals, streams, lines, room).err();
        same(&rt, (numbers, found), (numbers, fault));
    }
}

#[test]
fn the_longest_row_has_its_words(rt: HostRuntime) -> Result<(), Fail> {
    let layout = Layout::new(2, 4, 8, 1, 268_435_443, 0)?;
    let found = (layout.row_words(), layout.last_identity());
    same(&rt, found, (268_435_456, 268_435_447));
    let layout = Layout::new(2, 4, 8, 3, 7, 9)?;
    let found = (layout.vars(), layout.streams(), layout.room());
    same(&rt, (found, layout.all_room()), ((2, 3, 9), 27));
    Ok(())
}

/// The owners of the identities, beginning with identity 0.
static OWNERS: [Owner; 10] = [
    Owner::Outside,
    Owner::Formula,
    Owner::Formula,
    Owner::Formula,
    Owner::Formula,
    Owner::Stream(1),
    Owner::Stream(2),
    Owner::Stream(1),
    Owner::Stream(2),
    Owner::Outside,
];

#[test]
fn streams_own_in_turn(rt: HostRuntime) -> Result<(), Fail> {
    let layout = Layout::new(2, 4, 8, 2, 2, 3)?;
    for (id, owner) in OWNERS.iter().enumerate() {
        let found = (id, layout.owner(id as u64), layout.covers(id as u64));
        same(&rt, found, (id, *owner, 0 < id && id < 9));
    }
    same(&rt, layout.owner(u64::MAX), Owner::Outside);
    Ok(())
}

/// Faults and their texts.
static FAULT_TEXTS: [(LayoutFault, &str); 4] = [
    (LayoutFault::TooManyVariables, "formula refused: limit"),
    (LayoutFault::TooManyClauses, "formula refused: limit"),
    (LayoutFault::BadStreamCount, "stream count"),
    (LayoutFault::RowTooLong, "row too long"),
];

#[test]
fn faults_and_literals_have_texts(rt: HostRuntime) -> Result<(), Fail> {
    for &(fault, text) in &FAULT_TEXTS {
        same(&rt, fault.to_string(rt.alloc())?.as_str(), text);
    }
    same(&rt, lit(-2).to_string(rt.alloc())?.as_str(), "-2");
    let last = lit(16_777_215);
    same(&rt, last.to_string(rt.alloc())?.as_str(), "16777215");
    Ok(())
}

#[test]
fn a_formula_keeps_its_clauses(rt: HostRuntime) -> Result<(), Fail> {
    holds(&rt, Formula::new(rt.alloc(), 2).is_empty());
    let formula = four_clauses(rt.alloc())?;
    let found = (formula.vars(), formula.len(), formula.literals());
    same(&rt, (found, formula.is_empty()), ((2, 4, 8), false));
    same(&rt, formula.clause(1), [lit(1), lit(2)].as_slice());
    same(&rt, formula.clause(2), [lit(-1), lit(2)].as_slice());
    same(&rt, formula.clause(4), [lit(-1), lit(-2)].as_slice());
    let layout = Layout::new(2, 4, 8, 1, 0, 0)?;
    holds(&rt, layout.fits(&formula));
    let other = Layout::new(2, 4, 7, 1, 0, 0)?;
    holds(&rt, !other.fits(&formula));
    Ok(())
}

/// `make sweep` refuses each allocation of this test in turn; the second attempt then succeeds.
#[test]
fn a_refused_push_changes_nothing(rt: HostRuntime) -> Result<(), Fail> {
    let mut formula = Formula::new(rt.alloc(), 2);
    if formula.push(&[lit(1), lit(2)]).is_err() {
        same(&rt, (formula.len(), formula.literals()), (0, 0));
        formula = Formula::new(rt.alloc(), 2);
        formula.push(&[lit(1), lit(2)])?;
    }
    same(&rt, (formula.len(), formula.literals()), (1, 2));
    Ok(())
}

/// `make sweep` refuses each allocation of this test in turn; the second attempt then succeeds.
#[test]
fn a_refused_open_can_be_made_again(rt: HostRuntime) -> Result<(), Fail> {
    let formula = Formula::new(rt.alloc(), 2);
    let layout = Layout::new(2, 0, 0, 2, 3, 4)?;
    holds(&rt, layout.fits(&formula));
    let map = match PlainMap::open(rt.alloc(), &formula, &layout) {
        Ok(map) => map,
        Err(_) => PlainMap::open(rt.alloc(), &formula, &layout)?,
    };
    same(&rt, map.layout().last_identity(), 6);
    holds(&rt, formula.is_empty());
    Ok(())
}

/// The literals of these numbers.
fn literals(alloc: Global, values: &[i64]) -> Result<Vec<Lit>, Fail> {
    let mut found = Vec::new(alloc);
    for value in values {
        found.push(Lit::new(*value).ok_or("no literal")?)?;
    }
    Ok(found)
}

/// The cube's largest variable, whether the cube makes the clause false, and whether the cube has
/// the literal.
fn ask_cube(
    alloc: Global,
    cube: &[i64],
    clause: &[i64],
    literal: i64,
) -> Result<(u32, bool, bool), Fail> {
    let cube = Cube::of(alloc, literals(alloc, cube)?.as_slice())?;
    let clause = literals(alloc, clause)?;
    let literal = Lit::new(literal).ok_or("no literal")?;
    Ok((
        cube.vars(),
        cube.refutes(clause.as_slice()),
        cube.has(literal),
    ))
}

/// A cube, a clause and a literal, and what `ask_cube` returns.
static ASKED: [(&[i64], &[i64], i64, (u32, bool, bool)); 11] = [
    (&[-2], &[2], -2, (2, true, true)),
    (&[-2, 1, -2], &[2], 2, (2, true, false)),
    (&[-2, 1, -2], &[-1, 2], 1, (2, true, true)),
    (&[-2, 1, -2], &[-1, -2], -1, (2, false, false)),
    (&[2], &[2], 2, (2, false, true)),
    (&[2], &[], 1, (2, true, false)),
    (&[], &[], 1, (0, true, false)),
    (&[], &[2], -2, (0, false, false)),
    (&[1, -1], &[1], -1, (1, true, true)),
    (&[1, -1], &[-1, 1], 2, (1, true, false)),
    (
        &[3, 16_777_215, -7],
        &[-3, -16_777_215],
        7,
        (16_777_215, true, false),
    ),
];

#[test]
fn cubes_refute_clauses(rt: HostRuntime) -> Result<(), Fail> {
    for &(cube, clause, literal, wanted) in &ASKED {
        let found = ask_cube(rt.alloc(), cube, clause, literal)?;
        same(&rt, (cube, clause, found), (cube, clause, wanted));
    }
    let empty = Cube::empty(rt.alloc());
    let found = (empty.vars(), empty.refutes(&[]), empty.refutes(&[lit(1)]));
    same(&rt, found, (0, true, false));
    Ok(())
}

/// `make sweep` refuses each allocation of this test in turn; the second attempt then succeeds.
#[test]
fn a_refused_cube_can_be_made_again(rt: HostRuntime) -> Result<(), Fail> {
    let cube = match Cube::of(rt.alloc(), &[lit(-2), lit(1)]) {
        Ok(cube) => cube,
        Err(_) => Cube::of(rt.alloc(), &[lit(-2), lit(1)])?,
    };
    holds(&rt, cube.refutes(&[lit(2), lit(-1)]));
    Ok(())
}

#[test]
fn clips_have_their_parts(rt: HostRuntime) {
    let clip = Clip::new(5, 1, 14);
    same(&rt, (clip.id(), clip.len(), clip.start()), (5, 1, 14));
    holds(&rt, !clip.is_empty());
}

/// Publishes `2`, which follows from the first two clauses, under one of the caller's own
/// identities.
fn publish_two<M: ClauseMap>(desk: &mut M, id: Id) -> Option<Published>
    requires { (M.caller_view desk.old).caller.formula ≡ four }
    ensures { (es : History) × M.moves desk.old desk.new es }
{
    if !desk.owns(id) || desk.room() == 0 {
        return None;
    }
    Some(desk.publish(id, &[lit(2)]))
}

/// What the map has under an identity.
fn look<M: ClauseMap>(desk: &mut M, id: Id) -> Option<Fetched>
    ensures { (es : History) × M.moves desk.old desk.new es }
{
    if !desk.covers(id) {
        return None;
    }
    Some(desk.fetch(id))
}

fn withdraw<M: ClauseMap>(desk: &mut M, id: Id) -> Option<Retired>
    ensures { (es : History) × M.moves desk.old desk.new es }
{
    if !desk.owns(id) {
        return None;
    }
    Some(desk.retire(id))
}

/// Retires a live clause of the caller's own, and then reads its first literal.
fn withdraw_and_read<M: ClauseMap>(desk: &mut M, id: Id) -> Option<(Retired, Lit)>
    ensures { (es : History) × M.moves desk.old desk.new es }
{
    if !desk.covers(id) {
        return None;
    }
    let Fetched::Live(clip) = desk.fetch(id) else {
        return None;
    };
    if clip.is_empty() || !desk.owns(id) {
        return None;
    }
    let answer = desk.retire(id);
    Some((answer, desk.literal(&clip, 0)))
}

/// Stream 1 publishes 5 and retires it.
fn first_desk(rt: &impl Abort, map: &mut PlainMap)
    requires formula { formula_of map.old ≡ four }
    requires stream { IsStream map.old.layout 1 }
    ensures formula { formula_of map.new ≡ four }
    ensures layout { map.new.layout ≡ map.old.layout }
{
    let mut desk = map.desk(1);
    same(rt, (desk.stream(), desk.room()), (1, 2));
    same(rt, look(&mut desk, 5), Some(Fetched::Vacant));
    same(rt, withdraw(&mut desk, 5), Some(Retired::NotLive));
    same(rt, publish_two(&mut desk, 5), Some(Published::Done));
    same(rt, desk.room(), 1);
    same(rt, publish_two(&mut desk, 5), Some(Published::Taken));
    let found = withdraw_and_read(&mut desk, 5);
    same(rt, found, Some((Retired::Done, lit(2))));
    same(rt, withdraw(&mut desk, 5), Some(Retired::NotLive));
    same(rt, publish_two(&mut desk, 5), Some(Published::Taken));
    same(rt, look(&mut desk, 5), Some(Fetched::Retired));
    same(rt, desk.room(), 1);
    same(rt, publish_two(&mut desk, 6), None);
}

/// Stream 2 publishes 6, which uses none of stream 1's room, and reads clauses.
fn second_desk(rt: &impl Abort, map: &mut PlainMap)
    requires formula { formula_of map.old ≡ four }
    requires stream { IsStream map.old.layout 2 }
{
    let mut desk = map.desk(2);
    same(rt, (desk.stream(), desk.room()), (2, 2));
    same(rt, look(&mut desk, 5), Some(Fetched::Retired));
    same(rt, look(&mut desk, 0), None);
    same(rt, look(&mut desk, 7), None);
    same(rt, withdraw(&mut desk, 5), None);
    same(rt, publish_two(&mut desk, 6), Some(Published::Done));
    holds(rt, reads_as(&mut desk, 6, &[lit(2)]));
    holds(rt, reads_in_pairs_as(&mut desk, 6, &[lit(2)]));
    holds(rt, reads_as(&mut desk, 3, &[lit(1), lit(-2)]));
    holds(rt, reads_in_pairs_as(&mut desk, 3, &[lit(1), lit(-2)]));
    same(rt, desk.room(), 1);
}

/// The last of 64 streams has its own room and identities.
fn last_desk(rt: &impl Abort, map: &mut PlainMap)
    requires formula { formula_of map.old ≡ four }
    requires stream { IsStream map.old.layout 64 }
{
    let mut desk = map.desk(64);
    same(rt, (desk.stream(), desk.room()), (64, 2));
    same(rt, publish_two(&mut desk, 67), None);
    same(rt, publish_two(&mut desk, 68), Some(Published::Done));
    holds(rt, reads_as(&mut desk, 68, &[lit(2)]));
    same(rt, look(&mut desk, 196), Some(Fetched::Vacant));
    same(rt, look(&mut desk, 197), None);
}

/// Whether the live clause has these literals, in this order.
fn reads_as<M: ClauseMap>(desk: &mut M, id: Id, literals: &[Lit]) -> bool
    ensures { (es : History) × M.moves desk.old desk.new es }
{
    if !desk.covers(id) {
        return false;
    }
    let Fetched::Live(clip) = desk.fetch(id) else {
        return false;
    };
    if clip.id() != id || clip.len() as usize != literals.len() || clip.is_empty() {
        return false;
    }
    for (k, literal) in literals.iter().enumerate() {
        if desk.literal(&clip, k as u32) != *literal {
            return false;
        }
    }
    true
}

/// Whether the live clause has these literals, in this order, if they are read in pairs.
fn reads_in_pairs_as<M: ClauseMap>(desk: &mut M, id: Id, literals: &[Lit]) -> bool
    ensures { (es : History) × M.moves desk.old desk.new es }
{
    if !desk.covers(id) {
        return false;
    }
    let Fetched::Live(clip) = desk.fetch(id) else {
        return false;
    };
    if clip.len() as usize != literals.len() {
        return false;
    }
    for i in 0..clip.pairs() {
        let (first, second) = desk.pair(&clip, i);
        let k = 2 * i as usize;
        if literals[k] != first || literals.get(k + 1).copied() != second {
            return false;
        }
    }
    true
}

#[test]
fn two_desks_use_one_map(rt: HostRuntime) -> Result<(), Fail> {
    let formula = four_clauses(rt.alloc())?;
    let layout = Layout::new(2, 4, 8, 2, 1, 2)?;
    holds(&rt, layout.fits(&formula));
    let mut map = PlainMap::open(rt.alloc(), &formula, &layout)?;
    same(&rt, map.layout().last_identity(), 6);
    first_desk(&rt, &mut map);
    second_desk(&rt, &mut map);
    Ok(())
}

#[test]
fn sixty_four_streams_have_a_map(rt: HostRuntime) -> Result<(), Fail> {
    let formula = four_clauses(rt.alloc())?;
    let layout = Layout::new(2, 4, 8, 64, 3, 2)?;
    holds(&rt, layout.fits(&formula));
    let mut map = PlainMap::open(rt.alloc(), &formula, &layout)?;
    last_desk(&rt, &mut map);
    Ok(())
}

/// The worked row has 16 words, and the worked calls use room for one literal.
fn worked_row_is_counted()
    ensures words { row_words one_line ≡ 16 }
    ensures spent { spent 1 calls ≡ 1 }
{}

/// The worked calls are legal, and a publish over a retired clause is not.
fn calls_are_legal()
    ensures legal { IsLegal four one_line calls }
    ensures state { state four calls 5 ≡ retired unit }
    ensures again { ¬ IsLegal four one_line (calls ++ publish 1 5 unit Published.Done ∷ []) }
    ensures formula { ¬ IsLegal four one_line (publish 1 4 unit Published.Done ∷ []) }
    ensures foreign { ¬ IsLegal four one_line (publish 2 5 unit Published.Done ∷ []) }
    ensures outside { ¬ IsLegal four one_line (fetch 1 6 vacant ∷ []) }
{}

/// Hints are accepted if each hint before the last one is unit and the last one is a conflict.
fn hints_are_judged()
    ensures shown { Accepts unit (first ∷ second ∷ []) }
    ensures empty { Accepts [] (unit ∷ third ∷ fourth ∷ []) }
    ensures not_unit { ¬ Accepts unit (second ∷ third ∷ []) }
    ensures excess { ¬ Accepts unit (first ∷ second ∷ third ∷ []) }
    ensures no_conflict { ¬ Accepts unit (first ∷ []) }
    ensures no_hint { ¬ Accepts unit [] }
    ensures tautology { ¬ Accepts (pos 1 ∷ negsuc 0 ∷ []) (first ∷ []) }
    ensures refuted { IsUnsatisfiable four }
{}

/// A clause is within a cube exactly if the cube has the complement of each of the clause's
/// literals.
fn clauses_are_within_cubes()
    ensures unit { Within (pos 2 ∷ []) (negsuc 1 ∷ pos 1 ∷ []) }
    ensures itself { ¬ Within (pos 2 ∷ []) (pos 2 ∷ []) }
    ensures part { ¬ Within (pos 1 ∷ pos 2 ∷ []) (negsuc 1 ∷ []) }
    ensures nothing { Within [] (pos 2 ∷ []) }
{}

fn four_is_a_formula()
    ensures { IsCnf four }
{}

/// Proved only from the laws: clauses of a legal history follow from the formula, and so do clauses
/// derived from them by hints; no assignment satisfies both the formula and the complement of such
/// a clause. An identity under which its stream never published is vacant.
fn what_laws_say()
    ensures unit { Follows four unit }
    ensures empty { Follows four [] }
    ensures under { IsUnsatisfiableUnder four (negsuc 1 ∷ []) }
    ensures own { (h : History) → IsLegal four one_line h → own h 1 ≡ []
        → state four h 5 ≡ absent }
{
    four_is_a_formula();
    calls_are_legal();
    hints_are_judged();
    clauses_follow();
    propagation_sound();
    within_refutes();
    own_calls_decide();
}
