//! What `save` writes for the worked formula after stream 1 has published a clause, and perhaps
//! retired it, whether all clauses are wanted or only some.
ghost use Rattle.std.specs.Prelude.{◌≡◌, ◌||◌, false, nat_lt, IfOk};
ghost use Rattle.lrup_model.specs.Layout.{Fits, IsStream};
ghost use Rattle.lrup_model.specs.Plain.{formula_of};
ghost use Rattle.test_support.specs.Worked.{four};

use super::{ALL, Except, same, save_formula};
use checkpoint::{SaveFault, Wanted, live_clauses, save};
use dimacs::parse;
use lrup_model::{ClauseMap, Formula, Id, Layout, PlainMap};
use lrup_text::Sink;
use std::alloc::{AllocError, Global};
use std::process::Abort;
use std::test::Fail;
use test_support::{Paper, four_clauses, lit};

/// Wants what at least one of two streams wants; each stream has dropped a range.
#[derive(Clone, Copy)]
struct Either(Except, Except);

impl Wanted for Either {
    ghost wants = { λ e id. (nat_lt id e.0.0 || nat_lt e.0.1 id) || (nat_lt id e.1.0 || nat_lt e.1.1 id) };

    fn wants(&self, id: Id) -> bool {
        self.0.wants(id) || self.1.wants(id)
    }
}

/// What stream 1 does, and which clauses are wanted afterwards.
#[derive(Clone, Copy)]
struct Case {
    /// The identity under which stream 1 publishes `2`, which follows from the first two clauses.
    publishes: Option<Id>,
    /// Whether stream 1 retires that clause.
    retires: bool,
    wanted: Either,
}

/// Publishes `2` under an identity of the caller's own, and may retire the clause.
fn act<M: ClauseMap>(desk: &mut M, case: &Case)
    requires { (M.caller_view desk.old).caller.formula ≡ four }
    ensures { (M.caller_view desk.new).caller ≡ (M.caller_view desk.old).caller }
{
    if let Some(id) = case.publishes
        && desk.owns(id)
        && desk.room() > 0
    {
        let _ = desk.publish(id, &[lit(2)]);
        if case.retires {
            let _ = desk.retire(id);
        }
    }
}

/// Lets stream 1 act, saves the live and wanted clauses, and, if the run continues, returns the
/// formula of these clauses.
fn save_after(
    alloc: Global,
    map: &mut PlainMap,
    layout: &Layout,
    case: &Case,
    goes_on: bool,
    paper: &mut Paper,
) -> Result<Option<Formula>, SaveFault>
    requires formula { formula_of map.old ≡ four }
    requires layout { layout.now ≡ map.old.layout }
    requires fits { Fits layout.now four }
    requires stream { IsStream layout.now 1 }
    requires running { paper.old.failed ≡ false }
{
    let mut desk = map.desk(1);
    act(&mut desk, case);
    save(alloc, &mut desk, layout, &case.wanted, goes_on, paper)
}

/// The worked formula's map of one stream with two identities, 5 and 6, and its layout.
fn open_worked(alloc: Global) -> Result<(PlainMap, Layout), Fail>
    ensures formula { IfOk result (λ opened. formula_of opened.0 ≡ four) }
    ensures layout { IfOk result (λ opened. opened.1 ≡ opened.0.layout) }
    ensures fits { IfOk result (λ opened. Fits opened.1 four) }
{
    let formula = four_clauses(alloc)?;
    let layout = Layout::new(2, 4, 8, 1, 2, 2)?;
    if !layout.fits(&formula) {
        return Err("no layout".into());
    }
    let map = PlainMap::open(alloc, &formula, &layout)?;
    Ok((map, layout))
}

/// Opens the worked formula's map, and saves it as `save_after` does.
fn save_worked(
    alloc: Global,
    case: &Case,
    goes_on: bool,
    paper: &mut Paper,
) -> Result<Result<Option<Formula>, SaveFault>, Fail>
    requires { paper.old.failed ≡ false }
{
    let (mut map, layout) = open_worked(alloc)?;
    // The call shows that there is a stream.
    let _ = layout.streams();
    Ok(save_after(alloc, &mut map, &layout, case, goes_on, paper))
}

/// What `save` writes for the formula that an earlier save returned.
fn text_of(alloc: Global, next: &Formula) -> Result<Vec<u8>, Fail> {
    let mut paper = Paper::new(alloc, 1_000, 0);
    save_formula(alloc, next, &mut paper)??;
    Ok(paper.bytes)
}

/// The clauses of a text without their identities.
fn clauses_of(alloc: Global, text: &str) -> Result<String, Fail> {
    let mut clauses = String::new(alloc);
    for line in text.lines() {
        if !line.starts_with('c') {
            clauses.push_str(line)?;
            clauses.push('\n')?;
        }
    }
    Ok(clauses)
}

/// The identity under which stream 1 publishes, and whether it retires the clause; the ranges that
/// it and another stream dropped; and the saved text.
type Row = (Option<Id>, bool, Except, Except, &'static str);

const FOUR: &str = "p cnf 2 4\n1 2 0\n-1 2 0\n1 -2 0\n-1 -2 0\n";

const WITH_5: &str = "p cnf 2 5\n1 2 0\n-1 2 0\n1 -2 0\n-1 -2 0\n2 0\n";

/// Nothing was published under 5.
const WITH_6: &str = "p cnf 2 5\n1 2 0\n-1 2 0\n1 -2 0\n-1 -2 0\nc id 6\n2 0\n";

const WITHOUT_1: &str = "p cnf 2 4\nc id 2\n-1 2 0\nc id 3\n1 -2 0\nc id 4\n-1 -2 0\nc id 5\n2 0\n";

const WITH_1_4_6: &str = "p cnf 2 3\n1 2 0\nc id 4\n-1 -2 0\nc id 6\n2 0\n";

const UP_TO_3: &str = "p cnf 2 3\n1 2 0\n-1 2 0\n1 -2 0\n";

static ROWS: [Row; 12] = [
    (None, false, ALL, ALL, FOUR),
    (Some(5), false, ALL, ALL, WITH_5),
    (Some(6), false, ALL, ALL, WITH_6),
    (Some(5), true, ALL, ALL, FOUR),
    // One of the streams has dropped the first clause; or both have.
    (Some(5), false, Except(1, 1), ALL, WITH_5),
    (Some(5), false, Except(1, 1), Except(1, 1), WITHOUT_1),
    (Some(6), false, Except(2, 3), Except(2, 3), WITH_1_4_6),
    // Each stream has also dropped clauses that the other keeps.
    (Some(6), false, Except(1, 3), Except(2, 6), WITH_1_4_6),
    (Some(5), false, Except(5, 6), Except(5, 6), FOUR),
    (
        Some(6),
        false,
        Except(1, 4),
        Except(1, 4),
        "p cnf 2 1\nc id 6\n2 0\n",
    ),
    // Both streams have also dropped a clause that was retired.
    (Some(6), true, Except(3, 6), Except(4, 6), UP_TO_3),
    (Some(6), false, Except(1, 6), Except(1, 6), "p cnf 2 0\n"),
];

fn case_of(row: &Row) -> Case {
    let &(publishes, retires, one, another, _) = row;
    Case {
        publishes,
        retires,
        wanted: Either(one, another),
    }
}

/// Saves a row with writes of 7 bytes. Write number `fails_at` fails; if `fails_at` is 0, no write
/// fails. A run that continues gets the clauses that were written, in the same order, but not under
/// the same identities.
fn assert_saves(
    rt: &(impl Abort + AllocGlobal),
    row: &Row,
    goes_on: bool,
    fails_at: usize,
) -> Result<(), Fail> {
    let text = row.4;
    let mut paper = Paper::new(rt.alloc(), 7, fails_at);
    let saved = save_worked(rt.alloc(), &case_of(row), goes_on, &mut paper)?;
    if let Ok(Some(next)) = &saved {
        let clauses = clauses_of(rt.alloc(), text)?;
        let bytes = text_of(rt.alloc(), next)?;
        same(rt, bytes.as_slice(), clauses.as_str().as_bytes());
    }
    let (wanted, end) = match fails_at {
        0 => (Ok(goes_on), text.len()),
        _ => (Err(SaveFault::Unwritten), (fails_at - 1).saturating_mul(7)),
    };
    let written = &text.as_bytes()[..end.min(text.len())];
    let found = (saved.map(|next| next.is_some()), paper.bytes.as_slice());
    same(rt, found, (wanted, written));
    Ok(())
}

/// First no write fails, and then each write fails in turn.
#[test]
fn what_is_live_and_wanted_is_written(rt: HostRuntime) -> Result<(), Fail> {
    for row in &ROWS {
        for goes_on in [false, true] {
            for fails_at in 0..=row.4.len().div_ceil(7) {
                assert_saves(&rt, row, goes_on, fails_at)?;
            }
        }
    }
    Ok(())
}

/// `parse` reads what was saved, even without the last LF, and refuses every shorter prefix.
#[test]
fn a_beginning_is_refused(rt: HostRuntime) {
    for row in &ROWS {
        let bytes = row.4.as_bytes();
        for end in 0..=bytes.len() {
            let reads = parse(rt.alloc(), &bytes[..end]).is_ok();
            same(&rt, (end, reads), (end, bytes.len() <= end + 1));
        }
    }
}

/// If memory is refused, for the clips or for the formula, nothing is written, and the next call
/// saves everything.
fn assert_made_again(rt: &(impl Abort + AllocGlobal), goes_on: bool) -> Result<(), Fail> {
    let row = (Some(6), false, ALL, ALL, WITH_6);
    let mut paper = Paper::new(rt.alloc(), 1_000, 0);
    let mut saved = save_worked(rt.alloc(), &case_of(&row), goes_on, &mut paper)?;
    if let Err(SaveFault::Memory) = saved {
        same(rt, (paper.writes, paper.failed()), (0, false));
        paper = Paper::new(rt.alloc(), 1_000, 0);
        saved = save_worked(rt.alloc(), &case_of(&row), goes_on, &mut paper)?;
    }
    // The paper got no memory.
    if let Err(SaveFault::Unwritten) = saved {
        return Ok(());
    }
    let length = saved.map(|next| next.map(|formula| formula.len()));
    let wanted = if goes_on { Some(5) } else { None };
    same(
        rt,
        (length, paper.bytes.as_slice()),
        (Ok(wanted), WITH_6.as_bytes()),
    );
    Ok(())
}

#[test]
fn a_refused_save_can_be_made_again(rt: HostRuntime) -> Result<(), Fail> {
    assert_made_again(&rt, false)?;
    assert_made_again(&rt, true)
}

/// The identities of the live and wanted clauses after stream 1 has acted.
fn live_ids<M: ClauseMap>(
    alloc: Global,
    desk: &mut M,
    case: &Case,
    last: Id,
) -> Result<Option<Vec<Id>>, AllocError>
    requires { (M.caller_view desk.old).caller.formula ≡ four }
{
    act(desk, case);
    if !desk.covers(last) {
        return Ok(None);
    }
    let mut ids = Vec::new(alloc);
    for clip in &live_clauses(alloc, desk, last, &case.wanted)? {
        ids.push(clip.id())?;
    }
    Ok(Some(ids))
}

/// What `live_ids` returns for the worked formula's map.
fn ids_at_first(
    alloc: Global,
    map: &mut PlainMap,
    case: &Case,
    last: Id,
) -> Result<Option<Vec<Id>>, AllocError>
    requires formula { formula_of map.old ≡ four }
    requires stream { IsStream map.old.layout 1 }
{
    live_ids(alloc, &mut map.desk(1), case, last)
}

/// The identity under which stream 1 publishes, what both streams dropped, the last identity that
/// is fetched, and the identities of the live and wanted clauses.
static LIVE: [(Id, Except, Id, Option<&[u64]>); 5] = [
    (5, ALL, 6, Some(&[1, 2, 3, 4, 5])),
    (6, ALL, 6, Some(&[1, 2, 3, 4, 6])),
    (5, Except(2, 3), 6, Some(&[1, 4, 5])),
    (5, ALL, 3, Some(&[1, 2, 3])),
    (5, ALL, 7, None),
];

#[test]
fn live_clauses_come_in_order(rt: HostRuntime) -> Result<(), Fail> {
    for &(publishes, dropped, last, ids) in &LIVE {
        let case = case_of(&(Some(publishes), false, dropped, dropped, ""));
        let (mut map, layout) = open_worked(rt.alloc())?;
        let _ = layout.streams();
        let found = ids_at_first(rt.alloc(), &mut map, &case, last)?;
        same(&rt, found.as_ref().map(|ids| ids.as_slice()), ids);
    }
    Ok(())
}
