//! What `save` writes for the worked formula, and for formulas at the limits.
ghost use Rattle.std.specs.Prelude.{◌≡◌, ◌||◌, false, nat_lt};
ghost use Rattle.lrup_model.specs.Layout.{Fits, IsStream};
ghost use Rattle.lrup_model.specs.Plain.{formula_of};

use checkpoint::{SaveFault, Wanted, save};
use dimacs::parse;
use lrup_model::{Formula, Id, Layout, PlainMap};
use lrup_text::Sink;
use std::alloc::{AllocError, Global};
use std::fmt::{self, Write};
use std::process::Abort;
use std::test::Fail;
use test_support::Paper;

mod limits;
mod worked;

/// Stops the test if two values differ. This is a function, so the assertion is proved only once.
fn same<T: PartialEq + fmt::Debug + Drop>(rt: &impl Abort, value: T, wanted: T) {
    assert_eq!(rt; value, wanted);
}

/// Wants all identities except those in a range, which includes both ends.
#[derive(Clone, Copy)]
struct Except(Id, Id);

/// Wants all identities, since none is 0.
const ALL: Except = Except(0, 0);

impl Wanted for Except {
    ghost wants = { λ e id. nat_lt id e.0 || nat_lt e.1 id };

    fn wants(&self, id: Id) -> bool {
        id < self.0 || self.1 < id
    }
}

/// Opens a formula's map for one stream without identities, and saves its clauses.
fn save_formula(
    alloc: Global,
    formula: &Formula,
    paper: &mut Paper,
) -> Result<Result<(), SaveFault>, Fail>
    requires { paper.old.failed ≡ false }
{
    let (clauses, literals) = (formula.len() as u64, formula.literals() as u64);
    let layout = Layout::new(formula.vars() as u64, clauses, literals, 1, 0, 0)?;
    if !layout.fits(formula) {
        return Err("no layout".into());
    }
    let mut map = PlainMap::open(alloc, formula, &layout)?;
    Ok(save_at_first(alloc, &mut map, &layout, paper))
}

/// Saves the live clauses through the desk of stream 1.
fn save_at_first(
    alloc: Global,
    map: &mut PlainMap,
    layout: &Layout,
    paper: &mut Paper,
) -> Result<(), SaveFault>
    requires layout { layout.now ≡ map.old.layout }
    requires fits { Fits layout.now (formula_of map.old) }
    requires stream { IsStream layout.now 1 }
    requires running { paper.old.failed ≡ false }
{
    save(alloc, &mut map.desk(1), layout, &ALL, false, paper).map(|_| ())
}

/// Texts that `parse` reads, and what `save` writes for their formulas.
static WRITTEN: [(&str, &str); 5] = [
    ("p cnf 0 0", "p cnf 0 0\n"),
    ("p cnf 0 1\n0", "p cnf 0 1\n0\n"),
    ("c none\np cnf 3 0\n", "p cnf 3 0\n"),
    ("p cnf 1 1\nc id 7\n1 0\n", "p cnf 1 1\n1 0\n"),
    (
        "p cnf 16777215 3\n-16777215 16777215\n0 9 -10 9 0 0",
        "p cnf 16777215 3\n-16777215 16777215 0\n9 -10 0\n0\n",
    ),
];

/// Saves a formula with writes of at most `most` bytes. Write number `fails_at` fails; if
/// `fails_at` is 0, no write fails.
fn saves(
    rt: &(impl Abort + AllocGlobal),
    formula: &Formula,
    most: usize,
    fails_at: usize,
    wanted: Result<(), SaveFault>,
    written: &[u8],
) -> Result<(), Fail> {
    let mut paper = Paper::new(rt.alloc(), most, fails_at);
    let saved = save_formula(rt.alloc(), formula, &mut paper)?;
    let found = (saved, paper.failed(), paper.bytes.as_slice());
    same(rt, found, (wanted, fails_at > 0, written));
    Ok(())
}

#[test]
fn what_is_read_is_written(rt: HostRuntime) -> Result<(), Fail> {
    for &(read, written) in &WRITTEN {
        let formula = parse(rt.alloc(), read.as_bytes())?;
        saves(&rt, &formula, 1_000, 0, Ok(()), written.as_bytes())?;
    }
    Ok(())
}

/// A text of 1,000 clauses.
fn long_text(alloc: Global) -> Result<String, AllocError> {
    let mut text = String::from_str(alloc, "p cnf 9999 1000\n")?;
    for number in 1_000..2_000u64 {
        write!(text, "{number} -{number} 9999 1 0\n")?;
    }
    Ok(text)
}

/// 1,000 clauses fill the buffer again and again. The writes before write number `fails_at` have
/// written a prefix, in pieces of almost 4,096 bytes.
#[test]
fn a_long_text_breaks_at_any_write(rt: HostRuntime) -> Result<(), Fail> {
    let text = long_text(rt.alloc())?;
    let formula = parse(rt.alloc(), text.as_bytes())?;
    saves(&rt, &formula, usize::MAX, 0, Ok(()), text.as_bytes())?;
    for fails_at in 1..=text.len().div_ceil(4_096) {
        let mut paper = Paper::new(rt.alloc(), usize::MAX, fails_at);
        let saved = save_formula(rt.alloc(), &formula, &mut paper)?;
        let is_prefix = text.as_bytes().starts_with(paper.bytes.as_slice());
        let pieces = paper.bytes.len().div_ceil(4_096);
        let found = (saved, paper.failed(), is_prefix, pieces);
        let fault = Err(SaveFault::Unwritten);
        same(&rt, found, (fault, true, true, fails_at - 1));
    }
    Ok(())
}

/// Faults and their texts.
static FAULT_TEXTS: [(SaveFault, &str); 3] = [
    (SaveFault::Memory, "checkpoint not written: out of memory"),
    (SaveFault::TooLarge, "checkpoint refused: limit"),
    (SaveFault::Unwritten, "checkpoint not written"),
];

#[test]
fn faults_have_texts(rt: HostRuntime) -> Result<(), Fail> {
    for &(fault, text) in &FAULT_TEXTS {
        same(&rt, fault.to_string(rt.alloc())?.as_str(), text);
    }
    Ok(())
}
