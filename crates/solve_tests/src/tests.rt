//! Whole runs: a script is what the helper says, and streams are files in memory.
ghost use Rattle.std.specs.Prelude.{IsTrue};
ghost use Rattle.lrup_model.specs.Cube.{IsCubeOver};

use helper::{Diary, Script};
use lrup_model::{Cube, Formula, Lit};
use solve::{Choices, HelperOutput, Statuses, solve};
use std::alloc::Global;
use std::fmt;
use std::process::Abort;
use std::sync::Wait;
use std::test::Fail;
use std::thread::Threads;
use std::time::Clock;
use streams::Streams;
use test_support::{Paper, four_clauses, lit};

mod answers;
mod helper;
mod lies;
mod streams;
mod telling;

/// What tests need from the machine.
trait Host: Threads + Wait + Sync + Clock + Abort + AllocGlobal {}

impl<T: Threads + Wait + Sync + Clock + Abort + AllocGlobal> Host for T {}

/// Stops the test if two values differ. This is a function, so the assertion is proved only once.
fn same<T: PartialEq + fmt::Debug + Drop>(rt: &impl Abort, value: T, wanted: T) {
    assert_eq!(rt; value, wanted);
}

fn text_of(bytes: &[u8]) -> &str {
    str::from_utf8(bytes).unwrap_or("no text")
}

/// Adds the unit clause 2 to the four clauses.
const ADDS: &str = "5 2 0 1 2 0\n";

/// Adds the unit clause 2, and the empty clause.
const REFUTES: &str = "5 2 0 1 2 0\n6 0 5 3 4 0\n";

/// The streams that scripts name.
static STREAMS: [(&str, &str); 3] = [
    ("right/round-1.stream-1", REFUTES),
    ("part/round-1.stream-1", ADDS),
    ("wrong/round-1.stream-1", "5 0 1 2 3 4 0\n"),
];

/// 1 2 0 / -1 2 0, over 12 variables.
fn two_clauses(alloc: Global) -> Result<Formula, Fail> {
    let mut formula = Formula::new(alloc, 12);
    formula.push(&[lit(1), lit(2)])?;
    formula.push(&[lit(-1), lit(2)])?;
    Ok(formula)
}

/// What most runs ask for.
const CHOICES: Choices = Choices {
    quiet: false,
    watch: false,
    models: true,
    statuses: Statuses::OfSolver,
};

/// What a run is tried on.
#[derive(Clone, Copy)]
struct Setup<'a> {
    assumed: &'a [Lit],
    script: &'a [u8],
    /// The most bytes that a read of the script gives.
    most: usize,
    choices: Choices,
    /// Which write fails, counted from 1; 0 if none does.
    fails_at: usize,
}

impl<'a> Setup<'a> {
    fn of(script: &'a str) -> Setup<'a> {
        Setup {
            assumed: &[],
            script: script.as_bytes(),
            most: usize::MAX,
            choices: CHOICES,
            fails_at: 0,
        }
    }
}

/// The status, standard output and standard error.
#[derive(Drop)]
struct Ran {
    status: u8,
    out: Vec<u8>,
    err: Vec<u8>,
}

impl Ran {
    fn ends(&self) -> (u8, &str, &str) {
        (self.status, text_of(&self.out), text_of(&self.err))
    }
}

/// Whether the assumed literals are over the formula's variables.
fn is_over(formula: &Formula, cube: &Cube) -> bool
    ensures { IsTrue result → IsCubeOver formula.now.vars cube.now }
{
    let over = cube.vars();
    let most = formula.vars();
    if over > most {
        return false;
    }
    true
}

/// Runs with this setup; `diary` takes what the helper is told.
fn run(rt: &impl Host, formula: &Formula, setup: Setup<'_>, diary: &Diary) -> Result<Ran, Fail> {
    let script = Script::new(setup.script, setup.most);
    run_with(rt, formula, setup, script, diary)
}

/// Runs with this setup and this helper.
fn run_with<H: HelperOutput + Send + Drop>(
    rt: &impl Host,
    formula: &Formula,
    setup: Setup<'_>,
    from: H,
    diary: &Diary,
) -> Result<Ran, Fail> {
    let cube = Cube::of(rt.alloc(), setup.assumed)?;
    assert!(rt; is_over(formula, &cube));
    let files = Streams::new(rt.alloc(), &STREAMS);
    let mut out = Paper::new(rt.alloc(), 7, setup.fails_at);
    let mut err = Paper::new(rt.alloc(), 7, 0);
    let status = solve(
        rt,
        rt,
        rt.alloc(),
        formula,
        &cube,
        setup.choices,
        files,
        from,
        diary,
        &mut out,
        &mut err,
    );
    Ok(Ran {
        status,
        out: out.bytes,
        err: err.bytes,
    })
}

/// Checks how a run of this script ends, with long and short reads.
fn assert_ends(
    rt: &impl Host,
    formula: &Formula,
    script: &str,
    wanted: (u8, &str, &str),
) -> Result<(), Fail> {
    for most in [usize::MAX, 1, 7] {
        let diary = Diary::new(&[]);
        let setup = Setup {
            most,
            ..Setup::of(script)
        };
        let ran = run(rt, formula, setup, &diary)?;
        same(rt, (script, ran.ends()), (script, wanted));
    }
    Ok(())
}
