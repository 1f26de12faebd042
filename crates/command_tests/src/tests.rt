//! Runs of the whole program over the tests' own files and sinks.
ghost use Rattle.std.specs.Prelude.{None, Some};

use command::command;
use shelf::{SETUP, Setup, Shelf};
use std::alloc::Global;
use std::process::Abort;
use std::sync::Wait;
use std::test::Fail;
use std::thread::Threads;
use std::time::Clock;
use std::{fmt, iter};
use test_support::Paper;

mod arguments;
mod assumptions;
mod checkpoints;
mod devices;
mod exact;
mod faults;
mod outcomes;
mod readings;
mod refusals;
mod rounds;
mod rows;
mod shelf;
mod status_0;
mod watching;

/// What tests of the program need from the machine.
trait Host: Threads + Wait + Sync + Clock + Abort + AllocGlobal {}

impl<T: Threads + Wait + Sync + Clock + Abort + AllocGlobal> Host for T {}

/// Stops the test if two values differ. This is a function, so the assertion is proved only once.
fn same<T: PartialEq + fmt::Debug + Drop>(rt: &impl Abort, value: T, wanted: T) {
    assert_eq!(rt; value, wanted);
}

/// 1 2 0 / -1 2 0 / 1 -2 0 / -1 -2 0
const FOUR: &str = "p cnf 2 4\n1 2 0\n-1 2 0\n1 -2 0\n-1 -2 0\n";

/// Adds the unit clause 2 to the four clauses.
const ADDS: &str = "5 2 0 1 2 0\n";
/// Adds the unit clause 2, and the empty clause.
const REFUTES: &str = "5 2 0 1 2 0\n6 0 5 3 4 0\n";
/// Adds the unit clause 2, and drops the first clause.
const DROPS: &str = "5 2 0 1 2 0\n7 d 1 0\n";

/// The four clauses and the unit clause: each clause's position is its identity.
const ALL: &str = "p cnf 2 5\n1 2 0\n-1 2 0\n1 -2 0\n-1 -2 0\n2 0\n";
/// The clauses of `ALL` without the first.
const LESS: &str = "p cnf 2 4
c id 2
-1 2 0
c id 3
1 -2 0
c id 4
-1 -2 0
c id 5
2 0
";

const NOTHING: &str = "0 added, 0 deleted, ended";

const ONE_ADDED: &str = "1 added, 0 deleted, ended";

const ONE_DELETED: &str = "0 added, 1 deleted, ended";

const TWO_ADDED: &str = "2 added, 0 deleted, ended";

const MISSPELLED: &str = "0 added, 0 deleted, bad line 1 (spelling)";

/// Each run is tried with two threads per stream, and on one thread.
static WAYS: [&str; 2] = ["--tries=1000000", "--serial"];

/// The report with these lines of the streams, for a status of 0, 3 or 8.
fn report(alloc: Global, said: &[&str], status: u8) -> Result<String, Fail> {
    let mut text = String::new(alloc);
    for (stream, said) in (1..=64u64).zip(said) {
        text.push_str(&format!(in alloc; "c stream {stream}: {said}\n")?)?;
    }
    text.push_str(match status {
        0 => "s UNSATISFIABLE\n",
        8 => "s UNSATISFIABLE UNDER ASSUMPTIONS\n",
        _ => "s UNKNOWN\n",
    })?;
    Ok(text)
}

/// The given word, and then the words of a text, which are separated by spaces.
fn words_after<'a>(alloc: Global, first: &'a str, text: &'a str) -> Result<Vec<&'a str>, Fail> {
    let words = iter::once(first).chain(text.split(' ')).collect(alloc)?;
    Ok(words)
}

/// The status, standard output and standard error.
type Ends<'a> = (u8, &'a str, &'a str);

/// What was done to the files, the bytes of the kept files, and how many bytes went to files that
/// weren't kept.
type Left<'a> = (&'a str, &'a str, usize);

/// The results of a run.
#[derive(Drop)]
struct Ran<'a> {
    status: u8,
    out: Vec<u8>,
    err: Vec<u8>,
    files: Shelf<'a>,
}

impl Ran<'_> {
    fn ends(&self) -> Ends<'_> {
        (self.status, text_of(&self.out), text_of(&self.err))
    }

    fn left(&self) -> Left<'_> {
        let files = &self.files;
        (files.done.as_str(), text_of(&files.kept), files.unkept)
    }
}

fn text_of(bytes: &[u8]) -> &str {
    str::from_utf8(bytes).unwrap_or("no text")
}

/// Runs the program with these words and this clock.
fn run<'a, C: Clock + Sync>(
    rt: &impl Host,
    clock: &C,
    words: &[&str],
    setup: Setup<'a>,
) -> Ran<'a> {
    let mut files = Shelf::new(rt.alloc(), setup);
    let mut out = Paper::new(rt.alloc(), 7, setup.out_fails_at);
    let mut err = Paper::new(rt.alloc(), 7, setup.err_fails_at);
    let status = command(rt, clock, rt.alloc(), words, &mut files, &mut out, &mut err);
    Ran {
        status,
        out: out.bytes,
        err: err.bytes,
        files,
    }
}

/// Checks that a run of these words prints this report and ends with this status, with two threads
/// per stream and on one thread.
fn assert_reports(
    rt: &impl Host,
    words: &str,
    setup: Setup,
    said: &[&str],
    status: u8,
) -> Result<(), Fail> {
    let out = report(rt.alloc(), said, status)?;
    for way in &WAYS {
        let words = words_after(rt.alloc(), way, words)?;
        let ran = run(rt, rt, &words, setup);
        let found = (words.as_slice(), ran.ends());
        same(rt, found, (words.as_slice(), (status, out.as_str(), "")));
    }
    Ok(())
}

/// Checks how a run of these words ends, and what it does to the files.
fn assert_leaves(
    rt: &impl Host,
    words: &str,
    setup: Setup,
    wanted: Ends,
    left: Left,
) -> Result<(), Fail> {
    for way in &WAYS {
        let words = words_after(rt.alloc(), way, words)?;
        let ran = run(rt, rt, &words, setup);
        let found = (words.as_slice(), ran.ends(), ran.left());
        same(rt, found, (words.as_slice(), wanted, left));
    }
    Ok(())
}

/// Lets each write of the report fail in turn: a prefix of the report goes out, and standard error
/// gets this message. A write takes at most seven bytes.
fn assert_unwritten(
    rt: &impl Host,
    words: &str,
    setup: Setup,
    whole: &str,
    said: &str,
) -> Result<(), Fail> {
    for writes in 0..whole.len().div_ceil(7) {
        for way in &WAYS {
            let words = words_after(rt.alloc(), way, words)?;
            let ran = run(rt, rt, &words, setup.failing(writes + 1, 0));
            let (status, out, err) = ran.ends();
            let found = (status, whole.starts_with(out), out.len().div_ceil(7), err);
            same(rt, (way, found), (way, (7, true, writes, said)));
        }
    }
    Ok(())
}

/// Checks that the run ends without a report, with this message and status, and that it did this to
/// the files.
fn assert_refused(
    rt: &impl Host,
    words: &str,
    setup: Setup,
    wanted: (u8, &str),
    done: &str,
) -> Result<(), Fail> {
    let (status, cause) = wanted;
    let line = format!(in rt.alloc(); "lrupd: {cause}\n")?;
    assert_leaves(rt, words, setup, (status, "", line.as_str()), (done, "", 0))
}
