//! Command lines, and the numbers, words and faults that they should give.
use command_line::{Next, UsageText, WordsFault, read_words};
use std::alloc::Global;
use std::fmt;
use std::process::Abort;
use std::test::Fail;

mod asked;
mod sizes;

/// Stops the test if two values differ. This is a function, so the assertion is proved only once.
fn same<T: PartialEq + fmt::Debug + Drop>(rt: &impl Abort, value: T, wanted: T) {
    assert_eq!(rt; value, wanted);
}

/// What a command line gives.
#[derive(Clone, Copy, Debug, PartialEq, Eq)]
struct Given<'a> {
    tries: u64,
    lines: u64,
    room: u64,
    serial: bool,
    watch: bool,
    assume: Option<&'a str>,
    next: Next<'a>,
    formula: &'a str,
    streams: &'a [&'a str],
}

const LINES: u64 = 65_536;

const ROOM: u64 = 1_048_576;

/// What the words `f` and `s` give.
const DEFAULTS: Given<'static> = Given {
    tries: 1_000,
    lines: LINES,
    room: ROOM,
    serial: false,
    watch: false,
    assume: None,
    next: Next::Nothing,
    formula: "f",
    streams: &["s"],
};

/// The words of a text, which are separated by spaces.
fn words_in(alloc: Global, text: &str) -> Result<Vec<&str>, Fail> {
    let words = text.split(' ').collect(alloc)?;
    Ok(words)
}

/// Checks what the words of this text give.
fn gives(rt: &(impl Abort + AllocGlobal), text: &str, wanted: Given) -> Result<(), Fail> {
    let words = words_in(rt.alloc(), text)?;
    let line = read_words(rt.alloc(), &words)?;
    let given = Given {
        tries: line.tries,
        lines: line.lines,
        room: line.room,
        serial: line.serial,
        watch: line.watch,
        assume: line.assume,
        next: line.next,
        formula: line.formula,
        streams: line.streams.as_slice(),
    };
    same(rt, (text, given), (text, wanted));
    Ok(())
}

/// The text of the words' usage fault.
fn usage_of(alloc: Global, words: &[&str]) -> Result<UsageText, Fail> {
    match read_words(alloc, words) {
        Err(WordsFault::Usage(text)) => Ok(text),
        other => Err(Fail::from(format_args!("{words:?}: {other:?}"))),
    }
}

/// Checks that the words have a usage fault whose text contains this part.
fn has_fault(rt: &(impl Abort + AllocGlobal), words: &[&str], part: &str) -> Result<(), Fail> {
    let usage = usage_of(rt.alloc(), words)?;
    let text = usage.as_str();
    let found = (text.contains(part), text.ends_with('\n'));
    same(
        rt,
        (words, part, text, found),
        (words, part, text, (true, true)),
    );
    Ok(())
}

/// The words, the tries, the lines and the room.
static NUMBERS: [(&str, u64, u64, u64); 13] = [
    ("f s", 1_000, LINES, ROOM),
    ("--tries 7 f s", 7, LINES, ROOM),
    ("--tries=7 f s", 7, LINES, ROOM),
    ("--lines 7 f s", 1_000, 7, ROOM),
    ("--room 7 f s", 1_000, LINES, 7),
    ("--room 3 --lines 2 --tries 1 f s", 1, 2, 3),
    ("--tries 0 f s", 0, LINES, ROOM),
    ("--tries 1000000 f s", 1_000_000, LINES, ROOM),
    ("--lines 0 f s", 1_000, 0, ROOM),
    ("--lines 268435456 f s", 1_000, 268_435_456, ROOM),
    ("--room 0 f s", 1_000, LINES, 0),
    ("--room 268435456 f s", 1_000, LINES, 268_435_456),
    ("f s --room=7 --tries 0", 0, LINES, 7),
];

#[test]
fn each_option_has_its_own_number(rt: HostRuntime) -> Result<(), Fail> {
    for &(words, tries, lines, room) in &NUMBERS {
        let wanted = Given {
            tries,
            lines,
            room,
            ..DEFAULTS
        };
        gives(&rt, words, wanted)?;
    }
    Ok(())
}

/// The words, whether they ask for one thread, and whether they ask for progress reports.
static FLAGS: [(&str, bool, bool); 9] = [
    ("--serial f s", true, false),
    ("f --serial s", true, false),
    ("f s --serial", true, false),
    ("--watch f s", false, true),
    ("f s --watch", false, true),
    ("--watch f --serial s", true, true),
    ("--serial --tries 1000 f s --watch", true, true),
    ("--tries 1000 f s", false, false),
    ("f -- s", false, false),
];

/// Flags are independent of each other, and may be anywhere.
#[test]
fn flags_are_beside_each_other(rt: HostRuntime) -> Result<(), Fail> {
    for &(words, serial, watch) in &FLAGS {
        let wanted = Given {
            serial,
            watch,
            ..DEFAULTS
        };
        gives(&rt, words, wanted)?;
    }
    Ok(())
}

/// The words, the file of the assumed literals, and what the clauses are saved for.
static FILES: [(&str, Option<&str>, Next<'static>); 14] = [
    ("--assume a f s", Some("a"), Next::Nothing),
    ("--assume=a f s", Some("a"), Next::Nothing),
    ("f --assume f s", Some("f"), Next::Nothing),
    ("f s --assume s", Some("s"), Next::Nothing),
    ("--checkpoint c f s", None, Next::Checkpoint("c")),
    ("--checkpoint=c f s", None, Next::Checkpoint("c")),
    ("f --checkpoint f s", None, Next::Checkpoint("f")),
    ("f s --checkpoint s", None, Next::Checkpoint("s")),
    (
        "--checkpoint c --assume a f s",
        Some("a"),
        Next::Checkpoint("c"),
    ),
    (
        "--assume=a f s --checkpoint=a",
        Some("a"),
        Next::Checkpoint("a"),
    ),
    ("--rounds d f s", None, Next::Rounds("d")),
    ("--rounds=d f s", None, Next::Rounds("d")),
    ("f s --rounds s", None, Next::Rounds("s")),
    ("--assume=a --rounds=d f s", Some("a"), Next::Rounds("d")),
];

#[test]
fn files_and_folders_may_be_named(rt: HostRuntime) -> Result<(), Fail> {
    for &(words, assume, next) in &FILES {
        let wanted = Given {
            assume,
            next,
            ..DEFAULTS
        };
        gives(&rt, words, wanted)?;
    }
    Ok(())
}

/// The words, the formula and the streams.
static PATHS: [(&str, &str, &[&str]); 9] = [
    ("f.cnf s.lrup", "f.cnf", &["s.lrup"]),
    ("c b a b", "c", &["b", "a", "b"]),
    ("f s --tries 1000 t u", "f", &["s", "t", "u"]),
    ("-- -f -s", "-f", &["-s"]),
    ("f -- -s --", "f", &["-s", "--"]),
    ("f -- s --serial", "f", &["s", "--serial"]),
    ("f -- --watch", "f", &["--watch"]),
    ("f s -- --rounds d", "f", &["s", "--rounds", "d"]),
    ("- -- -", "-", &["-"]),
];

/// Paths keep their order; after `--` a path may begin with a hyphen.
#[test]
fn formula_and_streams_have_paths(rt: HostRuntime) -> Result<(), Fail> {
    for &(words, formula, streams) in &PATHS {
        let wanted = Given {
            formula,
            streams,
            ..DEFAULTS
        };
        gives(&rt, words, wanted)?;
    }
    Ok(())
}

const TWICE: &str = "cannot be used multiple times";

/// Words with a usage fault, and a part of its text.
static FAULTS: [(&str, &str); 32] = [
    ("--tries 1000001 f s", "--tries"),
    ("--lines 268435457 f s", "--lines"),
    ("--room 268435457 f s", "--room"),
    ("--tries  f s", "error"),
    ("--tries x f s", "error"),
    ("--tries 1,000 f s", "error"),
    ("--tries 1e3 f s", "error"),
    ("--tries -1 f s", "error"),
    ("--tries 18446744073709551616 f s", "error"),
    ("f s --tries", "a value is required for '--tries <N>'"),
    ("f", "<STREAM>"),
    ("--serial f", "required arguments were not provided"),
    ("f --", "<STREAM>"),
    ("--fast f s", "unexpected argument '--fast' found"),
    ("f s -t", "unexpected argument '-t' found"),
    ("f -s", "'-s'"),
    ("--serial=1 f s", "--serial"),
    ("--watch=1 f s", "--watch"),
    ("--tries 1 --tries 1 f s", TWICE),
    ("--serial f s --serial", TWICE),
    ("--watch --watch f s", TWICE),
    ("--assume a f s --assume a", TWICE),
    ("f s --assume", "a value is required for '--assume <FILE>'"),
    ("--assume a f", "<STREAM>"),
    (
        "--checkpoint c f s --checkpoint=d",
        "'--checkpoint <FILE>' cannot be used multiple times",
    ),
    (
        "f s --checkpoint",
        "a value is required for '--checkpoint <FILE>'",
    ),
    (
        "--checkpoint --serial f s",
        "a value is required for '--checkpoint <FILE>'",
    ),
    ("--checkpoint c f", "<STREAM>"),
    (
        "--rounds d f s --rounds=e",
        "'--rounds <DIR>' cannot be used multiple times",
    ),
    ("f s --rounds", "a value is required for '--rounds <DIR>'"),
    (
        "--rounds --serial f s",
        "a value is required for '--rounds <DIR>'",
    ),
    ("--rounds d f", "<STREAM>"),
];

#[test]
fn words_that_are_refused(rt: HostRuntime) -> Result<(), Fail> {
    has_fault(&rt, &[], "<FORMULA>")?;
    for &(words, part) in &FAULTS {
        has_fault(&rt, &words_in(rt.alloc(), words)?, part)?;
    }
    Ok(())
}

/// Words that ask for both a checkpoint and rounds.
static BOTH: [&[&str]; 2] = [
    &["--rounds", "d", "f", "s", "--checkpoint", "c"],
    &["--checkpoint=c", "--rounds=c", "f", "s"],
];

/// Asking for both a checkpoint and rounds is a fault with a text of its own.
#[test]
fn a_checkpoint_excludes_rounds(rt: HostRuntime) -> Result<(), Fail> {
    for &words in &BOTH {
        match read_words(rt.alloc(), words) {
            Err(WordsFault::TwoCheckpoints) => {}
            other => return Err(Fail::from(format_args!("{words:?}: {other:?}"))),
        }
    }
    let text = format!(in rt.alloc(); "{}", WordsFault::TwoCheckpoints)?;
    let wanted = "--checkpoint and --rounds exclude each other";
    same(&rt, text.as_str(), wanted);
    Ok(())
}

/// Words that ask for help.
static HELP_WORDS: [&[&str]; 2] = [&["--help"], &["f", "s", "-h"]];

static HELP: [&str; 15] = [
    "Usage: lrupd [OPTIONS] <FORMULA> <STREAM>...\n",
    "--tries <N>\n",
    "0 to 1,000,000, default 1,000.",
    "--lines <N>\n",
    "0 to 268,435,456, default 65,536.",
    "--room <N>\n",
    "0 to 268,435,456, default 1,048,576.",
    "--assume <FILE>\n",
    "'s UNSATISFIABLE UNDER ASSUMPTIONS'.",
    "--checkpoint <FILE>\n",
    "not exist yet. A later run can take FILE as its FORMULA, and go on.",
    "--rounds <DIR>\n",
    "--serial\n",
    "--watch\n",
    "\n  lrupd --tries 1000000 --lines 4000000 --room 60000000 big.cnf one.lrup two.lrup\n",
];

#[test]
fn help_says_what_each_option_is(rt: HostRuntime) -> Result<(), Fail> {
    for words in &HELP_WORDS {
        for part in &HELP {
            has_fault(&rt, words, part)?;
        }
    }
    Ok(())
}

/// Words that ask for the version.
static VERSION: [&[&str]; 3] = [&["--version"], &["-V"], &["f", "s", "--version"]];

/// `make pages` and `make examples` compare this version with the file VERSION.
#[test]
fn the_version_is_one_line(rt: HostRuntime) -> Result<(), Fail> {
    for &words in &VERSION {
        let usage = usage_of(rt.alloc(), words)?;
        let text = usage.as_str();
        let found = (text.starts_with("lrupd "), text.lines().count());
        same(&rt, (words, text, found), (words, text, (true, 1)));
    }
    Ok(())
}
