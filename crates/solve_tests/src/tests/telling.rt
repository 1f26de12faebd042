//! What the helper is told.
use super::*;
use lrup_text::Sink;
use solve::Telling;

/// A script for the four clauses, and all that the helper is told.
static TOLD: [(&str, &[&str]); 4] = [
    ("c one\nv ++\nmodel\n", &[]),
    (
        "check 1 9 9 9 right\n",
        &[
            "out c stream 1: 2 added, 0 deleted, ended\n",
            "out s UNSATISFIABLE\n",
            "checked 0\n",
        ],
    ),
    (
        "check 1 9 9 9 none\n",
        &["err lrupd: cannot open stream 1\n", "checked 5\n"],
    ),
    (
        "check 1 9 9 9 part\ncheck 1 9 9 9 none\n",
        &[
            "out c stream 1: 1 added, 0 deleted, ended\n",
            "out s UNKNOWN\n",
            "checked 3\n",
            "err lrupd: cannot open stream 1\n",
            "checked 5\n",
        ],
    ),
];

#[test]
fn told(rt: HostRuntime) -> Result<(), Fail> {
    let formula = four_clauses(rt.alloc())?;
    for (script, lines) in &TOLD {
        let diary = Diary::new(lines);
        let _ = run(&rt, &formula, Setup::of(script), &diary)?;
        let count = lines.len();
        same(&rt, (*script, diary.counts()), (*script, (count, count)));
    }
    Ok(())
}

/// A long line is cut.
#[test]
fn a_cut_line(rt: HostRuntime) -> Result<(), Fail> {
    let diary = Diary::new(&["err short\n"]);
    let mut sink = Telling::new(rt.alloc(), b"err ", &diary);
    let line = "x".repeat(rt.alloc(), 10_000)?;
    for text in ["sho", "rt\n", line.as_str(), "\nrest"] {
        let taken = sink.write(text.as_bytes());
        same(&rt, taken, Ok(text.len()));
    }
    same(&rt, (diary.counts(), sink.failed()), ((1, 2), false));
    Ok(())
}
