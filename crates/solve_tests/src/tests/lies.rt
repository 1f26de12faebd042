//! Helpers that lie, end early, and send anything.
use super::helper::Boaster;
use super::*;

/// Scripts for the two clauses that get no answer, and the comments that are printed.
static SCRIPTS: [(&str, &str); 26] = [
    ("s UNSATISFIABLE\n", ""),
    ("s SATISFIABLE\nv 1 2 0\n", ""),
    ("checked 0\nchecked unsat\n", ""),
    ("check 1 9 9 9 right\n", ""),
    ("check 1 9 9 9 wrong\n", ""),
    ("check 1 9 9 9 none\n", ""),
    ("check 2 9 9 9 right\n", ""),
    ("check 0 9 9 9 right\n", ""),
    ("check 65 9 9 9 right\n", ""),
    ("check 1 268435457 9 9 right\n", ""),
    ("check 1 9 268435457 9 right\n", ""),
    ("check 1 9 9 1000001 right\n", ""),
    ("check 1 9 9 99999999999999999999 right\n", ""),
    ("check 1 9 9 9 \n", ""),
    ("check 1 9 9 9\n", ""),
    ("check -1 9 9 9 right\n", ""),
    ("check 1 9 9 9 ri\tght\n", ""),
    ("check 1 9 9 9 --help\n", ""),
    ("model\n", ""),
    ("v -+\n", ""),
    ("v --\nmodel\n", ""),
    ("v +\nmodel\n", ""),
    ("v -+\nmodel", ""),
    ("v \nmodel\nmodel\n\n\nc\n", ""),
    (
        "c s UNSATISFIABLE\r\u{1b}[2Ac\n",
        "c s UNSATISFIABLE??[2Ac\n",
    ),
    ("c é\nc no end", "c ??\n"),
];

#[test]
fn lies(rt: HostRuntime) -> Result<(), Fail> {
    let formula = two_clauses(rt.alloc())?;
    for (script, comments) in &SCRIPTS {
        let out = format!(in rt.alloc(); "{comments}s UNKNOWN\n")?;
        assert_ends(&rt, &formula, script, (0, out.as_str(), ""))?;
    }
    Ok(())
}

/// A line of 4,095 bytes is heard, and a longer one is ignored, with what comes after it.
#[test]
fn long_lines(rt: HostRuntime) -> Result<(), Fail> {
    let formula = two_clauses(rt.alloc())?;
    for (length, is_heard) in [(4_095usize, true), (4_096, false), (10_000, false)] {
        let words = "x".repeat(rt.alloc(), length.saturating_sub(2))?;
        let script = format!(in rt.alloc(); "c {words}\nc end\n")?;
        let long = format!(in rt.alloc(); "c {words}\nc end\ns UNKNOWN\n")?;
        let out = if is_heard {
            long.as_str()
        } else {
            "c end\ns UNKNOWN\n"
        };
        assert_ends(&rt, &formula, script.as_str(), (0, out, ""))?;
    }
    Ok(())
}

/// A helper that says that it has read more bytes than there is room for has ended.
#[test]
fn a_boaster(rt: HostRuntime) -> Result<(), Fail> {
    let formula = two_clauses(rt.alloc())?;
    let diary = Diary::new(&[]);
    let ran = run_with(&rt, &formula, Setup::of(""), Boaster, &diary)?;
    same(&rt, ran.ends(), (0, "s UNKNOWN\n", ""));
    Ok(())
}
