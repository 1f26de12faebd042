//! Worked texts: what is read, and why texts are refused.
use dimacs::{DimacsFault, parse};
use lrup_model::{Formula, Lit};
use std::alloc::{AllocError, Global};
use std::fmt::Write;
use std::process::Abort;
use std::test::Fail;

mod texts;

/// Appends the literals of a clause, and 0.
fn push_clause(text: &mut String, clause: &[Lit]) -> Result<(), AllocError> {
    for l in clause {
        write!(text, " {l}")?;
    }
    write!(text, " 0")
}

/// The formula's numbers of variables and clauses, and its clauses, as text.
fn formula_shown(alloc: Global, formula: &Formula) -> Result<String, AllocError> {
    let vars = formula.vars();
    let clauses = formula.len();
    let mut text = format!(in alloc; "{vars} {clauses}:")?;
    for i in 0..clauses {
        push_clause(&mut text, formula.clause(i + 1))?;
    }
    Ok(text)
}

/// What `formula_shown` returns for the formula of a text, or the fault's text.
fn shown(alloc: Global, bytes: &[u8]) -> Result<String, AllocError> {
    match parse(alloc, bytes) {
        Ok(formula) => formula_shown(alloc, &formula),
        Err(fault) => fault.to_string(alloc),
    }
}

fn check(rt: &(impl Abort + AllocGlobal), text: &str, wanted: &str) -> Result<(), Fail> {
    let found = shown(rt.alloc(), text.as_bytes())?;
    let front = text.get(..40).unwrap_or(text);
    assert_eq!(rt; (front, found.as_str()), (front, wanted));
    Ok(())
}

fn check_refused(rt: &(impl Abort + AllocGlobal), text: &str, why: &str) -> Result<(), Fail> {
    let wanted = format!(in rt.alloc(); "formula refused: {why}")?;
    check(rt, text, &wanted)
}

/// Texts that are refused, and why.
static REFUSED: [(&str, &str); 33] = [
    ("", "no header"),
    ("c p cnf 1 1\n1 0\n", "no header"),
    ("p cnf 1\n", "bad header"),
    ("p cnf 01 0\n", "bad header"),
    ("p cnf 00 0\n", "bad header"),
    ("p cnf 1 1 1\n", "bad header"),
    ("p cnf\n1 1\n", "bad header"),
    ("p cnf +1 0\n", "bad header"),
    ("p cnf 16777216 0\n", "limit"),
    ("p cnf 0 16777216\n", "limit"),
    ("p cnf 0 99999999999999999999999\n", "limit"),
    ("p cnf 16777216 x\n", "bad header"),
    ("p cnf 1 1\n+1 0\n", "bad number in line 2"),
    ("p cnf 1 1\n-0\n", "bad number in line 2"),
    ("p cnf 1 1\n-\n", "bad number in line 2"),
    ("p cnf 1 1\n1-\n", "bad number in line 2"),
    ("p cnf 1 1\n01 0\n", "bad number in line 2"),
    ("p cnf 1 1\n1 0\n%\n", "bad number in line 3"),
    ("p cnf 1 1\n1 0\nx\n", "bad number in line 3"),
    ("p cnf 1 1\n1\u{0}0\n", "bad number in line 2"),
    ("p cnf 1 1\n1\u{e9} 0\n", "bad number in line 2"),
    ("p cnf 1 1\n2 0\n", "variable out of range in line 2"),
    ("p cnf 0 1\n1 0\n", "variable out of range in line 2"),
    ("p cnf 1 0\n2\n", "variable out of range in line 2"),
    ("p cnf 1 1\n1\n", "open clause"),
    ("p cnf 1 1\n1", "open clause"),
    ("p cnf 1 2\n1 0\n", "too few clauses"),
    ("p cnf 1 0\n0\n", "too many clauses in line 2"),
    ("p cnf 1 1\n1 0\n1", "too many clauses in line 3"),
    (" c x\np cnf 0 0\n", "no header"),
    ("pcnf 1 1\n", "no header"),
    ("P cnf 1 1\n", "no header"),
    ("p cnf 1 1\n\rc x\n1 0\n", "bad number in line 2"),
];

/// Texts that are read, and their formulas.
static READ: [(&str, &str); 6] = [
    ("p cnf 1 1\n1\nc x\n0\n", "1 1: 1 0"),
    ("p cnf 1 1\n-1 -1 0\n", "1 1: -1 0"),
    ("p  cnf\t1 1\r\n1 0", "1 1: 1 0"),
    ("cnf 1 1\np cnf 0 0\n", "0 0:"),
    (
        "c\n\nc \u{0}\u{e9}\n  p cnf 3 3\n\t1 -2\n1 -1 3 1 0 0\n3\n0\nc last",
        "3 3: 1 -2 -1 3 0 0 3 0",
    ),
    (
        "p cnf 9 2 \n1 2 3 4 5 6 7 8 9 -9 9 1 -1 0 9 -9 9 0\n",
        "9 2: 1 2 3 4 5 6 7 8 9 -9 -1 0 9 -9 0",
    ),
];

#[test]
fn rows(rt: HostRuntime) -> Result<(), Fail> {
    for &(text, why) in &REFUSED {
        check_refused(&rt, text, why)?;
    }
    for &(text, wanted) in &READ {
        check(&rt, text, wanted)?;
    }
    Ok(())
}

/// A header, and then a text `count` times.
fn repeated(alloc: Global, header: &str, text: &str, count: usize) -> Result<String, AllocError> {
    let texts = text.repeat(alloc, count)?;
    format!(in alloc; "{header}{texts}")
}

/// A header, a text, how many times the text is written, and why the whole is refused.
static LONG: [(&str, &str, usize, &str); 3] = [
    ("p cnf 1 1\n", "1\n", 1_048_575, "open clause"),
    ("p cnf 1 1\n", "1\n", 1_048_576, "limit"),
    (
        "p cnf 9 1\n",
        "9",
        10_000,
        "variable out of range in line 2",
    ),
];

#[test]
fn long_texts(rt: HostRuntime) -> Result<(), Fail> {
    for &(header, text, count, why) in &LONG {
        let all = repeated(rt.alloc(), header, text, count)?;
        check_refused(&rt, &all, why)?;
    }
    Ok(())
}

#[test]
fn largest_counts(rt: HostRuntime) -> Result<(), Fail> {
    check(&rt, "p cnf 16777215 0\n", "16777215 0:")?;
    let most = repeated(rt.alloc(), "p cnf 0 16777215\n", "0\n", 16_777_215)?;
    let formula = parse(rt.alloc(), most.as_bytes())?;
    assert_eq!(rt; formula.len(), 16_777_215);
    assert_eq!(rt; formula.literals(), 0);
    Ok(())
}

/// A clause with the maximum number of literals, one of each variable.
fn largest_clause(alloc: Global) -> Result<String, AllocError> {
    let mut text = String::from_str(alloc, "p cnf 1048575 1\n")?;
    for variable in 1..=1_048_575 {
        write!(text, "{variable} ")?;
    }
    text.push_str("0\n")?;
    Ok(text)
}

/// Checks how many literals the text's formula has.
fn check_literals(rt: &(impl Abort + AllocGlobal), text: &str, wanted: usize) -> Result<(), Fail> {
    let formula = parse(rt.alloc(), text.as_bytes())?;
    assert_eq!(rt; formula.literals(), wanted);
    Ok(())
}

/// If `parse` searched the whole clause for repeats, or cleared all marks after each clause, this
/// test would take minutes.
#[test]
fn long_clauses_take_linear_time(rt: HostRuntime) -> Result<(), Fail> {
    let largest = largest_clause(rt.alloc())?;
    check_literals(&rt, largest.as_str(), 1_048_575)?;
    let text = "1 2 3 4 5 6 7 8 9 0\n";
    let many = repeated(rt.alloc(), "p cnf 9 300000\n", text, 300_000)?;
    check_literals(&rt, many.as_str(), 2_700_000)
}

#[test]
fn memory_text(rt: HostRuntime) -> Result<(), Fail> {
    let text = DimacsFault::Memory.to_string(rt.alloc())?;
    assert_eq!(rt; text.as_str(), "out of memory");
    Ok(())
}

/// `make sweep` refuses each allocation of this test in turn; the second attempt then succeeds.
#[test]
fn a_refused_text_can_be_parsed_again(rt: HostRuntime) -> Result<(), Fail> {
    let text = b"p cnf 9 3\n1 -2 0\n1 2 3 4 5 6 7 8 9 -1 -2 -3 0\n9 0\n";
    let formula = match parse(rt.alloc(), text) {
        Ok(formula) => formula,
        Err(fault) => {
            assert_eq!(rt; fault, DimacsFault::Memory);
            parse(rt.alloc(), text)?
        }
    };
    assert_eq!(rt;
        (formula.vars(), formula.len(), formula.literals()),
        (9, 3, 15)
    );
    Ok(())
}
