//! Worked formulas, assumptions and models: the answer, or why a file is refused.
ghost use Rattle.std.specs.Prelude.{IsTrue};
ghost use Rattle.lrup_model.specs.Cube.{IsCubeOver};

use lrup_model::{Cube, Formula, Lit};
use model_check::{Answer, CheckFault, check_model, evaluate};
use std::alloc::{AllocError, Global};
use std::fmt::Write;
use std::process::Abort;
use std::test::Fail;

/// The answer as text.
fn answer_shown(alloc: Global, answer: Answer) -> Result<String, AllocError> {
    match answer {
        Answer::Satisfies => String::from_str(alloc, "satisfies"),
        Answer::Contradiction(l) => format!(in alloc; "contradiction {l}"),
        Answer::UntrueClause(number) => format!(in alloc; "clause {number}"),
        Answer::UntrueAssumption(l) => format!(in alloc; "assumption {l}"),
    }
}

/// The answer as text, or the fault's text.
fn shown(
    alloc: Global,
    formula: &str,
    assumed: Option<&[u8]>,
    model: &str,
) -> Result<String, AllocError> {
    match check_model(alloc, formula.as_bytes(), assumed, model.as_bytes()) {
        Ok(answer) => answer_shown(alloc, answer),
        Err(fault) => fault.to_string(alloc),
    }
}

fn check(
    rt: &(impl Abort + AllocGlobal),
    formula: &str,
    assumed: Option<&[u8]>,
    model: &str,
    wanted: &str,
) -> Result<(), Fail> {
    let found = shown(rt.alloc(), formula, assumed, model)?;
    let front = model.get(..40).unwrap_or(model);
    assert_eq!(rt; (front, found.as_str()), (front, wanted));
    Ok(())
}

/// Three clauses, with the model 1, 2, -3.
static FORMULA: &str = "p cnf 3 3\n1 -2 0\n2 3 0\n-3 -1 0\n";

/// Texts of models of `FORMULA`, and their answers.
static READ: [(&str, &str); 16] = [
    ("v 1 2 -3 0\n", "satisfies"),
    ("s SATISFIABLE\nv 1 2\nv -3\nv 0\n", "satisfies"),
    ("c x\ns SATISFIABLE\nv -3 2 1 0\nc y", "satisfies"),
    ("v 1 1 2 -3 2 0", "satisfies"),
    ("v\n\nv 1\t2 -3\r\nv 0 \r\n \t\n", "satisfies"),
    (" v  1 2 -3 0\n", "satisfies"),
    ("v 1 2 -3 0\nv\ns\n", "satisfies"),
    ("cv 3 0\nv 1 2 -3 0\n", "satisfies"),
    ("v 0\ns UNSATISFIABLE\n", "clause 1"),
    ("v -2 0\n", "clause 2"),
    ("v 1 2 0\n", "clause 3"),
    ("v 1 -2 3 0\n", "clause 3"),
    ("v 1 2 -3 -1 0\n", "contradiction -1"),
    ("v -3 3 1 -1 0\n", "contradiction 3"),
    ("v 2\nv -2 0\n", "contradiction -2"),
    ("v 3 -1 1 -3 0\n", "contradiction 1"),
];

/// Texts of models of `FORMULA` that are refused, and why.
static REFUSED: [(&str, &str); 28] = [
    ("", "no 0 at the end"),
    ("s SATISFIABLE\n", "no 0 at the end"),
    ("v 1 2 -3\n", "no 0 at the end"),
    ("v 1 -1\n", "no 0 at the end"),
    ("c v 0\n", "no 0 at the end"),
    ("v 1 2 -3 0 0\n", "literal after the 0 in line 1"),
    ("v 0\nv 1\n", "literal after the 0 in line 2"),
    ("v 0 x\n", "literal after the 0 in line 1"),
    ("v 4 0\n", "variable out of range in line 1"),
    ("\nv -4 0\n", "variable out of range in line 2"),
    ("v 3 0 4\n", "literal after the 0 in line 1"),
    (
        "v 99999999999999999999 0\n",
        "variable out of range in line 1",
    ),
    ("v 01 0\n", "bad number in line 1"),
    ("v +1 0\n", "bad number in line 1"),
    ("v -0\n", "bad number in line 1"),
    ("v 00\n", "bad number in line 1"),
    ("v 1- 0\n", "bad number in line 1"),
    ("v - 0\n", "bad number in line 1"),
    ("v 99999999999999999999x 0\n", "bad number in line 1"),
    ("v 1 -1 x 0\n", "bad number in line 1"),
    ("v 1 v 0\n", "bad number in line 1"),
    ("1 2 -3 0\n", "line 1 begins with neither v, s nor c"),
    ("SAT\n1 2 -3 0\n", "line 1 begins with neither v, s nor c"),
    ("v1 2 -3 0\n", "line 1 begins with neither v, s nor c"),
    ("V 1 2 -3 0\n", "line 1 begins with neither v, s nor c"),
    ("ss\n", "line 1 begins with neither v, s nor c"),
    ("c\nv 0\n c x\n", "line 3 begins with neither v, s nor c"),
    ("v 0\no 3\n", "line 2 begins with neither v, s nor c"),
];

#[test]
fn models(rt: HostRuntime) -> Result<(), Fail> {
    for &(model, wanted) in &READ {
        check(&rt, FORMULA, None, model, wanted)?;
    }
    Ok(())
}

#[test]
fn refused_models(rt: HostRuntime) -> Result<(), Fail> {
    for &(model, why) in &REFUSED {
        let wanted = format!(in rt.alloc(); "model refused: {why}")?;
        check(&rt, FORMULA, None, model, &wanted)?;
    }
    Ok(())
}

/// Texts of assumed literals, and the answers for the model 1, 2, -3 of `FORMULA`.
static ASSUMED: [(&str, &str); 10] = [
    ("0\n", "satisfies"),
    ("2 0\n", "satisfies"),
    ("-3 1 2 1 0\n", "satisfies"),
    ("-1 0\n", "assumption -1"),
    ("3 -2 0\n", "assumption -2"),
    ("2 -2 0\n", "assumption -2"),
    ("3 0\n", "assumption 3"),
    ("1 0", "assumptions refused: spelling"),
    ("v 1 0\n", "assumptions refused: spelling"),
    ("4 0\n", "assumptions refused: variable out of range"),
];

#[test]
fn assumptions(rt: HostRuntime) -> Result<(), Fail> {
    for &(assumed, wanted) in &ASSUMED {
        check(
            &rt,
            FORMULA,
            Some(assumed.as_bytes()),
            "v 1 2 -3 0\n",
            wanted,
        )?;
    }
    Ok(())
}

/// A formula, assumed literals, a model, and the answer: which of several is given.
static ORDER: [(&str, &str, &str, &str); 10] = [
    ("p cnf 0 0\n", "0\n", "v 0\n", "satisfies"),
    ("p cnf 0 1\n0\n", "0\n", "v 0\n", "clause 1"),
    ("p cnf 2 0\n", "0\n", "v 1 -1 0\n", "contradiction -1"),
    ("p cnf 2 0\n", "2 0\n", "v 1 0\n", "assumption 2"),
    ("p cnf 2 1\n1 0\n", "2 0\n", "v -1 0\n", "clause 1"),
    ("p cnf 2 1\n1 0\n", "2 0\n", "v -1 1 0\n", "contradiction 1"),
    ("p cnf 2 1\n", "2", "x", "formula refused: too few clauses"),
    ("p cnf 2 0\n", "2", "x", "assumptions refused: spelling"),
    (
        "p cnf 2 0\n",
        "2 0\n",
        "x",
        "model refused: line 1 begins with neither v, s nor c",
    ),
    ("p cnf 2 2\n1 0\n2 0\n", "0\n", "v 1 0\n", "clause 2"),
];

#[test]
fn the_first_is_given(rt: HostRuntime) -> Result<(), Fail> {
    for &(formula, assumed, model, wanted) in &ORDER {
        check(&rt, formula, Some(assumed.as_bytes()), model, wanted)?;
    }
    Ok(())
}

/// The same for the largest variable, which takes the most marks.
static LARGEST: [(&str, &str, &str, &str); 2] = [
    (
        "p cnf 16777215 1\n-16777215 0\n",
        "-16777215 0\n",
        "v -16777215 0\n",
        "satisfies",
    ),
    (
        "p cnf 16777215 1\n-16777215 0\n",
        "0\n",
        "v 16777216 0\n",
        "model refused: variable out of range in line 1",
    ),
];

#[test]
fn largest_variable(rt: HostRuntime) -> Result<(), Fail> {
    for &(formula, assumed, model, wanted) in &LARGEST {
        check(&rt, formula, Some(assumed.as_bytes()), model, wanted)?;
    }
    Ok(())
}

/// A model with one literal of each of many variables, one in a line.
fn long_model(alloc: Global, count: u32) -> Result<String, AllocError> {
    let mut text = String::new(alloc);
    for variable in 1..=count {
        write!(text, "v -{variable}\n")?;
    }
    text.push_str("v 0\n")?;
    Ok(text)
}

#[test]
fn many_literals(rt: HostRuntime) -> Result<(), Fail> {
    let model = long_model(rt.alloc(), 100_000)?;
    check(
        &rt,
        "p cnf 100000 1\n-100000 0\n",
        None,
        &model,
        "satisfies",
    )?;
    check(&rt, "p cnf 100000 1\n100000 0\n", None, &model, "clause 1")?;
    let why = "model refused: variable out of range in line 100000";
    check(&rt, "p cnf 99999 0\n", None, &model, why)
}

#[test]
fn memory_text(rt: HostRuntime) -> Result<(), Fail> {
    let text = CheckFault::Memory.to_string(rt.alloc())?;
    assert_eq!(rt; text.as_str(), "out of memory");
    Ok(())
}

/// Whether the assumed literals are over the formula's variables.
fn is_over(formula: &Formula, cube: &Cube) -> bool
    ensures { IsTrue result → IsCubeOver formula.now.vars cube.now }
{
    let over = cube.vars();
    let most = formula.vars();
    if over > most {
        return false;
    }
    true
}

/// The answer for one literal of the formula with the clause `1`, under a cube over its variable.
fn of_one(
    rt: &(impl Abort + AllocGlobal),
    cube: &Cube,
    literal: i64,
    wanted: &str,
) -> Result<(), Fail> {
    let alloc = rt.alloc();
    let (Some(one), Some(l)) = (Lit::new(1), Lit::new(literal)) else {
        return Ok(());
    };
    let mut formula = Formula::new(alloc, 1);
    formula.push(&[one])?;
    if l.var() > formula.vars() || !is_over(&formula, cube) {
        return Ok(());
    }
    let answer = evaluate(alloc, &formula, cube, &[l])?;
    let found = answer_shown(alloc, answer)?;
    assert_eq!(rt; found.as_str(), wanted);
    Ok(())
}

/// Literals that a caller has, without a text of them.
#[test]
fn evaluated_literals(rt: HostRuntime) -> Result<(), Fail> {
    let alloc = rt.alloc();
    let none = Cube::empty(alloc);
    of_one(&rt, &none, 1, "satisfies")?;
    of_one(&rt, &none, -1, "clause 1")?;
    if let Some(not_one) = Lit::new(-1) {
        let cube = Cube::of(alloc, &[not_one])?;
        of_one(&rt, &cube, 1, "assumption -1")?;
        of_one(&rt, &cube, -1, "clause 1")?;
    }
    Ok(())
}

/// `make sweep` refuses each allocation of this test in turn; the second attempt then succeeds.
#[test]
fn a_model_can_be_checked_again(rt: HostRuntime) -> Result<(), Fail> {
    let formula = FORMULA.as_bytes();
    let assumed = Some(b"2 -3 0\n".as_slice());
    let model = b"v 1 2\nv -3 0\n";
    let answer = match check_model(rt.alloc(), formula, assumed, model) {
        Ok(answer) => answer,
        Err(fault) => {
            assert_eq!(rt; fault, CheckFault::Memory);
            check_model(rt.alloc(), formula, assumed, model)?
        }
    };
    assert_eq!(rt; answer, Answer::Satisfies);
    Ok(())
}
