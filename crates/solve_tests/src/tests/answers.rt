//! Each answer.
use super::*;
use solve::Expected;

const UNKNOWN: &str = "s UNKNOWN\n";

/// Scripts for the four clauses, and how the run ends.
static REFUTATIONS: [(&str, u8, &str); 6] = [
    ("", 0, UNKNOWN),
    ("check 1 9 9 9 right\n", 20, "s UNSATISFIABLE\n"),
    (
        "c one\ncheck 1 9 9 9 right\nc two\n",
        20,
        "c one\nc two\ns UNSATISFIABLE\n",
    ),
    ("check 1 9 9 9 part\n", 0, UNKNOWN),
    (
        "check 1 9 9 9 wrong\ncheck 1 9 9 9 right\n",
        20,
        "s UNSATISFIABLE\n",
    ),
    (
        "check 1 9 9 9 right\nc two\ncheck 1 9 9 9 wrong\nv ++\nmodel\n",
        20,
        "c two\ns UNSATISFIABLE\n",
    ),
];

#[test]
fn refutations(rt: HostRuntime) -> Result<(), Fail> {
    let formula = four_clauses(rt.alloc())?;
    for (script, status, out) in &REFUTATIONS {
        assert_ends(&rt, &formula, script, (*status, out, ""))?;
    }
    Ok(())
}

/// Scripts for the two clauses, and how the run ends.
static MODELS: [(&str, u8, &str); 4] = [
    ("v -+\nmodel\n", 10, "s SATISFIABLE\nv -1 2 0\n"),
    ("v -\nv +-\nmodel\n", 10, "s SATISFIABLE\nv -1 2 -3 0\n"),
    (
        "v ++++++++++\nmodel\n",
        10,
        "s SATISFIABLE\nv 1 2 3 4 5 6 7 8 9 10\nv 0\n",
    ),
    (
        "v ++++++++++++++\nmodel\n",
        10,
        "s SATISFIABLE\nv 1 2 3 4 5 6 7 8 9 10\nv 11 12 0\n",
    ),
];

#[test]
fn models(rt: HostRuntime) -> Result<(), Fail> {
    let formula = two_clauses(rt.alloc())?;
    for (script, status, out) in &MODELS {
        assert_ends(&rt, &formula, script, (*status, out, ""))?;
    }
    Ok(())
}

/// Scripts for the four clauses, an assumed literal, and how the run ends.
static UNDER: [(&str, i64, u8, &str); 3] = [
    (
        "check 1 9 9 9 part\n",
        -2,
        20,
        "s UNSATISFIABLE UNDER ASSUMPTIONS\n",
    ),
    ("check 1 9 9 9 part\n", 2, 0, UNKNOWN),
    (
        "check 1 9 9 9 part\ncheck 1 9 9 9 right\n",
        -2,
        20,
        "s UNSATISFIABLE\n",
    ),
];

#[test]
fn under_assumptions(rt: HostRuntime) -> Result<(), Fail> {
    let formula = four_clauses(rt.alloc())?;
    for (script, assumed, status, out) in &UNDER {
        let Some(literal) = Lit::new(*assumed) else {
            continue;
        };
        let setup = Setup {
            assumed: &[literal],
            ..Setup::of(script)
        };
        let ran = run(&rt, &formula, setup, &Diary::new(&[]))?;
        same(&rt, (*script, ran.ends()), (*script, (*status, *out, "")));
    }
    Ok(())
}

#[test]
fn no_comments(rt: HostRuntime) -> Result<(), Fail> {
    let formula = four_clauses(rt.alloc())?;
    let setup = Setup {
        choices: Choices {
            quiet: true,
            ..CHOICES
        },
        ..Setup::of("c one\ncheck 1 9 9 9 right\nc two\n")
    };
    let ran = run(&rt, &formula, setup, &Diary::new(&[]))?;
    same(&rt, ran.ends(), (20, "s UNSATISFIABLE\n", ""));
    Ok(())
}

/// Scripts for the four clauses, and the statuses of a checker, and if either 'unsatisfiable' is
/// expected.
static STATUSES: [(&str, [u8; 3]); 3] = [
    ("check 1 9 9 9 right\n", [0, 0, 1]),
    ("check 1 9 9 9 part\n", [3, 1, 1]),
    ("v ++\nmodel\n", [3, 1, 1]),
];

#[test]
fn statuses(rt: HostRuntime) -> Result<(), Fail> {
    let formula = four_clauses(rt.alloc())?;
    let ways = [
        Statuses::OfChecker,
        Statuses::Expect(Expected::Unsatisfiable),
        Statuses::Expect(Expected::UnsatisfiableUnder),
    ];
    for (script, wanted) in &STATUSES {
        for (statuses, status) in ways.iter().zip(wanted) {
            let setup = Setup {
                choices: Choices {
                    statuses: *statuses,
                    ..CHOICES
                },
                ..Setup::of(script)
            };
            let ran = run(&rt, &formula, setup, &Diary::new(&[]))?;
            same(&rt, (*script, ran.status), (*script, *status));
        }
    }
    Ok(())
}

/// A model is found if it is expected, and isn't looked for if none may be sent.
#[test]
fn expected_models(rt: HostRuntime) -> Result<(), Fail> {
    let formula = two_clauses(rt.alloc())?;
    for (models, status) in [(true, 0), (false, 1)] {
        let setup = Setup {
            choices: Choices {
                models,
                statuses: Statuses::Expect(Expected::Satisfiable),
                ..CHOICES
            },
            ..Setup::of("v ++\nmodel\n")
        };
        let ran = run(&rt, &formula, setup, &Diary::new(&[]))?;
        same(&rt, (models, ran.status), (models, status));
    }
    Ok(())
}

/// Each write fails in turn: what goes out is a prefix, and the status is 1.
#[test]
fn failing_writes(rt: HostRuntime) -> Result<(), Fail> {
    let formula = four_clauses(rt.alloc())?;
    let whole = "c one\nc two\ns UNSATISFIABLE\n";
    let said = "lrup-solve: cannot write the answer\n";
    for fails_at in 1..6usize {
        let setup = Setup {
            fails_at,
            ..Setup::of("c one\ncheck 1 9 9 9 right\nc two\n")
        };
        let ran = run(&rt, &formula, setup, &Diary::new(&[]))?;
        let (status, out, err) = ran.ends();
        same(&rt, (status, whole.starts_with(out), err), (1, true, said));
    }
    Ok(())
}
