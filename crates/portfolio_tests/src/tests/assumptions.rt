//! Runs under a cube of assumed literals.
use super::{ADDS, BOTH, NOTHING, Open, REFUTES, Said, defaults, readers_of, run_in, says};
use lrup_model::{Cube, Lit};
use portfolio::Verdict::{Unknown, UnsatisfiableUnder};
use std::alloc::Global;
use std::test::Fail;
use stream_check::Ending::{Bad, Ended};
use stream_check::Fault;

/// The cube of these literals.
fn cube_of(alloc: Global, values: &[i64]) -> Result<Cube, Fail> {
    let mut literals = Vec::new(alloc);
    for value in values {
        literals.push(Lit::new(*value).ok_or("no literal")?)?;
    }
    let cube = Cube::of(alloc, literals.as_slice())?;
    Ok(cube)
}

/// The reports of a stream that adds a clause within the cube, and of one whose first line is bad.
const WITHIN: Said = (1, 0, UnsatisfiableUnder, Ended);

const BAD: Said = (0, 0, Unknown, Bad(1, Fault::NoConflict));

const UNIT: &str = "5 2 0 1 2 0\n";

const SECOND: &str = "6 2 0 1 2 0\n";

/// The assumed literals, the streams, and their reports.
static ROWS: [(&[i64], &[&str], &[Said]); 8] = [
    (&[-2], &[UNIT], &[WITHIN]),
    (&[2], &[UNIT], &[ADDS]),
    (&[-2], &["5 2 0 1 2 0\n6 0 5 3 4 0\n"], &[REFUTES]),
    // A bad line doesn't undo what earlier lines did.
    (
        &[-2],
        &["5 2 0 1 2 0\n6 1 0 1 0\n"],
        &[(1, 0, UnsatisfiableUnder, Bad(2, Fault::NoConflict))],
    ),
    // Any stream may add the clause within the cube, and any stream may add the empty clause.
    (&[-2], &[UNIT, SECOND], &[WITHIN, WITHIN]),
    (&[-2], &["5 2 0 1 0\n", SECOND], &[BAD, WITHIN]),
    (
        &[-2],
        &[UNIT, "6 2 0 1 2 0\n8 0 6 3 4 0\n"],
        &[WITHIN, REFUTES],
    ),
    (&[-2], &["5 2 0 1 0\n", ""], &[BAD, NOTHING]),
];

#[test]
fn runs_under_a_cube(rt: HostRuntime) -> Result<(), Fail> {
    for mode in BOTH {
        for &(literals, streams, said) in &ROWS {
            let cube = cube_of(rt.alloc(), literals)?;
            let readers = readers_of(rt.alloc(), streams, 3)?;
            let gates = vec![in rt.alloc(); Open; readers.len()]?;
            let found = run_in(&rt, mode, &cube, defaults(), readers, gates)?;
            says(&rt, (mode, literals, streams), &found, said)?;
        }
    }
    Ok(())
}
