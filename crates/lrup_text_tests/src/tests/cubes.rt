//! Texts of cubes.
use super::{has_text, repeated, same};
use lrup_model::{Cube, Lit};
use lrup_text::{CubeFault, read_cube};
use std::alloc::{AllocError, Global};
use std::fmt::Write;
use std::process::Abort;
use std::test::Fail;

/// Appends the literal of this number, if the cube has it.
fn push_if_had(shown: &mut String, cube: &Cube, value: i64) -> Result<(), AllocError> {
    match Lit::new(value) {
        Some(literal) if cube.has(literal) => write!(shown, " {literal}"),
        _ => Ok(()),
    }
}

/// Literals that a cube may have.
static LITERALS: [i64; 8] = [1, -1, 2, -2, 3, -3, 16_777_215, -16_777_215];

/// Which of `LITERALS` the cube has.
fn literals_shown(alloc: Global, cube: &Cube) -> Result<String, AllocError> {
    let mut shown = String::from_str(alloc, "cube")?;
    for &value in &LITERALS {
        push_if_had(&mut shown, cube, value)?;
    }
    Ok(shown)
}

/// The literals of a text's cube over these variables, or the fault's text.
fn cube_shown(alloc: Global, text: &[u8], vars: u32) -> Result<String, AllocError> {
    match read_cube(alloc, text, vars.min(Lit::MAX_VARIABLE)) {
        Ok(cube) => literals_shown(alloc, &cube),
        Err(fault) => fault.to_string(alloc),
    }
}

/// A text, the number of variables, and its cube or the fault.
type Row<'a> = (&'a str, u32, &'a str);

/// Reads the text of each row, and compares the result.
fn cubes_are(rt: &impl Abort, alloc: Global, rows: &[Row<'_>]) -> Result<(), AllocError> {
    for &(text, vars, wanted) in rows {
        let found = cube_shown(alloc, text.as_bytes(), vars)?;
        same(rt, (text, found.as_str()), (text, wanted));
    }
    Ok(())
}

/// Texts of cubes, and texts with each fault. A variable out of range is reported only if the text
/// is neither misspelled nor too long.
static CUBES: &[Row] = &[
    ("-2 0\n", 2, "cube -2"),
    ("-2 1 -2 0\n", 2, "cube 1 -2"),
    ("2 0\n", 2, "cube 2"),
    ("0\n", 2, "cube"),
    ("0\n", 0, "cube"),
    ("1 -1 0\n", 2, "cube 1 -1"),
    ("3 -1 2 0\n", 3, "cube -1 2 3"),
    (
        "16777215 -16777215 0\n",
        16_777_215,
        "cube 16777215 -16777215",
    ),
    ("3 0\n", 2, "variable out of range"),
    ("-3 0\n", 2, "variable out of range"),
    ("1 3 -2 0\n", 2, "variable out of range"),
    ("1 0\n", 0, "variable out of range"),
    ("16777216 0\n", 16_777_215, "variable out of range"),
    ("999999999999999999 0\n", 2, "variable out of range"),
    ("-999999999999999999 0\n", 2, "variable out of range"),
    ("1000000000000000000 0\n", 2, "too long"),
    ("-1000000000000000000 0\n", 2, "too long"),
    ("3 1111111111111111111 0\n", 2, "too long"),
    ("1111111111111111111", 2, "too long"),
    ("1111111111111111111x", 2, "too long"),
];

#[test]
fn cubes_are_read(rt: HostRuntime) -> Result<(), AllocError> {
    cubes_are(&rt, rt.alloc(), CUBES)
}

/// Misspelled texts, separated by `|`; in the last texts, a variable out of range comes before the
/// misspelling.
const MISSPELLED: &str = "|\n|-2 0|+2 0\n|-2 0\n0\n|-2 0\n1 0\n|-2 0\n\n|-2 0\r\n|-2  0\n| -2 0\n|\
    -2 0 \n|-2\t0\n|-2 00\n|02 0\n|-0 0\n|- 2 0\n|--2 0\n|-2 d 0\n|1,2 0\n|1 0 2 0\n|c\n-2 0\n|\
    0\n-2 0\n|3 0|3 x|3 02 1111111111111111111 0\n|999999999999999999";

/// Tries these texts, and each proper prefix of a cube's text.
#[test]
fn misspelled_cubes(rt: HostRuntime) -> Result<(), Fail> {
    for text in MISSPELLED.split('|') {
        cubes_are(&rt, rt.alloc(), &[(text, 2, "spelling")])?;
    }
    let whole = "-2 13 -2 0\n";
    for end in 0..whole.len() {
        let front = whole.get(..end).ok_or("a cut letter")?;
        cubes_are(&rt, rt.alloc(), &[(front, 2, "spelling")])?;
    }
    cubes_are(&rt, rt.alloc(), &[(whole, 2, "variable out of range")])?;
    Ok(())
}

/// A literal, how many times it occurs, the text's end, and the result.
static LONG: [(&str, usize, &str, &str); 10] = [
    ("1 ", 65_535, "0\n", "cube 1"),
    ("-1 ", 65_535, "0\n", "cube -1"),
    ("1 ", 65_536, "0\n", "too long"),
    ("-1 ", 65_536, "0\n", "too long"),
    ("3 ", 65_535, "0\n", "variable out of range"),
    ("1 ", 65_535, "9", "too long"),
    ("1 ", 65_535, "-x", "too long"),
    ("1 ", 65_535, "x", "spelling"),
    ("1 ", 65_535, "", "spelling"),
    ("1 ", 65_535, "0", "spelling"),
];

#[test]
fn long_cubes(rt: HostRuntime) -> Result<(), Fail> {
    for &(literal, count, end, wanted) in &LONG {
        let text = repeated(rt.alloc(), ("", literal, end), count)?;
        cubes_are(&rt, rt.alloc(), &[(text.as_str(), 2, wanted)])?;
    }
    Ok(())
}

static FAULT_TEXTS: [(CubeFault, &str); 4] = [
    (CubeFault::Spelling, "spelling"),
    (CubeFault::TooLong, "too long"),
    (CubeFault::Range, "variable out of range"),
    (CubeFault::Memory, "out of memory"),
];

#[test]
fn cube_fault_texts(rt: HostRuntime) -> Result<(), Fail> {
    for (fault, text) in &FAULT_TEXTS {
        has_text(&rt, rt.alloc(), fault, text)?;
    }
    Ok(())
}
