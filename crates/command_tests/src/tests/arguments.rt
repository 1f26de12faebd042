//! Runs with the arguments that the system gives, beginning with the program's name; and the
//! reasons why the system doesn't open a file.
use super::*;
use command::{OpenFault, command_with_arguments};
use std::env::Args;
use std::io;
use std::process::ExitCode;

fn arguments_of(alloc: Global, texts: &[&str]) -> Result<Args, Fail> {
    let mut arguments = Vec::new(alloc);
    for text in texts {
        arguments.push(String::from_str(alloc, text)?)?;
    }
    Ok(arguments.into_iter())
}

/// Checks how a run over the four clauses, a refutation and an empty stream ends.
fn assert_exits(rt: &impl Host, arguments: io::Result<Args>, wanted: Ends) {
    let alloc = rt.alloc();
    let mut files = Shelf::new(alloc, Setup::of(&[REFUTES, ""]));
    let mut out = Paper::new(alloc, 7, 0);
    let mut err = Paper::new(alloc, 7, 0);
    let code = command_with_arguments(rt, rt, alloc, arguments, &mut files, &mut out, &mut err);
    let (status, report, said) = wanted;
    let found = (code, text_of(&out.bytes), text_of(&err.bytes));
    same(rt, found, (ExitCode::from(status), report, said));
}

const REFUTED: &str = "c stream 1: 2 added, 0 deleted, ended\ns UNSATISFIABLE\n";

const UNKNOWN: &str = "c stream 1: 0 added, 0 deleted, ended\ns UNKNOWN\n";

/// The arguments, and what the run ends with.
static ARGUMENTS: [([&str; 3], Ends); 5] = [
    (["lrupd", "f", "1"], (0, REFUTED, "")),
    (["lrupd", "f", "2"], (3, UNKNOWN, "")),
    (["--room", "f", "1"], (0, REFUTED, "")),
    (["", "f", "1"], (0, REFUTED, "")),
    (["lrupd", "g", "1"], (5, "", "lrupd: cannot read formula\n")),
];

#[test]
fn a_run_with_arguments(rt: HostRuntime) -> Result<(), Fail> {
    for (texts, wanted) in &ARGUMENTS {
        let arguments = arguments_of(rt.alloc(), texts)?;
        assert_exits(&rt, Ok(arguments), *wanted);
    }
    Ok(())
}

const NOT_UTF_8: &str = "error: invalid UTF-8 was detected in one or more arguments\n";

#[test]
fn arguments_that_the_system_refuses(rt: HostRuntime) {
    for (kind, wanted) in [
        (
            io::ErrorKind::OutOfMemory,
            (6, "", "lrupd: out of memory\n"),
        ),
        (io::ErrorKind::InvalidData, (2, "", NOT_UTF_8)),
    ] {
        assert_exits(&rt, Err(io::Error::from(kind)), wanted);
    }
}

#[test]
fn files_that_the_system_does_not_open(rt: HostRuntime) {
    for (kind, wanted) in [
        (io::ErrorKind::OutOfMemory, OpenFault::Memory),
        (io::ErrorKind::NotFound, OpenFault::NotOpened),
        (io::ErrorKind::PermissionDenied, OpenFault::NotOpened),
        (io::ErrorKind::IsADirectory, OpenFault::NotOpened),
    ] {
        same(&rt, OpenFault::from(io::Error::from(kind)), wanted);
    }
}
