//! `lrup-model [--assume FILE] FORMULA MODEL` checks a solver's model: whether it satisfies a
//! formula in DIMACS CNF, and makes assumed literals true.
#![tactic(auto)]

mod answering;
mod checking;
mod failure;
mod words;

use checking::{Files, check};
use failure::{Failure, exit_status};
use lrup_text::Writing;
use model_check::Answer;
use std::env;
use std::fs::File;
use std::io::{self, Read};
use std::process::ExitCode;

/// The failure of reading the file with this role.
fn unread(error: &io::Error, role: &'static str) -> Failure {
    match error.kind() {
        io::ErrorKind::OutOfMemory => Failure::Memory,
        _ => Failure::Unread(role),
    }
}

/// The machine's files. Contracts say nothing about their contents and when reads fail: `gives` and
/// `fails` allow everything.
#[derive(Drop)]
struct MachineFiles<'a> {
    rt: &'a HostRuntime,
}

impl Files for MachineFiles<'_> {
    ghost gives = { λ _ _ _. Unit {0} };

    ghost fails = { λ _ _ _. Unit {0} };

    /// `-` is standard input.
    fn read(&self, path: &str, role: &'static str) -> Result<Vec<u8>, Failure> {
        let mut bytes = Vec::new(self.rt.alloc());
        let read = if path == "-" {
            self.rt.stdin().read_to_end(&mut bytes)
        } else {
            match File::open(self.rt, path) {
                Ok(mut file) => file.read_to_end(&mut bytes),
                Err(error) => Err(error),
            }
        };
        match read {
            Ok(_) => Ok(bytes),
            Err(error) => Err(unread(&error, role)),
        }
    }
}

/// The words that the system gives, without the program's name.
fn words_of(rt: &HostRuntime) -> Result<Vec<String>, Failure> {
    let arguments = match env::args(rt) {
        Ok(arguments) => arguments,
        Err(error) => {
            return Err(match error.kind() {
                io::ErrorKind::OutOfMemory => Failure::Memory,
                _ => Failure::NotText,
            });
        }
    };
    match arguments.skip(1).collect(rt.alloc()) {
        Ok(words) => Ok(words),
        Err(_) => Err(Failure::Memory),
    }
}

/// Does what the words ask for.
fn run(rt: &HostRuntime) -> Result<Answer, Failure> {
    let words = words_of(rt)?;
    let mut out = Writing::new(rt.stdout());
    check(rt.alloc(), &words, &MachineFiles { rt }, &mut out)
}

/// Opens `/dev/null`; `None` if that fails.
fn hold(rt: &HostRuntime) -> Option<File> {
    File::open(rt, "/dev/null").ok()
}

fn main(rt: HostRuntime) -> ExitCode {
    // Occupy descriptors 0 to 2, so that no file opened later is mistaken for a closed standard
    // stream.
    let _held = [hold(&rt), hold(&rt), hold(&rt)];
    let found = run(&rt);
    if let Err(failure) = &found {
        let _ = eprintln!(&rt; "{failure}");
    }
    ExitCode::from(exit_status(&found))
}
