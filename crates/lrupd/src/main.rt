//! `lrupd [--tries N] [--lines N] [--room N] [--assume FILE] [--checkpoint FILE | --rounds DIR]
//! [--serial] [--watch] FORMULA STREAM...` checks the proofs of SAT solvers that share their
//! clauses, while the solvers write these proofs.
#![tactic(auto)]

use command::{Files, Machine, OpenFault, command_with_arguments};
use lrup_text::{Reading, WriteFault, Writing};
use std::env;
use std::fs::{File, OpenOptions};
use std::io::{self, Stderr};
use std::process::ExitCode;

/// The machine's files, and its standard error for progress reports. Contracts say nothing about
/// the contents of these files, or about what the system does to them: each relation below allows
/// everything.
#[derive(Drop)]
struct MachineFiles<'a> {
    rt: &'a HostRuntime,
}

impl Files for MachineFiles<'_> {
    type Input = Reading<File>;

    ghost use Rattle.std.specs.Prelude.{None};

    ghost contents = { λ _ _. None };

    ghost opens = { λ _ _ _ _. Unit {0} };

    ghost refuses = { λ _ _ _ _. Unit {0} };

    fn open(&mut self, path: &str) -> Result<Reading<File>, OpenFault> {
        Ok(Reading::new(File::open(self.rt, path)?))
    }
}

impl Machine for MachineFiles<'_> {
    type Output = Writing<File>;

    /// Each line is one write, so that the lines of several streams don't mix.
    type Watcher = Writing<Stderr>;

    ghost lacks = { λ _ _ _. Unit {0} };

    ghost fails = { λ _ _ _ _. Unit {0} };

    ghost creates = { λ _ _ _ _. Unit {0} };

    ghost refuses_new = { λ _ _ _ _. Unit {0} };

    ghost keeps = { λ _ _ _. Unit {0} };

    ghost loses = { λ _ _ _. Unit {0} };

    ghost discards = { λ _ _ _. Unit {0} };

    fn open_if_there(&mut self, path: &str) -> Result<Option<Reading<File>>, OpenFault> {
        match File::open(self.rt, path) {
            Ok(file) => Ok(Some(Reading::new(file))),
            Err(error) => match error.kind() {
                io::ErrorKind::NotFound => Ok(None),
                _ => Err(OpenFault::from(error)),
            },
        }
    }

    fn create(&mut self, path: &str) -> Result<Writing<File>, OpenFault> {
        let mut options = OpenOptions::new();
        let file = options.write(true).create_new(true).open(self.rt, path)?;
        Ok(Writing::new(file))
    }

    fn keep(&mut self, output: Writing<File>) -> Result<(), WriteFault> {
        match output.into_inner().sync_all() {
            Ok(()) => Ok(()),
            Err(_) => Err(WriteFault),
        }
    }

    /// Leaves the file in place: by now its name may belong to another file.
    fn discard(&mut self, _output: Writing<File>) {}

    fn watcher(&self) -> Writing<Stderr> {
        Writing::new(self.rt.stderr())
    }
}

/// Opens `/dev/null`; `None` if that fails.
fn hold(rt: &HostRuntime) -> Option<File> {
    File::open(rt, "/dev/null").ok()
}

fn main(rt: HostRuntime) -> ExitCode {
    // Occupy descriptors 0 to 2, so that no file opened later is mistaken for a closed standard
    // stream.
    let _held = [hold(&rt), hold(&rt), hold(&rt)];
    let mut files = MachineFiles { rt: &rt };
    let mut out = Writing::new(rt.stdout());
    let mut err = Writing::new(rt.stderr());
    let arguments = env::args(&rt);
    let (threads, clock) = (&rt, &rt);
    command_with_arguments(
        threads,
        clock,
        rt.alloc(),
        arguments,
        &mut files,
        &mut out,
        &mut err,
    )
}
