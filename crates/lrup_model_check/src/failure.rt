//! Why there is no answer, and the exit statuses.
ghost use Rattle.std.specs.Prelude.{◌≡◌};
ghost use Rattle.lrup_model_check.specs.Statuses.{failure_status, found_status};

use crate::answering::Fault;
use model_check::{Answer, CheckFault};
use thiserror::Error;

/// The usage of the program.
const USAGE: &str = "usage: lrup-model [--assume FILE] FORMULA MODEL

Checks whether MODEL, the `v` lines of a SAT solver's answer, satisfies FORMULA, a file in DIMACS
CNF, and makes the literals in FILE true, if it is given. A file named - is standard input.

Status 10: `s SATISFIABLE`. 3: it doesn't, and a comment says why. Otherwise standard error says
why there is no answer. 2: usage. 4: a file was refused. 5: a file can't be read. 6: out of memory.
7: the answer can't be written.";

/// Why there is no answer.
#[derive(Debug, Drop, Error)]
pub enum Failure {
    /// The words ask for nothing that the program does, or for help.
    #[error("{USAGE}")]
    Usage,
    /// An argument isn't UTF-8.
    #[error("lrup-model: an argument isn't UTF-8")]
    NotText,
    /// The file with this role can't be read to its end.
    #[error("lrup-model: cannot read {0}")]
    Unread(&'static str),
    /// What `answer` gives.
    #[error("lrup-model: {0}")]
    Answer(Fault),
    /// Out of memory.
    #[error("lrup-model: out of memory")]
    Memory,
}

impl Failure {
    /// The exit status: never 10 or 3.
    fn status(&self) -> u8
        ensures { result ≡ failure_status self.now }
    {
        match self {
            Failure::Usage | Failure::NotText => 2,
            Failure::Answer(Fault::Check(CheckFault::Memory)) | Failure::Memory => 6,
            Failure::Answer(Fault::Check(_)) => 4,
            Failure::Unread(_) => 5,
            Failure::Answer(Fault::Unwritten) => 7,
        }
    }
}

/// The exit status of what was found out.
pub fn exit_status(found: &Result<Answer, Failure>) -> u8
    ensures { result ≡ found_status found.now }
{
    match found {
        Ok(Answer::Satisfies) => 10,
        Ok(Answer::Contradiction(_) | Answer::UntrueClause(_) | Answer::UntrueAssumption(_)) => 3,
        Err(failure) => failure.status(),
    }
}
