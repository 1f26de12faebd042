//! Does what the words ask for.
ghost use Rattle.std.specs.Prelude.{◌≡◌, ◌≢◌, Err, IfErr, IfOk, Ok, false, map, option_map, string_bytes};
ghost use Rattle.std.specs.Io.KnownBytes.{Appends};
ghost use Rattle.lrup_model_check.specs.Answering.{answer_text};
ghost use Rattle.lrup_model_check.specs.Asking.{FailsIfAny, GaveAnswered, GaveIfAny, GaveSatisfied, GiveSatisfied, IsFailure, IsFilesFailure, NameAnswered, NameGiveSatisfied, NameSatisfied, lent_path};

use crate::answering::{Fault, answer};
use crate::failure::Failure;
use crate::words::{Paths, paths_of};
use lrup_text::Sink;
use model_check::{Answer, CheckFault};
use std::alloc::Global;

/// The files that paths name.
pub trait Files {
    ghost use Rattle.std.specs.Prelude.{ℕ, List};
    ghost use Rattle.lrup_model_check.specs.declared.failure.Failure.{Failure};

    /// Which bytes the file at a path may give, up to its end.
    ghost gives: { Self → List ℕ → List ℕ → Type 0 };

    /// How reading the file at a path may fail.
    ghost fails: { Self → List ℕ → Failure → Type 0 };

    /// Reads the file at a path to its end. The role is for the message.
    fn read(&self, path: &str, role: &'static str) -> Result<Vec<u8>, Failure>
        ensures gave { IfOk result (λ bytes. gives self.now path.now bytes.items) }
        ensures failed { IfErr result (fails self.now path.now) };
}

/// Checks the model that the words name, and prints the answer.
pub fn check<F: Files, O: Sink>(
    alloc: Global,
    words: &[String],
    files: &F,
    out: &mut O,
) -> Result<Answer, Failure>
    requires { O.has_failed out.old ≡ false }
    // What a user relies on: the words name the files, and their bytes are satisfied.
    ensures satisfied { result ≡ Ok Answer.Satisfies
        → NameSatisfied (F.gives files.now) (map string_bytes words.now) }
    ensures answer { IfOk result (NameAnswered (F.gives files.now) (map string_bytes words.now)) }
    // Unless memory was refused or a write failed, the answer is `Satisfies` if the words name files
    // that can be read and give nothing else.
    ensures exact { result ≢ Err (Failure.Answer (Fault.Check CheckFault.Memory))
        → result ≢ Err (Failure.Answer Fault.Unwritten)
        → NameGiveSatisfied (F.gives files.now) (F.fails files.now) (map string_bytes words.now)
        → result ≡ Ok Answer.Satisfies }
    ensures printed { IfOk result (λ answer.
        Appends (O.written out.old) (O.written out.new) (answer_text answer)) }
    // Why there is no answer, or only part of one was printed.
    ensures failure { IfErr result (IsFailure (F.gives files.now) (F.fails files.now)
        (map string_bytes words.now) (O.written out.old) (O.written out.new)) }
{
    let Some(paths) = paths_of(words) else {
        return Err(Failure::Usage);
    };
    check_files(alloc, paths, files, out)
}

/// Reads the files, and checks the model.
fn check_files<F: Files, O: Sink>(
    alloc: Global,
    paths: Paths<'_>,
    files: &F,
    out: &mut O,
) -> Result<Answer, Failure>
    requires { O.has_failed out.old ≡ false }
    ensures satisfied { result ≡ Ok Answer.Satisfies → GaveSatisfied (F.gives files.now)
        (lent_path paths.entry.assumed) paths.entry.formula.now paths.entry.model.now }
    ensures answer { IfOk result (λ answer. GaveAnswered (F.gives files.now)
        (lent_path paths.entry.assumed) paths.entry.formula.now paths.entry.model.now answer) }
    ensures exact { result ≢ Err (Failure.Answer (Fault.Check CheckFault.Memory))
        → result ≢ Err (Failure.Answer Fault.Unwritten)
        → GiveSatisfied (F.gives files.now) (F.fails files.now) (lent_path paths.entry.assumed)
        paths.entry.formula.now paths.entry.model.now → result ≡ Ok Answer.Satisfies }
    ensures printed { IfOk result (λ answer.
        Appends (O.written out.old) (O.written out.new) (answer_text answer)) }
    ensures failure { IfErr result (IsFilesFailure (F.gives files.now) (F.fails files.now)
        (lent_path paths.entry.assumed) paths.entry.formula.now paths.entry.model.now
        (O.written out.old) (O.written out.new)) }
{
    let formula = files.read(paths.formula, "formula")?;
    let assumed = read_assumed(paths.assumed, files)?;
    let model = files.read(paths.model, "model")?;
    let assumed = match &assumed {
        Some(bytes) => Some(bytes.as_slice()),
        None => None,
    };
    match answer(alloc, &formula, assumed, &model, out) {
        Ok(answer) => Ok(answer),
        Err(fault) => Err(Failure::Answer(fault)),
    }
}

/// Reads the file of assumed literals, if there is one.
fn read_assumed<F: Files>(path: Option<&str>, files: &F) -> Result<Option<Vec<u8>>, Failure>
    ensures gave { IfOk result (λ bytes. GaveIfAny (F.gives files.now) (lent_path path.entry)
        (option_map (λ some. some.items) bytes)) }
    ensures failed { IfErr result (FailsIfAny (F.fails files.now) (lent_path path.entry)) }
{
    match path {
        Some(path) => Ok(Some(files.read(path, "assumptions")?)),
        None => Ok(None),
    }
}
