//! Checks the bytes of the files, and prints the answer.
ghost use Rattle.std.specs.Prelude.{◌≡◌, ◌≢◌, ◌↔◌, Err, IfErr, IfOk, IsTrue, Ok, false, is_err};
ghost use Rattle.std.specs.Io.KnownBytes.{Appends};
ghost use Rattle.lrup_text.specs.Writing.{WritesText};
ghost use Rattle.model_check.specs.Answers.{AreAnswered, AreSatisfied, bytes_of};
ghost use Rattle.lrup_model_check.specs.Answering.{IsAnswerFault, answer_text, literal_text};

use lrup_model::Lit;
use lrup_text::{Sink, WriteBuffer, WriteFault, write_all};
use model_check::{Answer, CheckFault, check_model};
use std::alloc::Global;
use thiserror::Error;

/// Why there is no answer, or only part of one was printed.
#[derive(Clone, Copy, Debug, PartialEq, Eq, Error)]
pub enum Fault {
    /// The files have no answer.
    #[error("{0}")]
    Check(CheckFault),
    /// The answer couldn't be written to its end.
    #[error("cannot write answer")]
    Unwritten,
}

/// Checks a model by `check_model`, and prints the answer.
pub fn answer<O: Sink>(
    alloc: Global,
    formula: &[u8],
    assumed: Option<&[u8]>,
    model: &[u8],
    out: &mut O,
) -> Result<Answer, Fault>
    requires { O.has_failed out.old ≡ false }
    ensures satisfied { result ≡ Ok Answer.Satisfies
        → AreSatisfied formula.now (bytes_of assumed.entry) model.now }
    ensures answer { IfOk result (AreAnswered formula.now (bytes_of assumed.entry) model.now) }
    // Unless memory was refused or a write failed, the answer is `Satisfies` if the files say so.
    ensures exact { result ≢ Err (Fault.Check CheckFault.Memory) → result ≢ Err Fault.Unwritten
        → AreAnswered formula.now (bytes_of assumed.entry) model.now Answer.Satisfies
        → result ≡ Ok Answer.Satisfies }
    // The text of the answer was printed.
    ensures printed { IfOk result (λ answer.
        Appends (O.written out.old) (O.written out.new) (answer_text answer)) }
    // Why there is no answer, or only part of one was printed.
    ensures fault { IfErr result (IsAnswerFault formula.now (bytes_of assumed.entry) model.now
        (O.written out.old) (O.written out.new)) }
    // The result is `Unwritten` exactly if the sink has failed.
    ensures failed { IsTrue (O.has_failed out.new) ↔ (result ≡ Err Fault.Unwritten) }
{
    match check_model(alloc, formula, assumed, model) {
        Ok(answer) => match write_answer(&answer, out) {
            Ok(()) => Ok(answer),
            Err(WriteFault) => Err(Fault::Unwritten),
        },
        Err(fault) => Err(Fault::Check(fault)),
    }
}

/// Writes the line of the answer.
fn write_answer<O: Sink>(answer: &Answer, out: &mut O) -> Result<(), WriteFault>
    requires { O.has_failed out.old ≡ false }
    ensures text { WritesText result (O.written out.old) (O.written out.new)
        (answer_text answer.now) }
    ensures failed { O.has_failed out.new ≡ is_err result }
{
    match answer {
        Answer::Satisfies => write_all(b"s SATISFIABLE\n", out),
        Answer::Contradiction(l) => {
            write_comment(
                b"c the complement of literal ",
                *l,
                b"stands before it\n",
                out,
            )
        }
        Answer::UntrueClause(number) => write_untrue(*number, out),
        Answer::UntrueAssumption(l) => {
            write_comment(b"c assumed literal ", *l, b"isn't true\n", out)
        }
    }
}

/// Writes a comment with a literal in it.
fn write_comment<O: Sink>(front: &[u8], l: Lit, rest: &[u8], out: &mut O) -> Result<(), WriteFault>
    requires { O.has_failed out.old ≡ false }
    ensures text { WritesText result (O.written out.old) (O.written out.new)
        (literal_text front.now l rest.now) }
    ensures failed { O.has_failed out.new ≡ is_err result }
{
    let mut buffer = WriteBuffer::new();
    buffer.put(front, out)?;
    buffer.put_literal(l.value(), out)?;
    buffer.put(rest, out)?;
    buffer.flush(out)
}

/// Writes the comment that names a clause without a true literal.
fn write_untrue<O: Sink>(number: u64, out: &mut O) -> Result<(), WriteFault>
    requires { O.has_failed out.old ≡ false }
    ensures text { WritesText result (O.written out.old) (O.written out.new)
        (answer_text (Answer.UntrueClause number)) }
    ensures failed { O.has_failed out.new ≡ is_err result }
{
    let mut buffer = WriteBuffer::new();
    buffer.put(b"c clause ", out)?;
    buffer.put_number(number, out)?;
    buffer.put(b" has no true literal\n", out)?;
    buffer.flush(out)
}
