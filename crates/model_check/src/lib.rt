//! Checks a solver's model: whether it satisfies a formula, and makes assumed literals true.
#![tactic(auto)]

ghost use Rattle.std.specs.Prelude.{◌≡◌, ◌≤◌, IfErr, IfOk, Ok};
ghost use Rattle.lrup_model.specs.Literal.{max_variable};
ghost use Rattle.model_check.specs.Answers.{AreAnswered, AreSatisfied, AreRefused, IsAssumed, IsAssumedFault, IsExact, bytes_of};

mod answer;
mod evaluation;
mod fault;
pub mod laws;
mod marks;
mod numbers;
mod pieces;
mod text;

pub use answer::Answer;
use dimacs::laws::{formula_or_fault, one_formula};
use dimacs::parse;
pub use evaluation::evaluate;
pub use fault::{CheckFault, ModelFault};
use lrup_model::Cube;
use lrup_text::laws::{a_cube_has_no_text_fault, a_cube_text_is_read, a_text_spells_one_line};
use lrup_text::{CubeFault, read_cube};
use std::alloc::Global;
use text::read_model;

/// Checks a model against a formula and assumed literals, given the bytes of their files. The
/// formula is read by `dimacs::parse`, the assumed literals by `lrup_text::read_cube`, and the
/// model by the definition `IsModelText`: lines of literals that begin with `v`, and a last 0.
/// Without a file of assumed literals none are assumed. The first file, in this order, that isn't a
/// text is refused with its first fault.
///
/// Beside the formula's memory the call takes 4 bytes for each literal of the model, in a list that
/// doubles when it is full, and two bytes for each variable.
pub fn check_model(
    alloc: Global,
    formula: &[u8],
    assumed: Option<&[u8]>,
    model: &[u8],
) -> Result<Answer, CheckFault>
    // What a user relies on.
    ensures satisfied { result ≡ Ok Answer.Satisfies
        → AreSatisfied formula.now (bytes_of assumed.entry) model.now }
    ensures exact { IsExact formula.now (bytes_of assumed.entry) model.now result }
    // Each answer, and each fault.
    ensures answer { IfOk result (AreAnswered formula.now (bytes_of assumed.entry) model.now) }
    ensures fault { IfErr result (AreRefused formula.now (bytes_of assumed.entry) model.now) }
{
    // Laws, with no effect at run time.
    one_formula();
    formula_or_fault();
    a_text_spells_one_line();
    a_cube_text_is_read();
    a_cube_has_no_text_fault();
    check_files(alloc, formula, assumed, model)
}

/// Reads the files, one after the other, and evaluates the model.
fn check_files(
    alloc: Global,
    formula: &[u8],
    assumed: Option<&[u8]>,
    model: &[u8],
) -> Result<Answer, CheckFault>
    ensures answer { IfOk result (AreAnswered formula.now (bytes_of assumed.entry) model.now) }
    ensures fault { IfErr result (AreRefused formula.now (bytes_of assumed.entry) model.now) }
{
    let formula = parse(alloc, formula)?;
    let cube = read_assumed(alloc, assumed, formula.vars())?;
    let literals = read_model(alloc, model, formula.vars())?;
    Ok(evaluate(alloc, &formula, &cube, &literals)?)
}

/// Reads the cube of a file of assumed literals, over the variables 1 to `vars`. Without a file the
/// cube is empty.
fn read_assumed(alloc: Global, assumed: Option<&[u8]>, vars: u32) -> Result<Cube, CubeFault>
    requires { vars ≤ max_variable }
    ensures cube { IfOk result (IsAssumed vars (bytes_of assumed.entry)) }
    ensures fault { IfErr result (IsAssumedFault vars (bytes_of assumed.entry)) }
{
    match assumed {
        Some(bytes) => read_cube(alloc, bytes, vars),
        None => Ok(Cube::empty(alloc)),
    }
}
