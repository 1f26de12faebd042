//! The model that the helper sends: signs, one for each variable.
ghost use Rattle.std.specs.Prelude.{◌≤◌, IfOk, IfSome, vec_len};
ghost use Rattle.std.specs.List.{AllByRecursion};
ghost use Rattle.lrup_model.specs.Cube.{IsCubeOver};
ghost use Rattle.lrup_model.specs.Literal.{IsLiteral};
ghost use Rattle.model_check.specs.Answers.{AreSatisfiedBy};

use lrup_model::{Cube, Formula, Lit};
use model_check::{Answer, evaluate};
use std::alloc::{AllocError, Global};

/// The signs so far, and whether these are all.
#[derive(Drop)]
pub(crate) struct Signs {
    /// Whether the literal is positive, variable by variable.
    signs: Vec<bool>,
    /// The largest number of signs.
    most: usize,
    is_whole: bool,
    ghost few: { vec_len signs ≤ most },
}

impl Signs {
    /// No signs, of at most so many.
    pub(crate) fn none(alloc: Global, most: u32) -> Signs {
        Signs {
            signs: Vec::new(alloc),
            most: most as usize,
            is_whole: false,
        }
    }

    /// Takes the signs of further variables, unless there are as many as variables, or memory runs
    /// out.
    pub(crate) fn take(&mut self, signs: &[u8]) {
        for sign in signs {
            self.push(*sign == b'+');
        }
    }

    /// Takes a sign.
    fn push(&mut self, positive: bool) {
        if self.signs.len() < self.most {
            let _ = self.signs.push(positive);
        }
    }

    /// These are all signs.
    pub(crate) fn end(&mut self) {
        self.is_whole = true;
    }
}

/// The literals with these signs, if they are whole and a model.
pub(crate) fn model_of(
    alloc: Global,
    formula: &Formula,
    cube: &Cube,
    signs: &Signs,
) -> Option<Vec<Lit>>
    requires over { IsCubeOver formula.now.vars cube.now }
    ensures { IfSome result (λ literals. AreSatisfiedBy formula.now cube.now literals.items) }
{
    if !signs.is_whole {
        return None;
    }
    let Ok(literals) = literals_of(alloc, &signs.signs, formula.vars()) else {
        return None;
    };
    match evaluate(alloc, formula, cube, &literals) {
        Ok(Answer::Satisfies) => Some(literals),
        _ => None,
    }
}

/// The literals with these signs, of at most `vars` variables.
fn literals_of(alloc: Global, signs: &[bool], vars: u32) -> Result<Vec<Lit>, AllocError>
    ensures { IfOk result (λ literals. AllByRecursion (IsLiteral vars) literals.items) }
{
    let mut literals = Vec::new(alloc);
    let mut variable = 0u32;
    for positive in signs {
        variable = variable.saturating_add(1);
        let Some(literal) = literal_of(variable, *positive, vars) else {
            break;
        };
        literals.push(literal)?;
    }
    Ok(literals)
}

/// The literal of this variable, if it is one of 1 to `vars`.
fn literal_of(variable: u32, positive: bool, vars: u32) -> Option<Lit>
    ensures { IfSome result (λ literal. IsLiteral vars literal) }
{
    let number = i64::from(variable);
    let literal = Lit::new(if positive { number } else { -number })?;
    if literal.var() <= vars {
        Some(literal)
    } else {
        None
    }
}
