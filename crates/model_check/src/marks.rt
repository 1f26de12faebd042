//! A mark for each literal. A mark is one byte, and the marks of all literals take at most 34 MB.
ghost use Rattle.std.specs.Prelude.{◌↔◌, ◌<◌, ◌∷◌, ◌++◌, ℤ, [], IsTrue, IfOk, List, MatchOption, length};
ghost use Rattle.std.specs.List.{AllByRecursion};
ghost use Rattle.lrup_model.specs.Literal.{IsLiteral, code_of};
ghost use Rattle.model_check.specs.Answers.{AreConsistent, IsFirstContradiction};
ghost use Rattle.model_check.specs.internal.Marks.{AreMarked, HasMarks, HasMark};

use lrup_model::Lit;
use std::alloc::{AllocError, Global};

/// The marks of all literals over the variables 1 to `vars`. No literal is marked.
pub(crate) fn no_marks(alloc: Global, vars: u32) -> Result<Vec<bool>, AllocError>
    ensures none { IfOk result (λ marks. AreMarked marks.items []) }
    ensures all { IfOk result (λ marks. HasMarks vars marks.items) }
{
    let marks = vec![in alloc; false; 2 * vars as usize + 2]?;
    Ok(marks)
}

/// Whether the literal is marked.
pub(crate) fn is_marked(marks: &[bool], l: Lit) -> bool
    ensures { IsTrue result ↔ HasMark marks.now l }
{
    match marks.get(l.code() as usize) {
        Some(mark) => *mark,
        None => false,
    }
}

/// Marks one more literal.
fn set_mark(marks: &mut [bool], l: Lit)
    requires { code_of l < length marks.old }
    ensures { (literals : List ℤ) → AreMarked marks.old literals
        → AreMarked marks.new (literals ++ l ∷ []) }
{
    marks[l.code() as usize] = true;
}

/// Marks the literals, up to the first whose complement stands before it, which is returned if
/// there is one. Before the call no literal is marked.
pub(crate) fn mark_all(marks: &mut [bool], literals: &[Lit], vars: u32) -> Option<Lit>
    requires none { AreMarked marks.old [] }
    requires all { HasMarks vars marks.old }
    requires within { AllByRecursion (IsLiteral vars) literals.now }
    ensures { MatchOption result
        (AreMarked marks.new literals.now × AreConsistent literals.now)
        (IsFirstContradiction literals.now) }
{
    for l in literals {
        if is_marked(marks, l.complement()) {
            return Some(*l);
        }
        set_mark(marks, *l);
    }
    None
}
