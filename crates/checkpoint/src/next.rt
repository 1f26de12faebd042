//! Makes the formula with which the next round starts, from live clauses.
ghost use Rattle.std.specs.Prelude.{◌≡◌, ◌≤◌, [], IfErr, IfOk, is_some, length, true};
ghost use Rattle.std.specs.List.{AllByRecursion};
ghost use Rattle.std.specs.Option.{ForSome};
ghost use Rattle.lrup_model.specs.Formula.{IsFormulaClause, max_clauses};
ghost use Rattle.lrup_model.specs.Literal.{max_variable};
ghost use Rattle.lrup_model.specs.CallerView.{IsKnown, clip_clause};
ghost use Rattle.checkpoint.specs.Live.{clauses_of, entries_of};
ghost use Rattle.checkpoint.specs.Printing.{printed};

use lrup_model::{ClauseMap, Clip, Formula, Lit};
use std::alloc::{AllocError, Global};

/// The formula of the clips' clauses, over the variables 1 to `vars`, if the run continues. The
/// call causes no events.
pub(crate) fn next_formula<M: ClauseMap>(
    alloc: Global,
    map: &mut M,
    clips: &[Clip],
    vars: u32,
    goes_on: bool,
) -> Result<Option<Formula>, AllocError>
    requires known { AllByRecursion (IsKnown (M.caller_view map.old)) clips.now }
    requires clauses { AllByRecursion (IsFormulaClause vars)
        (clauses_of (entries_of (M.caller_view map.old) clips.now)) }
    requires count { length clips.now ≤ max_clauses }
    requires few { vars ≤ max_variable }
    ensures formula { IfOk result (λ next. ForSome next (λ formula.
        formula ≡ printed vars (entries_of (M.caller_view map.old) clips.now))) }
    ensures goes_on { IfOk result (λ next. is_some next ≡ goes_on) }
    ensures memory { IfErr result (λ _. goes_on ≡ true) }
    ensures event { M.moves map.old map.new [] }
    ensures stays { M.caller_view map.new ≡ M.caller_view map.old }
{
    if !goes_on {
        return Ok(None);
    }
    Ok(Some(formula_of(alloc, map, clips, vars)?))
}

/// Makes the formula of the clips' clauses, over the variables 1 to `vars`.
fn formula_of<M: ClauseMap>(
    alloc: Global,
    map: &mut M,
    clips: &[Clip],
    vars: u32,
) -> Result<Formula, AllocError>
    requires known { AllByRecursion (IsKnown (M.caller_view map.old)) clips.now }
    requires clauses { AllByRecursion (IsFormulaClause vars)
        (clauses_of (entries_of (M.caller_view map.old) clips.now)) }
    requires count { length clips.now ≤ max_clauses }
    requires few { vars ≤ max_variable }
    ensures formula { IfOk result (λ next.
        next ≡ printed vars (entries_of (M.caller_view map.old) clips.now)) }
    ensures event { M.moves map.old map.new [] }
    ensures stays { M.caller_view map.new ≡ M.caller_view map.old }
{
    let mut formula = Formula::new(alloc, vars);
    let mut clause = Vec::new(alloc);
    for clip in clips {
        spell(map, clip, &mut clause)?;
        formula.push(&clause)?;
    }
    Ok(formula)
}

/// Fills the list with the clip's literals, in the order in which the map keeps them.
fn spell<M: ClauseMap>(map: &mut M, clip: &Clip, clause: &mut Vec<Lit>) -> Result<(), AllocError>
    requires known { IsKnown (M.caller_view map.old) clip.now }
    ensures items { IfOk result
        (λ _. clause.new.items ≡ clip_clause (M.caller_view map.old) clip.now) }
    ensures event { M.moves map.old map.new [] }
    ensures stays { M.caller_view map.new ≡ M.caller_view map.old }
{
    clause.clear();
    for k in 0..clip.len() {
        let lit = map.literal(clip, k);
        clause.push(lit)?;
    }
    Ok(())
}
