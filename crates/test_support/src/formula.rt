//! The example formula.
ghost use Rattle.std.specs.Prelude.{◌≡◌, IfOk};
ghost use Rattle.lrup_model.specs.Literal.{IsLiteral, max_variable};
ghost use Rattle.test_support.specs.Worked.{four};

use lrup_model::{Formula, Lit};
use std::alloc::{AllocError, Global};

/// The literal with this number.
pub fn lit(value: i64) -> Lit
    requires { IsLiteral max_variable value }
    ensures { result ≡ value }
{
    Lit::new(value).unwrap()
}

/// 1 2 0 / -1 2 0 / 1 -2 0 / -1 -2 0: four clauses over two variables, which no assignment
/// satisfies.
pub fn four_clauses(alloc: Global) -> Result<Formula, AllocError>
    ensures { IfOk result (λ formula. formula ≡ four) }
{
    let mut formula = Formula::new(alloc, 2);
    formula.push(&[lit(1), lit(2)])?;
    formula.push(&[lit(-1), lit(2)])?;
    formula.push(&[lit(1), lit(-2)])?;
    formula.push(&[lit(-1), lit(-2)])?;
    Ok(formula)
}
