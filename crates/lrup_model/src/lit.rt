//! Literals as DIMACS CNF writes them.
ghost use Rattle.std.specs.Prelude.{◌≡◌, ◌↔◌, ℤ, neg_ℤ, nat_abs, Some, IsSome, IfSome};
ghost use Rattle.std.specs.Fmt.{signed_decimal};
ghost use Rattle.lrup_model.specs.Literal.{IsLiteral, max_variable, code_of, IsCode};

use std::fmt;
use std::marker::Model;

/// A literal: a nonzero integer whose magnitude, at most 16,777,215, is its variable, and whose
/// negative is its complement. It takes 4 bytes, which hold its code: twice the variable, plus one
/// for a negative literal.
#[derive(Clone, Copy, Debug, PartialEq, Eq)]
pub struct Lit {
    code: u32,
}

impl Model for Lit {
    ghost use Rattle.std.specs.Prelude.{ℤ};
    ghost use Rattle.std.proofs.Common.{ap};
    ghost use Rattle.lrup_model.specs.Literal.{max_variable, code_of, IsCode};
    ghost use Rattle.lrup_model.specs.internal.Codes.{literal_of};
    ghost use Rattle.lrup_model.specs.lemmas.CodeLemmas.{code_of-literal_of};

    ghost Value = { ℤ };

    ghost view = { λ l. literal_of l.code };

    ghost invariant = { λ l. IsCode max_variable l.code };

    ghost inverse = { λ z. record { code = code_of z } };

    ghost inverse_ok = { λ l h. ap (λ n. record { code = n }) (code_of-literal_of l.code h.0) };
}

impl Lit {
    /// The largest variable, and so the largest magnitude.
    pub const MAX_VARIABLE: u32 = 16_777_215;

    /// The literal that DIMACS CNF writes as this number. `None` exactly if the number is 0 or its
    /// magnitude is above 16,777,215.
    pub fn new(value: i64) -> Option<Lit>
        ensures literal { IsSome result ↔ IsLiteral max_variable value }
        ensures value { IfSome result (λ l. l ≡ value) }
    {
        let magnitude = value.unsigned_abs();
        if magnitude == 0 || magnitude > u64::from(Lit::MAX_VARIABLE) {
            return None;
        }
        let even = 2 * magnitude as u32;
        let code = if value < 0 { even + 1 } else { even };
        Some(Lit { code })
    }

    /// The literal with this code, which is at least 2 and at most 33,554,431.
    #[inline]
    pub fn from_code(code: u32) -> Lit
        requires { IsCode max_variable code }
        ensures { code_of result ≡ code }
    {
        Lit { code }
    }

    /// The literal's code: twice its variable, plus one for a negative literal.
    #[inline]
    pub fn code(self) -> u32
        ensures code { result ≡ code_of self }
        ensures range { IsCode max_variable result }
    {
        self.code
    }

    /// The number that DIMACS CNF writes for the literal.
    #[inline]
    pub fn value(self) -> i64
        ensures value { result ≡ self }
        ensures literal { IsLiteral max_variable self }
    {
        let magnitude = (self.code >> 1) as i64;
        if self.code & 1 == 0 {
            magnitude
        } else {
            -magnitude
        }
    }

    /// The literal of the same variable that is true if this one is false.
    #[inline]
    pub fn complement(self) -> Lit
        ensures { result ≡ neg_ℤ self }
    {
        Lit {
            code: self.code ^ 1,
        }
    }

    /// The variable, at least 1.
    #[inline]
    pub fn var(self) -> u32
        ensures variable { result ≡ nat_abs self }
        ensures literal { IsLiteral max_variable self }
    {
        self.code >> 1
    }
}

impl fmt::Display for Lit {
    ghost output = { λ l. Some (signed_decimal l) };

    fn fmt<W: fmt::Write>(&self, f: &mut fmt::Formatter<W>) -> fmt::Result {
        let value = self.value();
        write!(f, "{value}")
    }
}
