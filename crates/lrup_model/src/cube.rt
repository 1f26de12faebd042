//! Cubes: sets of assumed literals.
ghost use Rattle.std.specs.Prelude.{◌≡◌, ◌↔◌, ◌≤◌, ℕ, [], IsTrue, IfOk, map};
ghost use Rattle.std.specs.List.{All};
ghost use Rattle.lrup_model.specs.internal.Codes.{literal_of};
ghost use Rattle.lrup_model.specs.Literal.{IsCode, max_variable};
ghost use Rattle.lrup_model.specs.Clause.{Has};
ghost use Rattle.lrup_model.specs.Cube.{IsCubeOf, IsCubeOver, Within};

use crate::lit::Lit;
use std::alloc::{AllocError, Global};
use std::marker::Model;

/// A set of assumed literals. It may contain a literal and its complement.
///
/// It stores the codes of the literals that it was made from, sorted: 4 bytes each.
#[derive(Drop)]
pub struct Cube {
    codes: Vec<u32>,
}

impl Model for Cube {
    ghost use Rattle.std.specs.Prelude.{map};
    ghost use Rattle.lrup_model.specs.internal.Codes.{literal_of, AreCubeCodes};
    ghost use Rattle.lrup_model.specs.Cube.{CubeValue};

    ghost Value = { CubeValue };

    ghost view = { λ c. map literal_of c.codes.items };

    ghost invariant = { λ c. AreCubeCodes c.codes.items };
}

impl Cube {
    /// The set of these literals.
    pub fn of(alloc: Global, literals: &[Lit]) -> Result<Cube, AllocError>
        ensures { IfOk result (λ cube. IsCubeOf literals.now cube) }
    {
        let mut codes = codes_of(alloc, literals)?;
        codes.sort_unstable();
        Ok(Cube { codes })
    }

    /// The cube without literals. It allocates no memory.
    pub fn empty(alloc: Global) -> Cube
        ensures { result ≡ [] }
    {
        Cube {
            codes: Vec::new(alloc),
        }
    }

    /// Makes a copy of the cube, in memory of its own.
    pub fn try_clone(&self) -> Result<Cube, AllocError>
        ensures { IfOk result (λ cube. cube ≡ self.now) }
    {
        Ok(Cube {
            codes: self.codes.clone()?,
        })
    }

    /// Whether the literal is in the cube, by a binary search.
    pub fn has(&self, literal: Lit) -> bool
        ensures { IsTrue result ↔ Has self.now literal }
    {
        let code = literal.code();
        self.codes.as_slice().binary_search(&code).is_ok()
    }

    /// Whether the cube makes the clause false, i.e. contains the complement of each literal of the
    /// clause. The search ends at the first literal whose complement is missing. The empty cube
    /// needs only a single test.
    pub fn refutes(&self, clause: &[Lit]) -> bool
        ensures { IsTrue result ↔ Within clause.now self.now }
    {
        if self.codes.as_slice().is_empty() {
            return clause.is_empty();
        }
        clause.iter().all(|literal| self.has(literal.complement()))
    }

    /// The largest variable of the cube's literals, or 0 if there are none.
    pub fn vars(&self) -> u32
        ensures { (n : ℕ) → IsCubeOver n self.now ↔ (result ≤ n) }
    {
        match self.codes.as_slice().last() {
            Some(code) => *code >> 1,
            None => 0,
        }
    }
}

/// The codes of the literals, in the same order.
fn codes_of(alloc: Global, literals: &[Lit]) -> Result<Vec<u32>, AllocError>
    ensures literals { IfOk result (λ codes. map literal_of codes.items ≡ literals.now) }
    ensures codes { IfOk result (λ codes. All (IsCode max_variable) codes.items) }
{
    let mut codes = Vec::new(alloc);
    codes.reserve(literals.len())?;
    for literal in literals {
        codes.push(literal.code())?;
    }
    Ok(codes)
}
