//! A pass: a stream's handle to a store.
ghost use Rattle.std.specs.Prelude.{◌≡◌, ◌+◌, ℕ, IfOk, Some, map, slice_get};
ghost use Rattle.lrup_model.specs.Pass.{IsFair};
ghost use Rattle.idwords.specs.Seats.{SeatValue};
ghost use Rattle.clause_store.specs.internal.AtRest.{IsAtRest, pass_value};

use idwords::Seat;
use std::alloc::{AllocError, Global};
use std::marker::Model;

/// A stream's handle to the store that opened it. It works only with that store, and can't be
/// copied, so each stream has one caller.
#[derive(Drop)]
pub struct Pass {
    pub(crate) seat: Seat,
    pub(crate) stream: u64,
}

impl Model for Pass {
    ghost use Rattle.clause_store.specs.Passes.{PassValue};
    ghost use Rattle.clause_store.specs.internal.AtRest.{pass_value, IsAtRest};

    ghost Value = { PassValue };

    ghost view = { λ p. pass_value p.seat };

    ghost invariant = { λ p. IsAtRest p.seat p.stream };
}

impl Pass {
    /// The number of the pass's stream, counted from 1.
    #[inline]
    pub fn stream(&self) -> u64
        ensures stream { result ≡ self.now.view.caller.stream }
        ensures fair { IsFair self.now.view }
    {
        self.stream
    }
}

/// Makes a pass from each seat. The seats are in the order of the streams.
pub(crate) fn passes_of(alloc: Global, seats: Vec<Seat>) -> Result<Vec<Pass>, AllocError>
    requires { (k : ℕ) (seat : SeatValue) → slice_get seats.items k ≡ Some seat
        → IsAtRest seat (k + 1) }
    ensures { IfOk result (λ passes. passes.items ≡ map pass_value seats.items) }
{
    let mut passes = Vec::with_capacity(alloc, seats.len())?;
    for seat in seats {
        let stream = passes.len() as u64 + 1;
        passes.push_reserved(Pass { seat, stream });
    }
    Ok(passes)
}
