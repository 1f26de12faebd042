//! A seat: a stream's right to take steps on the row.
ghost use Rattle.std.specs.Prelude.{◌≡◌};
ghost use Rattle.lrup_model.specs.Pass.{pass_caller_view};

use crate::rule::StepToken;
use std::marker::Model;

/// A stream's right to take steps on the row, and to write into its own room there. It can't be
/// copied, so the steps of a stream have one caller. `top` is the index of the first word after the
/// stream's last clause, `drafted` counts the literals that were stored from there on and aren't
/// published yet, and `room` is how many literals the stream may still publish. Only a successful
/// publish makes `room` smaller.
#[derive(Drop)]
pub struct Seat {
    pub(crate) token: StepToken,
    pub(crate) top: u64,
    pub(crate) drafted: u64,
    pub(crate) room: u64,
}

impl Model for Seat {
    ghost use Rattle.idwords.specs.Seats.{SeatValue, seat_value};
    ghost use Rattle.idwords.specs.internal.Seating.{first_thread, IsSeated};

    ghost Value = { SeatValue };

    ghost view = { λ s. seat_value s.token.table_id (first_thread s.token.me.0) };

    ghost invariant = { λ s. IsSeated s.token.table_id s.token.me s.top s.drafted s.room };
}

impl Seat {
    /// The room that the stream has left, in literals.
    #[inline]
    pub fn room(&self) -> u64
        ensures { result ≡ (pass_caller_view self.now.view).room }
    {
        self.room
    }
}
