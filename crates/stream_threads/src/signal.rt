//! The start signal, for which all threads of a run wait before they do anything. It is set once:
//! to start (`true`) or to leave.
ghost use Rattle.std.specs.Prelude.{◌≡◌};

use std::sync::{OnceLock, OnceToken, Wait};

/// Waits for the start signal. The token that it returns has the signal's value, which never
/// changes. The call can't set the signal, since a value of an unknown type `T` can't be made. No
/// contract of `OnceLock` says what sets a lock.
pub fn wait_for_start<'a, W: Wait, T>(wait: &W, signal: &'a OnceLock<T>) -> OnceToken<'a, T>
    ensures { result.of ≡ signal.now.id }
{
    // Once `wait` returns, the lock has its value, and `witness` gives a token for it. No contract
    // of `wait` says so: hence the loop, which runs once. `forever` has no end, so the
    // `unreachable!` after the loop is never reached.
    for _ in wait.forever() {
        signal.wait(wait);
        if let Some(token) = signal.witness() {
            return token;
        }
    }
    unreachable!()
}
