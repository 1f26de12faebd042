//! The hook that a checker calls between its steps.
use crate::report::Report;
use lrup_model::Id;

/// A hook of a run between the steps of a checker. It may wait, count, or let another thread go
/// first, and has no influence on what the checker does. Each call gets the number of the checker's
/// stream.
pub trait Gate {
    /// Called before each fetch. `attempt` counts the fetches of one hint from 1; if it is above 1,
    /// the hint was vacant before.
    fn before_fetch(&mut self, stream: u64, id: Id, attempt: u64);

    /// Called after each publish that answered `Done`.
    fn after_publish(&mut self, stream: u64, id: Id);

    /// Called when the checker is finished: by `Checker::feed` after the first bad line, or if
    /// memory ran out in a line; by `Checker::finish` at the end of the stream, or after a failed
    /// read. No fetch and no publish comes after it, and the report is final. It is called once: no
    /// contract says so, but the code ensures it, and tests of `feed` and of `finish` show it.
    fn when_finished(&mut self, _stream: u64, _report: &Report) {}
}
