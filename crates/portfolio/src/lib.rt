//! A run over all streams of one formula, with threads or on one thread; its verdict, its report
//! for users, and what it saves.
#![tactic(auto)]

mod serial;
mod threads;

pub use run_outcome::{
    Checked, Clauses, Options, Outcome, Pause, RunFault, SerialOutcome, Verdict, Watch,
    write_report,
};
pub use serial::run_serial;
pub use threads::run;
