//! What a run is asked for and what it gives: options, verdict, report text, saved clauses, and the
//! gates that report its progress.
#![tactic(auto)]

mod options;
mod outcome;
mod pause;
mod report_text;
mod saving;
mod watch;

pub use options::Options;
pub use outcome::{Checked, Outcome, RunFault, SerialOutcome, Verdict};
pub use pause::Pause;
pub use report_text::write_report;
pub use saving::Clauses;
pub use watch::Watch;
