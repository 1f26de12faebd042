//! The checker of one proof stream, over any clause map: it cuts the stream's bytes into lines,
//! checks each line, and reports the result. It also defines what a run over several streams has
//! read and judged, for crates with contracts or laws about runs, and has the parameters by which
//! all streams of a run are checked.
#![tactic(auto)]

mod addition;
mod checker;
mod deletion;
mod dropped_ids;
mod fault;
mod gate;
mod hints;
mod import;
pub mod laws;
mod line;
mod line_stop;
mod lookup;
mod params;
mod progress;
mod report;
mod run_params;
mod stream_state;

pub use checker::Checker;
pub use dropped_ids::DroppedIds;
pub use fault::Fault;
pub use gate::Gate;
pub use progress::{CheckStatus, Progress};
pub use report::{Ending, Report};
pub use run_params::RunParams;
