//! The heart of `lrup-solve`: a program that nothing is known of, the *helper*, looks for a proof
//! or a model, and what is printed was checked here.
#![tactic(auto)]

mod answer;
mod checking;
mod files;
mod hearing;
mod helper;
mod lines;
mod model;
mod printing;
mod program;
mod request;

pub use answer::{Answer, Expected, Statuses};
pub use helper::{HelperInput, HelperOutput, Telling};
pub use program::{Choices, solve};
