//! The definitions that the contracts of all crates use: literals, clauses, formulas, cubes and
//! entailment; identities and their owners; clause maps, their events and histories; hinted
//! propagation. The code is small: the types, the trait `ClauseMap`, and a clause map for one
//! thread.
#![tactic(auto)]

mod clause_map;
mod cube;
mod formula;
pub mod laws;
mod layout;
mod lit;
mod plain_map;

pub use clause_map::{ClauseMap, Clip, Fetched, Published, Retired};
pub use cube::Cube;
pub use formula::Formula;
pub use layout::{Layout, LayoutFault, Owner};
pub use lit::Lit;
pub use plain_map::{PlainDesk, PlainMap};

/// The identity of a clause: the formula's `m` clauses have the identities 1 to `m`, in the order
/// of the file, and the streams own the identities above `m` in turn. 0 and all numbers above the
/// last identity are not identities.
pub type Id = u64;
