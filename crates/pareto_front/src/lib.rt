//! The best of many, kept in order: of whatever is offered, the members that no other offer is at most.
#![tactic(auto)]

mod entries;
mod front;
mod triples;

pub use front::{Front, Ranked};
pub use triples::{are_same_triples, is_at_most, is_before};
