//! Lists in one vector: items in numbered groups, one group after another, and the places where they end.
#![tactic(auto)]

mod groups;
mod parts;

pub use groups::{Grouped, Groups};
pub use parts::{end_of, part_of, push_end};
