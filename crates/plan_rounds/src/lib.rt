//! Plans by rounds: the search by rounds with the fares of a query, whose labels are the table of an answer.
#![tactic(auto)]

mod plan;

pub use plan::{round_entries, rounds};
