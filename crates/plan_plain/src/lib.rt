//! Plans by looking at all journeys: slow on large feeds, and the witness of what a plan is.
#![tactic(auto)]

mod path;
mod search;

pub use search::plain_entries;
