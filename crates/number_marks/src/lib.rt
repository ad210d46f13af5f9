//! Marks of the numbers that rows name.
#![tactic(auto)]

mod marks;

pub use marks::{NumberColumn, is_marked, marked};
