//! The files of a feed: their names and columns, what a folder holds of them, and the faults that are told of them.
#![tactic(auto)]

mod faults;
mod names;

pub use faults::{FaultKind, FeedFault};
pub use names::{ColumnName, FileName};
