//! The rows of a feed from the tables of its files: a typed row for each row of a file, with row numbers in place of ids, and
//! names numbered by their first appearance.
#![tactic(auto)]

mod feed;
mod names;
mod rows;

pub use feed::feed_of_tables;
