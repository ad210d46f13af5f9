//! The table of a search by rounds: its labels by round and stop, what is found, and the entries that are read off them.
#![tactic(auto)]

mod entries;
mod table;

pub use table::RoundTable;
