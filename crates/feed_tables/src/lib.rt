//! The tables of a feed's files, with the first pass of faults: what is wrong with a file by itself; and stop times as they are read.
#![tactic(auto)]

mod calls;
mod id_rows;
mod ids;
mod index;
mod reading;
mod rows;
mod slots;
mod tables;

pub use calls::{ReadCall, ReadCalls};
pub use ids::{CallIds, Ids};
pub use index::{IdIndex, IdStart};
pub use reading::{MOST_ROWS, read_tables};
pub use rows::ReadTable;
pub use tables::{CallTable, Tables, stop_kind};
