//! Searches by rounds, whatever is kept of fares: each round goes on by one more ride from the labels of the round before, and
//! of all labels those stay that no other is as good as.
#![tactic(auto)]

mod bags;
mod bounds;
mod kept;
mod offers;
mod room;
mod scan;
mod search;
mod seen;
mod settled;

pub use room::Room;
pub use search::Search;
