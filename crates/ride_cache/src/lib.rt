//! What was found before, kept for a while: items at places that are computed from them, where what comes to a place takes it from
//! what stood there, and what was found of rides.
#![tactic(auto)]

mod cache;
mod rides;

pub use cache::{Cache, unfilled};
pub use rides::{RideCache, is_same_network, mixed, second_of};
