//! The trips of a feed: their calls, their shifts and the rides that they offer.
#![tactic(auto)]

mod calls;
mod ids;
mod order;
mod passes;
mod runs;
mod scan;
mod together;
mod trips;

pub use calls::Calls;
pub use trips::Trips;
