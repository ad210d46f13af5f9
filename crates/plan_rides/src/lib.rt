//! The rides of a query: which can be caught from where a traveller stands, and end within the query's window.
#![tactic(auto)]

mod boards;
mod caught;
mod cutoffs;
mod departures;
mod held;
mod kept;
mod positions;
mod rides;
mod scope;
mod servings;
mod sought;
mod spans;

pub use caught::CaughtRide;
pub use cutoffs::{Cutoff, is_early};
pub use held::SpanRuns;
pub use kept::KeptRides;
pub use positions::{Positions, Reached, Traveller, departs_since, put_in_order};
pub use rides::Rides;
pub use scope::{Scope, deadline};
pub use spans::Spans;
