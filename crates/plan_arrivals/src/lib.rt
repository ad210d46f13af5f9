//! The earliest arrivals of a query with the fewest rides, whatever they cost: a search by rounds that asks for no fares.
#![tactic(auto)]

mod earliest;
mod no_fares;

pub use earliest::{arrivals, labels_by};
pub use no_fares::{NoFare, NoFares, NoLegs, NoMove};
