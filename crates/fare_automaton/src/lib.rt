//! Fare states: what a search must remember of the legs so far, and every move that the fare rules allow from there.
//!
//! An automaton is compiled once for a feed and a buyer: its transfer rows by the leg groups that they are for, what they read of
//! each leg group, and the open rows of each product. A move pays one leg and the change to it. What it adds to what was paid,
//! what is held then, and the next state follow from the state and what was held alone.
#![tactic(auto)]

mod automaton;
mod changes;
mod cheapest;
mod fewest;
mod floor;
mod judge;
mod known;
mod moves;
mod opened;
mod options;
mod pairs;
mod reads;
mod rows;
mod steps;

pub use automaton::Automaton;
pub use changes::LegTimes;
pub use judge::{leg_taken, place_taken};
pub use known::KnownOptions;
pub use steps::{bare, times_of};
