//! The least price of legs, and the sum of a choice that is given.
//!
//! Both go leg by leg, by the moves from fare state to fare state. Of two ways to pay the legs so far that lead to
//! one state the search keeps the one that has paid no more and costs no more. What it is enough to pay for a leg is
//! asked once for all legs that differ in their moments at most.
#![tactic(auto)]

mod checks;
mod fares;
mod known;
mod legs;
mod search;
mod ways;

pub use checks::verify;
pub use fares::Fares;
use feed_rows::Choice;
pub use legs::KnownLegs;
pub use search::price;
use transit_base::Money;

/// A choice that pays legs, and its sum.
#[derive(Drop)]
pub struct Priced {
    /// The sum in minor units of the feed's currency.
    pub sum: Money,
    pub choice: Choice,
}
