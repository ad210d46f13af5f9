//! A ride as a tariff is asked about it.
use plan_rides::CaughtRide;

/// A ride from a position, with its place among the rides from there, and what is known of these.
#[derive(Drop)]
pub struct Leg<'r, L> {
    pub caught: &'r CaughtRide,
    pub place: usize,
    pub legs: &'r L,
}
