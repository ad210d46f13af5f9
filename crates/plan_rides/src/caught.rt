//! Rides that are caught.
use feed_rows::{Ride, RideFacts};

/// A ride that is caught, and where and when it goes.
#[derive(Clone, Copy)]
pub struct CaughtRide {
    pub ride: Ride,
    pub facts: RideFacts,
}
