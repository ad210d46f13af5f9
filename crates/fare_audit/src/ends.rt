//! The calls of a run, as fare rules see them.
ghost use Rattle.std.specs.Prelude.{◌≡◌, true};

use transit_base::{Moment, StopId};

/// A call, with a stop and moments that are alike to fare rules.
#[derive(Clone, Copy)]
pub struct End {
    pub stop: StopId,
    /// A stop with the same areas.
    pub like: StopId,
    /// A moment at which the same timeframe groups hold as at the arrival.
    pub arrival: Moment,
    /// The same of the departure.
    pub departure: Moment,
    /// Whether riders may board here.
    pub pickup: bool,
    /// Whether riders may alight here.
    pub drop_off: bool,
}

/// Whether each part of the ends is the same.
fn is_same_end(a: &End, b: &End) -> bool
    ensures { result ≡ true → a.now ≡ b.now }
{
    a.stop.0 == b.stop.0
        && a.like.0 == b.like.0
        && a.arrival.0 == b.arrival.0
        && a.departure.0 == b.departure.0
        && a.pickup == b.pickup
        && a.drop_off == b.drop_off
}

/// Whether both lists have the same ends, in the same order.
pub fn are_same_ends(a: &[End], b: &[End]) -> bool
    ensures { result ≡ true → a.now ≡ b.now }
{
    if a.len() != b.len() {
        return false;
    }
    for place in 0..a.len() {
        if !is_same_end(&a[place], &b[place]) {
            return false;
        }
    }
    true
}
