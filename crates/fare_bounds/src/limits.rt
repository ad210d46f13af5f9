//! How long after the clocks of a fare state a transfer rule can hold that has a limit.
ghost use Rattle.std.specs.Prelude.{◌≡◌, ◌<◌, IfOk, vec_len};
ghost use Rattle.fare_bounds.specs.Limits.{limit_at, seconds_of, longest_limit, latest_of, late_by, IsRaised, AreLimits};

use crate::amounts::{place_of, row_place};
use feed_rows::{FareState, Feed, Limit};
use std::alloc::{AllocError, Global};
use transit_base::{LegGroupId, Moment};

/// The greatest limit in seconds of the transfer rules of the feed, by the place of the groups before their changes.
///
/// # Errors
/// Want of memory.
pub fn greatest_limits(alloc: Global, feed: &Feed) -> Result<Vec<u32>, AllocError>
    ensures { IfOk result (λ limits. AreLimits feed.now limits.items) }
{
    let mut limits = vec![in alloc; 0; feed.group_names.items().len() + 2]?;
    for row in feed.transfer_rules.items() {
        raise(&mut limits, row_place(row.from), seconds_of(row.limit));
    }
    Ok(limits)
}

/// The moment past which no limit holds that reads a clock of the state; none without clocks.
#[inline]
pub fn late_by(limits: &[u32], state: &FareState) -> Option<i128>
    ensures { result ≡ late_by limits.now state.now }
{
    match latest_of(state.departure, state.arrival) {
        Some(latest) => Some(i128::from(latest.0) + i128::from(longest_limit(limits, state.group))),
        None => None,
    }
}

/// The later of the clocks that are there.
#[inline]
fn latest_of(departure: Option<Moment>, arrival: Option<Moment>) -> Option<Moment>
    ensures { result ≡ latest_of departure arrival }
{
    match (departure, arrival) {
        (Some(own), Some(other)) => Some(Moment(own.0.max(other.0))),
        (Some(own), None) => Some(own),
        (None, other) => other,
    }
}

/// The greater of the limit of the group and that of all groups.
#[inline]
pub fn longest_limit(limits: &[u32], group: Option<LegGroupId>) -> u32
    ensures { result ≡ longest_limit limits.now group }
{
    limit_at(limits, place_of(group)).max(limit_at(limits, 1))
}

/// The limit at the place; 0 past the end.
#[inline]
fn limit_at(limits: &[u32], place: usize) -> u32
    ensures { result ≡ limit_at limits.now place }
{
    match limits.get(place) {
        Some(limit) => *limit,
        None => 0,
    }
}

/// The seconds of the limit; 0 where there is none.
fn seconds_of(limit: Option<Limit>) -> u32
    ensures { result ≡ seconds_of limit }
{
    match limit {
        Some(own) => own.seconds,
        None => 0,
    }
}

/// Puts the limit at the place, unless a greater one stands there.
pub fn raise(limits: &mut Vec<u32>, place: usize, seconds: u32)
    requires { place < vec_len limits.old }
    ensures raised { IsRaised place seconds limits.old.items limits.new.items }
    ensures len { vec_len limits.new ≡ vec_len limits.old }
{
    limits[place] = limit_at(limits, place).max(seconds);
}
