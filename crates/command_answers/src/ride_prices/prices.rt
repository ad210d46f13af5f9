//! The least price of rides that follow one another.
ghost use Rattle.std.specs.Prelude.{◌≡◌, ◌≤◌, Some, IfOk, length};
ghost use Rattle.feed_rows.specs.Limits.{most_rides};
ghost use Rattle.fare_timeframes.specs.BuiltTimeframes.{AreTimeframesOf};
ghost use Rattle.feed_rows.specs.FeedRows.{FeedRows};
ghost use Rattle.feed_rows.specs.Legs.{legs_of};
ghost use Rattle.command_answers.specs.NamedRides.{rides_of, AreKnown};
ghost use Rattle.command_answers.specs.RidePrices.{IsLeastOfRides};

use crate::ride_prices::query::PriceQuery;
use crate::ride_prices::rides::NamedRide;
use fare_price::{Fares, Priced, price};
use fare_timeframes::Timeframes;
use feed_rows::LegFacts;
use feed_timetable::Timetable;
use std::alloc::{AllocError, Global};

// The legs of rides, by the timeframes of the feed.
fn legs_by(
    alloc: Global,
    timeframes: &Timeframes,
    rides: &[NamedRide],
) -> Result<Vec<LegFacts>, AllocError>
    ensures { IfOk result (λ legs. (feed : FeedRows) → AreTimeframesOf feed timeframes.now → AreKnown feed rides.now → legs_of feed (rides_of rides.now) ≡ Some legs.items) }
{
    let mut legs = Vec::with_capacity(alloc, rides.len())?;
    for k in 0..rides.len() {
        let leg = timeframes.leg_facts(alloc, &rides[k].facts)?;
        legs.push(leg)?;
    }
    Ok(legs)
}

// The legs of rides.
fn legs_of(
    alloc: Global,
    timetable: &Timetable,
    rides: &[NamedRide],
) -> Result<Vec<LegFacts>, AllocError>
    requires { AreKnown timetable.now rides.now }
    ensures { IfOk result (λ legs. legs_of timetable.now (rides_of rides.now) ≡ Some legs.items) }
{
    match Timeframes::build(alloc, timetable.feed(), timetable.calendar()) {
        Ok(timeframes) => legs_by(alloc, &timeframes, rides),
        Err(AllocError) => Err(AllocError),
    }
}

/// A choice of rules and products of least price for the rides; none exactly where no choice pays them.
///
/// # Errors
/// Want of memory.
pub fn price_of(
    alloc: Global,
    timetable: &Timetable,
    query: &PriceQuery,
) -> Result<Option<Priced>, AllocError>
    requires known { AreKnown timetable.now query.now.rides.items }
    requires few { length query.now.rides.items ≤ most_rides }
    ensures { IfOk result (IsLeastOfRides timetable.now (rides_of query.now.rides.items) query.now.buyer) }
{
    let legs = legs_of(alloc, timetable, query.rides.as_slice())?;
    match Fares::build(alloc, timetable.feed()) {
        Ok(fares) => price(alloc, &fares, legs.as_slice(), query.buyer),
        Err(AllocError) => Err(AllocError),
    }
}
