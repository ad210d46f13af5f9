//! Whether a journey is one of the query, and when it arrives.
ghost use Rattle.std.specs.Prelude.{◌≡◌, ◌≤◌, length, option_map, IfOk, IfSome, Vec};
ghost use Rattle.transit_base.specs.declared.moments.Moment.{Moment};
ghost use Rattle.feed_rows.specs.Rides.{ride_facts};
ghost use Rattle.feed_rows.specs.JourneyStands.{next_stand, stand_after};
ghost use Rattle.feed_rows.specs.Legs.{legs_of};
ghost use Rattle.feed_rows.specs.declared.journeys.LegFacts.{LegFacts};
ghost use Rattle.feed_timetable.specs.Standings.{stand_of, IsNear};
ghost use Rattle.fare_timeframes.specs.BuiltTimeframes.{AreTimeframesOf};
ghost use Rattle.ticket_read.specs.Judgement.{IsNearMoment, IsNearQuery, fits_query, journey_arrival};

use fare_timeframes::Timeframes;
use feed_rows::{Journey, LegFacts, Query, Ride, RideFacts};
use feed_timetable::{Standing, Timetable};
use std::alloc::{AllocError, Global};
use transit_base::Moment;

/// Where and when a ride goes. None exactly where it is no ride of the feed.
#[tactic(auto, using(crate::proofs::RideBounds::near_arrival))]
pub fn facts_of(timetable: &Timetable, ride: &Ride) -> Option<RideFacts>
    ensures value { result ≡ ride_facts timetable.now ride.now }
    ensures near { IfSome result (λ facts. IsNearMoment facts.arrival.0) }
{
    let _feed = timetable.feed();
    ticket_explain::facts_of(timetable, ride)
}

// Where one stands after the ride; none where it is no ride of the feed, or is not caught.
#[tactic(auto, unfolding(feed_rows::specs::JourneyStands::next_stand))]
fn next_standing(
    timetable: &Timetable,
    query: &Query,
    standing: Standing,
    ride: &Ride,
) -> Option<Standing>
    requires near { IsNear standing }
    ensures value { option_map stand_of result ≡ next_stand timetable.now query.now (stand_of standing) ride.now }
    ensures near { IfSome result IsNear }
{
    let facts = facts_of(timetable, ride)?;
    if !timetable.is_caught(query, standing, &facts) {
        return None;
    }
    Some(Standing {
        stop: facts.to,
        at: facts.arrival,
        fresh: false,
    })
}

// Where one stands after all rides; none where one of them is no ride of the feed, or is not caught.
fn last_standing(timetable: &Timetable, query: &Query, journey: &Journey) -> Option<Standing>
    requires near { IsNearQuery query.now }
    ensures value { option_map stand_of result ≡ stand_after timetable.now query.now journey.now.first journey.now.rides (length journey.now.rides) }
    ensures near { IfSome result IsNear }
{
    let rides = journey.rides.items();
    let mut standing = Standing {
        stop: journey.first,
        at: query.departure,
        fresh: true,
    };
    for k in 0..rides.len() {
        match next_standing(timetable, query, standing, &rides[k]) {
            Some(next) => standing = next,
            None => return None,
        }
    }
    Some(standing)
}

// Whether the journey starts and ends where the query says, with no more rides than it says.
fn fits_query(timetable: &Timetable, query: &Query, journey: &Journey) -> bool
    ensures { result ≡ fits_query timetable.now query.now journey.now }
{
    timetable.stands_for(query.from, journey.first)
        && timetable.stands_for(query.to, journey.last)
        && journey.rides.items().len() <= usize::from(query.rides)
}

/// The arrival of a journey of the query; none where it is none.
pub fn arrival_of(timetable: &Timetable, query: &Query, journey: &Journey) -> Option<Moment>
    requires near { IsNearQuery query.now }
    ensures value { option_map (λ (m : Moment). m.0) result ≡ journey_arrival timetable.now query.now journey.now }
    ensures few { IfSome result (λ m. length journey.now.rides ≤ query.now.rides) }
{
    if !fits_query(timetable, query, journey) {
        return None;
    }
    let standing = last_standing(timetable, query, journey)?;
    let arrival = timetable.end_arrival(query, standing, journey.last)?;
    if arrival.0 > query.departure.0 + i64::from(query.window) {
        return None;
    }
    Some(arrival)
}

/// What fare rules look at in each ride; none where one is no ride of the feed.
///
/// # Errors
/// Want of memory.
pub fn legs_of(
    alloc: Global,
    timetable: &Timetable,
    timeframes: &Timeframes,
    rides: &[Ride],
) -> Result<Option<Vec<LegFacts>>, AllocError>
    requires { AreTimeframesOf timetable.now timeframes.now }
    ensures { IfOk result (λ legs. option_map (λ (ls : Vec LegFacts Global). ls.items) legs ≡ legs_of timetable.now rides.now) }
{
    let mut legs = Vec::with_capacity(alloc, rides.len())?;
    for k in 0..rides.len() {
        let Some(facts) = facts_of(timetable, &rides[k]) else {
            return Ok(None);
        };
        let leg = timeframes.leg_facts(alloc, &facts)?;
        legs.push(leg)?;
    }
    Ok(Some(legs))
}
