//! What the words of `price` ask for over a feed.
ghost use Rattle.std.specs.Prelude.{◌≡◌, ◌<◌, ◌≤◌, ◌++◌, ◌∷◌, [], Ok, IfOk, IfErr, IfSome, OnOk, length};
ghost use Rattle.feed_rows.specs.Limits.{most_rides};
ghost use Rattle.feed_rows.specs.Journeys.{is_caught};
ghost use Rattle.commands.specs.PriceQueries.{named_rides, first_missed, price_query_of};
ghost use Rattle.feed_rows.specs.StopLinks.{link};
ghost use Rattle.plan_words.specs.Request.{price_request};
ghost use Rattle.plan_words.specs.Rides.{rides_of as words_of, AreUsualRides};
ghost use Rattle.command_answers.specs.NamedRides.{rides_of, AreKnown, named_query, IsErrorOf};

use crate::ride_prices::rides::{NamedRide, named_ride};
use crate::riders::chosen_buyer;
use commands::UsageFault;
use feed_rows::Buyer;
use feed_timetable::Timetable;
use plan_words::{PriceWords, RideWords, WordsError};
use std::alloc::{AllocError, Global};

/// Rides that follow one another, and the buyer for whom they are priced.
#[derive(Drop)]
pub struct PriceQuery {
    pub rides: Vec<NamedRide>,
    pub buyer: Buyer,
}

// Adds a ride.
fn add(rides: &mut Vec<NamedRide>, named: NamedRide) -> Result<(), AllocError>
    ensures { OnOk result (rides.new.items ≡ rides.old.items ++ named ∷ []) }
{
    rides.push(named)?;
    Ok(())
}

// The rides that the words name, or the number, from 1, of the first that names none.
fn named_rides(
    alloc: Global,
    timetable: &Timetable,
    words: &RideWords,
) -> Result<Vec<NamedRide>, WordsError>
    requires { AreUsualRides words.now }
    ensures named { IfOk result (λ rides. named_rides timetable.now (words_of words.now) ≡ Ok (rides_of rides.items)) }
    ensures known { IfOk result (λ rides. AreKnown timetable.now rides.items) }
    ensures few { IfOk result (λ rides. length rides.items ≤ most_rides) }
    ensures err { IfErr result (IsErrorOf (named_rides timetable.now (words_of words.now))) }
{
    let mut rides = Vec::new(alloc);
    for k in 0..words.count() {
        let Some(named) = named_ride(timetable, &words.ride(k)) else {
            return Err(WordsError::Usage(UsageFault::NoSuchRide(k as u32 + 1)));
        };
        add(&mut rides, named)?;
    }
    Ok(rides)
}

// Whether the second ride is caught from the first.
fn is_caught(timetable: &Timetable, before: &NamedRide, after: &NamedRide) -> bool
    ensures { result ≡ is_caught before.now.facts.arrival.0 (link timetable.now before.now.facts.to after.now.facts.from) after.now.facts }
{
    match timetable.link(before.facts.to, after.facts.from) {
        Some(walk) => {
            let there = i128::from(before.facts.arrival.0) + i128::from(walk.0);
            there <= i128::from(after.facts.departure.0)
        }
        None => false,
    }
}

// The first ride, counted from 0, from which the next isn't caught.
fn first_missed(timetable: &Timetable, rides: &[NamedRide]) -> Option<usize>
    requires { AreKnown timetable.now rides.now }
    ensures value { result ≡ first_missed timetable.now (rides_of rides.now) }
    ensures within { IfSome result (λ i. i < length rides.now) }
{
    for i in 1..rides.len() {
        if !is_caught(timetable, &rides[i - 1], &rides[i]) {
            return Some(i - 1);
        }
    }
    None
}

/// The rides and the buyer that the words name, or the first fault of these names: rides that the feed lacks come before
/// changes that can't be made, and these before the rider.
///
/// # Errors
/// That fault; want of memory.
pub fn price_query_of(
    alloc: Global,
    timetable: &Timetable,
    words: &PriceWords,
) -> Result<PriceQuery, WordsError>
    requires { AreUsualRides words.now.rides }
    ensures value { IfOk result (λ query. price_query_of timetable.now (price_request words.now) ≡ Ok (named_query query)) }
    ensures known { IfOk result (λ query. AreKnown timetable.now query.rides.items) }
    ensures few { IfOk result (λ query. length query.rides.items ≤ most_rides) }
    ensures err { IfErr result (IsErrorOf (price_query_of timetable.now (price_request words.now))) }
{
    let rides = named_rides(alloc, timetable, &words.rides)?;
    if let Some(i) = first_missed(timetable, rides.as_slice()) {
        return Err(WordsError::Usage(UsageFault::NoChange(i as u32 + 1)));
    }
    match chosen_buyer(timetable.feed(), words.rider) {
        Ok(buyer) => Ok(PriceQuery { rides, buyer }),
        Err(fault) => Err(WordsError::Usage(fault)),
    }
}
