//! The trips of a feed.
ghost use Rattle.std.specs.Prelude.{◌≡◌, ◌<◌, ◌≤◌, ◌≤ℤ◌, ◌+ℤ◌, pos, negsuc, ℤ, length, All, IfOk};
ghost use Rattle.feed_rows.specs.Limits.{least_shift, most_shift};
ghost use Rattle.transit_base.specs.Limits.{most_time};
ghost use Rattle.feed_rows.specs.declared.journeys.Call.{Call};
ghost use Rattle.feed_rows.specs.Calls.{calls_of, first_departure};
ghost use Rattle.feed_rows.specs.Shifts.{has_frequencies, is_shift, shifts_of};
ghost use Rattle.feed_rows.specs.Rides.{runs_on, is_ride, ride_facts, facts_between, moment_of, trip_network};
ghost use Rattle.feed_rows.specs.RowsById.{find_trip};
ghost use Rattle.plain_laws.specs.Plain.{at_and};
ghost use Rattle.feed_trips.specs.Runs.{AreRunsOf, IsSoundRun};

use crate::calls::{Calls, TripCalls};
use crate::ids::trip_with;
use crate::order::{calls_by_trip, runs_by_trip};
use crate::runs::{has_run_at, shifts_of_runs};
use feed_rows::{Call, Feed, FrequencyRow, Ride, RideFacts, Shifts};
use item_groups::Groups;
use std::alloc::{AllocError, Global};
use std::marker::Model;
use transit_base::{Moment, NetworkId, TripId};

/// The trips of a feed, with their calls in order, the times filled in. Contracts see it as the rows of its feed.
pub struct Trips<'f> {
    feed: &'f Feed,
    /// The calls of each trip.
    calls: TripCalls<'f>,
    /// The frequency rows of each trip.
    frequencies: Groups<FrequencyRow>,
}

// Written out, so that what holds one needn't look into it to let go of it.
impl<'f> Drop for Trips<'f> {
    fn drop(self) {
        let Trips {
            feed: _,
            calls: _,
            frequencies: _,
        } = self;
    }
}

impl<'f> Model for Trips<'f> {
    ghost use Rattle.feed_rows.specs.FeedRows.{FeedRows};

    ghost Value = { FeedRows };

    ghost use Rattle.feed_trips.specs.Trips.{feed_inside, AreTablesOf};

    ghost view = { feed_inside };

    ghost invariant = { λ fields. AreTablesOf (feed_inside fields) fields };
}

impl<'f> Trips<'f> {
    /// The trips of the feed.
    ///
    /// # Errors
    /// Want of memory.
    pub fn build(alloc: Global, feed: &'f Feed) -> Result<Trips<'f>, AllocError>
        ensures { IfOk result (λ trips. trips ≡ feed.now) }
    {
        let _rows = &feed.trips;
        let frequencies = runs_by_trip(alloc, feed)?;
        match calls_by_trip(alloc, feed) {
            Ok(calls) => Ok(Trips {
                feed,
                calls,
                frequencies,
            }),
            Err(AllocError) => Err(AllocError),
        }
    }

    /// The trip with this id. None exactly where no trip has it.
    pub fn find(&self, id: &[u8]) -> Option<TripId>
        ensures { result ≡ find_trip self.now id.now }
    {
        trip_with(self.feed, id)
    }

    /// The calls of a trip, in order of their `stop_sequence`.
    pub fn calls_of(&self, trip: TripId) -> Calls<'_>
        requires { trip.0 < length self.now.trips }
        ensures value { result ≡ calls_of self.now trip }
        ensures times { All (λ (c : Call). (c.arrival ≤ most_time) × (c.departure ≤ most_time)) result }
    {
        self.calls.of_trip(trip.0 as usize)
    }

    // The frequency rows of a trip.
    fn frequencies_of(&self, trip: TripId) -> &[FrequencyRow]
        requires { trip.0 < length self.now.trips }
        ensures runs { AreRunsOf self.now trip result.now }
        ensures sound { All IsSoundRun result.now }
    {
        self.frequencies.group(trip.0 as usize)
    }

    /// Whether a trip has frequency rows.
    #[tactic(auto, using(crate::proofs::RunLaws::has_frequencies_none, crate::proofs::RunLaws::has_frequencies_rows))]
    pub fn has_frequencies(&self, trip: TripId) -> bool
        requires { trip.0 < length self.now.trips }
        ensures { result ≡ has_frequencies self.now trip }
    {
        let rows = self.frequencies_of(trip);
        if rows.is_empty() {
            return false;
        }
        true
    }

    // The departure from a trip's first call, in seconds of the service day; 0 where it has no call.
    fn first_departure(&self, trip: TripId) -> u32
        requires { trip.0 < length self.now.trips }
        ensures { result ≡ first_departure self.now trip }
    {
        match self.calls_of(trip).get(0) {
            Some(call) => call.departure,
            None => 0,
        }
    }

    /// The seconds by which the runs of a trip are later than its stop times say, ascending, each once: 0 alone for a
    /// trip without frequency rows.
    ///
    /// # Errors
    /// Want of memory.
    #[tactic(auto, using(crate::proofs::RunLaws::shifts_of_none, crate::proofs::RunLaws::shifts_of_rows))]
    pub fn shifts_of(&self, alloc: Global, trip: TripId) -> Result<Shifts, AllocError>
        requires { trip.0 < length self.now.trips }
        ensures { IfOk result (λ shifts. shifts ≡ shifts_of self.now trip) }
    {
        let rows = self.frequencies_of(trip);
        if rows.is_empty() {
            let mut shifts = Shifts::empty(alloc);
            shifts.push(0)?;
            return Ok(shifts);
        }
        shifts_of_runs(alloc, rows, self.first_departure(trip))
    }

    // Whether a run of the trip is so many seconds later than its stop times say.
    #[tactic(auto, using(crate::proofs::RunLaws::is_shift_none, crate::proofs::RunLaws::is_shift_rows))]
    fn is_shift(&self, trip: TripId, shift: i64) -> bool
        requires trip { trip.0 < length self.now.trips }
        requires low { least_shift ≤ℤ shift }
        requires high { shift ≤ℤ most_shift }
        ensures { result ≡ is_shift self.now trip shift }
    {
        let rows = self.frequencies_of(trip);
        if rows.is_empty() {
            return shift == 0;
        }
        has_run_at(rows, shifted(shift, self.first_departure(trip)))
    }

    /// The fare network of a trip's route.
    pub fn network(&self, trip: TripId) -> Option<NetworkId>
        requires { trip.0 < length self.now.trips }
        ensures { result ≡ trip_network self.now trip }
    {
        let feed = self.feed;
        let route = feed.trips.items()[trip.0 as usize].route;
        feed.routes.items()[route.0 as usize].network
    }

    // Whether a ride is one of the feed, where its trip's service is active on its day or isn't, as told.
    #[tactic(auto, using(crate::proofs::RunLaws::rides_by_shift))]
    fn is_ride(&self, active: bool, ride: &Ride) -> bool
        requires trip { ride.now.trip.0 < length self.now.trips }
        requires active { active ≡ runs_on self.now ride.now.trip ride.now.day.0 }
        requires shift_low { least_shift ≤ℤ ride.now.shift }
        requires shift_high { ride.now.shift ≤ℤ most_shift }
        ensures { result ≡ is_ride self.now ride.now }
    {
        let calls = self.calls_of(ride.trip);
        active
            && self.is_shift(ride.trip, ride.shift)
            && ride.from < ride.to
            && may_board(&calls, ride.from)
            && may_alight(&calls, ride.to)
    }

    /// Where and when a ride goes, where its trip's service is active on its day or isn't, as told. None exactly where
    /// it is no ride of the feed. The day lies from -800,000 to 3,000,000 and the shift from -700,000 to 700,000.
    pub fn facts(&self, active: bool, ride: &Ride) -> Option<RideFacts>
        requires trip { ride.now.trip.0 < length self.now.trips }
        requires active { active ≡ runs_on self.now ride.now.trip ride.now.day.0 }
        requires day_low { negsuc 799_999 ≤ℤ ride.now.day.0 }
        requires day_high { ride.now.day.0 ≤ℤ pos 3_000_000 }
        requires shift_low { least_shift ≤ℤ ride.now.shift }
        requires shift_high { ride.now.shift ≤ℤ most_shift }
        ensures { result ≡ ride_facts self.now ride.now }
    {
        if !self.is_ride(active, ride) {
            return None;
        }
        let calls = self.calls_of(ride.trip);
        let boarding = calls.get(ride.from as usize)?;
        let alighting = calls.get(ride.to as usize)?;
        Some(self.facts_between(ride, &boarding, &alighting))
    }

    // Where and when a ride between two calls goes.
    fn facts_between(&self, ride: &Ride, boarding: &Call, alighting: &Call) -> RideFacts
        requires trip { ride.now.trip.0 < length self.now.trips }
        requires day_low { negsuc 799_999 ≤ℤ ride.now.day.0 }
        requires day_high { ride.now.day.0 ≤ℤ pos 3_000_000 }
        requires shift_low { least_shift ≤ℤ ride.now.shift }
        requires shift_high { ride.now.shift ≤ℤ most_shift }
        requires departure { boarding.now.departure ≤ most_time }
        requires arrival { alighting.now.arrival ≤ most_time }
        ensures { result ≡ facts_between self.now ride.now boarding.now alighting.now }
    {
        RideFacts {
            from: boarding.stop,
            to: alighting.stop,
            network: self.network(ride.trip),
            departure: moment_of(ride, boarding.departure),
            arrival: moment_of(ride, alighting.arrival),
        }
    }
}

// The moment that is so many seconds of the service day, shifted as the ride is.
fn moment_of(ride: &Ride, seconds: u32) -> Moment
    requires day_low { negsuc 799_999 ≤ℤ ride.now.day.0 }
    requires day_high { ride.now.day.0 ≤ℤ pos 3_000_000 }
    requires shift_low { least_shift ≤ℤ ride.now.shift }
    requires shift_high { ride.now.shift ≤ℤ most_shift }
    requires seconds { seconds ≤ most_time }
    ensures { result ≡ moment_of ride.now seconds }
{
    Moment::at(ride.day, ride.shift + i64::from(seconds))
}

// The second of the service day that a second is shifted to.
fn shifted(shift: i64, second: u32) -> i64
    requires low { least_shift ≤ℤ shift }
    requires high { shift ≤ℤ most_shift }
    ensures { result ≡ shift +ℤ pos second }
{
    shift + i64::from(second)
}

// Whether there is a call at the position at which riders may board.
fn may_board(calls: &Calls, position: u32) -> bool
    ensures { result ≡ at_and calls.now position (λ (c : Call). c.pickup) }
{
    match calls.get(position as usize) {
        Some(call) => call.pickup,
        None => false,
    }
}

// Whether there is a call at the position at which riders may alight.
fn may_alight(calls: &Calls, position: u32) -> bool
    ensures { result ≡ at_and calls.now position (λ (c : Call). c.drop_off) }
{
    match calls.get(position as usize) {
        Some(call) => call.drop_off,
        None => false,
    }
}
