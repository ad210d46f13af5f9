//! The stops, trips, walks and services of one feed, beside one another.
ghost use Rattle.std.specs.Prelude.{◌≡◌, ◌<◌, ◌≤◌, ◌^◌, ◌≤ℤ◌, ℤ, pos, negsuc, length, All, IfOk, IfSome, IsTrue, option_map, Option, Some, None};
ghost use Rattle.feed_rows.specs.Limits.{least_shift, most_shift};
ghost use Rattle.transit_base.specs.Limits.{most_time};
ghost use Rattle.transit_base.specs.declared.moments.Secs.{Secs};
ghost use Rattle.transit_base.specs.declared.moments.Moment.{Moment};
ghost use Rattle.feed_rows.specs.declared.journeys.Call.{Call};
ghost use Rattle.feed_rows.specs.SoundFeed.{IsSoundFeed};
ghost use Rattle.feed_rows.specs.Calls.{calls_of, first_departure};
ghost use Rattle.feed_rows.specs.Shifts.{has_frequencies, shifts_of};
ghost use Rattle.feed_rows.specs.Rides.{runs_on, ride_facts, trip_network};
ghost use Rattle.feed_rows.specs.RowsById.{find_stop, find_trip};
ghost use Rattle.feed_rows.specs.RowsById.{call_position};
ghost use Rattle.feed_rows.specs.StopLinks.{link, stop_set};
ghost use Rattle.feed_rows.specs.Journeys.{stands_for, access, egress, direct, is_caught};
ghost use Rattle.feed_rows.specs.JourneyStands.{way_to, way_out, end_arrival};
ghost use Rattle.feed_timetable.specs.Standings.{stand_of, IsNear, AreShifts};
ghost use Rattle.feed_timetable.specs.ServicesOn.{services_on};
ghost use Rattle.feed_walks.specs.OutOf.{out_of};
ghost use Rattle.feed_calendar.specs.BuiltCalendar.{IsCalendarOf};

use crate::standing::Standing;
use feed_calendar::Calendar;
use feed_rows::{Feed, Query, Ride, RideFacts, Shifts};
use feed_stops::Stops;
use feed_trips::{Calls, Trips};
use feed_walks::{Step, Walks};
use std::alloc::{AllocError, Global};
use std::marker::Model;
use transit_base::{Day, Moment, NetworkId, Secs, ServiceId, StopId, TripId};

/// The stops, trips, walks and services of a feed. Contracts see it as the rows of its feed.
pub struct Timetable<'f> {
    feed: &'f Feed,
    stops: Stops<'f>,
    trips: Trips<'f>,
    walks: Walks,
    calendar: Calendar,
}

// Written out, so that what holds one needn't look into it to let go of it.
impl<'f> Drop for Timetable<'f> {
    fn drop(self) {
        let Timetable {
            feed: _,
            stops: _,
            trips: _,
            walks: _,
            calendar: _,
        } = self;
    }
}

impl<'f> Model for Timetable<'f> {
    ghost use Rattle.feed_rows.specs.FeedRows.{FeedRows};

    ghost Value = { FeedRows };

    ghost use Rattle.std.specs.Prelude.{◌≡◌};
    ghost use Rattle.feed_stops.specs.BuiltStops.{AreStopsOf};
    ghost use Rattle.feed_walks.specs.BuiltWalks.{AreWalksOf};
    ghost use Rattle.feed_calendar.specs.BuiltCalendar.{IsCalendarOf};

    ghost view = { λ s. s.feed.now };

    ghost invariant = { λ s. (s.trips ≡ s.feed.now) × AreStopsOf s.feed.now s.stops × AreWalksOf s.feed.now s.walks × IsCalendarOf s.feed.now s.calendar };
}

impl<'f> Timetable<'f> {
    /// The timetable of the feed.
    ///
    /// # Errors
    /// Want of memory.
    pub fn build(alloc: Global, feed: &'f Feed) -> Result<Timetable<'f>, AllocError>
        ensures { IfOk result (λ timetable. timetable ≡ feed.now) }
    {
        // What has no lifetime is made first, and the trips last, so that least is held at each way out.
        let calendar = Calendar::build(alloc, feed)?;
        let stops = match Stops::build(alloc, feed) {
            Ok(stops) => stops,
            Err(AllocError) => return Err(AllocError),
        };
        let walks = Walks::build_with(alloc, feed, stops.sets())?;
        match Trips::build(alloc, feed) {
            Ok(trips) => Ok(Timetable {
                feed,
                stops,
                trips,
                walks,
                calendar,
            }),
            Err(AllocError) => Err(AllocError),
        }
    }

    /// The feed.
    pub fn feed(&self) -> &'f Feed
        ensures value { result.now ≡ self.now }
        ensures sound { IsSoundFeed self.now }
    {
        let feed = self.feed;
        let _rows = &feed.trips;
        feed
    }

    /// How many trips there are.
    pub fn trips(&self) -> u32
        ensures { result ≡ length self.now.trips }
    {
        let feed = self.feed;
        feed.trips.items().len() as u32
    }

    /// The stop with this id. None exactly where no stop has it.
    pub fn find(&self, id: &[u8]) -> Option<StopId>
        ensures { result ≡ find_stop self.now id.now }
    {
        self.stops.find(id)
    }

    /// The trip with this id. None exactly where no trip has it.
    pub fn find_trip(&self, id: &[u8]) -> Option<TripId>
        ensures { result ≡ find_trip self.now id.now }
    {
        self.trips.find(id)
    }

    /// The platforms that the stop stands for.
    pub fn members(&self, stop: StopId) -> &[StopId]
        ensures { result.now ≡ stop_set self.now stop }
    {
        self.stops.members(stop)
    }

    /// Whether the platform is one of those that the stop stands for.
    pub fn stands_for(&self, stop: StopId, member: StopId) -> bool
        ensures { result ≡ stands_for self.now stop member }
    {
        self.members(stop).contains(&member)
    }

    /// The seconds of the walk from one platform to another or to itself; none where there is no walk.
    pub fn link(&self, from: StopId, to: StopId) -> Option<Secs>
        ensures { option_map (λ (seconds : Secs). seconds.0) result ≡ link self.now from to }
    {
        self.walks.link(from, to)
    }

    /// The walks out of the platform, to itself among them where there is one, in file order of the platforms that they
    /// lead to.
    pub fn walks_from(&self, platform: StopId) -> &[Step]
        ensures { result.now ≡ out_of self.now platform }
    {
        self.walks.out_of(platform)
    }

    /// The service calendar of the feed.
    pub fn calendar(&self) -> &Calendar
        ensures { IsCalendarOf self.now result.now }
    {
        &self.calendar
    }

    /// Whether the trip's service is active on the day.
    pub fn runs_on(&self, trip: TripId, day: Day) -> bool
        requires { trip.0 < length self.now.trips }
        ensures { result ≡ runs_on self.now trip day.0 }
    {
        let feed = self.feed;
        let service = feed.trips.items()[trip.0 as usize].service;
        self.calendar.active(service, day)
    }

    /// Whether each service is active on the day, by its number.
    ///
    /// # Errors
    /// Want of memory.
    pub fn services_on(&self, alloc: Global, day: Day) -> Result<Vec<bool>, AllocError>
        ensures { IfOk result (λ active. active.items ≡ services_on self.now day.0) }
    {
        let feed = self.feed;
        let _rows = &feed.trips;
        let names = feed.service_names.items();
        let mut active = Vec::with_capacity(alloc, names.len())?;
        for service in 0..names.len() as u32 {
            active.push(self.calendar.active(ServiceId(service), day))?;
        }
        Ok(active)
    }

    /// Whether the trip runs on a day on which these services are active, by their numbers.
    pub fn runs_with(&self, active: &[bool], trip: TripId) -> bool
        requires many { length active.now ≡ length self.now.service_names }
        requires trip { trip.0 < length self.now.trips }
        ensures { (day : ℤ) → active.now ≡ services_on self.now day → result ≡ runs_on self.now trip day }
    {
        let feed = self.feed;
        let _rows = &feed.trips;
        let service = feed.trips.items()[trip.0 as usize].service;
        active[service.0 as usize]
    }

    /// The calls of a trip, in order.
    #[tactic(auto, using(crate::proofs::TimetableLaws::few_calls))]
    pub fn calls_of(&self, trip: TripId) -> Calls<'_>
        requires { trip.0 < length self.now.trips }
        ensures value { result ≡ calls_of self.now trip }
        ensures times { All (λ (c : Call). (c.arrival ≤ most_time) × (c.departure ≤ most_time)) result }
        ensures few { length result < 2 ^ 32 }
    {
        let feed = self.feed;
        let _rows = &feed.trips;
        self.trips.calls_of(trip)
    }

    /// The shifts of a trip's runs, ascending.
    ///
    /// # Errors
    /// Want of memory.
    #[tactic(auto, using(crate::proofs::TimetableLaws::shift_bounds))]
    pub fn shifts_of(&self, alloc: Global, trip: TripId) -> Result<Shifts, AllocError>
        requires { trip.0 < length self.now.trips }
        ensures value { IfOk result (λ shifts. shifts ≡ shifts_of self.now trip) }
        ensures bounds { AreShifts (shifts_of self.now trip) }
    {
        let feed = self.feed;
        let _rows = &feed.trips;
        self.trips.shifts_of(alloc, trip)
    }

    /// The fare network of a trip's route.
    pub fn network(&self, trip: TripId) -> Option<NetworkId>
        requires { trip.0 < length self.now.trips }
        ensures { result ≡ trip_network self.now trip }
    {
        self.trips.network(trip)
    }

    /// Whether a trip has frequency rows.
    pub fn has_frequencies(&self, trip: TripId) -> bool
        requires { trip.0 < length self.now.trips }
        ensures { result ≡ has_frequencies self.now trip }
    {
        self.trips.has_frequencies(trip)
    }

    /// The departure from a trip's first call, in seconds of the service day; 0 where it has no call.
    pub fn first_departure(&self, trip: TripId) -> u32
        requires { trip.0 < length self.now.trips }
        ensures value { result ≡ first_departure self.now trip }
        ensures most { result ≤ most_time }
    {
        match self.calls_of(trip).get(0) {
            Some(call) => call.departure,
            None => 0,
        }
    }

    /// The position of a trip's first call with this `stop_sequence`. None exactly where no call has it.
    #[tactic(auto, using(plain_laws::proofs::Laws::found_firsts))]
    pub fn call_position(&self, trip: TripId, sequence: u32) -> Option<u32>
        requires { trip.0 < length self.now.trips }
        ensures { result ≡ call_position self.now trip sequence }
    {
        let calls = self.calls_of(trip);
        for position in 0..calls.len() {
            if calls.at(position).sequence == sequence {
                return Some(position as u32);
            }
        }
        None
    }

    /// Where and when a ride goes. None exactly where it is no ride of the feed.
    pub fn facts(&self, ride: &Ride) -> Option<RideFacts>
        requires trip { ride.now.trip.0 < length self.now.trips }
        requires day_low { negsuc 799_999 ≤ℤ ride.now.day.0 }
        requires day_high { ride.now.day.0 ≤ℤ pos 3_000_000 }
        requires shift_low { least_shift ≤ℤ ride.now.shift }
        requires shift_high { ride.now.shift ≤ℤ most_shift }
        ensures { result ≡ ride_facts self.now ride.now }
    {
        let active = self.runs_on(ride.trip, ride.day);
        self.trips.facts(active, ride)
    }

    // The seconds of the walk, as a number.
    fn link_seconds(&self, from: StopId, to: StopId) -> Option<u32>
        ensures { result ≡ link self.now from to }
    {
        let seconds = self.link(from, to)?;
        Some(seconds.0)
    }

    // The seconds from a journey's first stop to where its first ride boards.
    fn access(&self, query: &Query, first: StopId, boarding: StopId) -> Option<u32>
        ensures { result ≡ access self.now query.now first boarding }
    {
        if !self.stands_for(query.from, boarding) {
            return self.link_seconds(first, boarding);
        }
        if first.0 == boarding.0 { Some(0) } else { None }
    }

    /// The seconds from where a journey's last ride alights to its last stop, where it goes to this stop; none where it
    /// doesn't end there.
    pub fn egress(&self, to: StopId, alighting: StopId, last: StopId) -> Option<u32>
        ensures { (query : Query) → query.to ≡ to → result ≡ egress self.now query alighting last }
    {
        if !self.stands_for(to, alighting) {
            return self.link_seconds(alighting, last);
        }
        if alighting.0 == last.0 { Some(0) } else { None }
    }

    // The seconds of a journey without rides.
    fn direct(&self, first: StopId, last: StopId) -> Option<u32>
        ensures { result ≡ direct self.now first last }
    {
        if first.0 == last.0 {
            return Some(0);
        }
        self.link_seconds(first, last)
    }

    /// The seconds from where one stands to where a ride boards; none where one can't board there.
    pub fn way_to(&self, query: &Query, standing: Standing, boarding: StopId) -> Option<u32>
        ensures { result ≡ way_to self.now query.now (stand_of standing) boarding }
    {
        if standing.fresh {
            self.access(query, standing.stop, boarding)
        } else {
            self.link_seconds(standing.stop, boarding)
        }
    }

    // The seconds from where one stands to the last stop.
    fn way_out(&self, query: &Query, standing: Standing, last: StopId) -> Option<u32>
        ensures { result ≡ way_out self.now query.now (stand_of standing) last }
    {
        if standing.fresh {
            self.direct(standing.stop, last)
        } else {
            self.egress(query.to, standing.stop, last)
        }
    }

    /// Whether the ride with these facts is caught from where one stands.
    pub fn is_caught(&self, query: &Query, standing: Standing, ride: &RideFacts) -> bool
        requires near { IsNear standing }
        ensures { result ≡ is_caught standing.at.0 (way_to self.now query.now (stand_of standing) ride.now.from) ride.now }
    {
        match self.way_to(query, standing, ride.from) {
            Some(seconds) => standing.at.0 + i64::from(seconds) <= ride.departure.0,
            None => false,
        }
    }

    /// The arrival at the last stop from where one stands after all rides; none where one doesn't get there.
    #[tactic(auto, unfolding(feed_rows::specs::JourneyStands::end_arrival))]
    pub fn end_arrival(&self, query: &Query, standing: Standing, last: StopId) -> Option<Moment>
        requires near { IsNear standing }
        ensures { option_map (λ (moment : Moment). moment.0) result ≡ end_arrival self.now query.now (stand_of standing) last }
    {
        let seconds = self.way_out(query, standing, last)?;
        Some(standing.at.plus(Secs(seconds)))
    }
}
