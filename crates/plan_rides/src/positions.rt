//! Where riders may board the runs of a query's patterns, and which rides they can catch there.
ghost use Rattle.std.specs.Prelude.{◌≡◌, ◌<◌, ◌≤◌, All, IfOk, OnOk, Some, int_le, slice_get};
ghost use Rattle.std.specs.List.Sorted.{IsPermutation};
ghost use Rattle.feed_rows.specs.Calls.{calls_of};
ghost use Rattle.feed_rows.specs.FeedRows.{FeedRows};
ghost use Rattle.feed_timetable.specs.Standings.{stand_of};
ghost use Rattle.plan_patterns.specs.Runs.{IsNear};
ghost use Rattle.plan_rides.specs.Boarding.{AreMarks, MayRide};
ghost use Rattle.plan_rides.specs.Cutoffs.{AreLastDepartures, cutoff_of};
ghost use Rattle.plan_rides.specs.Departures.{BoardsAt, IsBy, IsByTo, IsDeparture, Serves, run_with};
ghost use Rattle.plan_rides.specs.InTime.{HasCaught, IsRight, IsUsualQuery, IsWithinWindow};
ghost use Rattle.plan_rides.specs.Reached.{AddsFound, AddsReached, ArePutInOrder, IsAny, IsFromReached, positioned};
ghost use Rattle.plan_rides.specs.Served.{AreTimedStops};
ghost use Rattle.plan_rides.specs.Travelling.{IsBarred};
ghost use Rattle.transit_base.specs.Limits.{most_time};

use crate::caught::CaughtRide;
use crate::cutoffs::{Cutoff, is_early};
use crate::departures::{Departure, departure_at, first_late};
use crate::scope::deadline;
use crate::servings::TimedServing;
use crate::sought::Sought;
use feed_rows::{Call, Query};
use feed_timetable::{Standing, Timetable};
use item_groups::Groups;
use plan_patterns::{Patterns, Serving};
use std::alloc::{AllocError, Global};
use std::marker::Model;
use transit_base::{Moment, Secs, StopId};

/// Someone with a number, and where they stand.
#[derive(Clone, Copy)]
pub struct Traveller {
    pub standing: Standing,
    pub number: u32,
}

/// A position of a pattern that someone gets to, and their number.
#[derive(Clone, Copy)]
pub struct Reached {
    pub serving: Serving,
    /// The stop there.
    pub stop: StopId,
    /// The earliest moment at which they are there.
    pub earliest: Moment,
    pub number: u32,
}

/// Puts positions in the order of their patterns, of their places there, and of when one gets there: so the rides from a position
/// that are found first serve for all who get there.
pub fn put_in_order(reached: &mut Vec<Reached>)
    ensures moved { IsPermutation reached.old.items reached.new.items }
    ensures rises { ArePutInOrder reached.new.items }
{
    reached.sort_unstable_by_key(|at| (at.serving.pattern, at.serving.position, at.earliest.0));
}

/// Whether the ride departs no earlier than one gets to the position.
#[inline(always)]
pub fn departs_since(caught: &CaughtRide, reached: &Reached) -> bool
    ensures { result ≡ int_le reached.now.earliest.0 caught.now.facts.departure.0 }
{
    reached.earliest.0 <= caught.facts.departure.0
}

// Adds the ride by the departure that alights at the call.
fn add_ride(
    query: &Query,
    latest: &Cutoff,
    departure: &Departure,
    to: u32,
    call: &Call,
    rides: &mut Vec<CaughtRide>,
) -> Result<(), AllocError>
    requires usual { IsUsualQuery query.now }
    requires near { IsNear (run_with departure.now) }
    requires later { departure.now.from < to }
    requires time { call.now.arrival ≤ most_time }
    ensures { (feed : FeedRows) → IsDeparture feed departure.now → slice_get (calls_of feed departure.now.trip) to ≡ Some call.now → OnOk result (AddsFound feed query.now (cutoff_of latest.now) departure.now.stop.0 departure.now.at.0 (IsByTo feed departure.now to) rides.old.items rides.new.items) }
{
    let Some(facts) = departure.facts_in_time(query, call) else {
        return Ok(());
    };
    if !is_early(latest, facts.to, facts.arrival) {
        return Ok(());
    }
    rides.push(CaughtRide {
        ride: departure.ride_to(to),
        facts,
    })?;
    Ok(())
}

// Adds the rides by a departure.
fn add_departure(
    timetable: &Timetable,
    query: &Query,
    latest: &Cutoff,
    departure: &Departure,
    rides: &mut Vec<CaughtRide>,
) -> Result<(), AllocError>
    requires usual { IsUsualQuery query.now }
    requires right { IsDeparture timetable.now departure.now }
    ensures { OnOk result (AddsFound timetable.now query.now (cutoff_of latest.now) departure.now.stop.0 departure.now.at.0 (IsBy timetable.now departure.now) rides.old.items rides.new.items) }
{
    let calls = timetable.calls_of(departure.trip);
    for to in departure.from + 1..calls.len() as u32 {
        add_ride(query, latest, departure, to, &calls.at(to as usize), rides)?;
    }
    Ok(())
}

/// Where riders of a query may board the runs that are held. Contracts see the feed, the query and the patterns.
pub struct Positions<'s> {
    pub(crate) timetable: &'s Timetable<'s>,
    pub(crate) query: &'s Query,
    pub(crate) sought: &'s Sought,
    pub(crate) patterns: &'s Patterns<'s>,
    /// Where and when the patterns serve each stop.
    pub(crate) served: &'s Groups<TimedServing>,
}

// Written out, so that what holds one needn't look into it to let go of it.
impl<'s> Drop for Positions<'s> {
    fn drop(self) {
        let Positions {
            timetable: _,
            query: _,
            sought: _,
            patterns: _,
            served: _,
        } = self;
    }
}

impl<'s> Model for Positions<'s> {
    ghost use Rattle.feed_rows.specs.SoundFeed.{IsSoundFeed};
    ghost use Rattle.plan_rides.specs.Boarding.{AreMarks};
    ghost use Rattle.plan_rides.specs.Departures.{HoldsRuns};
    ghost use Rattle.plan_rides.specs.InTime.{IsUsualQuery};
    ghost use Rattle.plan_rides.specs.Reached.{Positioned, positioned};
    ghost use Rattle.plan_rides.specs.Scopes.{IsInScope};
    ghost use Rattle.plan_rides.specs.Served.{AreTimedStops};

    ghost Value = { Positioned };

    ghost view = { λ s. positioned s.timetable.now s.query.now s.patterns.now.patterns };

    ghost invariant = { λ s. IsSoundFeed s.timetable.now × IsUsualQuery s.query.now × AreTimedStops s.timetable.now s.sought.now s.patterns.now s.served.now × IsInScope s.sought.now.scope s.query.now × AreMarks s.timetable.now s.sought.now × HoldsRuns s.timetable.now s.sought.now s.patterns.now };
}

impl<'s> Positions<'s> {
    // Appends the positions at a stop that the traveller gets to. A stop at which they are too late is passed over, and so is
    // a position from which the last run has left by then, or the first departs too late.
    fn reach_stop(
        &self,
        lasts: &Cutoff,
        who: &Traveller,
        stop: StopId,
        reached: &mut Vec<Reached>,
    ) -> Result<(), AllocError>
        requires within { IsWithinWindow self.now.query who.now.standing.at.0 }
        requires may { MayRide self.now.feed self.now.query (stand_of who.now.standing) }
        ensures { OnOk result (AddsReached self.now (cutoff_of lasts.now) (stand_of who.now.standing) who.now.number (BoardsAt self.now.feed stop.0) reached.old.items reached.new.items) }
    {
        let Some(seconds) = self.timetable.way_to(self.query, who.standing, stop) else {
            return Ok(());
        };
        let earliest = who.standing.at.plus(Secs(seconds));
        if !is_early(lasts, stop, earliest) {
            return Ok(());
        }
        let served = self.served.get(stop.0 as usize);
        for k in 0..served.len() {
            let timed = &served[k];
            if timed.is_open(earliest, lasts, stop) {
                reached.push(Reached {
                    serving: timed.serving,
                    stop,
                    earliest,
                    number: who.number,
                })?;
            }
        }
        Ok(())
    }

    // Appends those where the traveller stands, where no walk leads from there to itself: a journey may still begin there.
    fn reach_barred(
        &self,
        lasts: &Cutoff,
        who: &Traveller,
        reached: &mut Vec<Reached>,
    ) -> Result<(), AllocError>
        requires within { IsWithinWindow self.now.query who.now.standing.at.0 }
        requires may { MayRide self.now.feed self.now.query (stand_of who.now.standing) }
        ensures { OnOk result (AddsReached self.now (cutoff_of lasts.now) (stand_of who.now.standing) who.now.number (IsBarred self.now.feed (stand_of who.now.standing)) reached.old.items reached.new.items) }
    {
        let stop = who.standing.stop;
        if let Some(_seconds) = self.timetable.link(stop, stop) {
            return Ok(());
        }
        self.reach_stop(lasts, who, stop, reached)?;
        Ok(())
    }

    /// Appends the positions that the traveller gets to, where they are early enough by `lasts`.
    ///
    /// # Errors
    /// Want of memory.
    pub fn reach(
        &self,
        lasts: &Cutoff,
        who: &Traveller,
        reached: &mut Vec<Reached>,
    ) -> Result<(), AllocError>
        requires within { IsWithinWindow self.now.query who.now.standing.at.0 }
        requires may { MayRide self.now.feed self.now.query (stand_of who.now.standing) }
        ensures { OnOk result (AddsReached self.now (cutoff_of lasts.now) (stand_of who.now.standing) who.now.number IsAny reached.old.items reached.new.items) }
    {
        self.reach_barred(lasts, who, reached)?;
        let walks = self.timetable.walks_from(who.standing.stop);
        for k in 0..walks.len() {
            self.reach_stop(lasts, who, walks[k].to, reached)?;
        }
        Ok(())
    }

    /// The rides that are caught from where one stands and end within the window.
    ///
    /// # Errors
    /// Want of memory.
    pub(crate) fn next(
        &self,
        alloc: Global,
        standing: Standing,
    ) -> Result<Vec<CaughtRide>, AllocError>
        requires within { IsWithinWindow self.now.query standing.at.0 }
        requires may { MayRide self.now.feed self.now.query (stand_of standing) }
        ensures all { IfOk result (λ rides. HasCaught self.now.feed self.now.query (stand_of standing) rides.items) }
        ensures right { IfOk result (λ rides. All (IsRight self.now.feed self.now.query (stand_of standing)) rides.items) }
    {
        let who = Traveller {
            standing,
            number: 0,
        };
        let any = Cutoff {
            spans: &[],
            until: deadline(self.query),
        };
        let mut reached = Vec::new(alloc);
        self.reach(&any, &who, &mut reached)?;
        let mut rides = Vec::new(alloc);
        for k in 0..reached.len() {
            self.add_rides(&mut rides, &any, &any, &reached[k])?;
        }
        Ok(rides)
    }

    /// Appends the rides from the position that depart no earlier than one is there, end within the window and arrive early
    /// enough by `latest`. By `lasts` none of them departs too late, so that no later ones are looked at.
    ///
    /// # Errors
    /// Want of memory.
    pub(crate) fn add_rides(
        &self,
        rides: &mut Vec<CaughtRide>,
        latest: &Cutoff,
        lasts: &Cutoff,
        reached: &Reached,
    ) -> Result<(), AllocError>
        requires serves { Serves self.now.feed self.now.patterns reached.now.stop.0 reached.now.serving }
        requires lasts { AreLastDepartures self.now.feed self.now.query (cutoff_of latest.now) (cutoff_of lasts.now) }
        ensures { OnOk result (AddsFound self.now.feed self.now.query (cutoff_of latest.now) reached.now.stop.0 reached.now.earliest.0 (IsFromReached self.now reached.now) rides.old.items rides.new.items) }
    {
        let timetable = self.timetable;
        let query = self.query;
        let serving = &reached.serving;
        let runs = self.patterns.runs(serving.pattern);
        let boardings = self
            .patterns
            .boardable(serving.pattern, serving.position, reached.earliest);
        for k in 0..first_late(boardings, lasts, reached.stop) {
            let departure = departure_at(
                timetable,
                reached.stop,
                serving.position,
                runs,
                &boardings[k],
            );
            add_departure(timetable, query, latest, &departure, rides)?;
        }
        Ok(())
    }
}
