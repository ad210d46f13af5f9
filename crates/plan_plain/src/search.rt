//! All journeys of a query, with the best of them kept.
ghost use Rattle.std.specs.Prelude.{◌≡◌, ◌<◌, ◌≤◌, ◌+◌, ◌++◌, ◌∷◌, [], false, All, IfOk, OnOk, IsTrue, Some, None, length};
ghost use Rattle.feed_rows.specs.Journeys.{stands_for};
ghost use Rattle.feed_rows.specs.JourneyEntries.{IsEntry, IsExactAnswer, CoversOffers};
ghost use Rattle.feed_rows.specs.JourneyStands.{first_stand, stand_at_end};
ghost use Rattle.feed_rows.specs.SoundFeed.{IsSoundFeed};
ghost use Rattle.feed_rows.specs.StopLinks.{stop_set};
ghost use Rattle.plan_rides.specs.Boarding.{MayRide};
ghost use Rattle.feed_rows.specs.Legs.{leg_facts, legs_of};
ghost use Rattle.fare_automaton.specs.Terms.{terms};
ghost use Rattle.fare_timeframes.specs.BuiltTimeframes.{AreTimeframesOf};
ghost use Rattle.feed_timetable.specs.Standings.{stand_of};
ghost use Rattle.plan_plain.specs.Paths.{no_ride, with_ride};
ghost use Rattle.plan_plain.specs.Searches.{AddsEnd, IsCheapest, IsEarliestEnd, HasRides, GoesOn, Gains, StartsAt, IsSearched};
ghost use Rattle.feed_rows.specs.Journeys.{asked};
ghost use Rattle.plan_rides.specs.InTime.{HasCaught, IsRight, IsUsualQuery, IsWithinWindow};
ghost use Rattle.plan_rides.specs.Scopes.{IsInScope};
ghost use Rattle.transit_base.specs.declared.moments.Moment.{Moment};
ghost use Rattle.transit_base.specs.declared.numbers.StopId.{StopId};

use crate::path::Path;
use fare_automaton::Automaton;
use fare_price::Priced;
use fare_timeframes::Timeframes;
use feed_rows::{Entry, Journey, Query, Triple};
use feed_timetable::{Standing, Timetable};
use pareto_front::Front;
use plan_rides::{CaughtRide, Rides, Scope, SpanRuns, deadline};
use std::alloc::{AllocError, Global};
use std::marker::Model;
use transit_base::{Moment, StopId};

/// Where and when a journey ends.
#[derive(Clone, Copy)]
struct End {
    last: StopId,
    arrival: Moment,
}

/// A query over a timetable, with what is computed once for it. Contracts see it as the feed and the query.
#[derive(Drop)]
struct Search<'s> {
    rides: &'s Rides<'s>,
    timeframes: &'s Timeframes<'s>,
}

impl<'s> Model for Search<'s> {
    ghost use Rattle.fare_timeframes.specs.BuiltTimeframes.{AreTimeframesOf};
    ghost use Rattle.feed_rows.specs.Journeys.{Asked};

    ghost Value = { Asked };

    ghost view = { λ s. s.rides.now };

    ghost invariant = { λ s. AreTimeframesOf s.rides.now.feed s.timeframes.now };
}

impl<'s> Search<'s> {
    // The query.
    fn query(&self) -> &'s Query
        ensures is { result.now ≡ self.now.query }
        ensures usual { IsUsualQuery self.now.query }
    {
        self.rides.query()
    }

    // The platforms that a stop stands for.
    fn members(&self, stop: StopId) -> &'s [StopId]
        ensures { result.now ≡ stop_set self.now.feed stop }
    {
        self.rides.timetable().members(stop)
    }

    // Where one stands at a first stop, before any ride.
    fn start(&self, first: StopId) -> Standing
        ensures stand { stand_of result ≡ first_stand self.now.query first }
        ensures within { IsWithinWindow self.now.query result.at.0 }
        ensures sound { IsSoundFeed self.now.feed }
    {
        self.rides.start(first)
    }

    // The rides that are caught from where one stands and end within the window.
    fn rides_from(&self, alloc: Global, standing: Standing) -> Result<Vec<CaughtRide>, AllocError>
        requires within { IsWithinWindow self.now.query standing.at.0 }
        requires may { MayRide self.now.feed self.now.query (stand_of standing) }
        ensures all { IfOk result (λ rides. HasCaught self.now.feed self.now.query (stand_of standing) rides.items) }
        ensures right { IfOk result (λ rides. All (IsRight self.now.feed self.now.query (stand_of standing)) rides.items) }
        ensures sound { IsSoundFeed self.now.feed }
    {
        self.rides.next(alloc, standing)
    }

    // A choice of least price for the rides of the path; none where no choice pays them.
    fn price_of(&self, alloc: Global, path: &Path) -> Result<Option<Priced>, AllocError>
        requires legs { legs_of self.now.feed path.now.rides ≡ Some path.now.legs }
        requires terms { path.now.terms ≡ terms self.now.feed self.now.query.buyer }
        requires few { length path.now.rides ≤ self.now.query.rides }
        ensures { IfOk result (IsCheapest self.now.feed path.now.rides self.now.query.buyer) }
    {
        let _query = self.query();
        path.price(alloc)
    }

    // The earlier of an end and that at this stop, the former of equals.
    fn earlier(&self, standing: Standing, last: StopId, best: Option<End>) -> Option<End>
        requires { IsWithinWindow self.now.query standing.at.0 }
        ensures { AddsEnd self.now.feed self.now.query (stand_of standing) last best result }
    {
        let Some(arrival) = self.rides.arrival_in_time(standing, last) else {
            return best;
        };
        match best {
            Some(end) if end.arrival.0 <= arrival.0 => Some(end),
            _ => Some(End { last, arrival }),
        }
    }

    // Where a journey ends earliest that takes no ride more from where one stands; none where none ends within the
    // window.
    fn earliest_end(&self, standing: Standing) -> Option<End>
        requires { IsWithinWindow self.now.query standing.at.0 }
        ensures { IsEarliestEnd self.now.feed self.now.query (stand_of standing) result }
    {
        let lasts = self.members(self.query().to);
        let mut earliest = None;
        for k in 0..lasts.len() {
            earliest = self.earlier(standing, lasts[k], earliest);
        }
        earliest
    }

    // Offers the best entry with the rides of the path, where there is one.
    fn offer(
        &self,
        alloc: Global,
        first: StopId,
        standing: Standing,
        path: &Path,
        front: &mut Front<Entry>,
    ) -> Result<(), AllocError>
        requires searched { IsSearched self.now.feed self.now.query first (stand_of standing) path.now }
        requires few { length path.now.rides ≤ self.now.query.rides }
        ensures { OnOk result (Gains self.now.feed self.now.query (HasRides self.now.feed self.now.query first path.now.rides) front.old front.new) }
    {
        let _query = self.query();
        let Some(end) = self.earliest_end(standing) else {
            return Ok(());
        };
        let Some(priced) = self.price_of(alloc, path)? else {
            return Ok(());
        };
        let rides = path.rides(alloc)?;
        let triple = Triple {
            arrival: end.arrival,
            rides: path.len() as u8,
            price: priced.sum,
        };
        let journey = Journey {
            first,
            last: end.last,
            rides,
        };
        front.offer(Entry {
            triple,
            journey,
            choice: priced.choice,
        })?;
        Ok(())
    }

    // Whether entries may go on from here with at most so many rides more.
    fn goes_on(&self, standing: Standing, left: u8) -> bool
        requires { IsWithinWindow self.now.query standing.at.0 }
        ensures { result ≡ false → (left ≡ 0) × IsEarliestEnd self.now.feed self.now.query (stand_of standing) None }
    {
        left > 0 || self.earliest_end(standing).is_some()
    }

    // Takes the ride onto the path, with what fare rules look at in it. What can be paid for it is asked there, once for
    // all legs that these rules can't tell apart.
    fn take(&self, alloc: Global, caught: &CaughtRide, path: &mut Path) -> Result<(), AllocError>
        ensures { OnOk result (path.new ≡ with_ride path.old caught.now.ride (leg_facts self.now.feed caught.now.facts)) }
    {
        let leg = self.timeframes.leg_facts(alloc, &caught.facts)?;
        path.push(alloc, caught.ride, leg)?;
        Ok(())
    }

    // Offers the best entries that go on from here with at most so many rides more.
    fn explore(
        &self,
        alloc: Global,
        first: StopId,
        standing: Standing,
        path: &mut Path,
        left: u8,
        front: &mut Front<Entry>,
    ) -> Result<(), AllocError>
        requires searched { IsSearched self.now.feed self.now.query first (stand_of standing) path.old }
        requires few { length path.old.rides + left ≡ self.now.query.rides }
        ensures path { OnOk result (path.new ≡ path.old) }
        ensures gains { OnOk result (Gains self.now.feed self.now.query (GoesOn self.now.feed self.now.query first path.old.rides (stand_of standing) left) front.old front.new) }
    {
        self.offer(alloc, first, standing, path, front)?;
        if left == 0 {
            return Ok(());
        }
        let rides = self.rides_from(alloc, standing)?;
        for n in 0..rides.len() {
            let caught = &rides[n];
            let next = Standing {
                stop: caught.facts.to,
                at: caught.facts.arrival,
                fresh: false,
            };
            let goes_on = self.goes_on(next, left - 1);
            if goes_on {
                self.take(alloc, caught, path)?;
                self.explore(alloc, first, next, path, left - 1, front)?;
                path.pop();
            }
        }
        Ok(())
    }

    // Offers the best entries from a first stop.
    fn offer_from(
        &self,
        alloc: Global,
        first: StopId,
        path: &mut Path,
        front: &mut Front<Entry>,
    ) -> Result<(), AllocError>
        requires starts { IsTrue (stands_for self.now.feed self.now.query.from first) }
        requires path { path.old ≡ no_ride (terms self.now.feed self.now.query.buyer) }
        ensures path { OnOk result (path.new ≡ path.old) }
        ensures gains { OnOk result (Gains self.now.feed self.now.query (StartsAt self.now.feed self.now.query first) front.old front.new) }
    {
        let standing = self.start(first);
        self.explore(alloc, first, standing, path, self.query().rides, front)?;
        Ok(())
    }

    // Offers the best entries of the query.
    fn offer_all(
        &self,
        alloc: Global,
        path: &mut Path,
        front: &mut Front<Entry>,
    ) -> Result<(), AllocError>
        requires { path.old ≡ no_ride (terms self.now.feed self.now.query.buyer) }
        ensures { OnOk result (Gains self.now.feed self.now.query (IsEntry self.now.feed self.now.query) front.old front.new) }
    {
        let firsts = self.members(self.query().from);
        for k in 0..firsts.len() {
            self.offer_from(alloc, firsts[k], path, front)?;
        }
        Ok(())
    }

    // The exact answer to the query, by the fares for its buyer.
    fn entries(&self, alloc: Global, automaton: &Automaton) -> Result<Vec<Entry>, AllocError>
        requires { automaton.now ≡ terms self.now.feed self.now.query.buyer }
        ensures exact { IfOk result (λ entries. IsExactAnswer self.now.feed self.now.query entries.items) }
        ensures covers { IfOk result (λ entries. CoversOffers self.now.feed self.now.query entries.items) }
    {
        let mut path = Path::empty(alloc, automaton);
        let mut front = Front::empty(alloc);
        match self.offer_all(alloc, &mut path, &mut front) {
            Ok(()) => Ok(front.into_items()),
            Err(AllocError) => Err(AllocError),
        }
    }
}

/// The exact answer to a query.
///
/// # Errors
/// Want of memory.
pub fn plain_entries(
    alloc: Global,
    timetable: &Timetable,
    query: &Query,
) -> Result<Vec<Entry>, AllocError>
    requires usual { IsUsualQuery query.now }
    ensures exact { IfOk result (λ entries. IsExactAnswer timetable.now query.now entries.items) }
    ensures covers { IfOk result (λ entries. CoversOffers timetable.now query.now entries.items) }
{
    match Automaton::compile(alloc, timetable.feed(), query.buyer) {
        Ok(automaton) => entries_for_buyer(timetable, query, alloc, &automaton),
        Err(AllocError) => Err(AllocError),
    }
}

// The exact answer to a query, by the fares for its buyer.
fn entries_for_buyer<'s>(
    timetable: &'s Timetable<'s>,
    query: &'s Query,
    alloc: Global,
    automaton: &Automaton,
) -> Result<Vec<Entry>, AllocError>
    requires usual { IsUsualQuery query.now }
    requires same { automaton.now ≡ terms timetable.now query.now.buyer }
    ensures exact { IfOk result (λ entries. IsExactAnswer timetable.now query.now entries.items) }
    ensures covers { IfOk result (λ entries. CoversOffers timetable.now query.now entries.items) }
{
    match SpanRuns::of(alloc, timetable, &Scope::of(query)) {
        Ok(runs) => entries_by_runs(&runs, query, alloc, automaton),
        Err(AllocError) => Err(AllocError),
    }
}

// The exact answer to a query, by the runs that are held for it.
fn entries_by_runs<'s>(
    runs: &'s SpanRuns<'s>,
    query: &'s Query,
    alloc: Global,
    automaton: &Automaton,
) -> Result<Vec<Entry>, AllocError>
    requires usual { IsUsualQuery query.now }
    requires within { IsInScope runs.now.scope query.now }
    requires same { automaton.now ≡ terms runs.now.feed query.now.buyer }
    ensures exact { IfOk result (λ entries. IsExactAnswer runs.now.feed query.now entries.items) }
    ensures covers { IfOk result (λ entries. CoversOffers runs.now.feed query.now entries.items) }
{
    let rides = Rides::of(runs, query);
    let timetable = rides.timetable();
    match Timeframes::between(
        alloc,
        timetable.feed(),
        timetable.calendar(),
        query.departure,
        deadline(query),
    ) {
        Ok(timeframes) => entries_at(&rides, &timeframes, alloc, automaton),
        Err(AllocError) => Err(AllocError),
    }
}

// The exact answer to the query of these rides, by the timeframes of the feed.
fn entries_at<'s>(
    rides: &'s Rides<'s>,
    timeframes: &'s Timeframes<'s>,
    alloc: Global,
    automaton: &Automaton,
) -> Result<Vec<Entry>, AllocError>
    requires timeframes { AreTimeframesOf rides.now.feed timeframes.now }
    requires same { automaton.now ≡ terms rides.now.feed rides.now.query.buyer }
    ensures exact { IfOk result (λ entries. IsExactAnswer rides.now.feed rides.now.query entries.items) }
    ensures covers { IfOk result (λ entries. CoversOffers rides.now.feed rides.now.query entries.items) }
{
    let search = Search { rides, timeframes };
    search.entries(alloc, automaton)
}
