//! The departures of a span, and the patterns whose runs they are of.
ghost use Rattle.std.specs.Prelude.{◌≡◌, ◌<◌, ◌≤◌, length, All, IfOk, OnOk};
ghost use Rattle.plan_patterns.specs.declared.runs.Run.{Run};
ghost use Rattle.plan_patterns.specs.Columns.{AreInOrder};
ghost use Rattle.plan_patterns.specs.Runs.{IsNear};
ghost use Rattle.plan_patterns.specs.Spans.{IsUsualSpan};
ghost use Rattle.plan_rides.specs.Boarding.{is_boarding};
ghost use Rattle.plan_rides.specs.Cutoffs.{cutoff_of};
ghost use Rattle.plan_rides.specs.Departures.{AddsTrip, AreBoarded, AreDepartures, AreLateFrom, AreListed, HoldsRuns, departure_at};
ghost use Rattle.plan_rides.specs.Departures.{facts_in_time, ride_to, run_with};
ghost use Rattle.plan_rides.specs.InTime.{IsUsualQuery};
ghost use Rattle.transit_base.specs.Limits.{most_time};

use crate::cutoffs::{Cutoff, is_early};
use crate::scope::deadline;
use crate::sought::Sought;
use feed_rows::{Call, Query, Ride, RideFacts, StopTimeRow};
use feed_timetable::Timetable;
use plan_patterns::{Boarding, Patterns, Run};
use std::alloc::{AllocError, Global};
use transit_base::{Day, Moment, NetworkId, StopId, TripId};

/// A run's departure from one of its calls, where riders may board.
#[derive(Clone, Copy)]
pub struct Departure {
    pub trip: TripId,
    pub day: Day,
    pub shift: i64,
    /// The fare network of the trip's route.
    pub network: Option<NetworkId>,
    /// The place of the call among those of the trip.
    pub from: u32,
    pub stop: StopId,
    pub at: Moment,
}

impl Departure {
    /// Where and when the ride by it goes that alights at the call; none where riders may not alight there, or it ends
    /// past the window.
    #[tactic(auto, unfolding(crate::specs::Departures::facts_in_time))]
    pub fn facts_in_time(&self, query: &Query, call: &Call) -> Option<RideFacts>
        requires usual { IsUsualQuery query.now }
        requires near { IsNear (run_with self.now) }
        requires time { call.now.arrival ≤ most_time }
        ensures { result ≡ facts_in_time query.now self.now call.now }
    {
        let run = Run {
            trip: self.trip,
            day: self.day,
            shift: self.shift,
        };
        let arrival = run.moment(call.arrival);
        if !call.drop_off || arrival.0 > deadline(query).0 {
            return None;
        }
        Some(RideFacts {
            from: self.stop,
            to: call.stop,
            network: self.network,
            departure: self.at,
            arrival,
        })
    }

    /// The ride by it that alights at the call at this place.
    pub fn ride_to(&self, to: u32) -> Ride
        ensures { result ≡ ride_to self.now to }
    {
        Ride {
            trip: self.trip,
            day: self.day,
            shift: self.shift,
            from: self.from,
            to,
        }
    }
}

// Whether riders may board at the stop time, and its stop is marked.
fn is_boarding(sought: &Sought, row: &StopTimeRow) -> bool
    ensures { result ≡ is_boarding sought.now row.now }
{
    row.pickup && sought.boards_at(row.stop)
}

// Lists a trip with its mark, where it has none yet.
fn list_once(marks: &mut [bool], trips: &mut Vec<TripId>, trip: TripId) -> Result<(), AllocError>
    requires inside { trip.0 < length marks.old }
    requires listed { AreListed marks.old trips.old.items }
    ensures many { OnOk result (length marks.new ≡ length marks.old) }
    ensures listed { OnOk result (AreListed marks.new trips.new.items) }
    ensures adds { OnOk result (AddsTrip trip trips.old.items trips.new.items) }
{
    let number = trip.0 as usize;
    if marks[number] {
        return Ok(());
    }
    marks[number] = true;
    trips.push(trip)?;
    Ok(())
}

/// The trips that riders may board at a stop that is marked, in the order of the file. For one ride there are few of
/// them, and no other trip is looked at again, whatever the days.
///
/// # Errors
/// Want of memory.
pub fn boarded_trips(
    alloc: Global,
    timetable: &Timetable,
    sought: &Sought,
) -> Result<Vec<TripId>, AllocError>
    ensures { IfOk result (λ trips. AreBoarded timetable.now sought.now trips.items) }
{
    let mut trips = Vec::new(alloc);
    if sought.rides() == 0 {
        return Ok(trips);
    }
    let feed = timetable.feed();
    let _rows = &feed.trips;
    let rows = feed.stop_times.items();
    let mut marks = vec![in alloc; false; feed.trips.items().len()]?;
    for row in rows {
        if is_boarding(sought, row) {
            list_once(&mut marks, &mut trips, row.trip)?;
        }
    }
    Ok(trips)
}

/// The runs by which a ride may be caught, by patterns.
///
/// # Errors
/// Want of memory.
pub fn patterns_of<'f>(
    alloc: Global,
    timetable: &Timetable<'f>,
    sought: &Sought,
) -> Result<Patterns<'f>, AllocError>
    requires usual { IsUsualSpan sought.now.scope.span }
    ensures held { IfOk result (λ patterns. HoldsRuns timetable.now sought.now patterns) }
    ensures served { IfOk result (λ patterns. AreDepartures timetable.now sought.now patterns) }
{
    let trips = boarded_trips(alloc, timetable, sought)?;
    Patterns::build(alloc, timetable, sought.span(), &trips)
}

/// Where one of these runs departs that is boarded so, from the stop, which is at this position.
pub fn departure_at(
    timetable: &Timetable,
    stop: StopId,
    position: u32,
    runs: &[Run],
    boarding: &Boarding,
) -> Departure
    requires inside { boarding.now.run < length runs.now }
    requires trips { All (λ (r : Run). r.trip.0 < length timetable.now.trips) runs.now }
    ensures { result ≡ departure_at timetable.now stop position runs.now boarding.now }
{
    let run = &runs[boarding.run as usize];
    Departure {
        trip: run.trip,
        day: run.day,
        shift: run.shift,
        network: timetable.network(run.trip),
        from: position,
        stop,
        at: boarding.at,
    }
}

/// How many of the boardings are early enough at the stop.
pub fn first_late(boardings: &[Boarding], lasts: &Cutoff, stop: StopId) -> usize
    requires { AreInOrder boardings.now }
    ensures { AreLateFrom boardings.now (cutoff_of lasts.now) stop.0 result }
{
    boardings.partition_point(|boarding| is_early(lasts, stop, boarding.at))
}
