//! The runs that have a ride within a span.
ghost use Rattle.std.specs.Prelude.{◌≡◌, ◌<◌, ◌≤ℤ◌, ◌+ℤ◌, ◌++◌, pos, negsuc, length, true, IfOk, OnOk};
ghost use Rattle.feed_rows.specs.SoundFeed.{IsSoundFeed};
ghost use Rattle.feed_rows.specs.Shifts.{shifts_of};
ghost use Rattle.feed_timetable.specs.Standings.{AreShifts};
ghost use Rattle.feed_rows.specs.Rides.{runs_on};
ghost use Rattle.plan_patterns.specs.HeldRuns.{IsDayNear, active_days, days_of, ends_before, first_day, has_ended, held_among, held_of_trip, held_on_day, day_after_first, run_with};
ghost use Rattle.plan_patterns.specs.Runs.{AreHeld, AreTimed, AreTripsOf, IsNear};
ghost use Rattle.plan_patterns.specs.Spans.{IsUsualSpan};

use crate::runs::{Run, has_ride};
use crate::span::Span;
use feed_timetable::{Calls, Timetable};
use item_groups::Groups;
use std::alloc::{AllocError, Global};
use transit_base::{DAY_SECONDS, Day, TripId};

/// The days before the civil day on which a span begins on which a ride may run that is still under way: a time of a
/// service day is at most 167:59:59, and a run may start as late again.
const DAYS_BEFORE: i64 = 13;

// The run of a trip on a day with the shift at a place.
fn run_with(trip: TripId, day: Day, shifts: &[i64], place: usize) -> Run
    requires day { IsDayNear day }
    requires bounds { AreShifts shifts.now }
    requires inside { place < length shifts.now }
    ensures value { result ≡ run_with trip day shifts.now place }
    ensures near { IsNear result }
{
    Run {
        trip,
        day,
        shift: shifts[place],
    }
}

// Whether the run, of a trip with these calls, arrives at the last of them before the span begins.
fn ends_before(span: &Span, run: &Run, calls: &Calls) -> bool
    requires near { IsNear run.now }
    requires times { AreTimed calls.now }
    requires some { 0 < length calls.now }
    ensures { result ≡ ends_before span.now run.now calls.now }
{
    let last = calls.at(calls.len() - 1);
    run.moment(last.arrival).0 < span.from.0
}

// Whether all runs of a trip with these calls on a day have ended before the span begins, as on most days they have.
// They have where the last of them has.
fn has_ended(span: &Span, trip: TripId, day: Day, shifts: &[i64], calls: &Calls) -> bool
    requires day { IsDayNear day }
    requires bounds { AreShifts shifts.now }
    requires times { AreTimed calls.now }
    ensures { result ≡ has_ended span.now trip day shifts.now calls.now }
{
    if shifts.is_empty() || calls.is_empty() {
        return false;
    }
    let run = run_with(trip, day, shifts, shifts.len() - 1);
    ends_before(span, &run, calls)
}

// Appends those of the runs of a trip with these calls on a day that have a ride within the span.
fn add_held(
    span: &Span,
    trip: TripId,
    day: Day,
    shifts: &[i64],
    calls: &Calls,
    runs: &mut Vec<Run>,
) -> Result<(), AllocError>
    requires day { IsDayNear day }
    requires bounds { AreShifts shifts.now }
    requires times { AreTimed calls.now }
    ensures { OnOk result (runs.new.items ≡ runs.old.items ++ held_among span.now trip day shifts.now calls.now (length shifts.now)) }
{
    for place in 0..shifts.len() {
        let run = run_with(trip, day, shifts, place);
        if has_ride(span, &run, calls) {
            runs.push(run)?;
        }
    }
    Ok(())
}

// Appends the runs of a trip on a day on which it runs that have a ride within the span.
fn add_day(
    timetable: &Timetable,
    span: &Span,
    trip: TripId,
    day: Day,
    shifts: &[i64],
    runs: &mut Vec<Run>,
) -> Result<(), AllocError>
    requires sound { IsSoundFeed timetable.now }
    requires inside { trip.0 < length timetable.now.trips }
    requires day { IsDayNear day }
    requires runs { runs_on timetable.now trip day.0 ≡ true }
    requires shifts { shifts.now ≡ shifts_of timetable.now trip }
    requires bounds { AreShifts shifts.now }
    ensures { OnOk result (runs.new.items ≡ runs.old.items ++ held_on_day timetable.now span.now trip day) }
{
    let calls = timetable.calls_of(trip);
    if has_ended(span, trip, day, shifts, &calls) {
        return Ok(());
    }
    add_held(span, trip, day, shifts, &calls, runs)
}

// The first day on which a run may have a ride within the span.
fn first_day(span: &Span) -> Day
    requires { IsUsualSpan span.now }
    ensures value { result.0 ≡ first_day span.now }
    ensures low { negsuc 30_000 ≤ℤ result.0 }
    ensures high { result.0 ≤ℤ pos 400_000 }
{
    Day(span.from.day().0 - DAYS_BEFORE)
}

// How many days from the first one on are looked at: more than enough.
fn days_of(span: &Span) -> u32
    requires { IsUsualSpan span.now }
    ensures value { result ≡ days_of span.now }
    ensures few { result < 20 }
{
    span.seconds() / DAY_SECONDS + 15
}

// So many days after the first.
fn day_after(first: Day, days: u32) -> Day
    requires low { negsuc 30_000 ≤ℤ first.0 }
    requires high { first.0 ≤ℤ pos 400_000 }
    requires few { days < 20 }
    ensures value { result ≡ day_after_first first.0 days }
    ensures near { IsDayNear result }
{
    Day(first.0 + i64::from(days))
}

// Whether each service is active, on each day that is looked at: asked once for all trips.
fn active_days(
    alloc: Global,
    timetable: &Timetable,
    span: &Span,
) -> Result<Groups<bool>, AllocError>
    requires { IsUsualSpan span.now }
    ensures { IfOk result (λ active. active ≡ active_days timetable.now span.now) }
{
    let first = first_day(span);
    let mut active = Groups::empty(alloc);
    for days in 0..days_of(span) {
        let own = timetable.services_on(alloc, day_after(first, days))?;
        active.push(&own)?;
    }
    Ok(active)
}

// Appends the runs of a trip that have a ride within the span.
fn add_trip(
    alloc: Global,
    timetable: &Timetable,
    span: &Span,
    active: &Groups<bool>,
    trip: TripId,
    runs: &mut Vec<Run>,
) -> Result<(), AllocError>
    requires sound { IsSoundFeed timetable.now }
    requires usual { IsUsualSpan span.now }
    requires active { active.now ≡ active_days timetable.now span.now }
    requires inside { trip.0 < length timetable.now.trips }
    ensures { OnOk result (runs.new.items ≡ runs.old.items ++ held_of_trip timetable.now span.now trip) }
{
    let shifts = timetable.shifts_of(alloc, trip)?;
    let first = first_day(span);
    for days in 0..days_of(span) {
        if timetable.runs_with(active.get(days as usize), trip) {
            let day = day_after(first, days);
            add_day(timetable, span, trip, day, shifts.items(), runs)?;
        }
    }
    Ok(())
}

/// The runs of these trips that have a ride within the span, trip by trip as they are given, by day and shift.
///
/// # Errors
/// Want of memory.
pub fn held_runs(
    alloc: Global,
    timetable: &Timetable,
    span: &Span,
    trips: &[TripId],
) -> Result<Vec<Run>, AllocError>
    requires usual { IsUsualSpan span.now }
    requires trips { AreTripsOf timetable.now trips.now }
    ensures { IfOk result (λ runs. AreHeld timetable.now span.now trips.now runs.items) }
{
    let _feed = timetable.feed();
    let active = active_days(alloc, timetable, span)?;
    let mut runs = Vec::new(alloc);
    for place in 0..trips.len() {
        add_trip(alloc, timetable, span, &active, trips[place], &mut runs)?;
    }
    Ok(runs)
}
