//! The least seconds from where a ride boards to a journey's end: trip by trip, from the last call of each.
ghost use Rattle.std.specs.Prelude.{◌≡◌, ◌<◌, ◌≤◌, ◌-ℤ◌, ℕ, ℤ, pos, length, All, true, false};
ghost use Rattle.plan_patterns.specs.Grouping.{runs_at};
ghost use Rattle.plan_rides.specs.Cutoffs.{is_enough};
ghost use Rattle.plan_rides.specs.Departures.{IsRunOf};
ghost use Rattle.plan_rides.specs.Spans.{AddsBoards, FollowsOwn, IsOfPatterns, IsOfRuns, IsOfTrip, PutsBoard, is_end_by};

use crate::spans::{shorter, span_of};
use feed_rows::Call;
use feed_timetable::Timetable;
use plan_patterns::{Patterns, Run};
use transit_base::{Secs, TripId};

// When a journey that alights at the call ends at the soonest, in seconds of the trip's day; none where riders may not
// alight there, or no journey ends in time.
fn end_at(spans: &[Option<Secs>], call: &Call) -> Option<u64>
    requires { call.now.stop.0 < length spans.now }
    ensures { (until : ℤ) → call.now.drop_off ≡ true → is_enough spans.now call.now.stop.0 (until -ℤ pos call.now.arrival) ≡ true → is_end_by result until ≡ true }
{
    if !call.drop_off {
        return None;
    }
    let span = spans[call.stop.0 as usize]?;
    Some(u64::from(call.arrival) + u64::from(span.0))
}

// The sooner of the two.
fn sooner(one: Option<u64>, other: Option<u64>) -> Option<u64>
    ensures one { (until : ℤ) → is_end_by one until ≡ true → is_end_by result until ≡ true }
    ensures other { (until : ℤ) → is_end_by other until ≡ true → is_end_by result until ≡ true }
{
    match (one, other) {
        (Some(a), Some(b)) => Some(a.min(b)),
        (Some(_), None) => one,
        (None, _) => other,
    }
}

// Has the span at the call's stop be at most the seconds from there until then, where riders may board.
fn put_board(window: u32, end: Option<u64>, call: &Call, boards: &mut [Option<Secs>])
    requires { call.now.stop.0 < length boards.old }
    ensures { PutsBoard window end call.now boards.old boards.new }
{
    if !call.pickup {
        return;
    }
    let Some(end) = end else {
        return;
    };
    let stop = call.stop.0 as usize;
    let span = span_of(window, end.saturating_sub(u64::from(call.departure)));
    boards[stop] = shorter(boards[stop], span);
}

// Has the spans be at most those of the trip's rides.
fn add_trip(
    timetable: &Timetable,
    window: u32,
    spans: &[Option<Secs>],
    trip: TripId,
    boards: &mut [Option<Secs>],
)
    requires trip { trip.0 < length timetable.now.trips }
    requires spans { length spans.now ≡ length timetable.now.stops }
    requires boards { length boards.old ≡ length timetable.now.stops }
    ensures { AddsBoards timetable.now window spans.now (IsOfTrip trip) boards.old boards.new }
{
    let _feed = timetable.feed();
    let calls = timetable.calls_of(trip);
    let mut end = None;
    for k in (0..calls.len()).rev() {
        let call = calls.at(k);
        put_board(window, end, &call, boards);
        end = sooner(end, end_at(spans, &call));
    }
}

// Whether the run at this place is not of the trip of the one before.
fn begins_trip(runs: &[Run], k: usize) -> bool
    requires { k < length runs.now }
    ensures { result ≡ false → FollowsOwn runs.now k }
{
    k == 0 || runs[k - 1].trip.0 != runs[k].trip.0
}

// The same of the trips of all these runs, each of whose runs stand together: it is looked at once.
fn add_runs(
    timetable: &Timetable,
    window: u32,
    spans: &[Option<Secs>],
    runs: &[Run],
    boards: &mut [Option<Secs>],
)
    requires runs { All (IsRunOf timetable.now) runs.now }
    requires spans { length spans.now ≡ length timetable.now.stops }
    requires boards { length boards.old ≡ length timetable.now.stops }
    ensures { AddsBoards timetable.now window spans.now (IsOfRuns runs.now (length runs.now)) boards.old boards.new }
{
    for k in 0..runs.len() {
        if begins_trip(runs, k) {
            add_trip(timetable, window, spans, runs[k].trip, boards);
        }
    }
}

/// Has the spans be at most those of the rides by runs of all patterns. Each call of a trip is looked at once.
pub fn add_patterns<'f>(
    timetable: &Timetable<'f>,
    patterns: &Patterns<'f>,
    window: u32,
    spans: &[Option<Secs>],
    boards: &mut [Option<Secs>],
)
    requires runs { (p : ℕ) → All (IsRunOf timetable.now) (runs_at patterns.now.patterns p) }
    requires spans { length spans.now ≡ length timetable.now.stops }
    requires boards { length boards.old ≡ length timetable.now.stops }
    ensures { AddsBoards timetable.now window spans.now (IsOfPatterns patterns.now.patterns (length patterns.now.patterns)) boards.old boards.new }
{
    for pattern in 0..patterns.count() {
        add_runs(timetable, window, spans, patterns.runs(pattern), boards);
    }
}
