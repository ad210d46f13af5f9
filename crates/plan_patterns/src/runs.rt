//! The runs of trips, and whether a ride by one lies within a span.
ghost use Rattle.std.specs.Prelude.{◌≡◌, ◌<◌, ◌≤◌, ◌&&◌, ◌||◌, length};
ghost use Rattle.plain_laws.specs.Plain.{at_and};
ghost use Rattle.plan_patterns.specs.Runs.{AreTimed, IsNear, boards_in_time, alights_in_time, has_ride, moment_of};
ghost use Rattle.transit_base.specs.Limits.{most_time};

use crate::span::Span;
use feed_rows::Call;
use feed_timetable::Calls;
use transit_base::{Day, Moment, TripId};

/// A trip on a day on which it runs, with the shift of one of its runs.
#[derive(Clone, Copy)]
pub struct Run {
    pub trip: TripId,
    /// The service day.
    pub day: Day,
    /// The seconds by which the run is later than the trip's stop times say.
    pub shift: i64,
}

impl Run {
    /// The moment that is so many seconds of its day, shifted as the run is.
    pub fn moment(&self, seconds: u32) -> Moment
        requires near { IsNear self.now }
        requires time { seconds ≤ most_time }
        ensures { result.0 ≡ moment_of self.now seconds }
    {
        Moment::at(self.day, self.shift + i64::from(seconds))
    }
}

// Whether riders may board the run at the call, no earlier than the span begins.
#[tactic(auto, unfolding(crate::specs::Runs::boards_in_time))]
fn boards_in_time(span: &Span, run: &Run, call: &Call) -> bool
    requires near { IsNear run.now }
    requires time { call.now.departure ≤ most_time }
    ensures { result ≡ boards_in_time span.now run.now call.now }
{
    call.pickup && span.from.0 <= run.moment(call.departure).0
}

// Whether riders may alight from the run at the call, no later than the span ends.
#[tactic(auto, unfolding(crate::specs::Runs::alights_in_time))]
fn alights_in_time(span: &Span, run: &Run, call: &Call) -> bool
    requires near { IsNear run.now }
    requires time { call.now.arrival ≤ most_time }
    ensures { result ≡ alights_in_time span.now run.now call.now }
{
    call.drop_off && run.moment(call.arrival).0 <= span.until.0
}

// Whether riders may have boarded the run in time up to this one of its calls, where it is known whether before it.
fn is_boarded_by(boarded: bool, span: &Span, run: &Run, calls: &Calls, at: usize) -> bool
    requires near { IsNear run.now }
    requires times { AreTimed calls.now }
    requires inside { at < length calls.now }
    ensures { result ≡ (boarded || at_and calls.now at (boards_in_time span.now run.now)) }
{
    boarded || boards_in_time(span, run, &calls.at(at))
}

// Whether riders who boarded the run in time, if any, may alight in time at this one of its calls.
fn ends_at(boarded: bool, span: &Span, run: &Run, calls: &Calls, at: usize) -> bool
    requires near { IsNear run.now }
    requires times { AreTimed calls.now }
    requires inside { at < length calls.now }
    ensures { result ≡ (boarded && at_and calls.now at (alights_in_time span.now run.now)) }
{
    boarded && alights_in_time(span, run, &calls.at(at))
}

/// Whether the run, of a trip with these calls, has a ride within the span.
pub fn has_ride(span: &Span, run: &Run, calls: &Calls) -> bool
    requires near { IsNear run.now }
    requires times { AreTimed calls.now }
    ensures { result ≡ has_ride span.now run.now calls.now }
{
    let mut boarded = false;
    for at in 0..calls.len() {
        if ends_at(boarded, span, run, calls, at) {
            return true;
        }
        boarded = is_boarded_by(boarded, span, run, calls, at);
    }
    false
}
