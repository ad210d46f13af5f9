//! Where and when patterns serve stops: the moments of the first and of the last departure from each position since the
//! span begins, which tell without a look into the pattern whether one can be caught there.
ghost use Rattle.std.specs.Prelude.{◌≡◌, ◌<◌, IfOk, OnOk, length};
ghost use Rattle.feed_rows.specs.SoundFeed.{IsSoundFeed};
ghost use Rattle.plan_rides.specs.Cutoffs.{cutoff_of};
ghost use Rattle.plan_rides.specs.Departures.{AreDepartures, Serves};
ghost use Rattle.plan_rides.specs.Served.{AddsTimed, AreTimed, AreTimedStops, is_open};

use crate::cutoffs::{Cutoff, is_early};
use crate::sought::Sought;
use feed_timetable::Timetable;
use item_groups::Groups;
use plan_patterns::{Patterns, Serving, Span};
use std::alloc::{AllocError, Global};
use transit_base::{Moment, StopId};

/// A position of a pattern at which riders may board, and when the first and the last of its runs depart from there, of
/// those that do so no earlier than the span begins.
#[derive(Clone, Copy)]
pub struct TimedServing {
    pub serving: Serving,
    pub first: Moment,
    pub last: Moment,
}

impl TimedServing {
    /// Whether a run may depart there at the moment or later, and early enough at the stop.
    pub fn is_open(&self, from: Moment, lasts: &Cutoff, stop: StopId) -> bool
        ensures { result ≡ is_open self.now from.0 (cutoff_of lasts.now) stop.0 }
    {
        from.0 <= self.last.0 && is_early(lasts, stop, self.first)
    }
}

// Appends the position with its moments; nothing where no run departs since the span begins.
fn add_serving(
    patterns: &Patterns,
    span: &Span,
    stop: StopId,
    serving: &Serving,
    served: &mut Vec<TimedServing>,
) -> Result<(), AllocError>
    requires { Serves patterns.now.feed patterns.now.patterns stop.0 serving.now }
    ensures { OnOk result (AddsTimed patterns.now.feed span.now patterns.now.patterns stop.0 serving.now served.old.items served.new.items) }
{
    let boardings = patterns.boardable(serving.pattern, serving.position, span.from);
    if boardings.is_empty() {
        return Ok(());
    }
    served.push(TimedServing {
        serving: *serving,
        first: boardings[0].at,
        last: boardings[boardings.len() - 1].at,
    })?;
    Ok(())
}

// Replaces what `served` holds by the positions at the stop from which a run departs since the span begins.
fn serve_stop(
    patterns: &Patterns,
    sought: &Sought,
    stop: StopId,
    served: &mut Vec<TimedServing>,
) -> Result<(), AllocError>
    requires departures { AreDepartures patterns.now.feed sought.now patterns.now }
    requires inside { stop.0 < length patterns.now.feed.stops }
    ensures { OnOk result (AreTimed patterns.now.feed sought.now patterns.now.patterns stop.0 served.new.items) }
{
    served.clear();
    let span = sought.span();
    let servings = patterns.serving(stop);
    for k in 0..servings.len() {
        add_serving(patterns, span, stop, &servings[k], served)?;
    }
    Ok(())
}

/// Those of all stops.
///
/// # Errors
/// Want of memory; so counts that there would be 2^32 of them or more.
pub fn served_stops<'f>(
    alloc: Global,
    timetable: &Timetable<'f>,
    patterns: &Patterns<'f>,
    sought: &Sought,
) -> Result<Groups<TimedServing>, AllocError>
    requires { AreDepartures timetable.now sought.now patterns.now }
    ensures sound { IsSoundFeed timetable.now }
    ensures served { IfOk result (λ by_stop. AreTimedStops timetable.now sought.now patterns.now by_stop) }
{
    let stops = timetable.feed().stops.items().len();
    let mut by_stop = Groups::empty(alloc);
    let mut served = Vec::new(alloc);
    for stop in 0..stops {
        serve_stop(patterns, sought, StopId(stop as u32), &mut served)?;
        by_stop.push(&served)?;
    }
    Ok(by_stop)
}
