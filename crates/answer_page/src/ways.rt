//! The way of a journey on the page: as a line through time, and as a list.
ghost use Rattle.std.specs.Prelude.{◌≡◌, ◌++◌, OnOk};
ghost use Rattle.std.specs.Option.{option_copied};
ghost use Rattle.answer_page.specs.Ways.{departure_of, leave_at, end_of, ride_bar_html, walk_bar_html, bar_html, bars_html, walk_html, wait_html, ride_html, step_html, way_html};
ghost use Rattle.answer_page.specs.Threads.{threaded};

use crate::answer::{Entry, Ride, Step, Walk};
use crate::markup::{
    BAR_END, BAR_START, RIDE_BAR, RIDE_END, RIDE_FROM, RIDE_START, STAY, WAIT, WALK, WALK_BAR,
    WAY_END,
};
use crate::names::Names;
use crate::page::{Page, Value, text};
use crate::scale::Scale;
use crate::stamps::write_time;
use std::alloc::AllocError;

// When a ride departs, and without one the moment at the end.
fn departure_of(step: Option<&Step<'_>>, end: i64) -> i64
    ensures { result ≡ departure_of (option_copied step.entry) end }
{
    match step {
        Some(Step::Ride(ride)) => ride.departure.at,
        _ => end,
    }
}

/// When one leaves: with the first ride, or so early that a walk before it ends in time; without a ride, so that the way ends at
/// the arrival.
#[tactic(auto, unfolding(crate::specs::Ways::leave_at))]
pub fn leave_at(entry: &Entry<'_>) -> i64
    ensures { result ≡ leave_at entry.now }
{
    let steps = entry.steps.items();
    let end = entry.head.arrival.at;
    match steps.get(0) {
        Some(Step::Walk(walk)) => departure_of(steps.get(1), end).saturating_sub(walk.seconds),
        first => departure_of(first, end),
    }
}

// When a part of the way ends that begins at this moment.
fn end_of(at: i64, step: &Step<'_>) -> i64
    ensures { result ≡ end_of at step.now }
{
    match step {
        Step::Stay(_) => at,
        Step::Walk(walk) => at.saturating_add(walk.seconds),
        Step::Ride(ride) => ride.arrival.at,
    }
}

// Adds a ride to the line through time.
fn write_ride_bar<'v>(
    page: &mut Page,
    names: &'v Names,
    times: Scale,
    ride: &'v Ride<'v>,
) -> Result<(), AllocError>
    ensures { OnOk result (page.new ≡ page.old ++ ride_bar_html names.now times ride.now) }
{
    let trip = ride.trip.bytes();
    page.fill(
        RIDE_BAR,
        &[
            Value::Share(times.share(ride.departure.at)),
            Value::Share(times.width(ride.departure.at, ride.arrival.at)),
            text(names.colour(trip)),
            text(names.line(trip)),
        ],
    )
}

// Adds a walk to the line through time.
fn write_walk_bar(page: &mut Page, times: Scale, at: i64, walk: &Walk<'_>) -> Result<(), AllocError>
    ensures { OnOk result (page.new ≡ page.old ++ walk_bar_html times at walk.now) }
{
    page.fill(
        WALK_BAR,
        &[
            Value::Share(times.share(at)),
            Value::Share(times.share(at.saturating_add(walk.seconds))),
        ],
    )
}

// Adds a part of the line through time.
fn write_bar(
    page: &mut Page,
    names: &Names,
    times: Scale,
    at: i64,
    step: &Step<'_>,
) -> Result<(), AllocError>
    ensures { OnOk result (page.new ≡ page.old ++ bar_html names.now times at step.now) }
{
    match step {
        Step::Stay(_) => Ok(()),
        Step::Walk(walk) => write_walk_bar(page, times, at, walk),
        Step::Ride(ride) => write_ride_bar(page, names, times, ride),
    }
}

// Adds the parts of the line through time, from this moment on.
fn write_parts(
    page: &mut Page,
    names: &Names,
    times: Scale,
    leave: i64,
    steps: &[Step<'_>],
) -> Result<(), AllocError>
    ensures { OnOk result (page.new ≡ page.old ++ threaded (bar_html names.now times) end_of leave steps.now) }
{
    let mut at = leave;
    for step in steps {
        write_bar(page, names, times, at, step)?;
        at = end_of(at, step);
    }
    Ok(())
}

/// Adds the line through time of the journey of this number, and begins its way.
#[tactic(auto, unfolding(crate::specs::Ways::bars_html))]
pub fn write_bars(
    page: &mut Page,
    names: &Names,
    times: Scale,
    number: u64,
    entry: &Entry<'_>,
) -> Result<(), AllocError>
    ensures { OnOk result (page.new ≡ page.old ++ bars_html names.now times number entry.now) }
{
    let leave = leave_at(entry);
    page.fill(
        BAR_START,
        &[
            Value::Number(number),
            Value::Share(times.share(leave)),
            Value::Share(times.share(entry.head.arrival.at)),
        ],
    )?;
    write_parts(page, names, times, leave, entry.steps.items())?;
    page.fill(BAR_END, &[])
}

// Adds a walk.
fn write_walk<'v>(page: &mut Page, names: &'v Names, walk: &'v Walk<'v>) -> Result<(), AllocError>
    ensures { OnOk result (page.new ≡ page.old ++ walk_html names.now walk.now) }
{
    let seconds = walk.seconds.unsigned_abs();
    page.fill(
        WALK,
        &[
            Value::Number(seconds / 60),
            Value::Number(seconds % 60),
            Value::Number(seconds % 60),
            text(names.stop(walk.from.bytes())),
            text(names.stop(walk.to.bytes())),
        ],
    )
}

// Adds the time that one waits, where there is any.
fn write_wait(page: &mut Page, from: i64, to: i64) -> Result<(), AllocError>
    ensures { OnOk result (page.new ≡ page.old ++ wait_html from to) }
{
    if to <= from {
        return Ok(());
    }
    let seconds = to.abs_diff(from);
    page.fill(
        WAIT,
        &[
            Value::Number(seconds / 60),
            Value::Number(seconds % 60),
            Value::Number(seconds % 60),
        ],
    )
}

// Adds a ride.
#[tactic(auto, unfolding(crate::specs::Ways::ride_html))]
fn write_ride<'v>(
    page: &mut Page,
    names: &'v Names,
    date: &[u8],
    ride: &'v Ride<'v>,
) -> Result<(), AllocError>
    ensures { OnOk result (page.new ≡ page.old ++ ride_html names.now date.now ride.now) }
{
    let trip = ride.trip.bytes();
    page.fill(
        RIDE_START,
        &[text(names.colour(trip)), text(names.line(trip))],
    )?;
    write_time(page, &ride.departure, date)?;
    page.fill(RIDE_FROM, &[text(names.stop(ride.from.bytes()))])?;
    write_time(page, &ride.arrival, date)?;
    page.fill(RIDE_END, &[text(names.stop(ride.to.bytes())), text(trip)])
}

// Adds a part of the way, which begins at this moment, and what one waits before it.
fn write_step<'v>(
    page: &mut Page,
    names: &'v Names,
    date: &[u8],
    at: i64,
    step: &'v Step<'v>,
) -> Result<(), AllocError>
    ensures { OnOk result (page.new ≡ page.old ++ step_html names.now date.now at step.now) }
{
    match step {
        Step::Stay(stop) => page.fill(STAY, &[text(names.stop(stop.bytes()))]),
        Step::Walk(walk) => write_walk(page, names, walk),
        Step::Ride(ride) => {
            write_wait(page, at, ride.departure.at)?;
            write_ride(page, names, date, ride)
        }
    }
}

// Adds the parts of the way, from this moment on.
fn write_steps(
    page: &mut Page,
    names: &Names,
    date: &[u8],
    leave: i64,
    steps: &[Step<'_>],
) -> Result<(), AllocError>
    ensures { OnOk result (page.new ≡ page.old ++ threaded (step_html names.now date.now) end_of leave steps.now) }
{
    let mut at = leave;
    for step in steps {
        write_step(page, names, date, at, step)?;
        at = end_of(at, step);
    }
    Ok(())
}

/// Adds the way.
#[tactic(auto, unfolding(crate::specs::Ways::way_html))]
pub fn write_way(
    page: &mut Page,
    names: &Names,
    date: &[u8],
    entry: &Entry<'_>,
) -> Result<(), AllocError>
    ensures { OnOk result (page.new ≡ page.old ++ way_html names.now date.now entry.now) }
{
    write_steps(page, names, date, leave_at(entry), entry.steps.items())?;
    page.fill(WAY_END, &[])
}
