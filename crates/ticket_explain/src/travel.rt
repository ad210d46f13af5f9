//! The lines of a journey's walks and rides, in order of travel.
ghost use Rattle.std.specs.Prelude.{◌≡◌, ◌++◌, IfOk, OnOk, option_map};
ghost use Rattle.plain_laws.specs.Plain.{when};
ghost use Rattle.feed_rows.specs.EntryText.{stay_line, walk_line, walk_lines, ride_lines, last_lines, travel_lines};
ghost use Rattle.ticket_explain.specs.LineParts.{if_written, walk_part, ride_part};

use crate::field::Field;
use crate::line::Line;
use crate::lookups::{facts_at, item_at, stop_before, stop_id};
use crate::rides::write_ride;
use crate::text::Text;
use feed_rows::{Journey, Ride, RideFacts};
use feed_timetable::Timetable;
use std::alloc::AllocError;
use transit_base::StopId;

/// Adds the line, where it is written.
///
/// # Errors
/// Want of memory.
pub fn push_if(text: &mut Text, line: &Line, written: bool) -> Result<(), AllocError>
    ensures { OnOk result (text.new ≡ text.old ++ if_written written line.now) }
{
    if written {
        text.push(line.bytes())?;
    }
    Ok(())
}

// Writes the line of a walk from one stop to another, if there is one; whether there is.
#[tactic(auto, unfolding(feed_rows::specs::EntryText::walk_line))]
fn write_walk(
    timetable: &Timetable,
    line: &mut Line,
    from: StopId,
    to: StopId,
) -> Result<bool, AllocError>
    ensures { IfOk result (λ written. when written line.new ≡ walk_line timetable.now from to) }
{
    let feed = timetable.feed();
    let Some(start) = stop_id(feed, from) else {
        return Ok(false);
    };
    let Some(end) = stop_id(feed, to) else {
        return Ok(false);
    };
    let Some(seconds) = timetable.link(from, to) else {
        return Ok(false);
    };
    let seconds = Field::Number(u64::from(seconds.0));
    line.write(b"walk", &[Field::Text(start), Field::Text(end), seconds])?;
    Ok(true)
}

// Adds the line of a walk, where the two stops differ and there is one.
fn push_walk(
    timetable: &Timetable,
    text: &mut Text,
    line: &mut Line,
    from: StopId,
    to: StopId,
) -> Result<(), AllocError>
    ensures { OnOk result (text.new ≡ text.old ++ walk_lines timetable.now from to) }
{
    if from.0 == to.0 {
        return Ok(());
    }
    let written = write_walk(timetable, line, from, to)?;
    push_if(text, line, written)
}

// Adds the line of the walk from where the traveller stands.
#[tactic(auto, unfolding(crate::specs::LineParts::walk_part))]
fn push_walk_from(
    timetable: &Timetable,
    text: &mut Text,
    line: &mut Line,
    from: Option<StopId>,
    to: StopId,
) -> Result<(), AllocError>
    ensures { OnOk result (text.new ≡ text.old ++ walk_part timetable.now from to) }
{
    match from {
        Some(stop) => push_walk(timetable, text, line, stop, to),
        None => Ok(()),
    }
}

// Writes the line of a journey that stays; whether the feed has the stop.
fn write_stay(timetable: &Timetable, line: &mut Line, stop: StopId) -> Result<bool, AllocError>
    ensures { IfOk result (λ written. when written line.new ≡ stay_line timetable.now stop) }
{
    let Some(id) = stop_id(timetable.feed(), stop) else {
        return Ok(false);
    };
    line.write(b"stay", &[Field::Text(id)])?;
    Ok(true)
}

// Adds the line of a ride with these facts.
#[tactic(auto, unfolding(crate::specs::LineParts::ride_part))]
fn push_ride(
    timetable: &Timetable,
    text: &mut Text,
    line: &mut Line,
    ride: Option<&Ride>,
    facts: RideFacts,
) -> Result<(), AllocError>
    ensures { OnOk result (text.new ≡ text.old ++ ride_part timetable.now facts (option_map (λ r. r.now) ride.entry)) }
{
    match ride {
        Some(ride) => {
            let written = write_ride(timetable, line, *ride, facts)?;
            push_if(text, line, written)
        }
        None => Ok(()),
    }
}

// Adds the lines of the ride at a place: the walk to it, if there is one, and the ride.
#[tactic(auto, unfolding(feed_rows::specs::EntryText::ride_lines, crate::specs::LineParts::walk_part, crate::specs::LineParts::ride_part))]
fn push_ride_lines(
    timetable: &Timetable,
    text: &mut Text,
    line: &mut Line,
    journey: &Journey,
    place: usize,
) -> Result<(), AllocError>
    ensures { OnOk result (text.new ≡ text.old ++ ride_lines timetable.now journey.now place) }
{
    let Some(facts) = facts_at(timetable, &journey.rides, place) else {
        return Ok(());
    };
    let before = stop_before(timetable, journey, place);
    push_walk_from(timetable, text, line, before, facts.from)?;
    push_ride(timetable, text, line, item_at(&journey.rides, place), facts)
}

// Adds the last line of a journey without rides.
fn push_direct_lines(
    timetable: &Timetable,
    text: &mut Text,
    line: &mut Line,
    journey: &Journey,
) -> Result<(), AllocError>
    ensures { OnOk result (text.new ≡ text.old ++ last_lines timetable.now journey.now 0) }
{
    if journey.first.0 != journey.last.0 {
        return push_walk(timetable, text, line, journey.first, journey.last);
    }
    let written = write_stay(timetable, line, journey.first)?;
    push_if(text, line, written)
}

// Adds the last lines of a journey with so many rides.
#[tactic(auto, using(crate::proofs::PartLaws::after_rides))]
fn push_last_lines(
    timetable: &Timetable,
    text: &mut Text,
    line: &mut Line,
    journey: &Journey,
    rides: usize,
) -> Result<(), AllocError>
    ensures { OnOk result (text.new ≡ text.old ++ last_lines timetable.now journey.now rides) }
{
    if rides == 0 {
        return push_direct_lines(timetable, text, line, journey);
    }
    match facts_at(timetable, &journey.rides, rides - 1) {
        Some(facts) => push_walk(timetable, text, line, facts.to, journey.last),
        None => Ok(()),
    }
}

/// Adds the lines of a journey's walks and rides.
///
/// # Errors
/// Want of memory.
#[tactic(auto, unfolding(feed_rows::specs::EntryText::travel_lines))]
pub fn push_travel_lines(
    timetable: &Timetable,
    text: &mut Text,
    line: &mut Line,
    journey: &Journey,
) -> Result<(), AllocError>
    ensures { OnOk result (text.new ≡ text.old ++ travel_lines timetable.now journey.now) }
{
    let rides = journey.rides.items().len();
    for place in 0..rides {
        push_ride_lines(timetable, text, line, journey, place)?;
    }
    push_last_lines(timetable, text, line, journey, rides)
}
