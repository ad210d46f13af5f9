//! The line of a ride.
ghost use Rattle.std.specs.Prelude.{◌≡◌, ◌<◌, length, IfOk};
ghost use Rattle.plain_laws.specs.Plain.{when};
ghost use Rattle.feed_rows.specs.EntryText.{start_text, ride_line};
ghost use Rattle.ticket_explain.specs.Fields.{field_text};
ghost use Rattle.ticket_explain.specs.LineParts.{ride_between};

use crate::field::{Field, start_time};
use crate::line::Line;
use crate::lookups::{call_at, item_at, stop_id};
use feed_rows::{Call, Ride, RideFacts};
use feed_timetable::Timetable;
use std::alloc::AllocError;

// When a ride's run departs from its first stop, or that its trip has no frequency rows.
fn start_of<'f>(timetable: &Timetable<'f>, ride: Ride) -> Field<'f>
    requires { ride.trip.0 < length timetable.now.trips }
    ensures { field_text result ≡ start_text timetable.now ride }
{
    if !timetable.has_frequencies(ride.trip) {
        return Field::Text(b"-");
    }
    start_time(ride.shift, timetable.first_departure(ride.trip))
}

// Writes the line of a ride between two calls of its trip; whether the feed has the stops.
#[tactic(auto, unfolding(crate::specs::LineParts::ride_between, crate::specs::LineParts::whole_ride))]
fn write_ride_between<'f>(
    timetable: &Timetable<'f>,
    line: &mut Line,
    ride: Ride,
    facts: RideFacts,
    trip: &'f [u8],
    boarding: Call,
    alighting: Call,
) -> Result<bool, AllocError>
    requires { ride.trip.0 < length timetable.now.trips }
    ensures { IfOk result (λ written. when written line.new ≡ ride_between timetable.now ride facts trip.now boarding alighting) }
{
    let feed = timetable.feed();
    let Some(from) = stop_id(feed, facts.from) else {
        return Ok(false);
    };
    let Some(to) = stop_id(feed, facts.to) else {
        return Ok(false);
    };
    let fields = [
        Field::Text(trip),
        Field::Date(ride.day),
        start_of(timetable, ride),
        Field::Number(u64::from(boarding.sequence)),
        Field::Number(u64::from(alighting.sequence)),
        Field::Text(from),
        Field::Moment(facts.departure),
        Field::Text(to),
        Field::Moment(facts.arrival),
    ];
    line.write(b"ride", &fields)?;
    Ok(true)
}

/// Writes the line of a ride with these facts; whether the feed has what it says.
///
/// # Errors
/// Want of memory.
pub fn write_ride(
    timetable: &Timetable,
    line: &mut Line,
    ride: Ride,
    facts: RideFacts,
) -> Result<bool, AllocError>
    ensures { IfOk result (λ written. when written line.new ≡ ride_line timetable.now ride facts) }
{
    let feed = timetable.feed();
    let Some(row) = item_at(&feed.trips, ride.trip.0 as usize) else {
        return Ok(false);
    };
    let Some(boarding) = call_at(timetable, ride.trip, ride.from) else {
        return Ok(false);
    };
    let Some(alighting) = call_at(timetable, ride.trip, ride.to) else {
        return Ok(false);
    };
    let trip = row.id.bytes();
    write_ride_between(timetable, line, ride, facts, trip, boarding, alighting)
}
