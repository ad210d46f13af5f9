//! What a line tells, by its fields.
ghost use Rattle.std.specs.Prelude.{◌≡◌, ◌<◌, ◌≤◌, map, pos, IfOk, IfSome, length, option_map};
ghost use Rattle.transit_base.specs.Limits.{most_time};
ghost use Rattle.feed_rows.specs.Rides.{ride_facts};
ghost use Rattle.feed_rows.specs.RowsById.{find_trip};
ghost use Rattle.line_cuts.specs.Cuts.{field, fields_in};
ghost use Rattle.ticket_read.specs.Items.{number_in, row_in, day_in, shift_by, place_in, stop_in, run_of, ride_of, ride_item, walk_item, stay_item, leg_item, change_row, change_item, item_of};

use crate::drafts::Item;
use crate::journeys::facts_of;
use feed_rows::{ChangeChoice, LegChoice, Ride};
use feed_text::{day_of_parts, int_of, start_in};
use feed_timetable::Timetable;
use line_cuts::{field, fields_of};
use std::alloc::{AllocError, Global};
use transit_base::{Day, ProductRowId, RuleId, StopId, TripId, XferId};

// The number of a field, of 32 bits.
#[tactic(auto, unfolding(crate::specs::Items::number_in))]
fn number_in(text: &[u8]) -> Option<u32>
    ensures { result ≡ number_in text.now }
{
    let value = int_of(text, 0, 4_294_967_295)?;
    Some(value as u32)
}

// The number of a row, counted from 0, which its field counts from 1.
#[tactic(auto, unfolding(crate::specs::Items::row_in))]
fn row_in(text: &[u8]) -> Option<u32>
    ensures { result ≡ row_in text.now }
{
    let number = number_in(text)?;
    if number == 0 {
        return None;
    }
    Some(number - 1)
}

// The day of a date of the form YYYY-MM-DD.
#[tactic(auto, unfolding(crate::specs::Items::day_in))]
fn day_in(text: &[u8]) -> Option<Day>
    ensures { option_map (λ d. d.0) result ≡ day_in text.now }
{
    if text.len() != 10 {
        return None;
    }
    day_of_parts(&text[..4], &text[5..7], &text[8..10])
}

// The trip with this id.
#[tactic(auto, using(feed_laws::proofs::RowIdLaws::trip_within))]
fn trip_in(timetable: &Timetable, id: &[u8]) -> Option<TripId>
    ensures value { result ≡ find_trip timetable.now id.now }
    ensures within { IfSome result (λ trip. trip.0 < length timetable.now.trips) }
{
    timetable.find_trip(id)
}

// The shift of the run with this first departure.
#[tactic(auto, unfolding(crate::specs::Items::shift_by))]
fn shift_by(timetable: &Timetable, trip: TripId, start: Option<u32>) -> i64
    requires trip { trip.0 < length timetable.now.trips }
    requires start { IfSome start (λ s. s ≤ most_time) }
    ensures { result ≡ shift_by timetable.now trip start }
{
    match start {
        Some(start) => i64::from(start) - i64::from(timetable.first_departure(trip)),
        None => 0,
    }
}

// The place of the call that the field at a place names by its `stop_sequence`.
#[tactic(auto, unfolding(crate::specs::Items::place_in))]
fn place_in(timetable: &Timetable, fields: &[&[u8]], trip: TripId, place: usize) -> Option<u32>
    requires { trip.0 < length timetable.now.trips }
    ensures { result ≡ place_in timetable.now trip (field (map (λ text. text.now) fields.now) place) }
{
    let sequence = number_in(field(fields, place))?;
    timetable.call_position(trip, sequence)
}

// The ride of a trip that the fields behind its id name.
#[tactic(auto, unfolding(crate::specs::Items::run_of))]
fn run_of(timetable: &Timetable, fields: &[&[u8]], trip: TripId) -> Option<Ride>
    requires { trip.0 < length timetable.now.trips }
    ensures { result ≡ run_of timetable.now (map (λ text. text.now) fields.now) trip }
{
    let day = day_in(field(fields, 2))?;
    let start = start_in(field(fields, 3))?;
    let from = place_in(timetable, fields, trip, 4)?;
    let to = place_in(timetable, fields, trip, 5)?;
    Some(Ride {
        trip,
        day,
        shift: shift_by(timetable, trip, start),
        from,
        to,
    })
}

// The ride that the fields of its line name.
#[tactic(auto, unfolding(crate::specs::Items::ride_of))]
fn ride_of(timetable: &Timetable, fields: &[&[u8]]) -> Option<Ride>
    ensures { result ≡ ride_of timetable.now (map (λ text. text.now) fields.now) }
{
    let trip = trip_in(timetable, field(fields, 1))?;
    run_of(timetable, fields, trip)
}

// What the line of a ride tells.
#[tactic(auto, unfolding(crate::specs::Items::ride_item))]
fn ride_item(timetable: &Timetable, fields: &[&[u8]]) -> Option<Item>
    ensures { result ≡ ride_item timetable.now (map (λ text. text.now) fields.now) }
{
    let ride = ride_of(timetable, fields)?;
    let facts = facts_of(timetable, &ride)?;
    Some(Item::Ride(ride, facts.from, facts.to))
}

// The stop whose id a field is.
#[tactic(auto, unfolding(crate::specs::Items::stop_in))]
fn stop_in(timetable: &Timetable, fields: &[&[u8]], place: usize) -> Option<StopId>
    ensures { result ≡ stop_in timetable.now (map (λ text. text.now) fields.now) place }
{
    timetable.find(field(fields, place))
}

// What the line of a walk tells.
#[tactic(auto, unfolding(crate::specs::Items::walk_item))]
fn walk_item(timetable: &Timetable, fields: &[&[u8]]) -> Option<Item>
    ensures { result ≡ walk_item timetable.now (map (λ text. text.now) fields.now) }
{
    let from = stop_in(timetable, fields, 1)?;
    let to = stop_in(timetable, fields, 2)?;
    Some(Item::Walk(from, to))
}

// What the line of a stay tells.
#[tactic(auto, unfolding(crate::specs::Items::stay_item))]
fn stay_item(timetable: &Timetable, fields: &[&[u8]]) -> Option<Item>
    ensures { result ≡ stay_item timetable.now (map (λ text. text.now) fields.now) }
{
    let stop = stop_in(timetable, fields, 1)?;
    Some(Item::Walk(stop, stop))
}

// What the line of a leg tells.
#[tactic(auto, unfolding(crate::specs::Items::leg_item))]
fn leg_item(fields: &[&[u8]]) -> Option<Item>
    ensures { result ≡ leg_item (map (λ text. text.now) fields.now) }
{
    let rule = row_in(field(fields, 3))?;
    let product = row_in(field(fields, 4))?;
    Some(Item::Leg(LegChoice {
        rule: RuleId(rule),
        product: ProductRowId(product),
    }))
}

// The product row of a change, or `-` where its rule has no product.
#[tactic(auto, unfolding(crate::specs::Items::change_row))]
fn change_row(text: &[u8]) -> Option<Option<ProductRowId>>
    ensures { result ≡ change_row text.now }
{
    if text == b"-".as_slice() {
        return Some(None);
    }
    let row = row_in(text)?;
    Some(Some(ProductRowId(row)))
}

// What the line of a change tells.
#[tactic(auto, unfolding(crate::specs::Items::change_item))]
fn change_item(fields: &[&[u8]]) -> Option<Item>
    ensures { result ≡ change_item (map (λ text. text.now) fields.now) }
{
    let rule = row_in(field(fields, 3))?;
    let product = change_row(field(fields, 4))?;
    Some(Item::Change(ChangeChoice {
        rule: XferId(rule),
        product,
    }))
}

// What a line tells, by its word and its fields; none where it is no line of an entry.
#[tactic(auto, unfolding(crate::specs::Items::item_of))]
fn item_of(timetable: &Timetable, fields: &[&[u8]]) -> Option<Item>
    ensures { result ≡ item_of timetable.now (map (λ text. text.now) fields.now) }
{
    let word = field(fields, 0);
    if word == b"journey".as_slice() {
        return Some(Item::Head);
    }
    if word == b"stay".as_slice() {
        return stay_item(timetable, fields);
    }
    if word == b"walk".as_slice() {
        return walk_item(timetable, fields);
    }
    if word == b"ride".as_slice() {
        return ride_item(timetable, fields);
    }
    if word == b"leg".as_slice() {
        return leg_item(fields);
    }
    if word == b"change".as_slice() {
        return change_item(fields);
    }
    None
}

/// What a line tells; none where it is no line of an entry.
///
/// # Errors
/// Want of memory.
pub fn item_in(
    timetable: &Timetable,
    alloc: Global,
    line: &[u8],
) -> Result<Option<Item>, AllocError>
    ensures { IfOk result (λ item. item ≡ item_of timetable.now (fields_in line.now)) }
{
    let fields = fields_of(alloc, line)?;
    Ok(item_of(timetable, fields.as_slice()))
}
