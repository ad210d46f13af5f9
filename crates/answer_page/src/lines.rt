//! What a line of an answer says.
ghost use Rattle.std.specs.Prelude.{◌≡◌, ◌<◌, map, IfOk};
ghost use Rattle.line_cuts.specs.Cuts.{field};
ghost use Rattle.answer_page.specs.AnswerLines.{is_line, number_in, is_run, head_in, range_in, walk_in, ride_in, rider_in, ticket_in, leg_in, is_product, change_in, step_in, fare_in, frame_in, line_of, line_in};

use crate::amounts::amount_in;
use crate::answer::{AnswerLine, Fare, Frame, Head, Ride, Rider, Step, Ticket, Walk};
use crate::excerpt::Excerpt;
use crate::stamps::{Stamp, date_in, stamp_in};
use feed_text::{int_of, start_in};
use line_cuts::{field, fields_of};
use std::alloc::{AllocError, Global};

// Whether the line has this word, and so many fields with it.
fn is_line(fields: &[&[u8]], word: &[u8], count: usize) -> bool
    ensures { result ≡ is_line (map (λ text. text.now) fields.now) word.now count }
{
    fields.len() == count && field(fields, 0) == word
}

// A number of 32 bits.
#[tactic(auto, unfolding(crate::specs::AnswerLines::number_in))]
fn number_in(text: &[u8]) -> Option<u64>
    ensures { result ≡ number_in text.now }
{
    let value = int_of(text, 0, 4_294_967_295)?;
    Some(value.unsigned_abs())
}

// The head of an entry, of which the fields from a place on are arrival, rides, price and currency.
#[tactic(auto, unfolding(crate::specs::AnswerLines::head_in))]
fn head_in<'t>(fields: &[&'t [u8]], place: usize, leave: Option<Stamp<'t>>) -> Option<Head<'t>>
    requires { place < 9 }
    ensures { result ≡ head_in (map (λ text. text.now) fields.now) place leave.entry }
{
    let arrival = stamp_in(field(fields, place))?;
    let rides = number_in(field(fields, place + 1))?;
    let price = amount_in(field(fields, place + 2))?;
    Some(Head {
        leave,
        arrival,
        rides,
        price,
        currency: Excerpt::of(field(fields, place + 3)),
    })
}

// The head of an entry of a range.
#[tactic(auto, unfolding(crate::specs::AnswerLines::range_in))]
fn range_in<'t>(fields: &[&'t [u8]]) -> Option<Head<'t>>
    ensures { result ≡ range_in (map (λ text. text.now) fields.now) }
{
    let leave = stamp_in(field(fields, 1))?;
    head_in(fields, 2, Some(leave))
}

// A walk.
#[tactic(auto, unfolding(crate::specs::AnswerLines::walk_in))]
fn walk_in<'t>(fields: &[&'t [u8]]) -> Option<Walk<'t>>
    ensures { result ≡ walk_in (map (λ text. text.now) fields.now) }
{
    let seconds = int_of(field(fields, 3), 0, 4_294_967_295)?;
    Some(Walk {
        from: Excerpt::of(field(fields, 1)),
        to: Excerpt::of(field(fields, 2)),
        seconds,
    })
}

// Whether the fields say which ride of its trip it is: day, start, boarding and alighting.
#[tactic(auto, unfolding(crate::specs::AnswerLines::is_run))]
fn is_run(fields: &[&[u8]]) -> bool
    ensures { result ≡ is_run (map (λ text. text.now) fields.now) }
{
    date_in(field(fields, 2)).is_some()
        && start_in(field(fields, 3)).is_some()
        && number_in(field(fields, 4)).is_some()
        && number_in(field(fields, 5)).is_some()
}

// A ride.
#[tactic(auto, unfolding(crate::specs::AnswerLines::ride_in))]
fn ride_in<'t>(fields: &[&'t [u8]]) -> Option<Ride<'t>>
    ensures { result ≡ ride_in (map (λ text. text.now) fields.now) }
{
    if !is_run(fields) {
        return None;
    }
    let departure = stamp_in(field(fields, 7))?;
    let arrival = stamp_in(field(fields, 9))?;
    Some(Ride {
        trip: Excerpt::of(field(fields, 1)),
        from: Excerpt::of(field(fields, 6)),
        departure,
        to: Excerpt::of(field(fields, 8)),
        arrival,
    })
}

// A rider.
#[tactic(auto, unfolding(crate::specs::AnswerLines::rider_in))]
fn rider_in<'t>(fields: &[&'t [u8]]) -> Option<Rider<'t>>
    ensures { result ≡ rider_in (map (λ text. text.now) fields.now) }
{
    let number = number_in(field(fields, 1))?;
    let sum = amount_in(field(fields, 3))?;
    Some(Rider {
        number,
        category: Excerpt::of(field(fields, 2)),
        sum,
    })
}

// A ticket, of a rule's row.
#[tactic(auto, unfolding(crate::specs::AnswerLines::ticket_in))]
fn ticket_in<'t>(fields: &[&'t [u8]]) -> Option<Ticket<'t>>
    ensures { result ≡ ticket_in (map (λ text. text.now) fields.now) }
{
    let number = number_in(field(fields, 1))?;
    let _rule = number_in(field(fields, 3))?;
    let amount = amount_in(field(fields, 7))?;
    Some(Ticket {
        number,
        product: Excerpt::of(field(fields, 5)),
        medium: Excerpt::of(field(fields, 6)),
        amount,
    })
}

// The ticket of a leg, which is bought or included.
#[tactic(auto, unfolding(crate::specs::AnswerLines::leg_in))]
fn leg_in<'t>(fields: &[&'t [u8]]) -> Option<Fare<'t>>
    ensures { result ≡ leg_in (map (λ text. text.now) fields.now) }
{
    let ticket = ticket_in(fields)?;
    let _product = number_in(field(fields, 4))?;
    if field(fields, 2) == b"buy".as_slice() {
        return Some(Fare::Bought(ticket));
    }
    if field(fields, 2) == b"included".as_slice() {
        return Some(Fare::Included(ticket));
    }
    None
}

// Whether a change names a row of a product, or none.
#[tactic(auto, unfolding(crate::specs::AnswerLines::is_product))]
fn is_product(text: &[u8]) -> bool
    ensures { result ≡ is_product text.now }
{
    text == b"-".as_slice() || number_in(text).is_some()
}

// The ticket of a change, of whose three types it is one.
#[tactic(auto, unfolding(crate::specs::AnswerLines::change_in))]
fn change_in<'t>(fields: &[&'t [u8]]) -> Option<Fare<'t>>
    ensures { result ≡ change_in (map (λ text. text.now) fields.now) }
{
    let ticket = ticket_in(fields)?;
    let _type = int_of(field(fields, 2), 0, 2)?;
    if !is_product(field(fields, 4)) {
        return None;
    }
    Some(Fare::Change(ticket))
}

// What a line of the way says.
#[tactic(auto, unfolding(crate::specs::AnswerLines::step_in))]
fn step_in<'t>(fields: &[&'t [u8]]) -> Option<Step<'t>>
    ensures { result ≡ step_in (map (λ text. text.now) fields.now) }
{
    if is_line(fields, b"stay", 2) {
        return Some(Step::Stay(Excerpt::of(field(fields, 1))));
    }
    if is_line(fields, b"walk", 4) {
        return Some(Step::Walk(walk_in(fields)?));
    }
    if is_line(fields, b"ride", 10) {
        return Some(Step::Ride(ride_in(fields)?));
    }
    None
}

// What a line of the tickets says.
#[tactic(auto, unfolding(crate::specs::AnswerLines::fare_in))]
fn fare_in<'t>(fields: &[&'t [u8]]) -> Option<Fare<'t>>
    ensures { result ≡ fare_in (map (λ text. text.now) fields.now) }
{
    if is_line(fields, b"rider", 4) {
        return Some(Fare::Rider(rider_in(fields)?));
    }
    if is_line(fields, b"leg", 8) {
        return leg_in(fields);
    }
    if is_line(fields, b"change", 8) {
        return change_in(fields);
    }
    None
}

// What a line says that is none of an entry's way or tickets.
#[tactic(auto, unfolding(crate::specs::AnswerLines::frame_in))]
fn frame_in<'t>(fields: &[&'t [u8]]) -> Option<Frame<'t>>
    ensures { result ≡ frame_in (map (λ text. text.now) fields.now) }
{
    if is_line(fields, b"journey", 5) {
        return Some(Frame::Head(head_in(fields, 1, None)?));
    }
    if is_line(fields, b"range", 6) {
        return Some(Frame::Head(range_in(fields)?));
    }
    if is_line(fields, b"stats", 2) {
        return Some(Frame::Labels(number_in(field(fields, 1))?));
    }
    if is_line(fields, b"", 1) {
        return Some(Frame::End);
    }
    None
}

// What the fields of a line say.
#[tactic(auto, unfolding(crate::specs::AnswerLines::line_of))]
fn line_of<'t>(fields: &[&'t [u8]]) -> Option<AnswerLine<'t>>
    ensures { result ≡ line_of (map (λ text. text.now) fields.now) }
{
    if let Some(step) = step_in(fields) {
        return Some(AnswerLine::Step(step));
    }
    if let Some(fare) = fare_in(fields) {
        return Some(AnswerLine::Fare(fare));
    }
    Some(AnswerLine::Frame(frame_in(fields)?))
}

/// What a line says, without its line feed; none where it is no line of an answer.
///
/// # Errors
/// Want of memory.
pub fn line_in(alloc: Global, line: &[u8]) -> Result<Option<AnswerLine<'_>>, AllocError>
    ensures { IfOk result (λ read. read ≡ line_in line.now) }
{
    let fields = fields_of(alloc, line)?;
    Ok(line_of(fields.as_slice()))
}
