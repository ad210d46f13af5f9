//! The lines of an answer.
ghost use Rattle.std.specs.Prelude.{◌≡◌, ◌++◌, IfOk, OnOk};
ghost use Rattle.feed_rows.specs.EntryText.{journey_line, entry_lines, lines_of_entries};

use crate::field::Field;
use crate::line::Line;
use crate::prices::write_sum;
use crate::text::Text;
use crate::tickets::push_fare_lines;
use crate::travel::push_travel_lines;
use feed_rows::{Entry, Feed, Triple};
use feed_timetable::Timetable;
use std::alloc::{AllocError, Global};

// Writes the head line of an entry.
#[tactic(auto, unfolding(feed_rows::specs::EntryText::journey_line))]
fn write_journey(feed: &Feed, line: &mut Line, triple: Triple) -> Result<(), AllocError>
    ensures { OnOk result (line.new ≡ journey_line feed.now triple) }
{
    let rides = Field::Number(u64::from(triple.rides));
    line.begin(b"journey", &[Field::Moment(triple.arrival), rides])?;
    write_sum(feed, line, triple.price)
}

// Adds the lines of an entry: its head, its way, and its fares.
#[tactic(auto, unfolding(feed_rows::specs::EntryText::entry_lines))]
fn push_entry(
    timetable: &Timetable,
    text: &mut Text,
    line: &mut Line,
    entry: &Entry,
) -> Result<(), AllocError>
    ensures { OnOk result (text.new ≡ text.old ++ entry_lines timetable.now entry.now) }
{
    let feed = timetable.feed();
    write_journey(feed, line, entry.triple)?;
    text.push(line.bytes())?;
    push_travel_lines(timetable, text, line, &entry.journey)?;
    push_fare_lines(feed, text, line, &entry.choice)
}

/// The lines of an answer, entry by entry: the head line with arrival, rides and price, the walks and rides in order
/// of travel, and the tickets. What speaks of a row that the feed lacks prints no line.
///
/// # Errors
/// Want of memory.
pub fn text_of(alloc: Global, timetable: &Timetable, entries: &[Entry]) -> Result<Text, AllocError>
    ensures { IfOk result (λ text. text ≡ lines_of_entries timetable.now entries.now) }
{
    let mut text = Text::empty(alloc);
    let mut line = Line::empty(alloc);
    for entry in entries {
        push_entry(timetable, &mut text, &mut line, entry)?;
    }
    Ok(text)
}
