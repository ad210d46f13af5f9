//! When timeframe groups hold on one civil day.
ghost use Rattle.std.specs.Prelude.{◌≡◌, ℕ, ◌≤◌, ◌&&◌, ◌==◌, IfOk, OnOk, All, if◌then◌else◌};
ghost use Rattle.std.specs.List.{list_any};
ghost use Rattle.std.specs.List.Sorted.{IsNonDecreasingBy};
ghost use Rattle.feed_calendar.specs.BuiltCalendar.{IsCalendarOf};
ghost use Rattle.feed_rows.specs.FeedRows.{FeedRows};
ghost use Rattle.feed_rows.specs.Legs.{is_within};
ghost use Rattle.fare_timeframes.specs.FrameDays.{has_time, spans_after, end_after, AreSteps, AreSpansOf, IsDayOf};

use feed_calendar::Calendar;
use feed_rows::TimeframeRow;
use item_groups::Groups;
use std::alloc::{AllocError, Global};
use transit_base::{Day, FrameId};

/// Seconds of a civil day, from the start to before the end.
#[derive(Clone, Copy)]
pub struct Span {
    pub start: u32,
    pub end: u32,
}

/// When each timeframe group holds on one civil day.
pub struct FrameDay {
    pub day: Day,
    pub spans: Groups<Span>,
}

// Written out, so that what holds one needn't look into it to let go of it.
impl Drop for FrameDay {
    fn drop(self) {
        let FrameDay { day: _, spans: _ } = self;
    }
}

impl FrameDay {
    /// Whether the timeframe group holds at the time of day.
    pub fn holds(&self, frame: FrameId, time: u32) -> bool
        ensures { (feed : FeedRows) → IsDayOf feed self.now → result ≡ list_any (λ row. (row.frame.0 == frame.0) && is_within feed self.now.day.0 time row) feed.timeframes }
    {
        has_time(self.spans.get(frame.0 as usize), time)
    }
}

/// Whether the time lies in one of the spans. It lies in one exactly where it lies before the end of the last that starts
/// by it, since none ends before one that stands before it.
fn has_time(spans: &[Span], time: u32) -> bool
    ensures { AreSteps spans.now → result ≡ list_any (has_time time) spans.now }
{
    let started = spans.partition_point(|span| span.start <= time);
    started > 0 && time < spans[started - 1].end
}

/// When one of the rows, which stand by start, holds on the day: a span for each whose service is active, from its start to
/// the latest end so far.
pub fn spans_on(
    alloc: Global,
    calendar: &Calendar,
    rows: &[TimeframeRow],
    day: Day,
) -> Result<Vec<Span>, AllocError>
    ensures { IfOk result (λ spans. IsNonDecreasingBy (λ (row : TimeframeRow). row.start) rows.now → (feed : FeedRows) → IsCalendarOf feed calendar.now → AreSpansOf feed day.0 rows.now spans.items) }
{
    let mut spans = Vec::new(alloc);
    let mut end = 0;
    for row in rows {
        end = add_span(&mut spans, row, calendar.active(row.service, day), end)?;
    }
    Ok(spans)
}

/// Adds the span of the row, where its service is active, and answers the latest end.
fn add_span(
    spans: &mut Vec<Span>,
    row: &TimeframeRow,
    active: bool,
    end: u32,
) -> Result<u32, AllocError>
    ensures spans { OnOk result (spans.new.items ≡ spans_after active row.now end spans.old.items) }
    ensures end { IfOk result (λ latest. latest ≡ end_after active row.now end) }
{
    if !active {
        return Ok(end);
    }
    let latest = row.end.max(end);
    spans.push(Span {
        start: row.start,
        end: latest,
    })?;
    Ok(latest)
}
