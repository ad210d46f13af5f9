//! The least seconds from stops to a journey's end, whatever the moment.
ghost use Rattle.std.specs.Prelude.{◌≡◌, ◌≤◌, ◌<◌, ◌-ℤ◌, ◌≤ℤ◌, ℕ, ℤ, pos, true, length, slice_get, unwrap_or, IfOk, OnOk, Some, None, []};
ghost use Rattle.feed_rows.specs.declared.journeys.Query.{Query};
ghost use Rattle.feed_rows.specs.Journeys.{egress};
ghost use Rattle.plan_rides.specs.Cutoffs.{is_span};
ghost use Rattle.plan_rides.specs.Spans.{AreBoardSpans, AreEndSpans, AreSpansFor, IsEndSpan, IsOneMoreSpan, IsSpanBefore, boards_of, no_spans, stands_of, with_spans};

use crate::held::SpanRuns;
use feed_timetable::Timetable;
use item_groups::Groups;
use std::alloc::{AllocError, Global};
use std::marker::Model;
use transit_base::{Secs, StopId};

/// So many seconds as a span; none where they are more than the window, since nothing that ends in time takes more.
pub fn span_of(window: u32, seconds: u64) -> Option<Secs>
    ensures { (secs : ℤ) → pos seconds ≤ℤ secs → secs ≤ℤ pos window → is_span result secs ≡ true }
{
    if seconds > u64::from(window) {
        return None;
    }
    Some(Secs(seconds as u32))
}

/// The shorter of the two spans.
pub fn shorter(one: Option<Secs>, other: Option<Secs>) -> Option<Secs>
    ensures one { (secs : ℤ) → is_span one secs ≡ true → is_span result secs ≡ true }
    ensures other { (secs : ℤ) → is_span other secs ≡ true → is_span result secs ≡ true }
{
    match (one, other) {
        (Some(a), Some(b)) => { if b.0 < a.0 { other } else { one } }
        (Some(_), None) => one,
        (None, _) => other,
    }
}

// The span from the stop to this last stop, where a journey to the destination ends there without a further ride.
fn span_to(
    timetable: &Timetable,
    to: StopId,
    window: u32,
    stop: StopId,
    last: StopId,
) -> Option<Secs>
    ensures { (query : Query) → query.to ≡ to → (seconds : ℕ) → egress timetable.now query stop last ≡ Some seconds → seconds ≤ window → is_span result (pos seconds) ≡ true }
{
    let seconds = timetable.egress(to, stop, last)?;
    span_of(window, u64::from(seconds))
}

// The span from the stop after a ride, where a journey to the destination ends without a further one.
fn end_span(timetable: &Timetable, to: StopId, window: u32, stop: StopId) -> Option<Secs>
    ensures { (query : Query) → query.to ≡ to → query.window ≤ window → IsEndSpan timetable.now query stop result }
{
    let lasts = timetable.members(to);
    let mut span = None;
    for k in 0..lasts.len() {
        span = shorter(span, span_to(timetable, to, window, stop, lasts[k]));
    }
    span
}

// Those from each stop.
fn end_spans(
    alloc: Global,
    timetable: &Timetable,
    to: StopId,
    window: u32,
) -> Result<Vec<Option<Secs>>, AllocError>
    ensures many { IfOk result (λ spans. length spans.items ≡ length timetable.now.stops) }
    ensures ends { IfOk result (λ spans. (query : Query) → query.to ≡ to → query.window ≤ window → AreEndSpans timetable.now query spans.items) }
{
    let stops = timetable.feed().stops.items().len();
    let mut spans = Vec::with_capacity(alloc, stops)?;
    for stop in 0..stops {
        spans.push(end_span(timetable, to, window, StopId(stop as u32)))?;
    }
    Ok(spans)
}

// The span at the stop; none past the last stop.
fn span_at(spans: &[Option<Secs>], stop: StopId) -> Option<Secs>
    ensures { result ≡ unwrap_or (slice_get spans.now stop.0) None }
{
    match spans.get(stop.0 as usize) {
        Some(span) => *span,
        None => None,
    }
}

// The span behind a walk.
fn behind_walk(window: u32, span: Option<Secs>, walk: Secs) -> Option<Secs>
    ensures { (secs : ℤ) → secs ≤ℤ pos window → is_span span (secs -ℤ pos walk.0) ≡ true → is_span result secs ≡ true }
{
    let span = span?;
    span_of(window, u64::from(walk.0) + u64::from(span.0))
}

// The span from the stop, where it is this, or one walks and takes one more ride first: by these spans from where it boards.
fn span_from(
    timetable: &Timetable,
    window: u32,
    stop: StopId,
    own: Option<Secs>,
    boards: &[Option<Secs>],
) -> Option<Secs>
    ensures { IsSpanBefore timetable.now window boards.now stop own result }
{
    let walks = timetable.walks_from(stop);
    let mut span = own;
    for k in 0..walks.len() {
        let step = walks[k];
        span = shorter(
            span,
            behind_walk(window, span_at(boards, step.to), step.seconds),
        );
    }
    span
}

// The spans from each stop after a ride, where they are these, or one more ride is taken first.
fn spans_before(
    alloc: Global,
    timetable: &Timetable,
    window: u32,
    spans: &[Option<Secs>],
    boards: &[Option<Secs>],
) -> Result<Vec<Option<Secs>>, AllocError>
    requires spans { length spans.now ≡ length timetable.now.stops }
    requires boards { length boards.now ≡ length timetable.now.stops }
    ensures many { IfOk result (λ new. length new.items ≡ length timetable.now.stops) }
    ensures more { IfOk result (λ new. (query : Query) → query.window ≤ window → AreBoardSpans timetable.now query spans.now boards.now → IsOneMoreSpan timetable.now query spans.now new.items) }
{
    let _feed = timetable.feed();
    let mut new = Vec::with_capacity(alloc, spans.len())?;
    for stop in 0..spans.len() {
        let span = span_from(timetable, window, StopId(stop as u32), spans[stop], boards);
        new.push(span)?;
    }
    Ok(new)
}

/// For each number of further rides, the least seconds to a journey's end from each stop where one stands after a ride, and
/// from each stop where one boards, whatever the moment. Contracts see the lists by number of rides.
pub struct Spans {
    stands: Groups<Option<Secs>>,
    boards: Groups<Option<Secs>>,
}

// Written out, so that what holds one needn't look into it to let go of it.
impl Drop for Spans {
    fn drop(self) {
        let Spans {
            stands: _,
            boards: _,
        } = self;
    }
}

impl Model for Spans {
    ghost use Rattle.plan_rides.specs.Spans.{SpanLists, span_lists};

    ghost Value = { SpanLists };

    ghost view = { λ s. span_lists s.stands s.boards };
}

impl Spans {
    /// No lists: by them each moment is early enough.
    pub fn none(alloc: Global) -> Spans
        ensures { result ≡ no_spans }
    {
        Spans {
            stands: Groups::empty(alloc),
            boards: Groups::empty(alloc),
        }
    }

    /// Those for all queries of the scope of the runs that go to this stop within so many seconds, whenever they depart, where
    /// fewer rides than so many may follow. Where one boards before the most that may follow each moment is early enough.
    ///
    /// # Errors
    /// Want of memory.
    pub fn of(
        alloc: Global,
        runs: &SpanRuns,
        to: StopId,
        window: u32,
        levels: u8,
    ) -> Result<Spans, AllocError>
        requires { levels ≤ runs.now.scope.rides }
        ensures { IfOk result (AreSpansFor runs.now.feed runs.now.scope to window) }
    {
        let timetable = runs.timetable();
        let mut spans = Spans::none(alloc);
        let mut stands = end_spans(alloc, timetable, to, window)?;
        for _more in 1..levels {
            let boards = runs.board_spans(alloc, window, stands.as_slice())?;
            spans.push(stands.as_slice(), boards.as_slice())?;
            stands = spans_before(
                alloc,
                timetable,
                window,
                stands.as_slice(),
                boards.as_slice(),
            )?;
        }
        spans.push(stands.as_slice(), &[])?;
        Ok(spans)
    }

    // Adds those for one ride more.
    fn push(&mut self, stands: &[Option<Secs>], boards: &[Option<Secs>]) -> Result<(), AllocError>
        ensures { OnOk result (self.new ≡ with_spans self.old stands.now boards.now) }
    {
        self.stands.push(stands)?;
        self.boards.push(boards)
    }

    /// The spans from each stop where one stands after a ride, and so many may follow; none at all past the most.
    pub fn stands(&self, more: usize) -> &[Option<Secs>]
        ensures { result.now ≡ stands_of self.now more }
    {
        self.stands.get(more)
    }

    /// The spans from each stop where one boards a ride that so many may follow; none at all past the most.
    pub fn boards(&self, more: usize) -> &[Option<Secs>]
        ensures { result.now ≡ boards_of self.now more }
    {
        self.boards.get(more)
    }
}
