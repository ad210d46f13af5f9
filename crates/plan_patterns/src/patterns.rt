//! The runs of a span, by patterns.
ghost use Rattle.std.specs.Prelude.{◌≡◌, ◌<◌, ◌^◌, length, map, All, IfOk, OnOk};
ghost use Rattle.plan_patterns.specs.declared.pattern.Pattern.{Pattern};
ghost use Rattle.plan_patterns.specs.declared.halts.Halt.{Halt};
ghost use Rattle.plan_patterns.specs.Columns.{AreBoardable, IsPattern};
ghost use Rattle.plan_patterns.specs.Grouping.{ArePatterns, halts_at, runs_at, pattern_of, halts_by_pattern};
ghost use Rattle.plan_patterns.specs.Runs.{AreTripsOf};
ghost use Rattle.plan_patterns.specs.Servings.{AreServings, halts_in, servings_at};
ghost use Rattle.plan_patterns.specs.Spans.{IsUsualSpan};

use crate::cuts::patterns_of;
use crate::halts::Halt;
use crate::held::held_runs;
use crate::pattern::{Boarding, Pattern, since};
use crate::runs::Run;
use crate::serving::{Serving, servings_of};
use crate::span::Span;
use feed_rows::Feed;
use feed_timetable::Timetable;
use item_groups::Groups;
use std::alloc::{AllocError, Global};
use std::marker::Model;
use transit_base::{Moment, StopId, TripId};

/// The runs that have a ride within a span, by patterns: two trips are of one pattern exactly where they call at the same stops,
/// in the same order, and let riders do the same there. Patterns are numbered from 0, and so are the positions and the
/// runs of each. Contracts see it as the feed with the patterns.
pub struct Patterns<'f> {
    feed: &'f Feed,
    patterns: Vec<Pattern>,
    /// Where riders may board, by stop.
    servings: Groups<Serving>,
}

// Written out, so that what holds one needn't look into it to let go of it.
impl<'f> Drop for Patterns<'f> {
    fn drop(self) {
        let Patterns {
            feed: _,
            patterns: _,
            servings: _,
        } = self;
    }
}

impl<'f> Model for Patterns<'f> {
    ghost use Rattle.std.specs.Prelude.{◌<◌, ◌^◌, length, map, All};
    ghost use Rattle.plan_patterns.specs.Columns.{IsPattern};
    ghost use Rattle.plan_patterns.specs.Grouping.{PatternsOf, pattern_of};
    ghost use Rattle.plan_patterns.specs.Servings.{AreServings, halts_in};

    ghost Value = { PatternsOf };

    ghost view = { λ s. record { feed = s.feed.now; patterns = map pattern_of s.patterns.items } };

    ghost invariant = { λ s. All (IsPattern s.feed.now) s.patterns.items × (length s.patterns.items < 2 ^ 32) × AreServings (halts_in s.patterns.items) (length s.feed.now.stops) s.servings };
}

// The patterns of the runs of these trips that have a ride within the span.
fn held_patterns(
    alloc: Global,
    timetable: &Timetable,
    span: &Span,
    trips: &[TripId],
) -> Result<Vec<Pattern>, AllocError>
    requires usual { IsUsualSpan span.now }
    requires trips { AreTripsOf timetable.now trips.now }
    ensures built { IfOk result (λ patterns. All (IsPattern timetable.now) patterns.items) }
    ensures held { IfOk result (λ patterns. ArePatterns timetable.now span.now trips.now (map pattern_of patterns.items)) }
{
    let held = held_runs(alloc, timetable, span, trips)?;
    patterns_of(alloc, timetable, &held)
}

impl<'f> Patterns<'f> {
    /// The runs of these trips that have a ride within the span, by patterns. No other trip is looked at.
    ///
    /// # Errors
    /// Want of memory; so counts that there would be 2^32 patterns, or runs of one, or more.
    pub fn build(
        alloc: Global,
        timetable: &Timetable<'f>,
        span: &Span,
        trips: &[TripId],
    ) -> Result<Patterns<'f>, AllocError>
        requires usual { IsUsualSpan span.now }
        requires trips { AreTripsOf timetable.now trips.now }
        ensures feed { IfOk result (λ built. built.feed ≡ timetable.now) }
        ensures patterns { IfOk result (λ built. ArePatterns timetable.now span.now trips.now built.patterns) }
    {
        let patterns = held_patterns(alloc, timetable, span, trips)?;
        let servings = servings_of(alloc, timetable, &patterns)?;
        Ok(Patterns {
            feed: timetable.feed(),
            patterns,
            servings,
        })
    }

    /// How many patterns there are.
    pub fn count(&self) -> u32
        ensures { result ≡ length self.now.patterns }
    {
        self.patterns.len() as u32
    }

    /// The stops at which the trips of a pattern call, in order.
    pub fn stops(&self, pattern: u32) -> &[StopId]
        requires { pattern < length self.now.patterns }
        ensures { result.now ≡ map (λ (p : Halt). p.stop) (halts_at self.now.patterns pattern) }
    {
        &self.patterns[pattern as usize].stops
    }

    /// The stops at which the trips of a pattern call, with what riders may do there, in order.
    pub fn halts(&self, pattern: u32) -> &[Halt]
        requires { pattern < length self.now.patterns }
        ensures { result.now ≡ halts_at self.now.patterns pattern }
    {
        &self.patterns[pattern as usize].halts
    }

    /// The runs of a pattern.
    pub fn runs(&self, pattern: u32) -> &[Run]
        requires { pattern < length self.now.patterns }
        ensures { result.now ≡ runs_at self.now.patterns pattern }
    {
        &self.patterns[pattern as usize].runs
    }

    /// The runs of a pattern that depart from a position of it at the moment or later, in order of departure: a run may
    /// overtake another on the way.
    pub fn boardable(&self, pattern: u32, position: u32, from: Moment) -> &[Boarding]
        requires pattern { pattern < length self.now.patterns }
        requires position { position < length (halts_at self.now.patterns pattern) }
        ensures { AreBoardable self.now.feed (runs_at self.now.patterns pattern) position from.0 result.now }
    {
        let departures = &self.patterns[pattern as usize].departures;
        since(departures.group(position as usize), from)
    }

    /// Where riders may board a run of a pattern at the stop, by pattern and position.
    pub fn serving(&self, stop: StopId) -> &[Serving]
        requires { stop.0 < length self.now.feed.stops }
        ensures { result.now ≡ servings_at (halts_by_pattern self.now.patterns) stop.0 }
    {
        self.servings.get(stop.0 as usize)
    }
}
