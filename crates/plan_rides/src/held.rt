//! The runs of a span, held once for all queries within it.
ghost use Rattle.std.specs.Prelude.{◌≡◌, ◌<◌, IfOk, length};
ghost use Rattle.feed_rows.specs.declared.journeys.Query.{Query};
ghost use Rattle.plan_patterns.specs.Spans.{IsUsualSpan};
ghost use Rattle.plan_rides.specs.Scopes.{held_for};
ghost use Rattle.plan_rides.specs.Spans.{AreBoardSpans, FitsScope};

use crate::boards::add_patterns;
use crate::departures::patterns_of;
use crate::scope::Scope;
use crate::servings::{TimedServing, served_stops};
use crate::sought::Sought;
use feed_timetable::Timetable;
use item_groups::Groups;
use plan_patterns::Patterns;
use std::alloc::{AllocError, Global};
use std::marker::Model;
use transit_base::Secs;

/// The runs by which the rides of queries may go, by patterns, and where and when riders may board them: found once for
/// all queries of a scope, such as those of a range of departures. Contracts see the feed and the scope.
pub struct SpanRuns<'s> {
    pub(crate) timetable: &'s Timetable<'s>,
    pub(crate) sought: Sought,
    pub(crate) patterns: Patterns<'s>,
    /// Where and when the patterns serve each stop.
    pub(crate) served: Groups<TimedServing>,
}

// Written out, so that what holds one needn't look into it to let go of it.
impl<'s> Drop for SpanRuns<'s> {
    fn drop(self) {
        let SpanRuns {
            timetable: _,
            sought: _,
            patterns: _,
            served: _,
        } = self;
    }
}

impl<'s> Model for SpanRuns<'s> {
    ghost use Rattle.feed_rows.specs.SoundFeed.{IsSoundFeed};
    ghost use Rattle.plan_rides.specs.Boarding.{AreMarks};
    ghost use Rattle.plan_rides.specs.Departures.{HoldsRuns};
    ghost use Rattle.plan_rides.specs.Scopes.{HeldFor, held_for};
    ghost use Rattle.plan_rides.specs.Served.{AreTimedStops};

    ghost Value = { HeldFor };

    ghost view = { λ s. held_for s.timetable.now s.sought.scope };

    ghost invariant = { λ s. IsSoundFeed s.timetable.now × AreTimedStops s.timetable.now s.sought s.patterns s.served × AreMarks s.timetable.now s.sought × HoldsRuns s.timetable.now s.sought s.patterns };
}

impl<'s> SpanRuns<'s> {
    /// The runs for the queries of the scope.
    ///
    /// # Errors
    /// Want of memory.
    pub fn of(
        alloc: Global,
        timetable: &'s Timetable<'s>,
        scope: &Scope,
    ) -> Result<SpanRuns<'s>, AllocError>
        requires usual { IsUsualSpan scope.now.span }
        ensures { IfOk result (λ runs. runs ≡ held_for timetable.now scope.now) }
    {
        let sought = Sought::new(alloc, timetable, scope)?;
        match patterns_of(alloc, timetable, &sought) {
            Ok(patterns) => {
                let served = served_stops(alloc, timetable, &patterns, &sought)?;
                Ok(SpanRuns {
                    timetable,
                    sought,
                    patterns,
                    served,
                })
            }
            Err(AllocError) => Err(AllocError),
        }
    }

    /// The timetable.
    pub fn timetable(&self) -> &'s Timetable<'s>
        ensures { result.now ≡ self.now.feed }
    {
        self.timetable
    }

    /// The least seconds from each stop where a ride boards to a journey's end, by these spans from where it alights; none
    /// where they are more than the window. They hold for each query of the scope, whenever it departs.
    ///
    /// # Errors
    /// Want of memory.
    pub fn board_spans(
        &self,
        alloc: Global,
        window: u32,
        spans: &[Option<Secs>],
    ) -> Result<Vec<Option<Secs>>, AllocError>
        requires rides { 1 < self.now.scope.rides }
        requires many { length spans.now ≡ length self.now.feed.stops }
        ensures many { IfOk result (λ boards. length boards.items ≡ length self.now.feed.stops) }
        ensures boards { IfOk result (λ boards. (query : Query) → FitsScope self.now.scope window query → AreBoardSpans self.now.feed query spans.now boards.items) }
    {
        let timetable = self.timetable;
        let stops = timetable.feed().stops.items().len();
        let mut boards = vec![in alloc; None; stops]?;
        add_patterns(timetable, &self.patterns, window, spans, &mut boards);
        Ok(boards)
    }
}
