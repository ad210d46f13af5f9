//! The rides of a query by the runs that are held.
ghost use Rattle.std.specs.Prelude.{◌≡◌, All, IfOk, option_map};
ghost use Rattle.feed_rows.specs.JourneyStands.{first_stand};
ghost use Rattle.feed_rows.specs.SoundFeed.{IsSoundFeed};
ghost use Rattle.feed_timetable.specs.Standings.{stand_of};
ghost use Rattle.feed_rows.specs.Journeys.{asked};
ghost use Rattle.plan_rides.specs.InTime.{arrival_in_time};
ghost use Rattle.plan_rides.specs.Boarding.{MayRide};
ghost use Rattle.plan_rides.specs.InTime.{IsUsualQuery, IsWithinWindow, HasCaught, IsRight};
ghost use Rattle.plan_rides.specs.Scopes.{IsInScope};
ghost use Rattle.plan_rides.specs.Spans.{AreSpans};

use crate::caught::CaughtRide;
use crate::held::SpanRuns;
use crate::positions::Positions;
use crate::scope::deadline;
use crate::spans::Spans;
use feed_rows::Query;
use feed_timetable::{Standing, Timetable};
use std::alloc::{AllocError, Global};
use std::marker::Model;
use transit_base::{Moment, StopId};

/// The rides of a query, by where they can be caught: by the patterns of the runs that are held for it.
/// Contracts see it as the feed and the query.
pub struct Rides<'s> {
    runs: &'s SpanRuns<'s>,
    positions: Positions<'s>,
}

// Written out, so that what holds one needn't look into it to let go of it.
impl<'s> Drop for Rides<'s> {
    fn drop(self) {
        let Rides {
            runs: _,
            positions: _,
        } = self;
    }
}

impl<'s> Model for Rides<'s> {
    ghost use Rattle.std.specs.Prelude.{◌≡◌};
    ghost use Rattle.feed_rows.specs.SoundFeed.{IsSoundFeed};
    ghost use Rattle.feed_rows.specs.Journeys.{Asked, asked};
    ghost use Rattle.plan_rides.specs.InTime.{IsUsualQuery};
    ghost use Rattle.plan_rides.specs.Scopes.{IsInScope};

    ghost Value = { Asked };

    ghost view = { λ s. asked s.positions.feed s.positions.query };

    ghost invariant = { λ s. IsSoundFeed s.positions.feed × IsUsualQuery s.positions.query × (s.runs.now.feed ≡ s.positions.feed) × IsInScope s.runs.now.scope s.positions.query };
}

impl<'s> Rides<'s> {
    /// The rides of the query, by runs that are held for it and for others.
    pub fn of(runs: &'s SpanRuns<'s>, query: &'s Query) -> Rides<'s>
        requires usual { IsUsualQuery query.now }
        requires within { IsInScope runs.now.scope query.now }
        ensures { result ≡ asked runs.now.feed query.now }
    {
        Rides {
            runs,
            positions: Positions {
                timetable: runs.timetable,
                query,
                sought: &runs.sought,
                patterns: &runs.patterns,
                served: &runs.served,
            },
        }
    }

    /// The timetable.
    pub fn timetable(&self) -> &'s Timetable<'s>
        ensures { result.now ≡ self.now.feed }
    {
        self.positions.timetable
    }

    // The runs that are held for it.
    fn runs(&self) -> &'s SpanRuns<'s>
        ensures feed { result.now.feed ≡ self.now.feed }
        ensures within { IsInScope result.now.scope self.now.query }
    {
        self.runs
    }

    /// The query.
    pub fn query(&self) -> &'s Query
        ensures is { result.now ≡ self.now.query }
        ensures usual { IsUsualQuery self.now.query }
    {
        self.positions.query
    }

    /// Where one stands at a first stop, before any ride.
    pub fn start(&self, first: StopId) -> Standing
        ensures stand { stand_of result ≡ first_stand self.now.query first }
        ensures within { IsWithinWindow self.now.query result.at.0 }
        ensures sound { IsSoundFeed self.now.feed }
    {
        Standing {
            stop: first,
            at: self.positions.query.departure,
            fresh: true,
        }
    }

    /// The arrival at the last stop within the window, from where one stands.
    #[tactic(auto, unfolding(crate::specs::InTime::arrival_in_time))]
    pub fn arrival_in_time(&self, standing: Standing, last: StopId) -> Option<Moment>
        requires { IsWithinWindow self.now.query standing.at.0 }
        ensures { option_map (λ (moment : Moment). moment.0) result ≡ arrival_in_time self.now.feed self.now.query (stand_of standing) last }
    {
        let query = self.positions.query;
        let arrival = self.positions.timetable.end_arrival(query, standing, last)?;
        if arrival.0 > deadline(query).0 {
            return None;
        }
        Some(arrival)
    }

    /// Where riders may board.
    pub fn positions(&self) -> &Positions<'s>
        ensures feed { result.now.feed ≡ self.now.feed }
        ensures query { result.now.query ≡ self.now.query }
        ensures sound { IsSoundFeed self.now.feed }
    {
        &self.positions
    }

    /// For each number of further rides, the least seconds to a journey's end.
    ///
    /// # Errors
    /// Want of memory.
    pub fn spans(&self, alloc: Global) -> Result<Spans, AllocError>
        ensures { IfOk result (AreSpans self.now.feed self.now.query) }
    {
        let query = self.query();
        let runs = self.runs();
        Spans::of(alloc, runs, query.to, query.window, query.rides)
    }

    /// The rides that are caught from where one stands and end within the window.
    ///
    /// # Errors
    /// Want of memory.
    pub fn next(&self, alloc: Global, standing: Standing) -> Result<Vec<CaughtRide>, AllocError>
        requires within { IsWithinWindow self.now.query standing.at.0 }
        requires may { MayRide self.now.feed self.now.query (stand_of standing) }
        ensures all { IfOk result (λ rides. HasCaught self.now.feed self.now.query (stand_of standing) rides.items) }
        ensures right { IfOk result (λ rides. All (IsRight self.now.feed self.now.query (stand_of standing)) rides.items) }
        ensures sound { IsSoundFeed self.now.feed }
    {
        self.positions().next(alloc, standing)
    }
}
