//! The timeframe groups of a feed: which of them hold at a moment, and what fare rules look at in a leg.
#![tactic(auto)]

ghost use Rattle.std.specs.Prelude.{◌≡◌, filter, map, nat_le, IfOk, IfSome, OnOk};
ghost use Rattle.std.specs.List.{list_any};
ghost use Rattle.std.specs.List.Sorted.{IsNonDecreasingBy};
ghost use Rattle.feed_calendar.specs.BuiltCalendar.{IsCalendarOf};
ghost use Rattle.feed_rows.specs.FeedRows.{FeedRows};
ghost use Rattle.feed_rows.specs.Legs.{holds_at, frames_at, leg_facts, stop_areas};
ghost use Rattle.fare_areas.specs.AreaRows.{DoRise};
ghost use Rattle.transit_base.specs.Moments.{civil_day};
ghost use Rattle.fare_timeframes.specs.FrameRows.{by_frame, lasts_on, AreByStart};
ghost use Rattle.fare_timeframes.specs.FrameDays.{IsDayOf};
ghost use Rattle.fare_timeframes.specs.BuiltTimeframes.{AreTimeframesOf};
ghost use Rattle.fare_timeframes.specs.BlankLegs.{blank_leg};
ghost use Rattle.fare_timeframes.specs.Cuts.{AreLike};

mod cuts;
mod days;

use crate::cuts::{cuts_of, moment_by};
use crate::days::{FrameDay, spans_on};
use fare_areas::{Areas, like_stops};
use feed_calendar::Calendar;
use feed_rows::{AreaList, Feed, FrameList, LegFacts, RideFacts, TimeframeRow};
use item_groups::{Grouped, Groups};
use std::alloc::{AllocError, Global};
use transit_base::{AreaId, Day, FrameId, Moment, StopId};

/// The timeframe groups of a feed, with its areas, by a calendar that is lent.
///
/// What the calls answer is about the feed that the value was built from.
pub struct Timeframes<'c> {
    calendar: &'c Calendar,
    areas: Areas,
    /// Of each stop one with the same areas.
    likes: Vec<StopId>,
    /// How many timeframe groups there are.
    count: u32,
    /// The rows of each timeframe group, by start.
    rows: Groups<TimeframeRow>,
    /// The times of day at which a timeframe starts or ends.
    cuts: Vec<u32>,
    /// Days of which it was asked once which services are active.
    days: Vec<FrameDay>,
}

// Written out, so that what holds one needn't look into it to let go of it.
impl<'c> Drop for Timeframes<'c> {
    fn drop(self) {
        let Timeframes {
            calendar: _,
            areas: _,
            likes: _,
            count: _,
            rows: _,
            cuts: _,
            days: _,
        } = self;
    }
}

impl<'c> Timeframes<'c> {
    /// The timeframe groups of the feed, by its calendar.
    ///
    /// # Errors
    /// Want of memory.
    pub fn build(
        alloc: Global,
        feed: &Feed,
        calendar: &'c Calendar,
    ) -> Result<Timeframes<'c>, AllocError>
        requires { IsCalendarOf feed.now calendar.now }
        ensures { IfOk result (λ timeframes. AreTimeframesOf feed.now timeframes) }
    {
        let count = feed.frame_names.items().len() as u32;
        let areas = Areas::build(alloc, feed)?;
        let likes = like_stops(alloc, feed, &areas)?;
        let rows = rows_by_frame(alloc, feed.timeframes.items(), count)?;
        let cuts = cuts_of(alloc, feed)?;
        Ok(Timeframes {
            calendar,
            areas,
            likes,
            count,
            rows,
            cuts,
            days: Vec::new(alloc),
        })
    }

    /// The timeframe groups of the feed, made for many moments from the first to the last: for each civil day of these it
    /// is asked here which services are active, and not again. What is answered is the same.
    ///
    /// # Errors
    /// Want of memory.
    pub fn between(
        alloc: Global,
        feed: &Feed,
        calendar: &'c Calendar,
        first: Moment,
        last: Moment,
    ) -> Result<Timeframes<'c>, AllocError>
        requires { IsCalendarOf feed.now calendar.now }
        ensures { IfOk result (λ timeframes. AreTimeframesOf feed.now timeframes) }
    {
        let mut timeframes = Timeframes::build(alloc, feed, calendar)?;
        for day in first.day().0..=last.day().0 {
            timeframes.keep(alloc, Day(day))?;
        }
        Ok(timeframes)
    }

    /// Asks once when the timeframe groups hold on the day, and keeps it.
    fn keep(&mut self, alloc: Global, day: Day) -> Result<(), AllocError>
        ensures { OnOk result ((feed : FeedRows) → AreTimeframesOf feed self.old → AreTimeframesOf feed self.new) }
    {
        let kept = self.frame_day(alloc, day)?;
        self.days.push(kept)?;
        Ok(())
    }

    /// When the timeframe groups hold on the day.
    fn frame_day(&self, alloc: Global, day: Day) -> Result<FrameDay, AllocError>
        ensures { IfOk result (λ kept. (feed : FeedRows) → AreTimeframesOf feed self.now → IsDayOf feed kept) }
    {
        let mut spans = Groups::empty(alloc);
        for number in 0..self.rows.count() {
            let group = spans_on(alloc, self.calendar, self.rows.get(number), day)?;
            spans.push(group.as_slice())?;
        }
        Ok(FrameDay { day, spans })
    }

    /// The day, where it is kept.
    fn kept_day(&self, day: Day) -> Option<&FrameDay>
        ensures { (feed : FeedRows) → AreTimeframesOf feed self.now → IfSome result (λ kept. IsDayOf feed kept.now × (kept.now.day.0 ≡ day.0)) }
    {
        for number in 0..self.days.len() {
            if self.days[number].day.0 == day.0 {
                return Some(&self.days[number]);
            }
        }
        None
    }

    /// Whether the timeframe group holds at the moment: a row of it has a service that is active on the moment's own civil
    /// day, and the time of day lies from its start to before its end. A number that is no group's never holds.
    pub fn holds(&self, frame: FrameId, at: Moment) -> bool
        ensures { (feed : FeedRows) → AreTimeframesOf feed self.now → result ≡ holds_at feed frame at.0 }
    {
        self.is_held(self.kept_day(at.day()), frame, at)
    }

    /// Whether the timeframe group holds at the moment, whose day may be kept.
    fn is_held(&self, kept: Option<&FrameDay>, frame: FrameId, at: Moment) -> bool
        ensures { (feed : FeedRows) → AreTimeframesOf feed self.now → IfSome kept.entry (λ day. IsDayOf feed day.now × (day.now.day.0 ≡ civil_day at.0)) → result ≡ holds_at feed frame at.0 }
    {
        let time = at.time_of_day().0;
        match kept {
            Some(day) => day.holds(frame, time),
            None => {
                let rows = started_by(self.rows.get(frame.0 as usize), time);
                self.has_active(rows, at.day(), time)
            }
        }
    }

    /// A stop with the same areas: many stops have the same.
    pub fn like_stop(&self, stop: StopId) -> StopId
        ensures { (feed : FeedRows) → AreTimeframesOf feed self.now → stop_areas feed result ≡ stop_areas feed stop }
    {
        match self.likes.get(stop.0 as usize) {
            Some(like) => *like,
            None => stop,
        }
    }

    /// A moment at which the same timeframe groups hold: many moments have the same.
    pub fn like_moment(&self, at: Moment) -> Moment
        ensures { (feed : FeedRows) → AreTimeframesOf feed self.now → frames_at feed result ≡ frames_at feed at }
    {
        moment_by(&self.cuts, at)
    }

    /// A ride in which fare rules see the same, but for its seconds: many rides have the same.
    pub fn like_ride(&self, ride: &RideFacts) -> RideFacts
        ensures { (feed : FeedRows) → AreTimeframesOf feed self.now → AreLike feed result ride.now }
    {
        RideFacts {
            from: self.like_stop(ride.from),
            to: self.like_stop(ride.to),
            network: ride.network,
            departure: self.like_moment(ride.departure),
            arrival: self.like_moment(ride.arrival),
        }
    }

    /// What fare rules look at in the leg that is this ride.
    ///
    /// # Errors
    /// Want of memory.
    pub fn leg_facts(&self, alloc: Global, ride: &RideFacts) -> Result<LegFacts, AllocError>
        ensures { IfOk result (λ facts. (feed : FeedRows) → AreTimeframesOf feed self.now → facts ≡ leg_facts feed ride.now) }
    {
        let mut leg = blank_leg(alloc);
        self.leg_facts_into(ride, &mut leg)?;
        Ok(leg)
    }

    /// Writes what fare rules look at in the leg that is this ride over another leg, whose room is used again.
    ///
    /// # Errors
    /// Want of memory.
    pub fn leg_facts_into(&self, ride: &RideFacts, leg: &mut LegFacts) -> Result<(), AllocError>
        ensures { OnOk result ((feed : FeedRows) → AreTimeframesOf feed self.now → leg.new ≡ leg_facts feed ride.now) }
    {
        leg.network = ride.network;
        leg.departure = ride.departure;
        leg.arrival = ride.arrival;
        areas_into(self.areas.areas_of(ride.from), &mut leg.from_areas)?;
        areas_into(self.areas.areas_of(ride.to), &mut leg.to_areas)?;
        self.frames_into(ride.departure, &mut leg.from_frames)?;
        self.frames_into(ride.arrival, &mut leg.to_frames)
    }

    /// Replaces the timeframe groups by those that hold at the moment, ascending.
    fn frames_into(&self, at: Moment, frames: &mut FrameList) -> Result<(), AllocError>
        ensures { OnOk result ((feed : FeedRows) → AreTimeframesOf feed self.now → frames.new ≡ frames_at feed at) }
    {
        let kept = self.kept_day(at.day());
        frames.clear();
        for number in 0..self.count {
            let frame = FrameId(number);
            if self.is_held(kept, frame, at) {
                frames.push(frame)?;
            }
        }
        Ok(())
    }

    /// Whether one of these rows ends after the time and has a service that is active on the day.
    fn has_active(&self, rows: &[TimeframeRow], day: Day, time: u32) -> bool
        ensures { (feed : FeedRows) → AreTimeframesOf feed self.now → result ≡ list_any (lasts_on feed day.0 time) rows.now }
    {
        for row in rows {
            if time < row.end && self.calendar.active(row.service, day) {
                return true;
            }
        }
        false
    }
}

/// Those of the rows, which stand by start, that start by the time.
fn started_by(rows: &[TimeframeRow], time: u32) -> &[TimeframeRow]
    ensures { IsNonDecreasingBy (λ (row : TimeframeRow). row.start) rows.now → result.now ≡ filter (λ row. nat_le row.start time) rows.now }
{
    let started = rows.partition_point(|row| row.start <= time);
    &rows[..started]
}

/// The rows of each timeframe group with a number below `count`, by start.
fn rows_by_frame(
    alloc: Global,
    rows: &[TimeframeRow],
    count: u32,
) -> Result<Groups<TimeframeRow>, AllocError>
    ensures { IfOk result (AreByStart rows.now count) }
{
    let mut members = grouped_rows(alloc, rows)?;
    members.sort_unstable_by_key(|member| member.item.start);
    let groups = Groups::of(alloc, members, count)?;
    Ok(groups)
}

/// The rows, each with its timeframe group.
fn grouped_rows(
    alloc: Global,
    rows: &[TimeframeRow],
) -> Result<Vec<Grouped<TimeframeRow>>, AllocError>
    ensures { IfOk result (λ members. members.items ≡ map by_frame rows.now) }
{
    rows.iter().map(|row| grouped(row)).collect(alloc)
}

/// The row with its timeframe group.
fn grouped(row: &TimeframeRow) -> Grouped<TimeframeRow>
    ensures { result ≡ by_frame row.now }
{
    Grouped {
        group: row.frame.0,
        item: *row,
    }
}

/// A leg without areas and timeframe groups, for others to be written over it.
pub fn blank_leg(alloc: Global) -> LegFacts
    ensures { result ≡ blank_leg }
{
    LegFacts {
        network: None,
        from_areas: AreaList::empty(alloc),
        to_areas: AreaList::empty(alloc),
        from_frames: FrameList::empty(alloc),
        to_frames: FrameList::empty(alloc),
        departure: Moment(0),
        arrival: Moment(0),
    }
}

/// Replaces the areas by these, which ascend.
fn areas_into(areas: &[AreaId], list: &mut AreaList) -> Result<(), AllocError>
    requires { DoRise areas.now }
    ensures { OnOk result (list.new ≡ areas.now) }
{
    list.clear();
    for i in 0..areas.len() {
        list.push(areas[i])?;
    }
    Ok(())
}
