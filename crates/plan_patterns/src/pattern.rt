//! A pattern: what its trips have in common, its runs, and when these depart.
ghost use Rattle.std.specs.Prelude.{◌≡◌, ◌<◌, ◌^◌, length, map, All, IfOk, OnOk};
ghost use Rattle.std.specs.List.Sorted.{IsPermutation};
ghost use Rattle.plan_patterns.specs.Columns.{AreColumns, AreFirst, AreInOrder, CallsAt, CallsAtAll, IsBoarding, IsColumn, IsPattern, IsRunAt, IsSince};
ghost use Rattle.plan_patterns.specs.declared.halts.Halt.{Halt};
ghost use Rattle.plan_patterns.specs.Runs.{IsKnown};

use crate::halts::Halt;
use crate::runs::Run;
use feed_timetable::Timetable;
use item_groups::Groups;
use std::alloc::{AllocError, Global};
use transit_base::{Moment, StopId};

/// A run of a pattern, by its number, and when it departs from one of the positions.
#[derive(Clone, Copy)]
pub struct Boarding {
    pub run: u32,
    pub at: Moment,
}

/// What the trips of a pattern have in common, its runs, and columns of when these depart.
pub struct Pattern {
    pub stops: Vec<StopId>,
    pub halts: Vec<Halt>,
    pub runs: Vec<Run>,
    /// When runs depart, position by position, each in order of departure.
    pub departures: Groups<Boarding>,
}

// Written out, so that what holds one needn't look into it to let go of it.
impl Drop for Pattern {
    fn drop(self) {
        let Pattern {
            stops: _,
            halts: _,
            runs: _,
            departures: _,
        } = self;
    }
}

// The stops of halts.
fn stops_of(alloc: Global, halts: &[Halt]) -> Result<Vec<StopId>, AllocError>
    ensures { IfOk result (λ stops. stops.items ≡ map (λ (p : Halt). p.stop) halts.now) }
{
    let mut stops = Vec::with_capacity(alloc, halts.len())?;
    for halt in halts {
        stops.push(halt.stop)?;
    }
    Ok(stops)
}

// The run with a number, and when it departs from the position.
fn boarding_of(timetable: &Timetable, runs: &[Run], number: u32, position: u32) -> Boarding
    requires runs { All (CallsAt timetable.now position) runs.now }
    requires inside { number < length runs.now }
    ensures is { IsBoarding timetable.now runs.now position result }
    ensures number { result.run ≡ number }
{
    let run = &runs[number as usize];
    let call = timetable.calls_of(run.trip).at(position as usize);
    Boarding {
        run: number,
        at: run.moment(call.departure),
    }
}

// When each run departs from the position, by the numbers of the runs.
fn boardings_at(
    alloc: Global,
    timetable: &Timetable,
    runs: &[Run],
    position: u32,
) -> Result<Vec<Boarding>, AllocError>
    requires runs { All (CallsAt timetable.now position) runs.now }
    requires few { length runs.now < 2 ^ 32 }
    ensures { IfOk result (λ boardings. AreFirst timetable.now runs.now position (length runs.now) boardings.items) }
{
    let mut boardings = Vec::with_capacity(alloc, runs.len())?;
    for number in 0..runs.len() as u32 {
        boardings.push(boarding_of(timetable, runs, number, position))?;
    }
    Ok(boardings)
}

// Puts departures in their order.
fn put_in_order(boardings: &mut Vec<Boarding>) -> Result<(), AllocError>
    ensures moved { OnOk result (IsPermutation boardings.old.items boardings.new.items) }
    ensures rises { OnOk result (AreInOrder boardings.new.items) }
{
    boardings.sort_by_key(|boarding| boarding.at.0)?;
    Ok(())
}

// When each run departs from the position, in order of departure.
fn column(
    alloc: Global,
    timetable: &Timetable,
    runs: &[Run],
    position: u32,
) -> Result<Vec<Boarding>, AllocError>
    requires runs { All (CallsAt timetable.now position) runs.now }
    requires few { length runs.now < 2 ^ 32 }
    ensures { IfOk result (λ column. IsColumn timetable.now runs.now position column.items) }
{
    let mut boardings = boardings_at(alloc, timetable, runs, position)?;
    put_in_order(&mut boardings)?;
    Ok(boardings)
}

// When runs depart from each of so many positions.
fn all_departures(
    alloc: Global,
    timetable: &Timetable,
    runs: &[Run],
    positions: u32,
) -> Result<Groups<Boarding>, AllocError>
    requires runs { All (CallsAtAll timetable.now positions) runs.now }
    requires few { length runs.now < 2 ^ 32 }
    ensures { IfOk result (λ departures. AreColumns timetable.now runs.now positions departures) }
{
    let mut departures = Groups::empty(alloc);
    for position in 0..positions {
        let own = column(alloc, timetable, runs, position)?;
        departures.push(&own)?;
    }
    Ok(departures)
}

/// Which of the departures are at the moment or later.
pub fn since(column: &[Boarding], from: Moment) -> &[Boarding]
    requires { AreInOrder column.now }
    ensures { IsSince column.now from.0 result.now }
{
    let first = column.partition_point(|boarding| boarding.at.0 < from.0);
    &column[first..]
}

impl Pattern {
    /// The pattern with these halts, of runs of trips that have them.
    ///
    /// # Errors
    /// Want of memory; so counts that there would be 2^32 runs or more.
    pub fn of(
        alloc: Global,
        timetable: &Timetable,
        halts: &[Halt],
        runs: &[Run],
    ) -> Result<Pattern, AllocError>
        requires runs { All (IsRunAt timetable.now halts.now) runs.now }
        ensures built { IfOk result (λ pattern. IsPattern timetable.now pattern) }
        ensures halts { IfOk result (λ pattern. pattern.halts.items ≡ halts.now) }
        ensures runs { IfOk result (λ pattern. pattern.runs.items ≡ runs.now) }
    {
        if halts.len() >= 1 << 32 || runs.len() >= 1 << 32 {
            return Err(AllocError);
        }
        Ok(Pattern {
            stops: stops_of(alloc, halts)?,
            halts: Vec::from_slice(alloc, halts)?,
            runs: Vec::from_slice(alloc, runs)?,
            departures: all_departures(alloc, timetable, runs, halts.len() as u32)?,
        })
    }
}
