//! The platforms near each platform, between which there may be walks.
ghost use Rattle.std.specs.Prelude.{◌≡◌, ◌<◌, length, IfOk, OnOk};
ghost use Rattle.std.specs.Bool.{OnFalse};
ghost use Rattle.feed_rows.specs.FeedRows.{FeedRows};
ghost use Rattle.feed_rows.specs.SoundTimetable.{AreSoundStops};
ghost use Rattle.feed_rows.specs.StopSets.{stop_sets};
ghost use Rattle.feed_walks.specs.Rules.{AreRules};
ghost use Rattle.feed_walks.specs.Near.{IsInOrder, DoesNotLead, Reaches, AreReached, AreNear};

use crate::rules::{is_platform, row_to, station_of};
use feed_rows::{Feed, LinkRow};
use item_groups::Groups;
use std::alloc::{AllocError, Global};
use transit_base::StopId;

/// The platforms of all that each stop leads to.
pub fn reached_of(
    alloc: Global,
    feed: &Feed,
    rules: &Groups<LinkRow>,
    sets: &Groups<StopId>,
) -> Result<Groups<StopId>, AllocError>
    requires rules { AreRules feed.now.links rules.now }
    requires sets { sets.now ≡ stop_sets feed.now }
    ensures { IfOk result (λ reached. AreReached feed.now reached) }
{
    let count = feed.stops.items().len() as u32;
    let mut reached = Groups::empty(alloc);
    let mut platforms = Vec::new(alloc);
    for stop in 0..count {
        reached_from(rules, sets, StopId(stop), &mut platforms)?;
        reached.push(platforms.as_slice())?;
    }
    Ok(reached)
}

/// Replaces what `reached` holds by the platforms of all that the stop leads to: by a row that allows the change, and those
/// of itself where no row says otherwise.
///
/// Rows that forbid a change, and rows that are there twice, are left behind here, before a station's rows are taken for
/// each of its platforms.
fn reached_from(
    rules: &Groups<LinkRow>,
    sets: &Groups<StopId>,
    stop: StopId,
    reached: &mut Vec<StopId>,
) -> Result<(), AllocError>
    ensures { (feed : FeedRows) → AreRules feed.links rules.now → sets.now ≡ stop_sets feed → OnOk result (Reaches feed stop reached.new.items) }
{
    let rows = rules.get(stop.0 as usize);
    reached.clear();
    for place in 0..rows.len() {
        if does_lead(rows, place) {
            reached.extend_from_slice(sets.get(rows[place].to.0 as usize))?;
        }
    }
    if row_to(rows, stop).is_none() {
        reached.extend_from_slice(sets.get(stop.0 as usize))?;
    }
    Ok(())
}

/// Whether the row at a place allows the change and is the earliest to its stop, as the one that governs is.
fn does_lead(rows: &[LinkRow], place: usize) -> bool
    requires { place < length rows.now }
    ensures { OnFalse result (DoesNotLead rows.now place) }
{
    if rows[place].forbidden {
        return false;
    }
    place == 0 || rows[place - 1].to.0 != rows[place].to.0
}

/// Replaces what `near` holds by the platforms to which there may be a walk from this one, in order: those that it or its
/// station leads to. There are none where the stop is no platform.
pub fn near_of(
    feed: &Feed,
    reached: &Groups<StopId>,
    from: StopId,
    near: &mut Vec<StopId>,
) -> Result<(), AllocError>
    requires sound { AreSoundStops feed.now }
    requires reached { AreReached feed.now reached.now }
    ensures { OnOk result (AreNear feed.now from near.new.items) }
{
    near.clear();
    if !is_platform(feed, from) {
        return Ok(());
    }
    near.extend_from_slice(reached.get(from.0 as usize))?;
    if let Some(station) = station_of(feed, from) {
        near.extend_from_slice(reached.get(station.0 as usize))?;
    }
    put_in_order(near);
    Ok(())
}

/// Puts stops in file order, each once.
fn put_in_order(stops: &mut Vec<StopId>)
    ensures { IsInOrder stops.old.items stops.new.items }
{
    stops.sort_unstable_by_key(|stop| stop.0);
    stops.dedup_by_key(|stop| stop.0);
}
