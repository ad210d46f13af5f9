//! The rows of `transfers.txt`, to be looked up by their two stops, and the walks that they rule.
ghost use Rattle.std.specs.Prelude.{◌≡◌, ℕ, ◌<◌, ◌≤◌, ◌==◌, All, IfOk, OnOk, Option, Some, None, find, map, option_map, slice_get};
ghost use Rattle.std.specs.Option.{option_copied};
ghost use Rattle.std.specs.List.Sorted.{IsNonDecreasingBy};
ghost use Rattle.feed_rows.specs.FeedRows.{FeedRows};
ghost use Rattle.feed_rows.specs.StopLinks as linked;
ghost use Rattle.plain_laws.specs.Plain.{filled_and};
ghost use Rattle.feed_walks.specs.Rules.{IsPlace, by_start, by_end, AreRowsFrom, AreRules, IsStart};

use feed_rows::{Feed, LinkRow, PLATFORM, StopRow};
use item_groups::{Grouped, Groups};
use std::alloc::{AllocError, Global};
use transit_base::{Secs, StopId};

/// The rows from each stop, by the stop that they lead to, and among those to one stop in file order.
///
/// They are put into groups by the stops that they lead to, and these by the stops that they lead from, so that none is
/// compared with another.
pub fn rules_of(alloc: Global, links: &[LinkRow], count: u32) -> Result<Groups<LinkRow>, AllocError>
    requires froms { All (λ (row : LinkRow). row.from.0 < count) links.now }
    requires tos { All (λ (row : LinkRow). row.to.0 < count) links.now }
    ensures { IfOk result (λ rules. AreRules links.now rules) }
{
    let by_end = Groups::of(alloc, with_ends(alloc, links)?, count)?;
    let rules = Groups::of(alloc, with_starts(alloc, by_end.items())?, count)?;
    Ok(rules)
}

/// The rows, each with the stop that it leads to.
fn with_ends(alloc: Global, rows: &[LinkRow]) -> Result<Vec<Grouped<LinkRow>>, AllocError>
    ensures { IfOk result (λ grouped. grouped.items ≡ map by_end rows.now) }
{
    rows.iter()
        .map(|row| Grouped {
            group: row.to.0,
            item: *row,
        })
        .collect(alloc)
}

/// The rows, each with the stop that it leads from.
fn with_starts(alloc: Global, rows: &[LinkRow]) -> Result<Vec<Grouped<LinkRow>>, AllocError>
    ensures { IfOk result (λ grouped. grouped.items ≡ map by_start rows.now) }
{
    rows.iter()
        .map(|row| Grouped {
            group: row.from.0,
            item: *row,
        })
        .collect(alloc)
}

/// How many of the rows lead to an earlier stop.
fn place_of(rows: &[LinkRow], to: StopId) -> usize
    ensures { IsNonDecreasingBy (λ (row : LinkRow). row.to.0) rows.now → IsPlace (λ (row : LinkRow). row.to.0) rows.now to.0 result }
{
    rows.partition_point(|row| row.to.0 < to.0)
}

/// The first of the rows that leads to the stop.
pub fn row_to(rows: &[LinkRow], to: StopId) -> Option<LinkRow>
    ensures { IsNonDecreasingBy (λ (row : LinkRow). row.to.0) rows.now → result ≡ find (λ row. row.to.0 == to.0) rows.now }
{
    let place = place_of(rows, to);
    if place < rows.len() && rows[place].to.0 == to.0 {
        Some(rows[place])
    } else {
        None
    }
}

/// The row of the stop.
fn row_of(feed: &Feed, stop: StopId) -> Option<&StopRow>
    ensures { option_copied result ≡ slice_get feed.now.stops stop.0 }
{
    feed.stops.items().get(stop.0 as usize)
}

/// Whether the stop is a platform.
pub fn is_platform(feed: &Feed, stop: StopId) -> bool
    ensures { result ≡ linked.is_platform feed.now stop }
{
    match row_of(feed, stop) {
        Some(row) => row.kind == PLATFORM,
        None => false,
    }
}

/// The station of a platform, if it has one.
pub fn station_of(feed: &Feed, stop: StopId) -> Option<StopId>
    ensures { result ≡ linked.parent_of feed.now stop }
{
    row_of(feed, stop)?.parent
}

/// A stop that walks lead from, with what they go by.
#[derive(Clone, Copy)]
pub struct Start<'r> {
    pub stop: StopId,
    pub is_platform: bool,
    pub station: Option<StopId>,
    /// The rows from the stop, by the stops that they lead to.
    pub own: &'r [LinkRow],
    /// Those from its station.
    pub shared: &'r [LinkRow],
}

/// The rows from a stop, if there is one.
fn rows_from(rules: &Groups<LinkRow>, from: Option<StopId>) -> &[LinkRow]
    ensures { (feed : FeedRows) → AreRules feed.links rules.now → AreRowsFrom feed from result.now }
{
    match from {
        Some(stop) => rules.get(stop.0 as usize),
        None => &[],
    }
}

/// The first of the rows that leads to the stop, if there is one.
fn row_at(rows: &[LinkRow], to: Option<StopId>) -> Option<LinkRow>
    ensures { (feed : FeedRows) (from : Option StopId) → AreRowsFrom feed from rows.now → result ≡ linked.row_between feed from to }
{
    row_to(rows, to?)
}

impl<'r> Start<'r> {
    /// The stop, with what walks out of it go by.
    pub fn of(feed: &Feed, rules: &'r Groups<LinkRow>, stop: StopId) -> Start<'r>
        requires { AreRules feed.now.links rules.now }
        ensures start { IsStart feed.now result }
        ensures stop { result.stop ≡ stop }
    {
        let station = station_of(feed, stop);
        Start {
            stop,
            is_platform: is_platform(feed, stop),
            station,
            own: rows_from(rules, Some(stop)),
            shared: rows_from(rules, station),
        }
    }

    // The row that governs the change to a platform.
    fn governing_row(&self, feed: &Feed, to: StopId) -> Option<LinkRow>
        requires { IsStart feed.now self.now }
        ensures { result ≡ linked.governing_row feed.now self.now.stop to }
    {
        let station = station_of(feed, to);
        if let Some(row) = row_at(self.own, Some(to)) {
            return Some(row);
        }
        if let Some(row) = row_at(self.own, station) {
            return Some(row);
        }
        if let Some(row) = row_at(self.shared, Some(to)) {
            return Some(row);
        }
        row_at(self.shared, station)
    }

    // The walk to a platform that no row governs.
    fn unruled_link(&self, feed: &Feed, to: StopId) -> Option<Secs>
        requires { IsStart feed.now self.now }
        ensures { option_map (λ (s : Secs). s.0) result ≡ linked.unruled_link feed.now self.now.stop to }
    {
        if self.stop.0 == to.0 {
            return Some(Secs(0));
        }
        match (self.station, station_of(feed, to)) {
            (Some(one), Some(other)) if one.0 == other.0 => Some(Secs(180)),
            _ => None,
        }
    }

    /// The walk to the other stop: none where one of them is no platform.
    #[tactic(auto, unfolding(feed_rows::specs::StopLinks::link))]
    pub fn link(&self, feed: &Feed, to: StopId) -> Option<Secs>
        requires { IsStart feed.now self.now }
        ensures { option_map (λ (s : Secs). s.0) result ≡ linked.link feed.now self.now.stop to }
    {
        if !self.is_platform || !is_platform(feed, to) {
            return None;
        }
        match self.governing_row(feed, to) {
            Some(row) => {
                if row.forbidden {
                    None
                } else {
                    Some(Secs(row.seconds))
                }
            }
            None => self.unruled_link(feed, to),
        }
    }
}
