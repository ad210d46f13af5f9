//! The fare areas of stops and the fare networks of routes.
#![tactic(auto)]

ghost use Rattle.std.specs.Prelude.{◌≡◌, ℕ, ◌<◌, ◌^◌, All, length, map, slice_get, option_and_then, IfOk};
ghost use Rattle.feed_rows.specs.FeedRows.{FeedRows};
ghost use Rattle.feed_rows.specs.Legs.{stop_areas};
ghost use Rattle.plain_laws.specs.Plain.{list_below};
ghost use Rattle.item_groups.specs.Groups.{groups_below};
ghost use Rattle.fare_areas.specs.AreaRows.{by_stop, areas_at, DoRise, area_of, ordered, own_table, source_in, source_at, route_network};
ghost use Rattle.fare_areas.specs.BuiltAreas.{AreAreasOf};

mod likes;

pub use crate::likes::like_stops;
use feed_rows::{Feed, PLATFORM, RouteRow, STATION, StopAreaRow, StopRow};
use item_groups::{Grouped, Groups};
use std::alloc::{AllocError, Global};
use std::marker::Model;
use transit_base::{AreaId, NetworkId, RouteId, StopId};

/// The fare areas of the stops of a feed, and the fare networks of its routes.
///
/// What the calls answer is about the feed that the value was built from.
pub struct Areas {
    /// The areas of each stop's own rows, ascending, each once.
    own: Groups<AreaId>,
    /// Of each stop, the one whose rows tell its areas: itself, or a platform's station.
    sources: Vec<Option<StopId>>,
    /// The network of each route.
    networks: Vec<Option<NetworkId>>,
}

// Written out, so that what holds one needn't look into it to let go of it.
impl Drop for Areas {
    fn drop(self) {
        let Areas {
            own: _,
            sources: _,
            networks: _,
        } = self;
    }
}

impl Model for Areas {
    ghost use Rattle.std.specs.Prelude.{All};
    ghost use Rattle.fare_areas.specs.AreaTables.{AreaTable, table_inside};
    ghost use Rattle.fare_areas.specs.AreaRows.{DoRise};

    ghost Value = { AreaTable };

    ghost view = { table_inside };

    ghost invariant = { λ fields. All DoRise fields.own };
}

impl Areas {
    /// The areas of the feed.
    ///
    /// # Errors
    /// Want of memory.
    pub fn build(alloc: Global, feed: &Feed) -> Result<Areas, AllocError>
        ensures { IfOk result (λ areas. AreAreasOf feed.now areas) }
    {
        let stops = feed.stops.items();
        let own = own_areas(alloc, feed)?;
        let sources = sources_of(alloc, stops, &own)?;
        let networks = networks_of(alloc, feed.routes.items())?;
        Ok(Areas {
            own,
            sources,
            networks,
        })
    }

    /// The areas of the stop, ascending, each once: a platform's own or, where it has no rows, its station's; a station's
    /// own. There are none for a place of another kind, nor for a number that is no stop's.
    pub fn areas_of(&self, stop: StopId) -> &[AreaId]
        ensures areas { (feed : FeedRows) → AreAreasOf feed self.now → result.now ≡ stop_areas feed stop }
        ensures rise { DoRise result.now }
    {
        match self.source_of(stop) {
            Some(source) => self.own.get(source.0 as usize),
            None => &[],
        }
    }

    /// The stop whose rows tell the areas of the stop.
    fn source_of(&self, stop: StopId) -> Option<StopId>
        ensures { result ≡ option_and_then (λ source. source) (slice_get self.now.sources stop.0) }
    {
        match self.sources.get(stop.0 as usize) {
            Some(source) => *source,
            None => None,
        }
    }

    /// The network of the route's row; none where the row has none, or where no route has this number.
    pub fn network_of(&self, route: RouteId) -> Option<NetworkId>
        ensures { (feed : FeedRows) → AreAreasOf feed self.now → result ≡ route_network feed route }
    {
        match self.networks.get(route.0 as usize) {
            Some(network) => *network,
            None => None,
        }
    }
}

/// The areas of the own rows of each stop, ascending, each once.
fn own_areas(alloc: Global, feed: &Feed) -> Result<Groups<AreaId>, AllocError>
    ensures { IfOk result (λ own. own ≡ own_table feed.now) }
{
    let count = feed.stops.items().len() as u32;
    let members = grouped_rows(alloc, feed.stop_areas.items())?;
    let rows = Groups::of(alloc, members, count)?;
    each_in_order(alloc, &rows, count)
}

/// The area of each row with the stop's number.
fn grouped_rows(alloc: Global, rows: &[StopAreaRow]) -> Result<Vec<Grouped<AreaId>>, AllocError>
    ensures { IfOk result (λ members. members.items ≡ map by_stop rows.now) }
{
    rows.iter().map(|row| grouped(row)).collect(alloc)
}

/// The area of the row with the stop's number.
fn grouped(row: &StopAreaRow) -> Grouped<AreaId>
    ensures { result ≡ by_stop row.now }
{
    Grouped {
        group: row.stop.0,
        item: row.area,
    }
}

/// Each of the first so many groups in ascending order, each area once.
fn each_in_order(
    alloc: Global,
    groups: &Groups<AreaId>,
    count: u32,
) -> Result<Groups<AreaId>, AllocError>
    ensures { IfOk result (λ own. (most : ℕ) → ((stop : ℕ) → All (λ a. a.0 < most) (areas_at groups.now stop)) → own ≡ list_below count (λ stop. ordered most (areas_at groups.now stop))) }
{
    let mut own = Groups::empty(alloc);
    for stop in 0..count {
        let areas = in_order(alloc, groups.get(stop as usize))?;
        own.push(areas.as_slice())?;
    }
    Ok(own)
}

/// The areas in ascending order, each once.
fn in_order(alloc: Global, areas: &[AreaId]) -> Result<Vec<AreaId>, AllocError>
    ensures { IfOk result (λ kept. (most : ℕ) → All (λ a. a.0 < most) areas.now → kept.items ≡ ordered most areas.now) }
{
    let mut kept = Vec::from_slice(alloc, areas)?;
    kept.sort_unstable();
    kept.dedup();
    Ok(kept)
}

/// Of each stop, the one whose rows tell its areas.
fn sources_of(
    alloc: Global,
    stops: &[StopRow],
    own: &Groups<AreaId>,
) -> Result<Vec<Option<StopId>>, AllocError>
    requires { length stops.now < 2 ^ 32 }
    ensures { IfOk result (λ sources. sources.items ≡ list_below (length stops.now) (source_at own.now stops.now)) }
{
    let mut sources = Vec::with_capacity(alloc, stops.len())?;
    for number in 0..stops.len() {
        sources.push(source_in(own, &stops[number], number as u32))?;
    }
    Ok(sources)
}

/// The stop whose rows tell the areas of the stop with this row and number.
fn source_in(own: &Groups<AreaId>, row: &StopRow, number: u32) -> Option<StopId>
    ensures { result ≡ source_in own.now row.now number }
{
    if row.kind == PLATFORM && own.get(number as usize).is_empty() {
        return row.parent;
    }
    if row.kind == PLATFORM || row.kind == STATION {
        return Some(StopId(number));
    }
    None
}

/// The network of each route.
fn networks_of(alloc: Global, routes: &[RouteRow]) -> Result<Vec<Option<NetworkId>>, AllocError>
    ensures { IfOk result (λ networks. networks.items ≡ map (λ row. row.network) routes.now) }
{
    routes.iter().map(|row| row.network).collect(alloc)
}
