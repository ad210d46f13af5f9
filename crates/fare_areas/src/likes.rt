//! Stops that are alike to fare rules.
ghost use Rattle.std.specs.Prelude.{◌≡◌, length, IfOk, IfSome};
ghost use Rattle.feed_rows.specs.FeedRows.{FeedRows};
ghost use Rattle.feed_rows.specs.Legs.{stop_areas};
ghost use Rattle.fare_areas.specs.BuiltAreas.{AreAreasOf};
ghost use Rattle.fare_areas.specs.LikeStops.{areas_placed, AreFirsts, AreLikeStops};

use crate::Areas;
use feed_rows::Feed;
use ride_cache::unfilled;
use std::alloc::{AllocError, Global};
use transit_base::{AreaId, StopId};

/// Of each stop one with the same areas.
///
/// # Errors
/// Want of memory.
pub fn like_stops(alloc: Global, feed: &Feed, areas: &Areas) -> Result<Vec<StopId>, AllocError>
    requires { AreAreasOf feed.now areas.now }
    ensures { IfOk result (λ likes. AreLikeStops feed.now likes.items) }
{
    let mut firsts = unfilled(alloc, feed.areas.items().len() + 1)?;
    let mut likes = Vec::new(alloc);
    for number in 0..feed.stops.items().len() as u32 {
        likes.push(like_stop(areas, &mut firsts, StopId(number)))?;
    }
    Ok(likes)
}

/// The first stop that has the same areas as this one, where these are one or none, and else the stop itself.
fn like_stop(areas: &Areas, firsts: &mut [Option<StopId>], stop: StopId) -> StopId
    ensures many { length firsts.new ≡ length firsts.old }
    ensures like { (feed : FeedRows) → AreAreasOf feed areas.now → AreFirsts feed firsts.old → stop_areas feed result ≡ stop_areas feed stop }
    ensures firsts { (feed : FeedRows) → AreAreasOf feed areas.now → AreFirsts feed firsts.old → AreFirsts feed firsts.new }
{
    let Some(place) = place_of(areas.areas_of(stop)) else {
        return stop;
    };
    if place >= firsts.len() {
        return stop;
    }
    match firsts[place] {
        Some(first) => first,
        None => {
            firsts[place] = Some(stop);
            stop
        }
    }
}

/// Where the first stop with these areas stands, if they are one or none.
fn place_of(areas: &[AreaId]) -> Option<usize>
    ensures { IfSome result (λ place. areas.now ≡ areas_placed place) }
{
    match areas {
        [] => Some(0),
        [area] => Some(area.0 as usize + 1),
        _ => None,
    }
}
