//! With legs of which leg groups a journey can end.
ghost use Rattle.std.specs.Prelude.{◌≡◌, ◌<◌, IfOk, None, Some, slice_get, true, false, vec_len};
ghost use Rattle.plan_rides.specs.Spans.{AreSpans};
ghost use Rattle.fare_tariff.specs.Lasts.{AreLastGroups, AreLastMoves, AreLastNetworks, IsMarkedAt, IsOfMarked, StayMarked, network_place};

use fare_bounds::place_of;
use feed_rows::Feed;
use feed_timetable::Timetable;
use plan_rides::{Rides, Spans};
use std::alloc::{AllocError, Global};
use transit_base::{NetworkId, Secs, StopId};

/// Whether a journey may end at the stop without a further ride, by these seconds to the end of one.
fn is_end(ends: &[Option<Secs>], stop: StopId) -> bool
    ensures { result ≡ false → slice_get ends.now stop.0 ≡ Some None }
{
    match ends.get(stop.0 as usize) {
        Some(span) => span.is_some(),
        None => true,
    }
}

/// Where a mark for the network stands.
fn network_place(network: Option<NetworkId>) -> usize
    ensures { result ≡ network_place network }
{
    match network {
        Some(own) => own.0 as usize + 1,
        None => 0,
    }
}

/// Marks the place.
fn mark(marks: &mut Vec<bool>, place: usize)
    requires { place < vec_len marks.old }
    ensures there { IsMarkedAt marks.new.items place }
    ensures still { StayMarked marks.old.items marks.new.items }
    ensures len { vec_len marks.new ≡ vec_len marks.old }
{
    marks[place] = true;
}

/// Whether the rule names no network, or one that is marked.
fn is_of_marked(networks: &[bool], named: Option<NetworkId>) -> bool
    ensures { IsOfMarked networks.now named → result ≡ true }
{
    match named {
        Some(network) => match networks.get(network.0 as usize + 1) {
            Some(is_marked) => *is_marked,
            None => false,
        },
        None => true,
    }
}

/// The networks of the trips that call where a journey may end, marked by their places.
///
/// # Errors
/// Want of memory.
fn last_networks(
    alloc: Global,
    timetable: &Timetable,
    ends: &[Option<Secs>],
) -> Result<Vec<bool>, AllocError>
    ensures { IfOk result (λ marks. AreLastNetworks timetable.now ends.now marks.items) }
{
    let feed = timetable.feed();
    let mut marks = vec![in alloc; false; feed.network_names.items().len() + 1]?;
    for row in feed.stop_times.items() {
        if is_end(ends, row.stop) {
            mark(&mut marks, network_place(timetable.network(row.trip)));
        }
    }
    Ok(marks)
}

/// The groups of the leg rules that name no network or one that is marked, marked by their places.
///
/// # Errors
/// Want of memory.
fn groups_of(alloc: Global, feed: &Feed, networks: &[bool]) -> Result<Vec<bool>, AllocError>
    ensures { IfOk result (λ lasts. AreLastGroups feed.now networks.now lasts.items) }
{
    let mut lasts = vec![in alloc; false; feed.group_names.items().len() + 2]?;
    for rule in feed.leg_rules.items() {
        if is_of_marked(networks, rule.network) {
            mark(&mut lasts, place_of(rule.group));
        }
    }
    Ok(lasts)
}

/// By the place of a leg group whether a journey of the query may end with a leg of that group: that of legs without one
/// comes first, and those of groups two behind their numbers.
///
/// # Errors
/// Want of memory.
pub fn last_groups(alloc: Global, rides: &Rides, spans: &Spans) -> Result<Vec<bool>, AllocError>
    requires { AreSpans rides.now.feed rides.now.query spans.now }
    ensures { IfOk result (λ lasts. AreLastMoves rides.now.feed rides.now.query lasts.items) }
{
    let timetable = rides.timetable();
    let networks = last_networks(alloc, timetable, spans.stands(0))?;
    groups_of(alloc, timetable.feed(), &networks)
}
