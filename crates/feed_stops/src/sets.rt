//! The platforms that each stop of a feed stands for.
ghost use Rattle.std.specs.Prelude.{◌≡◌, ℕ, ◌++◌, ◌<◌, ◌≤◌, ◌^◌, ◌==◌, if◌then◌else◌, [], ◌∷◌, length, IfOk, OnOk};
ghost use Rattle.item_groups.specs.Groups.{group_of};
ghost use Rattle.feed_rows.specs.StopSets.{stop_sets, row_sets, row_sets_at};
ghost use Rattle.plain_laws.specs.Plain.{joined_below};

use feed_rows::{Feed, PLATFORM, StopRow};
use item_groups::{Grouped, Groups};
use std::alloc::{AllocError, Global};
use transit_base::StopId;

/// The platforms that each stop stands for, one group a stop: a platform for itself, a station for its platforms in
/// file order, and no platform for a place of another kind.
///
/// # Errors
/// Want of memory.
pub fn stop_sets(alloc: Global, feed: &Feed) -> Result<Groups<StopId>, AllocError>
    ensures { IfOk result (λ sets. sets ≡ stop_sets feed.now) }
{
    let stops = feed.stops.items();
    let members = memberships(alloc, stops)?;
    Groups::of(alloc, members, stops.len() as u32)
}

/// Each platform with itself and with its station, in file order.
fn memberships(alloc: Global, stops: &[StopRow]) -> Result<Vec<Grouped<StopId>>, AllocError>
    requires { length stops.now < 2 ^ 32 }
    ensures { IfOk result (λ members. (i : ℕ) → group_of members.items i ≡ joined_below (length stops.now) (λ r. row_sets_at stops.now r i)) }
{
    let mut members = Vec::new(alloc);
    for row in 0..stops.len() {
        push_row(&mut members, &stops[row], row as u32)?;
    }
    Ok(members)
}

/// Adds the stop of this row to its sets.
fn push_row(members: &mut Vec<Grouped<StopId>>, stop: &StopRow, row: u32) -> Result<(), AllocError>
    ensures { OnOk result ((i : ℕ) → group_of members.new.items i ≡ group_of members.old.items i ++ row_sets stop.now row i) }
{
    if stop.kind == PLATFORM {
        push_member(members, row, StopId(row))?;
        if let Some(station) = stop.parent {
            push_member(members, station.0, StopId(row))?;
        }
    }
    Ok(())
}

/// Adds the item to the group.
fn push_member(
    members: &mut Vec<Grouped<StopId>>,
    group: u32,
    item: StopId,
) -> Result<(), AllocError>
    ensures { OnOk result ((i : ℕ) → group_of members.new.items i ≡ group_of members.old.items i ++ (if group == i then item ∷ [] else [])) }
{
    members.push(Grouped { group, item })?;
    Ok(())
}
