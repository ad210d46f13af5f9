//! The rows for changes between leg groups, found once for each two.
ghost use Rattle.std.specs.Prelude.{◌≡◌, ◌*◌, length, min, IfOk};
ghost use Rattle.fare_transfer_rules.specs.BuiltTransferRules.{AreXferRulesOf};
ghost use Rattle.fare_automaton.specs.Compiled.{ArePairRows, place_of};

use fare_transfer_rules::{ClassedRow, XferRules};
use feed_rows::Feed;
use item_groups::Groups;
use std::alloc::{AllocError, Global};
use transit_base::LegGroupId;

/// So many leg groups have a table of the rows for changes between each two, which grows with the square of their
/// number. Rows for others are searched for.
const GROUPS: usize = 64;

/// The rows for changes from each of the first leg groups to each.
///
/// # Errors
/// Want of memory.
pub fn rows_of_pairs(
    alloc: Global,
    feed: &Feed,
    rules: &XferRules,
) -> Result<Groups<ClassedRow>, AllocError>
    requires { AreXferRulesOf feed.now rules.now }
    ensures rows { IfOk result (ArePairRows feed.now) }
    ensures many { IfOk result (λ pairs. length pairs ≡ min (length feed.now.group_names) 64 * 64) }
{
    let count = feed.group_names.items().len().min(GROUPS);
    let mut pairs = Groups::empty(alloc);
    for place in 0..count * GROUPS {
        let from = LegGroupId((place / GROUPS) as u32);
        let to = LegGroupId((place % GROUPS) as u32);
        pairs.push(rules.rows_between(from, to))?;
    }
    Ok(pairs)
}

/// Where the rows for changes from the one leg group to the other stand, if they have a place.
pub fn place_of(from: LegGroupId, to: LegGroupId) -> Option<usize>
    ensures { result ≡ place_of from to }
{
    if (to.0 as usize) < GROUPS {
        Some(from.0 as usize * GROUPS + to.0 as usize)
    } else {
        None
    }
}
