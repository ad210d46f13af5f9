//! Until when a change to a leg of some groups can be arranged.
ghost use Rattle.std.specs.Prelude.{◌≡◌, [], IfOk, Some};
ghost use Rattle.std.specs.List.{list_any};
ghost use Rattle.feed_rows.specs.TransferRules.{same_group};
ghost use Rattle.fare_bounds.specs.LastChanges.{AreLastChanges, AreLongestTo, can_match_one, last_after, lasting};

use crate::amounts::row_place;
use crate::limits::{late_by, longest_limit, raise};
use feed_rows::{FareState, Feed, Limit, same_group};
use std::alloc::{AllocError, Global};
use std::marker::Model;
use transit_base::LegGroupId;

/// The seconds of a limit that is never over.
const ENDLESS: u32 = u32::MAX;

/// A moment before all others, in seconds.
const LONG_AGO: i128 = -(1 << 62);

/// Until when a change to a leg of some groups can be arranged after a fare state. Contracts see for how many seconds after the
/// clocks of the state, by the place of its group.
pub struct LastChanges {
    limits: Vec<u32>,
}

// Written out, so that what holds one needn't look into it to let go of it.
impl Drop for LastChanges {
    fn drop(self) {
        let LastChanges { limits: _ } = self;
    }
}

impl Model for LastChanges {
    ghost use Rattle.std.specs.Prelude.{List, ℕ};

    ghost Value = { List ℕ };

    ghost view = { λ s. s.limits.items };
}

/// Whether the group is one of these.
fn has_group(groups: &[Option<LegGroupId>], group: LegGroupId) -> bool
    ensures { result ≡ list_any (λ own. same_group own (Some group)) groups.now }
{
    groups.iter().any(|own| same_group(*own, Some(group)))
}

/// Whether the field of a transfer rule can match one of the groups.
fn can_match_one(groups: &[Option<LegGroupId>], field: Option<LegGroupId>) -> bool
    ensures { result ≡ can_match_one groups.now field }
{
    match field {
        Some(group) => has_group(groups, group),
        None => true,
    }
}

/// How many seconds a transfer rule with this limit lasts.
fn lasting(limit: Option<Limit>) -> u32
    ensures { result ≡ lasting limit }
{
    match limit {
        Some(own) => own.seconds,
        None => ENDLESS,
    }
}

/// How long the transfer rules for changes to one of the groups last at most, by the place of the groups before their changes.
fn longest_to(
    alloc: Global,
    feed: &Feed,
    groups: &[Option<LegGroupId>],
) -> Result<Vec<u32>, AllocError>
    ensures { IfOk result (λ limits. AreLongestTo feed.now groups.now limits.items) }
{
    let mut limits = vec![in alloc; 0; feed.group_names.items().len() + 2]?;
    for row in feed.transfer_rules.items() {
        if can_match_one(groups, row.to) {
            raise(&mut limits, row_place(row.from), lasting(row.limit));
        }
    }
    Ok(limits)
}

impl LastChanges {
    /// For no groups.
    pub fn none(alloc: Global) -> LastChanges
        ensures { result ≡ [] }
    {
        LastChanges {
            limits: Vec::new(alloc),
        }
    }

    /// For legs of these groups, by the transfer rules of the feed.
    ///
    /// # Errors
    /// Want of memory.
    pub fn to(
        alloc: Global,
        feed: &Feed,
        groups: &[Option<LegGroupId>],
    ) -> Result<LastChanges, AllocError>
        ensures { IfOk result (AreLastChanges feed.now groups.now) }
    {
        let limits = longest_to(alloc, feed, groups)?;
        Ok(LastChanges { limits })
    }

    /// The seconds of the moment past which no change is arranged from the state to a leg of the groups; none where one can be
    /// arranged at any time.
    #[inline]
    pub fn last_after(&self, state: &FareState) -> Option<i128>
        ensures { result ≡ last_after self.now state.now }
    {
        if ENDLESS <= longest_limit(&self.limits, state.group) {
            return None;
        }
        Some(late_by(&self.limits, state).unwrap_or(LONG_AGO))
    }
}
