//! Changes from a fare state to the next leg.
ghost use Rattle.std.specs.Prelude.{◌≡◌, ◌+◌, ◌==◌, if◌then◌else◌, option_map};
ghost use Rattle.feed_rows.specs.FareSteps.{asked_after};
ghost use Rattle.fare_transfer_rules.specs.Changes.{asked_of};
ghost use Rattle.fare_automaton.specs.Changes.{leg_of};

use fare_transfer_rules::Change;
use feed_rows::FareState;
use transit_base::{LegGroupId, Moment};

/// When a leg departs and arrives.
#[derive(Clone, Copy)]
pub struct LegTimes {
    pub departure: Moment,
    pub arrival: Moment,
}

/// A leg as changes see it: the leg group of its rule, and its moments.
#[derive(Clone, Copy)]
pub struct GroupedLeg {
    pub group: Option<LegGroupId>,
    pub departure: Moment,
    pub arrival: Moment,
}

/// The change from the state to the next leg; none where one of the two has no group.
pub fn change_after(state: &FareState, next: &GroupedLeg) -> Option<Change>
    ensures { option_map asked_of result ≡ asked_after state.now (leg_of next.now) }
{
    match (state.group, next.group) {
        (Some(from), Some(to)) => Some(Change {
            from,
            to,
            count: count_after(state.count, from, to),
            departure: state.departure,
            arrival: state.arrival,
            next_departure: next.departure,
            next_arrival: next.arrival,
        }),
        _ => None,
    }
}

/// The count of a change between these groups after so many changes.
fn count_after(changes: u32, from: LegGroupId, to: LegGroupId) -> u64
    ensures { result ≡ (if from.0 == to.0 then changes + 1 else 1) }
{
    if from.0 == to.0 {
        u64::from(changes) + 1
    } else {
        1
    }
}
