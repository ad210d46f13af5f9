//! What fares must share for one to be as good as another.
ghost use Rattle.std.specs.Prelude.{◌≡◌};
ghost use Rattle.std.specs.Cmp.{partial_equiv_from_equiv};
ghost use Rattle.fare_tariff.specs.FareClasses.{group_number, moment_number};

use feed_rows::FareState;
use std::hash::{Hash, Hasher};
use transit_base::{LegGroupId, Moment};

/// A state of fares: no fare is as good as one of another state.
#[derive(Clone, Copy)]
pub struct FareClass {
    pub(crate) state: FareState,
}

impl PartialEq for FareClass {
    ghost use Rattle.fare_tariff.specs.FareClasses.{same_class, class_equivalence};

    ghost eq = { same_class };

    ghost laws = { partial_equiv_from_equiv class_equivalence };

    #[tactic(auto, unfolding(feed_rows::specs::SameStates::same_parts))]
    fn eq(&self, other: &Self) -> bool {
        self.state == other.state
    }
}

impl Eq for FareClass {
    ghost use Rattle.fare_tariff.specs.FareClasses.{class_equivalence};

    ghost laws = { class_equivalence };
}

impl Hash for FareClass {
    ghost use Rattle.fare_tariff.specs.FareClasses.{class_input, class_input-same};

    ghost hash_input = { class_input };

    ghost respects_eq = { class_input-same };

    fn hash<H: Hasher>(&self, state: &mut H) {
        let fares = &self.state;
        state.write_u32(group_number(fares.group));
        state.write_u32(fares.count);
        state.write_i64(moment_number(fares.departure));
        state.write_i64(moment_number(fares.arrival));
    }
}

/// A number of the group, for a hash.
#[tactic(auto, unfolding(crate::specs::FareClasses::group_number))]
fn group_number(group: Option<LegGroupId>) -> u32
    ensures { result ≡ group_number group }
{
    match group {
        Some(named) => named.0,
        None => 0,
    }
}

/// A number of the moment, for a hash.
#[tactic(auto, unfolding(crate::specs::FareClasses::moment_number))]
fn moment_number(moment: Option<Moment>) -> i64
    ensures { result ≡ moment_number moment }
{
    match moment {
        Some(at) => at.0,
        None => 0,
    }
}
