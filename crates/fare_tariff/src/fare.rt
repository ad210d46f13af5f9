//! What a search by rounds keeps of the fares of a partial journey.
ghost use Rattle.std.specs.Prelude.{◌≡◌, ◌+ℤ◌, ◌<◌, ◌^◌, ◌≤◌, nat_abs};
ghost use Rattle.feed_rows.specs.Amounts.{is_no_dearer};
ghost use Rattle.feed_rows.specs.Limits.{most_rides};
ghost use Rattle.fare_laws.specs.SmallMoves.{IsSmall};
ghost use Rattle.fare_tariff.specs.FareTerms.{IsFare, fare_after, spent_of};

use crate::fare_class::FareClass;
use feed_rows::{FareState, Move};
use label_order::LabelOrder;
use round_terms::Classed;
use transit_base::Money;

/// What was paid, what is held, and the state of fares.
#[derive(Clone, Copy)]
pub struct Fare {
    /// What of the price no later change takes back, in minor units.
    pub paid: Money,
    /// What a later change of type 2 would take back, in minor units.
    pub held: Money,
    /// The state of fares; none without rides.
    pub state: Option<FareState>,
}

impl Fare {
    /// The price so far, with what is held.
    pub fn price(&self) -> i128
        ensures value { result ≡ self.now.paid.0 +ℤ self.now.held.0 }
        ensures low { nat_abs result ≤ 2 ^ 64 }
    {
        i128::from(self.paid.0) + i128::from(self.held.0)
    }

    /// What is kept after so many rides and one more, which the move pays.
    pub(crate) fn after(&self, rides: u8, taken: &Move) -> Fare
        requires few { rides < most_rides }
        requires fare { IsFare rides self.now }
        requires small { IsSmall taken.now }
        ensures { result ≡ fare_after self.now taken.now }
    {
        Fare {
            paid: Money(self.paid.0 + taken.paid.0),
            held: taken.held,
            state: Some(taken.state),
        }
    }
}

impl LabelOrder for Fare {
    ghost use Rattle.fare_tariff.specs.FareTerms.{at_most};
    ghost use Rattle.fare_tariff.specs.FareOrder.{fare_order};

    ghost at_most = { at_most };

    #[tactic(auto, unfolding(crate::specs::FareTerms::at_most, feed_rows::specs::SameStates::same_parts))]
    fn leq(&self, other: &Self) -> bool {
        is_no_dearer(self, other) && self.state == other.state
    }

    ghost laws = { fare_order };
}

/// By their states: fares of journeys without rides have no class.
impl Classed for Fare {
    ghost use Rattle.fare_tariff.specs.FareOrder.{class_of, keeps_class};

    type Class = FareClass;

    ghost class_of = { class_of };

    fn class(&self) -> Option<FareClass> {
        match self.state {
            Some(state) => Some(FareClass { state }),
            None => None,
        }
    }

    ghost classes = { keeps_class };
}

/// Whether the one has neither paid more nor costs more.
#[inline(always)]
#[tactic(auto, unfolding(feed_rows::specs::Amounts::is_no_dearer))]
fn is_no_dearer(a: &Fare, b: &Fare) -> bool
    ensures { result ≡ is_no_dearer (spent_of a.now) (spent_of b.now) }
{
    a.paid.0 <= b.paid.0 && a.price() <= b.price()
}
