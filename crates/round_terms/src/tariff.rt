//! What a search by rounds asks of fares.
ghost use Rattle.std.specs.Prelude.{◌≡◌, ◌+◌, ◌<◌, ◌≤◌, ◌≤ℤ◌, IfSome, OnOk};
ghost use Rattle.feed_rows.specs.Limits.{most_rides};

use crate::classes::Classed;
use crate::label::Label;
use crate::leg::Leg;
use plan_rides::CaughtRide;
use std::alloc::{AllocError, Global};
use transit_base::{Moment, Money};

/// What no journey of some costs less than, in minor units.
#[derive(Clone, Copy)]
pub struct LeastPrice(pub i128);

/// What a search keeps of the fares of a partial journey, what each further ride makes of that, and what a journey costs.
pub trait Tariff {
    ghost use Rattle.feed_rows.specs.declared.journeys.RideFacts.{RideFacts};
    ghost use Rattle.round_terms.specs.Labels.{facts_of};
    ghost use Rattle.std.specs.Prelude.{Some, ℕ};
    ghost use Rattle.transit_base.specs.declared.moments.Moment.{Moment};
    ghost use Rattle.plan_rides.specs.InTime.{IsWithinWindow};
    ghost use Rattle.round_terms.specs.Costs.{AreLate, CostOn, IsLateIf};
    ghost use Rattle.round_terms.specs.Legs.{AreKnown, AreSettled};
    ghost use Rattle.round_terms.specs.Tasks.{Asked, task_of};
    ghost use Rattle.round_terms.specs.Terms.{AreEnough, IsLawful, Terms};

    /// What is kept: of partial journeys that stand alike, the one is as good as the other where its fare is at most the other's. Labels
    /// are kept, and compared, by its classes.
    type Fare: Classed;

    /// What pays a ride.
    type Move: Copy;

    /// What is known of the rides from a position.
    type Legs: Drop;

    /// What is kept for its memory from ride to ride.
    type Room: Drop;

    ghost terms: { Self → Terms Self.Fare Self.Move };

    // It is the tariff of the query over the feed.
    ghost Serves: { Asked Self → Type 0 };

    // What is known is known by the tariff.
    ghost Knows: { Self → Self.Legs → Type 0 };

    // It is known of the ride with this place.
    ghost IsKnown: { Self → Self.Legs → ℕ → RideFacts → Type 0 };

    /// What is kept of a journey without rides.
    fn begin(&self) -> Self::Fare
        ensures { result ≡ (terms self.now).begins };

    /// Replaces what is known by what is known of these rides.
    ///
    /// # Errors
    /// Want of memory.
    fn find_legs(
        &self,
        alloc: Global,
        rides: &[CaughtRide],
        legs: &mut Self::Legs,
    ) -> Result<(), AllocError>
        requires { Knows self.now legs.old }
        ensures knows { OnOk result (Knows self.now legs.new) }
        ensures known { OnOk result (AreKnown (IsKnown self.now legs.new) rides.now) };

    /// Whether the ride needn't be tried, where any journey may be passed over: another that is like it departs before it, since the
    /// moment.
    fn is_repeated(&self, leg: &Leg<'_, Self::Legs>, since: Moment) -> bool;

    /// Replaces the moves by enough of those that pay the ride after the label: of each that pays it, one leads to what is as good.
    ///
    /// # Errors
    /// Want of memory.
    fn moves_into(
        &self,
        label: &Label<Self::Fare, Self::Move>,
        leg: &Leg<'_, Self::Legs>,
        room: &mut Self::Room,
        moves: &mut Vec<Self::Move>,
    ) -> Result<(), AllocError>
        requires fare { (terms self.now).IsFare label.now.rides label.now.fare }
        requires known { IsKnown self.now leg.now.legs.now leg.now.place leg.now.caught.now.facts }
        requires knows { Knows self.now leg.now.legs.now }
        ensures { OnOk result (AreEnough Self.Fare.at_most (terms self.now) (facts_of label.now) leg.now.caught.now.facts moves.new.items) };

    /// What is kept after the ride, which the move pays.
    fn after(
        &self,
        label: &Label<Self::Fare, Self::Move>,
        ride: &CaughtRide,
        taken: &Self::Move,
    ) -> Self::Fare
        requires fare { (terms self.now).IsFare label.now.rides label.now.fare }
        requires few { label.now.rides < most_rides }
        requires pays { (terms self.now).Pays (facts_of label.now) ride.now.facts taken.now }
        ensures { result ≡ (terms self.now).after (facts_of label.now) ride.now.facts taken.now };

    /// What a journey costs that ends so, in minor units.
    fn price(&self, label: &Label<Self::Fare, Self::Move>) -> Money
        requires fare { (terms self.now).IsFare label.now.rides label.now.fare }
        requires few { label.now.rides ≤ most_rides }
        ensures { result.0 ≡ (terms self.now).price label.now.fare };

    /// What no journey costs less than that goes on from the label, or ends so, in minor units: what is found for as much cuts the
    /// label off, unless it arrives later or has more rides.
    fn least(&self, label: &Label<Self::Fare, Self::Move>) -> LeastPrice
        requires fare { (terms self.now).IsFare label.now.rides label.now.fare }
        requires few { label.now.rides ≤ most_rides }
        ensures { result.0 ≡ (terms self.now).least (facts_of label.now) };

    /// What no journey of the query costs less than that goes on from the label by a ride, a late one where that is asked, and so many
    /// more, in minor units; none where no journey does.
    fn least_on(
        &self,
        label: &Label<Self::Fare, Self::Move>,
        behind: u8,
        late: bool,
    ) -> Option<LeastPrice>
        requires fare { (terms self.now).IsFare label.now.rides label.now.fare }
        requires few { label.now.rides + behind < most_rides }
        ensures { (asked : Asked Self) → asked.tariff ≡ self.now → Serves asked → IsWithinWindow asked.query label.now.arrival.0 → label.now.rides + behind < asked.query.rides → CostOn (task_of Self.Fare.at_most terms asked) (IsLateIf (terms self.now) (facts_of label.now) late) behind (facts_of label.now) result };

    /// A moment such that rides which depart behind it, and no later than `last`, are late after the label; none where the tariff tells
    /// no rides apart by that. Rides before `first` aren't asked about.
    fn late_since(
        &self,
        label: &Label<Self::Fare, Self::Move>,
        first: Moment,
        last: Moment,
    ) -> Option<Moment>
        requires { (terms self.now).IsFare label.now.rides label.now.fare }
        ensures { (moment : Moment) → result ≡ Some moment → AreLate (terms self.now) (facts_of label.now) moment.0 last.0 };

    /// A moment behind which all the rides that are known are settled after the label, from `first` on; none where that isn't before
    /// `last`.
    fn settled_since(
        &self,
        label: &Label<Self::Fare, Self::Move>,
        legs: &Self::Legs,
        first: Moment,
        last: Moment,
    ) -> Option<Moment>
        requires { (terms self.now).IsFare label.now.rides label.now.fare }
        ensures first { IfSome result (λ since. first.0 ≤ℤ since.0) }
        ensures settled { (asked : Asked Self) → asked.tariff ≡ self.now → Serves asked → IfSome result (λ since. AreSettled (terms self.now) asked.feed (IsKnown self.now legs.now) (facts_of label.now) since.0) };

    ghost lawful: { (asked : Asked Self) → Serves asked → IsLawful asked.query.rides Self.Fare.at_most (terms asked.tariff) };
}
