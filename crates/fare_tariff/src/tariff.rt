//! The tariff of a query over a feed.
ghost use Rattle.std.specs.Prelude.{◌≡◌, ◌||◌, ◌+◌, ◌+ℤ◌, ◌*ℤ◌, ◌*◌, ◌^◌, ◌≤◌, ◌≤ℤ◌, ℤ, IfSome, None, OnOk, Some, nat_abs, pos};
ghost use Rattle.fare_automaton.specs.Fewest.{AreEnough, AreEnoughMoves};
ghost use Rattle.fare_automaton.specs.Terms.{terms};
ghost use Rattle.feed_rows.specs.FareFloor.{fare_floor};
ghost use Rattle.feed_rows.specs.Legs.{leg_facts};
ghost use Rattle.feed_rows.specs.SoundFeed.{IsSoundFeed};
ghost use Rattle.plan_rides.specs.InTime.{IsUsualQuery};
ghost use Rattle.round_laws.specs.Futility.{least_end, least_price, some_takes_back};
ghost use Rattle.round_terms.specs.Labels.{facts_of};
ghost use Rattle.fare_tariff.specs.FareTerms.{IsFare, label_facts, tariff_of};

use crate::fare::Fare;
use crate::legs::{FareLegs, FareRoom};
use crate::moves::best_into;
use crate::prices::{LeastPrices, is_far};
use fare_automaton::{Automaton, LegTimes};
use feed_rows::{CHANGE_ALONE, Feed, LegChoice, Move, Query, RideFacts};
use plan_rides::{CaughtRide, Rides};
use round_terms::{Label, LeastPrice, Leg, Tariff};
use std::alloc::{AllocError, Global};
use std::marker::Model;
use transit_base::{Moment, Money};

/// What a query's rides cost by the fare rules of a feed. Contracts see the feed, the query, whether the search is to be whole, and
/// what further rides cost at least.
#[derive(Drop)]
pub struct FareTariff<'l> {
    query: &'l Query,
    /// The fares for the query's buyer.
    automaton: &'l Automaton<'l>,
    /// How little further rides can cost.
    prices: &'l LeastPrices,
    whole: bool,
    /// Whether rides may be passed over that are like earlier ones.
    quick: bool,
    /// Whether some change takes back what a leg before it cost.
    takes_back: bool,
}

impl<'l> Model for FareTariff<'l> {
    ghost use Rattle.std.specs.Prelude.{◌≡◌};
    ghost use Rattle.feed_rows.specs.Journeys.{asked};
    ghost use Rattle.plan_rides.specs.InTime.{IsUsualQuery};
    ghost use Rattle.fare_tariff.specs.FareTerms.{TariffOf, tariff_of};
    ghost use Rattle.round_laws.specs.Futility.{some_takes_back};

    ghost Value = { TariffOf };

    ghost view = { λ s. tariff_of (asked s.automaton.now.feed s.query.now) s.prices.now s.whole };

    ghost invariant = { λ s. (s.automaton.now.buyer ≡ s.query.now.buyer) × (s.takes_back ≡ some_takes_back s.automaton.now.feed) × IsUsualQuery s.query.now };
}

/// Whether some change takes back what a leg before it cost.
#[tactic(auto, unfolding(round_laws::specs::Futility::some_takes_back))]
fn takes_back(feed: &Feed) -> bool
    ensures { result ≡ some_takes_back feed.now }
{
    feed.transfer_rules
        .items()
        .iter()
        .any(|row| row.kind == CHANGE_ALONE)
}

/// So many times the amount.
fn times(amount: Money, count: u8) -> i128
    ensures value { result ≡ amount.0 *ℤ pos count }
    ensures low { nat_abs result ≤ 2 ^ 63 * 255 }
{
    let mut sum = 0;
    for _time in 0..count {
        sum += i128::from(amount.0);
    }
    sum
}

/// The moment, or the first where that is later; none where there is none, or where it is no earlier than the last one.
fn since_at(past: Option<i128>, first: Moment, last: Moment) -> Option<Moment>
    ensures none { past ≡ None → result ≡ None }
    ensures later { (at : ℤ) → past ≡ Some at → IfSome result (λ since. at ≤ℤ since.0) }
    ensures there { IfSome result (λ since. first.0 ≤ℤ since.0) }
{
    match past {
        Some(at) => {
            if i128::from(last.0) <= at {
                return None;
            }
            if at <= i128::from(first.0) {
                return Some(first);
            }
            Some(Moment(at as i64))
        }
        None => None,
    }
}

impl<'l> FareTariff<'l> {
    /// Of the query of these rides, by the fares for its buyer, and what further rides cost at least; for a search that is to be
    /// whole, or for a quick one, which may pass over rides.
    pub fn of(
        rides: &Rides<'l>,
        automaton: &'l Automaton<'l>,
        prices: &'l LeastPrices,
        whole: bool,
        quick: bool,
    ) -> FareTariff<'l>
        requires { automaton.now ≡ terms rides.now.feed rides.now.query.buyer }
        ensures { result ≡ tariff_of rides.now prices.now whole }
    {
        FareTariff {
            query: rides.query(),
            automaton,
            prices,
            whole,
            quick,
            takes_back: takes_back(automaton.feed()),
        }
    }

    /// The feed.
    fn feed(&self) -> &'l Feed
        ensures value { result.now ≡ self.now.feed }
        ensures sound { IsSoundFeed self.now.feed }
    {
        self.automaton.feed()
    }

    /// The greatest number of rides.
    fn limit(&self) -> u8
        ensures is { result ≡ self.now.query.rides }
        ensures usual { IsUsualQuery self.now.query }
    {
        self.query.rides
    }

    /// How little a leg with the change to it can cost.
    fn floor(&self) -> Money
        ensures { result.0 ≡ fare_floor self.now.feed self.now.query.buyer }
    {
        self.automaton.floor()
    }

    /// Whether what is held counts as taken back: where some change takes it back, and for a search that is to be whole always.
    fn takes_held_back(&self) -> bool
        ensures { result ≡ (self.now.whole || some_takes_back self.now.feed) }
    {
        self.whole || self.takes_back
    }

    /// The least price from which a journey can go on with the fare.
    fn least_price(&self, label: &Label<Fare, Move>) -> i128
        ensures value { result ≡ least_price self.now.feed self.now.whole (label_facts (facts_of label.now)) }
        ensures low { nat_abs result ≤ 2 ^ 64 }
    {
        let fare = &label.fare;
        if self.takes_held_back() || fare.state.is_none() {
            fare.price().min(i128::from(fare.paid.0))
        } else {
            fare.price()
        }
    }

    /// The least price at which a journey can end that goes on from the label.
    #[tactic(auto, unfolding(round_laws::specs::Futility::least_end))]
    fn least_end(&self, label: &Label<Fare, Move>) -> i128
        ensures { result ≡ least_end self.now.feed self.now.query self.now.whole (label_facts (facts_of label.now)) }
    {
        let more = self.limit().saturating_sub(label.rides);
        self.least_price(label) + times(self.floor(), more)
    }

    /// Replaces the moves by enough of those of the leg that is this ride, with the fare. The options are enough for the leg.
    fn all_into(
        &self,
        fare: &Fare,
        ride: &RideFacts,
        options: &[LegChoice],
        room: &mut FareRoom,
    ) -> Result<(), AllocError>
        requires held { nat_abs fare.now.held.0 ≤ 10 ^ 12 }
        requires options { AreEnough self.now.feed self.now.query.buyer (leg_facts self.now.feed ride.now) options.now }
        ensures { OnOk result (AreEnoughMoves self.now.feed self.now.query.buyer fare.now.state fare.now.held.0 (leg_facts self.now.feed ride.now) room.new.moves.items) }
    {
        let times = LegTimes {
            departure: ride.departure,
            arrival: ride.arrival,
        };
        match &fare.state {
            None => self.automaton.start_into(times, options, &mut room.moves),
            Some(state) => self.automaton.cheapest_into(
                state,
                fare.held,
                times,
                options,
                &mut room.places,
                &mut room.moves,
            ),
        }
    }
}

impl<'l> Tariff for FareTariff<'l> {
    ghost use Rattle.fare_tariff.specs.FareLaws.{fare_lawful};
    ghost use Rattle.fare_tariff.specs.FareTerms.{IsKnown, Knows, Serves, fare_terms};

    type Fare = Fare;

    type Move = Move;

    type Legs = FareLegs<'l>;

    type Room = FareRoom;

    ghost terms = { fare_terms };

    ghost Serves = { Serves };

    ghost Knows = { λ s legs. Knows s.feed s.query.buyer legs };

    ghost IsKnown = { λ s legs place ride. IsKnown s.feed s.query.buyer legs place ride };

    fn begin(&self) -> Fare {
        Fare {
            paid: Money(0),
            held: Money(0),
            state: None,
        }
    }

    fn find_legs(
        &self,
        alloc: Global,
        rides: &[CaughtRide],
        legs: &mut FareLegs<'l>,
    ) -> Result<(), AllocError> {
        legs.find(alloc, self.feed(), rides)?;
        if self.quick {
            legs.repeats.find(rides, &legs.kinds)?;
        }
        Ok(())
    }

    fn is_repeated(&self, leg: &Leg<'_, FareLegs<'l>>, since: Moment) -> bool {
        self.quick && leg.legs.repeats.has(leg.place, since)
    }

    fn moves_into(
        &self,
        label: &Label<Fare, Move>,
        leg: &Leg<'_, FareLegs<'l>>,
        room: &mut FareRoom,
        moves: &mut Vec<Move>,
    ) -> Result<(), AllocError> {
        let legs = leg.legs;
        let options = legs.known.options(legs.kinds[leg.place]);
        self.all_into(&label.fare, &leg.caught.facts, options, room)?;
        best_into(&room.moves, moves)
    }

    fn after(&self, label: &Label<Fare, Move>, _ride: &CaughtRide, taken: &Move) -> Fare {
        let _feed = self.feed();
        label.fare.after(label.rides, taken)
    }

    fn price(&self, label: &Label<Fare, Move>) -> Money {
        Money(label.fare.paid.0 + label.fare.held.0)
    }

    fn least(&self, label: &Label<Fare, Move>) -> LeastPrice {
        LeastPrice(self.least_end(label))
    }

    fn least_on(&self, label: &Label<Fare, Move>, behind: u8, late: bool) -> Option<LeastPrice> {
        let price = self.prices.least_on(label, behind, late);
        if is_far(price) {
            return None;
        }
        Some(LeastPrice(price))
    }

    fn late_since(&self, label: &Label<Fare, Move>, first: Moment, last: Moment) -> Option<Moment> {
        self.prices.late_since(&label.fare, first, last)
    }

    fn settled_since(
        &self,
        label: &Label<Fare, Move>,
        legs: &FareLegs<'l>,
        first: Moment,
        last: Moment,
    ) -> Option<Moment> {
        match &label.fare.state {
            Some(own) => since_at(legs.changes.last_after(own), first, last),
            None => None,
        }
    }

    ghost lawful = { fare_lawful };
}
