//! The sum of a choice that is given.
ghost use Rattle.std.specs.Prelude.{◌≡◌, ◌^◌, ◌-◌, ◌+ℤ◌, ◌≤◌, ◌==◌, ◌&&◌, length, nat_abs, option_map};
ghost use Rattle.feed_rows.specs.FareSums.{fare_price};
ghost use Rattle.fare_price.specs.Walks.{walked_after, IsPlaceBefore};
ghost use Rattle.fare_laws.specs.SmallMoves.{IsSmall};

use crate::fares::Fares;
use fare_automaton::bare;
use feed_rows::{Buyer, ChangeChoice, Choice, FareState, LegFacts, Move};
use transit_base::Money;

/// Where the fares of some legs stand.
#[derive(Clone, Copy)]
struct Walked {
    /// The state after the last leg; none before the first.
    state: Option<FareState>,
    /// What no later change takes back, in minor units.
    paid: Money,
    /// What a change that alone is paid would take back.
    held: Money,
}

/// The sum of the choice; none where it doesn't pay the legs for the buyer.
pub fn verify(fares: &Fares, legs: &[LegFacts], choice: &Choice, buyer: Buyer) -> Option<Money>
    requires few { length legs.now ≤ 12 }
    ensures { option_map (λ (sum : Money). sum.0) result ≡ fare_price fares.now legs.now choice.now buyer }
{
    let picks = choice.legs.items();
    let places = choice.changes.items();
    if !fits(legs.len(), picks.len(), places.len()) {
        return None;
    }
    let _feed = fares.feed();
    let mut walked = Walked {
        state: None,
        paid: Money(0),
        held: Money(0),
    };
    for number in 0..legs.len() {
        let taken = bare(&picks[number], place_before(places, number));
        let state = walked.state.as_ref();
        match fares
            .automaton
            .apply_for(buyer, state, walked.held, &legs[number], &taken)
        {
            Some(step) => walked = walked.after(&step),
            None => return None,
        }
    }
    Some(walked.total())
}

impl Walked {
    /// Where they stand after one move more.
    fn after(&self, step: &Move) -> Walked
        requires paid { nat_abs self.now.paid.0 ≤ 10 ^ 15 }
        requires small { IsSmall step.now }
        ensures { result ≡ walked_after self.now step.now }
    {
        Walked {
            state: Some(step.state),
            paid: Money(self.paid.0 + step.paid.0),
            held: step.held,
        }
    }

    /// What the legs cost.
    fn total(&self) -> Money
        requires paid { nat_abs self.now.paid.0 ≤ 10 ^ 15 }
        requires held { nat_abs self.now.held.0 ≤ 10 ^ 12 }
        ensures { result.0 ≡ self.now.paid.0 +ℤ self.now.held.0 }
    {
        Money(self.paid.0 + self.held.0)
    }
}

/// The place of the change to the leg with this number, which is empty for the first leg.
fn place_before(places: &[Option<ChangeChoice>], number: usize) -> Option<ChangeChoice>
    requires { number ≤ length places.now }
    ensures { IsPlaceBefore places.now number result }
{
    if number == 0 {
        return None;
    }
    places[number - 1]
}

/// Whether so many legs have so many places for legs and for changes.
fn fits(legs: usize, picks: usize, places: usize) -> bool
    ensures { result ≡ ((picks == legs) && (places == legs - 1)) }
{
    picks == legs && places == legs.saturating_sub(1)
}
