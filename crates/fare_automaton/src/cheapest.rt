//! Moves that are enough for a search of the cheapest: all that pay a leg by one option lead to one state, so one of
//! them is enough.
ghost use Rattle.std.specs.Prelude.{◌≡◌, ◌≤◌, ◌^◌, ◌≤ℤ◌, [], map, nat_abs, All, Contains, IfOk, MatchOption, OnOk, Option, Some};
ghost use Rattle.std.specs.Option.{ForSome};
ghost use Rattle.feed_rows.specs.FareSteps.{next_move};
ghost use Rattle.feed_rows.specs.FareSums.{amount_of};
ghost use Rattle.feed_rows.specs.declared.fares.ChangeChoice.{ChangeChoice};
ghost use Rattle.feed_rows.specs.declared.journeys.LegFacts.{LegFacts};
ghost use Rattle.fare_laws.specs.BareMoves.{bare};
ghost use Rattle.fare_automaton.specs.Changes.{leg_of, times_of};
ghost use Rattle.feed_rows.specs.Amounts.{IsLow};
ghost use Rattle.fare_automaton.specs.Fewest.{AddsFewer, AreAlike, AreEnough, AreEnoughMoves};
ghost use Rattle.fare_automaton.specs.Cheapest.{cheaper, paid_by, paid_place};
ghost use Rattle.fare_automaton.specs.Options.{HasPlaces, next_made};

use crate::automaton::Automaton;
use crate::changes::{GroupedLeg, LegTimes};
use crate::moves::paid_after;
use feed_rows::{ChangeChoice, FareState, LegChoice, Move};
use std::alloc::{AllocError, Global};
use transit_base::{LegGroupId, Money, ProductRowId};

impl<'f> Automaton<'f> {
    /// Replaces what `moves` holds by enough moves of a leg with these moments after the state, where so much is held and
    /// the options are enough: for each option one that costs least. What `places` holds is lost.
    ///
    /// # Errors
    /// Want of memory.
    pub fn cheapest_into(
        &self,
        state: &FareState,
        held: Money,
        times: LegTimes,
        options: &[LegChoice],
        places: &mut Vec<Option<ChangeChoice>>,
        moves: &mut Vec<Move>,
    ) -> Result<(), AllocError>
        requires held { nat_abs held.0 ≤ 10 ^ 16 }
        ensures { (leg : LegFacts) → times_of leg ≡ times → AreEnough self.now.feed self.now.buyer leg options.now → OnOk result (AreEnoughMoves self.now.feed self.now.buyer (Some state.now) held.0 leg moves.new.items) }
    {
        moves.clear();
        let mut known = None;
        for number in 0..options.len() {
            known = self.push_cheapest(state, held, times, &options[number], known, places, moves)?;
        }
        Ok(())
    }

    /// Adds a move that costs least of those of a leg after the state that is paid so. Where a leg group is known, `places`
    /// has the places of the change to this leg where its rule is of that group, and so it has for the group that is
    /// answered.
    fn push_cheapest(
        &self,
        state: &FareState,
        held: Money,
        times: LegTimes,
        pick: &LegChoice,
        known: Option<Option<LegGroupId>>,
        places: &mut Vec<Option<ChangeChoice>>,
        moves: &mut Vec<Move>,
    ) -> Result<Option<Option<LegGroupId>>, AllocError>
        requires held { nat_abs held.0 ≤ 10 ^ 16 }
        requires known { ForSome known (HasPlaces self.now.feed self.now.buyer state.now times places.old.items) }
        ensures moves { OnOk result (AddsFewer (next_made self.now.feed self.now.buyer state.now held.0 times pick.now) moves.old.items moves.new.items) }
        ensures known { IfOk result (λ group. ForSome group (HasPlaces self.now.feed self.now.buyer state.now times places.new.items)) }
    {
        match self.chosen_at(times, pick) {
            Some(next) => {
                self.keep_places(state, times, &next, known, places)?;
                self.push_least(state, held, &next, pick, places, moves)?;
                Ok(Some(next.group))
            }
            None => Ok(known),
        }
    }

    /// Adds a move that costs least of those of the leg by these places of the change to it, which are all for changes
    /// that are arranged, or all for such that aren't.
    fn push_least(
        &self,
        state: &FareState,
        held: Money,
        next: &GroupedLeg,
        pick: &LegChoice,
        places: &[Option<ChangeChoice>],
        moves: &mut Vec<Move>,
    ) -> Result<(), AllocError>
        requires held { nat_abs held.0 ≤ 10 ^ 16 }
        requires alike { AreAlike self.now.feed places.now }
        ensures { OnOk result (AddsFewer (map (λ place. next_move self.now.feed state.now held.0 (leg_of next.now) (bare pick.now place)) places.now) moves.old.items moves.new.items) }
    {
        let amount = self.price_of(pick.product);
        match self.cheapest_place(held, amount, places) {
            Some(place) => {
                moves.push(self.move_by(state, held, next, pick, place))?;
                Ok(())
            }
            None => Ok(()),
        }
    }

    /// The amount of the row; 0 where there is no such row.
    fn price_of(&self, row: ProductRowId) -> Money
        ensures value { result.0 ≡ amount_of self.now.feed row }
        ensures low { IsLow result.0 }
    {
        Money(self.amount_of(row))
    }

    /// The first of the places by which least is paid, with a leg of this amount; none where there is no place.
    fn cheapest_place(
        &self,
        held: Money,
        amount: Money,
        places: &[Option<ChangeChoice>],
    ) -> Option<Option<ChangeChoice>>
        requires held { nat_abs held.0 ≤ 10 ^ 16 }
        requires amount { IsLow amount.0 }
        ensures { MatchOption result (places.now ≡ []) (λ place. Contains places.now place × All (λ (other : Option ChangeChoice). paid_by self.now.feed held.0 amount.0 place ≤ℤ paid_by self.now.feed held.0 amount.0 other) places.now) }
    {
        let mut least: Option<PaidPlace> = None;
        for number in 0..places.len() {
            least = Some(cheaper(least, self.paid_place(held, amount, places[number])));
        }
        match least {
            Some(found) => Some(found.place),
            None => None,
        }
    }

    /// The place, with what a leg of this amount and the change to it by this place add to what was paid.
    fn paid_place(&self, held: Money, amount: Money, place: Option<ChangeChoice>) -> PaidPlace
        requires held { nat_abs held.0 ≤ 10 ^ 16 }
        requires amount { IsLow amount.0 }
        ensures { result ≡ paid_place self.now.feed held.0 amount.0 place }
    {
        let paid = paid_after(
            held.0,
            self.place_kind(place),
            amount.0,
            self.place_charge(place),
        );
        PaidPlace {
            place,
            paid: Money(paid),
        }
    }
}

/// A place of a change, and what is paid by it.
#[derive(Clone, Copy)]
struct PaidPlace {
    place: Option<ChangeChoice>,
    paid: Money,
}

/// The place by which less is paid: the first, where it is the same by both.
fn cheaper(least: Option<PaidPlace>, one: PaidPlace) -> PaidPlace
    ensures { result ≡ cheaper least one }
{
    match least {
        Some(other) => {
            if other.paid.0 <= one.paid.0 {
                other
            } else {
                one
            }
        }
        None => one,
    }
}
