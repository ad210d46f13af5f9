//! The moves from a fare state, and what follows of each.
ghost use Rattle.std.specs.Prelude.{◌≡◌, ◌<◌, ◌≤◌, ◌^◌, ◌+◌, ◌&&◌, if◌then◌else◌, nat_abs, option_map, is_none, pos, min, Some, true};
ghost use Rattle.std.specs.Option.{is_some, option_map_or};
ghost use Rattle.plain_laws.specs.Plain.{filled_and, when};
ghost use Rattle.feed_rows.specs.TransferRules.{same_group};
ghost use Rattle.feed_rows.specs.FareSums.{amount_of};
ghost use Rattle.feed_rows.specs.FareStates.{greatest_count, is_clock_read, counts_from_departure, counts_from_arrival, state_of_run};
ghost use Rattle.feed_rows.specs.FareSteps.{place_kind, place_charge, next_paid, next_held, leg_taken, place_taken, is_whole, asked_after, is_place_after, next_state, first_move, next_move, move_of_first, move_of_next, move_after};
ghost use Rattle.feed_rows.specs.FareChoices.{is_leg_choice};
ghost use Rattle.fare_automaton.specs.Changes.{leg_of};
ghost use Rattle.feed_rows.specs.Amounts.{IsLow};

use crate::automaton::Automaton;
use crate::changes::{GroupedLeg, change_after};
use crate::judge::{is_whole, leg_taken, place_taken};
use crate::reads::GroupReads;
use feed_rows::{
    Buyer, CHANGE_ALONE, ChangeChoice, FareState, LegFacts, Move, includes_leg_after, same_group,
};
use transit_base::{LegGroupId, Moment, Money, ProductRowId};

impl<'f> Automaton<'f> {
    /// The move with what follows, after the state or, where there is none, as a first leg; none where its row numbers are no
    /// option for this leg there. Only the row numbers of `taken` are looked at. For a first leg `held` has no effect.
    pub fn apply(
        &self,
        state: Option<&FareState>,
        held: Money,
        leg: &LegFacts,
        taken: &Move,
    ) -> Option<Move>
        requires held { nat_abs held.0 ≤ 10 ^ 16 }
        ensures { result ≡ move_after self.now.feed self.now.buyer (option_map (λ s. s.now) state.entry) held.0 leg.now taken.now }
    {
        self.apply_for(self.buyer, state, held, leg, taken)
    }

    /// The same for any buyer: what an automaton has of its own buyer alone is not looked at.
    pub fn apply_for(
        &self,
        buyer: Buyer,
        state: Option<&FareState>,
        held: Money,
        leg: &LegFacts,
        taken: &Move,
    ) -> Option<Move>
        requires held { nat_abs held.0 ≤ 10 ^ 16 }
        ensures { result ≡ move_after self.now.feed buyer (option_map (λ s. s.now) state.entry) held.0 leg.now taken.now }
    {
        match state {
            None => self.move_of_first(buyer, leg, taken),
            Some(before) => self.move_of_next(buyer, before, held, leg, taken),
        }
    }

    /// The move of a first leg.
    fn move_of_first(&self, buyer: Buyer, leg: &LegFacts, taken: &Move) -> Option<Move>
        ensures { result ≡ move_of_first self.now.feed buyer leg.now taken.now }
    {
        let Some(first) = self.chosen_leg(leg, &leg_taken(taken)) else {
            return None;
        };
        if !self.is_first(buyer, leg, taken) {
            return None;
        }
        Some(self.first_move(&first, taken))
    }

    /// Whether the row numbers are an option for a first leg.
    fn is_first(&self, buyer: Buyer, leg: &LegFacts, taken: &Move) -> bool
        ensures { result ≡ (is_leg_choice self.now.feed buyer leg.now (leg_taken taken.now) && is_none (place_taken taken.now) && is_whole taken.now) }
    {
        self.is_leg_choice(buyer, leg, taken) && place_taken(taken).is_none() && is_whole(taken)
    }

    /// The move of a leg after the state.
    fn move_of_next(
        &self,
        buyer: Buyer,
        state: &FareState,
        held: Money,
        leg: &LegFacts,
        taken: &Move,
    ) -> Option<Move>
        requires held { nat_abs held.0 ≤ 10 ^ 16 }
        ensures { result ≡ move_of_next self.now.feed buyer state.now held.0 leg.now taken.now }
    {
        let Some(next) = self.chosen_leg(leg, &leg_taken(taken)) else {
            return None;
        };
        if !self.is_next(buyer, state, &next, leg, taken) {
            return None;
        }
        Some(self.next_move(state, held, &next, taken))
    }

    /// Whether the row numbers are an option for the leg after the state.
    fn is_next(
        &self,
        buyer: Buyer,
        state: &FareState,
        next: &GroupedLeg,
        leg: &LegFacts,
        taken: &Move,
    ) -> bool
        ensures { result ≡ (is_leg_choice self.now.feed buyer leg.now (leg_taken taken.now) && is_place_after self.now.feed buyer (asked_after state.now (leg_of next.now)) (place_taken taken.now) && is_whole taken.now) }
    {
        self.is_leg_choice(buyer, leg, taken)
            && self.is_place_after(buyer, change_after(state, next), place_taken(taken))
            && is_whole(taken)
    }

    /// What follows of a first leg.
    pub(crate) fn first_move(&self, first: &GroupedLeg, taken: &Move) -> Move
        ensures { result ≡ first_move self.now.feed (leg_of first.now) taken.now }
    {
        Move {
            state: self.first_state(first),
            paid: Money(0),
            held: Money(self.amount_of(taken.product)),
            ..*taken
        }
    }

    /// What follows of a leg after the state.
    pub(crate) fn next_move(
        &self,
        state: &FareState,
        held: Money,
        next: &GroupedLeg,
        taken: &Move,
    ) -> Move
        requires held { nat_abs held.0 ≤ 10 ^ 16 }
        ensures { result ≡ next_move self.now.feed state.now held.0 (leg_of next.now) taken.now }
    {
        let place = place_taken(taken);
        let kind = self.place_kind(place);
        let amount = self.amount_of(taken.product);
        Move {
            state: self.next_state(state, next, place),
            paid: Money(paid_after(held.0, kind, amount, self.place_charge(place))),
            held: Money(held_after(kind, amount)),
            ..*taken
        }
    }

    /// The state after the next leg. It is put together at one place: what comes from one of two places is copied by way
    /// of memory.
    fn next_state(
        &self,
        state: &FareState,
        next: &GroupedLeg,
        place: Option<ChangeChoice>,
    ) -> FareState
        ensures { result ≡ next_state self.now.feed state.now (leg_of next.now) place }
    {
        let goes_on = goes_on(state, next, place);
        let reads = self.reads_in(next.group);
        FareState {
            group: next.group,
            count: count_after(goes_on, state.count, reads.greatest_count),
            departure: clock_after(goes_on, state.departure, next.departure, reads.departure),
            arrival: clock_after(goes_on, state.arrival, next.arrival, reads.arrival),
            first: place.is_none(),
        }
    }

    /// The state after a first leg.
    fn first_state(&self, leg: &GroupedLeg) -> FareState
        ensures { result ≡ state_of_run self.now.feed leg.now.group 0 (leg_of leg.now) true }
    {
        let reads = self.reads_in(leg.group);
        FareState {
            group: leg.group,
            count: 0,
            departure: clock_after(false, None, leg.departure, reads.departure),
            arrival: clock_after(false, None, leg.arrival, reads.arrival),
            first: true,
        }
    }

    /// What rows read of changes from the group; nothing where there is none.
    fn reads_in(&self, group: Option<LegGroupId>) -> GroupReads
        ensures count { result.greatest_count ≡ option_map_or (greatest_count self.now.feed) group 0 }
        ensures low { result.greatest_count < 2 ^ 31 }
        ensures departure { result.departure ≡ filled_and group (is_clock_read self.now.feed counts_from_departure) }
        ensures arrival { result.arrival ≡ filled_and group (is_clock_read self.now.feed counts_from_arrival) }
    {
        // The counts of a sound feed are below 2 ^ 31.
        let _feed = self.feed();
        match group {
            Some(own) => self.reads(own),
            None => GroupReads {
                greatest_count: 0,
                departure: false,
                arrival: false,
            },
        }
    }

    /// The type of the row that fills the place of a change.
    pub(crate) fn place_kind(&self, place: Option<ChangeChoice>) -> Option<u8>
        ensures { result ≡ place_kind self.now.feed place }
    {
        Some(self.transfer_row(place?.rule)?.kind)
    }

    /// What the place of a change adds to the sum, in minor units.
    pub(crate) fn place_charge(&self, place: Option<ChangeChoice>) -> i64
        ensures value { result ≡ place_charge self.now.feed place }
        ensures low { IsLow result }
    {
        match place {
            Some(pick) => match pick.product {
                Some(row) => self.amount_of(row),
                None => 0,
            },
            None => 0,
        }
    }

    /// The amount of the row in minor units; 0 where there is no such row.
    #[tactic(auto, unfolding(feed_rows::specs::FareSums::amount_of))]
    pub(crate) fn amount_of(&self, row: ProductRowId) -> i64
        ensures value { result ≡ amount_of self.now.feed row }
        ensures low { IsLow result }
    {
        match self.product_row(row) {
            Some(priced) => priced.amount.0,
            None => 0,
        }
    }
}

/// Whether the next leg goes on with the run.
fn goes_on(state: &FareState, next: &GroupedLeg, place: Option<ChangeChoice>) -> bool
    ensures { result ≡ (same_group state.now.group next.now.group && is_some place) }
{
    same_group(state.group, next.group) && place.is_some()
}

/// One change more where the leg goes on with the run, where all numbers past the greatest count of the group are one;
/// else 0.
fn count_after(goes_on: bool, count: u32, greatest: u32) -> u32
    requires { greatest < 2 ^ 31 }
    ensures { result ≡ (if goes_on then min greatest count + 1 else 0) }
{
    if goes_on { greatest.min(count) + 1 } else { 0 }
}

/// A clock of the run: it stays where the leg goes on with it, else it is the leg's, if it is read.
fn clock_after(goes_on: bool, clock: Option<Moment>, next: Moment, is_read: bool) -> Option<Moment>
    ensures { result ≡ (if goes_on then clock else when is_read next) }
{
    if goes_on {
        clock
    } else if is_read {
        Some(next)
    } else {
        None
    }
}

/// What of the next leg's amount is held after a change of this type.
fn held_after(kind: Option<u8>, amount: i64) -> i64
    ensures { result ≡ next_held kind amount }
{
    match kind {
        None => amount,
        Some(_) => 0,
    }
}

/// What the next leg and the change to it, of this type, add to what was paid.
pub fn paid_after(held: i64, kind: Option<u8>, amount: i64, charge: i64) -> i64
    requires held { nat_abs held ≤ 10 ^ 16 }
    requires amount { IsLow amount }
    requires charge { IsLow charge }
    ensures { result ≡ next_paid (pos 0) held kind amount charge }
{
    match kind {
        None => held + charge,
        Some(code) => paid_by(held, code, amount, charge),
    }
}

/// The same for an arranged change: type 2 takes back what is held, and types 0 and 2 include the next leg.
fn paid_by(held: i64, code: u8, amount: i64, charge: i64) -> i64
    requires held { nat_abs held ≤ 10 ^ 16 }
    requires amount { IsLow amount }
    requires charge { IsLow charge }
    ensures { result ≡ next_paid (pos 0) held (Some code) amount charge }
{
    if code == CHANGE_ALONE {
        return charge;
    }
    let before = held + charge;
    if includes_leg_after(code) {
        before
    } else {
        before + amount
    }
}
