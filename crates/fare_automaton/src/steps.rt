//! All moves of a leg.
ghost use Rattle.std.specs.Prelude.{◌≡◌, ◌≤◌, ◌^◌, ◌++◌, length, map, nat_abs, IfOk, OnOk, IsTrue, Some, None, [], ◌∷◌, pos};
ghost use Rattle.std.specs.Option.{ForSome};
ghost use Rattle.plain_laws.specs.Plain.{joined_below};
ghost use Rattle.feed_rows.specs.FareSteps.{next_move};
ghost use Rattle.fare_automaton.specs.Fewest.{AreEnough, AreEnoughMoves};
ghost use Rattle.fare_automaton.specs.Steps.{AreStarts, AreSteps};
ghost use Rattle.fare_automaton.specs.Changes.{leg_of, leg_by, times_of};
ghost use Rattle.feed_rows.specs.declared.journeys.LegFacts.{LegFacts};
ghost use Rattle.fare_laws.specs.BareMoves.{bare};
ghost use Rattle.fare_automaton.specs.Options.{ArePicks, HasPlaces, first_made, next_made, made_at};

use crate::automaton::Automaton;
use crate::changes::{GroupedLeg, LegTimes, change_after};
use feed_rows::{ChangeChoice, FareState, LegChoice, LegFacts, Move, Moves};
use std::alloc::{AllocError, Global};
use transit_base::{LegGroupId, Money};

impl<'f> Automaton<'f> {
    /// The moves of a first leg: all that there are, each once. There are none exactly where nothing pays the leg.
    ///
    /// # Errors
    /// Want of memory.
    pub fn start(&self, alloc: Global, leg: &LegFacts) -> Result<Moves, AllocError>
        ensures { IfOk result (AreStarts self.now.feed self.now.buyer leg.now) }
    {
        let options = self.options(alloc, leg)?;
        let mut moves = Vec::new(alloc);
        self.start_into(times_of(leg), &options, &mut moves)?;
        move_list(alloc, &moves)
    }

    /// The moves of a leg after the state, where so much is held: all that there are, each once. There are none exactly where
    /// nothing pays the leg and the change to it.
    ///
    /// # Errors
    /// Want of memory.
    pub fn step(
        &self,
        alloc: Global,
        state: &FareState,
        held: Money,
        leg: &LegFacts,
    ) -> Result<Moves, AllocError>
        requires held { nat_abs held.0 ≤ 10 ^ 16 }
        ensures { IfOk result (AreSteps self.now.feed self.now.buyer state.now held.0 leg.now) }
    {
        let options = self.options(alloc, leg)?;
        let mut places = Vec::new(alloc);
        let mut moves = Vec::new(alloc);
        self.step_into(
            state,
            held,
            times_of(leg),
            &options,
            &mut places,
            &mut moves,
        )?;
        move_list(alloc, &moves)
    }

    /// Replaces what `moves` holds by the moves of a first leg with these moments and options: all that there are, each once, where
    /// these are all options, and enough moves, where they are enough.
    ///
    /// # Errors
    /// Want of memory.
    pub fn start_into(
        &self,
        times: LegTimes,
        options: &[LegChoice],
        moves: &mut Vec<Move>,
    ) -> Result<(), AllocError>
        ensures all { (leg : LegFacts) → times_of leg ≡ times → ArePicks self.now.feed self.now.buyer leg options.now → OnOk result (AreStarts self.now.feed self.now.buyer leg moves.new.items) }
        ensures enough { (leg : LegFacts) → times_of leg ≡ times → AreEnough self.now.feed self.now.buyer leg options.now → OnOk result (AreEnoughMoves self.now.feed self.now.buyer None (pos 0) leg moves.new.items) }
    {
        moves.clear();
        for number in 0..options.len() {
            self.push_first(times, &options[number], moves)?;
        }
        Ok(())
    }

    /// Adds the move of a first leg that is paid so.
    fn push_first(
        &self,
        times: LegTimes,
        pick: &LegChoice,
        moves: &mut Vec<Move>,
    ) -> Result<(), AllocError>
        ensures { OnOk result (moves.new.items ≡ moves.old.items ++ first_made self.now.feed times pick.now) }
    {
        match self.chosen_at(times, pick) {
            Some(first) => {
                moves.push(self.first_move(&first, &bare(pick, None)))?;
                Ok(())
            }
            None => Ok(()),
        }
    }

    /// Replaces what `moves` holds by the moves of a leg with these moments and options after the state, where so much is held: all
    /// that there are, each once, where these are all options, and enough moves, where they are enough. What `places` holds is
    /// lost.
    ///
    /// # Errors
    /// Want of memory.
    pub fn step_into(
        &self,
        state: &FareState,
        held: Money,
        times: LegTimes,
        options: &[LegChoice],
        places: &mut Vec<Option<ChangeChoice>>,
        moves: &mut Vec<Move>,
    ) -> Result<(), AllocError>
        requires held { nat_abs held.0 ≤ 10 ^ 16 }
        ensures all { (leg : LegFacts) → times_of leg ≡ times → ArePicks self.now.feed self.now.buyer leg options.now → OnOk result (AreSteps self.now.feed self.now.buyer state.now held.0 leg moves.new.items) }
        ensures enough { (leg : LegFacts) → times_of leg ≡ times → AreEnough self.now.feed self.now.buyer leg options.now → OnOk result (AreEnoughMoves self.now.feed self.now.buyer (Some state.now) held.0 leg moves.new.items) }
    {
        moves.clear();
        let mut known = None;
        for number in 0..options.len() {
            known = self.push_next(state, held, times, &options[number], known, places, moves)?;
        }
        Ok(())
    }

    /// Adds the moves of a leg after the state that is paid so. Where a leg group is known, `places` has the places of the
    /// change to this leg where its rule is of that group, and so it has for the group that is answered.
    fn push_next(
        &self,
        state: &FareState,
        held: Money,
        times: LegTimes,
        pick: &LegChoice,
        known: Option<Option<LegGroupId>>,
        places: &mut Vec<Option<ChangeChoice>>,
        moves: &mut Vec<Move>,
    ) -> Result<Option<Option<LegGroupId>>, AllocError>
        requires held { nat_abs held.0 ≤ 10 ^ 16 }
        requires known { ForSome known (HasPlaces self.now.feed self.now.buyer state.now times places.old.items) }
        ensures moves { OnOk result (moves.new.items ≡ moves.old.items ++ next_made self.now.feed self.now.buyer state.now held.0 times pick.now) }
        ensures known { IfOk result (λ group. ForSome group (HasPlaces self.now.feed self.now.buyer state.now times places.new.items)) }
    {
        match self.chosen_at(times, pick) {
            Some(next) => {
                self.keep_places(state, times, &next, known, places)?;
                self.push_moves(state, held, &next, pick, places, moves)?;
                Ok(Some(next.group))
            }
            None => Ok(known),
        }
    }

    /// Replaces what `places` holds by the places of the change to the next leg, which it may hold already.
    pub(crate) fn keep_places(
        &self,
        state: &FareState,
        times: LegTimes,
        next: &GroupedLeg,
        known: Option<Option<LegGroupId>>,
        places: &mut Vec<Option<ChangeChoice>>,
    ) -> Result<(), AllocError>
        requires known { ForSome known (HasPlaces self.now.feed self.now.buyer state.now times places.old.items) }
        requires next { leg_of next.now ≡ leg_by times next.now.group }
        ensures { OnOk result (HasPlaces self.now.feed self.now.buyer state.now times places.new.items next.now.group) }
    {
        if is_known(known, next.group) {
            Ok(())
        } else {
            self.places_into(change_after(state, next), places)
        }
    }

    /// Adds the moves of the leg by these places of the change to it.
    fn push_moves(
        &self,
        state: &FareState,
        held: Money,
        next: &GroupedLeg,
        pick: &LegChoice,
        places: &[Option<ChangeChoice>],
        moves: &mut Vec<Move>,
    ) -> Result<(), AllocError>
        requires held { nat_abs held.0 ≤ 10 ^ 16 }
        ensures { OnOk result (moves.new.items ≡ moves.old.items ++ map (λ place. next_move self.now.feed state.now held.0 (leg_of next.now) (bare pick.now place)) places.now) }
    {
        for place in places {
            moves.push(self.move_by(state, held, next, pick, *place))?;
        }
        Ok(())
    }

    /// The move of the leg by this place of the change to it. Where the change isn't arranged, what was held is paid, and
    /// the leg is held as a first one is.
    pub(crate) fn move_by(
        &self,
        state: &FareState,
        held: Money,
        next: &GroupedLeg,
        pick: &LegChoice,
        place: Option<ChangeChoice>,
    ) -> Move
        requires held { nat_abs held.0 ≤ 10 ^ 16 }
        ensures { result ≡ next_move self.now.feed state.now held.0 (leg_of next.now) (bare pick.now place) }
    {
        match place {
            Some(_) => self.next_move(state, held, next, &bare(pick, place)),
            None => Move {
                paid: held,
                ..self.first_move(next, &bare(pick, None))
            },
        }
    }
}

/// The moments of the leg.
pub fn times_of(leg: &LegFacts) -> LegTimes
    ensures { result ≡ times_of leg.now }
{
    LegTimes {
        departure: leg.departure,
        arrival: leg.arrival,
    }
}

/// Whether this leg group is known.
fn is_known(known: Option<Option<LegGroupId>>, group: Option<LegGroupId>) -> bool
    ensures { IsTrue result → known ≡ Some group }
{
    match (known, group) {
        (Some(Some(own)), Some(other)) => own.0 == other.0,
        _ => false,
    }
}

/// The moves as a list.
fn move_list(alloc: Global, moves: &[Move]) -> Result<Moves, AllocError>
    ensures { IfOk result (λ list. list ≡ moves.now) }
{
    let mut list = Moves::empty(alloc);
    for step in moves {
        list.push(*step)?;
    }
    Ok(list)
}

/// A move that takes these rows, before it says what follows.
pub fn bare(pick: &LegChoice, place: Option<ChangeChoice>) -> Move
    ensures { result ≡ bare pick.now place }
{
    let (xfer, xfer_product) = match place {
        Some(change) => (Some(change.rule), change.product),
        None => (None, None),
    };
    Move {
        state: FareState {
            group: None,
            count: 0,
            departure: None,
            arrival: None,
            first: false,
        },
        paid: Money(0),
        held: Money(0),
        rule: pick.rule,
        product: pick.product,
        xfer,
        xfer_product,
    }
}
