//! The search for a choice of least price, leg by leg.
ghost use Rattle.std.specs.Prelude.{◌≡◌, [], ◌++◌, ◌<◌, ◌≤◌, ◌≤ℤ◌, ◌^◌, ◌-◌, ◌+◌, length, nat_abs, All, Contains, MatchOption, IfOk, OnOk};
ghost use Rattle.feed_rows.specs.FareExtensions.{extended};
ghost use Rattle.feed_rows.specs.SoundFeed.{IsSoundFeed};
ghost use Rattle.fare_automaton.specs.Fewest.{AreEnough};
ghost use Rattle.fare_price.specs.Known.{AreKnown};
ghost use Rattle.fare_price.specs.Prices.{IsLeastOrNone};
ghost use Rattle.fare_price.specs.Ways.{cost, no_choice, choice_of, cheaper, AreFirstWays, AreNextWays, AddsAfter, AreWaysOf, IsBounded};

use crate::Priced;
use crate::fares::Fares;
use crate::known::know_all;
use crate::ways::{Way, Ways};
use fare_automaton::{Automaton, KnownOptions, leg_taken, place_taken, times_of};
use feed_rows::{
    Buyer, ChangeChoice, ChangeChoices, Choice, LegChoice, LegChoices, LegFacts, Move,
};
use std::alloc::{AllocError, Global};
use transit_base::Money;

/// What is found for one way after another, kept for its memory.
#[derive(Drop)]
struct Room {
    places: Vec<Option<ChangeChoice>>,
    moves: Vec<Move>,
}

/// A choice of least price for the legs and the buyer, and its price; none where no choice pays them.
///
/// # Errors
/// Want of memory.
pub fn price(
    alloc: Global,
    fares: &Fares,
    legs: &[LegFacts],
    buyer: Buyer,
) -> Result<Option<Priced>, AllocError>
    requires few { length legs.now ≤ 12 }
    ensures { IfOk result (IsLeastOrNone fares.now legs.now buyer) }
{
    let automaton = Automaton::compile(alloc, fares.feed(), buyer)?;
    let mut known = KnownOptions::of(alloc, &automaton);
    let numbers = know_all(alloc, legs, &mut known)?;
    price_known(alloc, &known, legs, &numbers)
}

/// The same, where what it is enough to pay for each leg is kept under its number.
///
/// # Errors
/// Want of memory.
pub fn price_known(
    alloc: Global,
    known: &KnownOptions,
    legs: &[LegFacts],
    numbers: &[usize],
) -> Result<Option<Priced>, AllocError>
    requires few { length legs.now ≤ 12 }
    requires known { AreKnown known.now.lists legs.now numbers.now }
    ensures { IfOk result (IsLeastOrNone known.now.terms.feed legs.now known.now.terms.buyer) }
{
    if legs.is_empty() {
        return Ok(Some(Priced {
            sum: Money(0),
            choice: no_choice(alloc),
        }));
    }
    let mut steps = Vec::new(alloc);
    let ways = ways_to_pay(alloc, known, legs, numbers, &mut steps)?;
    match cheapest(&ways) {
        None => Ok(None),
        Some(way) => Ok(Some(Priced {
            sum: total(&way),
            choice: choice_of(alloc, &steps, &way, legs.len() - 1)?,
        })),
    }
}

/// Ways to pay the legs, of which one is as good as each other way; those to pay fewer legs are put into `steps`.
fn ways_to_pay(
    alloc: Global,
    known: &KnownOptions,
    legs: &[LegFacts],
    numbers: &[usize],
    steps: &mut Vec<Way>,
) -> Result<Ways, AllocError>
    requires some { 0 < length legs.now }
    requires few { length legs.now ≤ 12 }
    requires known { AreKnown known.now.lists legs.now numbers.now }
    ensures { IfOk result (AreWaysOf known.now.terms.feed known.now.terms.buyer legs.now steps.new.items (length legs.now - 1)) }
{
    let automaton = known.automaton();
    let _feed = automaton.feed();
    let mut room = Room {
        places: Vec::new(alloc),
        moves: Vec::new(alloc),
    };
    let mut ways = first_ways(
        alloc,
        automaton,
        &legs[0],
        known.options(numbers[0]),
        &mut room,
    )?;
    for number in 0..legs.len() - 1 {
        let options = known.options(numbers[number + 1]);
        ways = next_ways(
            alloc,
            automaton,
            &legs[number + 1],
            options,
            steps,
            &ways,
            &mut room,
        )?;
    }
    Ok(ways)
}

/// The best ways to pay one leg by one of these.
fn first_ways(
    alloc: Global,
    automaton: &Automaton,
    leg: &LegFacts,
    options: &[LegChoice],
    room: &mut Room,
) -> Result<Ways, AllocError>
    requires enough { AreEnough automaton.now.feed automaton.now.buyer leg.now options.now }
    ensures { IfOk result (AreFirstWays automaton.now.feed automaton.now.buyer leg.now) }
{
    let _feed = automaton.feed();
    automaton.start_into(times_of(leg), options, &mut room.moves)?;
    let mut ways = Ways::empty(alloc);
    ways.offer_moves(Money(0), 0, &room.moves)?;
    Ok(ways)
}

/// The best ways to pay one leg more, after these ways, which are put behind the steps.
fn next_ways(
    alloc: Global,
    automaton: &Automaton,
    leg: &LegFacts,
    options: &[LegChoice],
    steps: &mut Vec<Way>,
    ways: &Ways,
    room: &mut Room,
) -> Result<Ways, AllocError>
    requires enough { AreEnough automaton.now.feed automaton.now.buyer leg.now options.now }
    requires bounded { All (IsBounded 11) ways.now }
    ensures kept { OnOk result (steps.new.items ≡ steps.old.items ++ ways.now) }
    ensures next { IfOk result (AreNextWays automaton.now.feed automaton.now.buyer leg.now (length steps.old.items) ways.now (length ways.now)) }
{
    let base = steps.len();
    keep(steps, ways)?;
    let mut next = Ways::empty(alloc);
    for number in 0..ways.len() {
        offer_after(
            &mut next,
            automaton,
            leg,
            options,
            ways.get(number),
            base + number,
            room,
        )?;
    }
    Ok(next)
}

/// Takes in the ways to pay one leg more after the way of this number.
fn offer_after(
    next: &mut Ways,
    automaton: &Automaton,
    leg: &LegFacts,
    options: &[LegChoice],
    way: &Way,
    number: usize,
    room: &mut Room,
) -> Result<(), AllocError>
    requires enough { AreEnough automaton.now.feed automaton.now.buyer leg.now options.now }
    requires bounded { IsBounded 11 way.now }
    ensures { OnOk result (AddsAfter automaton.now.feed automaton.now.buyer leg.now number way.now next.old next.new) }
{
    let _feed = automaton.feed();
    automaton.cheapest_into(
        &way.step.state,
        way.step.held,
        times_of(leg),
        options,
        &mut room.places,
        &mut room.moves,
    )?;
    next.offer_moves(way.paid, number, &room.moves)
}

/// What the way costs.
fn total(way: &Way) -> Money
    requires { IsBounded 12 way.now }
    ensures { result.0 ≡ cost way.now }
{
    Money(way.paid.0 + way.step.held.0)
}

/// Puts the ways behind the steps.
fn keep(steps: &mut Vec<Way>, ways: &Ways) -> Result<(), AllocError>
    ensures { OnOk result (steps.new.items ≡ steps.old.items ++ ways.now) }
{
    for number in 0..ways.len() {
        steps.push(*ways.get(number))?;
    }
    Ok(())
}

/// A way that costs least; none where there is no way.
fn cheapest(ways: &Ways) -> Option<Way>
    ensures { MatchOption result (ways.now ≡ []) (λ way. Contains ways.now way × All (λ (w : Way). cost way ≤ℤ cost w) ways.now) }
{
    let mut least: Option<Way> = None;
    for number in 0..ways.len() {
        least = Some(cheaper(least, ways.get(number)));
    }
    least
}

/// The one that costs less: the first, where both cost the same.
fn cheaper(least: Option<Way>, way: &Way) -> Way
    ensures { result ≡ cheaper least way.now }
{
    match least {
        Some(other) if other.cost() <= way.cost() => other,
        _ => *way,
    }
}

/// The choice for no leg.
fn no_choice(alloc: Global) -> Choice
    ensures { result ≡ no_choice }
{
    Choice {
        legs: LegChoices::empty(alloc),
        changes: ChangeChoices::empty(alloc),
    }
}

/// The choice with what the move takes.
fn extended(mut choice: Choice, step: &Move) -> Result<Choice, AllocError>
    ensures { IfOk result (λ more. more ≡ extended choice step.now) }
{
    let place = place_taken(step);
    if !choice.legs.items().is_empty() || place.is_some() {
        choice.changes.push(place)?;
    }
    choice.legs.push(leg_taken(step))?;
    Ok(choice)
}

/// The choice that the steps to the way make, over one leg more than so many changes.
fn choice_of(alloc: Global, steps: &[Way], way: &Way, changes: usize) -> Result<Choice, AllocError>
    ensures { IfOk result (λ choice. choice ≡ choice_of steps.now changes way.now) }
{
    if changes == 0 {
        return extended(no_choice(alloc), &way.step);
    }
    match steps.get(way.before) {
        Some(before) => extended(choice_of(alloc, steps, before, changes - 1)?, &way.step),
        None => extended(no_choice(alloc), &way.step),
    }
}
