//! Legs, with what it is enough to pay for each at hand.
ghost use Rattle.std.specs.Prelude.{◌≡◌, ◌≤◌, ◌++◌, ◌∷◌, [], List, length, IfOk, OnOk, OnErr};
ghost use Rattle.feed_rows.specs.declared.journeys.LegFacts.{LegFacts};
ghost use Rattle.fare_price.specs.Known.{legs_with};
ghost use Rattle.fare_price.specs.Prices.{IsLeastOrNone};

use crate::Priced;
use crate::search::price_known;
use fare_automaton::{Automaton, KnownOptions};
use feed_rows::LegFacts;
use std::alloc::{AllocError, Global};
use std::marker::Model;

/// Legs in order, with the number under which it is kept what it is enough to pay for each. What was once asked is kept while
/// legs come and go. Contracts see the feed and the buyer, and the legs.
pub struct KnownLegs<'r, 'f> {
    known: KnownOptions<'r, 'f>,
    legs: Vec<LegFacts>,
    numbers: Vec<usize>,
}

// Written out, so that what holds one needn't look into it to let go of it.
impl<'r, 'f> Drop for KnownLegs<'r, 'f> {
    fn drop(self) {
        let KnownLegs {
            known: _,
            legs: _,
            numbers: _,
        } = self;
    }
}

impl<'r, 'f> Model for KnownLegs<'r, 'f> {
    ghost use Rattle.fare_price.specs.Known.{FareLegs, legs_with, AreKnown};

    ghost Value = { FareLegs };

    ghost view = { λ s. legs_with s.known.terms s.legs.items };

    ghost invariant = { λ s. AreKnown s.known.lists s.legs.items s.numbers.items };
}

impl<'r, 'f> KnownLegs<'r, 'f> {
    /// No leg.
    pub fn empty(alloc: Global, automaton: &'r Automaton<'f>) -> KnownLegs<'r, 'f>
        ensures { result ≡ legs_with automaton.now [] }
    {
        KnownLegs {
            known: KnownOptions::of(alloc, automaton),
            legs: Vec::new(alloc),
            numbers: Vec::new(alloc),
        }
    }

    /// Puts the leg behind those that are there. What it is enough to pay for it is asked where no leg was there before that
    /// differs from it in its moments at most.
    ///
    /// # Errors
    /// Want of memory.
    pub fn push(&mut self, alloc: Global, leg: LegFacts) -> Result<(), AllocError>
        ensures { OnOk result (self.new ≡ legs_with self.old.terms (self.old.legs ++ leg ∷ [])) }
    {
        let number = self.known.know(alloc, &leg)?;
        push_both(&mut self.legs, leg, &mut self.numbers, number)
    }

    /// Gives the last leg back.
    pub fn pop(&mut self)
        ensures { (legs : List LegFacts) (leg : LegFacts) → self.old.legs ≡ legs ++ leg ∷ [] → self.new ≡ legs_with self.old.terms legs }
    {
        self.legs.pop();
        self.numbers.pop();
    }

    /// A choice of least price for the legs, and its price; none where no choice pays them.
    ///
    /// # Errors
    /// Want of memory.
    pub fn price(&self, alloc: Global) -> Result<Option<Priced>, AllocError>
        requires { length self.now.legs ≤ 12 }
        ensures { IfOk result (IsLeastOrNone self.now.terms.feed self.now.legs self.now.terms.buyer) }
    {
        price_known(alloc, &self.known, &self.legs, &self.numbers)
    }
}

/// Puts the leg and the number behind those that are there. After a refusal all are as before.
fn push_both(
    legs: &mut Vec<LegFacts>,
    leg: LegFacts,
    numbers: &mut Vec<usize>,
    number: usize,
) -> Result<(), AllocError>
    ensures legs { OnOk result (legs.new.items ≡ legs.old.items ++ leg ∷ []) }
    ensures numbers { OnOk result (numbers.new.items ≡ numbers.old.items ++ number ∷ []) }
    ensures legs_stay { OnErr result (legs.new.items ≡ legs.old.items) }
    ensures numbers_stay { OnErr result (numbers.new.items ≡ numbers.old.items) }
{
    legs.push(leg)?;
    match numbers.push(number) {
        Ok(()) => Ok(()),
        Err(_) => {
            legs.pop();
            Err(AllocError)
        }
    }
}
