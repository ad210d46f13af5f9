//! What it is enough to pay for legs, kept by the kind of a leg.
ghost use Rattle.std.specs.Prelude.{◌≡◌, ℕ, [], IfOk};
ghost use Rattle.feed_rows.specs.declared.journeys.LegFacts.{LegFacts};
ghost use Rattle.leg_kinds.specs.Kinds.{IsOfKind};
ghost use Rattle.fare_automaton.specs.Fewest.{AreEnough};
ghost use Rattle.fare_automaton.specs.Known.{known_of};

use crate::automaton::Automaton;
use feed_rows::{LegChoice, LegFacts};
use leg_kinds::KindTable;
use std::alloc::{AllocError, Global};
use std::marker::Model;

/// What it is enough to pay for legs: of what can be paid the cheapest for each leg group. It is asked once for all legs that differ
/// in their moments at most. Contracts see the feed and the buyer, and the lists that are kept.
pub struct KnownOptions<'a, 'f> {
    automaton: &'a Automaton<'f>,
    table: KindTable<LegChoice>,
    guess: Guess,
}

/// What kind a leg may be: that of the leg before it, or the one that came last behind that.
#[derive(Drop)]
struct Guess {
    last: usize,
    next: Vec<usize>,
}

impl Guess {
    /// The kind that came last behind the last leg's.
    fn next(&self) -> usize {
        match self.next.get(self.last) {
            Some(number) => *number,
            None => self.last,
        }
    }

    /// Takes note of the kind of a leg, of which each new one has the next number.
    fn note(&mut self, number: usize) -> Result<(), AllocError> {
        if number >= self.next.len() {
            self.next.push(number)?;
        }
        if let Some(next) = self.next.get_mut(self.last) {
            *next = number;
        }
        self.last = number;
        Ok(())
    }
}

// Written out, so that what holds one needn't look into it to let go of it.
impl<'a, 'f> Drop for KnownOptions<'a, 'f> {
    fn drop(self) {
        let KnownOptions {
            automaton: _,
            table: _,
            guess: _,
        } = self;
    }
}

impl<'a, 'f> Model for KnownOptions<'a, 'f> {
    ghost use Rattle.std.specs.Prelude.{All};
    ghost use Rattle.fare_automaton.specs.Known.{KnownPicks, known_of, HasPicks};

    ghost Value = { KnownPicks };

    ghost view = { λ s. known_of s.automaton.now s.table };

    ghost invariant = { λ s. All (HasPicks s.automaton.now) s.table };
}

impl<'a, 'f> KnownOptions<'a, 'f> {
    /// Nothing is kept yet.
    pub fn of(alloc: Global, automaton: &'a Automaton<'f>) -> KnownOptions<'a, 'f>
        ensures { result ≡ known_of automaton.now [] }
    {
        KnownOptions {
            automaton,
            table: KindTable::empty(alloc),
            guess: Guess {
                last: 0,
                next: Vec::new(alloc),
            },
        }
    }

    /// Whose options are kept.
    pub fn automaton(&self) -> &'a Automaton<'f>
        ensures { result.now ≡ self.now.terms }
    {
        self.automaton
    }

    /// The number under which is kept what it is enough to pay for the leg. It is asked where no leg was that differs from this one in
    /// its moments at most. What was kept before stays as it is, after a refusal too.
    ///
    /// # Errors
    /// Want of memory.
    pub fn know(&mut self, alloc: Global, leg: &LegFacts) -> Result<usize, AllocError>
        ensures known { IfOk result (IsOfKind self.new.lists leg.now) }
        ensures terms { self.new.terms ≡ self.old.terms }
        ensures still { (other : LegFacts) (number : ℕ) → IsOfKind self.old.lists other number → IsOfKind self.new.lists other number }
    {
        let last = self.guess.last;
        if self.table.is_kept_for(last, leg) {
            return Ok(last);
        }
        let next = self.guess.next();
        if self.table.is_kept_for(next, leg) {
            self.guess.last = next;
            return Ok(next);
        }
        let number = self.sought(alloc, leg)?;
        self.guess.note(number)?;
        Ok(number)
    }

    /// The same, by all that is kept.
    ///
    /// # Errors
    /// Want of memory.
    fn sought(&mut self, alloc: Global, leg: &LegFacts) -> Result<usize, AllocError>
        ensures known { IfOk result (IsOfKind self.new.lists leg.now) }
        ensures terms { self.new.terms ≡ self.old.terms }
        ensures still { (other : LegFacts) (number : ℕ) → IsOfKind self.old.lists other number → IsOfKind self.new.lists other number }
    {
        if let Some(number) = self.table.find(leg) {
            return Ok(number);
        }
        let options = self.automaton.options(alloc, leg)?;
        let fewest = self.automaton.fewest(alloc, &options)?;
        self.table.keep(alloc, leg, fewest)
    }

    /// What is kept under the number, which is enough for each leg of its kind.
    pub fn options(&self, number: usize) -> &[LegChoice]
        ensures { (leg : LegFacts) → IsOfKind self.now.lists leg number → AreEnough self.now.terms.feed self.now.terms.buyer leg result.now }
    {
        self.table.list(number)
    }
}
