//! The ways to pay some legs, of which none is as good as another.
ghost use Rattle.std.specs.Prelude.{◌≡◌, ◌<◌, ◌≤◌, ◌^◌, [], ◌∷◌, ◌+ℤ◌, length, map, nat_abs, slice_get, Some, All, OnOk};
ghost use Rattle.label_bag.specs.Bags.{Gathers};
ghost use Rattle.feed_rows.specs.SameStates.{same_parts};
ghost use Rattle.fare_laws.specs.SmallMoves.{IsSmall};
ghost use Rattle.fare_price.specs.Ways.{cost, is_as_good, way_by};

use feed_rows::{FareState, Move};
use label_bag::{Bag, ListBag};
use label_order::LabelOrder;
use std::alloc::{AllocError, Global};
use std::marker::Model;
use transit_base::Money;

/// A way to pay some legs: what is paid, and the last move.
#[derive(Clone, Copy)]
pub struct Way {
    /// What no later change takes back, in minor units.
    pub paid: Money,
    pub step: Move,
    /// The number of the way to pay the legs before.
    pub before: usize,
}

impl Way {
    /// What the legs cost so far.
    pub fn cost(&self) -> i128
        ensures { result ≡ cost self.now }
    {
        i128::from(self.paid.0) + i128::from(self.step.held.0)
    }

    /// Whether it leads to the state of the other, has paid no more and costs no more.
    #[tactic(auto, unfolding(crate::specs::Ways::is_as_good, feed_rows::specs::Amounts::is_no_dearer))]
    fn is_as_good(&self, other: &Way) -> bool
        ensures { result ≡ is_as_good self.now other.now }
    {
        self.paid.0 <= other.paid.0
            && self.cost() <= other.cost()
            && same_parts(&self.step.state, &other.step.state)
    }
}

/// Whether each part of the states is the same.
#[tactic(auto, unfolding(feed_rows::specs::SameStates::same_parts))]
fn same_parts(a: &FareState, b: &FareState) -> bool
    ensures { result ≡ same_parts a.now b.now }
{
    *a == *b
}

impl LabelOrder for Way {
    ghost use Rattle.fare_price.specs.Ways.{is_as_good};
    ghost use Rattle.fare_price.specs.WayLaws.{way_laws};

    ghost at_most = { is_as_good };

    fn leq(&self, other: &Self) -> bool {
        self.is_as_good(other)
    }

    ghost laws = { way_laws };
}

/// Ways to pay the same legs. Contracts see a list.
pub struct Ways {
    bag: ListBag<Way>,
}

// Written out, so that what holds one needn't look into it to let go of it.
impl Drop for Ways {
    fn drop(self) {
        let Ways { bag: _ } = self;
    }
}

impl Model for Ways {
    ghost use Rattle.std.specs.Prelude.{List};
    ghost use Rattle.fare_price.specs.declared.ways.Way.{Way};

    ghost Value = { List Way };

    ghost view = { λ s. ⟦<ListBag<Way> as Bag<Way>>⟧.content s.bag };
}

impl Ways {
    /// No way.
    pub fn empty(alloc: Global) -> Ways
        ensures { result ≡ [] }
    {
        Ways {
            bag: ListBag::new(alloc),
        }
    }

    /// Takes the way in, unless one is as good; those that it is as good as go.
    ///
    /// # Errors
    /// Want of memory.
    pub fn offer(&mut self, way: Way) -> Result<(), AllocError>
        ensures { OnOk result (Gathers is_as_good self.old (way ∷ []) self.new) }
    {
        match self.bag.offer(way) {
            Ok(_) => Ok(()),
            Err(_) => Err(AllocError),
        }
    }

    /// Takes in the ways by these moves, where so much was paid for the legs before, in the way of this number.
    ///
    /// # Errors
    /// Want of memory.
    pub fn offer_moves(
        &mut self,
        paid: Money,
        before: usize,
        moves: &[Move],
    ) -> Result<(), AllocError>
        requires paid { nat_abs paid.0 ≤ 10 ^ 15 }
        requires moves { All IsSmall moves.now }
        ensures { OnOk result (Gathers is_as_good self.old (map (way_by paid.0 before) moves.now) self.new) }
    {
        for step in moves {
            self.offer(way_by(paid, before, step))?;
        }
        Ok(())
    }

    /// How many ways there are.
    pub fn len(&self) -> usize
        ensures { result ≡ length self.now }
    {
        self.bag.len()
    }

    /// The way with this number.
    pub fn get(&self, number: usize) -> &Way
        requires { number < length self.now }
        ensures { slice_get self.now number ≡ Some result.now }
    {
        self.bag.member(number)
    }
}

/// The way by the move, where so much was paid for the legs before, in the way of this number.
fn way_by(paid: Money, before: usize, step: &Move) -> Way
    requires paid { nat_abs paid.0 ≤ 10 ^ 15 }
    requires small { IsSmall step.now }
    ensures { result ≡ way_by paid.0 before step.now }
{
    Way {
        paid: Money(paid.0 + step.paid.0),
        step: *step,
        before,
    }
}
