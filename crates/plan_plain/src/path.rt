//! The rides that a search has taken, and their legs.
ghost use Rattle.std.specs.Prelude.{◌≡◌, ◌≤◌, length, IfOk, OnOk};
ghost use Rattle.fare_price.specs.Prices.{IsLeastOrNone};
ghost use Rattle.feed_rows.specs.declared.journeys.LegFacts.{LegFacts};
ghost use Rattle.feed_rows.specs.declared.journeys.Ride.{Ride};
ghost use Rattle.plan_plain.specs.Paths.{Taken, no_ride, with_ride};

use fare_automaton::Automaton;
use fare_price::{KnownLegs, Priced};
use feed_rows::{LegFacts, Ride, RideList};
use std::alloc::{AllocError, Global};
use std::marker::Model;

/// The rides that a search has taken, in order, and what fare rules look at in each, with what can be paid for it.
/// Contracts see it as these two lists, and whose fares are asked.
#[derive(Drop)]
pub struct Path<'r, 'f> {
    rides: Vec<Ride>,
    legs: KnownLegs<'r, 'f>,
}

impl<'r, 'f> Model for Path<'r, 'f> {
    ghost use Rattle.plan_plain.specs.Paths.{Taken};

    ghost Value = { Taken };

    ghost view = { λ s. record { terms = s.legs.terms; rides = s.rides.items; legs = s.legs.legs } };
}

impl<'r, 'f> Path<'r, 'f> {
    /// No ride is taken yet.
    pub fn empty(alloc: Global, automaton: &'r Automaton<'f>) -> Path<'r, 'f>
        ensures { result ≡ no_ride automaton.now }
    {
        Path {
            rides: Vec::new(alloc),
            legs: KnownLegs::empty(alloc, automaton),
        }
    }

    /// How many rides there are.
    pub fn len(&self) -> usize
        ensures { result ≡ length self.now.rides }
    {
        self.rides.len()
    }

    /// A choice of least price for the rides; none where no choice pays them.
    ///
    /// # Errors
    /// Want of memory.
    pub fn price(&self, alloc: Global) -> Result<Option<Priced>, AllocError>
        requires { length self.now.legs ≤ 12 }
        ensures { IfOk result (IsLeastOrNone self.now.terms.feed self.now.legs self.now.terms.buyer) }
    {
        self.legs.price(alloc)
    }

    /// The rides, as a journey has them.
    ///
    /// # Errors
    /// Want of memory.
    pub fn rides(&self, alloc: Global) -> Result<RideList, AllocError>
        ensures { IfOk result (λ rides. rides ≡ self.now.rides) }
    {
        let mut rides = RideList::empty(alloc);
        for ride in self.rides.as_slice() {
            rides.push(*ride)?;
        }
        Ok(rides)
    }

    /// Takes one ride more, with what fare rules look at in it.
    ///
    /// # Errors
    /// Want of memory.
    pub fn push(&mut self, alloc: Global, ride: Ride, leg: LegFacts) -> Result<(), AllocError>
        ensures { OnOk result (self.new ≡ with_ride self.old ride leg) }
    {
        self.rides.push(ride)?;
        self.legs.push(alloc, leg)?;
        Ok(())
    }

    /// Gives the last ride back.
    pub fn pop(&mut self)
        ensures { (taken : Taken) (ride : Ride) (leg : LegFacts) → self.old ≡ with_ride taken ride leg → self.new ≡ taken }
    {
        self.rides.pop();
        self.legs.pop();
    }
}
