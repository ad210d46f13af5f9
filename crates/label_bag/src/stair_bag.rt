//! A bag that looks at members of one class alone.
ghost use Rattle.std.specs.Prelude.{◌≡◌, ◌-◌, ◌+◌, ◌≤◌, [], min, IfOk, OnErr, vec_capacity, vec_len};
ghost use Rattle.label_bag.specs.Bags.{AreApart};
ghost use Rattle.label_bag.specs.Flights.{AreFlights, AreFlights-prop, AreDistinct, IsPlace, IsCut, LacksClass};

use crate::bag::{Bag, NoRoom, Offered};
use crate::flights::{Flight, Place, place_of};
use crate::search::{count_lower, count_up_to, cover_below, replace};
use label_order::Stair;
use std::alloc::{AllocError, Global};

/// A bag in one list, class by class, each class in ascending order of height. An offer looks at the members of its class alone:
/// at those that are not higher for one that is at most it, and at those that are not lower for those that it is at most.
pub struct StairBag<L: Stair> {
    members: Vec<L>,
    flights: Vec<Flight<L::Class>>,
    ghost apart: { AreApart L.at_most members.items },
    ghost distinct: { AreDistinct L.Class.eq flights.items },
    ghost in_flights: { AreFlights L.Class.eq L.class_of L.height_of flights.items members.items } by { AreFlights-prop L.Class.eq L.class_of L.height_of flights.items members.items },
}

// Written out, so that what holds one needn't look into it to let go of it.
impl<L: Stair> Drop for StairBag<L> {
    fn drop(self) {
        let StairBag {
            members: _,
            flights: _,
        } = self;
    }
}

impl<L: Stair> StairBag<L> {
    /// A bag without members.
    pub fn new(alloc: Global) -> Self
        ensures { ⟦<StairBag<L> as Bag<L>>⟧.content result ≡ [] }
    {
        StairBag {
            members: Vec::new(alloc),
            flights: Vec::new(alloc),
        }
    }

    /// The place of the flight of this class, which is made where there is none.
    fn flight_of(&mut self, class: L::Class) -> Result<Place, AllocError>
        ensures same { self.new.members ≡ self.old.members }
        ensures ok { IfOk result (IsPlace L.Class.eq self.new.flights.items class) }
        ensures cut { IfOk result (λ place. IsCut L.Class.eq L.class_of L.height_of class self.new.members.items place.begin place.end) }
        ensures err { OnErr result (LacksClass L.Class.eq self.new.flights.items class) }
        ensures full { OnErr result (vec_capacity self.old.flights ≤ vec_len self.old.flights) }
        ensures spare { vec_capacity self.old.flights - vec_len self.old.flights ≤ (vec_capacity self.new.flights - vec_len self.new.flights) + 1 }
    {
        if let Some(place) = place_of(&self.flights, class) {
            return Ok(place);
        }
        self.flights.push(Flight { class, size: 0 })?;
        let end = self.members.len();
        Ok(Place {
            number: self.flights.len() - 1,
            begin: end,
            end,
        })
    }
}

impl<L: Stair> Bag<L> for StairBag<L> {
    ghost content = { λ b. b.members.items };

    ghost spare = { λ b. min (vec_capacity b.members - vec_len b.members) (vec_capacity b.flights - vec_len b.flights) };

    fn reserve(&mut self, more: usize) -> Result<(), AllocError> {
        self.members.reserve(more)?;
        self.flights.reserve(more)
    }

    fn offer(&mut self, label: L) -> Result<Offered, NoRoom<L>> {
        let Ok(place) = self.flight_of(label.class()) else {
            return Err(NoRoom { label });
        };
        let flight = &self.members[place.begin..place.end];
        let up_to = count_up_to(flight, &label);
        if let Some(number) = cover_below(flight, up_to, &label) {
            return Ok(Offered::Covered(place.begin + number));
        }
        let start = place.begin + count_lower(flight, up_to, &label);
        let others = self.members.len() - (place.end - place.begin);
        replace(&mut self.members, start, place.end, label)?;
        self.flights[place.number].size = self.members.len() - others;
        Ok(Offered::Kept)
    }

    fn len(&self) -> usize {
        self.members.len()
    }

    fn member(&self, number: usize) -> &L {
        &self.members[number]
    }

    ghost apart = { λ b. b.apart };
}
