//! A tariff that asks for no fares.
use label_order::LabelOrder;
use plan_rides::CaughtRide;
use round_terms::{Classed, Label, LeastPrice, Leg, Tariff};
use std::alloc::{AllocError, Global};
use transit_base::{Moment, Money};

/// Nothing is kept of fares.
#[derive(Clone, Copy)]
pub struct NoFare;

impl LabelOrder for NoFare {
    ghost use Rattle.plan_arrivals.specs.NoFares.{any, any_laws};

    ghost at_most = { any };

    fn leq(&self, _other: &Self) -> bool {
        true
    }

    ghost laws = { any_laws };
}

impl Classed for NoFare {
    ghost use Rattle.std.specs.Prelude.{None};
    ghost use Rattle.plan_arrivals.specs.NoFares.{unclassed};

    type Class = u8;

    ghost class_of = { λ a. None };

    fn class(&self) -> Option<u8> {
        None
    }

    ghost classes = { unclassed };
}

/// Nothing pays a ride.
#[derive(Clone, Copy)]
pub struct NoMove;

/// Nothing is known of rides, and no room is needed for it.
pub struct NoLegs;

impl Drop for NoLegs {
    fn drop(self) {
        let NoLegs = self;
    }
}

/// Each ride is free, and so is each journey.
#[derive(Clone, Copy)]
pub struct NoFares;

impl Tariff for NoFares {
    ghost use Rattle.plan_arrivals.specs.NoFares.{no_fares, free_lawful};

    type Fare = NoFare;

    type Move = NoMove;

    type Legs = NoLegs;

    type Room = NoLegs;

    ghost terms = { λ s. no_fares };

    ghost Serves = { λ asked. Unit {0} };

    ghost Knows = { λ s legs. Unit {0} };

    ghost IsKnown = { λ s legs place ride. Unit {0} };

    fn begin(&self) -> NoFare {
        NoFare
    }

    fn find_legs(
        &self,
        _alloc: Global,
        _rides: &[CaughtRide],
        _legs: &mut NoLegs,
    ) -> Result<(), AllocError> {
        Ok(())
    }

    fn is_repeated(&self, _leg: &Leg<'_, NoLegs>, _since: Moment) -> bool {
        false
    }

    fn moves_into(
        &self,
        _label: &Label<NoFare, NoMove>,
        _leg: &Leg<'_, NoLegs>,
        _room: &mut NoLegs,
        moves: &mut Vec<NoMove>,
    ) -> Result<(), AllocError> {
        moves.clear();
        moves.push(NoMove)?;
        Ok(())
    }

    fn after(&self, _label: &Label<NoFare, NoMove>, _ride: &CaughtRide, _taken: &NoMove) -> NoFare {
        NoFare
    }

    fn price(&self, _label: &Label<NoFare, NoMove>) -> Money {
        Money(0)
    }

    fn least(&self, _label: &Label<NoFare, NoMove>) -> LeastPrice {
        LeastPrice(0)
    }

    fn least_on(
        &self,
        _label: &Label<NoFare, NoMove>,
        _behind: u8,
        _late: bool,
    ) -> Option<LeastPrice> {
        Some(LeastPrice(0))
    }

    fn late_since(
        &self,
        _label: &Label<NoFare, NoMove>,
        _first: Moment,
        _last: Moment,
    ) -> Option<Moment> {
        None
    }

    fn settled_since(
        &self,
        _label: &Label<NoFare, NoMove>,
        _legs: &NoLegs,
        _first: Moment,
        _last: Moment,
    ) -> Option<Moment> {
        None
    }

    ghost lawful = { λ asked serves. free_lawful asked.query.rides };
}
