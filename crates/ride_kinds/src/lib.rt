//! The kinds of the legs that rides are. What fare rules look at in a leg is found once for all rides between stops with the same
//! areas, of one network, whose moments lie between the same starts and ends of timeframes.
#![tactic(auto)]

ghost use Rattle.std.specs.Prelude.{◌≡◌, [], IfOk};
ghost use Rattle.feed_rows.specs.declared.journeys.LegFacts.{LegFacts};
ghost use Rattle.feed_rows.specs.Legs.{leg_facts};
ghost use Rattle.leg_kinds.specs.Kinds.{IsOfKind};
ghost use Rattle.fare_automaton.specs.Fewest.{AreEnough};
ghost use Rattle.fare_automaton.specs.Known.{known_of};
ghost use Rattle.fare_timeframes.specs.BuiltTimeframes.{AreTimeframesOf};
ghost use Rattle.ride_kinds.specs.RideKinds.{StayKnown};

use fare_automaton::{Automaton, KnownOptions};
use fare_timeframes::{Timeframes, blank_leg};
use feed_rows::{LegChoice, LegFacts, RideFacts};
use ride_cache::RideCache;
use std::alloc::{AllocError, Global};
use std::marker::Model;

/// How many rides are kept at most.
const PLACES: usize = 8_192;

/// What can be paid for legs, kept by their kinds, and for rides that came lately of which kind their legs are. Contracts see the kinds.
pub struct LegKinds<'l, 's> {
    known: KnownOptions<'l, 's>,
    timeframes: &'l Timeframes<'l>,
    // What fare rules look at in the leg that was looked at last, kept for its memory.
    leg: LegFacts,
    kinds: RideCache<usize>,
}

// Written out, so that what holds one needn't look into it to let go of it.
impl<'l, 's> Drop for LegKinds<'l, 's> {
    fn drop(self) {
        let LegKinds {
            known: _,
            timeframes: _,
            leg: _,
            kinds: _,
        } = self;
    }
}

impl<'l, 's> Model for LegKinds<'l, 's> {
    ghost use Rattle.fare_automaton.specs.Known.{KnownPicks};
    ghost use Rattle.fare_timeframes.specs.BuiltTimeframes.{AreTimeframesOf};
    ghost use Rattle.ride_kinds.specs.RideKinds.{AreKindsOf};

    ghost Value = { KnownPicks };

    ghost view = { λ s. s.known };

    ghost invariant = { λ s. AreTimeframesOf s.known.terms.feed s.timeframes.now × AreKindsOf s.known s.kinds };
}

impl<'l, 's> LegKinds<'l, 's> {
    /// Nothing is kept yet.
    ///
    /// # Errors
    /// Want of memory.
    pub fn of(
        alloc: Global,
        automaton: &'l Automaton<'s>,
        timeframes: &'l Timeframes<'l>,
    ) -> Result<LegKinds<'l, 's>, AllocError>
        requires { AreTimeframesOf automaton.now.feed timeframes.now }
        ensures { IfOk result (λ kinds. kinds ≡ known_of automaton.now []) }
    {
        Ok(LegKinds {
            known: KnownOptions::of(alloc, automaton),
            timeframes,
            leg: blank_leg(alloc),
            kinds: RideCache::of(alloc, PLACES)?,
        })
    }

    /// The number of the kind of the leg that is the ride.
    ///
    /// # Errors
    /// Want of memory.
    pub fn kind_of(&mut self, alloc: Global, ride: &RideFacts) -> Result<usize, AllocError>
        ensures kind { IfOk result (IsOfKind self.new.lists (leg_facts self.old.terms.feed ride.now)) }
        ensures terms { self.new.terms ≡ self.old.terms }
        ensures still { StayKnown self.old self.new }
    {
        let like = self.timeframes.like_ride(ride);
        if let Some(kind) = self.kinds.get(&like) {
            return Ok(kind);
        }
        self.timeframes.leg_facts_into(&like, &mut self.leg)?;
        let kind = self.known.know(alloc, &self.leg)?;
        self.kinds.put(&like, kind);
        Ok(kind)
    }

    /// What it is enough to pay for each leg of the kind with this number.
    pub fn options(&self, kind: usize) -> &[LegChoice]
        ensures { (leg : LegFacts) → IsOfKind self.now.lists leg kind → AreEnough self.now.terms.feed self.now.terms.buyer leg result.now }
    {
        self.known.options(kind)
    }
}
