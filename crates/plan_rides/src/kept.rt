//! The rides from positions, kept from one traveller to the next.
ghost use Rattle.std.specs.Prelude.{◌≡◌, true, false, IfOk, OnOk};
ghost use Rattle.plan_rides.specs.Cutoffs.{AreLastDepartures, CutoffOf, cutoff_of};
ghost use Rattle.plan_rides.specs.Departures.{Serves};
ghost use Rattle.plan_rides.specs.Reached.{AreKept, HoldsFrom, IsNoLater, Positioned, none_kept};

use crate::caught::CaughtRide;
use crate::cutoffs::Cutoff;
use crate::positions::{Positions, Reached};
use std::alloc::{AllocError, Global};
use std::marker::Model;

impl Reached {
    // Whether it is the same position, and one gets there no later.
    fn is_no_later(&self, other: &Reached) -> bool
        ensures { result ≡ true → IsNoLater self.now other.now }
    {
        self.serving.pattern == other.serving.pattern
            && self.serving.position == other.serving.position
            && self.stop.0 == other.stop.0
            && self.earliest.0 <= other.earliest.0
    }
}

/// The rides from the position that was asked for last, which serve for all who get there later. Contracts see that position and
/// the rides.
pub struct KeptRides {
    of: Option<Reached>,
    rides: Vec<CaughtRide>,
}

// Written out, so that what holds one needn't look into it to let go of it.
impl Drop for KeptRides {
    fn drop(self) {
        let KeptRides { of: _, rides: _ } = self;
    }
}

impl Model for KeptRides {
    ghost use Rattle.plan_rides.specs.Reached.{Kept};

    ghost Value = { Kept };

    ghost view = { λ s. record { of = s.of; rides = s.rides.items } };
}

impl KeptRides {
    /// None yet.
    pub fn none(alloc: Global) -> KeptRides
        ensures { result ≡ none_kept }
    {
        KeptRides {
            of: None,
            rides: Vec::new(alloc),
        }
    }

    /// Lets go of the rides, but not of their room.
    pub fn clear(&mut self)
        ensures { self.new ≡ none_kept }
    {
        self.of = None;
        self.rides.clear();
    }

    // Whether the rides that are kept serve for the position.
    fn serve(&self, reached: &Reached) -> bool
        ensures { result ≡ true → (me : Positioned) (latest : CutoffOf) → AreKept me latest self.now → HoldsFrom me latest reached.now self.now.rides }
    {
        match &self.of {
            Some(of) => of.is_no_later(reached),
            None => false,
        }
    }

    /// The rides.
    pub fn rides(&self) -> &[CaughtRide]
        ensures { result.now ≡ self.now.rides }
    {
        &self.rides
    }
}

impl<'s> Positions<'s> {
    /// Keeps the rides from the position for whoever gets there: those that arrive early enough by `latest`. By `lasts` none
    /// of them departs too late. What is kept was so by the same cutoff. The answer is whether other rides are kept than before.
    ///
    /// # Errors
    /// Want of memory.
    pub fn keep(
        &self,
        kept: &mut KeptRides,
        latest: &Cutoff,
        lasts: &Cutoff,
        reached: &Reached,
    ) -> Result<bool, AllocError>
        requires serves { Serves self.now.feed self.now.patterns reached.now.stop.0 reached.now.serving }
        requires lasts { AreLastDepartures self.now.feed self.now.query (cutoff_of latest.now) (cutoff_of lasts.now) }
        requires kept { AreKept self.now (cutoff_of latest.now) kept.old }
        ensures kept { OnOk result (AreKept self.now (cutoff_of latest.now) kept.new) }
        ensures holds { OnOk result (HoldsFrom self.now (cutoff_of latest.now) reached.now kept.new.rides) }
        ensures same { IfOk result (λ anew. anew ≡ false → kept.new ≡ kept.old) }
    {
        if kept.serve(reached) {
            return Ok(false);
        }
        kept.clear();
        self.add_rides(&mut kept.rides, latest, lasts, reached)?;
        kept.of = Some(*reached);
        Ok(true)
    }
}
