//! The rides from the position that was looked at last, for whoever gets there.
ghost use Rattle.std.specs.Prelude.{[], ◌≡◌, OnOk};
ghost use Rattle.plan_rides.specs.Cutoffs.{AreLastDepartures, cutoff_of};
ghost use Rattle.plan_rides.specs.Departures.{Serves};
ghost use Rattle.plan_rides.specs.Reached.{AreKept, HoldsFrom, none_kept};
ghost use Rattle.round_terms.specs.Legs.{AreKnown};
ghost use Rattle.round_search.specs.Settled.{StayLabels};

use crate::scan::{Cutoffs, Round};
use crate::search::Search;
use crate::settled::Settled;
use plan_rides::{KeptRides, Reached};
use round_terms::Tariff;
use std::alloc::{AllocError, Global};

/// The rides from the position, what is known of them, and the labels from which they were tried.
#[derive(Drop)]
pub struct Kept<L: Drop> {
    pub(crate) rides: KeptRides,
    pub(crate) legs: L,
    pub(crate) settled: Settled,
}

impl<L: Drop> Kept<L> {
    /// No rides yet.
    pub(crate) fn none(alloc: Global, legs: L) -> Self
        ensures { result.legs ≡ legs }
    {
        Kept {
            rides: KeptRides::none(alloc),
            legs,
            settled: Settled::none(alloc),
        }
    }

    /// Lets go of the rides, but not of their room.
    pub(crate) fn clear(&mut self)
        ensures rides { self.new.rides ≡ none_kept }
        ensures legs { self.new.legs ≡ self.old.legs }
        ensures settled { self.new.settled.labels.items ≡ [] }
    {
        self.rides.clear();
        self.settled.clear();
    }
}

impl<'s, 'l, T: Tariff> Search<'s, 'l, T> {
    /// Keeps the rides from the position, unless they are kept, with what is known of them.
    pub(crate) fn keep(
        &self,
        round: &Round<'s, '_, T::Fare, T::Move>,
        reached: &Reached,
        cutoffs: &Cutoffs,
        kept: &mut Kept<T::Legs>,
    ) -> Result<(), AllocError>
        requires serves { Serves round.now.positions.now.feed round.now.positions.now.patterns reached.now.stop.0 reached.now.serving }
        requires lasts { AreLastDepartures round.now.positions.now.feed round.now.positions.now.query (cutoff_of cutoffs.now.latest) (cutoff_of cutoffs.now.lasts) }
        requires kept { AreKept round.now.positions.now (cutoff_of cutoffs.now.latest) kept.old.rides }
        requires knows { T.Knows self.now.tariff kept.old.legs }
        requires known { AreKnown (T.IsKnown self.now.tariff kept.old.legs) kept.old.rides.rides }
        ensures kept { OnOk result (AreKept round.now.positions.now (cutoff_of cutoffs.now.latest) kept.new.rides) }
        ensures holds { OnOk result (HoldsFrom round.now.positions.now (cutoff_of cutoffs.now.latest) reached.now kept.new.rides.rides) }
        ensures knows { OnOk result (T.Knows self.now.tariff kept.new.legs) }
        ensures known { OnOk result (AreKnown (T.IsKnown self.now.tariff kept.new.legs) kept.new.rides.rides) }
        ensures labels { OnOk result (StayLabels kept.old.rides kept.old.settled kept.new.rides kept.new.settled) }
    {
        let anew = round
            .positions
            .keep(&mut kept.rides, &cutoffs.latest, &cutoffs.lasts, reached)?;
        if !anew {
            return Ok(());
        }
        kept.settled.clear();
        self.tariff
            .find_legs(self.alloc, kept.rides.rides(), &mut kept.legs)
    }
}
