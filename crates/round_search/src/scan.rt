//! Which positions the labels of a round reach, and until when rides from there may arrive.
ghost use Rattle.std.specs.Prelude.{◌≡◌, ◌⊎◌, ◌+◌, ◌++◌, ◌∷◌, ◌<ℤ◌, ◌≤ℤ◌, [], false, true, List, OnOk, length, slice_get, Some, ℤ};
ghost use Rattle.plan_rides.specs.Cutoffs.{AreLastDepartures, CutoffOf, cutoff_of, is_early};
ghost use Rattle.plan_rides.specs.InTime.{IsWithinWindow, deadline};
ghost use Rattle.plan_rides.specs.Reached.{AreKept, HoldsFrom, IsReachedFrom, none_kept};
ghost use Rattle.search_laws.specs.Stores.{StepsFrom};
ghost use Rattle.round_search.specs.Bags.{AreForStops, StayForStops, in_bags};
ghost use Rattle.round_search.specs.Bounds.{AreUntils, DepartsAfter, IsAnyRide, IsFair, IsUntil};
ghost use Rattle.round_terms.specs.Labels.{facts_of};
ghost use Rattle.round_search.specs.Scans.{AddsLabel, AddsMarks, AreMarks, IsRound};
ghost use Rattle.round_search.specs.Searches.{IsFit, IsSource, SpreadsFrom, search_of};
ghost use Rattle.round_terms.specs.Steps.{stand_of_facts};
ghost use Rattle.round_terms.specs.Tasks.{task_of};
ghost use Rattle.round_terms.specs.Terms.{Facts};
ghost use Rattle.feed_rows.specs.declared.journeys.RideFacts.{RideFacts};
ghost use Rattle.round_terms.specs.declared.finals.Final.{Final};
ghost use Rattle.round_terms.specs.declared.label.Label.{Label};

use crate::bounds::Until;
use crate::search::{Search, Source, standing};
use plan_rides::{Cutoff, Positions, Reached, Traveller, put_in_order};
use round_terms::{Final, Label, Tariff};
use std::alloc::AllocError;
use transit_base::Moment;

/// What a round goes on from: where riders may board, the labels, what is found by now, from which number on the labels are the last,
/// and how many rides those have.
#[derive(Clone, Copy)]
pub struct Round<'s, 'r, F: Copy, M: Copy> {
    pub(crate) positions: &'r Positions<'s>,
    pub(crate) labels: &'r [Label<F, M>],
    pub(crate) finals: &'r [Final],
    pub(crate) begin: usize,
    pub(crate) count: u8,
}

/// The positions that the labels of a round reach, by pattern and position; in the order of the labels until when rides from each of
/// them may arrive; and the latest of these moments.
pub struct Marks {
    pub(crate) reached: Vec<Reached>,
    pub(crate) untils: Vec<Until>,
    pub(crate) last: Moment,
}

// Written out, so that what holds one needn't look into it to let go of it.
impl Drop for Marks {
    fn drop(self) {
        let Marks {
            reached: _,
            untils: _,
            last: _,
        } = self;
    }
}

impl Marks {
    /// Lets go of all, but not of its room; no moment is later than this one.
    fn clear(&mut self, last: Moment)
        ensures reached { self.new.reached.items ≡ [] }
        ensures untils { self.new.untils.items ≡ [] }
        ensures last { self.new.last ≡ last }
    {
        self.reached.clear();
        self.untils.clear();
        self.last = last;
    }

    /// Adds until when rides from the next label may arrive.
    fn push(&mut self, until: Until) -> Result<(), AllocError>
        ensures untils { OnOk result (self.new.untils.items ≡ self.old.untils.items ++ until ∷ []) }
        ensures reached { OnOk result (self.new.reached ≡ self.old.reached) }
        ensures later { OnOk result (self.old.last.0 ≤ℤ self.new.last.0) }
        ensures last { OnOk result (until.all.0 ≤ℤ self.new.last.0) }
        ensures is { OnOk result ((self.new.last ≡ self.old.last) ⊎ (self.new.last ≡ until.all)) }
    {
        self.untils.push(until)?;
        if self.last.0 < until.all.0 {
            self.last = until.all;
        }
        Ok(())
    }
}

/// By what rides from a position are kept: how late they may arrive, and how late they may depart for that.
#[derive(Clone, Copy)]
pub struct Cutoffs<'p> {
    pub(crate) latest: Cutoff<'p>,
    pub(crate) lasts: Cutoff<'p>,
}

impl<'s, 'l, T: Tariff> Search<'s, 'l, T> {
    /// How many rides may follow one more behind those of the round.
    pub(crate) fn more_behind(&self, round: &Round<'s, '_, T::Fare, T::Move>) -> usize
        requires { IsRound (task_of T.Fare.at_most T.terms self.now) round.now }
        ensures { round.now.count + 1 + result ≡ self.now.query.rides }
    {
        usize::from(self.limit() - round.count - 1)
    }

    /// By what rides are tried behind which so many more may follow, where they may arrive until then.
    pub(crate) fn cutoffs_by(&self, more: usize, until: Moment) -> Cutoffs<'l>
        requires { until.0 ≤ℤ deadline self.now.query }
        ensures lasts { AreLastDepartures self.now.feed self.now.query (cutoff_of result.latest) (cutoff_of result.lasts) }
        ensures fair { (finals : List Final) (a : Facts T.Fare) → IsWithinWindow self.now.query a.arrival → IsUntil (task_of T.Fare.at_most T.terms self.now) finals a IsAnyRide until.0 → a.rides + 1 + more ≡ self.now.query.rides → IsFair (task_of T.Fare.at_most T.terms self.now) finals a IsAnyRide (cutoff_of result.latest) }
        ensures late { (finals : List Final) (a : Facts T.Fare) (since : ℤ) → IsWithinWindow self.now.query a.arrival → IsUntil (task_of T.Fare.at_most T.terms self.now) finals a (DepartsAfter since) until.0 → a.rides + 1 + more ≡ self.now.query.rides → IsFair (task_of T.Fare.at_most T.terms self.now) finals a (DepartsAfter since) (cutoff_of result.latest) }
    {
        let _feed = self.feed();
        Cutoffs {
            latest: Cutoff {
                spans: self.spans.stands(more),
                until,
            },
            lasts: Cutoff {
                spans: self.spans.boards(more),
                until,
            },
        }
    }

    /// Appends the positions that the label reaches, from which rides may arrive until then.
    fn reach(
        &self,
        round: &Round<'s, '_, T::Fare, T::Move>,
        source: &Source<T::Fare, T::Move>,
        until: Moment,
        reached: &mut Vec<Reached>,
    ) -> Result<(), AllocError>
        requires round { IsRound (task_of T.Fare.at_most T.terms self.now) round.now }
        requires source { IsSource (task_of T.Fare.at_most T.terms self.now) source.now }
        requires counts { source.now.label.now.rides ≡ round.now.count }
        requires until { IsUntil (task_of T.Fare.at_most T.terms self.now) round.now.finals.now (facts_of source.now.label.now) IsAnyRide until.0 }
        ensures { OnOk result (AddsMarks (task_of T.Fare.at_most T.terms self.now) round.now source.now reached.old.items reached.new.items) }
    {
        let _limit = self.limit();
        let cutoffs = self.cutoffs_by(self.more_behind(round), until);
        let who = Traveller {
            standing: standing(source.label),
            number: source.number,
        };
        round.positions.reach(&cutoffs.lasts, &who, reached)
    }

    /// Appends the positions that the label reaches, and until when rides from it may arrive: none where it is cut off.
    fn mark_label(
        &self,
        round: &Round<'s, '_, T::Fare, T::Move>,
        source: &Source<T::Fare, T::Move>,
        marks: &mut Marks,
    ) -> Result<(), AllocError>
        requires round { IsRound (task_of T.Fare.at_most T.terms self.now) round.now }
        requires source { IsSource (task_of T.Fare.at_most T.terms self.now) source.now }
        requires counts { source.now.label.now.rides ≡ round.now.count }
        ensures { OnOk result (AddsLabel (task_of T.Fare.at_most T.terms self.now) round.now source.now marks.old marks.new) }
    {
        let _limit = self.limit();
        if self.is_cut(round.finals, source.label) {
            let departure = self.departure();
            return marks.push(Until {
                all: departure,
                since: departure,
                late: departure,
            });
        }
        let until = self.untils(round.finals, source.label);
        self.reach(round, source, until.all, &mut marks.reached)?;
        marks.push(until)
    }

    /// Replaces the marks by those of the labels of the round.
    pub(crate) fn mark(
        &self,
        round: &Round<'s, '_, T::Fare, T::Move>,
        marks: &mut Marks,
    ) -> Result<(), AllocError>
        requires { IsRound (task_of T.Fare.at_most T.terms self.now) round.now }
        ensures { OnOk result (AreMarks (task_of T.Fare.at_most T.terms self.now) round.now marks.new) }
    {
        let _limit = self.limit();
        marks.clear(self.departure());
        for number in round.begin..round.labels.len() {
            let source = Source {
                labels: round.labels,
                number: number as u32,
                label: &round.labels[number],
            };
            self.mark_label(round, &source, marks)?;
        }
        put_in_order(&mut marks.reached);
        Ok(())
    }
}
