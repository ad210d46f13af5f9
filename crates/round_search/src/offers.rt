//! How a round goes on from its labels: pattern by pattern, and position by position.
ghost use Rattle.std.specs.Prelude.{◌≡◌, ◌+◌, ◌<ℤ◌, false, true, All, length, OnOk};
ghost use Rattle.plan_rides.specs.Cutoffs.{cutoff_of, is_early};
ghost use Rattle.search_laws.specs.Stores.{StepsFrom};
ghost use Rattle.round_search.specs.Bags.{AreForStops, StayForStops, in_bags};
ghost use Rattle.round_search.specs.Bounds.{AreUntils};
ghost use Rattle.round_search.specs.Offers.{AreLimits, IsKept, IsLeftOut, IsPlace, IsServed};
ghost use Rattle.round_search.specs.Scans.{IsRound, SpreadsIn, StepsAmong, StepsAt, StepsFromPosition};
ghost use Rattle.round_search.specs.Searches.{IsFit, IsSource, SpreadsFrom, StepsByFirst, search_of};
ghost use Rattle.round_terms.specs.Labels.{facts_of};
ghost use Rattle.round_terms.specs.Tasks.{task_of};

use crate::bounds::Until;
use crate::kept::Kept;
use crate::room::{Room, Store, Tries};
use crate::scan::{Cutoffs, Round};
use crate::search::{Search, Source};
use plan_rides::{CaughtRide, Cutoff, Reached, departs_since, is_early};
use round_terms::{Label, Leg, Tariff};
use std::alloc::AllocError;
use transit_base::Moment;

/// By what rides are tried from a label: how late they may arrive; the moment past which those that depart are late, and how late these
/// may arrive; and the moment past which all that arrives is cut off.
#[derive(Clone, Copy)]
pub struct Limits<'p> {
    pub(crate) latest: Cutoff<'p>,
    pub(crate) since: Moment,
    pub(crate) late: Cutoff<'p>,
    pub(crate) after: Moment,
}

/// The rides from a position that are tried from a label which reaches it, what is known of them, by what they are tried, and the moment
/// past which those that depart lead to nothing that a cheaper label doesn't lead to.
#[derive(Drop)]
pub struct Served<'r, L: Drop> {
    pub(crate) reached: &'r Reached,
    pub(crate) rides: &'r [CaughtRide],
    pub(crate) legs: &'r L,
    pub(crate) limits: Limits<'r>,
    pub(crate) passed: Moment,
}

/// A round with until when rides from each of its labels may arrive, and by what the rides from a position are kept.
#[derive(Clone, Copy)]
pub struct Scan<'s, 'r, F: Copy, M: Copy> {
    pub(crate) round: &'r Round<'s, 'r, F, M>,
    pub(crate) untils: &'r [Until],
    pub(crate) cutoffs: Cutoffs<'r>,
}

/// Whether the ride arrives early enough.
fn arrives_early(caught: &CaughtRide, latest: &Cutoff) -> bool
    ensures { result ≡ is_early (cutoff_of latest.now) caught.now.facts.to.0 caught.now.facts.arrival.0 }
{
    is_early(latest, caught.facts.to, caught.facts.arrival)
}

/// Whether the ride departs after the moment.
fn departs_after(caught: &CaughtRide, since: Moment) -> bool
    ensures { result ≡ true → since.0 <ℤ caught.now.facts.departure.0 }
{
    since.0 < caught.facts.departure.0
}

/// Whether it arrives after it.
fn arrives_after(caught: &CaughtRide, after: Moment) -> bool
    ensures { result ≡ true → after.0 <ℤ caught.now.facts.arrival.0 }
{
    after.0 < caught.facts.arrival.0
}

impl<'s, 'l, T: Tariff> Search<'s, 'l, T> {
    /// By what rides are tried from the label, until when they may arrive.
    fn limits(
        &self,
        round: &Round<'s, '_, T::Fare, T::Move>,
        label: &Label<T::Fare, T::Move>,
        until: Until,
    ) -> Limits<'l>
        requires round { IsRound (task_of T.Fare.at_most T.terms self.now) round.now }
        requires fit { IsFit (task_of T.Fare.at_most T.terms self.now) label.now }
        requires counts { label.now.rides ≡ round.now.count }
        requires until { AreUntils (task_of T.Fare.at_most T.terms self.now) round.now.finals.now (facts_of label.now) until }
        ensures { AreLimits (task_of T.Fare.at_most T.terms self.now) round.now.finals.now (facts_of label.now) result }
    {
        let more = self.more_behind(round);
        Limits {
            latest: self.cutoffs_by(more, until.all).latest,
            since: until.since,
            late: self.cutoffs_by(more, until.late).latest,
            after: self.cut_after(round.finals, label),
        }
    }

    /// Whether the ride at this place is one to try from the label: one that departs when a cheaper label goes on alike isn't, nor one
    /// that arrives too late, or departs late and arrives too late for that; nor, in a quick search, one that is like another which
    /// departs before it.
    fn is_tried(&self, served: &Served<T::Legs>, place: usize, caught: &CaughtRide) -> bool
        ensures { result ≡ false → IsLeftOut (task_of T.Fare.at_most T.terms self.now) served.now caught.now.facts }
    {
        let limits = &served.limits;
        if departs_after(caught, served.passed) {
            return false;
        }
        if arrives_after(caught, limits.after) {
            return false;
        }
        if !arrives_early(caught, &limits.latest) {
            return false;
        }
        if departs_after(caught, limits.since) {
            if !arrives_early(caught, &limits.late) {
                return false;
            }
        }
        if self.is_quick() {
            let leg = Leg {
                caught,
                place,
                legs: served.legs,
            };
            return !self.tariff.is_repeated(&leg, served.reached.earliest);
        }
        true
    }

    /// Offers what the rides lead to from the label that depart no earlier than it gets to the position.
    fn offer_rides(
        &self,
        store: &mut Store<T::Fare, T::Move>,
        tries: &mut Tries<T::Move, T::Room>,
        round: &Round<'s, '_, T::Fare, T::Move>,
        source: &Source<T::Fare, T::Move>,
        served: &Served<T::Legs>,
    ) -> Result<(), AllocError>
        requires round { IsRound (task_of T.Fare.at_most T.terms self.now) round.now }
        requires source { IsSource (task_of T.Fare.at_most T.terms self.now) source.now }
        requires knows { T.Knows self.now.tariff served.now.legs.now }
        requires served { IsServed (task_of T.Fare.at_most T.terms self.now) (T.IsKnown self.now.tariff served.now.legs.now) round.now source.now served.now (in_bags store.old.bags) }
        requires stops { AreForStops self.now.feed store.old.bags }
        ensures each { OnOk result (SpreadsFrom (task_of T.Fare.at_most T.terms self.now) round.now.finals.now source.now (StepsByFirst (task_of T.Fare.at_most T.terms self.now) (facts_of source.now.label.now) served.now.rides.now (length served.now.rides.now)) (in_bags store.old.bags) (in_bags store.new.bags)) }
        ensures all { OnOk result (SpreadsFrom (task_of T.Fare.at_most T.terms self.now) round.now.finals.now source.now (StepsAt (task_of T.Fare.at_most T.terms self.now) round.now.positions.now (facts_of source.now.label.now) served.now.reached.now) (in_bags store.old.bags) (in_bags store.new.bags)) }
        ensures stops { OnOk result (StayForStops store.old.bags store.new.bags) }
    {
        let _limit = self.limit();
        let _feed = self.feed();
        let rides = served.rides;
        for place in 0..rides.len() {
            let caught = &rides[place];
            if departs_since(caught, served.reached) {
                if self.is_tried(served, place, caught) {
                    let leg = Leg {
                        caught,
                        place,
                        legs: served.legs,
                    };
                    self.offer_ride(store, tries, round.finals, source, &leg)?;
                }
            }
        }
        Ok(())
    }

    /// Offers what one more ride from the position leads to, from the label that reaches it. Kept are then the rides from there that
    /// arrive early enough by the cutoffs of the scan.
    fn offer_from(
        &self,
        store: &mut Store<T::Fare, T::Move>,
        tries: &mut Tries<T::Move, T::Room>,
        scan: &Scan<'s, '_, T::Fare, T::Move>,
        reached: &Reached,
        kept: &mut Kept<T::Legs>,
    ) -> Result<(), AllocError>
        requires place { IsPlace (task_of T.Fare.at_most T.terms self.now) scan.now reached.now }
        requires knows { T.Knows self.now.tariff kept.old.legs }
        requires kept { IsKept (task_of T.Fare.at_most T.terms self.now) (T.IsKnown self.now.tariff kept.old.legs) scan.now kept.old (in_bags store.old.bags) }
        requires stops { AreForStops self.now.feed store.old.bags }
        ensures knows { OnOk result (T.Knows self.now.tariff kept.new.legs) }
        ensures kept { OnOk result (IsKept (task_of T.Fare.at_most T.terms self.now) (T.IsKnown self.now.tariff kept.new.legs) scan.now kept.new (in_bags store.new.bags)) }
        ensures spreads { OnOk result (SpreadsIn (task_of T.Fare.at_most T.terms self.now) scan.now.round.now (StepsFromPosition (task_of T.Fare.at_most T.terms self.now) scan.now.round.now reached.now) (in_bags store.old.bags) (in_bags store.new.bags)) }
        ensures stops { OnOk result (StayForStops store.old.bags store.new.bags) }
    {
        let _limit = self.limit();
        let _feed = self.feed();
        let round = scan.round;
        self.keep(round, reached, &scan.cutoffs, kept)?;
        let label = &round.labels[reached.number as usize];
        let source = Source {
            labels: round.labels,
            number: reached.number,
            label,
        };
        let own = self.settled_label(label, &kept.legs, reached);
        let until = scan.untils[reached.number as usize - round.begin];
        let served = Served {
            reached,
            rides: kept.rides.rides(),
            legs: &kept.legs,
            limits: self.limits(round, label, until),
            passed: kept.settled.passed(own, self.last_end()),
        };
        self.offer_rides(store, tries, round, &source, &served)?;
        kept.settled.add(own)
    }

    /// Offers what one more ride from these positions leads to from the labels that reach them, position by position.
    fn offer_marked(
        &self,
        store: &mut Store<T::Fare, T::Move>,
        tries: &mut Tries<T::Move, T::Room>,
        scan: &Scan<'s, '_, T::Fare, T::Move>,
        reached: &[Reached],
        kept: &mut Kept<T::Legs>,
    ) -> Result<(), AllocError>
        requires places { All (IsPlace (task_of T.Fare.at_most T.terms self.now) scan.now) reached.now }
        requires knows { T.Knows self.now.tariff kept.old.legs }
        requires kept { IsKept (task_of T.Fare.at_most T.terms self.now) (T.IsKnown self.now.tariff kept.old.legs) scan.now kept.old (in_bags store.old.bags) }
        requires stops { AreForStops self.now.feed store.old.bags }
        ensures knows { OnOk result (T.Knows self.now.tariff kept.new.legs) }
        ensures spreads { OnOk result (SpreadsIn (task_of T.Fare.at_most T.terms self.now) scan.now.round.now (StepsAmong (task_of T.Fare.at_most T.terms self.now) scan.now.round.now reached.now) (in_bags store.old.bags) (in_bags store.new.bags)) }
        ensures stops { OnOk result (StayForStops store.old.bags store.new.bags) }
    {
        for k in 0..reached.len() {
            self.offer_from(store, tries, scan, &reached[k], kept)?;
        }
        Ok(())
    }

    /// Offers what one more ride leads to from the labels of the round, position by position. What the room holds is lost, but for what
    /// is known of rides.
    pub(crate) fn offer_round(
        &self,
        store: &mut Store<T::Fare, T::Move>,
        round: &Round<'s, '_, T::Fare, T::Move>,
        room: &mut Room<T::Move, T::Legs, T::Room>,
    ) -> Result<(), AllocError>
        requires round { IsRound (task_of T.Fare.at_most T.terms self.now) round.now }
        requires knows { T.Knows self.now.tariff room.old.kept.legs }
        requires stops { AreForStops self.now.feed store.old.bags }
        ensures knows { OnOk result (T.Knows self.now.tariff room.new.kept.legs) }
        ensures spreads { OnOk result (SpreadsIn (task_of T.Fare.at_most T.terms self.now) round.now (StepsFrom (search_of (task_of T.Fare.at_most T.terms self.now)) round.now.labels.now round.now.count) (in_bags store.old.bags) (in_bags store.new.bags)) }
        ensures stops { OnOk result (StayForStops store.old.bags store.new.bags) }
    {
        let _limit = self.limit();
        self.mark(round, &mut room.marks)?;
        let scan = Scan {
            round,
            untils: &room.marks.untils,
            cutoffs: self.cutoffs_by(self.more_behind(round), room.marks.last),
        };
        room.kept.clear();
        self.offer_marked(
            store,
            &mut room.tries,
            &scan,
            &room.marks.reached,
            &mut room.kept,
        )
    }
}
