//! The search: each round goes on by one more ride from the labels of the round before.
ghost use Rattle.std.specs.Prelude.{◌≡◌, ◌+◌, ◌<◌, ◌≤◌, ◌^◌, ◌++◌, [], length, IfOk, IsTrue, OnOk, slice_get, Some, true};
ghost use Rattle.feed_rows.specs.Journeys.{stands_for};
ghost use Rattle.feed_rows.specs.Limits.{most_rides};
ghost use Rattle.feed_rows.specs.SoundFeed.{IsSoundFeed};
ghost use Rattle.feed_rows.specs.StopLinks.{stop_set};
ghost use Rattle.feed_timetable.specs.Standings.{stand_of};
ghost use Rattle.label_bag.specs.Bags.{AreApart};
ghost use Rattle.plan_rides.specs.InTime.{IsRight, IsUsualQuery};
ghost use Rattle.search_laws.specs.Stores.{AreStored, AreWhole, Spreads, StepsFrom};
ghost use Rattle.round_search.specs.Bags.{AreForStops, StayForStops, gathered, in_bags};
ghost use Rattle.round_search.specs.Cuts.{Lacks};
ghost use Rattle.plan_rides.specs.Spans.{AreSpans, no_spans};
ghost use Rattle.round_search.specs.Offers.{IsKnownLeg};
ghost use Rattle.round_search.specs.Finals.{AddsEnds, EndsBelow, EndsIn, HasEnds};
ghost use Rattle.round_terms.specs.Labels.{covers, facts_of};
ghost use Rattle.round_search.specs.Searches.{AreEnding, AreLast, IsGathered, IsNever, IsSearched, IsEnding, IsSource, SpreadsFrom, StepsBy, StepsTo, search_of};
ghost use Rattle.round_terms.specs.Tasks.{HasLaws, IsAim, asked_by, task_of};
ghost use Rattle.round_terms.specs.Terms.{facts_after};
ghost use Rattle.round_terms.specs.Steps.{IsEnd, stand_of_facts, start_facts, ways};

use crate::bags::StopBags;
use crate::room::{Room, Store, Tries};
use crate::scan::Round;
use crate::seen::Seen;
use feed_rows::{Feed, Query, Triple};
use feed_timetable::Standing;
use label_order::LabelOrder;
use pareto_front::Front;
use plan_rides::{CaughtRide, Rides, Spans};
use round_terms::{Aim, Final, Label, Leg, Tariff};
use std::alloc::{AllocError, Global};
use std::marker::Model;
use transit_base::StopId;

/// A query over a timetable, and what its search asks of fares. Contracts see the tariff, the feed, the query and the aim.
#[derive(Drop)]
pub struct Search<'s, 'l, T: Tariff> {
    pub(crate) alloc: Global,
    rides: &'l Rides<'s>,
    pub(crate) tariff: &'l T,
    /// The least seconds to a journey's end; none where the search is to be whole.
    pub(crate) spans: &'l Spans,
    pub(crate) aim: Aim<'l>,
}

impl<'s, 'l, T: Tariff> Model for Search<'s, 'l, T> {
    ghost use Rattle.std.specs.Prelude.{◌≡◌, true};
    ghost use Rattle.plan_rides.specs.Spans.{AreSpans, no_spans};
    ghost use Rattle.round_terms.specs.Tasks.{Asked, IsAim, asked_by};

    ghost Value = { Asked T };

    ghost view = { λ s. asked_by s.tariff.now s.rides.now s.aim };

    ghost invariant = { λ s. IsAim s.aim × T.Serves (asked_by s.tariff.now s.rides.now s.aim) × AreSpans s.rides.now.feed s.rides.now.query s.spans.now × (s.aim.whole ≡ true → s.spans.now ≡ no_spans) };
}

/// A label with its number among those so far, from which a round goes on.
#[derive(Clone, Copy)]
pub struct Source<'l, F: Copy, M: Copy> {
    pub(crate) labels: &'l [Label<F, M>],
    pub(crate) number: u32,
    pub(crate) label: &'l Label<F, M>,
}

/// The labels of the rounds so far, the number from which on they are those of the last, and the best that they end in.
#[derive(Drop)]
pub struct Found<F: LabelOrder + Copy, M: Copy> {
    pub(crate) labels: Vec<Label<F, M>>,
    pub(crate) begin: usize,
    pub(crate) front: Front<Final>,
}

/// Where one stands.
pub(crate) fn standing<F: Copy, M: Copy>(label: &Label<F, M>) -> Standing
    ensures { stand_of result ≡ stand_of_facts (facts_of label.now) }
{
    Standing {
        stop: label.stop,
        at: label.arrival,
        fresh: label.rides == 0,
    }
}

impl<'s, 'l, T: Tariff> Search<'s, 'l, T> {
    /// The search by these; one that is to be whole needs no spans.
    pub fn of(
        alloc: Global,
        rides: &'l Rides<'s>,
        tariff: &'l T,
        spans: &'l Spans,
        aim: Aim<'l>,
    ) -> Self
        requires serves { T.Serves (asked_by tariff.now rides.now aim) }
        requires aim { IsAim aim }
        requires spans { AreSpans rides.now.feed rides.now.query spans.now }
        requires none { aim.whole ≡ true → spans.now ≡ no_spans }
        ensures { result ≡ asked_by tariff.now rides.now aim.entry }
    {
        Search {
            alloc,
            rides,
            tariff,
            spans,
            aim,
        }
    }

    /// The query.
    pub(crate) fn query(&self) -> &'s Query
        ensures is { result.now ≡ self.now.query }
        ensures usual { IsUsualQuery self.now.query }
    {
        self.rides.query()
    }

    /// The greatest number of rides.
    pub(crate) fn limit(&self) -> u8
        ensures is { result ≡ self.now.query.rides }
        ensures usual { IsUsualQuery self.now.query }
        ensures laws { HasLaws (task_of T.Fare.at_most T.terms self.now) }
    {
        self.rides.query().rides
    }

    /// Whether the search may pass over any journey, and passes over what fares it has to an arrival.
    pub(crate) fn is_quick(&self) -> bool
        ensures { result ≡ true → self.now.loose ≡ true }
    {
        self.aim.loose && self.aim.horizon.is_none()
    }

    /// Nothing that a search has seen yet: at no stop, where it isn't a quick one.
    fn none_seen(&self) -> Result<Seen, AllocError> {
        if self.is_quick() {
            Seen::none(self.alloc, self.feed().stops.items().len())
        } else {
            Seen::none(self.alloc, 0)
        }
    }

    /// The feed.
    pub(crate) fn feed(&self) -> &Feed
        ensures value { result.now ≡ self.now.feed }
        ensures sound { IsSoundFeed self.now.feed }
    {
        let _positions = self.rides.positions();
        self.rides.timetable().feed()
    }

    /// The stops at which journeys begin.
    fn firsts(&self) -> &[StopId]
        ensures { result.now ≡ stop_set self.now.feed self.now.query.from }
    {
        self.rides.timetable().members(self.rides.query().from)
    }

    /// The stops at which journeys end.
    fn lasts(&self) -> &[StopId]
        ensures { result.now ≡ stop_set self.now.feed self.now.query.to }
    {
        self.rides.timetable().members(self.rides.query().to)
    }

    /// Offers the label without rides at a first stop.
    fn offer_start(
        &self,
        first: StopId,
        bags: &mut StopBags<T::Fare, T::Move>,
    ) -> Result<(), AllocError>
        requires first { IsTrue (stands_for self.now.feed self.now.query.from first) }
        requires stops { AreForStops self.now.feed bags.old }
        ensures spreads { OnOk result (Spreads (search_of (task_of T.Fare.at_most T.terms self.now)) IsNever [] 0 (λ b. b ≡ start_facts (T.terms self.now.tariff) self.now.query first) (in_bags bags.old) (in_bags bags.new)) }
        ensures stops { StayForStops bags.old bags.new }
    {
        let _limit = self.limit();
        bags.offer(&Label {
            stop: first,
            arrival: self.rides.query().departure,
            rides: 0,
            fare: self.tariff.begin(),
            parent: None,
            ride: None,
            taken: None,
        })
    }

    /// Offers the labels without rides.
    fn offer_starts(&self, bags: &mut StopBags<T::Fare, T::Move>) -> Result<(), AllocError>
        requires { AreForStops self.now.feed bags.old }
        ensures spreads { OnOk result (Spreads (search_of (task_of T.Fare.at_most T.terms self.now)) IsNever [] 0 ((ways (task_of T.Fare.at_most T.terms self.now)).Starts) (in_bags bags.old) (in_bags bags.new)) }
        ensures stops { OnOk result (StayForStops bags.old bags.new) }
    {
        let _limit = self.limit();
        let firsts = self.firsts();
        for k in 0..firsts.len() {
            self.offer_start(firsts[k], bags)?;
        }
        Ok(())
    }

    /// Whether a quick search passes over the label, since it has come to its stop as early and as cheaply, in whatever state of fares.
    /// Another one passes over none.
    fn passes_over(
        &self,
        seen: &mut Seen,
        label: &Label<T::Fare, T::Move>,
    ) -> Result<bool, AllocError>
        requires fare { (T.terms self.now.tariff).IsFare label.now.rides label.now.fare }
        requires few { label.now.rides ≤ most_rides }
        ensures { IfOk result (λ passed. passed ≡ true → self.now.loose ≡ true) }
    {
        if !self.is_quick() {
            return Ok(false);
        }
        let price = self.tariff.price(label);
        let admitted = seen.admits(label.stop, label.arrival, price)?;
        Ok(!admitted)
    }

    /// Offers what the ride leads to from the label by the move.
    fn offer_move(
        &self,
        store: &mut Store<T::Fare, T::Move>,
        finals: &[Final],
        source: &Source<T::Fare, T::Move>,
        caught: &CaughtRide,
        taken: &T::Move,
    ) -> Result<(), AllocError>
        requires source { IsSource (task_of T.Fare.at_most T.terms self.now) source.now }
        requires right { IsRight self.now.feed self.now.query (stand_of_facts (facts_of source.now.label.now)) caught.now }
        requires ended { HasEnds (task_of T.Fare.at_most T.terms self.now) source.now.labels.now finals.now }
        requires pays { (T.terms self.now.tariff).Pays (facts_of source.now.label.now) caught.now.facts taken.now }
        requires stops { AreForStops self.now.feed store.old.bags }
        ensures spreads { OnOk result (SpreadsFrom (task_of T.Fare.at_most T.terms self.now) finals.now source.now (λ b. b ≡ facts_after (T.terms self.now.tariff) (facts_of source.now.label.now) caught.now.facts taken.now) (in_bags store.old.bags) (in_bags store.new.bags)) }
        ensures stops { OnOk result (StayForStops store.old.bags store.new.bags) }
    {
        let _limit = self.limit();
        let _feed = self.feed();
        let label = source.label;
        let next = Label {
            stop: caught.facts.to,
            arrival: caught.facts.arrival,
            rides: label.rides + 1,
            fare: self.tariff.after(label, caught, taken),
            parent: Some(source.number),
            ride: Some(caught.ride),
            taken: Some(*taken),
        };
        if self.is_useless(finals, &next) {
            return Ok(());
        }
        if self.is_cut(finals, &next) {
            return Ok(());
        }
        let passed = self.passes_over(&mut store.seen, &next)?;
        if passed {
            return Ok(());
        }
        store.bags.offer(&next)
    }

    /// Offers what the ride leads to from the label. The moves that were tried before are lost.
    pub(crate) fn offer_ride(
        &self,
        store: &mut Store<T::Fare, T::Move>,
        tries: &mut Tries<T::Move, T::Room>,
        finals: &[Final],
        source: &Source<T::Fare, T::Move>,
        leg: &Leg<'_, T::Legs>,
    ) -> Result<(), AllocError>
        requires source { IsSource (task_of T.Fare.at_most T.terms self.now) source.now }
        requires right { IsRight self.now.feed self.now.query (stand_of_facts (facts_of source.now.label.now)) leg.now.caught.now }
        requires ended { HasEnds (task_of T.Fare.at_most T.terms self.now) source.now.labels.now finals.now }
        requires known { IsKnownLeg (T.Knows self.now.tariff) (T.IsKnown self.now.tariff) leg.now }
        requires stops { AreForStops self.now.feed store.old.bags }
        ensures spreads { OnOk result (SpreadsFrom (task_of T.Fare.at_most T.terms self.now) finals.now source.now (StepsBy (task_of T.Fare.at_most T.terms self.now) (facts_of source.now.label.now) leg.now.caught.now.ride) (in_bags store.old.bags) (in_bags store.new.bags)) }
        ensures stops { OnOk result (StayForStops store.old.bags store.new.bags) }
    {
        let _limit = self.limit();
        let _feed = self.feed();
        self.tariff
            .moves_into(source.label, leg, &mut tries.room, &mut tries.moves)?;
        for k in 0..tries.moves.len() {
            self.offer_move(store, finals, source, leg.caught, &tries.moves[k])?;
        }
        Ok(())
    }

    /// Offers what one more ride leads to from the labels of the last round, which have so many. What the room holds is lost, but for
    /// what is known of rides.
    fn spread(
        &self,
        store: &mut Store<T::Fare, T::Move>,
        found: &Found<T::Fare, T::Move>,
        count: u8,
        room: &mut Room<T::Move, T::Legs, T::Room>,
    ) -> Result<(), AllocError>
        requires few { count < self.now.query.rides }
        requires gathered { IsGathered (task_of T.Fare.at_most T.terms self.now) count found.now (in_bags store.old.bags) }
        requires knows { T.Knows self.now.tariff room.old.kept.legs }
        requires stops { AreForStops self.now.feed store.old.bags }
        ensures knows { OnOk result (T.Knows self.now.tariff room.new.kept.legs) }
        ensures spreads { OnOk result (Spreads (search_of (task_of T.Fare.at_most T.terms self.now)) (Lacks (task_of T.Fare.at_most T.terms self.now) found.now.front) found.now.labels.items (count + 1) (StepsFrom (search_of (task_of T.Fare.at_most T.terms self.now)) found.now.labels.items count) (in_bags store.old.bags) (in_bags store.new.bags)) }
        ensures stops { OnOk result (StayForStops store.old.bags store.new.bags) }
    {
        let _limit = self.limit();
        let round = Round {
            positions: self.rides.positions(),
            labels: &found.labels,
            finals: found.front.items(),
            begin: found.begin,
            count,
        };
        self.offer_round(store, &round, room)
    }

    /// Offers what the label ends in at this stop, which is one of the destination's.
    fn offer_end(
        &self,
        source: &Source<T::Fare, T::Move>,
        last: StopId,
        front: &mut Front<Final>,
    ) -> Result<(), AllocError>
        requires source { IsEnding (task_of T.Fare.at_most T.terms self.now) source.now }
        requires ends { IsTrue (stands_for self.now.feed self.now.query.to last) }
        ensures { OnOk result (AddsEnds (task_of T.Fare.at_most T.terms self.now) source.now.labels.now (IsEnd (task_of T.Fare.at_most T.terms self.now) (facts_of source.now.label.now) last) front.old front.new) }
    {
        let Some(arrival) = self.rides.arrival_in_time(standing(source.label), last) else {
            return Ok(());
        };
        front.offer(Final {
            triple: Triple {
                arrival,
                rides: source.label.rides,
                price: self.tariff.price(source.label),
            },
            label: source.number,
            last,
        })
    }

    /// Offers what the label ends in.
    fn offer_ends(
        &self,
        source: &Source<T::Fare, T::Move>,
        front: &mut Front<Final>,
    ) -> Result<(), AllocError>
        requires { IsEnding (task_of T.Fare.at_most T.terms self.now) source.now }
        ensures { OnOk result (AddsEnds (task_of T.Fare.at_most T.terms self.now) source.now.labels.now (EndsIn (task_of T.Fare.at_most T.terms self.now) source.now.label.now) front.old front.new) }
    {
        let lasts = self.lasts();
        for k in 0..lasts.len() {
            self.offer_end(source, lasts[k], front)?;
        }
        Ok(())
    }

    /// Adds what the labels from the number on end in, where what those before it end in is there.
    fn add_ends(
        &self,
        labels: &[Label<T::Fare, T::Move>],
        begin: usize,
        front: &mut Front<Final>,
    ) -> Result<(), AllocError>
        requires ending { AreEnding (task_of T.Fare.at_most T.terms self.now) labels.now }
        requires numbers { length labels.now < 2 ^ 32 }
        requires before { AddsEnds (task_of T.Fare.at_most T.terms self.now) labels.now (EndsBelow (task_of T.Fare.at_most T.terms self.now) labels.now begin) [] front.old }
        ensures { OnOk result (AddsEnds (task_of T.Fare.at_most T.terms self.now) labels.now (EndsBelow (task_of T.Fare.at_most T.terms self.now) labels.now (length labels.now)) [] front.new) }
    {
        for number in begin..labels.len() {
            let source = Source {
                labels,
                number: number as u32,
                label: &labels[number],
            };
            self.offer_ends(&source, front)?;
        }
        Ok(())
    }

    /// Adds the labels that have so many rides, and what they end in.
    ///
    /// # Errors
    /// Want of memory; so counts that there would be 2^32 labels or more.
    fn gather(
        &self,
        rides: u8,
        bags: &StopBags<T::Fare, T::Move>,
        found: &mut Found<T::Fare, T::Move>,
    ) -> Result<(), AllocError>
        requires ending { AreEnding (task_of T.Fare.at_most T.terms self.now) (found.old.labels.items ++ gathered rides (in_bags bags.now)) }
        requires ended { AddsEnds (task_of T.Fare.at_most T.terms self.now) found.old.labels.items (EndsBelow (task_of T.Fare.at_most T.terms self.now) found.old.labels.items (length found.old.labels.items)) [] found.old.front }
        ensures value { OnOk result (found.new.labels.items ≡ found.old.labels.items ++ gathered rides (in_bags bags.now)) }
        ensures begin { OnOk result (found.new.begin ≡ length found.old.labels.items) }
        ensures numbers { OnOk result (length found.new.labels.items < 2 ^ 32) }
        ensures ended { OnOk result (AddsEnds (task_of T.Fare.at_most T.terms self.now) found.new.labels.items (EndsBelow (task_of T.Fare.at_most T.terms self.now) found.new.labels.items (length found.new.labels.items)) [] found.new.front) }
        ensures apart { AreApart (covers T.Fare.at_most) (in_bags bags.now) }
    {
        found.begin = found.labels.len();
        bags.gather(rides, &mut found.labels)?;
        if found.labels.len() >= 1 << 32 {
            return Err(AllocError);
        }
        self.add_ends(&found.labels, found.begin, &mut found.front)
    }

    /// Goes on by one more ride a round, from the labels without rides.
    fn spread_all(
        &self,
        store: &mut Store<T::Fare, T::Move>,
        found: &mut Found<T::Fare, T::Move>,
        room: &mut Room<T::Move, T::Legs, T::Room>,
    ) -> Result<(), AllocError>
        requires start { IsGathered (task_of T.Fare.at_most T.terms self.now) 0 found.old (in_bags store.old.bags) }
        requires knows { T.Knows self.now.tariff room.old.kept.legs }
        requires stops { AreForStops self.now.feed store.old.bags }
        ensures knows { OnOk result (T.Knows self.now.tariff room.new.kept.legs) }
        ensures searched { OnOk result (IsSearched (task_of T.Fare.at_most T.terms self.now) found.new.labels.items found.new.front) }
    {
        let _limit = self.limit();
        let _feed = self.feed();
        for count in 0..self.limit() {
            self.spread(store, found, count, room)?;
            self.gather(count + 1, &store.bags, found)?;
        }
        Ok(())
    }

    /// The labels of all rounds, and the best that they end in.
    ///
    /// # Errors
    /// Want of memory; so counts that there would be 2^32 labels or more.
    pub fn labels(
        &self,
        room: &mut Room<T::Move, T::Legs, T::Room>,
    ) -> Result<(Vec<Label<T::Fare, T::Move>>, Front<Final>), AllocError>
        requires { T.Knows self.now.tariff room.old.kept.legs }
        ensures knows { OnOk result (T.Knows self.now.tariff room.new.kept.legs) }
        ensures searched { IfOk result (λ all. IsSearched (task_of T.Fare.at_most T.terms self.now) all.0.items all.1) }
    {
        let _limit = self.limit();
        let mut store = Store {
            bags: StopBags::empty(self.alloc, self.feed().stops.items().len())?,
            seen: self.none_seen()?,
        };
        self.offer_starts(&mut store.bags)?;
        let mut found = Found {
            labels: Vec::new(self.alloc),
            begin: 0,
            front: Front::empty(self.alloc),
        };
        self.gather(0, &store.bags, &mut found)?;
        self.spread_all(&mut store, &mut found, room)?;
        let Found {
            labels,
            begin: _,
            front,
        } = found;
        Ok((labels, front))
    }
}
