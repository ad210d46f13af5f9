//! What a search for an answer needn't look at: rides that arrive too late, and labels that end no better than what is found.
ghost use Rattle.std.specs.Prelude.{◌≡◌, ◌⊎◌, ◌+◌, ◌<◌, ◌≤◌, ◌==◌, ◌≤ℤ◌, None, Some, false, true, slice_get};
ghost use Rattle.std.specs.List.{list_any};
ghost use Rattle.feed_rows.specs.Limits.{most_rides};
ghost use Rattle.feed_rows.specs.declared.fares.Triple.{Triple};
ghost use Rattle.plan_rides.specs.InTime.{IsUsualQuery, deadline};
ghost use Rattle.plan_rides.specs.Spans.{stands_of};
ghost use Rattle.search_laws.specs.Ways.{LeadsBy};
ghost use Rattle.round_terms.specs.declared.finals.Final.{Final};
ghost use Rattle.round_terms.specs.Costs.{IsLateIf};
ghost use Rattle.round_search.specs.Bounds.{AreFoundBy, AreUntils, CostBy, IsCutAfter, IsFoundUntil, IsUntil, IsUntilBy};
ghost use Rattle.round_search.specs.Cuts.{Lacks, has_ahead, is_ahead, is_cut, is_within};
ghost use Rattle.round_terms.specs.Labels.{facts_of};
ghost use Rattle.round_search.specs.Searches.{IsFit};
ghost use Rattle.round_terms.specs.Steps.{ways};
ghost use Rattle.round_terms.specs.Tasks.{task_of};

use crate::search::Search;
use feed_rows::Triple;
use plan_rides::deadline;
use round_terms::{Final, Label, LeastPrice, Tariff};
use transit_base::{Moment, Secs, StopId};

/// Whether the triple arrives no later than this moment, with no more rides than so many, and costs no more than this.
pub(crate) fn is_within(triple: &Triple, at: Moment, rides: u8, price: LeastPrice) -> bool
    ensures { result ≡ is_within at.0 rides price.0 triple.now }
{
    triple.arrival.0 <= at.0 && triple.rides <= rides && i128::from(triple.price.0) <= price.0
}

/// Whether one of the finals does.
fn final_ahead(finals: &[Final], at: Moment, rides: u8, price: LeastPrice) -> bool
    ensures { result ≡ is_ahead finals.now at.0 rides price.0 }
{
    finals
        .iter()
        .any(|end| is_within(&end.triple, at, rides, price))
}

/// Whether one of these triples does.
fn given_ahead(given: &[Triple], at: Moment, rides: u8, price: LeastPrice) -> bool
    ensures { result ≡ list_any (λ (triple : Triple). is_within at.0 rides price.0 triple) given.now }
{
    given
        .iter()
        .any(|triple| is_within(triple, at, rides, price))
}

/// The span at the stop; none past the end of the list.
fn span_at(spans: &[Option<Secs>], stop: StopId) -> Option<Option<Secs>>
    ensures { result ≡ slice_get spans.now stop.0 }
{
    match spans.get(stop.0 as usize) {
        Some(span) => Some(*span),
        None => None,
    }
}

/// The earlier of the moment and the triple's arrival, where that has no more rides than so many, and costs no more than this; else
/// the moment.
fn sooner(until: Moment, triple: &Triple, rides: u8, price: LeastPrice) -> Moment
    ensures before { result.0 ≤ℤ until.0 }
    ensures is { (result ≡ until) ⊎ ((result ≡ triple.now.arrival) × (triple.now.rides ≤ rides) × (triple.now.price.0 ≤ℤ price.0)) }
{
    if triple.arrival.0 < until.0
        && triple.rides <= rides
        && i128::from(triple.price.0) <= price.0
    {
        triple.arrival
    } else {
        until
    }
}

/// The earlier of both.
fn earlier(a: Moment, b: Moment) -> Moment
    ensures { result.0 ≤ℤ a.0 }
{
    if b.0 < a.0 { b } else { a }
}

/// The later of both.
pub(crate) fn later(a: Moment, b: Moment) -> Moment
    ensures first { a.0 ≤ℤ result.0 }
    ensures second { b.0 ≤ℤ result.0 }
    ensures is { (result ≡ a) ⊎ (result ≡ b) }
{
    if a.0 < b.0 { b } else { a }
}

/// Until when rides from a label may arrive: until the one moment, and until the other where they depart later than this.
#[derive(Clone, Copy)]
pub struct Until {
    pub(crate) all: Moment,
    pub(crate) since: Moment,
    pub(crate) late: Moment,
}

impl<'s, 'l, T: Tariff> Search<'s, 'l, T> {
    /// The latest moment at which a journey may end.
    pub(crate) fn last_end(&self) -> Moment
        ensures { result.0 ≡ deadline self.now.query }
    {
        deadline(self.query())
    }

    /// When the query departs.
    pub(crate) fn departure(&self) -> Moment
        ensures is { result ≡ self.now.query.departure }
        ensures usual { IsUsualQuery self.now.query }
    {
        self.query().departure
    }

    /// Whether a final, or a triple that is given, arrives no later than this moment, with no more rides than so many, and costs no
    /// more than this.
    fn has_ahead(&self, finals: &[Final], at: Moment, rides: u8, price: LeastPrice) -> bool
        ensures { result ≡ has_ahead (task_of T.Fare.at_most T.terms self.now) finals.now at.0 rides price.0 }
    {
        final_ahead(finals, at, rides, price) || given_ahead(self.aim.given, at, rides, price)
    }

    /// Whether something that is found is as good as whatever the label leads to.
    pub(crate) fn is_cut(&self, finals: &[Final], label: &Label<T::Fare, T::Move>) -> bool
        requires fare { (T.terms self.now.tariff).IsFare label.now.rides label.now.fare }
        requires few { label.now.rides ≤ most_rides }
        ensures { result ≡ is_cut (task_of T.Fare.at_most T.terms self.now) finals.now (facts_of label.now) }
    {
        self.has_ahead(finals, label.arrival, label.rides, self.tariff.least(label))
    }

    /// After when no ride from the label need arrive in a search that is to be whole: the first arrival that is found with no more rides
    /// than one more makes of it and for no more than can follow; else the latest moment at which a journey may end. Another search
    /// goes by `untils`, which tell more.
    pub(crate) fn cut_after(&self, finals: &[Final], label: &Label<T::Fare, T::Move>) -> Moment
        requires few { label.now.rides < self.now.query.rides }
        requires fit { IsFit (task_of T.Fare.at_most T.terms self.now) label.now }
        ensures { IsCutAfter (task_of T.Fare.at_most T.terms self.now) finals.now (facts_of label.now) result.0 }
    {
        let _limit = self.limit();
        let mut after = self.last_end();
        if !self.aim.whole {
            return after;
        }
        let rides = label.rides + 1;
        let price = self.tariff.least(label);
        for k in 0..finals.len() {
            after = sooner(after, &finals[k].triple, rides, price);
        }
        after
    }

    /// How little a journey can cost that goes on from the label by so many rides; none where none can.
    fn least_by(&self, label: &Label<T::Fare, T::Move>, further: u8) -> Option<LeastPrice>
        requires few { label.now.rides + further ≤ self.now.query.rides }
        requires fit { IsFit (task_of T.Fare.at_most T.terms self.now) label.now }
        ensures { CostBy (task_of T.Fare.at_most T.terms self.now) further (facts_of label.now) result }
    {
        let _limit = self.limit();
        let _feed = self.feed();
        if further == 0 {
            return Some(LeastPrice(i128::from(self.tariff.price(label).0)));
        }
        self.tariff.least_on(label, further - 1, false)
    }

    /// Whether the stop is one from which no journey goes on from the label by so many rides.
    fn is_off(&self, label: &Label<T::Fare, T::Move>, further: u8) -> bool
        requires { IsFit (task_of T.Fare.at_most T.terms self.now) label.now }
        ensures { result ≡ true → (triple : Triple) → LeadsBy (ways (task_of T.Fare.at_most T.terms self.now)) further (facts_of label.now) triple → ⊥ }
    {
        if label.rides == 0 {
            return false;
        }
        let _feed = self.feed();
        match span_at(self.spans.stands(usize::from(further)), label.stop) {
            Some(span) => span.is_none(),
            None => false,
        }
    }

    /// The moment, or the first arrival that is found with no more rides than so many and for no more than this, where that is
    /// earlier.
    fn found_by(&self, finals: &[Final], until: Moment, rides: u8, price: LeastPrice) -> Moment
        ensures { IsFoundUntil (task_of T.Fare.at_most T.terms self.now) finals.now rides price.0 until result }
    {
        let mut first = until;
        for k in 0..finals.len() {
            first = sooner(first, &finals[k].triple, rides, price);
        }
        for k in 0..self.aim.given.len() {
            first = sooner(first, &self.aim.given[k], rides, price);
        }
        first
    }

    /// Until when journeys may end that go on from the label by a ride, a late one where that is asked, and so many more: until the first
    /// arrival that is found with no more rides and for no more than they cost.
    fn until_by(
        &self,
        finals: &[Final],
        label: &Label<T::Fare, T::Move>,
        behind: u8,
        late: bool,
    ) -> Moment
        requires few { label.now.rides + behind < self.now.query.rides }
        requires fit { IsFit (task_of T.Fare.at_most T.terms self.now) label.now }
        ensures { IsUntilBy (task_of T.Fare.at_most T.terms self.now) finals.now (IsLateIf (T.terms self.now.tariff) (facts_of label.now) late) behind (facts_of label.now) result.0 }
    {
        let _limit = self.limit();
        let _feed = self.feed();
        let Some(price) = self.tariff.least_on(label, behind, late) else {
            return self.departure();
        };
        if self.is_off(label, behind + 1) {
            return self.departure();
        }
        self.found_by(finals, self.last_end(), label.rides + behind + 1, price)
    }

    /// The moment; in a loose search no later than its horizon.
    fn before_horizon(&self, until: Moment) -> Moment
        ensures before { result.0 ≤ℤ until.0 }
        ensures same { self.now.loose ≡ false → result ≡ until }
    {
        if !self.aim.loose {
            return until;
        }
        match self.aim.horizon {
            Some(last) => earlier(until, last),
            None => until,
        }
    }

    /// Until when rides from the label may arrive, or late ones alone: as late as journeys may end that go on by some number of rides.
    fn until(&self, finals: &[Final], label: &Label<T::Fare, T::Move>, late: bool) -> Moment
        requires few { label.now.rides < self.now.query.rides }
        requires fit { IsFit (task_of T.Fare.at_most T.terms self.now) label.now }
        ensures { IsUntil (task_of T.Fare.at_most T.terms self.now) finals.now (facts_of label.now) (IsLateIf (T.terms self.now.tariff) (facts_of label.now) late) result.0 }
    {
        let _limit = self.limit();
        if self.aim.whole {
            return self.last_end();
        }
        let mut until = self.departure();
        for behind in 0..self.limit() - label.rides {
            let by = self.until_by(finals, label, behind, late);
            until = later(until, by);
        }
        self.before_horizon(until)
    }

    /// Until when rides from the label may arrive.
    pub(crate) fn untils(&self, finals: &[Final], label: &Label<T::Fare, T::Move>) -> Until
        requires few { label.now.rides < self.now.query.rides }
        requires fit { IsFit (task_of T.Fare.at_most T.terms self.now) label.now }
        ensures { AreUntils (task_of T.Fare.at_most T.terms self.now) finals.now (facts_of label.now) result }
    {
        let _limit = self.limit();
        let _feed = self.feed();
        let last = self.last_end();
        let all = self.until(finals, label, false);
        match self.tariff.late_since(label, self.departure(), last) {
            Some(since) => Until {
                all,
                since,
                late: self.until(finals, label, true),
            },
            None => Until {
                all,
                since: last,
                late: all,
            },
        }
    }

    /// Whether all is found that leads on from the label by so many rides: they end no earlier, with no fewer rides and for no less
    /// than something that is found.
    fn are_found(&self, finals: &[Final], label: &Label<T::Fare, T::Move>, further: u8) -> bool
        requires few { label.now.rides + further ≤ self.now.query.rides }
        requires ridden { (label.now.rides == 0) ≡ false }
        requires fit { IsFit (task_of T.Fare.at_most T.terms self.now) label.now }
        ensures { result ≡ true → AreFoundBy (task_of T.Fare.at_most T.terms self.now) finals.now further (facts_of label.now) }
    {
        let _limit = self.limit();
        let _feed = self.feed();
        match span_at(self.spans.stands(usize::from(further)), label.stop) {
            Some(Some(span)) => match self.least_by(label, further) {
                Some(price) => {
                    let at = label.arrival.plus(span);
                    self.has_ahead(finals, at, label.rides + further, price)
                }
                None => true,
            },
            Some(None) => true,
            None => false,
        }
    }

    /// Whether, for a search that needn't be whole, all that the label leads to is found already, by whatever number of rides.
    pub(crate) fn is_useless(&self, finals: &[Final], label: &Label<T::Fare, T::Move>) -> bool
        requires few { label.now.rides ≤ self.now.query.rides }
        requires ridden { (label.now.rides == 0) ≡ false }
        requires fit { IsFit (task_of T.Fare.at_most T.terms self.now) label.now }
        ensures { result ≡ true → Lacks (task_of T.Fare.at_most T.terms self.now) finals.now (facts_of label.now) }
    {
        let _limit = self.limit();
        if self.aim.whole {
            return false;
        }
        for further in 0..self.limit() - label.rides + 1 {
            if !self.are_found(finals, label, further) {
                return false;
            }
        }
        true
    }
}
