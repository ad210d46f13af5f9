//! The exact answer to a query, by rounds.
ghost use Rattle.std.specs.Prelude.{◌≡◌, [], All, IfOk, OnOk, map, false, true};
ghost use Rattle.fare_automaton.specs.Terms.{terms};
ghost use Rattle.feed_rows.specs.FeedRows.{FeedRows};
ghost use Rattle.feed_rows.specs.declared.fares.Entry.{Entry};
ghost use Rattle.feed_rows.specs.declared.journeys.Query.{Query};
ghost use Rattle.feed_rows.specs.JourneyEntries.{CoversOffers, IsEntry, IsExactAnswer};
ghost use Rattle.plan_rides.specs.InTime.{IsUsualQuery};
ghost use Rattle.feed_rows.specs.ClosedTable.{IsClosedTable};
ghost use Rattle.feed_rows.specs.SoundFeed.{IsSoundFeed};
ghost use Rattle.feed_rows.specs.SoundTable.{IsSoundTable};
ghost use Rattle.feed_rows.specs.Journeys.{asked};
ghost use Rattle.plan_rides.specs.Scopes.{IsInScope};
ghost use Rattle.plan_rides.specs.Spans.{AreSpans, no_spans};
ghost use Rattle.round_terms.specs.Tasks.{IsAim};
ghost use Rattle.fare_tariff.specs.FareTerms.{Knows};
ghost use Rattle.plan_rounds.specs.Planned.{AddsEntries, CoversAllBy, IsPlanned};
ghost use Rattle.plan_rounds.specs.Searched.{IsTableOf, aim_of, searched};
ghost use Rattle.round_table.specs.Tables.{CoversAllOffers, table_by};

use fare_automaton::Automaton;
use fare_tariff::{FareLegs, FareRoom, FareTariff, LeastPrices};
use fare_timeframes::Timeframes;
use feed_rows::{Entry, Feed, Move, Query, Triple};
use feed_timetable::Timetable;
use pareto_front::Front;
use plan_rides::{Rides, Scope, SpanRuns, Spans, deadline};
use ride_kinds::LegKinds;
use round_search::{Room, Search};
use round_table::RoundTable;
use round_terms::Aim;
use std::alloc::{AllocError, Global};
use std::marker::Model;
use transit_base::Moment;

/// What the searches of a plan share: the rides of the query, what they cost, and by what rides are passed over; the plan is to be whole,
/// or to matter for the answer alone. Contracts see the feed, the query, and which of the two.
#[derive(Drop)]
struct Plan<'l> {
    alloc: Global,
    rides: &'l Rides<'l>,
    /// The fares for the query's buyer.
    automaton: &'l Automaton<'l>,
    /// The least seconds to a journey's end; none where the plan is to be whole.
    spans: &'l Spans,
    /// How little further rides can cost.
    prices: &'l LeastPrices,
    whole: bool,
}

impl<'l> Model for Plan<'l> {
    ghost use Rattle.std.specs.Prelude.{◌≡◌, true};
    ghost use Rattle.fare_automaton.specs.Terms.{terms};
    ghost use Rattle.fare_tariff.specs.Prices.{AreLeastPrices};
    ghost use Rattle.plan_rides.specs.Spans.{AreSpans, no_spans};
    ghost use Rattle.plan_rounds.specs.Planned.{PlanOf};

    ghost Value = { PlanOf };

    ghost view = { λ s. record { asked = s.rides.now; whole = s.whole } };

    ghost invariant = { λ s. (s.automaton.now ≡ terms s.rides.now.feed s.rides.now.query.buyer) × AreSpans s.rides.now.feed s.rides.now.query s.spans.now × (s.whole ≡ true → s.spans.now ≡ no_spans) × AreLeastPrices s.rides.now.feed s.rides.now.query s.prices.now };
}

/// The least seconds to a journey's end; none for a search that is to be whole: it tries each ride.
///
/// # Errors
/// Want of memory.
fn spans_of(alloc: Global, rides: &Rides, whole: bool) -> Result<Spans, AllocError>
    ensures are { IfOk result (AreSpans rides.now.feed rides.now.query) }
    ensures none { IfOk result (λ spans. whole ≡ true → spans ≡ no_spans) }
{
    if whole {
        return Ok(Spans::none(alloc));
    }
    rides.spans(alloc)
}

/// The triples of entries.
fn triples_of(alloc: Global, entries: &[Entry]) -> Result<Vec<Triple>, AllocError>
    ensures { IfOk result (λ triples. triples.items ≡ map (λ (entry : Entry). entry.triple) entries.now) }
{
    let mut triples = Vec::with_capacity(alloc, entries.len())?;
    for entry in entries {
        triples.push(entry.triple)?;
    }
    Ok(triples)
}

/// Offers entries of a query.
fn offer_entries(front: &mut Front<Entry>, entries: Vec<Entry>) -> Result<(), AllocError>
    ensures { OnOk result (AddsEntries entries.items front.old front.new) }
{
    for entry in entries {
        front.offer(entry)?;
    }
    Ok(())
}

/// The best of entries of a query that two searches found.
fn better_of(alloc: Global, first: Vec<Entry>, second: Vec<Entry>) -> Result<Vec<Entry>, AllocError>
    ensures { (feed : FeedRows) (query : Query) → All (IsEntry feed query) first.items → All (IsEntry feed query) second.items → IfOk result (λ entries. All (IsEntry feed query) entries.items) }
{
    let mut front = Front::empty(alloc);
    offer_entries(&mut front, first)?;
    offer_entries(&mut front, second)?;
    Ok(front.into_items())
}

/// How late to look for what is cheaper than these: a third longer than the last of them takes; none where there are none.
fn horizon_of(departure: Moment, found: &[Triple]) -> Option<Moment> {
    let mut last = found.first()?.arrival;
    for triple in found {
        if last.0 < triple.arrival.0 {
            last = triple.arrival;
        }
    }
    let third = last.0.saturating_sub(departure.0) / 3;
    Some(Moment(last.0.saturating_add(third)))
}

/// How many stop times a small feed has at most.
const SMALL_FEED: usize = 1 << 15;

/// Whether the feed is so small that a second quick search would take as long as the one that looks at all moments.
fn is_small(feed: &Feed) -> bool {
    feed.stop_times.items().len() <= SMALL_FEED
}

impl<'l> Plan<'l> {
    /// The feed.
    fn feed(&self) -> &'l Feed
        ensures value { result.now ≡ self.now.asked.feed }
        ensures sound { IsSoundFeed self.now.asked.feed }
    {
        self.automaton.feed()
    }

    /// The query.
    fn query(&self) -> &'l Query
        ensures is { result.now ≡ self.now.asked.query }
        ensures usual { IsUsualQuery self.now.asked.query }
    {
        self.rides.query()
    }

    /// The table of the search with this aim.
    ///
    /// # Errors
    /// Want of memory; so counts that there would be 2^32 labels or more.
    fn table(
        &self,
        aim: Aim<'_>,
        room: &mut Room<Move, FareLegs<'l>, FareRoom>,
    ) -> Result<RoundTable, AllocError>
        requires aim { IsAim aim }
        requires whole { aim.whole ≡ self.now.whole }
        requires knows { Knows self.now.asked.feed self.now.asked.query.buyer room.old.kept.legs }
        ensures knows { OnOk result (Knows self.now.asked.feed self.now.asked.query.buyer room.new.kept.legs) }
        ensures is { IfOk result (λ table. IsTableOf (searched self.now.asked (aim_of aim.entry)) (table_by table)) }
    {
        let _feed = self.feed();
        let _query = self.query();
        let quick = aim.loose && aim.horizon.is_none();
        let tariff = FareTariff::of(self.rides, self.automaton, self.prices, self.whole, quick);
        let search = Search::of(self.alloc, self.rides, &tariff, self.spans, aim);
        let (labels, front) = search.labels(room)?;
        if labels.len() >= 1 << 32 {
            return Err(AllocError);
        }
        Ok(RoundTable::of(labels, front.into_items()))
    }

    /// Entries of the query that are found soon, by a search that may pass over any journey, beside those with these triples: with a
    /// horizon all that end by then.
    ///
    /// # Errors
    /// Want of memory; so counts that there would be 2^32 labels or more.
    fn found_soon(
        &self,
        given: &[Triple],
        horizon: Option<Moment>,
        room: &mut Room<Move, FareLegs<'l>, FareRoom>,
    ) -> Result<Vec<Entry>, AllocError>
        requires answer { self.now.whole ≡ false }
        requires knows { Knows self.now.asked.feed self.now.asked.query.buyer room.old.kept.legs }
        ensures knows { OnOk result (Knows self.now.asked.feed self.now.asked.query.buyer room.new.kept.legs) }
        ensures are { IfOk result (λ entries. All (IsEntry self.now.asked.feed self.now.asked.query) entries.items) }
    {
        let aim = Aim {
            whole: false,
            loose: true,
            given,
            horizon,
        };
        self.table(aim, room)?.entries(self.alloc)
    }

    /// Entries of the query that are found soon, by searches that may pass over any journey; none for a plan that is to be whole. The
    /// first finds some at once; the second, over a feed that isn't small, what is cheaper and ends little later, so that a cheap
    /// journey is known to the search that looks at all moments.
    ///
    /// # Errors
    /// Want of memory; so counts that there would be 2^32 labels or more.
    fn known(&self, room: &mut Room<Move, FareLegs<'l>, FareRoom>) -> Result<Vec<Entry>, AllocError>
        requires { Knows self.now.asked.feed self.now.asked.query.buyer room.old.kept.legs }
        ensures knows { OnOk result (Knows self.now.asked.feed self.now.asked.query.buyer room.new.kept.legs) }
        ensures are { IfOk result (λ entries. All (IsEntry self.now.asked.feed self.now.asked.query) entries.items) }
        ensures none { IfOk result (λ entries. self.now.whole ≡ true → entries.items ≡ []) }
    {
        if self.whole {
            return Ok(Vec::new(self.alloc));
        }
        let first = self.found_soon(&[], None, room)?;
        let given = triples_of(self.alloc, &first)?;
        let horizon = horizon_of(self.query().departure, &given);
        if horizon.is_none() || is_small(self.feed()) {
            return Ok(first);
        }
        let second = self.found_soon(&given, horizon, room)?;
        better_of(self.alloc, first, second)
    }

    /// The table of the search, of all labels, or of those alone that matter for the answer beside entries that are found soon, with
    /// these.
    ///
    /// # Errors
    /// Want of memory; so counts that there would be 2^32 labels or more.
    fn planned(
        &self,
        room: &mut Room<Move, FareLegs<'l>, FareRoom>,
    ) -> Result<(RoundTable, Vec<Entry>), AllocError>
        requires { Knows self.now.asked.feed self.now.asked.query.buyer room.old.kept.legs }
        ensures { IfOk result (λ planned. IsPlanned self.now.asked self.now.whole planned.0 planned.1.items) }
    {
        let known = self.known(room)?;
        let given = triples_of(self.alloc, &known)?;
        let aim = Aim {
            whole: self.whole,
            loose: false,
            given: &given,
            horizon: None,
        };
        let table = self.table(aim, room)?;
        Ok((table, known))
    }
}

/// The same by the rides, and by what their legs cost.
///
/// # Errors
/// Want of memory; so counts that there would be 2^32 labels or more.
fn planned_at<'l>(
    alloc: Global,
    rides: &'l Rides<'l>,
    automaton: &'l Automaton<'l>,
    whole: bool,
) -> Result<(RoundTable, Vec<Entry>), AllocError>
    requires { automaton.now ≡ terms rides.now.feed rides.now.query.buyer }
    ensures { IfOk result (λ planned. IsPlanned rides.now whole planned.0 planned.1.items) }
{
    let query = rides.query();
    let calendar = rides.timetable().calendar();
    let spans = spans_of(alloc, rides, whole)?;
    let prices = LeastPrices::of(alloc, rides, &spans)?;
    match Timeframes::between(
        alloc,
        automaton.feed(),
        calendar,
        query.departure,
        deadline(query),
    ) {
        Ok(timeframes) => {
            let known = LegKinds::of(alloc, automaton, &timeframes)?;
            let mut room = Room::of(alloc, FareLegs::of(alloc, known), FareRoom::none(alloc));
            let plan = Plan {
                alloc,
                rides,
                automaton,
                spans: &spans,
                prices: &prices,
                whole,
            };
            plan.planned(&mut room)
        }
        Err(AllocError) => Err(AllocError),
    }
}

/// The same by the rides.
fn planned_over<'s>(
    alloc: Global,
    rides: &Rides<'s>,
    feed: &'s Feed,
    whole: bool,
) -> Result<(RoundTable, Vec<Entry>), AllocError>
    requires { feed.now ≡ rides.now.feed }
    ensures { IfOk result (λ planned. IsPlanned rides.now whole planned.0 planned.1.items) }
{
    match Automaton::compile(alloc, feed, rides.query().buyer) {
        Ok(automaton) => planned_at(alloc, rides, &automaton, whole),
        Err(AllocError) => Err(AllocError),
    }
}

/// The same for the query, by the runs that are held for it.
fn planned_by<'s>(
    runs: &'s SpanRuns<'s>,
    query: &'s Query,
    alloc: Global,
    feed: &'s Feed,
    whole: bool,
) -> Result<(RoundTable, Vec<Entry>), AllocError>
    requires usual { IsUsualQuery query.now }
    requires within { IsInScope runs.now.scope query.now }
    requires feed { feed.now ≡ runs.now.feed }
    ensures { IfOk result (λ planned. IsPlanned (asked runs.now.feed query.now) whole planned.0 planned.1.items) }
{
    let rides = Rides::of(runs, query);
    planned_over(alloc, &rides, feed, whole)
}

/// The same for the query.
fn planned_of(
    alloc: Global,
    timetable: &Timetable,
    query: &Query,
    whole: bool,
) -> Result<(RoundTable, Vec<Entry>), AllocError>
    requires { IsUsualQuery query.now }
    ensures { IfOk result (λ planned. IsPlanned (asked timetable.now query.now) whole planned.0 planned.1.items) }
{
    let feed = timetable.feed();
    match SpanRuns::of(alloc, timetable, &Scope::of(query)) {
        Ok(runs) => planned_by(&runs, query, alloc, feed, whole),
        Err(AllocError) => Err(AllocError),
    }
}

/// The labels of a query, round by round: they are real, none is in excess or outdone by a final with fewer rides, they
/// cover all partial journeys of the query but those that a final outdoes, of which all is found that they lead to, and
/// what they end in is the exact answer. That nothing is lacking shows by the table alone: it is closed under rides.
///
/// # Errors
/// Want of memory; so counts that there would be 2^32 labels or more.
pub fn rounds(alloc: Global, timetable: &Timetable, query: &Query) -> Result<RoundTable, AllocError>
    requires usual { IsUsualQuery query.now }
    ensures sound { IfOk result (λ table. IsSoundTable timetable.now query.now (table_by table)) }
    ensures closed { IfOk result (λ table. IsClosedTable timetable.now query.now (table_by table)) }
    ensures offers { IfOk result (λ table. CoversAllOffers timetable.now query.now (table_by table)) }
{
    let (table, _known) = planned_of(alloc, timetable, query, true)?;
    Ok(table)
}

/// The best of two lists of entries.
fn best_of(alloc: Global, known: Vec<Entry>, found: Vec<Entry>) -> Result<Vec<Entry>, AllocError>
    ensures { (feed : FeedRows) (query : Query) → All (IsEntry feed query) known.items → All (IsEntry feed query) found.items → CoversAllBy feed query known.items found.items → IfOk result (λ entries. IsExactAnswer feed query entries.items × CoversOffers feed query entries.items) }
{
    let mut front = Front::empty(alloc);
    offer_entries(&mut front, known)?;
    offer_entries(&mut front, found)?;
    Ok(front.into_items())
}

/// The exact answer to a query, found by rounds: of the labels, those alone are kept that matter for it.
///
/// # Errors
/// Want of memory; so counts that there would be 2^32 labels or more.
pub fn round_entries(
    alloc: Global,
    timetable: &Timetable,
    query: &Query,
) -> Result<Vec<Entry>, AllocError>
    requires usual { IsUsualQuery query.now }
    ensures exact { IfOk result (λ entries. IsExactAnswer timetable.now query.now entries.items) }
    ensures covers { IfOk result (λ entries. CoversOffers timetable.now query.now entries.items) }
{
    let (table, known) = planned_of(alloc, timetable, query, false)?;
    let found = table.entries(alloc)?;
    best_of(alloc, known, found)
}
