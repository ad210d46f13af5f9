// Plans by rounds, by an answer alone and by the table of all labels, beside those of the search that looks at all journeys.
ghost use Rattle.plan_rides.specs.InTime.{IsUsualQuery};

use crate::drawn::{drawn_feed, drawn_query};
use feed_rows::{Entry, Feed, Query, Triple};
use feed_timetable::Timetable;
use pareto_front::are_same_triples;
use plan_arrivals::arrivals;
use plan_plain::plain_entries;
use plan_rounds::{round_entries, rounds};
use round_table::RoundTable;
use round_terms::Final;
use std::alloc::{AllocError, Global};
use transit_base::StopId;

// The triples of the entries.
fn triples(alloc: Global, entries: &[Entry]) -> Result<Vec<Triple>, AllocError> {
    let mut triples = Vec::new(alloc);
    for entry in entries {
        triples.push(entry.triple)?;
    }
    Ok(triples)
}

// How many stops a drawn feed has.
const DRAWN_STOPS: u32 = 8;

// How many labels the bags of all rounds have at the stop.
fn count_at(
    alloc: Global,
    table: &RoundTable,
    stop: StopId,
    limit: u8,
) -> Result<usize, AllocError> {
    let mut count: usize = 0;
    for rides in 0..limit {
        count = count.saturating_add(table.bag(alloc, rides, stop)?.len());
    }
    Ok(count.saturating_add(table.bag(alloc, limit, stop)?.len()))
}

// How many labels the bags of all stops have.
fn count_in_bags(alloc: Global, table: &RoundTable, limit: u8) -> Result<usize, AllocError> {
    let mut count: usize = 0;
    for stop in 0..DRAWN_STOPS {
        count = count.saturating_add(count_at(alloc, table, StopId(stop), limit)?);
    }
    Ok(count)
}

// The triples in which the table of all labels ends; none where its bags don't have each label once.
fn triples_of_table(
    alloc: Global,
    timetable: &Timetable,
    query: &Query,
) -> Result<Vec<Triple>, AllocError>
    requires { IsUsualQuery query.now }
{
    let table = rounds(alloc, timetable, query)?;
    let mut triples = Vec::new(alloc);
    if count_in_bags(alloc, &table, query.rides)? != table.size() {
        return Ok(triples);
    }
    for end in table.finals() {
        triples.push(end.triple)?;
    }
    Ok(triples)
}

// Whether some arrival is no later than the triple's, after no more rides.
fn is_met(found: &[Final], triple: Triple) -> bool {
    for one in found {
        if one.triple.arrival.0 <= triple.arrival.0 && one.triple.rides <= triple.rides {
            return true;
        }
    }
    false
}

// Whether it is so for each of the triples.
fn are_met(found: &[Final], triples: &[Triple]) -> bool {
    for triple in triples {
        if !is_met(found, *triple) {
            return false;
        }
    }
    true
}

// Whether all three find the same, and something, and nothing that arrives earlier than what is found whatever it costs.
fn is_found_by_all(alloc: Global, timetable: &Timetable, query: &Query) -> Result<bool, AllocError>
    requires { IsUsualQuery query.now }
{
    let found = triples(alloc, &round_entries(alloc, timetable, query)?)?;
    let table = triples_of_table(alloc, timetable, query)?;
    let plain = triples(alloc, &plain_entries(alloc, timetable, query)?)?;
    let soonest = arrivals(alloc, timetable, query)?;
    Ok(
        !found.is_empty()
            && are_same_triples(&found, &plain)
            && are_same_triples(&table, &plain)
            && are_met(&soonest, &plain),
    )
}

// The same over a feed.
fn is_found_over(alloc: Global, feed: &Feed, query: &Query) -> Result<bool, AllocError>
    requires { IsUsualQuery query.now }
{
    match Timetable::build(alloc, feed) {
        Ok(timetable) => is_found_by_all(alloc, &timetable, query),
        Err(AllocError) => Err(AllocError),
    }
}

// How many drawn feeds are planned over. More of them are tried by hand: `rt try --test` with 300 here.
const DRAWN_FEEDS: u32 = 100;

// Whether all three find the same over each of them.
fn is_found_over_all(alloc: Global) -> Result<bool, AllocError> {
    for number in 0..DRAWN_FEEDS {
        let feed = drawn_feed(alloc, number + 1)?;
        if !is_found_over(alloc, &feed, &drawn_query(number + 1))? {
            return Ok(false);
        }
    }
    Ok(true)
}

#[test]
fn rounds_beside_the_plain_search(rt: HostRuntime) {
    assert!(rt; is_found_over_all(rt.alloc()) == Ok(true));
}
