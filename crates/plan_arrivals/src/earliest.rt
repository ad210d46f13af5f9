//! The earliest arrivals of a query.
ghost use Rattle.std.specs.Prelude.{IfOk};
ghost use Rattle.feed_rows.specs.Journeys.{asked};
ghost use Rattle.plan_rides.specs.InTime.{IsUsualQuery};
ghost use Rattle.plan_arrivals.specs.Arrivals.{AreArrivals};
ghost use Rattle.plan_arrivals.specs.NoFares.{free_task};
ghost use Rattle.round_search.specs.Searches.{IsSearched};

use crate::no_fares::{NoFare, NoFares, NoLegs, NoMove};
use feed_rows::{Query, Triple};
use feed_timetable::Timetable;
use pareto_front::Front;
use plan_rides::{Rides, Scope, SpanRuns, Spans};
use round_search::{Room, Search};
use round_terms::{Aim, Final, Label};
use std::alloc::{AllocError, Global};

/// The labels of all rounds by these rides, and the best that they end in.
///
/// # Errors
/// Want of memory; so counts that there would be 2^32 labels or more.
pub fn labels_by(
    alloc: Global,
    rides: &Rides,
) -> Result<(Vec<Label<NoFare, NoMove>>, Front<Final>), AllocError>
    ensures { IfOk result (λ all. IsSearched (free_task rides.now.feed rides.now.query) all.0.items all.1) }
{
    let fares = NoFares;
    let spans = Spans::none(alloc);
    let aim = Aim {
        whole: true,
        loose: false,
        given: &[],
        horizon: None,
    };
    let mut room = Room::of(alloc, NoLegs, NoLegs);
    Search::of(alloc, rides, &fares, &spans, aim).labels(&mut room)
}

/// The best that journeys by these rides end in, whatever they cost.
///
/// # Errors
/// Want of memory; so counts that there would be 2^32 labels or more.
fn arrivals_by(alloc: Global, rides: &Rides) -> Result<Vec<Final>, AllocError>
    ensures { IfOk result (λ found. AreArrivals rides.now.feed rides.now.query found.items) }
{
    let _positions = rides.positions();
    let (_labels, front) = labels_by(alloc, rides)?;
    Ok(front.into_items())
}

/// The earliest arrivals of the query's journeys with the fewest rides, in order, whatever they cost: of each journey there is one that
/// arrives no later with no more rides, and none arrives as early with as few rides as another. Prices are 0.
///
/// # Errors
/// Want of memory; so counts that there would be 2^32 labels or more.
pub fn arrivals(
    alloc: Global,
    timetable: &Timetable,
    query: &Query,
) -> Result<Vec<Final>, AllocError>
    requires { IsUsualQuery query.now }
    ensures { IfOk result (λ found. AreArrivals timetable.now query.now found.items) }
{
    match SpanRuns::of(alloc, timetable, &Scope::of(query)) {
        Ok(runs) => arrivals_by(alloc, &Rides::of(&runs, query)),
        Err(AllocError) => Err(AllocError),
    }
}
