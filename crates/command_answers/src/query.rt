//! The query of a plan over a feed.
ghost use Rattle.std.specs.Prelude.{◌≡◌, ◌||◌, IfOk};
ghost use Rattle.feed_rows.specs.StopLinks.{is_platform, is_station};
ghost use Rattle.commands.specs.Queries.{named_stop, query_of};
ghost use Rattle.plan_rides.specs.InTime.{IsUsualQuery};
ghost use Rattle.plan_words.specs.Request.{request_of, IsUsualPlan};

use crate::riders::chosen_buyer;
use commands::{StopWord, UsageFault};
use feed_rows::{Feed, PLATFORM, Query, STATION};
use feed_timetable::Timetable;
use plan_words::PlanWords;
use transit_base::StopId;

// Whether the stop is a platform or a station.
fn is_endpoint(feed: &Feed, stop: StopId) -> bool
    ensures { result ≡ (is_platform feed.now stop || is_station feed.now stop) }
{
    match feed.stops.items().get(stop.0 as usize) {
        Some(row) => row.kind == PLATFORM || row.kind == STATION,
        None => false,
    }
}

// The platform or station that a word names.
fn named_stop(timetable: &Timetable, word: StopWord, id: &str) -> Result<StopId, UsageFault>
    ensures { result ≡ named_stop timetable.now word id.now }
{
    let Some(stop) = timetable.find(id.as_bytes()) else {
        return Err(UsageFault::UnknownStop(word));
    };
    if is_endpoint(timetable.feed(), stop) {
        Ok(stop)
    } else {
        Err(UsageFault::WrongStopKind(word))
    }
}

/// The query of a plan, or the first fault of the names that its words give.
pub fn query_of(timetable: &Timetable, plan: &PlanWords) -> Result<Query, UsageFault>
    requires usual { IsUsualPlan plan.now }
    ensures value { result ≡ query_of timetable.now (request_of plan.now) }
    ensures usual { IfOk result IsUsualQuery }
{
    let from = named_stop(timetable, StopWord::From, plan.from)?;
    let to = named_stop(timetable, StopWord::To, plan.to)?;
    let buyer = chosen_buyer(timetable.feed(), plan.rider)?;
    Ok(Query {
        from,
        to,
        departure: plan.departure,
        rides: plan.rides,
        window: plan.window,
        buyer,
    })
}
