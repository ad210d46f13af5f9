//! The answer of a price.
ghost use Rattle.std.specs.Prelude.{◌≤◌, length, IfOk};
ghost use Rattle.feed_rows.specs.Limits.{most_rides};
ghost use Rattle.commands.specs.PriceQueries.{price_query_of};
ghost use Rattle.command_answers.specs.Due.{Task, task_by, ArePriceLines};
ghost use Rattle.command_answers.specs.Outcomes.{IsOutcome};
ghost use Rattle.command_answers.specs.NamedRides.{AreKnown, rides_of};
ghost use Rattle.plan_words.specs.Request.{price_request};
ghost use Rattle.plan_words.specs.Rides.{AreUsualRides};

use crate::outcome::{Outcome, answered, refused};
use crate::refusal::Refusal;
use crate::ride_prices::{PriceQuery, price_of, price_query_of};
use feed_timetable::Timetable;
use plan_words::{PriceWords, WordsError};
use std::alloc::{AllocError, Global};
use ticket_explain::{Text, price_lines_of, uncovered_lines_of};

// The lines of the least price of the rides.
fn price_text(alloc: Global, timetable: &Timetable, query: &PriceQuery) -> Result<Text, AllocError>
    requires known { AreKnown timetable.now query.now.rides.items }
    requires few { length query.now.rides.items ≤ most_rides }
    ensures { IfOk result (ArePriceLines timetable.now (rides_of query.now.rides.items) query.now.buyer) }
{
    let Some(priced) = price_of(alloc, timetable, query)? else {
        return uncovered_lines_of(alloc);
    };
    let feed = timetable.feed();
    price_lines_of(alloc, feed, query.rides.len(), &priced.choice, priced.sum)
}

/// What the price of rides answers, over the timetable of the feed.
///
/// # Errors
/// Want of memory.
pub fn price_outcome(
    alloc: Global,
    timetable: &Timetable,
    words: &PriceWords,
) -> Result<Outcome, AllocError>
    requires usual { AreUsualRides words.now.rides }
    ensures { IfOk result (IsOutcome (task_by (Task.Prices timetable.now) (price_query_of timetable.now (price_request words.now)))) }
{
    match price_query_of(alloc, timetable, words) {
        Ok(query) => {
            let text = price_text(alloc, timetable, &query)?;
            Ok(answered(text))
        }
        Err(WordsError::Usage(fault)) => refused(alloc, Refusal::Usage(fault)),
        Err(WordsError::NoMemory) => Err(AllocError),
    }
}
