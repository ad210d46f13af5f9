//! What a command answers over a feed.
ghost use Rattle.std.specs.Prelude.{◌≡◌, ℕ, ◌-◌, ◌++◌, ◌∷◌, [], IfOk, OnOk};
ghost use Rattle.commands.specs.CommandTexts.{stats_line};
ghost use Rattle.feed_rows.specs.GeneratedFeed.{stop_name};
ghost use Rattle.commands.specs.GeneratedPlan.{generated_plan};
ghost use Rattle.commands.specs.PriceQueries.{price_query_of};
ghost use Rattle.commands.specs.Queries.{query_of};
ghost use Rattle.command_answers.specs.Due.{Task, task_asked, task_by, task_of, AreGenLines, ArePlanLines, AreTableLines, DoTask};
ghost use Rattle.plan_rides.specs.InTime.{IsUsualQuery};
ghost use Rattle.command_answers.specs.Outcomes.{IsOutcome};
ghost use Rattle.plan_app.specs.Made.{plan_task, planned};
ghost use Rattle.plan_words.specs.Request.{command_request, price_request, question_of, request_of, IsUsualGen, IsUsualPlan, IsUsualQuestion, IsUsualRequest};
ghost use Rattle.plan_words.specs.Rides.{AreUsualRides};

use command_answers::{
    Outcome, Refusal, answered, audit_outcome, check_outcome, price_outcome, query_of, refused,
    stats_line_of,
};
use feed_maker::stop_id;
use feed_rows::{Feed, Query, USUAL_WINDOW};
use feed_timetable::Timetable;
use plan_rounds::{round_entries, rounds};
use plan_words::{CommandWords, GenWords, PlanWords, PriceWords, Question};
use std::alloc::{AllocError, Global};
use ticket_explain::{Text, gen_lines_of, text_of};
use transit_base::{Day, Moment};

// The text of the exact entries of a query.
fn entries_text(alloc: Global, timetable: &Timetable, query: &Query) -> Result<Text, AllocError>
    requires usual { IsUsualQuery query.now }
    ensures { IfOk result (ArePlanLines timetable.now query.now) }
{
    let entries = round_entries(alloc, timetable, query)?;
    text_of(alloc, timetable, &entries)
}

// Puts the size of a table behind a text.
fn push_stats(alloc: Global, text: &mut Text, labels: usize) -> Result<(), AllocError>
    ensures { OnOk result (text.new ≡ text.old ++ stats_line labels ∷ []) }
{
    let line = stats_line_of(alloc, labels)?;
    text.push(line.bytes())
}

// The text of the exact entries of a query, and behind it the size of the table from which they come.
fn table_text(alloc: Global, timetable: &Timetable, query: &Query) -> Result<Text, AllocError>
    requires usual { IsUsualQuery query.now }
    ensures { IfOk result (AreTableLines timetable.now query.now) }
{
    let table = rounds(alloc, timetable, query)?;
    let entries = table.entries(alloc)?;
    let mut text = text_of(alloc, timetable, &entries)?;
    push_stats(alloc, &mut text, table.size())?;
    Ok(text)
}

// The text of the triples of the exact entries of a query.
fn gen_text(alloc: Global, timetable: &Timetable, query: &Query) -> Result<Text, AllocError>
    requires usual { IsUsualQuery query.now }
    ensures { IfOk result (AreGenLines timetable.now query.now) }
{
    let found = round_entries(alloc, timetable, query)?;
    gen_lines_of(alloc, timetable.feed(), &found)
}

// The text of a plan: its triples alone, or its entries, with the size of their table where that is asked for.
fn plan_text(
    alloc: Global,
    timetable: &Timetable,
    query: &Query,
    stats: bool,
    triples: bool,
) -> Result<Text, AllocError>
    requires usual { IsUsualQuery query.now }
    ensures { IfOk result (DoTask (plan_task triples timetable.now stats query.now)) }
{
    if triples {
        gen_text(alloc, timetable, query)
    } else if stats {
        table_text(alloc, timetable, query)
    } else {
        entries_text(alloc, timetable, query)
    }
}

// What a plan answers over a timetable.
fn plan_outcome(
    alloc: Global,
    timetable: &Timetable,
    plan: &PlanWords,
    triples: bool,
) -> Result<Outcome, AllocError>
    requires usual { IsUsualPlan plan.now }
    ensures { IfOk result (IsOutcome (planned triples timetable.now (request_of plan.now))) }
{
    let query = match query_of(timetable, plan) {
        Ok(query) => query,
        Err(fault) => return refused(alloc, Refusal::Usage(fault)),
    };
    let text = plan_text(alloc, timetable, &query, plan.stats, triples)?;
    Ok(answered(text))
}

// The plan over a generated feed: from its first stop to its last, which has this id, on 2025-06-02 at 07:00:00.
fn generated_plan(last: &str) -> PlanWords<'_>
    ensures usual { IsUsualPlan result }
    ensures value { (lines : ℕ) → last.now ≡ stop_name (lines - 1) (lines - 1) → request_of result ≡ generated_plan lines }
{
    PlanWords {
        from: "s_0_0",
        to: last,
        departure: Moment::at(Day(20_241), 25_200),
        rides: 4,
        rider: None,
        window: USUAL_WINDOW,
        stats: false,
    }
}

// What a plan answers over a feed.
fn plan_over(
    alloc: Global,
    feed: &Feed,
    plan: &PlanWords,
    triples: bool,
) -> Result<Outcome, AllocError>
    requires usual { IsUsualPlan plan.now }
    ensures { IfOk result (IsOutcome (planned triples feed.now (request_of plan.now))) }
{
    match Timetable::build(alloc, feed) {
        Ok(timetable) => plan_outcome(alloc, &timetable, plan, triples),
        Err(AllocError) => Err(AllocError),
    }
}

// What the price of rides answers over a feed.
fn price_over(alloc: Global, feed: &Feed, words: &PriceWords) -> Result<Outcome, AllocError>
    requires usual { AreUsualRides words.now.rides }
    ensures { IfOk result (IsOutcome (task_by (Task.Prices feed.now) (price_query_of feed.now (price_request words.now)))) }
{
    match Timetable::build(alloc, feed) {
        Ok(timetable) => price_outcome(alloc, &timetable, words),
        Err(AllocError) => Err(AllocError),
    }
}

// What a generated feed answers: the triples of the plan from its first stop to its last.
fn gen_outcome(alloc: Global, feed: &Feed, words: &GenWords) -> Result<Outcome, AllocError>
    requires usual { IsUsualGen words.now }
    ensures { IfOk result (IsOutcome (task_by (Task.Generates feed.now) (query_of feed.now (generated_plan words.now.lines)))) }
{
    let last = stop_id(alloc, words.lines - 1, words.lines - 1)?;
    plan_over(alloc, feed, &generated_plan(last.as_str()), true)
}

// What is answered about a feed. A check and an audit make no timetable of it.
fn answer_of(alloc: Global, feed: &Feed, question: &Question) -> Result<Outcome, AllocError>
    requires { IsUsualQuestion question.now }
    ensures { IfOk result (IsOutcome (task_asked feed.now (question_of question.now))) }
{
    match question {
        Question::Check => check_outcome(alloc, feed),
        Question::Plan(plan) => plan_over(alloc, feed, plan, false),
        Question::Price(words) => price_over(alloc, feed, words),
        Question::Audit(words) => audit_outcome(alloc, feed, words),
    }
}

/// What a command answers over its feed.
///
/// # Errors
/// Want of memory.
pub(crate) fn outcome_of(
    alloc: Global,
    feed: &Feed,
    command: &CommandWords,
) -> Result<Outcome, AllocError>
    requires { IsUsualRequest command.now }
    ensures { IfOk result (IsOutcome (task_of feed.now (command_request command.now))) }
{
    match command {
        CommandWords::Asks(question) => answer_of(alloc, feed, question),
        CommandWords::Gen(words) => gen_outcome(alloc, feed, words),
    }
}
