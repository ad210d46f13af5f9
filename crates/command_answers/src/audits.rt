//! The answer of an audit.
ghost use Rattle.std.specs.Prelude.{◌≡◌, IfOk};
ghost use Rattle.std.specs.Option.{option_copied};
ghost use Rattle.commands.specs.Queries.{chosen_buyer};
ghost use Rattle.fare_audit.specs.Audits.{AreAuditDays};
ghost use Rattle.command_answers.specs.Due.{Task, task_by, DoTask};
ghost use Rattle.command_answers.specs.Outcomes.{IsOutcome};
ghost use Rattle.plan_words.specs.Request.{IsUsualAudit};

use crate::outcome::{Outcome, answered, refused};
use crate::refusal::Refusal;
use crate::riders::chosen_buyer;
use fare_audit::audit;
use feed_rows::{Buyer, Feed};
use plan_words::AuditWords;
use std::alloc::{AllocError, Global};
use ticket_explain::{Text, audit_lines_of};
use transit_base::Day;

// The lines of the audit of the days from the first to the last.
fn audit_text(
    alloc: Global,
    feed: &Feed,
    buyer: Buyer,
    first: Day,
    last: Day,
) -> Result<Text, AllocError>
    requires { AreAuditDays first.0 last.0 }
    ensures { IfOk result (DoTask (Task.Audits feed.now buyer first.0 last.0)) }
{
    let report = audit(alloc, feed, buyer, first, last)?;
    audit_lines_of(alloc, feed, report.gaps(), report.idle())
}

/// What an audit answers, over the feed.
///
/// # Errors
/// Want of memory.
pub fn audit_outcome(alloc: Global, feed: &Feed, words: &AuditWords) -> Result<Outcome, AllocError>
    requires usual { IsUsualAudit words.now }
    ensures { IfOk result (IsOutcome (task_by (λ buyer. Task.Audits feed.now buyer words.now.first.0 words.now.last.0) (chosen_buyer feed.now (option_copied words.now.rider)))) }
{
    let buyer = match chosen_buyer(feed, words.rider) {
        Ok(buyer) => buyer,
        Err(fault) => return refused(alloc, Refusal::Usage(fault)),
    };
    let text = audit_text(alloc, feed, buyer, words.first, words.last)?;
    Ok(answered(text))
}
