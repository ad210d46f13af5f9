//! What a tariff leaves open on the rides of some days: pairs of stops between which a ride has no fare, and leg rules that
//! no ride selects.
//!
//! Rides are many, but what fare rules see of them is not. Of the days of a service one is looked at for all on which its
//! timeframes are alike; stops with the same areas, and times between which no timeframe starts or ends, are taken as one;
//! and what was judged once is kept.
#![tactic(auto)]

ghost use Rattle.std.specs.Prelude.{◌≡◌, ◌≤◌, IfOk};
ghost use Rattle.feed_calendar.specs.BuiltCalendar.{IsCalendarOf};
ghost use Rattle.feed_rows.specs.FareGaps.{days_from, uncovered_pairs, idle_rules};
ghost use Rattle.fare_audit.specs.Audits.{AreAuditDays};

mod days;
mod ends;
mod found;
mod judge;
mod pairs;
mod report;
mod walk;

use crate::days::AuditDays;
use crate::found::Found;
use crate::judge::Audit;
pub use crate::report::AuditReport;
use feed_calendar::Calendar;
pub use feed_rows::Pair;
use feed_rows::{Buyer, Feed};
use feed_trips::Trips;
use std::alloc::{AllocError, Global};
use transit_base::Day;

/// The pairs of stops between which some ride has no fare option for the buyer, and the leg rules that no ride selects.
/// The rides are those whose service day lies from the first day to the last; each is one leg by itself.
///
/// # Errors
/// Want of memory.
pub fn audit(
    alloc: Global,
    feed: &Feed,
    buyer: Buyer,
    first: Day,
    last: Day,
) -> Result<AuditReport, AllocError>
    requires { AreAuditDays first.0 last.0 }
    ensures gaps { IfOk result (λ report. report.gaps ≡ uncovered_pairs feed.now buyer first.0 last.0) }
    ensures idle { IfOk result (λ report. report.idle ≡ idle_rules feed.now first.0 last.0) }
{
    let calendar = Calendar::build(alloc, feed)?;
    audit_by(alloc, feed, &calendar, buyer, first, last)
}

/// The same by the calendar.
fn audit_by(
    alloc: Global,
    feed: &Feed,
    calendar: &Calendar,
    buyer: Buyer,
    first: Day,
    last: Day,
) -> Result<AuditReport, AllocError>
    requires calendar { IsCalendarOf feed.now calendar.now }
    requires days { AreAuditDays first.0 last.0 }
    ensures gaps { IfOk result (λ report. report.gaps ≡ uncovered_pairs feed.now buyer first.0 last.0) }
    ensures idle { IfOk result (λ report. report.idle ≡ idle_rules feed.now first.0 last.0) }
{
    let count = days_between(first, last);
    let days = AuditDays::build(alloc, feed, calendar, first, count)?;
    let audit = Audit::build(alloc, feed, calendar, buyer, first, count)?;
    let mut found = Found::empty(alloc, feed.leg_rules.items().len())?;
    match Trips::build(alloc, feed) {
        Ok(trips) => audit.add_trips(alloc, &mut found, &trips, &days)?,
        Err(AllocError) => return Err(AllocError),
    }
    AuditReport::of(alloc, &found)
}

/// How many days there are from the first to the last.
fn days_between(first: Day, last: Day) -> u32
    requires { AreAuditDays first.0 last.0 }
    ensures value { result ≡ days_from first.0 last.0 }
    ensures few { result ≤ 366 }
{
    (last.0 - first.0) as u32 + 1
}
