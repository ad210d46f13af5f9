//! The service calendar of a feed: on which days each service is active.
#![tactic(auto)]

ghost use Rattle.std.specs.Prelude.{◌≡◌, ◌<◌, true, false, map, Contains, IfOk, MatchOption};
ghost use Rattle.std.specs.List.{list_any};
ghost use Rattle.std.specs.List.Sorted.{IsPermutation};
ghost use Rattle.feed_rows.specs.FeedRows.{FeedRows};
ghost use Rattle.item_groups.specs.Groups.{groups_below};
ghost use Rattle.feed_rows.specs.ServiceDays.{weekday, covers, is_active};
ghost use Rattle.plain_laws.specs.Plain.{at_and};
ghost use Rattle.feed_calendar.specs.CalendarRows.{by_service, rows_of_service, is_on, AreInOrder};
ghost use Rattle.feed_calendar.specs.BuiltCalendar.{IsCalendarOf};

use feed_rows::{ExceptionRow, Feed, ServiceRow};
use item_groups::{Grouped, Groups};
use std::alloc::{AllocError, Global};
use transit_base::{Day, ServiceId};

/// The service calendar of a feed.
///
/// What the calls answer is about the feed that the value was built from.
pub struct Calendar {
    /// The calendar rows of each service.
    rows: Groups<ServiceRow>,
    /// The exceptions by service, and those of a service by day.
    exceptions: Vec<ExceptionRow>,
}

// Written out, so that what holds one needn't look into it to let go of it.
impl Drop for Calendar {
    fn drop(self) {
        let Calendar {
            rows: _,
            exceptions: _,
        } = self;
    }
}

impl Calendar {
    /// The service calendar of the feed.
    ///
    /// # Errors
    /// Want of memory.
    pub fn build(alloc: Global, feed: &Feed) -> Result<Calendar, AllocError>
        ensures { IfOk result (λ calendar. IsCalendarOf feed.now calendar) }
    {
        let count = feed.service_names.items().len() as u32;
        let rows = rows_by_service(alloc, feed.services.items(), count)?;
        let exceptions = sorted_exceptions(alloc, feed.exceptions.items())?;
        Ok(Calendar { rows, exceptions })
    }

    /// Whether the service is active on the day: an exception adds it, or a calendar row covers it and no exception
    /// removes it. No day is too early or too late to ask for, and a number that is no service's is active on none.
    pub fn active(&self, service: ServiceId, day: Day) -> bool
        ensures { (feed : FeedRows) → IsCalendarOf feed self.now → result ≡ is_active feed service day.0 }
    {
        match exception_on(&self.exceptions, service, day) {
            Some(exception) => exception.added,
            None => is_covered(&self.rows, service, day),
        }
    }
}

/// The calendar rows of each service with a number below `count`.
fn rows_by_service(
    alloc: Global,
    rows: &[ServiceRow],
    count: u32,
) -> Result<Groups<ServiceRow>, AllocError>
    ensures { IfOk result (λ groups. groups ≡ groups_below count (map by_service rows.now)) }
{
    let members = grouped_rows(alloc, rows)?;
    let groups = Groups::of(alloc, members, count)?;
    Ok(groups)
}

/// The rows, each with its service.
fn grouped_rows(alloc: Global, rows: &[ServiceRow]) -> Result<Vec<Grouped<ServiceRow>>, AllocError>
    ensures { IfOk result (λ members. members.items ≡ map by_service rows.now) }
{
    rows.iter().map(|row| grouped(row)).collect(alloc)
}

/// The row with its service.
fn grouped(row: &ServiceRow) -> Grouped<ServiceRow>
    ensures { result ≡ by_service row.now }
{
    Grouped {
        group: row.service.0,
        item: *row,
    }
}

/// The exceptions by service, and those of a service by day.
fn sorted_exceptions(alloc: Global, rows: &[ExceptionRow]) -> Result<Vec<ExceptionRow>, AllocError>
    ensures moved { IfOk result (λ sorted. IsPermutation rows.now sorted.items) }
    ensures sorted { IfOk result (λ sorted. AreInOrder sorted.items) }
{
    let mut sorted = Vec::from_slice(alloc, rows)?;
    sorted.sort_unstable_by_key(|row| (row.service.0, row.day.0));
    Ok(sorted)
}

/// The exception of the service on the day, by a binary search.
fn exception_on(exceptions: &[ExceptionRow], service: ServiceId, day: Day) -> Option<ExceptionRow>
    ensures { AreInOrder exceptions.now → MatchOption result (list_any (is_on service day.0) exceptions.now ≡ false) (λ row. Contains exceptions.now row × (is_on service day.0 row ≡ true)) }
{
    match exceptions.binary_search_by_key(&(service.0, day.0), |row| (row.service.0, row.day.0)) {
        Ok(at) => Some(exceptions[at]),
        Err(_) => None,
    }
}

/// Whether a calendar row of the service covers the day.
fn is_covered(rows: &Groups<ServiceRow>, service: ServiceId, day: Day) -> bool
    ensures { result ≡ list_any (λ row. covers row day.0) (rows_of_service rows.now service.0) }
{
    rows.get(service.0 as usize)
        .iter()
        .any(|row| covers(row, day))
}

/// Whether the row covers the day, both ends included, and its weekday.
fn covers(row: &ServiceRow, day: Day) -> bool
    ensures { result ≡ covers row.now day.0 }
{
    row.first.0 <= day.0 && day.0 <= row.last.0 && runs_on(&row.days, weekday(day))
}

/// Whether the weekday is one of those that are marked.
fn runs_on(days: &[bool; 7], weekday: usize) -> bool
    requires { weekday < 7 }
    ensures { result ≡ at_and days.now weekday (λ runs. runs) }
{
    days[weekday]
}

/// The weekday of a day, from 0 for Monday to 6 for Sunday.
fn weekday(day: Day) -> usize
    ensures value { result ≡ weekday day.0 }
    ensures within { result < 7 }
{
    // 1970-01-01 was a Thursday. The day is reduced before the sum, so that no day is too late for it.
    (day.0.rem_euclid(7) as usize + 3) % 7
}
