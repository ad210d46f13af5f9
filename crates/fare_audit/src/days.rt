//! The days of an audit, by number from the first, and which of them need be looked at for a service.
ghost use Rattle.std.specs.Prelude.{◌≡◌, ◌≤◌, ◌<◌, ◌+◌, ◌≤ℤ◌, ◌+ℤ◌, ℕ, ℤ, pos, negsuc, true, length, Contains, IfOk};
ghost use Rattle.feed_rows.specs.FeedRows.{FeedRows};
ghost use Rattle.feed_calendar.specs.BuiltCalendar.{IsCalendarOf};
ghost use Rattle.fare_audit.specs.Days.{AreActiveDays, AreAlike, AreDaysLike, AreDaysOf, AreKinds, ArePicked, HaveSameServices};

use feed_calendar::Calendar;
use feed_rows::Feed;
use item_groups::Groups;
use std::alloc::{AllocError, Global};
use transit_base::{Day, ServiceId};

/// The civil days on which the moments of a run lie: its service day alone, that and the next one, or any.
#[derive(Clone, Copy)]
pub enum Reach {
    OneDay,
    TwoDays,
    Longer,
}

/// Of each service the days on which it is active, of those that are alike the first.
pub struct AuditDays {
    one_day: Groups<u32>,
    two_days: Groups<u32>,
    all: Groups<u32>,
}

// Written out, so that what holds one needn't look into it to let go of it.
impl Drop for AuditDays {
    fn drop(self) {
        let AuditDays {
            one_day: _,
            two_days: _,
            all: _,
        } = self;
    }
}

impl AuditDays {
    /// The days of each service, of so many from the first.
    ///
    /// # Errors
    /// Want of memory.
    pub fn build(
        alloc: Global,
        feed: &Feed,
        calendar: &Calendar,
        first: Day,
        count: u32,
    ) -> Result<AuditDays, AllocError>
        requires calendar { IsCalendarOf feed.now calendar.now }
        requires low { negsuc 799_999 ≤ℤ first.0 }
        requires high { first.0 ≤ℤ pos 2_000_000 }
        requires few { count ≤ 366 }
        ensures { IfOk result (AreDaysOf feed.now first.0 count) }
    {
        let kinds = day_kinds(alloc, feed, calendar, first, count)?;
        let mut days = AuditDays {
            one_day: Groups::empty(alloc),
            two_days: Groups::empty(alloc),
            all: Groups::empty(alloc),
        };
        for service in 0..feed.service_names.items().len() as u32 {
            let active = active_days(alloc, calendar, ServiceId(service), first, count)?;
            let one = unlike_days(alloc, &kinds, &active, Reach::OneDay)?;
            let two = unlike_days(alloc, &kinds, &active, Reach::TwoDays)?;
            days.one_day.push(&one)?;
            days.two_days.push(&two)?;
            days.all.push(&active)?;
        }
        Ok(days)
    }

    /// Days on which the service is active, such that each is alike to one of them for runs that reach so far.
    pub fn of(&self, service: ServiceId, reach: Reach) -> &[u32]
        ensures { (feed : FeedRows) (first : ℤ) (count : ℕ) → AreDaysOf feed first count self.now → service.0 < length feed.service_names → AreDaysLike feed first count service reach result.now }
    {
        let number = service.0 as usize;
        match reach {
            Reach::OneDay => self.one_day.get(number),
            Reach::TwoDays => self.two_days.get(number),
            Reach::Longer => self.all.get(number),
        }
    }
}

/// Of each day, and of the one after the last, the first day on which the same services of timeframes are active.
fn day_kinds(
    alloc: Global,
    feed: &Feed,
    calendar: &Calendar,
    first: Day,
    count: u32,
) -> Result<Vec<u32>, AllocError>
    requires low { negsuc 799_999 ≤ℤ first.0 }
    requires high { first.0 ≤ℤ pos 2_000_000 }
    requires few { count ≤ 366 }
    requires calendar { IsCalendarOf feed.now calendar.now }
    ensures { IfOk result (λ kinds. AreKinds feed.now first.0 kinds.items) }
{
    let mut firsts = Vec::new(alloc);
    let mut kinds = Vec::new(alloc);
    for number in 0..count + 1 {
        kinds.push(day_kind(feed, calendar, first, &mut firsts, number)?)?;
    }
    Ok(kinds)
}

/// The first of these days that is of the same kind as this one, which joins them where there is none.
fn day_kind(
    feed: &Feed,
    calendar: &Calendar,
    first: Day,
    firsts: &mut Vec<u32>,
    number: u32,
) -> Result<u32, AllocError>
    requires low { negsuc 799_999 ≤ℤ first.0 }
    requires high { first.0 ≤ℤ pos 2_000_000 }
    requires calendar { IsCalendarOf feed.now calendar.now }
    ensures { IfOk result (λ kind. HaveSameServices feed.now (first.0 +ℤ pos number) (first.0 +ℤ pos kind)) }
{
    for i in 0..firsts.len() {
        let known = firsts[i];
        if have_same_services(
            feed,
            calendar,
            day_after(first, number),
            day_after(first, known),
        ) {
            return Ok(known);
        }
    }
    firsts.push(number)?;
    Ok(number)
}

/// The day so many days after the first.
pub fn day_after(first: Day, number: u32) -> Day
    requires low { negsuc 799_999 ≤ℤ first.0 }
    requires high { first.0 ≤ℤ pos 2_000_000 }
    ensures { result.0 ≡ first.0 +ℤ pos number }
{
    Day(first.0 + i64::from(number))
}

/// Whether each service of a timeframe is active on both days or on neither.
fn have_same_services(feed: &Feed, calendar: &Calendar, a: Day, b: Day) -> bool
    requires calendar { IsCalendarOf feed.now calendar.now }
    ensures { result ≡ true → HaveSameServices feed.now a.0 b.0 }
{
    for row in feed.timeframes.items() {
        if calendar.active(row.service, a) != calendar.active(row.service, b) {
            return false;
        }
    }
    true
}

/// The days on which the service is active.
fn active_days(
    alloc: Global,
    calendar: &Calendar,
    service: ServiceId,
    first: Day,
    count: u32,
) -> Result<Vec<u32>, AllocError>
    requires low { negsuc 799_999 ≤ℤ first.0 }
    requires high { first.0 ≤ℤ pos 2_000_000 }
    ensures { IfOk result (λ days. (feed : FeedRows) → IsCalendarOf feed calendar.now → AreActiveDays feed first.0 count service days.items) }
{
    let mut days = Vec::new(alloc);
    for number in 0..count {
        if calendar.active(service, day_after(first, number)) {
            days.push(number)?;
        }
    }
    Ok(days)
}

/// Those of the days that are alike to none before.
fn unlike_days(
    alloc: Global,
    kinds: &[u32],
    days: &[u32],
    reach: Reach,
) -> Result<Vec<u32>, AllocError>
    ensures { IfOk result (λ picked. (feed : FeedRows) (first : ℤ) → AreKinds feed first kinds.now → ArePicked feed first reach days.now picked.items) }
{
    let mut picked = Vec::new(alloc);
    for day in days {
        if !has_like(kinds, &picked, *day, reach) {
            picked.push(*day)?;
        }
    }
    Ok(picked)
}

/// Whether the day is alike to one of these.
fn has_like(kinds: &[u32], picked: &[u32], day: u32, reach: Reach) -> bool
    ensures { result ≡ true → (feed : FeedRows) (first : ℤ) → AreKinds feed first kinds.now → (k : ℕ) × Contains picked.now k × AreAlike feed reach (first +ℤ pos k) (first +ℤ pos day) }
{
    for other in picked {
        if are_alike(kinds, *other, day, reach) {
            return true;
        }
    }
    false
}

/// Whether both days are alike for runs that reach so far.
fn are_alike(kinds: &[u32], a: u32, b: u32, reach: Reach) -> bool
    ensures { result ≡ true → (feed : FeedRows) (first : ℤ) → AreKinds feed first kinds.now → AreAlike feed reach (first +ℤ pos a) (first +ℤ pos b) }
{
    let (one, other) = (a as usize, b as usize);
    match reach {
        Reach::OneDay => is_same_kind(kinds, one, other),
        Reach::TwoDays => is_same_kind(kinds, one, other)
            && is_same_kind(kinds, one + 1, other + 1),
        Reach::Longer => a == b,
    }
}

/// Whether both days are of one kind.
fn is_same_kind(kinds: &[u32], a: usize, b: usize) -> bool
    ensures { result ≡ true → (feed : FeedRows) (first : ℤ) → AreKinds feed first kinds.now → HaveSameServices feed (first +ℤ pos a) (first +ℤ pos b) }
{
    match (kinds.get(a), kinds.get(b)) {
        (Some(one), Some(other)) => *one == *other,
        _ => false,
    }
}
