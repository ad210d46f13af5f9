//! Civil days and their dates, by the core of jiff.
ghost use Rattle.std.specs.Prelude.{◌≡◌, IsTrue, ◌↔◌, IsSome, IfSome};
ghost use Rattle.transit_base.specs.Dates.{is_date, day_number};

use jiff_core::civil::Date;

/// A civil day: the number of days since 1970-01-01, negative before it.
#[derive(Clone, Copy, PartialEq, Eq, PartialOrd, Ord)]
pub struct Day(pub i64);

/// The day of a year, a month from 1 and a day of the month from 1. None exactly where the year isn't one of 1 to
/// 9999, or the Gregorian calendar, which is taken to hold from the year 1 on, lacks the date.
pub fn day_of(year: u16, month: u8, day: u8) -> Option<Day>
    ensures exists { IsSome result ↔ IsTrue (is_date year month day) }
    ensures value { IfSome result (λ d. d.0 ≡ day_number year month day) }
{
    // Within these bounds the numbers fit the narrower types of the calendar library, which tests the rest.
    if year < 1 || year > 9999 || month > 12 || day > 31 {
        return None;
    }
    let date = Date::new(year as i16, month as i8, day as i8).ok()?;
    Some(Day(i64::from(date.to_unix_epoch_day())))
}
