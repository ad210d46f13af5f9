//! Moments, amounts of money and spans of seconds.
ghost use Rattle.std.specs.Prelude.{◌≡◌, ◌<ℤ◌, ◌≤ℤ◌, ◌+ℤ◌, pos, negsuc, ◌^◌};
ghost use Rattle.transit_base.specs.Moments.{moment_at, civil_day, time_of_day};

use crate::calendar::Day;

/// The seconds of a civil day.
pub const DAY_SECONDS: u32 = 86_400;

/// The greatest time of a trip in seconds: 167:59:59.
pub const MOST_TIME: u32 = 604_799;

/// A moment: seconds since 1970-01-01 00:00:00 on the one clock of a feed. Each civil day has 86,400 seconds, since
/// time zones and clock changes are left out.
#[derive(Clone, Copy, PartialEq, Eq, PartialOrd, Ord)]
pub struct Moment(pub i64);

/// An amount of money in whole minor units of a feed's one currency, such as cents. It may be negative.
#[derive(Clone, Copy, PartialEq, Eq, PartialOrd, Ord)]
pub struct Money(pub i64);

/// A span of time, or a time of day, in seconds.
#[derive(Clone, Copy, PartialEq, Eq, PartialOrd, Ord)]
pub struct Secs(pub u32);

impl Moment {
    /// The moment so many seconds after 00:00:00 of a day. A service day's times go past midnight, and a shift may be
    /// negative. Both the day and the seconds lie from -4,000,000 to 4,000,000.
    pub fn at(day: Day, seconds: i64) -> Moment
        requires day_low { negsuc 3_999_999 ≤ℤ day.0 }
        requires day_high { day.0 ≤ℤ pos 4_000_000 }
        requires seconds_low { negsuc 3_999_999 ≤ℤ seconds }
        requires seconds_high { seconds ≤ℤ pos 4_000_000 }
        ensures { result.0 ≡ moment_at day.0 seconds }
    {
        Moment(day.0 * i64::from(DAY_SECONDS) + seconds)
    }

    /// The moment so many seconds later, which lies below 2^62 seconds.
    pub fn plus(self, more: Secs) -> Moment
        requires { (self.0 +ℤ pos more.0) <ℤ pos (2 ^ 62) }
        ensures { result.0 ≡ self.0 +ℤ pos more.0 }
    {
        Moment(self.0 + i64::from(more.0))
    }

    /// The civil day of the moment, rounded down, so that it is right before 1970 too.
    pub fn day(self) -> Day
        ensures { result.0 ≡ civil_day self.0 }
    {
        Day(self.0.div_euclid(i64::from(DAY_SECONDS)))
    }

    /// The seconds since 00:00:00 of the moment's civil day, from 0 to 86,399, before 1970 too.
    pub fn time_of_day(self) -> Secs
        ensures { result.0 ≡ time_of_day self.0 }
    {
        Secs(self.0.rem_euclid(i64::from(DAY_SECONDS)) as u32)
    }
}
