//! Dates and times as text.
ghost use Rattle.std.specs.Prelude.{◌≡◌, ◌<◌, ◌≤◌, ◌≤ℤ◌, ℕ, pos, negsuc, List, take};
ghost use Rattle.transit_base.specs.Limits.{most_time};
ghost use Rattle.transit_base.specs.DateTexts.{two_digits, date_text, time_text};

use crate::calendar::Day;
use crate::moments::Secs;
use jiff_core::civil::Date;
use std::marker::Model;

/// A time as text, `HH:MM:SS`: eight bytes below 100 hours, and nine from there on.
#[derive(Drop)]
pub struct TimeText {
    bytes: [u8; 9],
    used: usize,
}

impl Model for TimeText {
    ghost Value = { List ℕ };

    ghost view = { λ t. take t.used t.bytes };

    ghost invariant = { λ t. t.used ≤ 9 };
}

impl TimeText {
    /// The bytes of the text, which are ASCII digits and colons.
    pub fn bytes(&self) -> &[u8]
        ensures { result.now ≡ self.now }
    {
        &self.bytes[..self.used]
    }
}

/// The date of a day as `YYYY-MM-DD`, in ASCII. The day lies from -719,162, which is 0001-01-01, to 2,932,896, which
/// is 9999-12-31.
pub fn date_text(day: Day) -> [u8; 10]
    requires low { negsuc 719_161 ≤ℤ day.0 }
    requires high { day.0 ≤ℤ pos 2_932_896 }
    ensures { result ≡ date_text day.0 }
{
    let Ok(date) = Date::from_unix_epoch_day(day.0) else {
        unreachable!();
    };
    let year = year_of(date);
    let [century_tens, century_ones] = two_digits(u32::from(year / 100));
    let [year_tens, year_ones] = two_digits(u32::from(year % 100));
    let [month_tens, month_ones] = two_digits(u32::from(date.month));
    let [day_tens, day_ones] = two_digits(u32::from(date.day));
    [
        century_tens,
        century_ones,
        year_tens,
        year_ones,
        b'-',
        month_tens,
        month_ones,
        b'-',
        day_tens,
        day_ones,
    ]
}

/// A time up to [`MOST_TIME`](crate::MOST_TIME), as `HH:MM:SS`, in ASCII. From 100 hours on the hours have three
/// digits.
pub fn time_text(seconds: Secs) -> TimeText
    requires { seconds.0 ≤ most_time }
    ensures { result ≡ time_text seconds.0 }
{
    let hours = seconds.0 / 3600;
    let [hour_tens, hour_ones] = two_digits(hours % 100);
    let [minute_tens, minute_ones] = two_digits(seconds.0 / 60 % 60);
    let [second_tens, second_ones] = two_digits(seconds.0 % 60);
    if hours < 100 {
        TimeText {
            bytes: [
                hour_tens,
                hour_ones,
                b':',
                minute_tens,
                minute_ones,
                b':',
                second_tens,
                second_ones,
                0,
            ],
            used: 8,
        }
    } else {
        TimeText {
            bytes: [
                b'0' + (hours / 100) as u8,
                hour_tens,
                hour_ones,
                b':',
                minute_tens,
                minute_ones,
                b':',
                second_tens,
                second_ones,
            ],
            used: 9,
        }
    }
}

// The year of a date that isn't before the year 1.
fn year_of(date: Date) -> u16
    requires { pos 1 ≤ℤ date.year }
    ensures { pos result ≡ date.year }
{
    date.year as u16
}

// A number below 100 in two digits.
fn two_digits(number: u32) -> [u8; 2]
    requires { number < 100 }
    ensures { result ≡ two_digits number }
{
    [b'0' + (number / 10) as u8, b'0' + (number % 10) as u8]
}
