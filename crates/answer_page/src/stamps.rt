//! Moments as answers write them, and as the page shows them.
ghost use Rattle.std.specs.Prelude.{◌≡◌, ◌++◌, ◌≤ℤ◌, OnOk, IfSome, option_map, pos, negsuc};
ghost use Rattle.answer_page.specs.Stamps.{date_in, stamp_in, seconds_shown, other_day, time_html};

use crate::excerpt::Excerpt;
use crate::markup::TIME;
use crate::page::{Page, text};
use feed_text::{day_of_parts, time_of};
use std::alloc::AllocError;
use transit_base::{Day, Moment};

// The days of 0001-01-01 and of 9999-12-31.
const FIRST_DAY: i64 = -719_162;

const LAST_DAY: i64 = 2_932_896;

// The last second of a day.
const LAST_SECOND: u32 = 86_399;

/// A moment of an answer.
#[derive(Drop)]
pub struct Stamp<'t> {
    /// YYYY-MM-DD
    pub date: Excerpt<'t>,
    /// HH:MM
    pub minute: Excerpt<'t>,
    /// :SS
    pub second: Excerpt<'t>,
    /// The moment itself, in seconds.
    pub at: i64,
}

/// The day of a date of the form YYYY-MM-DD.
#[tactic(auto, unfolding(crate::specs::Stamps::date_in))]
pub fn date_in(text: &[u8]) -> Option<Day>
    ensures value { option_map (λ day. day.0) result ≡ date_in text.now }
    ensures low { IfSome result (λ day. negsuc 719_161 ≤ℤ day.0) }
    ensures high { IfSome result (λ day. day.0 ≤ℤ pos 2_932_896) }
{
    if text.len() != 10 || text[4] != b'-' || text[7] != b'-' {
        return None;
    }
    let day = day_of_parts(&text[..4], &text[5..7], &text[8..])?;
    if day.0 < FIRST_DAY || day.0 > LAST_DAY {
        return None;
    }
    Some(day)
}

/// The moment that a text of the form YYYY-MM-DD HH:MM:SS writes.
#[tactic(auto, unfolding(crate::specs::Stamps::stamp_in))]
pub fn stamp_in(text: &[u8]) -> Option<Stamp<'_>>
    ensures { result ≡ stamp_in text.now }
{
    if text.len() != 19 || text[10] != b' ' {
        return None;
    }
    let day = date_in(&text[..10])?;
    let second = time_of(&text[11..], LAST_SECOND)?;
    Some(Stamp {
        date: Excerpt::of(&text[..10]),
        minute: Excerpt::of(&text[11..16]),
        second: Excerpt::of(&text[16..]),
        at: Moment::at(day, i64::from(second)).0,
    })
}

/// The seconds, where they aren't 00.
pub fn seconds_shown<'t>(second: &Excerpt<'t>) -> &'t [u8]
    ensures { result.now ≡ seconds_shown second.now }
{
    if second.bytes() == b":00".as_slice() {
        &[]
    } else {
        second.bytes()
    }
}

// The date, where it isn't that of the page.
fn other_day<'t>(date: &Excerpt<'t>, page_date: &[u8]) -> &'t [u8]
    ensures { result.now ≡ other_day date.now page_date.now }
{
    if date.bytes() == page_date {
        &[]
    } else {
        date.bytes()
    }
}

/// Adds a moment: its time, and behind it its date, where that isn't the page's.
pub fn write_time(page: &mut Page, stamp: &Stamp<'_>, page_date: &[u8]) -> Result<(), AllocError>
    ensures { OnOk result (page.new ≡ page.old ++ time_html stamp.now page_date.now) }
{
    page.fill(
        TIME,
        &[
            text(stamp.date.bytes()),
            text(stamp.minute.bytes()),
            text(stamp.second.bytes()),
            text(stamp.minute.bytes()),
            text(seconds_shown(&stamp.second)),
            text(other_day(&stamp.date, page_date)),
        ],
    )
}
