//! Integers, times and dates, as fields write them.
ghost use Rattle.std.specs.Prelude.{◌≡◌, ◌-◌, ◌^◌, ◌≤◌, ℕ, true, false, Some, IfSome, IfNone, option_map};
ghost use Rattle.std.specs.Char.{is_ascii_digit};
ghost use Rattle.feed_rows.specs.Numerals.{number_value, when_at_most};
ghost use Rattle.feed_rows.specs.RideWords.{start_value};
ghost use Rattle.feed_rows.specs.TimeGrammar.{time_value};
ghost use Rattle.transit_base.specs.Limits.{most_time};
ghost use Rattle.feed_rows.specs.WordValues.{day_value};
ghost use Rattle.feed_faults.specs.FieldGrammars.{int_value, count_value, date_value};

use transit_base::{Day, MOST_TIME, day_of};

// The number that a digit writes.
#[inline(always)]
fn digit_of(digit: u8) -> Option<u64>
    ensures some { IfSome result (λ value. (is_ascii_digit digit ≡ true) × (value ≡ digit - 48)) }
    ensures none { IfNone result (is_ascii_digit digit ≡ false) }
{
    if digit.is_ascii_digit() {
        Some(u64::from(digit - b'0'))
    } else {
        None
    }
}

// The number that one or more digits write, where it is below 2^64. Inlined, as are its callers: most fields of a feed are
// times and small numbers.
#[inline(always)]
pub(crate) fn number_of(text: &[u8]) -> Option<u64>
    ensures { result ≡ when_at_most (2 ^ 64 - 1) (number_value text.now) }
{
    match text {
        [] => return None,
        [ones] => return digit_of(*ones),
        [tens, ones] => return Some(digit_of(*tens)? * 10 + digit_of(*ones)?),
        _ => {}
    }
    let mut value = 0u64;
    for b in text {
        if !b.is_ascii_digit() {
            return None;
        }
        value = value.checked_mul(10)?.checked_add(u64::from(*b - b'0'))?;
    }
    Some(value)
}

// The number that one or more digits write, where it is at most this.
#[inline(always)]
pub(crate) fn small_number_of(text: &[u8], most: u32) -> Option<u32>
    ensures value { result ≡ when_at_most most (number_value text.now) }
    ensures bound { IfSome result (λ v. v ≤ most) }
{
    let value = number_of(text)?;
    if value > u64::from(most) {
        return None;
    }
    Some(value as u32)
}

// The same as `time_of`, part by part.
#[inline(never)]
#[tactic(auto, unfolding(feed_rows::specs::TimeGrammar::time_value))]
fn parted_time_of(text: &[u8], most: u32) -> Option<u32>
    ensures value { result ≡ time_value most text.now }
    ensures bound { IfSome result (λ v. v ≤ most) }
{
    if text.len() < 7 || text.len() > 9 {
        return None;
    }
    let colon = text.len() - 6;
    if text[colon] != b':' || text[colon + 3] != b':' {
        return None;
    }
    let hours = small_number_of(&text[..colon], 167)?;
    let minutes = small_number_of(&text[colon + 1..colon + 3], 59)?;
    let seconds = small_number_of(&text[colon + 4..], 59)?;
    let value = hours * 3600 + minutes * 60 + seconds;
    if value > most {
        return None;
    }
    Some(value)
}

// What the bytes of two digits add to the number that they write: 48 to each digit.
const OF_BYTES: u32 = 528;

// The seconds of a time of the form HH:MM:SS, as nearly all are. All its bytes are judged at once: a digit's and six more
// are both among the sixteen from 0x30 on.
#[inline(always)]
fn clock_of(text: &[u8]) -> Option<u32>
    ensures { IfSome result (λ value. (most : ℕ) → time_value most text.now ≡ when_at_most most (Some value)) }
{
    let [a, b, c, d, e, f, g, h] = text else {
        return None;
    };
    let word = u64::from_le_bytes([*a, *b, *c, *d, *e, *f, *g, *h]);
    if word & 0xf0f0_fff0_f0ff_f0f0 != 0x3030_3a30_303a_3030 {
        return None;
    }
    if (word + 0x0606_0006_0600_0606) & 0xf0f0_00f0_f000_f0f0 != 0x3030_0030_3000_3030 {
        return None;
    }
    let hours = u32::from(*a) * 10 + u32::from(*b);
    let minutes = u32::from(*d) * 10 + u32::from(*e);
    let seconds = u32::from(*g) * 10 + u32::from(*h);
    if minutes > OF_BYTES + 59 || seconds > OF_BYTES + 59 {
        return None;
    }
    Some(hours * 3600 + minutes * 60 + seconds - OF_BYTES * 3661)
}

/// The seconds of a time: one to three digits of hours up to 167, and two digits each of minutes and seconds up to 59, with
/// colons between. None exactly where the text is no such time of at most so many seconds.
#[inline(always)]
pub fn time_of(text: &[u8], most: u32) -> Option<u32>
    ensures value { result ≡ time_value most text.now }
    ensures bound { IfSome result (λ v. v ≤ most) }
{
    if let Some(value) = clock_of(text) {
        if value > most {
            return None;
        }
        return Some(value);
    }
    parted_time_of(text, most)
}

/// The first departure of a run, or `-` where none is given.
pub fn start_in(text: &[u8]) -> Option<Option<u32>>
    ensures value { result ≡ start_value text.now }
    ensures high { IfSome result (λ start. IfSome start (λ s. s ≤ most_time)) }
{
    if text == b"-".as_slice() {
        return Some(None);
    }
    let start = time_of(text, MOST_TIME)?;
    Some(Some(start))
}

/// The value of an integer: an optional minus sign and one or more digits, leading zeros among them. None exactly where the
/// text is no integer from `least` to `most`.
#[inline(always)]
#[tactic(auto, unfolding(feed_faults::specs::FieldGrammars::int_value))]
pub fn int_of(text: &[u8], least: i64, most: i64) -> Option<i64>
    ensures { result ≡ int_value least most text.now }
{
    let value = if !text.is_empty() && text[0] == b'-' {
        -i128::from(number_of(&text[1..])?)
    } else {
        i128::from(number_of(text)?)
    };
    if value < i128::from(least) || value > i128::from(most) {
        return None;
    }
    Some(value as i64)
}

/// The value of a number of changes: an integer from 1 to 2,147,483,647, or -1 for any number. None exactly where the text is
/// neither.
#[tactic(auto, unfolding(feed_faults::specs::FieldGrammars::count_value))]
pub fn count_of(text: &[u8]) -> Option<i64>
    ensures { result ≡ count_value text.now }
{
    int_of(text, -1, 2_147_483_647).filter(|value| *value != 0)
}

/// The day of the date whose year, month and day of the month these texts write in digits. None exactly where a text is
/// no number, or the years 0001 to 9999 have no such date.
#[tactic(auto, using(crate::proofs::DateLaws::day_bounded))]
pub fn day_of_parts(year: &[u8], month: &[u8], day: &[u8]) -> Option<Day>
    ensures { option_map (λ d. d.0) result ≡ day_value (number_value year.now) (number_value month.now) (number_value day.now) }
{
    let year = small_number_of(year, 9999)?;
    let month = small_number_of(month, 12)?;
    let day = small_number_of(day, 31)?;
    day_of(year as u16, month as u8, day as u8)
}

/// The day of a date: eight digits YYYYMMDD. None exactly where the text is no date of the years 0001 to 9999.
#[tactic(auto, using(crate::proofs::DateLaws::date_by_parts, crate::proofs::DateLaws::no_date))]
pub fn date_of(text: &[u8]) -> Option<Day>
    ensures { option_map (λ d. d.0) result ≡ date_value text.now }
{
    if text.len() != 8 {
        return None;
    }
    day_of_parts(&text[..4], &text[4..6], &text[6..])
}
