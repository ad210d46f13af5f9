//! What words say of numbers and dates.
ghost use Rattle.std.specs.Prelude.{◌≡◌, ◌≤◌, ◌≤ℤ◌, ◌+ℤ◌, pos, negsuc, IfSome, option_map};
ghost use Rattle.std.specs.Option.{option_copied};
ghost use Rattle.feed_rows.specs.Numerals.{within};
ghost use Rattle.commands.specs.Commands.{last_day};
ghost use Rattle.feed_rows.specs.WordValues.{word_date, word_number, option_number};

use feed_text::{day_of_parts, int_of};
use transit_base::Day;

/// The day of the form YYYY-MM-DD, from 1900-01-01 to 2999-12-31.
pub(crate) fn date_in(text: &[u8]) -> Option<Day>
    ensures value { option_map (λ d. d.0) result ≡ word_date text.now }
    ensures low { IfSome result (λ d. negsuc 25_566 ≤ℤ d.0) }
    ensures high { IfSome result (λ d. d.0 ≤ℤ pos 376_199) }
{
    if text.len() != 10 || text[4] != b'-' || text[7] != b'-' {
        return None;
    }
    let day = day_of_parts(&text[..4], &text[5..7], &text[8..10])?;
    if day.0 < -25_567 || day.0 > 376_199 {
        return None;
    }
    Some(day)
}

/// The day of that form which is no earlier than the first, and at most 365 days later.
pub(crate) fn last_in(first: Day, text: &[u8]) -> Option<Day>
    requires low { negsuc 25_566 ≤ℤ first.0 }
    requires high { first.0 ≤ℤ pos 376_199 }
    ensures value { option_map (λ d. d.0) result ≡ last_day first.0 text.now }
    ensures low { IfSome result (λ d. first.0 ≤ℤ d.0) }
    ensures high { IfSome result (λ d. d.0 ≤ℤ pos 376_199) }
    ensures near { IfSome result (λ d. d.0 ≤ℤ (first.0 +ℤ pos 365)) }
{
    let last = date_in(text)?;
    if last.0 < first.0 || last.0 > first.0 + 365 {
        return None;
    }
    Some(last)
}

/// The number of one to ten digits, from `least` to `most`.
pub(crate) fn number_in(word: &[u8], least: u32, most: u32) -> Option<u32>
    ensures value { result ≡ within least most (word_number word.now) }
    ensures low { IfSome result (λ n. least ≤ n) }
    ensures high { IfSome result (λ n. n ≤ most) }
{
    if word.is_empty() || word.len() > 10 || word[0] == b'-' {
        return None;
    }
    let value = int_of(word, i64::from(least), i64::from(most))?;
    Some(value as u32)
}

/// The number of an option, or the default where none is given.
pub(crate) fn option_number(
    given: Option<&[u8]>,
    default: u32,
    least: u32,
    most: u32,
) -> Option<u32>
    requires { default ≤ most }
    ensures value { result ≡ option_number default least most (option_copied given.entry) }
    ensures high { IfSome result (λ n. n ≤ most) }
{
    match given {
        None => Some(default),
        Some(word) => number_in(word, least, most),
    }
}
