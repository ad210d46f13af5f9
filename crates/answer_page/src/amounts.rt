//! Amounts of money as answers write them.
ghost use Rattle.std.specs.Prelude.{◌≡◌, ◌<◌, ◌≤ℤ◌, IfSome, Some, length, pos, negsuc};
ghost use Rattle.feed_faults.specs.FieldGrammars.{int_value, is_negative, point_place};
ghost use Rattle.answer_page.specs.Amounts.{thousandths_in, whole_in, with_sign, amount_by, amount_in};

use crate::answer::Amount;
use crate::excerpt::Excerpt;
use feed_text::int_of;

// The most whole units that an amount has: 15 digits, which leave room for thousandths in 64 bits.
const MOST_WHOLE: i64 = 999_999_999_999_999;

// An integer from `least` to `most`.
fn bounded_in(text: &[u8], least: i64, most: i64) -> Option<i64>
    ensures value { result ≡ int_value least most text.now }
    ensures low { IfSome result (λ number. least ≤ℤ number) }
    ensures high { IfSome result (λ number. number ≤ℤ most) }
{
    int_of(text, least, most)
}

// Whether a text begins with a minus sign.
fn is_negative(text: &[u8]) -> bool
    ensures { result ≡ is_negative text.now }
{
    !text.is_empty() && text[0] == b'-'
}

// Where the first point stands.
fn point_of(text: &[u8]) -> Option<usize>
    ensures value { result ≡ point_place text.now }
    ensures within { IfSome result (λ place. place < length text.now) }
{
    for (place, byte) in text.iter().enumerate() {
        if *byte == b'.' {
            return Some(place);
        }
    }
    None
}

// The digits behind a point, of which there are two or three, in thousandths.
#[tactic(auto, unfolding(crate::specs::Amounts::thousandths_in))]
fn thousandths_in(digits: &[u8]) -> Option<i64>
    ensures value { result ≡ thousandths_in digits.now }
    ensures low { IfSome result (λ number. pos 0 ≤ℤ number) }
    ensures high { IfSome result (λ number. number ≤ℤ pos 999) }
{
    if is_negative(digits) {
        return None;
    }
    match digits.len() {
        2 => Some(bounded_in(digits, 0, 99)? * 10),
        3 => bounded_in(digits, 0, 999),
        _ => None,
    }
}

// A part with a sign.
fn signed(negative: bool, part: i64) -> i64
    requires low { pos 0 ≤ℤ part }
    requires high { part ≤ℤ pos 999 }
    ensures value { result ≡ with_sign negative part }
    ensures low { negsuc 998 ≤ℤ result }
    ensures high { result ≤ℤ pos 999 }
{
    if negative { -part } else { part }
}

// An amount by its whole units and the thousandths behind them, which have its sign.
fn amount_by<'t>(text: &'t [u8], whole: &[u8], part: i64) -> Option<Amount<'t>>
    requires low { pos 0 ≤ℤ part }
    requires high { part ≤ℤ pos 999 }
    ensures { result ≡ amount_by text.now whole.now (Some part) }
{
    let units = bounded_in(whole, -MOST_WHOLE, MOST_WHOLE)?;
    Some(Amount {
        text: Excerpt::of(text),
        units: units * 1000 + signed(is_negative(text), part),
    })
}

/// The amount that a text writes: whole units of at most 15 digits with their sign, and behind a point two or three digits.
#[tactic(auto, unfolding(crate::specs::Amounts::amount_in))]
pub fn amount_in(text: &[u8]) -> Option<Amount<'_>>
    ensures { result ≡ amount_in text.now }
{
    match point_of(text) {
        Some(place) => amount_by(text, &text[..place], thousandths_in(&text[place + 1..])?),
        None => amount_by(text, text, 0),
    }
}
