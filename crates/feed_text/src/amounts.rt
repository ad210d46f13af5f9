//! Amounts of money, as fields write them.
ghost use Rattle.std.specs.Prelude.{◌≡◌, ◌≤◌, ◌<◌, IfSome, length, option_map};
ghost use Rattle.feed_rows.specs.Numerals.{when_at_most};
ghost use Rattle.feed_faults.specs.FieldGrammars.{point_place, fraction_value, unsigned_amount, amount_value};

use crate::numbers::{number_of, small_number_of};
use transit_base::Money;

// Where the first point stands.
fn point_of(text: &[u8]) -> Option<usize>
    ensures value { result ≡ point_place text.now }
    ensures within { IfSome result (λ i. i < length text.now) }
{
    text.iter().position(|b| *b == b'.')
}

// The digits behind a point, as minor units: those past the decimals are zeros, and missing ones count as zeros.
#[tactic(auto, using(crate::proofs::AmountLaws::few_units))]
fn fraction_of(digits: &[u8], decimals: u8) -> Option<u32>
    requires { decimals ≤ 3 }
    ensures value { result ≡ fraction_value decimals digits.now }
    ensures bound { IfSome result (λ v. v ≤ 999_000) }
{
    if digits.is_empty() {
        return None;
    }
    let places = digits.len().min(usize::from(decimals));
    if !digits[places..].iter().all(|b| *b == b'0') {
        return None;
    }
    if places == 0 {
        return Some(0);
    }
    let number = small_number_of(&digits[..places], 999)?;
    Some(number * 10u32.pow(u32::from(decimals) - places as u32))
}

// An amount without sign in minor units, where it is at most 10^12.
#[tactic(auto, unfolding(feed_faults::specs::FieldGrammars::unsigned_amount), using(crate::proofs::AmountLaws::no_fraction, crate::proofs::AmountLaws::too_many_units, crate::proofs::AmountLaws::few_units))]
fn unsigned_amount_of(text: &[u8], decimals: u8) -> Option<u64>
    requires { decimals ≤ 3 }
    ensures value { result ≡ when_at_most 1_000_000_000_000 (unsigned_amount decimals text.now) }
    ensures bound { IfSome result (λ v. v ≤ 1_000_000_000_000) }
{
    let (whole, fraction) = match point_of(text) {
        Some(place) => (&text[..place], fraction_of(&text[place + 1..], decimals)?),
        None => (text, 0),
    };
    let number = number_of(whole)?;
    let units = u128::from(number) * 10u128.pow(u32::from(decimals)) + u128::from(fraction);
    if units > 1_000_000_000_000 {
        return None;
    }
    Some(units as u64)
}

/// An amount in minor units of a currency with so many decimals, which are at most 3: an optional minus sign, one or more
/// digits, and optionally a point with one or more digits, of which those past the decimals are zeros. None exactly where the
/// text is no such amount of at most 10^12 minor units in either direction.
#[tactic(auto, unfolding(feed_faults::specs::FieldGrammars::amount_value), using(crate::proofs::AmountLaws::positive_between, crate::proofs::AmountLaws::negative_between))]
pub fn amount_of(text: &[u8], decimals: u8) -> Option<Money>
    requires { decimals ≤ 3 }
    ensures { option_map (λ m. m.0) result ≡ amount_value decimals text.now }
{
    if !text.is_empty() && text[0] == b'-' {
        return Some(Money(-(unsigned_amount_of(&text[1..], decimals)? as i64)));
    }
    Some(Money(unsigned_amount_of(text, decimals)? as i64))
}
