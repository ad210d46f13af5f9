//! Lists of least amounts.
ghost use Rattle.std.specs.Prelude.{◌≡◌, ◌<◌, vec_len};
ghost use Rattle.fare_bounds.specs.Amounts.{amount_at, at_place, place_of, row_place, IsLowered};

use transit_base::LegGroupId;

/// The amount where there is none, in minor units: it is greater than any sum of tickets.
pub const NEVER: i64 = 1_000_000_000_000_000;

/// The amount at the place; `NEVER` past the end.
#[inline]
pub fn amount_at(amounts: &[i64], place: usize) -> i64
    ensures { result ≡ amount_at amounts.now place }
{
    match amounts.get(place) {
        Some(amount) => *amount,
        None => NEVER,
    }
}

/// The lesser of the amount at the place and that of all groups; the first place isn't a group's.
#[inline]
pub fn at_place(amounts: &[i64], place: usize) -> i64
    ensures { result ≡ at_place amounts.now place }
{
    if place == 0 {
        amount_at(amounts, 0)
    } else {
        amount_at(amounts, place).min(amount_at(amounts, 1))
    }
}

/// The place of legs of this group.
#[inline]
pub fn place_of(group: Option<LegGroupId>) -> usize
    ensures { result ≡ place_of group }
{
    match group {
        Some(own) => own.0 as usize + 2,
        None => 0,
    }
}

/// The place of the groups that a field matches.
pub fn row_place(field: Option<LegGroupId>) -> usize
    ensures { result ≡ row_place field }
{
    match field {
        Some(own) => own.0 as usize + 2,
        None => 1,
    }
}

/// Puts the amount at the place, unless a lesser one stands there.
pub fn lower(amounts: &mut Vec<i64>, place: usize, amount: i64)
    requires { place < vec_len amounts.old }
    ensures lowered { IsLowered place amount amounts.old.items amounts.new.items }
    ensures len { vec_len amounts.new ≡ vec_len amounts.old }
{
    amounts[place] = amount_at(amounts, place).min(amount);
}
