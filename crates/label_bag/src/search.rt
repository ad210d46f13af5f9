//! The looking through members, and the change that a kept label makes to them.
ghost use Rattle.std.specs.Prelude.{◌≡◌, ◌+◌, ◌-◌, ◌^◌, ◌<◌, ◌≤◌, ◌<ℤ◌, ◌≤ℤ◌, true, ◌∷◌, ◌++◌, length, take, drop, slice_range, All, AllPairs, IfSome, IfNone, OnOk, IfErr, vec_len, vec_capacity};
ghost use Rattle.std.specs.List.{HoldsAt};
ghost use Rattle.label_bag.specs.Bags.{IsUncovered, not_above};

use crate::bag::NoRoom;
use label_order::{LabelOrder, Stair};

/// The place of the last member that is at most the label.
pub fn cover_among<L: LabelOrder>(members: &[L], label: &L) -> Option<usize>
    ensures found { IfSome result (λ i. (i < length members.now) × HoldsAt (λ m. L.at_most m label.now ≡ true) members.now i) }
    ensures none { IfNone result (IsUncovered L.at_most members.now label.now) }
{
    members.iter().rposition(|member| member.leq(label))
}

/// How many of the labels, which ascend by height, are not higher than this one.
///
/// The search halves a stretch of a power of two labels, and goes on behind a half by adding it, without a branch: which way it
/// goes is a toss, which a processor guesses wrong every other time.
pub fn count_up_to<L: Stair>(flight: &[L], label: &L) -> usize
    requires { AllPairs (λ x y. L.height_of x ≤ℤ L.height_of y) flight.now }
    ensures within { result ≤ length flight.now }
    ensures up_to { All (λ m. L.height_of m ≤ℤ L.height_of label.now) (take result flight.now) }
    ensures higher { All (λ m. L.height_of label.now <ℤ L.height_of m) (drop result flight.now) }
{
    let len = flight.len();
    if len == 0 {
        return 0;
    }
    let top = exponent(len);
    let half = 1 << top;
    let mut start = is_up_to(flight, half - 1, label) * (len - half);
    for shift in (0..top).rev() {
        start += is_up_to(flight, start + (1 << shift) - 1, label) << shift;
    }
    start + is_up_to(flight, start, label)
}

/// 1 where the label at the place is not higher than this one, and else 0.
fn is_up_to<L: Stair>(flight: &[L], place: usize, label: &L) -> usize
    requires { place < length flight.now }
    ensures bit { result ≤ 1 }
    ensures up_to { result ≡ 1 → HoldsAt (λ m. L.height_of m ≤ℤ L.height_of label.now) flight.now place }
    ensures higher { result ≡ 0 → HoldsAt (λ m. L.height_of label.now <ℤ L.height_of m) flight.now place }
{
    usize::from(flight[place].height() <= label.height())
}

/// The exponent of the greatest power of two that is at most this.
fn exponent(len: usize) -> u32
    requires { 0 < len }
    ensures within { result < 64 }
    ensures low { 2 ^ result ≤ len }
    ensures high { len < 2 ^ (result + 1) }
{
    63 - len.leading_zeros()
}

/// How many of the labels, which ascend by height, are lower than this one, where all from this place on are higher.
pub fn count_lower<L: Stair>(flight: &[L], up_to: usize, label: &L) -> usize
    requires rising { AllPairs (λ x y. L.height_of x ≤ℤ L.height_of y) flight.now }
    requires within { up_to ≤ length flight.now }
    requires higher { All (λ m. L.height_of label.now <ℤ L.height_of m) (drop up_to flight.now) }
    ensures within { result ≤ length flight.now }
    ensures lower { All (λ m. L.height_of m <ℤ L.height_of label.now) (take result flight.now) }
    ensures others { All (λ m. L.height_of label.now ≤ℤ L.height_of m) (drop result flight.now) }
{
    for place in (0..up_to).rev() {
        if flight[place].height() < label.height() {
            return place + 1;
        }
    }
    0
}

/// The place of the last label that is at most this one, where all from this place on are higher, and aren't looked at.
pub fn cover_below<L: Stair>(flight: &[L], up_to: usize, label: &L) -> Option<usize>
    requires within { up_to ≤ length flight.now }
    requires higher { All (λ m. L.height_of label.now <ℤ L.height_of m) (drop up_to flight.now) }
    ensures found { IfSome result (λ i. (i < length flight.now) × HoldsAt (λ m. L.at_most m label.now ≡ true) flight.now i) }
    ensures none { IfNone result (IsUncovered L.at_most flight.now label.now) }
{
    cover_among(&flight[..up_to], label)
}

/// Sets the label at `start`, in place of those members from there to `end` that it is at most.
///
/// # Errors
/// Want of memory. No member is gone then.
pub fn replace<L: LabelOrder>(
    members: &mut Vec<L>,
    start: usize,
    end: usize,
    label: L,
) -> Result<(), NoRoom<L>>
    requires order { start ≤ end }
    requires bound { end ≤ vec_len members.old }
    ensures ok { OnOk result (members.new.items ≡ take start members.old.items ++ label ∷ (not_above L.at_most label (slice_range members.old.items start end) ++ drop end members.old.items)) }
    ensures refused { IfErr result (λ e. (e.label ≡ label) × (members.new.items ≡ members.old.items) × (vec_capacity members.old ≤ vec_len members.old)) }
    ensures spare { vec_capacity members.old - vec_len members.old ≤ (vec_capacity members.new - vec_len members.new) + 1 }
{
    for place in (start..end).rev() {
        if label.leq(&members[place]) {
            members.remove(place);
        }
    }
    match members.insert(start, label) {
        Ok(()) => Ok(()),
        Err(refused) => Err(NoRoom {
            label: refused.value,
        }),
    }
}
