//! Stretches of rows of one trip that stand together. There are far fewer of them than rows, so they are sorted sooner.
ghost use Rattle.std.specs.Prelude.{◌≡◌, ◌<◌, ◌≤◌, ◌^◌, ◌++◌, length, All, IfOk, OnOk};
ghost use Rattle.std.specs.List.{flat_map};
ghost use Rattle.std.specs.List.Sorted.{IsPermutation};
ghost use Rattle.plain_laws.specs.Plain.{list_below};
ghost use Rattle.trip_order.specs.Joined.{keys_within, LiesWithin, AreCut};
ghost use Rattle.trip_order.specs.Order.{key_of};

use crate::keys::{PlaceKey, key_of};
use feed_rows::StopTimeRow;
use std::alloc::{AllocError, Global};

// Neighbours of one trip: from a place, and up to the place after the last.
#[derive(Clone, Copy, PartialEq, Eq, PartialOrd, Ord)]
struct Stretch {
    trip: u32,
    from: usize,
    to: usize,
}

// Appends the neighbours from a place up to another, after all that stand before.
#[tactic(auto, using(crate::proofs::JoinLaws::joined_further))]
fn push_stretch(
    stretches: &mut Vec<Stretch>,
    times: &[StopTimeRow],
    from: usize,
    to: usize,
) -> Result<(), AllocError>
    requires cut { AreCut times.now stretches.old.items from }
    requires some { from < to }
    requires within { to ≤ length times.now }
    ensures { OnOk result (AreCut times.now stretches.new.items to) }
{
    stretches.push(Stretch {
        trip: times[from].trip.0,
        from,
        to,
    })?;
    Ok(())
}

// The rows cut wherever the trip changes.
fn stretches_of(alloc: Global, times: &[StopTimeRow]) -> Result<Vec<Stretch>, AllocError>
    ensures { IfOk result (λ stretches. AreCut times.now stretches.items (length times.now)) }
{
    let mut stretches = Vec::new(alloc);
    let mut from = 0;
    for to in 0..times.len() {
        if times[to].trip.0 != times[from].trip.0 {
            push_stretch(&mut stretches, times, from, to)?;
            from = to;
        }
    }
    if from < times.len() {
        push_stretch(&mut stretches, times, from, times.len())?;
    }
    Ok(stretches)
}

// Appends the keys of the rows of a stretch.
fn push_keys(
    keys: &mut Vec<PlaceKey>,
    times: &[StopTimeRow],
    stretch: &Stretch,
) -> Result<(), AllocError>
    requires few { length times.now < 2 ^ 32 }
    requires within { LiesWithin times.now stretch.now }
    ensures { OnOk result (keys.new.items ≡ keys.old.items ++ keys_within times.now stretch.now) }
{
    for row in stretch.from..stretch.to {
        keys.push(key_of(times, row))?;
    }
    Ok(())
}

// The keys of the rows of stretches, one stretch after another.
fn joined(
    alloc: Global,
    times: &[StopTimeRow],
    stretches: &[Stretch],
) -> Result<Vec<PlaceKey>, AllocError>
    requires few { length times.now < 2 ^ 32 }
    requires within { All (LiesWithin times.now) stretches.now }
    ensures { IfOk result (λ joined. joined.items ≡ flat_map (keys_within times.now) stretches.now) }
{
    let mut joined = Vec::with_capacity(alloc, times.len())?;
    for stretch in stretches {
        push_keys(&mut joined, times, stretch)?;
    }
    Ok(joined)
}

/// The keys of all rows by trip, those of one trip in file order.
///
/// # Errors
/// Want of memory.
#[tactic(auto, using(crate::proofs::JoinLaws::joined_permutation))]
pub fn keys_by_trip(alloc: Global, times: &[StopTimeRow]) -> Result<Vec<PlaceKey>, AllocError>
    requires { length times.now < 2 ^ 32 }
    ensures { IfOk result (λ keys. IsPermutation (list_below (length times.now) (key_of times.now)) keys.items) }
{
    let mut stretches = stretches_of(alloc, times)?;
    stretches.sort_unstable();
    joined(alloc, times, &stretches)
}
