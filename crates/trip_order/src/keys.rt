//! The keys of stop times, and their order.
ghost use Rattle.std.specs.Prelude.{◌≡◌, ◌<◌, ◌^◌, length, IfOk};
ghost use Rattle.std.specs.Bool.{OnTrue};
ghost use Rattle.std.specs.List.Sorted.{IsPermutation};
ghost use Rattle.trip_order.specs.Order.{key_of, DoAscend, AreSorted};

use crate::stretches::keys_by_trip;
use feed_rows::StopTimeRow;
use std::alloc::{AllocError, Global};

/// Where a stop time stands in the order.
#[derive(Clone, Copy, PartialEq, Eq, PartialOrd, Ord)]
pub struct PlaceKey {
    /// The number of its trip.
    pub trip: u32,
    /// The `stop_sequence`.
    pub sequence: u32,
    /// The number of its row, from 0.
    pub row: u32,
}

/// The key of a row.
#[inline(always)]
pub fn key_of(times: &[StopTimeRow], row: usize) -> PlaceKey
    requires few { length times.now < 2 ^ 32 }
    requires within { row < length times.now }
    ensures { result ≡ key_of times.now row }
{
    let time = times[row];
    PlaceKey {
        trip: time.trip.0,
        sequence: time.sequence,
        row: row as u32,
    }
}

// Whether no key comes before the one before it.
fn do_ascend(keys: &[PlaceKey]) -> bool
    ensures { OnTrue result (DoAscend keys.now) }
{
    keys.is_sorted()
}

// Sorts keys that may be in order already.
fn put_in_order(keys: &mut Vec<PlaceKey>)
    ensures moved { IsPermutation keys.old.items keys.new.items }
    ensures sorted { DoAscend keys.new.items }
{
    if do_ascend(keys) {
        return;
    }
    keys.sort_unstable();
}

/// The keys of all stop times, ascending: by trip, within a trip by sequence, and within a sequence by row.
///
/// # Errors
/// Want of memory.
pub fn sorted_keys(alloc: Global, times: &[StopTimeRow]) -> Result<Vec<PlaceKey>, AllocError>
    requires { length times.now < 2 ^ 32 }
    ensures { IfOk result (λ keys. AreSorted times.now keys.items) }
{
    let mut keys = keys_by_trip(alloc, times)?;
    put_in_order(&mut keys);
    Ok(keys)
}
