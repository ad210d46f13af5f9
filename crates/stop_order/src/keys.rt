//! The keys of stop times, which ascend by trip, within a trip by sequence, and within a sequence by row.
ghost use Rattle.std.specs.Prelude.{◌≡◌, ◌<◌, ◌^◌, ◌++◌, length, IfOk, OnOk};
ghost use Rattle.stop_order.specs.Order.{key_of, row_at, stretch_from, AreFirst, AreOrdered};

use crate::times::{OrderedTimes, StopTimes};
use std::alloc::{AllocError, Global};

/// Where a stop time stands in the order.
#[derive(Clone, Copy, PartialEq, Eq, PartialOrd, Ord)]
pub struct PlaceKey {
    /// The number of its trip, where that is there.
    pub trip: Option<u32>,
    /// The `stop_sequence`.
    pub sequence: u32,
    /// The number of its row, from 0.
    pub row: u32,
}

// The key of a row.
#[inline(always)]
fn key_of<T: StopTimes>(times: &T, row: usize) -> PlaceKey
    requires few { length (T.times times.now) < 2 ^ 32 }
    requires within { row < length (T.times times.now) }
    ensures { result ≡ key_of (T.times times.now) row }
{
    let time = times.time(row);
    PlaceKey {
        trip: time.trip.map(|trip| trip.0),
        sequence: time.sequence,
        row: row as u32,
    }
}

// The keys at which stretches of rows of one trip begin. There are far fewer of them than rows, so they are sorted sooner.
fn first_keys<T: StopTimes>(alloc: Global, times: &T) -> Result<Vec<PlaceKey>, AllocError>
    requires { length (T.times times.now) < 2 ^ 32 }
    ensures { IfOk result (λ firsts. AreFirst (T.times times.now) firsts.items) }
{
    let file = OrderedTimes { times, keys: &[] };
    let mut firsts = Vec::new(alloc);
    for row in 0..times.len() {
        if !file.goes_on(row) {
            firsts.push(key_of(times, row))?;
        }
    }
    Ok(firsts)
}

// Appends the keys of a stretch, which begins with a row.
fn push_stretch<T: StopTimes>(
    keys: &mut Vec<PlaceKey>,
    times: &T,
    from: usize,
) -> Result<(), AllocError>
    requires few { length (T.times times.now) < 2 ^ 32 }
    requires within { from < length (T.times times.now) }
    ensures { OnOk result (keys.new.items ≡ keys.old.items ++ stretch_from (T.times times.now) from) }
{
    let file = OrderedTimes { times, keys: &[] };
    keys.push(key_of(times, from))?;
    for row in from + 1..times.len() {
        if !file.goes_on(row) {
            return Ok(());
        }
        keys.push(key_of(times, row))?;
    }
    Ok(())
}

/// The keys of all stop times, in order: those without a trip come first.
///
/// # Errors
/// Want of memory.
pub fn sorted_keys<T: StopTimes>(alloc: Global, times: &T) -> Result<Vec<PlaceKey>, AllocError>
    requires { length (T.times times.now) < 2 ^ 32 }
    ensures { IfOk result (λ keys. AreOrdered (T.times times.now) (row_at keys.items)) }
{
    let mut firsts = first_keys(alloc, times)?;
    firsts.sort_unstable();
    let mut keys = Vec::with_capacity(alloc, times.len())?;
    let mut stretch = Vec::new(alloc);
    for first in &firsts {
        push_stretch(&mut stretch, times, first.row as usize)?;
        stretch.sort_unstable();
        keys.append(&mut stretch)?;
    }
    keys.sort_unstable();
    Ok(keys)
}
