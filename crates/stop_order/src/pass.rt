//! One pass over stop times: in the order of the file, where the rows of each trip stand together in it by rising sequences,
//! as they mostly do, and else in the order of sorted keys.
ghost use Rattle.std.specs.Prelude.{◌≡◌, ◌<◌, ◌+◌, ◌^◌, ℕ, List, get_or, length, IfOk, IfNone, IfSome};
ghost use Rattle.std.specs.Bool.{OnFalse, OnTrue};
ghost use Rattle.stop_order.specs.Numbered.{named_times, AreAllOrNone, AreFaults, IsOneTrip, faults_at, no_faults};
ghost use Rattle.stop_order.specs.Order.{AreMarked, AreScattered};

use crate::keys::sorted_keys;
use crate::times::{OrderFaults, OrderedTimes, StopTimes};
use std::alloc::{AllocError, Global};

// Whether a row goes on with its trip by a greater sequence, or begins a trip that isn't marked, and then marks it. There are
// as many marks as rows: a file that numbers trips past them isn't the usual one, nor one with a row whose trip isn't there.
fn follows<T: StopTimes>(begun: &mut Vec<bool>, times: &T, row: usize) -> bool
    requires within { row < length (T.times times.now) }
    requires before { AreMarked (T.times times.now) row begun.old.items }
    ensures on { OnTrue result (AreMarked (T.times times.now) (row + 1) begun.new.items) }
    ensures apart { OnFalse result (AreScattered (T.times times.now)) }
{
    let time = times.time(row);
    let Some(trip) = time.trip else {
        return false;
    };
    let file = OrderedTimes { times, keys: &[] };
    if file.goes_on(row) {
        return times.time(row - 1).sequence < time.sequence;
    }
    let trip = trip.0 as usize;
    if trip >= begun.len() || begun[trip] {
        return false;
    }
    begun[trip] = true;
    true
}

// What is wrong with each row, an empty list where nothing is; none where the rows of some trip don't stand together by rising
// sequences, or a row's trip isn't there, or its number is past that of the rows.
fn faults_together<T: StopTimes>(
    alloc: Global,
    times: &T,
) -> Result<Option<Vec<OrderFaults>>, AllocError>
    ensures together { IfOk result (λ found. IfSome found (λ faults. AreFaults (T.times times.now) faults.items)) }
    ensures scattered { IfOk result (λ found. IfNone found (AreScattered (T.times times.now))) }
{
    let mut begun = vec![in alloc; false; times.len()]?;
    let file = OrderedTimes { times, keys: &[] };
    let mut faults = Vec::new(alloc);
    let mut latest = None;
    for row in 0..times.len() {
        if !follows(&mut begun, times, row) {
            return Ok(None);
        }
        file.judge(row, &mut latest, &mut faults)?;
    }
    Ok(Some(faults))
}

/// What is wrong with each row among those of its trip, an empty list where nothing is, under every text of trips by
/// which a row's trip has the rows that it has by number.
///
/// # Errors
/// Want of memory.
pub fn order_faults<T: StopTimes>(alloc: Global, times: &T) -> Result<Vec<OrderFaults>, AllocError>
    requires { length (T.times times.now) < 2 ^ 32 }
    ensures count { IfOk result (λ faults. AreAllOrNone (length (T.times times.now)) faults.items) }
    ensures value { IfOk result (λ faults. (text : ℕ → List ℕ) (row : ℕ) → row < length (T.times times.now) → IsOneTrip (T.times times.now) text row → get_or faults.items row no_faults ≡ faults_at (named_times (T.times times.now) text) row) }
{
    if let Some(faults) = faults_together(alloc, times)? {
        return Ok(faults);
    }
    let keys = sorted_keys(alloc, times)?;
    let order = OrderedTimes { times, keys: &keys };
    let mut faults = Vec::new(alloc);
    let mut latest = None;
    for place in 0..times.len() {
        order.judge(place, &mut latest, &mut faults)?;
    }
    Ok(faults)
}
