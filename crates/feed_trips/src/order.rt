//! The calls and the frequency rows of a feed, trip by trip.
ghost use Rattle.std.specs.Prelude.{◌≡◌, ◌<◌, ◌^◌, map, AllPairs, length, IfOk};
ghost use Rattle.std.specs.List.Sorted.{IsPermutation};
ghost use Rattle.feed_rows.specs.declared.rows.FrequencyRow.{FrequencyRow};
ghost use Rattle.feed_trips.specs.Tables.{IsInOrder, trip_calls, trip_runs};

use crate::calls::TripCalls;
use crate::together::together_of;
use feed_rows::{Feed, FrequencyRow, StopTimeRow};
use item_groups::{Grouped, Groups};
use std::alloc::{AllocError, Global};
use std::borrow::CowSlice;
use trip_order::sorted_keys;

/// The stop times by trip, and those of a trip by their sequence.
///
/// # Errors
/// Want of memory.
pub fn sorted_stop_times(
    alloc: Global,
    rows: &[StopTimeRow],
) -> Result<Vec<StopTimeRow>, AllocError>
    requires { length rows.now < 2 ^ 32 }
    ensures moved { IfOk result (λ sorted. IsPermutation rows.now sorted.items) }
    ensures sorted { IfOk result (λ sorted. AllPairs IsInOrder sorted.items) }
{
    let keys = sorted_keys(alloc, rows)?;
    let mut sorted = Vec::with_capacity(alloc, rows.len())?;
    for key in &keys {
        sorted.push(rows[key.row as usize])?;
    }
    Ok(sorted)
}

// The calls of each trip, from the feed's stop times in order.
fn calls_of_sorted<'f>(
    alloc: Global,
    feed: &'f Feed,
    rows: Vec<StopTimeRow>,
) -> Result<TripCalls<'f>, AllocError>
    requires moved { IsPermutation feed.now.stop_times rows.items }
    requires sorted { AllPairs IsInOrder rows.items }
    ensures { IfOk result (λ calls. calls ≡ trip_calls feed.now) }
{
    let trips = feed.trips.items();
    let Some(found) = together_of(alloc, &rows, trips.len())? else {
        unreachable!();
    };
    Ok(TripCalls::of(CowSlice::Owned(rows), found.stretches, found.times))
}

/// The calls of each trip. Where the rows of each trip stand together and in order they are left as
/// they stand, otherwise they are copied in order.
///
/// # Errors
/// Want of memory.
pub fn calls_by_trip<'f>(alloc: Global, feed: &'f Feed) -> Result<TripCalls<'f>, AllocError>
    ensures { IfOk result (λ calls. calls ≡ trip_calls feed.now) }
{
    let rows = feed.stop_times.items();
    let trips = feed.trips.items();
    if let Some(found) = together_of(alloc, rows, trips.len())? {
        return Ok(TripCalls::of(CowSlice::Borrowed(rows), found.stretches, found.times));
    }
    let sorted = sorted_stop_times(alloc, rows)?;
    calls_of_sorted(alloc, feed, sorted)
}

// The frequency rows with the numbers of their trips.
fn numbered_runs(
    alloc: Global,
    rows: &[FrequencyRow],
) -> Result<Vec<Grouped<FrequencyRow>>, AllocError>
    ensures { IfOk result (λ runs. runs.items ≡ map (λ (f : FrequencyRow). record { group = f.trip.0; item = f }) rows.now) }
{
    rows.iter()
        .map(|row| Grouped {
            group: row.trip.0,
            item: *row,
        })
        .collect(alloc)
}

/// The frequency rows of each trip, in file order.
///
/// # Errors
/// Want of memory.
pub fn runs_by_trip(alloc: Global, feed: &Feed) -> Result<Groups<FrequencyRow>, AllocError>
    ensures { IfOk result (λ runs. runs ≡ trip_runs feed.now) }
{
    let numbered = numbered_runs(alloc, feed.frequencies.items())?;
    let trips = feed.trips.items();
    let runs = Groups::of(alloc, numbered, trips.len() as u32)?;
    Ok(runs)
}
