//! The calls of trips, made from the rows as they are asked for.
ghost use Rattle.std.specs.Prelude.{◌≡◌, ◌<◌, ◌≤◌, ◌⊎◌, ◌==◌, length, Some, slice_get, slice_range};
ghost use Rattle.std.specs.Cow.{cow_slice_items};
ghost use Rattle.feed_rows.specs.CallPass.{pass};
ghost use Rattle.feed_trips.specs.Filled.{AreFilled, AreKept, call_of};
ghost use Rattle.feed_trips.specs.Stretches.{stretch_calls};

use crate::together::Stretch;
use feed_rows::{Call, StopTimeRow};
use std::borrow::CowSlice;
use std::marker::Model;
use trip_order::{first_time, is_timed, last_time};

/// The calls of a trip, in order: each is made of its row as it is asked for. Contracts see them as
/// their list.
pub struct Calls<'t> {
    /// The trip's rows, in order of their sequence.
    rows: &'t [StopTimeRow],
    /// Beside each row without a time the one that is filled in; may be empty where each row has a
    /// time.
    times: &'t [u32],
}

// Written out, so that what holds one needn't look into it to let go of it.
impl<'t> Drop for Calls<'t> {
    fn drop(self) {
        let Calls { rows: _, times: _ } = self;
    }
}

impl<'t> Model for Calls<'t> {
    ghost use Rattle.std.specs.Prelude.{List};
    ghost use Rattle.feed_rows.specs.declared.journeys.Call.{Call};
    ghost use Rattle.feed_rows.specs.CallPass.{pass};
    ghost use Rattle.feed_trips.specs.Filled.{AreFilled};

    ghost Value = { List Call };

    ghost view = { λ s. pass s.rows.now };

    ghost invariant = { λ s. AreFilled s.rows.now s.times.now };
}

impl<'t> Calls<'t> {
    // The calls of these rows, with these times filled in.
    fn of(rows: &'t [StopTimeRow], times: &'t [u32]) -> Calls<'t>
        requires { AreFilled rows.now times.now }
        ensures { result ≡ pass rows.now }
    {
        Calls { rows, times }
    }

    /// How many calls there are.
    pub fn len(&self) -> usize
        ensures { result ≡ length self.now }
    {
        self.rows.len()
    }

    /// Whether there is no call.
    pub fn is_empty(&self) -> bool
        ensures { result ≡ (length self.now == 0) }
    {
        self.rows.is_empty()
    }

    /// The call at a position.
    pub fn at(&self, position: usize) -> Call
        requires { position < length self.now }
        ensures { slice_get self.now position ≡ Some result }
    {
        let rows = self.rows;
        let row = &rows[position];
        if is_timed(*row) {
            let arrival = first_time(*row).unwrap_or(0);
            return call_of(row, arrival, last_time(*row).unwrap_or(0));
        }
        let times = self.times;
        let time = times[position];
        call_of(row, time, time)
    }

    /// The call at a position; none past the last.
    pub fn get(&self, position: usize) -> Option<Call>
        ensures { result ≡ slice_get self.now position }
    {
        if position < self.len() {
            Some(self.at(position))
        } else {
            None
        }
    }
}

// The call of a row, with these times.
fn call_of(row: &StopTimeRow, arrival: u32, departure: u32) -> Call
    ensures { result ≡ call_of row.now arrival departure }
{
    Call {
        stop: row.stop,
        sequence: row.sequence,
        arrival,
        departure,
        pickup: row.pickup,
        drop_off: row.drop_off,
    }
}

// The times that are kept at a stretch; none where none are kept.
fn times_of(times: &[u32], stretch: Stretch) -> &[u32]
    requires forward { stretch.from ≤ stretch.to }
    requires within { (length times.now ≡ 0) ⊎ (stretch.to ≤ length times.now) }
    ensures { result.now ≡ slice_range times.now stretch.from stretch.to }
{
    if times.is_empty() {
        return times;
    }
    &times[stretch.from as usize..stretch.to as usize]
}

/// The calls of each trip. Contracts see it as the list of the trips' calls.
pub struct TripCalls<'f> {
    /// The feed's own rows where those of each trip stand together and in order, otherwise a sorted
    /// copy.
    rows: CowSlice<'f, StopTimeRow>,
    /// Where the rows of each trip stand.
    stretches: Vec<Stretch>,
    /// Beside each row without a time the one that is filled in, and 0 beside others; empty where each
    /// row has a time.
    times: Vec<u32>,
}

// Written out, so that what holds one needn't look into it to let go of it.
impl<'f> Drop for TripCalls<'f> {
    fn drop(self) {
        let TripCalls {
            rows: _,
            stretches: _,
            times: _,
        } = self;
    }
}

impl<'f> Model for TripCalls<'f> {
    ghost use Rattle.std.specs.Prelude.{List};
    ghost use Rattle.std.specs.Cow.{cow_slice_items};
    ghost use Rattle.feed_rows.specs.declared.journeys.Call.{Call};
    ghost use Rattle.feed_trips.specs.Filled.{AreKept};
    ghost use Rattle.feed_trips.specs.Stretches.{stretch_calls};

    ghost Value = { List (List Call) };

    ghost view = { λ s. stretch_calls (cow_slice_items s.rows) s.stretches.items };

    ghost invariant = { λ s. AreKept (cow_slice_items s.rows) s.stretches.items s.times.items };
}

impl<'f> TripCalls<'f> {
    /// The calls of the rows at each of these stretches, with these times filled in.
    pub fn of(
        rows: CowSlice<'f, StopTimeRow>,
        stretches: Vec<Stretch>,
        times: Vec<u32>,
    ) -> TripCalls<'f>
        requires { AreKept (cow_slice_items rows) stretches.items times.items }
        ensures { result ≡ stretch_calls (cow_slice_items rows.entry) stretches.items }
    {
        TripCalls {
            rows,
            stretches,
            times,
        }
    }

    /// The calls of the trip with this number, in order.
    pub fn of_trip(&self, trip: usize) -> Calls<'_>
        requires { trip < length self.now }
        ensures { slice_get self.now trip ≡ Some result }
    {
        let stretch = self.stretches[trip];
        let rows = &self.rows.as_slice()[stretch.from as usize..stretch.to as usize];
        Calls::of(rows, times_of(&self.times, stretch))
    }
}
