//! The times that are filled in at a trip's rows, in one pass.
ghost use Rattle.std.specs.Prelude.{◌≡◌, ℕ, ◌+◌, ◌<◌, ◌≤◌, ◌^◌, length, slice_get};
ghost use Rattle.feed_rows.specs.CallPass.{gap_after, gap_at, time_in};
ghost use Rattle.feed_trips.specs.Filled.{AreFilledFrom};
ghost use Rattle.feed_trips.specs.Gaps.{gap_of, IsCarried, IsWithin};

use crate::scan::{first_time_at, next_position};
use feed_rows::StopTimeRow;
use trip_order::{is_timed, last_time};

// Two timed positions with none between: the one is left and the other reached at these seconds of the service day. Before
// the first timed row all four are 0, and behind the last one the gap ends with the rows and is reached at 0.
#[derive(Clone, Copy)]
struct Gap {
    from: usize,
    left: u32,
    to: usize,
    reached: u32,
}

// The gap that begins at a position.
fn gap_after(rows: &[StopTimeRow], from: usize) -> Gap
    requires { from < length rows.now }
    ensures { gap_of result ≡ gap_after rows.now from }
{
    let to = next_position(rows, from);
    Gap {
        from,
        left: last_time(rows[from]).unwrap_or(0),
        to,
        reached: first_time_at(rows, to),
    }
}

// The gap of a row without a time, given that of the row before where this has none either.
fn gap_at(rows: &[StopTimeRow], position: usize, before: Gap) -> Gap
    requires inside { position < length rows.now }
    requires carried { IsCarried rows.now position before }
    ensures { gap_of result ≡ gap_at rows.now position }
{
    if position > 0 && is_timed(rows[position - 1]) {
        gap_after(rows, position - 1)
    } else {
        before
    }
}

// The time at a position in a gap, laid evenly between the ends; the time of leaving where the gap is reached no later.
fn time_in(gap: Gap, position: usize) -> u32
    requires within { IsWithin gap position }
    requires few { gap.to < 2 ^ 32 }
    ensures { result ≡ time_in (gap_of gap) position }
{
    if gap.reached <= gap.left {
        return gap.left;
    }
    let span = (gap.reached - gap.left) as u64;
    gap.left + ((position - gap.from) as u64 * span / (gap.to - gap.from) as u64) as u32
}

/// Puts the times that are filled in beside the rows of a trip that have none; those rows are in order of their sequence,
/// and their times begin at a place.
pub fn fill_times(times: &mut Vec<u32>, from: usize, rows: &[StopTimeRow])
    requires room { from + length rows.now ≤ length times.old.items }
    requires few { length rows.now < 2 ^ 32 }
    ensures long { length times.new.items ≡ length times.old.items }
    ensures before { (k : ℕ) → k < from → slice_get times.new.items k ≡ slice_get times.old.items k }
    ensures filled { AreFilledFrom from rows.now times.new.items }
{
    let mut gap = Gap {
        from: 0,
        left: 0,
        to: 0,
        reached: 0,
    };
    for m in 0..rows.len() {
        if !is_timed(rows[m]) {
            gap = gap_at(rows, m, gap);
            times[from + m] = time_in(gap, m);
        }
    }
}
