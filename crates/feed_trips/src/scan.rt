//! The next stop time that has a time.
ghost use Rattle.std.specs.Prelude.{◌≡◌, ◌<◌, ◌≤◌, length};
ghost use Rattle.feed_rows.specs.Calls.{first_time as first_time_of};
ghost use Rattle.feed_rows.specs.CallPass.{next_timed, time_or_zero};

use feed_rows::StopTimeRow;
use trip_order::{first_time, is_timed};

// The next position after a position that has a time; the number of rows where there is none.
#[tactic(auto, using(crate::proofs::StretchLaws::timed_scan))]
pub fn next_position(rows: &[StopTimeRow], position: usize) -> usize
    requires inside { position < length rows.now }
    ensures value { result ≡ next_timed rows.now position }
    ensures within { result ≤ length rows.now }
{
    for next in position + 1..rows.len() {
        if is_timed(rows[next]) {
            return next;
        }
    }
    rows.len()
}

// When the row at a position is reached, in seconds of the service day; 0 where it has no time.
pub fn first_time_at(rows: &[StopTimeRow], position: usize) -> u32
    ensures { result ≡ time_or_zero first_time_of rows.now position }
{
    match rows.get(position) {
        Some(row) => first_time(*row).unwrap_or(0),
        None => 0,
    }
}
