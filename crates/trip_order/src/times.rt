//! The times of a stop time.
ghost use Rattle.std.specs.Prelude.{◌≡◌};
ghost use Rattle.feed_rows.specs.Calls.{first_time as first_time_of, last_time as last_time_of, is_timed as is_row_timed};

use feed_rows::StopTimeRow;

/// When a row's stop is reached, in seconds of the service day: its arrival, or else its departure.
pub fn first_time(row: StopTimeRow) -> Option<u32>
    ensures { result ≡ first_time_of row }
{
    row.arrival.seconds().or(row.departure.seconds())
}

/// When a row's stop is left, in seconds of the service day: its departure, or else its arrival.
pub fn last_time(row: StopTimeRow) -> Option<u32>
    ensures { result ≡ last_time_of row }
{
    row.departure.seconds().or(row.arrival.seconds())
}

/// Whether a row has a time.
pub fn is_timed(row: StopTimeRow) -> bool
    ensures { result ≡ is_row_timed row }
{
    first_time(row).is_some()
}
