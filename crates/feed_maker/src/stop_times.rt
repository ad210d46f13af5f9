//! The file of stop times: `stop_times.txt`, trip by trip, and in a trip stop by stop.
ghost use Rattle.std.specs.Prelude.{◌≡◌, ◌≤◌, ◌<◌, ◌++◌, IfOk, OnOk};
ghost use Rattle.transit_base.specs.Limits.{most_time};
ghost use Rattle.feed_rows.specs.GeneratedFeed.{stop_times_file};
ghost use Rattle.feed_maker.specs.FileTexts.{call_front, call_times, call_line, call_lines, timed_lines};

use crate::draws::{Draws, Pace};
use crate::file_text::FileText;
use crate::routes::TRIPS;
use std::alloc::{AllocError, Global};

// The second of the service day from which trips depart: 06:00:00.
const FIRST_DEPARTURE: u32 = 21_600;

// The seconds from each trip of a route to the next.
const HEADWAY: u32 = 600;

// Adds the fields of a trip, of its stop at a position, and of the position.
#[tactic(auto, unfolding(crate::specs::FileTexts::call_front))]
fn push_front(
    file: &mut FileText,
    lines: u32,
    route: u32,
    trip: u32,
    position: u32,
) -> Result<(), AllocError>
    ensures { OnOk result (file.new ≡ file.old ++ call_front lines route trip position) }
{
    file.trip(lines, route, trip)?;
    file.comma()?;
    file.route_stop(lines, route, position)?;
    file.comma()?;
    file.number(position)
}

// Adds the times of a trip that arrives and departs at once.
#[tactic(auto, unfolding(crate::specs::FileTexts::call_times))]
fn push_times(file: &mut FileText, second: u32) -> Result<(), AllocError>
    requires { second ≤ most_time }
    ensures { OnOk result (file.new ≡ file.old ++ call_times second) }
{
    file.comma()?;
    file.time(second)?;
    file.comma()?;
    file.time(second)
}

// Adds the row of a trip at a position of its route.
#[tactic(auto, unfolding(crate::specs::FileTexts::call_line, crate::specs::FileTexts::call_front, crate::specs::FileTexts::call_times))]
fn push_call(
    file: &mut FileText,
    lines: u32,
    route: u32,
    trip: u32,
    position: u32,
    second: u32,
) -> Result<(), AllocError>
    requires { second ≤ most_time }
    ensures { OnOk result (file.new ≡ file.old ++ call_line lines route trip position second) }
{
    push_front(file, lines, route, trip, position)?;
    push_times(file, second)?;
    file.end()
}

// Adds the rows of a trip that departs at a second of the service day.
#[tactic(auto, unfolding(crate::specs::FileTexts::call_lines))]
fn push_calls(
    file: &mut FileText,
    lines: u32,
    route: u32,
    trip: u32,
    departure: u32,
    hop: u32,
) -> Result<(), AllocError>
    requires lines { lines ≤ 32 }
    requires departure { departure < 40_000 }
    requires hop { hop < 180 }
    ensures { OnOk result (file.new ≡ file.old ++ call_lines lines route trip departure hop) }
{
    for position in 0..lines {
        push_call(
            file,
            lines,
            route,
            trip,
            position,
            departure + position * hop,
        )?;
    }
    Ok(())
}

// Adds the rows of a route's trips.
#[tactic(auto, unfolding(crate::specs::FileTexts::timed_lines))]
fn push_timed(file: &mut FileText, lines: u32, route: u32, pace: Pace) -> Result<(), AllocError>
    requires lines { lines ≤ 32 }
    requires offset { pace.offset < 10 }
    requires hop { pace.hop < 180 }
    ensures { OnOk result (file.new ≡ file.old ++ timed_lines lines route pace) }
{
    for trip in 0..TRIPS {
        let departure = FIRST_DEPARTURE + HEADWAY * trip + 60 * pace.offset;
        push_calls(file, lines, route, trip, departure, pace.hop)?;
    }
    Ok(())
}

/// The text of `stop_times.txt`.
///
/// # Errors
/// Want of memory.
#[tactic(auto, using(crate::proofs::DrawLaws::pace_drawn, crate::proofs::DrawLaws::next_drawn, crate::proofs::FileLaws::stop_times_text))]
pub fn stop_times_file(alloc: Global, seed: u32, lines: u32) -> Result<FileText, AllocError>
    requires seed { seed ≤ 65_535 }
    requires lines { lines ≤ 32 }
    ensures { IfOk result (λ file. file ≡ stop_times_file seed lines) }
{
    let mut file = FileText::of(
        alloc,
        b"trip_id,stop_id,stop_sequence,arrival_time,departure_time\n",
    )?;
    let mut draws = Draws::new(seed);
    for route in 0..2 * lines {
        let pace = draws.pace();
        push_timed(&mut file, lines, route, pace)?;
    }
    Ok(file)
}
