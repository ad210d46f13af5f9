//! The files of routes and trips: `routes.txt`, and `trips.txt` with 24 trips of each route.
ghost use Rattle.std.specs.Prelude.{◌≡◌, ◌≤◌, ◌<◌, ◌++◌, IfOk, OnOk};
ghost use Rattle.feed_rows.specs.GeneratedFeed.{routes_file, trips_file};
ghost use Rattle.feed_maker.specs.FileTexts.{route_line, trip_line, trip_lines};

use crate::file_text::FileText;
use std::alloc::{AllocError, Global};

/// How many trips each route has.
pub const TRIPS: u32 = 24;

// Adds the row of a route.
#[tactic(auto, unfolding(crate::specs::FileTexts::route_line))]
fn push_route(file: &mut FileText, lines: u32, route: u32) -> Result<(), AllocError>
    ensures { OnOk result (file.new ≡ file.old ++ route_line lines route) }
{
    file.route(lines, route)?;
    file.comma()?;
    file.network(route)?;
    file.end()
}

/// The text of `routes.txt`.
///
/// # Errors
/// Want of memory.
#[tactic(auto, using(crate::proofs::FileLaws::routes_text))]
pub fn routes_file(alloc: Global, lines: u32) -> Result<FileText, AllocError>
    requires { lines ≤ 32 }
    ensures { IfOk result (λ file. file ≡ routes_file lines) }
{
    let mut file = FileText::of(alloc, b"route_id,network_id\n")?;
    for route in 0..2 * lines {
        push_route(&mut file, lines, route)?;
    }
    Ok(file)
}

// Adds the row of a trip.
#[tactic(auto, unfolding(crate::specs::FileTexts::trip_line))]
fn push_trip(file: &mut FileText, lines: u32, route: u32, trip: u32) -> Result<(), AllocError>
    ensures { OnOk result (file.new ≡ file.old ++ trip_line lines route trip) }
{
    file.route(lines, route)?;
    file.text(b",W,")?;
    file.trip(lines, route, trip)?;
    file.end()
}

// Adds the rows of a route's trips.
#[tactic(auto, unfolding(crate::specs::FileTexts::trip_lines))]
fn push_trips(file: &mut FileText, lines: u32, route: u32) -> Result<(), AllocError>
    ensures { OnOk result (file.new ≡ file.old ++ trip_lines lines route) }
{
    for trip in 0..TRIPS {
        push_trip(file, lines, route, trip)?;
    }
    Ok(())
}

/// The text of `trips.txt`.
///
/// # Errors
/// Want of memory.
#[tactic(auto, using(crate::proofs::FileLaws::trips_text))]
pub fn trips_file(alloc: Global, lines: u32) -> Result<FileText, AllocError>
    requires { lines ≤ 32 }
    ensures { IfOk result (λ file. file ≡ trips_file lines) }
{
    let mut file = FileText::of(alloc, b"route_id,service_id,trip_id\n")?;
    for route in 0..2 * lines {
        push_trips(&mut file, lines, route)?;
    }
    Ok(file)
}
