//! All files of a generated feed.
ghost use Rattle.std.specs.Prelude.{◌≡◌, ◌≤◌, IfOk, OnOk};
ghost use Rattle.feed_rows.specs.GeneratedFeed.{generated};
ghost use Rattle.folder_io.specs.KeptFiles.{AreWithin, held_in};
ghost use Rattle.feed_maker.specs.MadeFiles.{with_text, with_trips, with_fares};

use crate::fares::{
    areas_file, calendar_file, fare_leg_rules_file, fare_products_file, fare_transfer_rules_file,
    timeframes_file,
};
use crate::routes::{routes_file, trips_file};
use crate::stop_times::stop_times_file;
use crate::stops::{stop_areas_file, stops_file};
use feed_files::FileName;
use folder_io::{ByteText, FileBytes, Files};
use std::alloc::{AllocError, Global};

// Puts the text of a file.
fn put(alloc: Global, files: &mut Files, name: FileName, text: &[u8]) -> Result<(), AllocError>
    ensures { OnOk result (files.new ≡ with_text name text.now files.old) }
{
    let bytes = ByteText::copy_of(alloc, text)?;
    files.put(name, FileBytes::Bytes(bytes));
    Ok(())
}

// Puts the files of the square, its routes and their trips.
#[tactic(auto, unfolding(crate::specs::MadeFiles::with_trips))]
fn put_trips(alloc: Global, files: &mut Files, seed: u32, lines: u32) -> Result<(), AllocError>
    requires seed { seed ≤ 65_535 }
    requires lines { lines ≤ 32 }
    ensures { OnOk result (files.new ≡ with_trips seed lines files.old) }
{
    let stops = stops_file(alloc, lines)?;
    put(alloc, files, FileName::Stops, stops.bytes())?;
    let routes = routes_file(alloc, lines)?;
    put(alloc, files, FileName::Routes, routes.bytes())?;
    let trips = trips_file(alloc, lines)?;
    put(alloc, files, FileName::Trips, trips.bytes())?;
    let stop_times = stop_times_file(alloc, seed, lines)?;
    put(alloc, files, FileName::StopTimes, stop_times.bytes())?;
    let stop_areas = stop_areas_file(alloc, lines)?;
    put(alloc, files, FileName::StopAreas, stop_areas.bytes())
}

// Puts the calendar and the rules of fares.
#[tactic(auto, unfolding(crate::specs::MadeFiles::with_fares))]
fn put_fares(alloc: Global, files: &mut Files) -> Result<(), AllocError>
    ensures { OnOk result (files.new ≡ with_fares files.old) }
{
    put(alloc, files, FileName::Calendar, calendar_file())?;
    put(alloc, files, FileName::Areas, areas_file())?;
    put(alloc, files, FileName::Timeframes, timeframes_file())?;
    put(alloc, files, FileName::FareProducts, fare_products_file())?;
    put(alloc, files, FileName::FareLegRules, fare_leg_rules_file())?;
    put(
        alloc,
        files,
        FileName::FareTransferRules,
        fare_transfer_rules_file(),
    )
}

/// The files of the feed that is generated of a seed up to 65,535: a square of stops with so many lines along its rows
/// and as many along its columns, up to 32 of each. The other files of a feed are absent.
///
/// # Errors
/// Want of memory.
pub fn gen_files(alloc: Global, seed: u32, lines: u32) -> Result<Files, AllocError>
    requires seed { seed ≤ 65_535 }
    requires lines { lines ≤ 32 }
    ensures files { IfOk result (λ files. held_in files ≡ generated seed lines) }
    ensures within { IfOk result AreWithin }
{
    let mut files = Files::empty();
    put_trips(alloc, &mut files, seed, lines)?;
    put_fares(alloc, &mut files)?;
    Ok(files)
}
