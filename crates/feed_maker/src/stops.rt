//! The files of stops: `stops.txt` and `stop_areas.txt`, row by row of the square, and in a row column by column.
ghost use Rattle.std.specs.Prelude.{◌≡◌, ◌≤◌, ◌<◌, ◌++◌, IfOk, OnOk};
ghost use Rattle.feed_rows.specs.GeneratedFeed.{stops_file, stop_areas_file};
ghost use Rattle.feed_maker.specs.FileTexts.{stop_line, stop_lines, stop_area_line, stop_area_lines};

use crate::file_text::FileText;
use std::alloc::{AllocError, Global};

// Adds the row of a stop.
#[tactic(auto, unfolding(crate::specs::FileTexts::stop_line))]
fn push_stop(file: &mut FileText, row: u32, column: u32) -> Result<(), AllocError>
    ensures { OnOk result (file.new ≡ file.old ++ stop_line row column) }
{
    file.stop(row, column)?;
    file.end()
}

// Adds the rows of the stops in a row of the square.
#[tactic(auto, unfolding(crate::specs::FileTexts::stop_lines))]
fn push_stops(file: &mut FileText, lines: u32, row: u32) -> Result<(), AllocError>
    ensures { OnOk result (file.new ≡ file.old ++ stop_lines lines row) }
{
    for column in 0..lines {
        push_stop(file, row, column)?;
    }
    Ok(())
}

/// The text of `stops.txt`.
///
/// # Errors
/// Want of memory.
#[tactic(auto, using(crate::proofs::FileLaws::stops_text))]
pub fn stops_file(alloc: Global, lines: u32) -> Result<FileText, AllocError>
    ensures { IfOk result (λ file. file ≡ stops_file lines) }
{
    let mut file = FileText::of(alloc, b"stop_id\n")?;
    for row in 0..lines {
        push_stops(&mut file, lines, row)?;
    }
    Ok(file)
}

// Adds the row of a stop's area.
#[tactic(auto, unfolding(crate::specs::FileTexts::stop_area_line))]
fn push_stop_area(file: &mut FileText, lines: u32, row: u32, column: u32) -> Result<(), AllocError>
    requires row { row < 32 }
    requires column { column < 32 }
    ensures { OnOk result (file.new ≡ file.old ++ stop_area_line lines row column) }
{
    file.area(lines, row, column)?;
    file.comma()?;
    file.stop(row, column)?;
    file.end()
}

// Adds the rows of the areas of the stops in a row of the square.
#[tactic(auto, unfolding(crate::specs::FileTexts::stop_area_lines))]
fn push_stop_areas(file: &mut FileText, lines: u32, row: u32) -> Result<(), AllocError>
    requires lines { lines ≤ 32 }
    requires row { row < 32 }
    ensures { OnOk result (file.new ≡ file.old ++ stop_area_lines lines row) }
{
    for column in 0..lines {
        push_stop_area(file, lines, row, column)?;
    }
    Ok(())
}

/// The text of `stop_areas.txt`.
///
/// # Errors
/// Want of memory.
#[tactic(auto, using(crate::proofs::FileLaws::stop_areas_text))]
pub fn stop_areas_file(alloc: Global, lines: u32) -> Result<FileText, AllocError>
    requires { lines ≤ 32 }
    ensures { IfOk result (λ file. file ≡ stop_areas_file lines) }
{
    let mut file = FileText::of(alloc, b"area_id,stop_id\n")?;
    for row in 0..lines {
        push_stop_areas(&mut file, lines, row)?;
    }
    Ok(file)
}
