//! The tables of files, read and judged one by one.
ghost use Rattle.std.specs.Prelude.{◌≡◌, ◌≢◌, None, map, IfOk, IfErr, OnOk};
ghost use Rattle.plain_laws.specs.Plain.{first_in};
ghost use Rattle.feed_files.specs.declared.names.FileName.{FileName};
ghost use Rattle.feed_files.specs.Names.{place};
ghost use Rattle.feed_files.specs.HeldFiles.{most_bytes};
ghost use Rattle.feed_faults.specs.FeedTables.{table_of};
ghost use Rattle.feed_faults.specs.FormFaults.{is_needed, form_fault};
ghost use Rattle.feed_text.specs.TextErrors.{IsErrorOf};
ghost use Rattle.feed_tables.specs.LeftFiles.{AreLeftBehind};
ghost use Rattle.feed_tables.specs.RowNumbers.{held_fault_before_rows, read_of, AreInOrder};
ghost use Rattle.folder_io.specs.KeptFiles.{file_in, held_of, held_in, IsWithin, AreWithin};

use crate::rows::ReadTable;
use feed_faults::rule_of;
use feed_files::{FaultKind, FileName};
use feed_text::{Table, TextError, file_fault, has_record};
use folder_io::{FileBytes, Files};
use std::alloc::{AllocError, Global};

/// The greatest number of data rows of a file.
pub const MOST_ROWS: u32 = 4_000_000;

// Whether a feed of these files needs the file.
fn is_needed(alloc: Global, files: &Files, file: FileName) -> Result<bool, AllocError>
    ensures { IfOk result (λ needed. needed ≡ is_needed (held_in files.now) file) }
{
    if file != FileName::Calendar {
        return Ok(rule_of(file).is_needed);
    }
    // Dates that are too large count as having records.
    match files.get(FileName::CalendarDates) {
        FileBytes::Absent => Ok(true),
        FileBytes::TooLarge => Ok(false),
        FileBytes::Bytes(text) => Ok(!has_record(alloc, text.bytes())?),
    }
}

// The table of what is held of a file, judged before its rows.
fn table_of_held(
    alloc: Global,
    held: &FileBytes,
    file: FileName,
    needed: bool,
) -> Result<Table, TextError>
    requires { IsWithin most_bytes held.now }
    ensures fault { IfErr result (IsErrorOf (held_fault_before_rows needed file (held_of held.now))) }
    ensures sound { OnOk result (held_fault_before_rows needed file (held_of held.now) ≡ None) }
    ensures table { IfOk result (λ table. table ≡ table_of (held_of held.now)) }
{
    match held {
        FileBytes::Bytes(text) => Table::read(alloc, text.bytes(), file, needed, MOST_ROWS),
        FileBytes::TooLarge => Err(TextError::Fault(file_fault(file, FaultKind::FileTooLarge))),
        FileBytes::Absent if needed => {
            Err(TextError::Fault(file_fault(file, FaultKind::MissingFile)))
        }
        FileBytes::Absent => Ok(Table::empty(alloc)),
    }
}

// The table of a file, judged by itself, whose bytes are let go of. `Fault` is the file's first fault.
#[tactic(auto, unfolding(feed_faults::specs::FormFaults::form_fault), using(crate::proofs::HeldLaws::held_both, crate::proofs::PassLaws::error_first, crate::proofs::PassLaws::error_later))]
fn read_file(alloc: Global, files: &mut Files, file: FileName) -> Result<ReadTable, TextError>
    requires { AreWithin files.old }
    ensures fault { IfErr result (IsErrorOf (form_fault (held_in files.old) file)) }
    ensures sound { OnOk result (form_fault (held_in files.old) file ≡ None) }
    ensures table { IfOk result (λ read. read ≡ read_of (held_in files.old) file) }
    ensures others { (other : FileName) → place other ≢ place file → file_in files.new other ≡ file_in files.old other }
    ensures within { AreWithin files.new }
{
    let needed = is_needed(alloc, files, file)?;
    let table = table_of_held(alloc, files.get(file), file, needed)?;
    files.put(file, FileBytes::Absent);
    ReadTable::of(alloc, file, table)
}

/// The tables of files that follow one another in the order of the files. The bytes of each are let go of once its table
/// stands.
///
/// # Errors
/// Their first fault: of the files in their order, as a whole, then of the header, then row by row and in a row column by
/// column; want of memory.
pub fn read_tables(
    alloc: Global,
    files: &mut Files,
    names: &[FileName],
) -> Result<Vec<ReadTable>, TextError>
    requires within { AreWithin files.old }
    requires order { AreInOrder names.now }
    ensures fault { IfErr result (IsErrorOf (first_in names.now (form_fault (held_in files.old)))) }
    ensures sound { OnOk result (first_in names.now (form_fault (held_in files.old)) ≡ None) }
    ensures tables { IfOk result (λ tables. tables.items ≡ map (read_of (held_in files.old)) names.now) }
    ensures left { OnOk result (AreLeftBehind files.old files.new names.now) }
    ensures still_within { AreWithin files.new }
{
    let mut tables = Vec::with_capacity(alloc, names.len())?;
    for (i, file) in names.iter().enumerate() {
        let table = read_file(alloc, files, *file)?;
        tables.push(table).map_err(AllocError::from)?;
    }
    Ok(tables)
}
