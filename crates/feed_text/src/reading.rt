//! The first faults of a file: as a whole, and of its header.
ghost use Rattle.std.specs.Prelude.{◌≡◌, ◌≤◌, length, IfOk, IfErr, OnOk, None};
ghost use Rattle.std.specs.Str.{is_utf8};
ghost use Rattle.feed_files.specs.HeldFiles.{most_bytes};
ghost use Rattle.feed_faults.specs.Records.{table_of_bytes};
ghost use Rattle.feed_faults.specs.FormFaults.{header_fault, form_fault_of_bytes};
ghost use Rattle.feed_text.specs.RowLimits.{row_limit};
ghost use Rattle.feed_text.specs.TextErrors.{IsErrorOf};

use crate::errors::{TextError, column_fault, file_fault};
use crate::table::{Table, table_within};
use feed_faults::{EmptyField, rule_of};
use feed_files::{FaultKind, FeedFault, FileName};
use std::alloc::Global;

/// The first fault of a table's header: every doubled column comes before every missing one.
#[tactic(auto, unfolding(feed_faults::specs::FormFaults::header_fault))]
pub fn header_fault(file: FileName, table: &Table) -> Option<FeedFault>
    ensures { result ≡ header_fault file table.now }
{
    let rules = rule_of(file).columns;
    if let Some(rule) = rules.iter().find(|rule| table.is_twice(rule.name)) {
        return Some(column_fault(file, rule.name, FaultKind::DoubledColumn));
    }
    let rule = rules.iter().find(|rule| rule.empty != EmptyField::Fine && !table.has(rule.name))?;
    Some(column_fault(file, rule.name, FaultKind::MissingColumn))
}

/// Whether the bytes are UTF-8.
pub fn is_text(bytes: &[u8]) -> bool
    ensures { result ≡ is_utf8 bytes.now }
{
    std::str::from_utf8(bytes).is_ok()
}

impl Table {
    /// The table of a file's bytes: its records as csv reads them, behind one byte order mark, each field without the blanks
    /// at its ends. A file without a record makes a table without rows and columns.
    ///
    /// `Fault` is the first of NotUtf8, MissingFile (where the file is needed), TooManyRows (more than `max_rows` data rows),
    /// DoubledColumn and MissingColumn. What is wrong with rows and fields isn't looked at.
    pub fn read(
        alloc: Global,
        bytes: &[u8],
        file: FileName,
        needed: bool,
        max_rows: u32,
    ) -> Result<Table, TextError>
        requires bytes { length bytes.now ≤ most_bytes }
        requires rows { max_rows ≤ row_limit }
        ensures fault { IfErr result (λ error. IsErrorOf (form_fault_of_bytes needed max_rows file bytes.now) error) }
        ensures sound { OnOk result (form_fault_of_bytes needed max_rows file bytes.now ≡ None) }
        ensures table { IfOk result (λ table. table ≡ table_of_bytes bytes.now) }
    {
        if !is_text(bytes) {
            return Err(TextError::Fault(file_fault(file, FaultKind::NotUtf8)));
        }
        let Some(table) = table_within(alloc, bytes, max_rows)? else {
            return Err(TextError::Fault(file_fault(file, FaultKind::TooManyRows)));
        };
        if table.is_empty() {
            if needed {
                return Err(TextError::Fault(file_fault(file, FaultKind::MissingFile)));
            }
            return Ok(table);
        }
        if let Some(fault) = header_fault(file, &table) {
            return Err(TextError::Fault(fault));
        }
        Ok(table)
    }
}
