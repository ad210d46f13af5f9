//! A file's table with what its rows tell, or their first fault.
ghost use Rattle.std.specs.Prelude.{◌≡◌, ◌<◌, None, IfOk, IfErr, OnOk};
ghost use Rattle.feed_faults.specs.FormFaults.{form_fault_of_rows};
ghost use Rattle.feed_faults.specs.Records.{field, row_count};
ghost use Rattle.feed_text.specs.FieldNumbers.{numbers_of};
ghost use Rattle.feed_text.specs.TextErrors.{IsErrorOf};
ghost use Rattle.feed_tables.specs.RowNumbers.{numbers_by_row};

use feed_files::{FaultKind, FileName};
use feed_text::{Table, TextError, read_fields, row_fault};
use item_groups::Groups;
use std::alloc::Global;
use std::marker::Model;

/// A file's table, and what its rows tell. Contracts see it as the file and the table.
pub struct ReadTable {
    file: FileName,
    table: Table,
    numbers: Groups<Option<i64>>,
}

// Written out, so that what holds one needn't look into it to let go of it.
impl Drop for ReadTable {
    fn drop(self) {
        let ReadTable {
            file: _,
            table: _,
            numbers: _,
        } = self;
    }
}

impl Model for ReadTable {
    ghost use Rattle.std.specs.Prelude.{◌≡◌};
    ghost use Rattle.feed_tables.specs.RowNumbers.{TableOf, numbers_by_row};

    ghost Value = { TableOf };

    ghost view = { λ t. record { file = t.file; table = t.table } };

    ghost invariant = { λ t. t.numbers ≡ numbers_by_row t.file t.table };
}

// What the rows of a table tell, row by row. `Fault` is their first fault. Of a row it is first that it is long, which is a
// field past the header.
fn read_rows(alloc: Global, file: FileName, table: &Table) -> Result<Groups<Option<i64>>, TextError>
    ensures fault { IfErr result (IsErrorOf (form_fault_of_rows file table.now)) }
    ensures sound { OnOk result (form_fault_of_rows file table.now ≡ None) }
    ensures numbers { IfOk result (λ rows. rows ≡ numbers_by_row file table.now) }
{
    let mut numbers = Vec::new(alloc);
    let mut rows = Groups::empty(alloc);
    for row in 0..table.rows() {
        if table.is_long(row) {
            return Err(TextError::Fault(row_fault(file, row, FaultKind::LongRow)));
        }
        if let Some(fault) = read_fields(file, row, &table.row(row), &mut numbers)? {
            return Err(TextError::Fault(fault));
        }
        rows.push(&numbers)?;
    }
    Ok(rows)
}

impl ReadTable {
    /// The table with what its rows tell. `Fault` is the first fault of its rows.
    pub fn of(alloc: Global, file: FileName, table: Table) -> Result<ReadTable, TextError>
        ensures fault { IfErr result (IsErrorOf (form_fault_of_rows file table)) }
        ensures sound { OnOk result (form_fault_of_rows file table ≡ None) }
        ensures is { IfOk result (λ read. read ≡ record { file = file; table = table }) }
    {
        let numbers = read_rows(alloc, file, &table)?;
        Ok(ReadTable {
            file,
            table,
            numbers,
        })
    }

    /// The table.
    pub fn table(&self) -> &Table
        ensures { result.now ≡ self.now.table }
    {
        &self.table
    }

    /// What a row tells: of each column that is judged, in their order, the number of the field; none where it is empty, or
    /// an id.
    #[tactic(auto, using(crate::proofs::NumberLaws::kept_within, crate::proofs::NumberLaws::kept_row))]
    pub fn numbers(&self, row: u32) -> &[Option<i64>]
        requires { row < row_count self.now.table }
        ensures { result.now ≡ numbers_of self.now.file (field self.now.table row) }
    {
        self.numbers.group(row as usize)
    }
}
