//! A file as a table, kept flat, and its rows.
ghost use Rattle.std.specs.Prelude.{◌≡◌, ◌≤◌, ◌<◌, ◌+◌, ◌^◌, ◌++◌, ◌∷◌, [], ℕ, List, length, get_or, map, is_some, IfOk, OnOk, Some, bytes_eq, nat_le, nat_lt, not, true};
ghost use Rattle.plain_laws.specs.Plain.{when, find_below};
ghost use Rattle.item_groups.specs.Parts.{parts, Rise};
ghost use Rattle.feed_files.specs.Names.{all_columns, column_text};
ghost use Rattle.feed_faults.specs.Records.{table_of_bytes, header, row_count, column_of, field, is_long};
ghost use Rattle.feed_faults.specs.FormFaults.{is_twice};
ghost use Rattle.feed_text.specs.Reader.{StandsBehind, is_going, last_record};
ghost use Rattle.feed_text.specs.RowLimits.{row_limit};
ghost use Rattle.feed_text.specs.DataRows.{one_row};

use crate::fields::is_filled;
use crate::records::Records;
use feed_files::ColumnName;
use item_groups::{Groups, part_of, push_end};
use std::alloc::{AllocError, Global};
use std::io::Read;
use std::marker::Model;

// How many names of columns there are.
const COLUMNS: usize = 60;

/// The fields of a row, by the names of their columns.
pub trait Fields {
    ghost use Rattle.std.specs.Prelude.{◌≡◌};
    ghost use Rattle.feed_faults.specs.Records.{Fields};

    /// What they are.
    ghost at: { Self → Fields };

    /// The field in a column, without the blanks at its ends; empty where the row is short or has no such column.
    fn field(&self, name: ColumnName) -> &[u8]
        ensures { result.now ≡ at self.now name };
}

/// A file as a table: its header and its data rows, which are numbered from 0, each field without the blanks at its ends.
#[derive(Drop)]
pub struct Table {
    // The bytes of all fields, field by field, and where each record ends among the fields.
    fields: Groups<u8>,
    ends: Vec<u32>,
    // The place of each column in the header, in the order of `ColumnName::all`.
    places: [Option<u32>; COLUMNS],
}

impl Model for Table {
    ghost use Rattle.std.specs.Prelude.{◌≡◌, ◌<◌, ◌^◌, length, map};
    ghost use Rattle.item_groups.specs.Parts.{parts, Rise};
    ghost use Rattle.feed_files.specs.Names.{all_columns};
    ghost use Rattle.feed_faults.specs.Records.{FileTable, column_of};

    ghost Value = { FileTable };

    ghost view = { λ t. parts 0 t.ends.items t.fields };

    ghost invariant = { λ t. Rise 0 t.ends.items (length t.fields) × (length t.ends.items < 2 ^ 32) × (t.places ≡ map (column_of (parts 0 t.ends.items t.fields)) all_columns) };
}

// Puts a record behind those that are kept.
fn push_record<R: Read>(
    fields: &mut Groups<u8>,
    ends: &mut Vec<u32>,
    records: &Records<R>,
) -> Result<(), AllocError>
    requires { Rise 0 ends.old.items (length fields.old) }
    ensures rise { OnOk result (Rise 0 ends.new.items (length fields.new)) }
    ensures parts { OnOk result (parts 0 ends.new.items fields.new ≡ parts 0 ends.old.items fields.old ++ last_record records.now ∷ []) }
    ensures count { OnOk result (length ends.new.items ≡ length ends.old.items + 1) }
{
    for place in 0..records.len() {
        fields.push(records.field(place))?;
    }
    push_end(ends, fields.count())
}

// The place of the first column of this name among the fields of a header.
fn place_of(fields: &Groups<u8>, columns: u32, name: ColumnName) -> Option<u32>
    ensures { result ≡ find_below columns (λ c. bytes_eq (get_or fields.now c []) (column_text name)) }
{
    (0..columns).find(|column| fields.get(*column as usize) == name.text().as_bytes())
}

// The place of each column among the fields of a header.
fn places_of(
    alloc: Global,
    fields: &Groups<u8>,
    columns: u32,
) -> Result<Vec<Option<u32>>, AllocError>
    ensures { IfOk result (λ places. places.items ≡ map (λ name. find_below columns (λ c. bytes_eq (get_or fields.now c []) (column_text name))) all_columns) }
{
    ColumnName::all()
        .iter()
        .map(|name| place_of(fields, columns, *name))
        .collect(alloc)
}

// The table of a text's records, of which none was read yet, where they are at most so many data rows.
fn table_of(
    alloc: Global,
    records: &mut Records<&[u8]>,
    max_rows: u32,
) -> Result<Option<Table>, AllocError>
    requires few { max_rows ≤ row_limit }
    requires going { is_going records.old ≡ true }
    ensures { IfOk result (λ table. (text : List ℕ) → StandsBehind (λ s. Some s.now) (Some text) [] records.old → table ≡ when (nat_le (row_count (table_of_bytes text)) max_rows) (table_of_bytes text)) }
{
    let mut fields = Groups::empty(alloc);
    let mut ends = Vec::new(alloc);
    // The header, the rows, and one record more, which is one too many.
    for _ in 0..u64::from(max_rows) + 2 {
        match records.next() {
            Ok(true) => push_record(&mut fields, &mut ends, records)?,
            Ok(false) => return Ok(Some(Table::of(alloc, fields, ends)?)),
            // A read over bytes in memory fails for want of memory alone.
            Err(_) => return Err(AllocError),
        }
    }
    Ok(None)
}

// The table of a file's bytes, where it has at most so many data rows.
pub(crate) fn table_within(
    alloc: Global,
    text: &[u8],
    max_rows: u32,
) -> Result<Option<Table>, AllocError>
    requires { max_rows ≤ row_limit }
    ensures { IfOk result (λ table. table ≡ when (nat_le (row_count (table_of_bytes text.now)) max_rows) (table_of_bytes text.now)) }
{
    let mut records = Records::of(alloc, text);
    table_of(alloc, &mut records, max_rows)
}

/// Whether a file's bytes have a record. No more than two are read.
///
/// # Errors
/// Want of memory.
pub fn has_record(alloc: Global, text: &[u8]) -> Result<bool, AllocError>
    ensures { IfOk result (λ has. has ≡ nat_lt 0 (length (table_of_bytes text.now))) }
{
    match table_within(alloc, text, 0)? {
        Some(table) => Ok(!table.is_empty()),
        None => Ok(true),
    }
}

impl Table {
    /// The table without a record, as of a file that isn't there.
    #[tactic(auto, unfolding(feed_faults::specs::Records::column_of))]
    pub fn empty(alloc: Global) -> Table
        ensures { result ≡ [] }
    {
        Table {
            fields: Groups::empty(alloc),
            ends: Vec::new(alloc),
            places: [None; COLUMNS],
        }
    }

    // The table of these fields, of which the records end at these places.
    fn of(alloc: Global, fields: Groups<u8>, ends: Vec<u32>) -> Result<Table, AllocError>
        requires rise { Rise 0 ends.items (length fields) }
        requires few { length ends.items < 2 ^ 32 }
        ensures { IfOk result (λ table. table ≡ parts 0 ends.items fields) }
    {
        let places = places_of(alloc, &fields, ends.first().copied().unwrap_or(0))?;
        let Some(places) = places.as_array() else {
            unreachable!();
        };
        Ok(Table {
            fields,
            ends,
            places: *places,
        })
    }

    /// The table of the last record alone, which is its header.
    ///
    /// # Errors
    /// Want of memory.
    pub fn of_record<R: Read>(alloc: Global, records: &Records<R>) -> Result<Table, AllocError>
        ensures { IfOk result (λ table. table ≡ last_record records.now ∷ []) }
    {
        let mut fields = Groups::empty(alloc);
        let mut ends = Vec::new(alloc);
        push_record(&mut fields, &mut ends, records)?;
        Table::of(alloc, fields, ends)
    }

    /// Whether there is no record, not even a header.
    #[tactic(auto, using(item_groups::proofs::PartLaws::length_parts))]
    pub fn is_empty(&self) -> bool
        ensures { result ≡ not (nat_lt 0 (length self.now)) }
    {
        self.ends.is_empty()
    }

    /// How many data rows there are.
    #[tactic(auto, using(item_groups::proofs::PartLaws::length_parts))]
    pub fn rows(&self) -> u32
        ensures count { result ≡ row_count self.now }
        ensures few { result ≤ row_limit }
    {
        self.ends.len().saturating_sub(1) as u32
    }

    // How many columns the header has.
    #[inline(always)]
    fn columns(&self) -> u32
        ensures { result ≡ length (header self.now) }
    {
        self.ends.first().copied().unwrap_or(0)
    }

    /// The place of the first column of this name. None exactly where the header lacks it.
    #[inline(always)]
    pub fn column(&self, name: ColumnName) -> Option<u32>
        ensures { result ≡ column_of self.now name }
    {
        self.places[name as usize]
    }

    /// Whether the header has the column.
    pub fn has(&self, name: ColumnName) -> bool
        ensures { result ≡ is_some (column_of self.now name) }
    {
        self.column(name).is_some()
    }

    /// The field of a data row in a column, without the blanks at its ends; empty where the row is short or has no such
    /// column.
    #[tactic(auto, unfolding(feed_faults::specs::Records::field))]
    pub fn field(&self, row: u32, name: ColumnName) -> &[u8]
        requires { row < row_count self.now }
        ensures { result.now ≡ field self.now row name }
    {
        let Some(column) = self.column(name) else {
            return &[];
        };
        let (start, end) = part_of(&self.ends, row as usize + 1, self.fields.count());
        if column as usize >= end - start {
            return &[];
        }
        self.fields.group(start + column as usize)
    }

    /// A data row.
    #[tactic(auto, using(item_groups::proofs::PartLaws::length_parts))]
    pub fn row(&self, row: u32) -> TableRow<'_>
        requires { row < row_count self.now }
        ensures is { result ≡ record { table = self.now; row = row } }
        ensures few { row < row_limit }
    {
        let _places = &self.places;
        TableRow { table: self, row }
    }

    /// Whether a data row has a field past the header that isn't empty.
    #[tactic(auto, unfolding(feed_faults::specs::Records::is_long))]
    pub fn is_long(&self, row: u32) -> bool
        requires { row < row_count self.now }
        ensures { result ≡ is_long self.now row }
    {
        let fields = &self.fields;
        let (start, end) = part_of(&self.ends, row as usize + 1, fields.count());
        (start + self.columns() as usize..end).any(|place| is_filled(fields.get(place)))
    }

    // Whether a column stands twice in the header.
    #[tactic(auto, unfolding(feed_faults::specs::FormFaults::is_twice))]
    pub(crate) fn is_twice(&self, name: ColumnName) -> bool
        ensures { result ≡ is_twice self.now name }
    {
        let fields = &self.fields;
        let columns = self.columns();
        match self.column(name) {
            Some(first) => (first + 1..columns).any(|column| fields.get(column as usize)
                == name.text().as_bytes()),
            None => false,
        }
    }
}

/// A data row of a table. Contracts see it as the two.
#[derive(Drop)]
pub struct TableRow<'t> {
    table: &'t Table,
    row: u32,
}

impl<'t> Model for TableRow<'t> {
    ghost use Rattle.std.specs.Prelude.{◌<◌};
    ghost use Rattle.feed_faults.specs.Records.{row_count};
    ghost use Rattle.feed_text.specs.DataRows.{RowOfTable};

    ghost Value = { RowOfTable };

    ghost view = { λ r. record { table = r.table.now; row = r.row } };

    ghost invariant = { λ r. r.row < row_count r.table.now };
}

impl<'t> Fields for TableRow<'t> {
    ghost use Rattle.feed_faults.specs.Records.{field};
    ghost use Rattle.feed_text.specs.DataRows.{RowOfTable};

    ghost at = { λ (r : RowOfTable). field r.table r.row };

    fn field(&self, name: ColumnName) -> &[u8] {
        self.table.field(self.row, name)
    }
}

/// The last record that was read, as a data row behind a header. Contracts see it as the two.
#[derive(Drop)]
pub struct RecordRow<'r, R> {
    header: &'r Table,
    records: &'r Records<R>,
}

impl<'r, R> Model for RecordRow<'r, R> {
    ghost use Rattle.feed_text.specs.Reader.{StandsBehind, last_record};
    ghost use Rattle.feed_text.specs.DataRows.{RecordOf};

    ghost Value = { RecordOf };

    ghost view = { λ r. record { header = r.header.now; fields = last_record r.records.now } };
}

impl<'r, R: Read> RecordRow<'r, R> {
    /// The last record behind the header of a table.
    pub fn of(header: &'r Table, records: &'r Records<R>) -> RecordRow<'r, R>
        ensures { result ≡ record { header = header.now; fields = last_record records.now } }
    {
        RecordRow { header, records }
    }

    /// Whether the record has a field past the header that isn't empty.
    #[tactic(auto, unfolding(feed_faults::specs::Records::is_long))]
    pub fn is_long(&self) -> bool
        ensures { result ≡ is_long (one_row self.now.header self.now.fields) 0 }
    {
        let records = self.records;
        (self.header.columns() as usize..records.len()).any(|place| is_filled(records.field(place)))
    }
}

impl<'r, R: Read> Fields for RecordRow<'r, R> {
    ghost use Rattle.feed_faults.specs.Records.{field};
    ghost use Rattle.feed_text.specs.DataRows.{RecordOf, one_row};

    ghost at = { λ (r : RecordOf). field (one_row r.header r.fields) 0 };

    #[inline(always)]
    #[tactic(auto, unfolding(feed_faults::specs::Records::field, feed_faults::specs::Records::column_of))]
    fn field(&self, name: ColumnName) -> &[u8] {
        match self.header.column(name) {
            Some(place) => self.records.field(place as usize),
            None => &[],
        }
    }
}
