//! The rows of a table by their ids.
ghost use Rattle.std.specs.Prelude.{◌≡◌, ◌<◌, IfOk, IfSome};
ghost use Rattle.feed_faults.specs.Records.{row_count};
ghost use Rattle.feed_faults.specs.RowKeys.{row_of, is_unknown, is_doubled};
ghost use Rattle.feed_faults.specs.AcceptedFeed.{row_number};
ghost use Rattle.feed_tables.specs.IdRows.{IsKeyOf, IsFound, IsBegun};

use crate::id_rows::{IdRow, id_rows, key_of};
use crate::slots::{Slots, slots_of};
use feed_files::ColumnName;
use feed_text::Table;
use std::alloc::{AllocError, Global};
use std::marker::Model;

/// The rows of a table by their fields in one of its columns. Contracts see it as the table and the column.
pub struct IdIndex<'t> {
    table: &'t Table,
    name: ColumnName,
    // All ids, in order.
    rows: Vec<IdRow<'t>>,
    // Where an id is looked for before the rows are searched.
    slots: Slots,
}

// Written out, so that what holds one needn't look into it to let go of it.
impl<'t> Drop for IdIndex<'t> {
    fn drop(self) {
        let IdIndex {
            table: _,
            name: _,
            rows: _,
            slots: _,
        } = self;
    }
}

impl<'t> Model for IdIndex<'t> {
    ghost use Rattle.feed_tables.specs.IndexedColumns.{IndexedColumn};
    ghost use Rattle.feed_tables.specs.IdRows.{AreIdRows, AreSlots};

    ghost Value = { IndexedColumn };

    ghost view = { λ i. record { table = i.table.now; name = i.name } };

    ghost invariant = { λ i. AreIdRows i.table.now i.name i.rows.items × AreSlots i.rows.items i.slots };
}

/// A look-up that was begun: where the id is looked for first, and its key. Mostly nothing is read there yet, so that a
/// caller can begin another one first.
#[derive(Clone, Copy)]
pub struct IdStart {
    /// The slot that is looked into first; any is right.
    pub slot: usize,
    /// The key of the id.
    pub key: u64,
    /// The row, where it was found as the look-up began.
    pub known: Option<u32>,
}

impl<'t> IdIndex<'t> {
    /// The rows of the table by their fields in the column.
    ///
    /// # Errors
    /// Want of memory.
    pub fn of(alloc: Global, table: &'t Table, name: ColumnName) -> Result<IdIndex<'t>, AllocError>
        ensures { IfOk result (λ index. index ≡ record { table = table.now; name = name }) }
    {
        let rows = id_rows(alloc, table, name)?;
        let slots = slots_of(alloc, &rows)?;
        Ok(IdIndex {
            table,
            name,
            rows,
            slots,
        })
    }

    // The earliest row with this id, by a binary search. Few ids come here: those that no row has, and those without a
    // slot.
    #[cold]
    #[inline(never)]
    fn searched_row(&self, key: u64, id: &[u8]) -> Option<u32>
        requires { IsKeyOf key id.now }
        ensures { result ≡ row_of self.now.table self.now.name id.now }
    {
        match self
            .rows
            .binary_search_by_key(&(key, id), |entry| (entry.key, entry.id))
        {
            Ok(place) => Some(self.rows[place].row),
            Err(_) => None,
        }
    }

    // The earliest row with an id, where this slot has it. An id of at most seven bytes is told by its key alone, so that none
    // of the table's text is read.
    #[inline(always)]
    fn row_in(&self, slot: usize, key: u64, id: &[u8]) -> Option<u32>
        requires { IsKeyOf key id.now }
        ensures { IfSome result (λ row. IsFound self.now.table self.now.name row id.now) }
    {
        if slot >= self.slots.entries.len() {
            return None;
        }
        let entry = self.slots.entries[slot];
        if entry.key() != key {
            return None;
        }
        if id.len() <= 7 || self.table.field(entry.row, self.name) == id {
            return Some(entry.row);
        }
        None
    }

    /// Begins to look for the earliest row with an id: in the id's own slot.
    #[inline(always)]
    pub fn start(&self, id: &[u8]) -> IdStart
        ensures { IsBegun self.now.table self.now.name result id.now }
    {
        let key = key_of(id);
        let slot = self.slots.slot_of(key, id);
        IdStart {
            slot,
            key,
            known: None,
        }
    }

    /// The same, but where the slot in which an id was looked for last has this one too, its row is known at once: as when an
    /// id is mostly looked for several times in a row.
    #[inline(always)]
    pub fn start_at(&self, last: usize, id: &[u8]) -> IdStart
        ensures { IsBegun self.now.table self.now.name result id.now }
    {
        let key = key_of(id);
        let known = self.row_in(last, key, id);
        if known.is_some() {
            return IdStart {
                slot: last,
                key,
                known,
            };
        }
        self.start(id)
    }

    /// The earliest row with an id, where it is known or the slot in which it is looked for first has it; then the id is one
    /// by the grammar of ids.
    #[inline(always)]
    pub fn row_at(&self, start: IdStart, id: &[u8]) -> Option<u32>
        requires { IsBegun self.now.table self.now.name start id.now }
        ensures { IfSome result (λ row. IsFound self.now.table self.now.name row id.now) }
    {
        if start.known.is_some() {
            return start.known;
        }
        self.row_in(start.slot, start.key, id)
    }

    /// Ends a look-up that was begun: the earliest row with the id.
    #[inline(always)]
    pub fn row_from(&self, start: IdStart, id: &[u8]) -> Option<u32>
        requires { IsBegun self.now.table self.now.name start id.now }
        ensures row { result ≡ row_of self.now.table self.now.name id.now }
        ensures within { IfSome result (λ row. row < row_count self.now.table) }
    {
        match self.row_at(start, id) {
            Some(row) => Some(row),
            None => self.searched_row(start.key, id),
        }
    }

    /// The earliest row with this id.
    pub fn row_of(&self, id: &[u8]) -> Option<u32>
        ensures row { result ≡ row_of self.now.table self.now.name id.now }
        ensures within { IfSome result (λ row. row < row_count self.now.table) }
    {
        self.row_from(self.start(id), id)
    }

    /// The number of the earliest row with this id; that after the last row where no row has it.
    pub fn number(&self, id: &[u8]) -> u32
        ensures { result ≡ row_number self.now.table self.now.name id.now }
    {
        self.row_of(id).unwrap_or(self.table.rows())
    }

    /// Whether an id is filled and no row has it: an empty reference is no fault.
    pub fn is_unknown(&self, id: &[u8]) -> bool
        ensures { result ≡ is_unknown self.now.table self.now.name id.now }
    {
        !id.is_empty() && self.row_of(id).is_none()
    }

    /// Whether an earlier row has the same id.
    pub fn is_doubled(&self, row: u32) -> bool
        requires { row < row_count self.now.table }
        ensures { result ≡ is_doubled self.now.table self.now.name row }
    {
        // Where there are as many ids as rows, each row has one of its own.
        if self.rows.len() == self.table.rows() as usize {
            return false;
        }
        match self.row_of(self.table.field(row, self.name)) {
            Some(first) => first < row,
            None => false,
        }
    }
}
