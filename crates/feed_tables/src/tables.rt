//! The tables of a feed's files, and values of their rows by which faults among files are found.
ghost use Rattle.std.specs.Prelude.{◌≡◌, ◌<◌, ◌≤◌, true, length};
ghost use Rattle.feed_files.specs.declared.names.FileName.TheVariants as file;
ghost use Rattle.feed_faults.specs.FeedTables.{table_in};
ghost use Rattle.feed_faults.specs.FieldValues.{stop_kind};
ghost use Rattle.feed_faults.specs.FormFaults.{judged_columns};
ghost use Rattle.feed_faults.specs.Records.{field, row_count};
ghost use Rattle.feed_text.specs.FieldNumbers.{numbers_of};
ghost use Rattle.feed_text.specs.RowLimits.{row_limit};
ghost use Rattle.feed_tables.specs.KeptTables.{tables_with, AreKept};
ghost use Rattle.feed_tables.specs.RowNumbers.{has_table};

use crate::rows::ReadTable;
use feed_files::FileName;
use feed_text::{Table, nat_of};
use folder_io::{PLACE_BEHIND, STOP_TIMES_PLACE};
use std::marker::{Brand, Model, PhantomData};

/// The table of stop_times.txt, of which only rows are kept. Contracts alone know it: a call of a function over a
/// `CallTable` passes [`Brand`], and its proof picks the table.
pub trait CallTable {
    ghost use Rattle.feed_faults.specs.Records.{FileTable};

    /// The table.
    ghost table: { FileTable };
}

impl CallTable for Brand {
    ghost use Rattle.std.specs.Prelude.{[]};

    ghost table = { [] };
}

/// The table of each file of a feed, of which that of stop_times.txt isn't kept; a file that isn't there has one without a
/// record. Contracts see it as the list of all tables, in the order of the files.
#[derive(Drop)]
pub struct Tables<'t, C: CallTable> {
    first: &'t [ReadTable],
    others: &'t [ReadTable],
    // How many rows stop_times.txt has.
    calls: u32,
    call_table: PhantomData<C>,
}

impl<'t, C: CallTable> Model for Tables<'t, C> {
    ghost use Rattle.feed_faults.specs.FeedTables.{FeedTables};
    ghost use Rattle.feed_tables.specs.KeptTables.{tables_with, AreKept};

    ghost Value = { FeedTables };

    ghost view = { λ t. tables_with t.first.now C.table t.others.now };

    ghost invariant = { λ t. AreKept t.first.now t.others.now C.table t.calls };
}

impl<'t, C: CallTable> Tables<'t, C> {
    /// The tables of the files before stop_times.txt and behind it, and of so many stop times.
    pub fn of(first: &'t [ReadTable], others: &'t [ReadTable], calls: u32) -> Tables<'t, C>
        requires { AreKept first.now others.now C.table calls }
        ensures { result ≡ tables_with first.now C.table others.now }
    {
        Tables {
            first,
            others,
            calls,
            call_table: PhantomData,
        }
    }

    // The table of a file with what its rows tell.
    fn read_table(&self, file: FileName) -> &'t ReadTable
        requires { has_table file ≡ true }
        ensures file { result.now.file ≡ file }
        ensures table { result.now.table ≡ table_in self.now file }
    {
        let place = file as usize;
        if place < STOP_TIMES_PLACE {
            &self.first[place]
        } else {
            &self.others[place - PLACE_BEHIND]
        }
    }

    /// The table of a file.
    pub fn get(&self, file: FileName) -> &'t Table
        requires { has_table file ≡ true }
        ensures { result.now ≡ table_in self.now file }
    {
        self.read_table(file).table()
    }

    /// How many data rows a file has.
    pub fn rows(&self, file: FileName) -> u32
        ensures count { result ≡ row_count (table_in self.now file) }
        ensures few { result ≤ row_limit }
    {
        if file == FileName::StopTimes {
            self.calls
        } else {
            self.get(file).rows()
        }
    }

    /// What a row of a file tells: of each column that is judged, in their order, the number of the field; none where it is
    /// empty, or an id.
    pub fn numbers<const N: usize>(&self, file: FileName, row: u32) -> &'t [Option<i64>; N]
        requires kept { has_table file ≡ true }
        requires within { row < row_count (table_in self.now file) }
        requires columns { length (judged_columns file (field (table_in self.now file) row)) ≡ N }
        ensures { result.now ≡ numbers_of file (field (table_in self.now file) row) }
    {
        let Some(numbers) = self.read_table(file).numbers(row).as_array() else {
            unreachable!();
        };
        numbers
    }
}

/// The kind of a stop: its `location_type`, where an empty one is 0.
#[tactic(auto, using(feed_text::proofs::ValueLaws::int_is_short), unfolding(feed_faults::specs::FieldValues::int_or_zero))]
pub fn stop_kind<C: CallTable>(tables: &Tables<C>, row: u32) -> u32
    requires { row < row_count (table_in tables.now file.Stops) }
    ensures { result ≡ stop_kind (table_in tables.now file.Stops) row }
{
    let &[_, kind, _] = tables.numbers::<3>(FileName::Stops, row);
    nat_of(kind)
}
