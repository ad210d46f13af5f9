//! A feed from the tables of its files.
ghost use Rattle.std.specs.Prelude.{◌≡◌, true, IfOk};
ghost use Rattle.feed_files.specs.declared.names.FileName.TheVariants as file;
ghost use Rattle.feed_faults.specs.RowChecks.{id_place};
ghost use Rattle.feed_faults.specs.FeedTables.{table_in};
ghost use Rattle.feed_faults.specs.AcceptedFeed.{row_number, typed_rows, rows_of_tables, stop_time_row};
ghost use Rattle.feed_soundness.specs.AcceptedTables.{AreFormed, AreRelated};
ghost use Rattle.feed_tables.specs.RowNumbers.{has_table};

use crate::names::Names;
use crate::rows::FileRow;
use feed_faults::IdColumn;
use feed_files::{ColumnName, FileName};
use feed_rows::{Feed, StopTimeRows};
use feed_tables::{CallTable, Ids, Tables};
use plain_laws::ItemList;
use std::alloc::{AllocError, Global};
use std::marker::Model;

/// The tables of a feed whose files have no fault by themselves, with their rows by id and with the names that have no rows of
/// their own. Contracts see it as the tables.
#[derive(Drop)]
pub struct TableSource<'t, C: CallTable> {
    pub alloc: Global,
    pub tables: &'t Tables<'t, C>,
    pub ids: &'t Ids<'t, C>,
    pub names: &'t Names<'t>,
}

impl<'t, C: CallTable> Model for TableSource<'t, C> {
    ghost use Rattle.feed_faults.specs.FeedTables.{FeedTables};
    ghost use Rattle.feed_build.specs.TableNames.{IsSource};

    ghost Value = { FeedTables };

    ghost view = { λ s. s.tables.now };

    ghost invariant = { λ s. IsSource s.tables.now s.ids.now s.names.now };
}

/// The number of the earliest row that has the id in a column; that after the last row where no row has it.
pub fn row_number<C: CallTable>(source: &TableSource<C>, column: IdColumn, id: &[u8]) -> u32
    ensures { result ≡ row_number (table_in source.now (id_place column).0) (id_place column).1 id.now }
{
    source.ids.get(column).number(id)
}

impl<'t, C: CallTable> TableSource<'t, C> {
    // The rows of a file, in order.
    fn rows_of<R: FileRow>(&self, file: FileName) -> Result<ItemList<R>, AllocError>
        requires file { file ≡ R.file }
        requires kept { has_table file ≡ true }
        ensures { IfOk result (λ rows. rows ≡ typed_rows (table_in self.now file) (R.row_in self.now)) }
    {
        let table = self.tables.get(file);
        let mut rows = ItemList::empty(self.alloc);
        for row in 0..table.rows() {
            rows.push(R::of(self, table, row)?)?;
        }
        Ok(rows)
    }

    // The rows of three files.
    fn rows_of_three<First: FileRow, Second: FileRow, Third: FileRow>(
        &self,
        first: FileName,
        second: FileName,
        third: FileName,
    ) -> Result<(ItemList<First>, ItemList<Second>, ItemList<Third>), AllocError>
        requires files { (first ≡ First.file) × (second ≡ Second.file) × (third ≡ Third.file) }
        requires kept { (has_table first ≡ true) × (has_table second ≡ true) × (has_table third ≡ true) }
        ensures first { IfOk result (λ rows. rows.0 ≡ typed_rows (table_in self.now first) (First.row_in self.now)) }
        ensures second { IfOk result (λ rows. rows.1 ≡ typed_rows (table_in self.now second) (Second.row_in self.now)) }
        ensures third { IfOk result (λ rows. rows.2 ≡ typed_rows (table_in self.now third) (Third.row_in self.now)) }
    {
        Ok((
            self.rows_of(first)?,
            self.rows_of(second)?,
            self.rows_of(third)?,
        ))
    }

    // The feed, with these rows of stop_times.txt. Files are read in threes, since each way out lets go of what was read before.
    fn feed(&self, stop_times: StopTimeRows) -> Result<Feed, AllocError>
        requires related { AreRelated self.now }
        requires stop_times { stop_times ≡ typed_rows (table_in self.now file.StopTimes) (stop_time_row self.now) }
        ensures { IfOk result (λ feed. feed ≡ rows_of_tables self.now) }
    {
        let links = self.link_rows()?;
        let rule_files = self.rows_of_three(
            FileName::FareLegRules,
            FileName::FareTransferRules,
            FileName::FareLegJoinRules,
        )?;
        let trip_files = self.rows_of_three(FileName::Stops, FileName::Routes, FileName::Trips)?;
        let day_files = self.rows_of_three(
            FileName::Calendar,
            FileName::CalendarDates,
            FileName::Frequencies,
        )?;
        let area_files = self.rows_of_three(
            FileName::Areas,
            FileName::StopAreas,
            FileName::Timeframes,
        )?;
        let product_files = self.rows_of_three(
            FileName::RiderCategories,
            FileName::FareMedia,
            FileName::FareProducts,
        )?;
        let names = self.names.ids(self.alloc)?;
        let (stops, routes, trips) = trip_files;
        let (services, exceptions, frequencies) = day_files;
        let (areas, stop_areas, timeframes) = area_files;
        let (riders, media, products) = product_files;
        let (leg_rules, transfer_rules, joins) = rule_files;
        let (service_names, network_names, frame_names, product_names, group_names) = names;
        let leg_rule_table = self.tables.get(FileName::FareLegRules);
        let (currency, decimals) = self.currency();
        Ok(Feed {
            stops,
            routes,
            trips,
            stop_times,
            services,
            exceptions,
            frequencies,
            links,
            areas,
            stop_areas,
            timeframes,
            riders,
            media,
            products,
            leg_rules,
            transfer_rules,
            joins,
            service_names,
            network_names,
            frame_names,
            product_names,
            group_names,
            has_priority: leg_rule_table.has(ColumnName::RulePriority),
            currency,
            decimals,
        })
    }
}

/// The feed of tables in which both passes find no fault: the typed rows of each file, with row numbers in place of ids, and
/// names numbered by first appearance. The rows of stop_times.txt are given.
///
/// # Errors
/// Want of memory.
pub fn feed_of_tables<C: CallTable>(
    alloc: Global,
    tables: &Tables<C>,
    ids: &Ids<C>,
    stop_times: StopTimeRows,
) -> Result<Feed, AllocError>
    requires formed { AreFormed tables.now }
    requires related { AreRelated tables.now }
    requires ids { ids.now ≡ tables.now }
    requires stop_times { stop_times ≡ typed_rows (table_in tables.now file.StopTimes) (stop_time_row tables.now) }
    ensures { IfOk result (λ feed. feed ≡ rows_of_tables tables.now) }
{
    let names = Names::of(alloc, tables)?;
    let source = TableSource {
        alloc,
        tables,
        ids,
        names: &names,
    };
    source.feed(stop_times)
}
