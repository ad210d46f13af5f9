//! What the rows of a feed are judged by.
ghost use Rattle.std.specs.Prelude.{◌≡◌, ◌<◌, is_none, map, IfOk};
ghost use Rattle.feed_files.specs.declared.names.FileName.TheVariants as file;
ghost use Rattle.feed_files.specs.declared.names.ColumnName.TheVariants as column;
ghost use Rattle.feed_faults.specs.Records.{row_count, field};
ghost use Rattle.feed_faults.specs.RowChecks.{is_unknown_in};
ghost use Rattle.feed_faults.specs.declared.checks.IdColumn.TheVariants.{Trip, Stop};
ghost use Rattle.feed_faults.specs.FeedTables.{table_in};
ghost use Rattle.feed_faults.specs.StopTimeRelations.{stop_times_of, is_at_platform};
ghost use Rattle.feed_tables.specs.ReadCalls.{read_calls};
ghost use Rattle.feed_tables.specs.IdColumns.{indexed, call_ids};
ghost use Rattle.stop_order.specs.Numbered.{faults_at};
ghost use Rattle.feed_relations.specs.JudgedBy.{AreCallsNamed, AreJudged, IsOrderJudged, IsTripKnown, call_at, time_of_call};

use feed_faults::IdColumn;
use feed_files::FileName;
use feed_rows::PLATFORM;
use feed_tables::{CallTable, IdIndex, Ids, ReadCall, ReadCalls, Tables, stop_kind};
use std::alloc::{AllocError, Global};
use std::marker::Model;
use stop_order::{OrderFaults, StopTimes, TripTime, order_faults};

/// What the rows of a feed are judged by: its tables, their rows by ids, the stop times as they were read, which stops are platforms, and
/// what is wrong with each stop time in its trip. Contracts see it as the tables.
#[derive(Drop)]
pub struct JudgedFeed<'t, C: CallTable> {
    tables: &'t Tables<'t, C>,
    ids: &'t Ids<'t, C>,
    calls: &'t ReadCalls,
    platforms: Vec<bool>,
    order: Vec<OrderFaults>,
}

impl<'t, C: CallTable> Model for JudgedFeed<'t, C> {
    ghost use Rattle.feed_faults.specs.FeedTables.{FeedTables};
    ghost use Rattle.feed_relations.specs.JudgedBy.{AreJudged};

    ghost Value = { FeedTables };

    ghost view = { λ f. f.tables.now };

    ghost invariant = { λ f. AreJudged f.tables.now f.ids.now f.calls.now f.platforms.items f.order.items };
}

// Stop times as they were read, for what is asked of their order.
#[derive(Drop)]
struct CallTimes<'c>(&'c ReadCalls);

impl<'c> StopTimes for CallTimes<'c> {
    ghost times = { λ calls. map time_of_call calls.0.now };

    #[inline(always)]
    fn len(&self) -> usize {
        self.0.len()
    }

    #[inline(always)]
    fn time(&self, row: usize) -> TripTime {
        let call = self.0.get(row);
        TripTime {
            trip: call.trip,
            sequence: call.sequence,
            arrival: call.arrival,
            departure: call.departure,
        }
    }
}

// What is wrong with each stop time among those of its trip, where that is there.
fn order_of<C: CallTable>(
    alloc: Global,
    tables: &Tables<C>,
    calls: &ReadCalls,
) -> Result<Vec<OrderFaults>, AllocError>
    requires named { AreCallsNamed tables.now }
    requires calls { calls.now ≡ read_calls (call_ids tables.now) (table_in tables.now file.StopTimes) }
    ensures { IfOk result (λ order. IsOrderJudged tables.now order.items) }
{
    let _few = tables.rows(FileName::StopTimes);
    match calls.rows() {
        Some(rows) => order_faults(alloc, &rows),
        None => order_faults(alloc, &CallTimes(calls)),
    }
}

impl<'t, C: CallTable> JudgedFeed<'t, C> {
    /// What the rows of a feed of these tables are judged by.
    ///
    /// # Errors
    /// Want of memory.
    pub fn of(
        alloc: Global,
        tables: &'t Tables<'t, C>,
        ids: &'t Ids<'t, C>,
        calls: &'t ReadCalls,
    ) -> Result<JudgedFeed<'t, C>, AllocError>
        requires ids { ids.now ≡ tables.now }
        requires named { AreCallsNamed tables.now }
        requires calls { calls.now ≡ read_calls (call_ids tables.now) (table_in tables.now file.StopTimes) }
        ensures { IfOk result (λ feed. feed ≡ tables.now) }
    {
        let platforms = (0..tables.rows(FileName::Stops))
            .map(|row| stop_kind(tables, row) == u32::from(PLATFORM))
            .collect::<Vec<bool>>(alloc)?;
        let order = order_of(alloc, tables, calls)?;
        Ok(JudgedFeed {
            tables,
            ids,
            calls,
            platforms,
            order,
        })
    }

    /// The tables.
    pub fn tables(&self) -> &Tables<'t, C>
        ensures { result.now ≡ self.now }
    {
        self.tables
    }

    /// The rows by the ids of a column.
    pub fn index(&self, column: IdColumn) -> &IdIndex<'t>
        ensures { result.now ≡ indexed self.now column }
    {
        self.ids.get(column)
    }

    /// What was read of a row of `stop_times.txt`.
    pub fn call(&self, row: u32) -> ReadCall
        requires { row < row_count (table_in self.now file.StopTimes) }
        ensures call { result ≡ call_at self.now row }
        ensures trip { is_none result.trip ≡ is_unknown_in self.now Trip (field (table_in self.now file.StopTimes) row column.TripId) }
        ensures stop { is_none result.stop ≡ is_unknown_in self.now Stop (field (table_in self.now file.StopTimes) row column.StopId) }
    {
        self.calls.get(row as usize)
    }

    /// Whether the stop of a row of `stop_times.txt` is there and a platform.
    pub fn is_at_platform(&self, row: u32) -> bool
        requires { row < row_count (table_in self.now file.StopTimes) }
        ensures { result ≡ is_at_platform (table_in self.now file.Stops) (table_in self.now file.StopTimes) row }
    {
        match self.call(row).stop {
            Some(stop) => self
                .platforms
                .get(stop.0 as usize)
                .copied()
                .unwrap_or(false),
            None => false,
        }
    }

    /// What is wrong with a row of `stop_times.txt` among those of its trip, where that is there.
    pub fn order(&self, row: u32) -> OrderFaults
        requires { row < row_count (table_in self.now file.StopTimes) }
        ensures { IsTripKnown self.now row → result ≡ faults_at (stop_times_of (table_in self.now file.StopTimes)) row }
    {
        self.order.get(row as usize).copied().unwrap_or_default()
    }
}
