//! The rows of a feed by the ids that others name.
ghost use Rattle.std.specs.Prelude.{◌≡◌, List, map, IfOk};
ghost use Rattle.feed_faults.specs.Records.{FileTable};
ghost use Rattle.feed_tables.specs.IdColumns.{indexed, call_ids};
ghost use Rattle.feed_tables.specs.KeptTables.{tables_with};
ghost use Rattle.feed_tables.specs.RowNumbers.{TableOf, first_files};

use crate::index::IdIndex;
use crate::rows::ReadTable;
use crate::tables::{CallTable, Tables};
use feed_faults::IdColumn;
use feed_files::ColumnName;
use std::alloc::{AllocError, Global};
use std::marker::Model;

// The columns behind those that stop times name, in the order in which they are declared.
const OTHERS: [IdColumn; 12] = [
    IdColumn::Route,
    IdColumn::RouteNetwork,
    IdColumn::Calendar,
    IdColumn::CalendarDate,
    IdColumn::Area,
    IdColumn::Network,
    IdColumn::NetworkRoute,
    IdColumn::TimeframeGroup,
    IdColumn::RiderCategory,
    IdColumn::FareMedia,
    IdColumn::FareProduct,
    IdColumn::LegGroup,
];

/// The rows of stops.txt and of trips.txt by the ids that stop times name.
pub struct CallIds<'t> {
    pub stops: IdIndex<'t>,
    pub trips: IdIndex<'t>,
}

// Written out, so that what holds one needn't look into it to let go of it.
impl<'t> Drop for CallIds<'t> {
    fn drop(self) {
        let CallIds { stops: _, trips: _ } = self;
    }
}

impl<'t> CallIds<'t> {
    /// Those of the tables of the files before stop_times.txt.
    ///
    /// # Errors
    /// Want of memory.
    pub fn of(alloc: Global, first: &'t [ReadTable]) -> Result<CallIds<'t>, AllocError>
        requires { map (λ read. read.file) first.now ≡ first_files }
        ensures { IfOk result (λ ids. (calls : FileTable) (others : List TableOf) → ids ≡ call_ids (tables_with first.now calls others)) }
    {
        Ok(CallIds {
            stops: IdIndex::of(alloc, first[0].table(), ColumnName::StopId)?,
            trips: IdIndex::of(alloc, first[2].table(), ColumnName::TripId)?,
        })
    }
}

/// The rows of a feed's tables by their ids, each column sorted once. Contracts see them as the tables.
#[derive(Drop)]
pub struct Ids<'t, C: CallTable> {
    tables: &'t Tables<'t, C>,
    calls: &'t CallIds<'t>,
    // In the order of `OTHERS`.
    others: Vec<IdIndex<'t>>,
}

impl<'t, C: CallTable> Model for Ids<'t, C> {
    ghost use Rattle.feed_faults.specs.FeedTables.{FeedTables};
    ghost use Rattle.feed_tables.specs.IdColumns.{AreIds};

    ghost Value = { FeedTables };

    ghost view = { λ i. i.tables.now };

    ghost invariant = { λ i. AreIds i.tables.now i.calls.now i.others.items };
}

impl<'t, C: CallTable> Ids<'t, C> {
    /// The rows of the tables by their ids, of which those that stop times name stand.
    ///
    /// # Errors
    /// Want of memory.
    pub fn of(
        alloc: Global,
        tables: &'t Tables<'t, C>,
        calls: &'t CallIds<'t>,
    ) -> Result<Ids<'t, C>, AllocError>
        requires { calls.now ≡ call_ids tables.now }
        ensures { IfOk result (λ ids. ids ≡ tables.now) }
    {
        let mut others = Vec::with_capacity(alloc, OTHERS.len())?;
        for (i, column) in OTHERS.iter().enumerate() {
            let (file, name) = column.place();
            others.push(IdIndex::of(alloc, tables.get(file), name)?)?;
        }
        Ok(Ids {
            tables,
            calls,
            others,
        })
    }

    /// The rows by the ids of a column.
    pub fn get(&self, column: IdColumn) -> &IdIndex<'t>
        ensures { result.now ≡ indexed self.now column }
    {
        match column {
            IdColumn::Stop => &self.calls.stops,
            IdColumn::Trip => &self.calls.trips,
            _ => &self.others[column as usize - 2],
        }
    }
}
