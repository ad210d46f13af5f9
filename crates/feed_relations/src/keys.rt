//! Keys of several columns.
ghost use Rattle.std.specs.Prelude.{◌≡◌, ◌<◌, ◌≤◌, ℕ, true, IfOk};
ghost use Rattle.plain_laws.specs.Plain.{find_below};
ghost use Rattle.feed_faults.specs.Records.{row_count};
ghost use Rattle.feed_faults.specs.FeedTables.{table_in};
ghost use Rattle.feed_faults.specs.RowKeys.{is_repeated};
ghost use Rattle.feed_faults.specs.RowChecks.{same_key};
ghost use Rattle.feed_tables.specs.RowNumbers.{has_table};
ghost use Rattle.feed_relations.specs.RowKeys.{row_key, IsKeyKnown};

use crate::judged::JudgedFeed;
use feed_faults::IdColumn;
use feed_files::{ColumnName, FileName};
use feed_tables::CallTable;
use feed_text::natural;
use std::alloc::{AllocError, Global};
use std::collections::BTreeSet;

// The key of a row, as three numbers: of rows that it names, days and times.
#[derive(Clone, Copy, PartialEq, Eq, PartialOrd, Ord)]
pub struct RowKey(pub u32, pub i64, pub u32);

// The key of a row; of a file without such keys, its own number.
#[tactic(auto, unfolding(feed_faults::specs::FieldValues::day_or_zero), using(feed_text::proofs::ValueLaws::times))]
fn row_key<C: CallTable>(feed: &JudgedFeed<C>, file: FileName, row: u32) -> RowKey
    requires kept { has_table file ≡ true }
    requires within { row < row_count (table_in feed.now file) }
    ensures { result ≡ row_key feed.now file row }
{
    let table = feed.tables().get(file);
    let number = |ids: IdColumn, name: ColumnName|
        requires { row < row_count table.now }
    { feed.index(ids).number(table.field(row, name)) };
    match file {
        FileName::CalendarDates => {
            let &[_, day, _] = feed.tables().numbers::<3>(file, row);
            let service = number(IdColumn::CalendarDate, ColumnName::ServiceId);
            RowKey(service, day.unwrap_or(0), 0)
        }
        FileName::Frequencies => {
            let &[_, start, _, _, _] = feed.tables().numbers::<5>(file, row);
            let trip = number(IdColumn::Trip, ColumnName::TripId);
            RowKey(trip, i64::from(natural(start).unwrap_or(0)), 0)
        }
        FileName::FareProducts => {
            let product = number(IdColumn::FareProduct, ColumnName::FareProductId);
            let rider = number(IdColumn::RiderCategory, ColumnName::RiderCategoryId);
            let medium = number(IdColumn::FareMedia, ColumnName::FareMediaId);
            RowKey(product, i64::from(rider), medium)
        }
        _ => RowKey(row, 0, 0),
    }
}

// The first row below one whose key an earlier row has.
#[tactic(auto, using(plain_laws::proofs::Laws::found_firsts))]
pub fn first_repeated<C: CallTable>(
    alloc: Global,
    feed: &JudgedFeed<C>,
    file: FileName,
    below: u32,
) -> Result<Option<u32>, AllocError>
    requires kept { has_table file ≡ true }
    requires within { below ≤ row_count (table_in feed.now file) }
    requires known { (row : ℕ) → row < below → IsKeyKnown feed.now file row }
    ensures { IfOk result (λ found. found ≡ find_below below (is_repeated (same_key file (table_in feed.now file)))) }
{
    let mut seen = BTreeSet::new(alloc);
    for row in 0..below {
        if !seen.insert(row_key(feed, file, row))? {
            return Ok(Some(row));
        }
    }
    Ok(None)
}
