//! What fails at a row.
ghost use Rattle.std.specs.Prelude.{◌≡◌, ◌<◌, ◌&&◌, true, not};
ghost use Rattle.feed_files.specs.declared.names.FileName.TheVariants as file;
ghost use Rattle.feed_faults.specs.Records.{row_count};
ghost use Rattle.feed_faults.specs.FeedTables.{table_in};
ghost use Rattle.feed_faults.specs.StopRelations.{has_parent, is_parent_good};
ghost use Rattle.feed_faults.specs.FareRelations.{is_one_filled, is_count_misplaced};
ghost use Rattle.feed_faults.specs.RowChecks.{is_judged, fails};
ghost use Rattle.feed_tables.specs.RowNumbers.{has_table};
ghost use Rattle.feed_relations.specs.FittingChecks.{Fits};

use crate::judged::JudgedFeed;
use feed_faults::{IdColumn, RowCheck, RowRule};
use feed_files::{ColumnName, FileName};
use feed_rows::{PLATFORM, STATION};
use feed_tables::{CallTable, Tables, stop_kind};
use feed_text::{Table, is_filled, is_passed_over};

// Whether the ids of a row are looked at.
fn is_judged(file: FileName, table: &Table, row: u32) -> bool
    requires { row < row_count table.now }
    ensures { result ≡ is_judged file table.now row }
{
    file != FileName::Transfers || !is_passed_over(&table.row(row))
}

// Whether a platform or a station names a parent.
#[tactic(auto, unfolding(feed_faults::specs::StopRelations::has_parent))]
fn has_parent<C: CallTable>(tables: &Tables<C>, row: u32) -> bool
    requires { row < row_count (table_in tables.now file.Stops) }
    ensures { result ≡ has_parent (table_in tables.now file.Stops) row }
{
    let stops = tables.get(FileName::Stops);
    stop_kind(tables, row) < 2 && is_filled(stops.field(row, ColumnName::ParentStation))
}

// Whether a parent is named that isn't good: only a platform has a parent, which is a station.
#[tactic(auto, unfolding(feed_faults::specs::StopRelations::is_at_station))]
fn is_parent_bad<C: CallTable>(feed: &JudgedFeed<C>, row: u32) -> bool
    requires { row < row_count (table_in feed.now file.Stops) }
    ensures { result ≡ (has_parent (table_in feed.now file.Stops) row && not (is_parent_good (table_in feed.now file.Stops) row)) }
{
    let tables = feed.tables();
    if !has_parent(tables, row) {
        return false;
    }
    if stop_kind(tables, row) != u32::from(PLATFORM) {
        return true;
    }
    let parent = tables
        .get(FileName::Stops)
        .field(row, ColumnName::ParentStation);
    match feed.index(IdColumn::Stop).row_of(parent) {
        Some(parent) => stop_kind(tables, parent) != u32::from(STATION),
        None => true,
    }
}

// Whether a count stands where the groups forbid it, or is lacking where they require it.
#[tactic(auto, unfolding(feed_faults::specs::FareRelations::is_count_misplaced))]
fn is_count_misplaced(rules: &Table, row: u32) -> bool
    requires { row < row_count rules.now }
    ensures { result ≡ is_count_misplaced rules.now row }
{
    let from = rules.field(row, ColumnName::FromLegGroupId);
    let to = rules.field(row, ColumnName::ToLegGroupId);
    (is_filled(from) || is_filled(to))
        && is_filled(rules.field(row, ColumnName::TransferCount)) != (from == to)
}

// Whether one of two fields is filled without the other.
pub fn is_one_filled(a: &[u8], b: &[u8]) -> bool
    ensures { result ≡ is_one_filled a.now b.now }
{
    is_filled(a) != is_filled(b)
}

// Whether a check of a row fails, where it is judged row by row.
#[tactic(auto, unfolding(feed_faults::specs::ServiceRelations::are_dates_reversed, feed_faults::specs::FieldValues::day_or_zero, feed_faults::specs::FareRelations::is_currency_mixed, feed_faults::specs::FareRelations::is_limit_half, feed_faults::specs::FareRelations::is_one_stop_named))]
pub fn row_fails<C: CallTable>(
    feed: &JudgedFeed<C>,
    file: FileName,
    rule: RowRule,
    row: u32,
) -> bool
    requires within { row < row_count (table_in feed.now file) }
    requires kept { has_table file ≡ true }
    requires fits { Fits file rule.check }
    requires by_row { (rule.check ≡ RowCheck.NewKey → ⊥) × (rule.check ≡ RowCheck.GoodTimeframe → ⊥) }
    ensures { result ≡ fails feed.now file rule row }
{
    let table = feed.tables().get(file);
    let told = table.field(row, rule.column);
    match rule.check {
        RowCheck::NewId(ids) => feed.index(ids).is_doubled(row),
        RowCheck::Known(ids) => is_judged(file, table, row) && feed.index(ids).is_unknown(told),
        RowCheck::KnownInOne(ids, others) => {
            is_judged(file, table, row)
                && feed.index(ids).is_unknown(told)
                && feed.index(others).is_unknown(told)
        }
        RowCheck::KnownParent => {
            has_parent(feed.tables(), row) && feed.index(IdColumn::Stop).is_unknown(told)
        }
        RowCheck::GoodParent => is_parent_bad(feed, row),
        RowCheck::OrderedDays => {
            let &[_, _, _, _, _, _, _, _, first, last] = feed.tables().numbers::<10>(file, row);
            last.unwrap_or(0) < first.unwrap_or(0)
        }
        RowCheck::OneCurrency => table.field(0, ColumnName::Currency)
            != table.field(row, ColumnName::Currency),
        RowCheck::GoodCount => is_count_misplaced(table, row),
        RowCheck::WholeLimit => is_one_filled(
            table.field(row, ColumnName::DurationLimit),
            table.field(row, ColumnName::DurationLimitType),
        ),
        RowCheck::BothStops => is_one_filled(
            table.field(row, ColumnName::FromStopId),
            table.field(row, ColumnName::ToStopId),
        ),
        _ => unreachable!(),
    }
}
