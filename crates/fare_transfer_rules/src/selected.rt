//! Which rows are selected for a change: of the rows between its two leg groups, those of the least count that suffices.
ghost use Rattle.std.specs.Prelude.{◌≡◌, ℕ, Option, ◌&&◌, ◌||◌, is_some, nat_le, slice_get};
ghost use Rattle.std.specs.Option.{option_copied};
ghost use Rattle.plain_laws.specs.Plain.{empty_or};
ghost use Rattle.feed_rows.specs.FeedRows.{FeedRows};
ghost use Rattle.fare_transfer_rules.specs.BuiltTransferRules.{AreRowsBetween, IsLeastFor};
ghost use Rattle.fare_transfer_rules.specs.Changes.{asked_of};
ghost use Rattle.fare_transfer_rules.specs.Counts.{is_within};
ghost use Rattle.fare_transfer_rules.specs.Fits.{suits, suits_at, not_above_at, is_chosen, is_chosen_at};

use crate::changes::Change;
use crate::counts::{is_within, lesser};
use crate::groups::ClassedRow;
use feed_rows::{Limit, TransferRuleRow};
use transit_base::XferId;

/// The least count that suffices for the change, where these are all rows of the feed, and among them those for changes
/// between its two leg groups; none where the change isn't arranged.
pub fn least_count(
    rules: &[TransferRuleRow],
    change: &Change,
    among: &[ClassedRow],
) -> Option<Option<u32>>
    ensures { (feed : FeedRows) → rules.now ≡ feed.transfer_rules → AreRowsBetween feed change.now.from change.now.to among.now → IsLeastFor feed (asked_of change.now) result }
{
    let mut least = None;
    for classed in among {
        least = with_count(rules, change, classed.row, least);
    }
    least
}

/// The least count, with this row.
fn with_count(
    rules: &[TransferRuleRow],
    change: &Change,
    row: XferId,
    least: Option<Option<u32>>,
) -> Option<Option<u32>>
    ensures within { (count : Option ℕ) → is_within result count ≡ (is_within least count && not_above_at rules.now (asked_of change.now) count row) }
    ensures some { is_some result ≡ (is_some least || suits_at rules.now (asked_of change.now) row) }
{
    match row_at(rules, row) {
        Some(own) if suits(change, own) => Some(lesser(least, own.count)),
        _ => least,
    }
}

/// Whether the row with this number suits the change, and has the least count.
pub fn is_chosen_at(
    rules: &[TransferRuleRow],
    change: &Change,
    least: Option<Option<u32>>,
    row: XferId,
) -> bool
    ensures { result ≡ is_chosen_at rules.now (asked_of change.now) least row }
{
    match row_at(rules, row) {
        Some(own) => is_chosen(change, least, own),
        None => false,
    }
}

/// Whether the row suits the change, and has the least count. Where that is the least that suffices, such a row between the
/// two leg groups of the change is selected, and no other row is.
pub fn is_chosen(change: &Change, least: Option<Option<u32>>, row: &TransferRuleRow) -> bool
    ensures { result ≡ is_chosen (asked_of change.now) least row.now }
{
    suits(change, row) && is_within(least, row.count)
}

/// Whether the limit of the row is empty or holds for the change, and its count is at least the change's.
fn suits(change: &Change, row: &TransferRuleRow) -> bool
    ensures { result ≡ suits (asked_of change.now) row.now }
{
    limit_fits(change, row.limit) && count_fits(change.count, row.count)
}

/// Whether the limit of a row, where it has one, holds for the change.
fn limit_fits(change: &Change, limit: Option<Limit>) -> bool
    ensures { result ≡ empty_or limit (asked_of change.now).holds }
{
    match limit {
        Some(limit) => change.holds(limit),
        None => true,
    }
}

/// Whether the count of a row, where it has one, is at least that of a change.
fn count_fits(change: u64, count: Option<u32>) -> bool
    ensures { result ≡ empty_or count (nat_le change) }
{
    match count {
        Some(most) => change <= u64::from(most),
        None => true,
    }
}

/// The row with this number.
pub fn row_at(rows: &[TransferRuleRow], row: XferId) -> Option<&TransferRuleRow>
    ensures { option_copied result ≡ slice_get rows.now row.0 }
{
    rows.get(row.0 as usize)
}
