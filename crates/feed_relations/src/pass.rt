//! The files in their order, and the checks of each.
ghost use Rattle.std.specs.Prelude.{◌≡◌, ◌<◌, ◌≤◌, ℕ, true, IfOk};
ghost use Rattle.plain_laws.specs.Plain.{find_below, first_below};
ghost use Rattle.feed_files.specs.declared.names.FileName.TheVariants as file;
ghost use Rattle.feed_faults.specs.Records.{row_count};
ghost use Rattle.feed_faults.specs.FeedTables.{table_in};
ghost use Rattle.feed_faults.specs.NetworkRelations.{are_networks_forbidden};
ghost use Rattle.feed_faults.specs.RowChecks.{fails, relation_fault_of_row};
ghost use Rattle.feed_faults.specs.FirstFault.{relation_fault, first_relation_fault};
ghost use Rattle.feed_tables.specs.IdColumns.{call_ids};
ghost use Rattle.feed_tables.specs.ReadCalls.{read_calls};
ghost use Rattle.feed_tables.specs.RowNumbers.{has_table};
ghost use Rattle.feed_relations.specs.FittingChecks.{Fits};
ghost use Rattle.feed_relations.specs.JudgedBy.{AreCallsNamed};
ghost use Rattle.feed_relations.specs.RowKeys.{IsKeyKnown};

use crate::calls::fault_of_calls;
use crate::frames::first_bad_frame;
use crate::judged::JudgedFeed;
use crate::keys::first_repeated;
use crate::rows::row_fails;
use feed_faults::{RowCheck, RowRule, rule_of};
use feed_files::{ColumnName, FaultKind, FeedFault, FileName};
use feed_tables::{CallTable, Ids, ReadCalls, Tables};
use feed_text::{field_fault, file_fault, is_filled};
use std::alloc::{AllocError, Global};

// The first row below one at which a check of its file fails.
fn first_failing<C: CallTable>(
    alloc: Global,
    feed: &JudgedFeed<C>,
    file: FileName,
    rule: RowRule,
    below: u32,
) -> Result<Option<u32>, AllocError>
    requires within { below ≤ row_count (table_in feed.now file) }
    requires kept { has_table file ≡ true }
    requires fits { Fits file rule.check }
    requires known { (row : ℕ) → row < below → rule.check ≡ RowCheck.NewKey → IsKeyKnown feed.now file row }
    ensures { IfOk result (λ found. found ≡ find_below below (fails feed.now file rule)) }
{
    match rule.check {
        RowCheck::NewKey => first_repeated(alloc, feed, file, below),
        RowCheck::GoodTimeframe => first_bad_frame(alloc, feed, below),
        _ => {
            for row in 0..below {
                if row_fails(feed, file, rule, row) {
                    return Ok(Some(row));
                }
            }
            Ok(None)
        }
    }
}

// The first fault of the rows of a table: the least row at which a check fails, and at that row the earliest of its checks. Each
// check looks only at the rows before those at which an earlier one failed.
fn fault_of_table<C: CallTable>(
    alloc: Global,
    feed: &JudgedFeed<C>,
    file: FileName,
) -> Result<Option<FeedFault>, AllocError>
    requires { has_table file ≡ true }
    ensures { IfOk result (λ fault. fault ≡ first_below (row_count (table_in feed.now file)) (relation_fault_of_row feed.now file)) }
{
    let mut below = feed.tables().rows(file);
    let mut fault = None;
    for (i, rule) in rule_of(file).checks.iter().enumerate() {
        if let Some(row) = first_failing(alloc, feed, file, *rule, below)? {
            below = row;
            fault = Some(field_fault(file, row, rule.column, rule.kind));
        }
    }
    Ok(fault)
}

// Whether a file has a row beside a route with a network of its own.
#[tactic(auto, unfolding(feed_faults::specs::NetworkRelations::are_networks_forbidden))]
fn are_networks_forbidden<C: CallTable>(tables: &Tables<C>, file: FileName) -> bool
    ensures { result ≡ are_networks_forbidden tables.now file }
{
    let routes = tables.get(FileName::Routes);
    tables.rows(file) > 0
        && (0..routes.rows()).any(|row| is_filled(routes.field(row, ColumnName::NetworkId)))
}

// The first fault of a file among the others: that it is forbidden comes before its rows.
#[tactic(auto, unfolding(feed_faults::specs::FirstFault::relation_fault), using(feed_tables::proofs::NumberLaws::kept_unless))]
fn relation_fault<C: CallTable>(
    alloc: Global,
    feed: &JudgedFeed<C>,
    file: FileName,
) -> Result<Option<FeedFault>, AllocError>
    ensures { IfOk result (λ fault. fault ≡ relation_fault feed.now file) }
{
    let is_of_networks = file == FileName::Networks || file == FileName::RouteNetworks;
    if is_of_networks && are_networks_forbidden(feed.tables(), file) {
        return Ok(Some(file_fault(file, FaultKind::ForbiddenTogether)));
    }
    if file == FileName::StopTimes {
        return Ok(fault_of_calls(feed));
    }
    fault_of_table(alloc, feed, file)
}

// The first fault of the files among each other, in their order.
#[tactic(auto, unfolding(feed_faults::specs::FirstFault::first_relation_fault))]
fn first_fault<C: CallTable>(
    alloc: Global,
    feed: &JudgedFeed<C>,
) -> Result<Option<FeedFault>, AllocError>
    ensures { IfOk result (λ fault. fault ≡ first_relation_fault feed.now) }
{
    for (i, file) in FileName::all().iter().enumerate() {
        if let Some(fault) = relation_fault(alloc, feed, *file)? {
            return Ok(Some(fault));
        }
    }
    Ok(None)
}

/// The first fault of the files among each other, in the order of the files and of their rows, by what was read of the stop
/// times. None exactly where they have none.
///
/// # Errors
/// Want of memory.
pub fn first_relation_fault<C: CallTable>(
    alloc: Global,
    tables: &Tables<C>,
    ids: &Ids<C>,
    calls: &ReadCalls,
) -> Result<Option<FeedFault>, AllocError>
    requires ids { ids.now ≡ tables.now }
    requires named { AreCallsNamed tables.now }
    requires calls { calls.now ≡ read_calls (call_ids tables.now) (table_in tables.now file.StopTimes) }
    ensures { IfOk result (λ fault. fault ≡ first_relation_fault tables.now) }
{
    let feed = JudgedFeed::of(alloc, tables, ids, calls)?;
    first_fault(alloc, &feed)
}
