//! What the rows of `fare_transfer_rules.txt` read of changes from each leg group, found once.
ghost use Rattle.std.specs.Prelude.{◌≡◌, IfOk, fold, map, max};
ghost use Rattle.plain_laws.specs.Plain.{at_and, filled_and};
ghost use Rattle.fare_transfer_rules.specs.declared.groups.ClassedRow.{ClassedRow};
ghost use Rattle.fare_transfer_rules.specs.BuiltTransferRules.{AreXferRulesOf};
ghost use Rattle.fare_automaton.specs.Compiled.{reads_of, AreReads, count_at, counts_from, has_limit, some_limit};

use fare_transfer_rules::{ClassedRow, XferRules, counts_from_departure, row_at};
use feed_rows::{Feed, Limit, TransferRuleRow};
use std::alloc::{AllocError, Global};
use transit_base::{LegGroupId, XferId};

/// A moment of a run's first leg.
#[derive(Clone, Copy)]
pub enum Clock {
    Departure,
    Arrival,
}

/// What rows read of changes from a leg group.
#[derive(Clone, Copy)]
pub struct GroupReads {
    /// The greatest number of changes within the group that a row counts; 0 where none does.
    pub greatest_count: u32,
    /// Whether a row from the group has a limit that counts from a departure.
    pub departure: bool,
    /// Whether a row from the group has a limit that counts from an arrival.
    pub arrival: bool,
}

/// What rows read of changes from each leg group.
///
/// # Errors
/// Want of memory.
pub fn reads_of_groups(
    alloc: Global,
    feed: &Feed,
    rules: &XferRules,
) -> Result<Vec<GroupReads>, AllocError>
    requires { AreXferRulesOf feed.now rules.now }
    ensures { IfOk result (λ reads. AreReads feed.now reads.items) }
{
    let count = feed.group_names.items().len();
    let mut reads = Vec::with_capacity(alloc, count)?;
    for group in 0..count {
        reads.push(reads_of(feed, rules, LegGroupId(group as u32)))?;
    }
    Ok(reads)
}

/// What rows read of changes from the leg group.
pub fn reads_of(feed: &Feed, rules: &XferRules, group: LegGroupId) -> GroupReads
    requires { AreXferRulesOf feed.now rules.now }
    ensures { result ≡ reads_of feed.now group }
{
    let rows = feed.transfer_rules.items();
    let from = rules.rows_from(group);
    GroupReads {
        greatest_count: greatest_among(rows, rules.rows_between(group, group)),
        departure: some_limit(rows, from, Clock::Departure),
        arrival: some_limit(rows, from, Clock::Arrival),
    }
}

/// The greatest count of these rows; 0 where none is a number.
fn greatest_among(rows: &[TransferRuleRow], among: &[ClassedRow]) -> u32
    ensures { result ≡ fold max 0 (map (λ (r : ClassedRow). count_at rows.now r.row) among.now) }
{
    let mut greatest = 0;
    for classed in among {
        greatest = count_at(rows, classed.row).max(greatest);
    }
    greatest
}

/// The count of the row, where it is a number; else 0.
fn count_at(rows: &[TransferRuleRow], row: XferId) -> u32
    ensures { result ≡ count_at rows.now row }
{
    match row_at(rows, row) {
        Some(own) => own.count.unwrap_or(0),
        None => 0,
    }
}

/// Whether one of the rows has a limit that counts from the clock.
fn some_limit(rows: &[TransferRuleRow], among: &[ClassedRow], clock: Clock) -> bool
    ensures { result ≡ some_limit (counts_from clock) rows.now among.now }
{
    among
        .iter()
        .any(|classed| limit_at(rows, classed.row, clock))
}

/// Whether the row has a limit that counts from the clock.
fn limit_at(rows: &[TransferRuleRow], row: XferId, clock: Clock) -> bool
    ensures { result ≡ at_and rows.now row.0 (has_limit (counts_from clock)) }
{
    match row_at(rows, row) {
        Some(own) => has_limit(own.limit, clock),
        None => false,
    }
}

/// Whether there is a limit, and it counts from the clock.
fn has_limit(limit: Option<Limit>, clock: Clock) -> bool
    ensures { result ≡ filled_and limit (λ l. counts_from clock l.kind) }
{
    match limit {
        Some(limit) => counts_from(limit.kind, clock),
        None => false,
    }
}

/// Whether limits of this type count from the clock.
fn counts_from(kind: u8, clock: Clock) -> bool
    ensures { result ≡ counts_from clock kind }
{
    match clock {
        Clock::Departure => counts_from_departure(kind),
        Clock::Arrival => !counts_from_departure(kind),
    }
}
