//! The transfer rules of a feed: which changes between legs are arranged, and by which rows.
#![tactic(auto)]

ghost use Rattle.std.specs.Prelude.{◌≡◌, Option, ◌++◌, IfOk, OnOk};
ghost use Rattle.feed_rows.specs.FeedRows.{FeedRows};
ghost use Rattle.feed_rows.specs.TransferRules.{group_matches, is_selected, is_selected_transfer, is_arranged, selected_transfers};
ghost use Rattle.plain_laws.specs.Plain.{at_and};
ghost use Rattle.fare_transfer_rules.specs.BuiltTransferRules.{AreXferRulesOf, AreRowsBetween, AreRowsFrom, IsLeastFor, is_between};
ghost use Rattle.fare_transfer_rules.specs.Changes.{asked_of};
ghost use Rattle.fare_transfer_rules.specs.Fits.{group_fits, chosen_among, pair_rows};

mod changes;
mod columns;
mod counts;
mod groups;
mod selected;

use crate::changes::known_change;
pub use crate::changes::{Change, counts_from_departure};
use crate::columns::Column;
pub use crate::groups::ClassedRow;
use crate::groups::{class_of, rows_by_from, rows_to};
use crate::selected::is_chosen_at;
pub use crate::selected::{is_chosen, least_count, row_at};
use feed_rows::{Feed, TransferFacts, TransferRuleRow, XferList};
use item_groups::Groups;
use number_marks::{is_marked, marked};
use std::alloc::{AllocError, Global};
use transit_base::{LegGroupId, XferId};

/// The transfer rules of a feed.
///
/// What the calls answer is about the feed that the value was built from.
pub struct XferRules {
    /// The rows, in file order.
    rules: Vec<TransferRuleRow>,
    /// The rows of each leg group that rows name in the column `from_leg_group_id`, and first those that name none; of
    /// each by what they name in the column `to_leg_group_id`, and first those that name nothing there.
    by_from: Groups<ClassedRow>,
    /// Whether a row names each leg group in the column `from_leg_group_id`.
    froms: Vec<bool>,
    /// Whether a row names each leg group in the column `to_leg_group_id`.
    tos: Vec<bool>,
}

// Written out, so that what holds one needn't look into it to let go of it.
impl Drop for XferRules {
    fn drop(self) {
        let XferRules {
            rules: _,
            by_from: _,
            froms: _,
            tos: _,
        } = self;
    }
}

impl XferRules {
    /// The transfer rules of the feed.
    ///
    /// # Errors
    /// Want of memory.
    pub fn build(alloc: Global, feed: &Feed) -> Result<XferRules, AllocError>
        ensures { IfOk result (λ rules. AreXferRulesOf feed.now rules) }
    {
        let rows = feed.transfer_rules.items();
        let groups = feed.group_names.items().len();
        Ok(XferRules {
            rules: Vec::from_slice(alloc, rows)?,
            by_from: rows_by_from(alloc, rows, groups as u32)?,
            froms: marked(alloc, rows, Column::From, groups)?,
            tos: marked(alloc, rows, Column::To, groups)?,
        })
    }

    /// The rows that are selected for the change, in file order: of the candidates whose count is at least the change's,
    /// those of the least count. There are none exactly where the change isn't arranged.
    ///
    /// # Errors
    /// Want of memory.
    pub fn selected(&self, alloc: Global, change: &TransferFacts) -> Result<XferList, AllocError>
        ensures { IfOk result (λ rows. (feed : FeedRows) → AreXferRulesOf feed self.now → rows ≡ selected_transfers feed change.now) }
    {
        let mut rows = Vec::new(alloc);
        self.select_into(change, &mut rows)?;
        row_list(alloc, rows.as_slice())
    }

    /// Adds the rows that are selected for the change, in file order.
    ///
    /// # Errors
    /// Want of memory.
    pub fn select_into(
        &self,
        change: &TransferFacts,
        rows: &mut Vec<XferId>,
    ) -> Result<(), AllocError>
        ensures { OnOk result ((feed : FeedRows) → AreXferRulesOf feed self.now → rows.new.items ≡ rows.old.items ++ selected_transfers feed change.now) }
    {
        let asked = known_change(change);
        let among = self.rows_between(asked.from, asked.to);
        let least = least_count(&self.rules, &asked, among);
        self.push_chosen(&asked, among, least, rows)
    }

    /// Whether the row is selected for the change. A number that is no row's is never selected.
    pub fn selects(&self, change: &TransferFacts, row: XferId) -> bool
        ensures { (feed : FeedRows) → AreXferRulesOf feed self.now → result ≡ at_and feed.transfer_rules row.0 (is_selected_transfer feed change.now) }
    {
        let asked = known_change(change);
        match row_at(&self.rules, row) {
            Some(rule) => self.is_selected(&asked, self.least_count(&asked), rule),
            None => false,
        }
    }

    /// Whether the change is arranged: some row is selected for it.
    pub fn arranged(&self, change: &TransferFacts) -> bool
        ensures { (feed : FeedRows) → AreXferRulesOf feed self.now → result ≡ is_arranged feed change.now }
    {
        self.least_count(&known_change(change)).is_some()
    }

    /// Whether the row is selected for the change, where this is the least count that suffices.
    pub fn is_selected(
        &self,
        change: &Change,
        least: Option<Option<u32>>,
        row: &TransferRuleRow,
    ) -> bool
        ensures { (feed : FeedRows) → AreXferRulesOf feed self.now → IsLeastFor feed (asked_of change.now) least → result ≡ is_selected feed (asked_of change.now) row.now }
    {
        self.is_between(change, row) && is_chosen(change, least, row)
    }

    /// The rows for changes from the one leg group to the other, in file order. They are found by two searches.
    pub fn rows_between(&self, from: LegGroupId, to: LegGroupId) -> &[ClassedRow]
        ensures { (feed : FeedRows) → AreXferRulesOf feed self.now → AreRowsBetween feed from to result.now }
    {
        self.pair_rows(from, to)
    }

    /// The rows for changes from the leg group, whatever they lead to.
    pub fn rows_from(&self, group: LegGroupId) -> &[ClassedRow]
        ensures { (feed : FeedRows) → AreXferRulesOf feed self.now → AreRowsFrom feed group result.now }
    {
        let class = class_of(&self.froms, group.0);
        self.by_from.get(class as usize)
    }

    /// Whether a row with this in the column `from_leg_group_id` is for changes from the leg group.
    fn matches_from(&self, field: Option<LegGroupId>, group: LegGroupId) -> bool
        ensures { (feed : FeedRows) → AreXferRulesOf feed self.now → result ≡ group_matches feed (λ r. r.from) field group }
    {
        group_fits(&self.froms, field, group)
    }

    /// Whether a row with this in the column `to_leg_group_id` is for changes to the leg group.
    fn matches_to(&self, field: Option<LegGroupId>, group: LegGroupId) -> bool
        ensures { (feed : FeedRows) → AreXferRulesOf feed self.now → result ≡ group_matches feed (λ r. r.to) field group }
    {
        group_fits(&self.tos, field, group)
    }

    /// The rows of the classes of the two leg groups, in file order.
    fn pair_rows(&self, from: LegGroupId, to: LegGroupId) -> &[ClassedRow]
        ensures { (feed : FeedRows) → AreXferRulesOf feed self.now → result.now ≡ pair_rows self.now from to }
    {
        let from_class = class_of(&self.froms, from.0);
        let to_class = class_of(&self.tos, to.0);
        rows_to(self.by_from.get(from_class as usize), to_class)
    }

    /// The least count that suffices for the change; none where it isn't arranged.
    fn least_count(&self, change: &Change) -> Option<Option<u32>>
        ensures { (feed : FeedRows) → AreXferRulesOf feed self.now → IsLeastFor feed (asked_of change.now) result }
    {
        least_count(
            &self.rules,
            change,
            self.rows_between(change.from, change.to),
        )
    }

    /// Adds those of the rows that are chosen where this is the least count.
    fn push_chosen(
        &self,
        change: &Change,
        among: &[ClassedRow],
        least: Option<Option<u32>>,
        rows: &mut Vec<XferId>,
    ) -> Result<(), AllocError>
        ensures { OnOk result (rows.new.items ≡ rows.old.items ++ chosen_among self.now.rules.items (asked_of change.now) least among.now) }
    {
        for classed in among {
            if is_chosen_at(&self.rules, change, least, classed.row) {
                rows.push(classed.row)?;
            }
        }
        Ok(())
    }

    /// Whether the row is for changes between the two groups of the change.
    fn is_between(&self, change: &Change, row: &TransferRuleRow) -> bool
        ensures { (feed : FeedRows) → AreXferRulesOf feed self.now → result ≡ is_between feed change.now.from change.now.to row.now }
    {
        self.matches_from(row.from, change.from) && self.matches_to(row.to, change.to)
    }
}

/// Whether the leg group of a row, which may be empty, is that of a leg. Those that rows name in the column are marked.
fn group_fits(named: &[bool], rule: Option<LegGroupId>, group: LegGroupId) -> bool
    ensures { result ≡ group_fits named.now rule group }
{
    match rule {
        Some(own) => own.0 == group.0,
        None => !is_marked(named, group.0),
    }
}

/// The rows as a list.
fn row_list(alloc: Global, rows: &[XferId]) -> Result<XferList, AllocError>
    ensures { IfOk result (λ list. list ≡ rows.now) }
{
    let mut list = XferList::empty(alloc);
    for row in rows {
        list.push(*row)?;
    }
    Ok(list)
}
