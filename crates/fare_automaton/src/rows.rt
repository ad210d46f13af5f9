//! Which transfer rows are selected for a change from a fare state.
ghost use Rattle.std.specs.Prelude.{◌≡◌, Option, ℕ};
ghost use Rattle.feed_rows.specs.TransferRules.{is_selected};
ghost use Rattle.feed_rows.specs.FareSteps.{is_arranged_after};
ghost use Rattle.fare_transfer_rules.specs.BuiltTransferRules.{AreRowsBetween, IsLeastFor};
ghost use Rattle.fare_transfer_rules.specs.Changes.{asked_of};

use crate::automaton::Automaton;
use fare_transfer_rules::{Change, ClassedRow, least_count};
use feed_rows::TransferRuleRow;

impl<'f> Automaton<'f> {
    /// The least count that suffices for the change, of the rows for changes between its groups; none where it isn't arranged.
    pub(crate) fn least_for(&self, change: &Change, among: &[ClassedRow]) -> Option<Option<u32>>
        requires { AreRowsBetween self.now.feed change.now.from change.now.to among.now }
        ensures { IsLeastFor self.now.feed (asked_of change.now) result }
    {
        least_count(self.feed().transfer_rules.items(), change, among)
    }

    /// Whether the row is selected for the change.
    pub(crate) fn selects(&self, change: &Change, row: &TransferRuleRow) -> bool
        ensures { result ≡ is_selected self.now.feed (asked_of change.now) row.now }
    {
        let least = self.least_for(change, self.rows_between(change.from, change.to));
        self.transfer_rules.is_selected(change, least, row)
    }

    /// Whether some row is selected for the change: that is where some row suffices.
    pub(crate) fn is_arranged(&self, change: &Change) -> bool
        ensures { result ≡ is_arranged_after self.now.feed (asked_of change.now) }
    {
        self.least_for(change, self.rows_between(change.from, change.to))
            .is_some()
    }
}
