//! Whether row numbers are an option for a leg after a fare state.
ghost use Rattle.std.specs.Prelude.{◌≡◌, ◌&&◌, ◌==◌, option_map, is_none};
ghost use Rattle.plain_laws.specs.Plain.{at_and, empty_or, filled_and};
ghost use Rattle.feed_rows.specs.FareChoices.{is_open, chosen_leg, is_leg_choice, is_change_product};
ghost use Rattle.feed_rows.specs.FareSteps.{leg_taken, place_taken, is_whole, is_row_after, is_place_after};
ghost use Rattle.fare_transfer_rules.specs.Changes.{asked_of};
ghost use Rattle.fare_automaton.specs.Changes.{leg_of, chosen_at};

use crate::automaton::Automaton;
use crate::changes::{GroupedLeg, LegTimes};
use fare_transfer_rules::Change;
use feed_rows::{Buyer, ChangeChoice, LegChoice, LegFacts, Move, ProductRow};
use transit_base::{ProductId, ProductRowId, RiderId};

impl<'f> Automaton<'f> {
    /// The leg as changes see it, with the leg group of the rule; none where there is no such rule.
    pub(crate) fn chosen_leg(&self, leg: &LegFacts, pick: &LegChoice) -> Option<GroupedLeg>
        ensures { option_map leg_of result ≡ chosen_leg self.now.feed leg.now pick.now }
    {
        let times = LegTimes {
            departure: leg.departure,
            arrival: leg.arrival,
        };
        self.chosen_at(times, pick)
    }

    /// The same of a leg with these moments.
    pub(crate) fn chosen_at(&self, times: LegTimes, pick: &LegChoice) -> Option<GroupedLeg>
        ensures { option_map leg_of result ≡ chosen_at self.now.feed times pick.now }
    {
        let rule = self.leg_row(pick.rule)?;
        Some(GroupedLeg {
            group: rule.group,
            departure: times.departure,
            arrival: times.arrival,
        })
    }

    /// Whether the leg selects the rule, and the row is an open row of its product.
    pub(crate) fn is_leg_choice(&self, buyer: Buyer, leg: &LegFacts, taken: &Move) -> bool
        ensures { result ≡ is_leg_choice self.now.feed buyer leg.now (leg_taken taken.now) }
    {
        match self.leg_row(taken.rule) {
            Some(own) => {
                self.leg_rules.selects(leg, taken.rule)
                    && self.is_open_row(buyer, own.product, taken.product)
            }
            None => false,
        }
    }

    /// Whether the row is an open row of the product.
    fn is_open_row(&self, buyer: Buyer, product: ProductId, row: ProductRowId) -> bool
        ensures { result ≡ at_and self.now.feed.products row.0 (is_open product buyer) }
    {
        match self.product_row(row) {
            Some(priced) => is_open(product, buyer, priced),
            None => false,
        }
    }

    /// Whether the row is an open row of the product, or both are missing.
    #[tactic(auto)]
    fn is_change_product(
        &self,
        buyer: Buyer,
        product: Option<ProductId>,
        row: Option<ProductRowId>,
    ) -> bool
        ensures { result ≡ is_change_product self.now.feed buyer product row }
    {
        match (product, row) {
            (Some(named), Some(chosen)) => self.is_open_row(buyer, named, chosen),
            (None, None) => true,
            _ => false,
        }
    }

    /// Whether the row is selected for the change, with the right row of its product.
    #[tactic(auto, unfolding(feed_rows::specs::FareSteps::is_row_after))]
    fn is_row_after(&self, buyer: Buyer, change: &Change, pick: &ChangeChoice) -> bool
        ensures { result ≡ is_row_after self.now.feed buyer (asked_of change.now) pick.now }
    {
        match self.transfer_row(pick.rule) {
            Some(row) => {
                self.selects(change, row)
                    && self.is_change_product(buyer, row.product, pick.product)
            }
            None => false,
        }
    }

    /// Whether the place of the change is empty where the change isn't arranged, and else has a choice for it.
    pub(crate) fn is_place_after(
        &self,
        buyer: Buyer,
        change: Option<Change>,
        place: Option<ChangeChoice>,
    ) -> bool
        ensures { result ≡ is_place_after self.now.feed buyer (option_map asked_of change) place }
    {
        match (change, place) {
            (Some(asked), Some(pick)) => self.is_row_after(buyer, &asked, &pick),
            (Some(asked), None) => !self.is_arranged(&asked),
            (None, Some(_)) => false,
            (None, None) => true,
        }
    }
}

/// What pays the leg.
pub fn leg_taken(taken: &Move) -> LegChoice
    ensures { result ≡ leg_taken taken.now }
{
    LegChoice {
        rule: taken.rule,
        product: taken.product,
    }
}

/// What fills the place of the change to the leg.
pub fn place_taken(taken: &Move) -> Option<ChangeChoice>
    ensures { result ≡ place_taken taken.now }
{
    let rule = taken.xfer?;
    Some(ChangeChoice {
        rule,
        product: taken.xfer_product,
    })
}

/// Whether there is a product row of the change only where there is a change.
pub fn is_whole(taken: &Move) -> bool
    ensures { result ≡ is_whole taken.now }
{
    match taken.xfer {
        Some(_) => true,
        None => taken.xfer_product.is_none(),
    }
}

/// Whether the row is of the product, and open to the buyer.
#[tactic(auto, unfolding(feed_rows::specs::FareChoices::is_open))]
pub fn is_open(product: ProductId, buyer: Buyer, row: &ProductRow) -> bool
    ensures { result ≡ is_open product buyer row.now }
{
    row.product.0 == product.0 && opens(row.rider, buyer)
}

/// Whether a row of this category is open to the buyer.
fn opens(category: Option<RiderId>, buyer: Buyer) -> bool
    ensures { result ≡ empty_or category (λ c. filled_and buyer.rider (λ r. r.0 == c.0)) }
{
    match (category, buyer.rider) {
        (Some(own), Some(other)) => other.0 == own.0,
        (Some(_), None) => false,
        (None, _) => true,
    }
}
