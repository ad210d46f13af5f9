//! What can be paid for a leg, and what may fill the place of a change.
ghost use Rattle.std.specs.Prelude.{◌≡◌, ◌++◌, [], ◌∷◌, flat_map, map, option_map, IfOk, OnOk, Some};
ghost use Rattle.transit_base.specs.declared.numbers.ProductRowId.{ProductRowId};
ghost use Rattle.transit_base.specs.declared.numbers.RuleId.{RuleId};
ghost use Rattle.fare_transfer_rules.specs.declared.groups.ClassedRow.{ClassedRow};
ghost use Rattle.fare_transfer_rules.specs.Changes.{asked_of};
ghost use Rattle.fare_automaton.specs.Options.{ArePicks, pick_of, rule_picks, place_of, product_places, chosen_places, place_list};

use crate::automaton::Automaton;
use fare_transfer_rules::{Change, ClassedRow, is_chosen};
use feed_rows::{ChangeChoice, LegChoice, LegFacts};
use std::alloc::{AllocError, Global};
use transit_base::{ProductId, ProductRowId, RuleId, XferId};

impl<'f> Automaton<'f> {
    /// What can be paid for the leg: each rule that it selects with each open row of its product. It is the same for all legs
    /// with the same network, areas and timeframe groups.
    ///
    /// # Errors
    /// Want of memory.
    pub fn options(&self, alloc: Global, leg: &LegFacts) -> Result<Vec<LegChoice>, AllocError>
        ensures { IfOk result (λ picks. ArePicks self.now.feed self.now.buyer leg.now picks.items) }
    {
        match self.leg_rules.selected(alloc, leg) {
            Ok(rules) => self.picks_of(alloc, rules.items()),
            Err(AllocError) => Err(AllocError),
        }
    }

    /// Each of the rules with each open row of its product.
    fn picks_of(&self, alloc: Global, rules: &[RuleId]) -> Result<Vec<LegChoice>, AllocError>
        ensures { IfOk result (λ picks. picks.items ≡ flat_map (λ (rule : RuleId). rule_picks self.now.feed self.now.buyer rule.0) rules.now) }
    {
        let mut picks = Vec::new(alloc);
        for rule in rules {
            self.push_rule(*rule, &mut picks)?;
        }
        Ok(picks)
    }

    /// Adds the rule with each open row of its product.
    fn push_rule(&self, rule: RuleId, picks: &mut Vec<LegChoice>) -> Result<(), AllocError>
        ensures { OnOk result (picks.new.items ≡ picks.old.items ++ rule_picks self.now.feed self.now.buyer rule.0) }
    {
        match self.leg_row(rule) {
            Some(own) => push_rows(rule, self.open_rows(own.product), picks),
            None => Ok(()),
        }
    }

    /// Replaces what `places` holds by what may fill the place of the change: each selected row with each open row of its
    /// product, where it has one; or nothing, where no row is selected.
    ///
    /// # Errors
    /// Want of memory.
    #[tactic(auto, unfolding(crate::specs::Options::place_list))]
    pub(crate) fn places_into(
        &self,
        change: Option<Change>,
        places: &mut Vec<Option<ChangeChoice>>,
    ) -> Result<(), AllocError>
        ensures { OnOk result (places.new.items ≡ place_list self.now.feed self.now.buyer (option_map asked_of change)) }
    {
        places.clear();
        match change {
            Some(asked) => self.add_places(&asked, places),
            None => push_place(places, None),
        }
    }

    /// Adds what may fill the place of the change.
    fn add_places(
        &self,
        change: &Change,
        places: &mut Vec<Option<ChangeChoice>>,
    ) -> Result<(), AllocError>
        ensures { OnOk result (places.new.items ≡ places.old.items ++ place_list self.now.feed self.now.buyer (Some (asked_of change.now))) }
    {
        let among = self.rows_between(change.from, change.to);
        let least = self.least_for(change, among);
        if least.is_some() {
            self.push_places(change, least, among, places)
        } else {
            push_place(places, None)
        }
    }

    /// Adds those of the rows that are chosen where this is the least count, each with each open row of its product.
    fn push_places(
        &self,
        change: &Change,
        least: Option<Option<u32>>,
        among: &[ClassedRow],
        places: &mut Vec<Option<ChangeChoice>>,
    ) -> Result<(), AllocError>
        ensures { OnOk result (places.new.items ≡ places.old.items ++ flat_map (λ (r : ClassedRow). chosen_places self.now.feed self.now.buyer (asked_of change.now) least r.row) among.now) }
    {
        for classed in among {
            self.push_chosen(change, least, classed.row, places)?;
        }
        Ok(())
    }

    /// Adds the row with each open row of its product, where it is chosen.
    fn push_chosen(
        &self,
        change: &Change,
        least: Option<Option<u32>>,
        rule: XferId,
        places: &mut Vec<Option<ChangeChoice>>,
    ) -> Result<(), AllocError>
        ensures { OnOk result (places.new.items ≡ places.old.items ++ chosen_places self.now.feed self.now.buyer (asked_of change.now) least rule) }
    {
        match self.transfer_row(rule) {
            Some(row) if is_chosen(change, least, row) => {
                self.push_product(rule, row.product, places)
            }
            _ => Ok(()),
        }
    }

    /// Adds the row with each open row of the product; alone, where there is none.
    #[tactic(auto, unfolding(crate::specs::Options::product_places))]
    fn push_product(
        &self,
        rule: XferId,
        product: Option<ProductId>,
        places: &mut Vec<Option<ChangeChoice>>,
    ) -> Result<(), AllocError>
        ensures { OnOk result (places.new.items ≡ places.old.items ++ product_places self.now.feed self.now.buyer rule.0 product) }
    {
        match product {
            Some(own) => push_product_rows(rule, self.open_rows(own), places),
            None => {
                let alone = ChangeChoice {
                    rule,
                    product: None,
                };
                push_place(places, Some(alone))
            }
        }
    }
}

/// Adds the rule with each of the rows.
fn push_rows(
    rule: RuleId,
    rows: &[ProductRowId],
    picks: &mut Vec<LegChoice>,
) -> Result<(), AllocError>
    ensures { OnOk result (picks.new.items ≡ picks.old.items ++ map (λ (row : ProductRowId). pick_of rule.0 row.0) rows.now) }
{
    for row in rows {
        picks.push(LegChoice {
            rule,
            product: *row,
        })?;
    }
    Ok(())
}

/// Adds the transfer row with each of the rows.
fn push_product_rows(
    rule: XferId,
    rows: &[ProductRowId],
    places: &mut Vec<Option<ChangeChoice>>,
) -> Result<(), AllocError>
    ensures { OnOk result (places.new.items ≡ places.old.items ++ map (λ (row : ProductRowId). place_of rule.0 (Some row.0)) rows.now) }
{
    for row in rows {
        let place = ChangeChoice {
            rule,
            product: Some(*row),
        };
        push_place(places, Some(place))?;
    }
    Ok(())
}

/// Adds the place.
fn push_place(
    places: &mut Vec<Option<ChangeChoice>>,
    place: Option<ChangeChoice>,
) -> Result<(), AllocError>
    ensures { OnOk result (places.new.items ≡ places.old.items ++ place ∷ []) }
{
    places.push(place)?;
    Ok(())
}
