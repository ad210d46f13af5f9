//! The leg rules of a feed, and which of them a leg selects.
#![tactic(auto)]

ghost use Rattle.std.specs.Prelude.{◌≡◌, ℕ, not, nat_le, ◌==◌, ◌&&◌, ◌++◌, IfOk, OnOk};
ghost use Rattle.std.specs.List.{list_any, list_all};
ghost use Rattle.std.specs.List.Sorted.{IsNonDecreasingBy};
ghost use Rattle.feed_rows.specs.FeedRows.{FeedRows};
ghost use Rattle.feed_rows.specs.LegRules.{frame_matches, selected_rules, is_selected_rule};
ghost use Rattle.plain_laws.specs.Plain.{at_and};
ghost use Rattle.number_marks.specs.Marks.{is_marked};
ghost use Rattle.fare_leg_rules.specs.Fits.{network_fits, area_fits, fits, weight, weight_of, is_within, is_chosen, chosen_among, own_rules, IsTop};
ghost use Rattle.fare_leg_rules.specs.Orders.{IsPutInOrder};
ghost use Rattle.fare_leg_rules.specs.Places.{candidates};
ghost use Rattle.fare_leg_rules.specs.BuiltLegRules.{AreLegRulesOf};

mod columns;
mod places;

use crate::columns::Column;
use crate::places::{PlacedRule, at_place, common_rules, place_of, placed_rules, rules_by_network};
use feed_rows::{Feed, LegFacts, LegRuleRow, RuleList};
use item_groups::Groups;
use number_marks::{is_marked, marked};
use std::alloc::{AllocError, Global};
use transit_base::{AreaId, FrameId, NetworkId, RuleId};

/// The leg rules of a feed.
///
/// What the calls answer is about the feed that the value was built from.
pub struct LegRules {
    /// The rules, in file order.
    rules: Vec<LegRuleRow>,
    /// Those without a network, by the area that they name in the column `from_area_id`.
    common: Vec<PlacedRule>,
    /// Those of each network, by that area.
    by_network: Groups<PlacedRule>,
    /// Whether the file has the column `rule_priority`.
    has_priority: bool,
    /// Whether a rule names each network.
    networks: Vec<bool>,
    /// Whether a rule names each area in the column `from_area_id`.
    from_areas: Vec<bool>,
    /// Whether a rule names each area in the column `to_area_id`.
    to_areas: Vec<bool>,
}

// Written out, so that what holds one needn't look into it to let go of it.
impl Drop for LegRules {
    fn drop(self) {
        let LegRules {
            rules: _,
            common: _,
            by_network: _,
            has_priority: _,
            networks: _,
            from_areas: _,
            to_areas: _,
        } = self;
    }
}

impl LegRules {
    /// The leg rules of the feed.
    ///
    /// # Errors
    /// Want of memory.
    pub fn build(alloc: Global, feed: &Feed) -> Result<LegRules, AllocError>
        ensures { IfOk result (λ rules. AreLegRulesOf feed.now rules) }
    {
        let rows = feed.leg_rules.items();
        let networks = feed.network_names.items().len();
        let areas = feed.areas.items().len();
        let placed = placed_rules(alloc, rows)?;
        Ok(LegRules {
            rules: Vec::from_slice(alloc, rows)?,
            common: common_rules(alloc, rows, &placed)?,
            by_network: rules_by_network(alloc, rows, &placed, networks as u32)?,
            has_priority: feed.has_priority,
            networks: marked(alloc, rows, Column::Network, networks)?,
            from_areas: marked(alloc, rows, Column::FromArea, areas)?,
            to_areas: marked(alloc, rows, Column::ToArea, areas)?,
        })
    }

    /// The rules that the leg selects, in file order: those that match it, of the highest priority. There are none exactly
    /// where no rule matches it.
    ///
    /// # Errors
    /// Want of memory.
    pub fn selected(&self, alloc: Global, leg: &LegFacts) -> Result<RuleList, AllocError>
        ensures { IfOk result (λ rules. (feed : FeedRows) → AreLegRulesOf feed self.now → rules ≡ selected_rules feed leg.now) }
    {
        let least = self.top_priority(leg);
        let mut chosen = Vec::new(alloc);
        self.push_candidates(&mut chosen, leg, self.own(leg), least)?;
        self.push_candidates(&mut chosen, leg, &self.common, least)?;
        put_in_order(&mut chosen);
        rule_list(alloc, chosen.as_slice())
    }

    /// Whether the leg selects the rule: it matches the leg, and none that does has a higher priority. A number that is no
    /// rule's is never selected.
    pub fn selects(&self, leg: &LegFacts, rule: RuleId) -> bool
        ensures { (feed : FeedRows) → AreLegRulesOf feed self.now → result ≡ at_and feed.leg_rules rule.0 (is_selected_rule feed leg.now) }
    {
        self.is_chosen(leg, rule, self.top_priority(leg))
    }

    /// The rules of the leg's network.
    fn own(&self, leg: &LegFacts) -> &[PlacedRule]
        ensures { result.now ≡ own_rules self.now leg.now }
    {
        match leg.network {
            Some(network) => self.by_network.get(network.0 as usize),
            None => &[],
        }
    }

    /// Adds those of the rules that match the leg with at least this priority. None matches it that names an area that the
    /// boarding stop doesn't have, so no such is looked at.
    fn push_candidates(
        &self,
        chosen: &mut Vec<RuleId>,
        leg: &LegFacts,
        rules: &[PlacedRule],
        least: u32,
    ) -> Result<(), AllocError>
        ensures { OnOk result (IsNonDecreasingBy (λ (rule : PlacedRule). rule.place) rules.now → chosen.new.items ≡ chosen.old.items ++ chosen_among self.now leg.now least (candidates rules.now leg.now.from_areas)) }
    {
        self.push_chosen(chosen, leg, at_place(rules, 0), least)?;
        let areas = leg.from_areas.items();
        for i in 0..areas.len() {
            let named = at_place(rules, place_of(Some(areas[i])));
            self.push_chosen(chosen, leg, named, least)?;
        }
        Ok(())
    }

    /// Adds those of the rules that match the leg with at least this priority.
    fn push_chosen(
        &self,
        chosen: &mut Vec<RuleId>,
        leg: &LegFacts,
        among: &[PlacedRule],
        least: u32,
    ) -> Result<(), AllocError>
        ensures { OnOk result (chosen.new.items ≡ chosen.old.items ++ chosen_among self.now leg.now least among.now) }
    {
        for placed in among {
            if self.is_chosen(leg, placed.rule, least) {
                chosen.push(placed.rule)?;
            }
        }
        Ok(())
    }

    /// The highest priority of a rule that matches the leg; 0 where none does. A rule that matches has the leg's network
    /// or none, so no other is looked at.
    fn top_priority(&self, leg: &LegFacts) -> u32
        ensures { (feed : FeedRows) → AreLegRulesOf feed self.now → IsTop self.now leg.now result }
    {
        let top = self.top_candidate(leg, &self.common, 0);
        self.top_candidate(leg, self.own(leg), top)
    }

    /// The highest priority of one of these rules that matches the leg, or the least, where none has a higher one. None
    /// matches it that names an area that the boarding stop doesn't have, so no such is looked at.
    fn top_candidate(&self, leg: &LegFacts, rules: &[PlacedRule], least: u32) -> u32
        ensures { IsNonDecreasingBy (λ (rule : PlacedRule). rule.place) rules.now → (priority : ℕ) → nat_le result priority ≡ (nat_le least priority && list_all (is_within self.now leg.now priority) (candidates rules.now leg.now.from_areas)) }
    {
        let mut top = self.top_among(leg, at_place(rules, 0), least);
        let areas = leg.from_areas.items();
        for i in 0..areas.len() {
            top = self.top_among(leg, at_place(rules, place_of(Some(areas[i]))), top);
        }
        top
    }

    /// The highest priority of one of these rules that matches the leg, or the least, where none has a higher one.
    fn top_among(&self, leg: &LegFacts, among: &[PlacedRule], least: u32) -> u32
        ensures { (priority : ℕ) → nat_le result priority ≡ (nat_le least priority && list_all (is_within self.now leg.now priority) among.now) }
    {
        let mut top = least;
        for placed in among {
            top = self.weight_of(leg, placed.rule).max(top);
        }
        top
    }

    /// The priority of the rule with this number, where it matches the leg; else 0.
    fn weight_of(&self, leg: &LegFacts, rule: RuleId) -> u32
        ensures { result ≡ weight_of self.now leg.now rule }
    {
        match self.rules.get(rule.0 as usize) {
            Some(row) => self.weight(leg, row),
            None => 0,
        }
    }

    /// The priority of a rule that matches the leg; 0 of one that doesn't.
    fn weight(&self, leg: &LegFacts, rule: &LegRuleRow) -> u32
        ensures { result ≡ weight self.now leg.now rule.now }
    {
        if self.fits(leg, rule) {
            rule.priority
        } else {
            0
        }
    }

    /// Whether the rule matches the leg, with at least this priority.
    fn is_chosen(&self, leg: &LegFacts, rule: RuleId, least: u32) -> bool
        ensures { result ≡ at_and self.now.rules.items rule.0 (is_chosen self.now leg.now least) }
    {
        match self.rules.get(rule.0 as usize) {
            Some(row) => self.fits(leg, row) && least <= row.priority,
            None => false,
        }
    }

    /// Whether the rule matches the leg, field by field.
    #[tactic(auto, unfolding(crate::specs::Fits::fits))]
    fn fits(&self, leg: &LegFacts, rule: &LegRuleRow) -> bool
        ensures { result ≡ fits self.now leg.now rule.now }
    {
        self.network_fits(rule.network, leg.network)
            && self.area_fits(&self.from_areas, rule.from_area, leg.from_areas.items())
            && self.area_fits(&self.to_areas, rule.to_area, leg.to_areas.items())
            && frame_fits(rule.from_frame, leg.from_frames.items())
            && frame_fits(rule.to_frame, leg.to_frames.items())
    }

    /// Whether the network of a rule, which may be empty, is that of a leg.
    fn network_fits(&self, rule: Option<NetworkId>, leg: Option<NetworkId>) -> bool
        ensures { result ≡ network_fits self.now.has_priority self.now.networks.items rule leg }
    {
        match (rule, leg) {
            (Some(network), Some(own)) => own.0 == network.0,
            (Some(_), None) => false,
            (None, Some(own)) => self.has_priority || !is_marked(&self.networks, own.0),
            (None, None) => true,
        }
    }

    /// Whether the area of a rule, which may be empty, is that of a stop with these areas. Those that rules name in the
    /// column are marked.
    fn area_fits(&self, named: &[bool], rule: Option<AreaId>, areas: &[AreaId]) -> bool
        ensures { result ≡ area_fits self.now.has_priority named.now rule areas.now }
    {
        match rule {
            Some(area) => has_area(areas, area),
            None => self.has_priority || names_none(named, areas),
        }
    }
}

/// Puts rules in file order, each once.
fn put_in_order(rules: &mut Vec<RuleId>)
    ensures { IsPutInOrder rules.old.items rules.new.items }
{
    rules.sort_unstable_by_key(|rule| rule.0);
    rules.dedup();
}

/// The rules as a list.
fn rule_list(alloc: Global, rules: &[RuleId]) -> Result<RuleList, AllocError>
    ensures { IfOk result (λ list. list ≡ rules.now) }
{
    let mut list = RuleList::empty(alloc);
    for rule in rules {
        list.push(*rule)?;
    }
    Ok(list)
}

/// Whether the area is among these.
fn has_area(areas: &[AreaId], area: AreaId) -> bool
    ensures { result ≡ list_any (λ a. a.0 == area.0) areas.now }
{
    areas.iter().any(|a| a.0 == area.0)
}

/// Whether none of the areas is marked.
fn names_none(named: &[bool], areas: &[AreaId]) -> bool
    ensures { result ≡ list_all (λ a. not (is_marked named.now a.0)) areas.now }
{
    areas.iter().all(|a| !is_marked(named, a.0))
}

/// Whether the timeframe group of a rule, which may be empty, is among those that hold.
#[tactic(auto, unfolding(feed_rows::specs::LegRules::frame_matches))]
fn frame_fits(frame: Option<FrameId>, frames: &[FrameId]) -> bool
    ensures { result ≡ frame_matches frame frames.now }
{
    match frame {
        Some(named) => has_frame(frames, named),
        None => true,
    }
}

/// Whether the timeframe group is among these.
fn has_frame(frames: &[FrameId], frame: FrameId) -> bool
    ensures { result ≡ list_any (λ g. g.0 == frame.0) frames.now }
{
    frames.iter().any(|g| g.0 == frame.0)
}
