//! The rules without a network, and those of each network, each by the area that it names in the column `from_area_id`.
ghost use Rattle.std.specs.Prelude.{◌≡◌, ℕ, ◌++◌, ◌<◌, ◌^◌, ◌==◌, [], ◌∷◌, if◌then◌else◌, filter, length, IfOk, OnOk};
ghost use Rattle.std.specs.List.Sorted.{IsNonDecreasingBy};
ghost use Rattle.plain_laws.specs.Plain.{at_and, list_below};
ghost use Rattle.item_groups.specs.Groups.{group_of};
ghost use Rattle.fare_leg_rules.specs.Places.{place_of, placed_at, is_common, is_of, passes_at, stands_at, ArePlaced, AreByNetwork};

use feed_rows::LegRuleRow;
use item_groups::{Grouped, Groups};
use std::alloc::{AllocError, Global};
use transit_base::{AreaId, RuleId};

/// A rule, and where it stands among those of its network: first those that name no area in the column `from_area_id`,
/// and then those that name one, area by area.
#[derive(Clone, Copy)]
pub struct PlacedRule {
    pub place: u64,
    pub rule: RuleId,
}

/// Where the rules stand that name this area in the column `from_area_id`.
pub fn place_of(area: Option<AreaId>) -> u64
    ensures { result ≡ place_of area }
{
    match area {
        Some(named) => u64::from(named.0) + 1,
        None => 0,
    }
}

/// All rules, by place.
///
/// # Errors
/// Want of memory.
pub fn placed_rules(alloc: Global, rows: &[LegRuleRow]) -> Result<Vec<PlacedRule>, AllocError>
    requires { length rows.now < 2 ^ 32 }
    ensures { IfOk result (λ placed. ArePlaced rows.now placed.items) }
{
    let mut placed = in_file_order(alloc, rows)?;
    placed.sort_unstable_by_key(|rule| rule.place);
    Ok(placed)
}

/// All rules with their places, in file order.
fn in_file_order(alloc: Global, rows: &[LegRuleRow]) -> Result<Vec<PlacedRule>, AllocError>
    requires { length rows.now < 2 ^ 32 }
    ensures { IfOk result (λ placed. placed.items ≡ list_below (length rows.now) (placed_at rows.now)) }
{
    let mut placed = Vec::with_capacity(alloc, rows.len())?;
    for number in 0..rows.len() {
        placed.push(PlacedRule {
            place: place_of(rows[number].from_area),
            rule: RuleId(number as u32),
        })?;
    }
    Ok(placed)
}

/// Those of the rules that have no network, in their order.
///
/// # Errors
/// Want of memory.
pub fn common_rules(
    alloc: Global,
    rows: &[LegRuleRow],
    placed: &[PlacedRule],
) -> Result<Vec<PlacedRule>, AllocError>
    ensures { IfOk result (λ rules. rules.items ≡ filter (passes_at rows.now is_common) placed.now) }
{
    let mut rules = Vec::new(alloc);
    for rule in placed {
        if is_common(rows, rule.rule) {
            rules.push(*rule)?;
        }
    }
    Ok(rules)
}

/// Whether the rule has no network.
fn is_common(rows: &[LegRuleRow], rule: RuleId) -> bool
    ensures { result ≡ at_and rows.now rule.0 is_common }
{
    match rows.get(rule.0 as usize) {
        Some(row) => row.network.is_none(),
        None => false,
    }
}

/// Those of the rules that have each network with a number below `count`, in their order.
///
/// # Errors
/// Want of memory.
pub fn rules_by_network(
    alloc: Global,
    rows: &[LegRuleRow],
    placed: &[PlacedRule],
    count: u32,
) -> Result<Groups<PlacedRule>, AllocError>
    ensures { IfOk result (AreByNetwork rows.now placed.now count) }
{
    let members = networked_rules(alloc, rows, placed)?;
    let groups = Groups::of(alloc, members, count)?;
    Ok(groups)
}

/// Those of the rules that have a network, each with it.
fn networked_rules(
    alloc: Global,
    rows: &[LegRuleRow],
    placed: &[PlacedRule],
) -> Result<Vec<Grouped<PlacedRule>>, AllocError>
    ensures { IfOk result (λ members. (network : ℕ) → group_of members.items network ≡ filter (passes_at rows.now (is_of network)) placed.now) }
{
    let mut members = Vec::new(alloc);
    for rule in placed {
        push_networked(&mut members, rows, *rule)?;
    }
    Ok(members)
}

/// Adds the rule with its network, where it has one.
fn push_networked(
    members: &mut Vec<Grouped<PlacedRule>>,
    rows: &[LegRuleRow],
    rule: PlacedRule,
) -> Result<(), AllocError>
    ensures { OnOk result ((network : ℕ) → group_of members.new.items network ≡ group_of members.old.items network ++ (if passes_at rows.now (is_of network) rule then rule ∷ [] else [])) }
{
    match rows.get(rule.rule.0 as usize) {
        Some(row) => push_of_row(members, row, rule),
        None => Ok(()),
    }
}

/// Adds the rule with the network of its row, where that has one.
fn push_of_row(
    members: &mut Vec<Grouped<PlacedRule>>,
    row: &LegRuleRow,
    rule: PlacedRule,
) -> Result<(), AllocError>
    ensures { OnOk result ((network : ℕ) → group_of members.new.items network ≡ group_of members.old.items network ++ (if is_of network row.now then rule ∷ [] else [])) }
{
    if let Some(network) = row.network {
        push_member(members, network.0, rule)?;
    }
    Ok(())
}

/// Adds the item to the group.
fn push_member(
    members: &mut Vec<Grouped<PlacedRule>>,
    group: u32,
    item: PlacedRule,
) -> Result<(), AllocError>
    ensures { OnOk result ((i : ℕ) → group_of members.new.items i ≡ group_of members.old.items i ++ (if group == i then item ∷ [] else [])) }
{
    members.push(Grouped { group, item })?;
    Ok(())
}

/// Those of the rules, which stand by place, that stand at this place.
pub fn at_place(rules: &[PlacedRule], place: u64) -> &[PlacedRule]
    ensures { IsNonDecreasingBy (λ (rule : PlacedRule). rule.place) rules.now → result.now ≡ filter (stands_at place) rules.now }
{
    let first = rules.partition_point(|rule| rule.place < place);
    let end = rules.partition_point(|rule| rule.place <= place);
    &rules[first..end.max(first)]
}
