//! How little a leg with the change to it can cost.
ghost use Rattle.std.specs.Prelude.{◌≡◌, if◌then◌else◌, pos};
ghost use Rattle.std.specs.Int.{int_min};
ghost use Rattle.std.specs.List.{list_any};
ghost use Rattle.plain_laws.specs.Plain.{filled_and};
ghost use Rattle.feed_rows.specs.FareChoices.{is_open};
ghost use Rattle.feed_rows.specs.FareFloor.{least_amount, fare_floor};

use crate::judge::is_open;
use feed_rows::{Buyer, Feed, LegRuleRow, ProductRow, TransferRuleRow};
use transit_base::{Money, ProductId};

/// The lesser of 0 and the least amount open for a leg rule, plus the same for a transfer rule, in minor units.
pub fn floor_of(feed: &Feed, buyer: Buyer) -> Money
    ensures { result.0 ≡ fare_floor feed.now buyer }
{
    let rows = feed.products.items();
    let legs = least_for_legs(rows, feed.leg_rules.items(), buyer);
    let changes = least_for_changes(rows, feed.transfer_rules.items(), buyer);
    Money(legs.0 + changes.0)
}

/// The lesser of 0 and the least amount open for a leg rule.
fn least_for_legs(rows: &[ProductRow], rules: &[LegRuleRow], buyer: Buyer) -> Money
    ensures { result.0 ≡ least_amount (λ row. list_any (λ rule. is_open rule.product buyer row) rules.now) rows.now }
{
    let mut least = Money(0);
    for row in rows {
        least = lesser(least, row, is_for_leg(rules, buyer, row));
    }
    least
}

/// The lesser of 0 and the least amount open for a transfer rule.
fn least_for_changes(rows: &[ProductRow], rules: &[TransferRuleRow], buyer: Buyer) -> Money
    ensures { result.0 ≡ least_amount (λ row. list_any (λ rule. filled_and rule.product (λ product. is_open product buyer row)) rules.now) rows.now }
{
    let mut least = Money(0);
    for row in rows {
        least = lesser(least, row, is_for_change(rules, buyer, row));
    }
    least
}

/// Whether the row is open to the buyer for one of the leg rules.
fn is_for_leg(rules: &[LegRuleRow], buyer: Buyer, row: &ProductRow) -> bool
    ensures { result ≡ list_any (λ rule. is_open rule.product buyer row.now) rules.now }
{
    rules.iter().any(|rule| is_open(rule.product, buyer, row))
}

/// Whether the row is open to the buyer for one of the transfer rules.
fn is_for_change(rules: &[TransferRuleRow], buyer: Buyer, row: &ProductRow) -> bool
    ensures { result ≡ list_any (λ rule. filled_and rule.product (λ product. is_open product buyer row.now)) rules.now }
{
    rules.iter().any(|rule| is_of(rule.product, buyer, row))
}

/// Whether there is a product, and the row is an open row of it.
fn is_of(product: Option<ProductId>, buyer: Buyer, row: &ProductRow) -> bool
    ensures { result ≡ filled_and product (λ p. is_open p buyer row.now) }
{
    match product {
        Some(own) => is_open(own, buyer, row),
        None => false,
    }
}

/// The lesser of the least so far and the amount of the row, where that counts, or 0.
fn lesser(least: Money, row: &ProductRow, counts: bool) -> Money
    ensures { result.0 ≡ int_min least.0 (if counts then row.now.amount.0 else pos 0) }
{
    if counts {
        Money(least.0.min(row.amount.0))
    } else {
        Money(least.0.min(0))
    }
}
