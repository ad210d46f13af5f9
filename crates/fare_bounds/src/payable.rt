//! What a buyer can pay at least for products, for legs and for changes.
ghost use Rattle.std.specs.Prelude.{◌≡◌, ◌+◌, ◌<◌, ◌≤◌, ◌^◌, nat_abs, IfOk, vec_len, length, map};
ghost use Rattle.fare_bounds.specs.Amounts.{end_by, AreAmounts, AreBelow, IsAmount};
ghost use Rattle.fare_bounds.specs.Payable.{opens, charge_of, IsProductRowAbove, AreLeastOfProducts, AreLegRulesAbove, AreLeastAmounts};

use crate::amounts::{NEVER, amount_at, lower, place_of};
use crate::least::LeastAmounts;
use feed_rows::{Buyer, Feed, ProductRow};
use std::alloc::{AllocError, Global};
use transit_base::{ProductId, RiderId};

/// The least amounts of the feed that are open to the buyer, where `lasts` tells by the place of a leg group whether a
/// journey's last leg may be of that group.
///
/// # Errors
/// Want of memory.
pub fn least_amounts(
    alloc: Global,
    feed: &Feed,
    buyer: Buyer,
    lasts: &[bool],
) -> Result<LeastAmounts, AllocError>
    ensures least { IfOk result (AreLeastAmounts feed.now buyer) }
    ensures ends { IfOk result (λ amounts. amounts.ends.items ≡ map end_by lasts.now) }
    ensures len { IfOk result (λ amounts. vec_len amounts.legs ≡ length feed.now.group_names + 2) }
{
    let products = least_of_products(alloc, feed, buyer)?;
    let legs = least_of_legs(alloc, feed, &products)?;
    let ends = ends_of(alloc, lasts)?;
    Ok(LeastAmounts {
        products,
        legs,
        ends,
    })
}

/// What the end of a journey adds by the place of the last leg's group, where these tell which legs may be the last.
fn ends_of(alloc: Global, lasts: &[bool]) -> Result<Vec<i64>, AllocError>
    ensures { IfOk result (λ ends. ends.items ≡ map end_by lasts.now) }
{
    lasts
        .iter()
        .map(|last| if *last { 0 } else { NEVER })
        .collect(alloc)
}

impl LeastAmounts {
    /// The least amount for a change with this product.
    pub fn charge(&self, product: Option<ProductId>) -> i64
        ensures value { result ≡ charge_of self.now product }
        ensures amount { IsAmount 1 result }
    {
        match product {
            Some(own) => amount_at(&self.products, own.0 as usize),
            None => 0,
        }
    }
}

/// The least amount of each product that is open to the buyer.
fn least_of_products(alloc: Global, feed: &Feed, buyer: Buyer) -> Result<Vec<i64>, AllocError>
    ensures least { IfOk result (λ amounts. AreLeastOfProducts feed.now buyer amounts.items) }
    ensures amounts { IfOk result (λ amounts. AreAmounts 1 amounts.items) }
{
    let mut amounts = vec![in alloc; NEVER; feed.product_names.items().len()]?;
    for row in feed.products.items() {
        lower_by(&mut amounts, row, buyer);
    }
    Ok(amounts)
}

/// Puts the amount of the row at the place of its product, where the row is open to the buyer and no lesser one stands
/// there.
fn lower_by(amounts: &mut Vec<i64>, row: &ProductRow, buyer: Buyer)
    requires product { row.now.product.0 < vec_len amounts.old }
    requires amount { nat_abs row.now.amount.0 ≤ 10 ^ 12 }
    requires before { AreAmounts 1 amounts.old.items }
    ensures below { AreBelow amounts.new.items amounts.old.items }
    ensures row { IsProductRowAbove buyer amounts.new.items row.now }
    ensures after { AreAmounts 1 amounts.new.items }
    ensures len { vec_len amounts.new ≡ vec_len amounts.old }
{
    if opens(row.rider, buyer) {
        lower(amounts, row.product.0 as usize, row.amount.0);
    }
}

/// Whether a product row of this category is open to the buyer.
fn opens(category: Option<RiderId>, buyer: Buyer) -> bool
    ensures { result ≡ opens category buyer }
{
    match (category, buyer.rider) {
        (Some(own), Some(other)) => other.0 == own.0,
        (Some(_), None) => false,
        (None, _) => true,
    }
}

/// The least amount of the leg rules of each group, where the least of each product is this.
fn least_of_legs(alloc: Global, feed: &Feed, products: &[i64]) -> Result<Vec<i64>, AllocError>
    requires { AreAmounts 1 products.now }
    ensures least { IfOk result (λ amounts. AreLegRulesAbove feed.now products.now amounts.items) }
    ensures amounts { IfOk result (λ amounts. AreAmounts 1 amounts.items) }
    ensures len { IfOk result (λ amounts. vec_len amounts ≡ length feed.now.group_names + 2) }
{
    let mut amounts = vec![in alloc; NEVER; feed.group_names.items().len() + 2]?;
    for rule in feed.leg_rules.items() {
        let least = amount_at(products, rule.product.0 as usize);
        lower(&mut amounts, place_of(rule.group), least);
    }
    Ok(amounts)
}
