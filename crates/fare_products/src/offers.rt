//! The rows of a product, and the cheapest of them.
ghost use Rattle.std.specs.Prelude.{◌≡◌, ℕ, ◌<◌, ◌^◌, ◌++◌, ◌∷◌, [], ◌==◌, if◌then◌else◌, length, int_lt, IfOk, OnOk};
ghost use Rattle.plain_laws.specs.Plain.{ids_where, filled_and, empty_or};
ghost use Rattle.item_groups.specs.Groups.{group_of};
ghost use Rattle.fare_products.specs.Offers.{offer, offer_at, is_of, opens, cheaper, least_offer};

use crate::Priced1;
use feed_rows::{Buyer, ProductRow};
use item_groups::Grouped;
use std::alloc::{AllocError, Global};
use transit_base::{Money, ProductRowId, RiderId};

/// A row of a product, with its rider category and its amount.
#[derive(Clone, Copy)]
pub struct Offer {
    pub row: ProductRowId,
    pub rider: Option<RiderId>,
    pub amount: Money,
}

impl Offer {
    /// Whether the row is open to the buyer: its category is empty or the buyer's.
    pub fn opens(&self, buyer: Buyer) -> bool
        ensures { result ≡ opens buyer self.now }
    {
        match self.rider {
            Some(category) => is_rider(buyer.rider, category),
            None => true,
        }
    }
}

/// Whether the rider is of the category.
fn is_rider(rider: Option<RiderId>, category: RiderId) -> bool
    ensures { result ≡ filled_and rider (λ r. r.0 == category.0) }
{
    match rider {
        Some(own) => own.0 == category.0,
        None => false,
    }
}

/// Each row with its product, in file order.
///
/// # Errors
/// Want of memory.
pub fn grouped_offers(alloc: Global, rows: &[ProductRow]) -> Result<Vec<Grouped<Offer>>, AllocError>
    requires { length rows.now < 2 ^ 32 }
    ensures { IfOk result (λ members. (product : ℕ) → group_of members.items product ≡ ids_where (offer_at rows.now) (is_of product) rows.now) }
{
    let mut members = Vec::with_capacity(alloc, rows.len())?;
    for number in 0..rows.len() {
        push_offer(&mut members, &rows[number], ProductRowId(number as u32))?;
    }
    Ok(members)
}

/// Adds the row to those of its product.
fn push_offer(
    members: &mut Vec<Grouped<Offer>>,
    row: &ProductRow,
    id: ProductRowId,
) -> Result<(), AllocError>
    ensures { OnOk result ((product : ℕ) → group_of members.new.items product ≡ group_of members.old.items product ++ (if is_of product row.now then offer id.0 row.now ∷ [] else [])) }
{
    members.push(Grouped {
        group: row.product.0,
        item: Offer {
            row: id,
            rider: row.rider,
            amount: row.amount,
        },
    })?;
    Ok(())
}

/// The first of the rows of least amount that are open to the buyer.
pub fn least_offer(offers: &[Offer], buyer: Buyer) -> Option<Priced1>
    ensures { result ≡ least_offer buyer offers.now }
{
    let mut least = None;
    for offer in offers {
        least = cheaper(least, offer, buyer);
    }
    least
}

/// The row, where it is open to the buyer and cheaper than the least so far; else this.
fn cheaper(least: Option<Priced1>, offer: &Offer, buyer: Buyer) -> Option<Priced1>
    ensures { result ≡ cheaper buyer least offer.now }
{
    if offer.opens(buyer) && is_cheaper(offer.amount, least) {
        Some(Priced1 {
            row: offer.row,
            amount: offer.amount,
        })
    } else {
        least
    }
}

/// Whether the amount is less than the least so far.
fn is_cheaper(amount: Money, least: Option<Priced1>) -> bool
    ensures { result ≡ empty_or least (λ p. int_lt amount.0 p.amount.0) }
{
    match least {
        Some(priced) => amount.0 < priced.amount.0,
        None => true,
    }
}
