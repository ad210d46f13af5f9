//! The fare products of a feed: which of their rows are open to a buyer, and the cheapest of these; amounts as text.
#![tactic(auto)]

ghost use Rattle.std.specs.Prelude.{◌≡◌, Option, option_map, IfOk, IfSome};
ghost use Rattle.feed_rows.specs.FeedRows.{FeedRows};
ghost use Rattle.feed_rows.specs.FareChoices.{open_rows};
ghost use Rattle.feed_rows.specs.OpenRows.{least_open_row};
ghost use Rattle.feed_rows.specs.FareSums.{amount_of};
ghost use Rattle.feed_rows.specs.MoneyText.{money_text};
ghost use Rattle.fare_products.specs.Offers.{offers_at};
ghost use Rattle.fare_products.specs.BuiltProducts.{AreProductsOf};

mod money;
mod offers;

pub use crate::money::MoneyText;
use crate::money::money_text;
use crate::offers::{Offer, grouped_offers, least_offer};
use feed_rows::{Buyer, Feed, RowList};
use item_groups::Groups;
use std::alloc::{AllocError, Global};
use transit_base::{Money, ProductId, ProductRowId};

/// A row of a product, and its amount.
#[derive(Clone, Copy)]
pub struct Priced1 {
    pub row: ProductRowId,
    /// The price in minor units of the feed's currency.
    pub amount: Money,
}

/// The fare products of a feed.
///
/// What the calls answer is about the feed that the value was built from.
pub struct Products {
    /// The rows of each product, in file order.
    by_product: Groups<Offer>,
    /// The decimals of the feed's currency.
    decimals: u8,
}

// Written out, so that what holds one needn't look into it to let go of it.
impl Drop for Products {
    fn drop(self) {
        let Products {
            by_product: _,
            decimals: _,
        } = self;
    }
}

impl Products {
    /// The products of the feed.
    ///
    /// # Errors
    /// Want of memory.
    pub fn build(alloc: Global, feed: &Feed) -> Result<Products, AllocError>
        ensures { IfOk result (λ products. AreProductsOf feed.now products) }
    {
        let count = feed.product_names.items().len();
        let members = grouped_offers(alloc, feed.products.items())?;
        Ok(Products {
            by_product: Groups::of(alloc, members, count as u32)?,
            decimals: feed.decimals,
        })
    }

    /// The rows of the product that are open to the buyer, in file order: their category is empty or the buyer's. A
    /// number that is no product's has none.
    ///
    /// # Errors
    /// Want of memory.
    pub fn open_rows(
        &self,
        alloc: Global,
        product: ProductId,
        buyer: Buyer,
    ) -> Result<RowList, AllocError>
        ensures { IfOk result (λ rows. (feed : FeedRows) → AreProductsOf feed self.now → rows ≡ open_rows feed product buyer) }
    {
        let mut rows = RowList::empty(alloc);
        for offer in self.offers(product) {
            if offer.opens(buyer) {
                rows.push(offer.row)?;
            }
        }
        Ok(rows)
    }

    /// The first in file order of the product's rows of least amount that are open to the buyer; none where no row is
    /// open. Only the product's own rows are looked at.
    pub fn least(&self, product: ProductId, buyer: Buyer) -> Option<Priced1>
        ensures row { (feed : FeedRows) → AreProductsOf feed self.now → option_map (λ p. p.row) result ≡ least_open_row feed product buyer }
        ensures amount { (feed : FeedRows) → AreProductsOf feed self.now → IfSome result (λ p. p.amount.0 ≡ amount_of feed p.row) }
    {
        least_offer(self.offers(product), buyer)
    }

    /// The amount as text in the feed's currency, such as `-3.50`.
    pub fn money_text(&self, amount: Money) -> MoneyText
        ensures { (feed : FeedRows) → AreProductsOf feed self.now → result ≡ money_text feed.decimals amount.0 }
    {
        money_text(amount, self.decimals)
    }

    /// The rows of the product, in file order.
    fn offers(&self, product: ProductId) -> &[Offer]
        ensures { result.now ≡ offers_at self.now.by_product product.0 }
    {
        self.by_product.get(product.0 as usize)
    }
}
