//! The rows of each product that are open to a buyer, found once.
ghost use Rattle.std.specs.Prelude.{IfOk};
ghost use Rattle.fare_automaton.specs.Compiled.{AreOpenRows};

use fare_products::Products;
use feed_rows::{Buyer, Feed};
use item_groups::Groups;
use std::alloc::{AllocError, Global};
use transit_base::{ProductId, ProductRowId};

/// The rows of each product that are open to the buyer, in file order.
///
/// # Errors
/// Want of memory.
pub fn open_rows(
    alloc: Global,
    feed: &Feed,
    buyer: Buyer,
) -> Result<Groups<ProductRowId>, AllocError>
    ensures { IfOk result (AreOpenRows feed.now buyer) }
{
    let products = Products::build(alloc, feed)?;
    let count = feed.product_names.items().len();
    let mut opened = Groups::empty(alloc);
    for product in 0..count {
        let rows = products.open_rows(alloc, ProductId(product as u32), buyer)?;
        opened.push(rows.items())?;
    }
    Ok(opened)
}
