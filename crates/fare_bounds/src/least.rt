//! The least amounts that a buyer can pay, by product and by leg group, and by which groups a journey may end.
ghost use Rattle.fare_bounds.specs.Amounts.{AreAmounts};

/// The least amounts that are open to a buyer, in minor units; `NEVER` where there is none.
pub struct LeastAmounts {
    /// Of each product.
    pub products: Vec<i64>,
    /// Of the leg rules of each leg group, by the place of the group.
    pub legs: Vec<i64>,
    /// Of the end of a journey, by the place of the last leg's group: nothing where it may end so.
    pub ends: Vec<i64>,
    ghost of_products: { AreAmounts 1 products.items },
    ghost of_legs: { AreAmounts 1 legs.items },
    ghost of_ends: { AreAmounts 0 ends.items },
}

// Written out, so that what holds one needn't look into it to let go of it.
impl Drop for LeastAmounts {
    fn drop(self) {
        let LeastAmounts {
            products: _,
            legs: _,
            ends: _,
        } = self;
    }
}
