//! The state of fares along a journey, and one step of them, as plain data.
ghost use Rattle.std.specs.Prelude.{◌≡◌};
ghost use Rattle.feed_rows.specs.TransferRules.{same_group};

use plain_laws::ItemList;
use transit_base::{LegGroupId, Moment, Money, ProductRowId, RuleId, XferId};

/// What later fares can tell of the legs so far: the run of the last leg, and whether that leg is the first of its chain.
#[derive(Clone, Copy, PartialEq, Eq)]
pub struct FareState {
    /// The leg group of the run's legs; none where the last leg has none.
    pub group: Option<LegGroupId>,
    /// How many changes the run has; all numbers that are past each count of a transfer rule within the group are one.
    pub count: u32,
    /// The departure of the run's first leg; none where no transfer rule from the group reads it.
    pub departure: Option<Moment>,
    /// The arrival of the run's first leg; none where no transfer rule from the group reads it.
    pub arrival: Option<Moment>,
    /// Whether the last leg is the first of its chain.
    pub first: bool,
}

/// One more leg: what pays it and the change to it, and what follows.
#[derive(Clone, Copy, PartialEq, Eq)]
pub struct Move {
    /// The state after the leg.
    pub state: FareState,
    /// What is added to what was paid, in minor units.
    pub paid: Money,
    /// What a later change of type 2 would take back, in minor units.
    pub held: Money,
    /// The rule of the leg.
    pub rule: RuleId,
    /// The product row of the leg.
    pub product: ProductRowId,
    /// The rule of the change to the leg, where that is arranged.
    pub xfer: Option<XferId>,
    /// The product row of the change, where its rule has a product.
    pub xfer_product: Option<ProductRowId>,
}

/// The moves of a leg, each once.
pub type Moves = ItemList<Move>;

/// Whether both groups are there, and equal.
pub fn same_group(a: Option<LegGroupId>, b: Option<LegGroupId>) -> bool
    ensures { result ≡ same_group a b }
{
    match (a, b) {
        (Some(g), Some(h)) => g.0 == h.0,
        _ => false,
    }
}
