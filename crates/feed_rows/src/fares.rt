//! The fares of journeys as plain data: rules chosen for legs and changes, prices, and entries of an answer.
use crate::journeys::Journey;
use plain_laws::ItemList;
use transit_base::{LegGroupId, Moment, Money, ProductRowId, RuleId, XferId};

/// Rows of `fare_products.txt`, in file order.
pub type RowList = ItemList<ProductRowId>;

/// Rows of `fare_leg_rules.txt`, in file order.
pub type RuleList = ItemList<RuleId>;

/// Rows of `fare_transfer_rules.txt`, in file order.
pub type XferList = ItemList<XferId>;

/// What transfer rules look at in a change between two legs.
#[derive(Clone, Copy)]
pub struct TransferFacts {
    /// The leg group of the leg before the change.
    pub from: LegGroupId,
    /// The leg group of the leg after the change.
    pub to: LegGroupId,
    /// How many changes the run of legs has with this one, where both legs are of one group; otherwise 1.
    pub count: u32,
    /// The departure of the run's first leg.
    pub first_departure: Moment,
    /// The arrival of the run's first leg.
    pub first_arrival: Moment,
    /// The departure of the leg after the change.
    pub next_departure: Moment,
    /// The arrival of the leg after the change.
    pub next_arrival: Moment,
}

/// The rule and the product row chosen for a leg.
#[derive(Clone, Copy)]
pub struct LegChoice {
    pub rule: RuleId,
    pub product: ProductRowId,
}

/// The rule chosen for an arranged change, and its product row, where the rule has a product.
#[derive(Clone, Copy)]
pub struct ChangeChoice {
    pub rule: XferId,
    pub product: Option<ProductRowId>,
}

/// The choices for the legs of a journey, in order.
pub type LegChoices = ItemList<LegChoice>;

/// The choices for the changes of a journey, in order; none where a change is not arranged.
pub type ChangeChoices = ItemList<Option<ChangeChoice>>;

/// How a journey is paid: one place for each leg, and one for each change between legs.
#[derive(Drop)]
pub struct Choice {
    pub legs: LegChoices,
    pub changes: ChangeChoices,
}

/// What journeys are compared by.
#[derive(Clone, Copy, PartialEq, Eq)]
pub struct Triple {
    /// The final arrival.
    pub arrival: Moment,
    /// The number of rides.
    pub rides: u8,
    /// The sum of the tickets, in minor units of the feed's currency.
    pub price: Money,
}

/// An entry of an answer: a triple, with a journey and tickets that have it.
#[derive(Drop)]
pub struct Entry {
    pub triple: Triple,
    pub journey: Journey,
    pub choice: Choice,
}

/// The entries of an answer, in order.
pub type Entries = ItemList<Entry>;
