//! The rides that the words of `price` name over a feed, the buyer for whom they are priced, and their least price.

mod prices;
mod query;
mod rides;

pub use prices::price_of;
pub use query::{PriceQuery, price_query_of};
pub use rides::NamedRide;
