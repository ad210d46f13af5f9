//! The tariff of a query over a feed, as a search by rounds asks for it: what is kept of fares, which moves pay a ride, and what further
//! rides cost at least.
#![tactic(auto)]

mod fare;
mod fare_class;
mod groups;
mod lasts;
mod legs;
mod moves;
mod prices;
mod repeats;
mod tariff;

pub use fare::Fare;
pub use fare_class::FareClass;
pub use legs::{FareLegs, FareRoom};
pub use prices::LeastPrices;
pub use tariff::FareTariff;
