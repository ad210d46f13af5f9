//! How little a journey can cost that goes on, by the fare rules alone.
//!
//! Of each number of further rides and each leg group that the last leg can have, there stands what these rides add at
//! least, and what they add where the next departs so late that no limit of a transfer rule can hold. A search drops
//! with it the partial journeys that can't become cheap enough.
#![tactic(auto)]

mod amounts;
mod bounds;
mod last_changes;
mod least;
mod level;
mod limits;
mod payable;
mod steps;

pub use amounts::place_of;
pub use bounds::FareBounds;
pub use last_changes::LastChanges;
