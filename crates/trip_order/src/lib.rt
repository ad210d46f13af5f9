//! The order of stop times: by trip, within a trip by sequence, and within a sequence by row. It is fast where the rows
//! of a trip stand together in the file, as they mostly do. And the times that a stop time begins and ends with.
#![tactic(auto)]

mod keys;
mod stretches;
mod times;

pub use keys::{PlaceKey, sorted_keys};
pub use times::{first_time, is_timed, last_time};
