//! The stops, trips, walks and services of one feed beside one another, and what a traveller asks of them on the way.
#![tactic(auto)]

mod standing;
mod timetable;

pub use feed_trips::Calls;
pub use standing::Standing;
pub use timetable::Timetable;
