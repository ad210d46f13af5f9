//! What is wrong with stop times among those of their trips: by one pass in the order of the file, where the rows of each
//! trip stand together in it and by rising sequences, as they mostly do, and else by a sort and a pass in its order.
#![tactic(auto)]

mod keys;
mod pass;
mod times;

pub use pass::order_faults;
pub use times::{OrderFaults, StopTimes, TripTime};
