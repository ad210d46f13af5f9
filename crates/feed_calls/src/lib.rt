//! Stop times, judged and made rows as their records are read, by the ids of trips and stops. Nothing of their file is kept
//! but what they tell.
#![tactic(auto)]

mod calls;

pub use calls::{CallError, StopTimes, read_stop_times};
