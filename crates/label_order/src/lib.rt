//! Lawful orders of labels: when one label is as good as another, and that what is as good can go on as well.
#![tactic(auto)]

mod parts;
mod traits;

pub use parts::{Both, Flat, Least};
pub use traits::{Continues, LabelOrder, Stair};
