//! Bags of labels: what is best of all that was offered, for any lawful order.
#![tactic(auto)]

mod bag;
mod flights;
mod in_class;
mod list_bag;
mod search;
mod stair_bag;

pub use bag::{Bag, NoRoom, Offered, offer_all};
pub use in_class::{add_in_class, is_covered_in_class};
pub use list_bag::ListBag;
pub use stair_bag::StairBag;
