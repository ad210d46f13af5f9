//! Lists, and the words and laws that no subject owns: fields that may be empty, numbers below a bound, places, steps.
//! `specs/Plain.antt` passes on the words and `proofs/Laws.antt` the laws; both are this crate's interface.
#![tactic(auto)]

mod lists;

pub use lists::{AscendingList, ItemList};
