//! Lists that are kept by the kind of a leg: by all that fare rules look at in a leg, which is all but its moments.
//!
//! What is found for a leg was kept for one that differs from it in its moments at most. So what fare rules alone decide is asked
//! once for all legs of a kind.
#![tactic(auto)]

mod kept;
mod table;

pub use table::KindTable;
