//! The second pass over a feed: what is wrong with the files among each other.
#![tactic(auto)]

mod calls;
mod frames;
mod judged;
mod keys;
mod pass;
mod rows;

pub use pass::first_relation_fault;
