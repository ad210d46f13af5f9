//! The printed text of an answer, read back: which entries of a query a text tells, if it is the text of any.
#![tactic(auto)]

mod drafts;
mod entries;
mod items;
mod journeys;
mod reader;
mod texts;

pub use entries::entries_of;
