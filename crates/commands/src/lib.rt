//! The commands: their words, what these ask for, what is wrong with them, and what they name over a feed.
#![tactic(auto)]

mod table;
mod usage;

pub use table::{CommandName, CommandOption, WordKind};
pub use usage::{StopWord, UsageFault, WordRole};
