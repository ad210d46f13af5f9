//! The words of a command: what they ask for, or their first fault.
#![tactic(auto)]

mod error;
mod found;
mod grammar;
mod request;
mod rides;
mod values;
mod words;

pub use error::WordsError;
pub use plan_arguments::WordList;
pub use request::{
    AuditWords, CommandWords, GenWords, PlanWords, PriceWords, Question, read_command,
};
pub use rides::{RideWord, RideWords};
