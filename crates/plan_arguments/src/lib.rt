//! The program's arguments, and what they name: the folder's path, and the words behind it.
#![tactic(auto)]

mod arguments;
mod command;
mod words;

pub use arguments::{ArgumentError, read_arguments};
pub use command::{Command, command_of};
pub use words::WordList;
