//! The program's commands: words in, a folder read, a text written.
#![tactic(auto)]

mod made;
mod planning;
mod top;

pub use command_answers::Status;
pub use plan_words::WordList;
pub use top::run;
