//! Cases that are files: words, a text that is given, the files of a feed, calls that fail, and what must come; and how a program is tried on them.
#![tactic(auto)]

mod archive;
mod case;
mod failing_call;
mod feed_texts;
mod library;
mod texts;
mod trial;
mod trials;

pub use trial::Program;
pub use trials::try_named;
