//! A feed from the files of a folder, or its first fault.
#![tactic(auto)]

mod calls;
mod files;
mod folder;

pub use files::check;
pub use folder::{LoadError, load};
