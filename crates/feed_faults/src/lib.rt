//! What the files of a feed say, and what is wrong with them: the definitions, and what each file is judged by as data.
#![tactic(auto)]

mod checks;
mod columns;
mod files;

pub use checks::{IdColumn, RowCheck, RowRule};
pub use columns::{ColumnRule, EmptyField, Grammar};
pub use files::{FileRule, rule_of};
