//! A feed that is generated: a square of stops with a line along each row and each column, in the files of a feed.
#![tactic(auto)]

mod draws;
mod fares;
mod file_text;
mod files;
mod names;
mod routes;
mod stop_times;
mod stops;

pub use files::gen_files;
pub use names::stop_id;
