//! An answer of the program as a page that a browser shows: its text read as journeys with their tickets, and the HTML of these.
#![tactic(auto)]

mod amounts;
mod answer;
mod chart;
mod excerpt;
mod journeys;
mod lines;
mod markup;
mod names;
mod page;
mod reading;
mod scale;
mod showing;
mod stamps;
mod tickets;
mod ways;

pub use names::{LineNames, NameList, Names, read_names};
pub use showing::{Shown, show};
