//! The printed text of an answer: the lines of journeys, of their walks and rides, and of their tickets.
#![tactic(auto)]

mod audits;
mod entries;
mod field;
mod generated;
mod line;
mod lookups;
mod prices;
mod rides;
mod text;
mod tickets;
mod travel;

pub use audits::audit_lines_of;
pub use entries::text_of;
pub use field::Field;
pub use generated::gen_lines_of;
pub use line::Line;
pub use lookups::facts_of;
pub use prices::{price_lines_of, uncovered_lines_of};
pub use text::Text;
