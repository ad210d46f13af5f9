//! What commands answer: a status, and the lines that are written before it is given, as they are due for a task or for what
//! refuses it. The commands that plan nothing are answered here.
#![tactic(auto)]

mod audits;
mod lines;
mod outcome;
mod prices;
mod query;
mod refusal;
mod ride_prices;
mod riders;
mod status;

pub use audits::audit_outcome;
pub use lines::{stats_line_of, write_text};
pub use outcome::{Failure, Outcome, answered, check_outcome, refused};
pub use prices::price_outcome;
pub use query::query_of;
pub use refusal::Refusal;
pub use status::Status;
