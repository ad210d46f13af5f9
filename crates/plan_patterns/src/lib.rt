//! The runs that have a ride within a span, by patterns: trips that call at the same stops and let riders do the same there.
#![tactic(auto)]

mod cuts;
mod halts;
mod held;
mod pattern;
mod patterns;
mod runs;
mod serving;
mod span;

pub use halts::Halt;
pub use pattern::Boarding;
pub use patterns::Patterns;
pub use runs::Run;
pub use serving::Serving;
pub use span::Span;
