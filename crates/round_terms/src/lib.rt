//! What a search by rounds asks of fares, and what it keeps of partial journeys.
#![tactic(auto)]

mod aim;
mod classes;
mod finals;
mod label;
mod leg;
mod tariff;

pub use aim::Aim;
pub use classes::{Classed, StopClass};
pub use finals::Final;
pub use label::Label;
pub use leg::Leg;
pub use tariff::{LeastPrice, Tariff};
