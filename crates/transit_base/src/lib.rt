//! Moments, days, money and row numbers: the plain values that every layer of farewise speaks of.
#![tactic(auto)]

mod calendar;
mod moments;
mod numbers;
mod texts;

pub use calendar::{Day, day_of};
pub use moments::{DAY_SECONDS, MOST_TIME, Moment, Money, Secs};
pub use numbers::{
    AreaId, FrameId, LegGroupId, MediumId, NetworkId, ProductId, ProductRowId, RiderId, RouteId,
    RuleId, ServiceId, StopId, TripId, XferId,
};
pub use texts::{TimeText, date_text, time_text};
