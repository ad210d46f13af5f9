//! The rows of a feed as plain data, and the definitions of what journeys and prices are.
#![tactic(auto)]

mod fares;
mod feed;
mod ids;
mod journeys;
mod rows;
mod states;
mod times;

pub use fares::{
    ChangeChoice, ChangeChoices, Choice, Entries, Entry, LegChoice, LegChoices, RowList, RuleList,
    TransferFacts, Triple, XferList,
};
pub use feed::{
    AreaRows, ExceptionRows, Feed, FrequencyRows, JoinRows, LegRuleRows, LinkRows, MediumRows,
    NameList, ProductRows, RiderRows, RouteRows, ServiceRows, StopAreaRows, StopRows, StopTimeRows,
    TimeframeRows, TransferRuleRows, TripRows,
};
pub use ids::Id;
pub use journeys::{
    AreaList, Buyer, Call, FrameList, Journey, LEAST_SHIFT, LegFacts, LegList, MOST_RIDES,
    MOST_SHIFT, NO_CATEGORY, Pair, Query, Ride, RideFacts, RideList, Shifts, USUAL_WINDOW,
};
pub use rows::{
    AreaRow, CHANGE_ALONE, ExceptionRow, FrequencyRow, JoinRow, LEG_BEFORE_AND_CHANGE, LegRuleRow,
    Limit, LinkRow, MediumRow, PLATFORM, ProductRow, RiderRow, RouteRow, STATION, ServiceRow,
    StopAreaRow, StopRow, StopTimeRow, TimeframeRow, TransferRuleRow, TripRow, includes_leg_after,
};
pub use states::{FareState, Move, Moves, same_group};
pub use times::CallTime;
