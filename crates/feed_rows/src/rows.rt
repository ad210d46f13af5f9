//! One struct for the rows of each file. Ids are resolved to row numbers, and empty fields to `None` or their default.
ghost use Rattle.std.specs.Prelude.{◌≡◌};
ghost use Rattle.feed_rows.specs.Codes.{includes_leg_after};

use crate::ids::Id;
use crate::times::CallTime;
use transit_base::{
    AreaId, Day, FrameId, LegGroupId, MediumId, Money, NetworkId, ProductId, RiderId, RouteId,
    ServiceId, StopId, TripId,
};

/// The `location_type` of a platform, where vehicles are boarded.
pub const PLATFORM: u8 = 0;

/// The `location_type` of a station.
pub const STATION: u8 = 1;

/// The `fare_transfer_type` under which the leg before a change and the change are paid, and the leg after it is included.
pub const LEG_BEFORE_AND_CHANGE: u8 = 0;

/// The `fare_transfer_type` under which the change alone is paid, and the legs before and after it are included.
pub const CHANGE_ALONE: u8 = 2;

/// Whether the leg after a change of this `fare_transfer_type` is included in it.
pub fn includes_leg_after(kind: u8) -> bool
    ensures { result ≡ includes_leg_after kind }
{
    kind == LEG_BEFORE_AND_CHANGE || kind == CHANGE_ALONE
}

/// A row of `stops.txt`: a platform, a station, or a place of another kind.
#[derive(Drop)]
pub struct StopRow {
    pub id: Id,
    /// The `location_type`, from 0 to 4: 0 is a platform and 1 a station.
    pub kind: u8,
    /// The station that a platform names. Other kinds have none here, whatever their row names.
    pub parent: Option<StopId>,
}

/// A row of `routes.txt`.
#[derive(Drop)]
pub struct RouteRow {
    pub id: Id,
    /// The route's fare network, of its own row or of `route_networks.txt`.
    pub network: Option<NetworkId>,
}

/// A row of `trips.txt`.
#[derive(Drop)]
pub struct TripRow {
    pub id: Id,
    pub route: RouteId,
    pub service: ServiceId,
}

/// A row of `stop_times.txt`.
#[derive(Clone, Copy)]
pub struct StopTimeRow {
    pub trip: TripId,
    pub stop: StopId,
    /// The `stop_sequence`.
    pub sequence: u32,
    pub arrival: CallTime,
    pub departure: CallTime,
    /// Whether riders may board here.
    pub pickup: bool,
    /// Whether riders may alight here.
    pub drop_off: bool,
}

/// A row of `calendar.txt`.
#[derive(Clone, Copy)]
pub struct ServiceRow {
    pub service: ServiceId,
    /// Whether the service runs on a weekday, from Monday to Sunday.
    pub days: [bool; 7],
    /// The first day that the row covers.
    pub first: Day,
    /// The last day that the row covers.
    pub last: Day,
}

/// A row of `calendar_dates.txt`.
#[derive(Clone, Copy)]
pub struct ExceptionRow {
    pub service: ServiceId,
    pub day: Day,
    /// Whether the day is added; otherwise it is removed.
    pub added: bool,
}

/// A row of `frequencies.txt`.
#[derive(Clone, Copy)]
pub struct FrequencyRow {
    pub trip: TripId,
    /// The first departure from the trip's first stop, in seconds of the service day.
    pub start: u32,
    /// The moment before which departures end, in seconds of the service day.
    pub end: u32,
    /// Seconds between departures.
    pub headway: u32,
}

/// A row of `transfers.txt` that is not passed over.
#[derive(Clone, Copy)]
pub struct LinkRow {
    pub from: StopId,
    pub to: StopId,
    /// Whether the row forbids the change, by its type 3.
    pub forbidden: bool,
    /// The `min_transfer_time` in seconds, 0 where it is empty.
    pub seconds: u32,
}

/// A row of `areas.txt`.
#[derive(Drop)]
pub struct AreaRow {
    pub id: Id,
}

/// A row of `stop_areas.txt`.
#[derive(Clone, Copy)]
pub struct StopAreaRow {
    pub area: AreaId,
    pub stop: StopId,
}

/// A row of `timeframes.txt`.
#[derive(Clone, Copy)]
pub struct TimeframeRow {
    pub frame: FrameId,
    /// The first second of the day that belongs to it.
    pub start: u32,
    /// The second of the day before which it ends, at most 86,400.
    pub end: u32,
    pub service: ServiceId,
}

/// A row of `rider_categories.txt`.
#[derive(Drop)]
pub struct RiderRow {
    pub id: Id,
    /// Whether the category is marked as the default one.
    pub default: bool,
}

/// A row of `fare_media.txt`.
#[derive(Drop)]
pub struct MediumRow {
    pub id: Id,
}

/// A row of `fare_products.txt`.
#[derive(Clone, Copy)]
pub struct ProductRow {
    pub product: ProductId,
    pub rider: Option<RiderId>,
    pub medium: Option<MediumId>,
    /// The price in minor units of the feed's currency.
    pub amount: Money,
}

/// A row of `fare_leg_rules.txt`.
#[derive(Clone, Copy)]
pub struct LegRuleRow {
    pub group: Option<LegGroupId>,
    pub network: Option<NetworkId>,
    pub from_area: Option<AreaId>,
    pub to_area: Option<AreaId>,
    pub from_frame: Option<FrameId>,
    pub to_frame: Option<FrameId>,
    pub product: ProductId,
    /// The `rule_priority`, 0 where it is empty.
    pub priority: u32,
}

/// How long after a leg a transfer rule still holds.
#[derive(Clone, Copy)]
pub struct Limit {
    pub seconds: u32,
    /// The `duration_limit_type`, from 0 to 3: which two moments the seconds lie between.
    pub kind: u8,
}

/// A row of `fare_transfer_rules.txt`.
#[derive(Clone, Copy)]
pub struct TransferRuleRow {
    pub from: Option<LegGroupId>,
    pub to: Option<LegGroupId>,
    /// The `transfer_count`; none where it is -1 or empty, which is unlimited.
    pub count: Option<u32>,
    pub limit: Option<Limit>,
    /// The `fare_transfer_type`, from 0 to 2.
    pub kind: u8,
    /// The product to pay for the change; without one it costs nothing.
    pub product: Option<ProductId>,
}

/// A row of `fare_leg_join_rules.txt`.
#[derive(Clone, Copy)]
pub struct JoinRow {
    pub from_network: NetworkId,
    pub to_network: NetworkId,
    /// Where the ride before alights, if the row names its stops; it names both or neither.
    pub from_stop: Option<StopId>,
    /// Where the ride after boards, if the row names its stops.
    pub to_stop: Option<StopId>,
}
