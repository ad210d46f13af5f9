//! Queries, rides and journeys as plain data.
use plain_laws::{AscendingList, ItemList};
use transit_base::{AreaId, Day, FrameId, Moment, NetworkId, RiderId, StopId, TripId};

/// The most rides that the words of a plan or a price may ask for.
pub const MOST_RIDES: u32 = 8;

/// The seconds after the departure within which a journey arrives, where the traveller doesn't say.
pub const USUAL_WINDOW: u32 = 86_400;

/// The seconds between which the shift of each run lies: a week and some more.
pub const LEAST_SHIFT: i64 = -700_000;
/// See [`LEAST_SHIFT`].
pub const MOST_SHIFT: i64 = 700_000;

/// Who buys the tickets of a journey.
#[derive(Clone, Copy)]
pub struct Buyer {
    /// The rider category; none where no category is named and none is marked as default.
    pub rider: Option<RiderId>,
}

/// Who buys without a rider category.
pub const NO_CATEGORY: Buyer = Buyer { rider: None };

/// What a traveller asks: the journeys from a stop to a stop from a moment on.
#[derive(Clone, Copy)]
pub struct Query {
    /// A platform, or a station, which stands for its platforms.
    pub from: StopId,
    /// A platform, or a station, which stands for its platforms.
    pub to: StopId,
    /// No ride departs before it.
    pub departure: Moment,
    /// The greatest number of rides.
    pub rides: u8,
    /// The seconds after the departure within which a journey arrives.
    pub window: u32,
    /// Who pays for the rides.
    pub buyer: Buyer,
}

/// A call of a trip at a stop, with its times filled in.
#[derive(Clone, Copy)]
pub struct Call {
    pub stop: StopId,
    /// The `stop_sequence`.
    pub sequence: u32,
    /// Seconds of the service day.
    pub arrival: u32,
    /// Seconds of the service day.
    pub departure: u32,
    /// Whether riders may board here.
    pub pickup: bool,
    /// Whether riders may alight here.
    pub drop_off: bool,
}

/// A ride: a trip on a service day, from one of its calls to a later one.
#[derive(Clone, Copy)]
pub struct Ride {
    pub trip: TripId,
    /// The service day.
    pub day: Day,
    /// The seconds by which the trip runs later than its stop times say; 0 for a trip without frequency rows.
    pub shift: i64,
    /// The position of the boarding call, from 0.
    pub from: u32,
    /// The position of the alighting call, from 0.
    pub to: u32,
}

/// Where and when a ride goes.
#[derive(Clone, Copy)]
pub struct RideFacts {
    /// The boarding stop.
    pub from: StopId,
    /// The alighting stop.
    pub to: StopId,
    /// The fare network of the trip's route.
    pub network: Option<NetworkId>,
    pub departure: Moment,
    pub arrival: Moment,
}

/// The boarding stop and the alighting stop of a ride.
#[derive(Clone, Copy, PartialEq, Eq)]
pub struct Pair {
    pub from: StopId,
    pub to: StopId,
}

/// The fare areas of a stop.
pub type AreaList = AscendingList<AreaId>;

/// The timeframe groups that hold at a moment.
pub type FrameList = AscendingList<FrameId>;

/// The seconds by which the runs of a trip are shifted.
pub type Shifts = AscendingList<i64>;

/// What fare rules look at in a leg.
#[derive(Drop)]
pub struct LegFacts {
    pub network: Option<NetworkId>,
    /// The areas of the boarding stop.
    pub from_areas: AreaList,
    /// The areas of the alighting stop.
    pub to_areas: AreaList,
    /// The timeframe groups that hold at the departure.
    pub from_frames: FrameList,
    /// The timeframe groups that hold at the arrival.
    pub to_frames: FrameList,
    pub departure: Moment,
    pub arrival: Moment,
}

/// The rides of a journey, in order of travel.
pub type RideList = ItemList<Ride>;

/// The legs of a journey, in order of travel.
pub type LegList = ItemList<LegFacts>;

/// A journey: where it starts, its rides, and where it ends. Between these lie walks of one link each at most.
#[derive(Drop)]
pub struct Journey {
    /// The first stop, a platform.
    pub first: StopId,
    /// The last stop, a platform.
    pub last: StopId,
    pub rides: RideList,
}
