//! Row numbers: which row of a feed a value speaks of.
//!
//! Stops, routes, trips, areas, rider categories, media and the rows of the fare files are numbered by their data
//! rows, counted from 0. Services, networks, timeframe groups, products and leg groups have several rows for one
//! name, so they are numbered by the first appearance of the name.

/// The number of a stop: its data row in `stops.txt`, counted from 0.
#[derive(Clone, Copy, PartialEq, Eq, Hash)]
pub struct StopId(pub u32);

/// The number of a route: its data row in `routes.txt`, counted from 0.
#[derive(Clone, Copy, PartialEq, Eq)]
pub struct RouteId(pub u32);

/// The number of a trip: its data row in `trips.txt`, counted from 0.
#[derive(Clone, Copy, PartialEq, Eq)]
pub struct TripId(pub u32);

/// The number of a service: the place of its name among such names by first appearance, counted from 0.
#[derive(Clone, Copy, PartialEq, Eq)]
pub struct ServiceId(pub u32);

/// The number of a fare network: the place of its name among such names by first appearance, counted from 0.
#[derive(Clone, Copy, PartialEq, Eq)]
pub struct NetworkId(pub u32);

/// The number of a fare area: its data row in `areas.txt`, counted from 0.
#[derive(Clone, Copy, Default, PartialEq, Eq, PartialOrd, Ord)]
pub struct AreaId(pub u32);

/// The number of a timeframe group: the place of its name among such names by first appearance, counted from 0.
#[derive(Clone, Copy, Default, PartialEq, Eq, PartialOrd, Ord)]
pub struct FrameId(pub u32);

/// The number of a rider category: its data row in `rider_categories.txt`, counted from 0.
#[derive(Clone, Copy, PartialEq, Eq)]
pub struct RiderId(pub u32);

/// The number of a fare medium: its data row in `fare_media.txt`, counted from 0.
#[derive(Clone, Copy, PartialEq, Eq)]
pub struct MediumId(pub u32);

/// The number of a fare product: the place of its name among such names by first appearance, counted from 0.
#[derive(Clone, Copy, PartialEq, Eq)]
pub struct ProductId(pub u32);

/// The number of a row of `fare_products.txt`, counted from 0.
#[derive(Clone, Copy, PartialEq, Eq)]
pub struct ProductRowId(pub u32);

/// The number of a leg group: the place of its name among such names by first appearance, counted from 0.
#[derive(Clone, Copy, PartialEq, Eq)]
pub struct LegGroupId(pub u32);

/// The number of a row of `fare_leg_rules.txt`, counted from 0.
#[derive(Clone, Copy, PartialEq, Eq)]
pub struct RuleId(pub u32);

/// The number of a row of `fare_transfer_rules.txt`, counted from 0.
#[derive(Clone, Copy, PartialEq, Eq)]
pub struct XferId(pub u32);
