//! What is checked of rows among the rows of all files.
ghost use Rattle.std.specs.Prelude.{◌≡◌};
ghost use Rattle.feed_faults.specs.RowChecks.{id_place};

use feed_files::{ColumnName, FaultKind, FileName};

/// A column of ids that rows of other files name, or by which rows are found.
#[derive(Clone, Copy)]
pub enum IdColumn {
    /// `stop_id` of `stops.txt`
    Stop,
    /// `trip_id` of `trips.txt`
    Trip,
    /// `route_id` of `routes.txt`
    Route,
    /// `network_id` of `routes.txt`
    RouteNetwork,
    /// `service_id` of `calendar.txt`
    Calendar,
    /// `service_id` of `calendar_dates.txt`
    CalendarDate,
    /// `area_id` of `areas.txt`
    Area,
    /// `network_id` of `networks.txt`
    Network,
    /// `route_id` of `route_networks.txt`
    NetworkRoute,
    /// `timeframe_group_id` of `timeframes.txt`
    TimeframeGroup,
    /// `rider_category_id` of `rider_categories.txt`
    RiderCategory,
    /// `fare_media_id` of `fare_media.txt`
    FareMedia,
    /// `fare_product_id` of `fare_products.txt`
    FareProduct,
    /// `leg_group_id` of `fare_leg_rules.txt`
    LegGroup,
}

impl IdColumn {
    /// The file and the name of the column.
    pub fn place(self) -> (FileName, ColumnName)
        ensures { result ≡ id_place self }
    {
        match self {
            IdColumn::Stop => (FileName::Stops, ColumnName::StopId),
            IdColumn::Trip => (FileName::Trips, ColumnName::TripId),
            IdColumn::Route => (FileName::Routes, ColumnName::RouteId),
            IdColumn::RouteNetwork => (FileName::Routes, ColumnName::NetworkId),
            IdColumn::Calendar => (FileName::Calendar, ColumnName::ServiceId),
            IdColumn::CalendarDate => (FileName::CalendarDates, ColumnName::ServiceId),
            IdColumn::Area => (FileName::Areas, ColumnName::AreaId),
            IdColumn::Network => (FileName::Networks, ColumnName::NetworkId),
            IdColumn::NetworkRoute => (FileName::RouteNetworks, ColumnName::RouteId),
            IdColumn::TimeframeGroup => (FileName::Timeframes, ColumnName::TimeframeGroupId),
            IdColumn::RiderCategory => (FileName::RiderCategories, ColumnName::RiderCategoryId),
            IdColumn::FareMedia => (FileName::FareMedia, ColumnName::FareMediaId),
            IdColumn::FareProduct => (FileName::FareProducts, ColumnName::FareProductId),
            IdColumn::LegGroup => (FileName::FareLegRules, ColumnName::LegGroupId),
        }
    }
}

/// What is checked of a row among the rows of all files.
#[derive(Clone, Copy)]
pub enum RowCheck {
    /// No earlier row of its file has its id, which stands in this column.
    NewId(IdColumn),
    /// No earlier row has its key, which stands in several columns.
    NewKey,
    /// Its id, where the field is filled, stands in this column.
    Known(IdColumn),
    /// Its id, where the field is filled, stands in one of these two columns.
    KnownInOne(IdColumn, IdColumn),
    /// The parent of a platform or a station is there.
    KnownParent,
    /// Only a platform has a parent, which is a station.
    GoodParent,
    /// A stop time is at a platform.
    AtPlatform,
    /// A trip's first and last stop time have a time.
    TimedEnds,
    /// The times of a trip don't fall.
    RisingTimes,
    /// A service's last day isn't before its first.
    OrderedDays,
    /// A timeframe has both times or none, begins before it ends, and overlaps no earlier one of its group and service.
    GoodTimeframe,
    /// A product row is in the currency of the first one.
    OneCurrency,
    /// A transfer rule has a count where its two groups are one, and none where they differ.
    GoodCount,
    /// A transfer rule with a limit has its type, and one without has none.
    WholeLimit,
    /// A rule by which legs join names both its stops or neither.
    BothStops,
}

/// What is checked of a row, and how it is told that it fails.
#[derive(Clone, Copy)]
pub struct RowRule {
    pub check: RowCheck,
    /// The column under which it is told; that of the id, where it is an id that is checked.
    pub column: ColumnName,
    pub kind: FaultKind,
}
