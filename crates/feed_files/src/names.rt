//! The files of a feed and their columns, by name.
ghost use Rattle.std.specs.Prelude.{◌≡◌};
ghost use Rattle.feed_files.specs.Names.{all_columns, all_files, column_text, file_text};

/// A file of a feed, in the order in which files are read and judged.
#[derive(Clone, Copy, PartialEq, Eq)]
pub enum FileName {
    /// `stops.txt`
    Stops,
    /// `routes.txt`
    Routes,
    /// `trips.txt`
    Trips,
    /// `stop_times.txt`
    StopTimes,
    /// `calendar.txt`
    Calendar,
    /// `calendar_dates.txt`
    CalendarDates,
    /// `frequencies.txt`
    Frequencies,
    /// `transfers.txt`
    Transfers,
    /// `areas.txt`
    Areas,
    /// `stop_areas.txt`
    StopAreas,
    /// `networks.txt`
    Networks,
    /// `route_networks.txt`
    RouteNetworks,
    /// `timeframes.txt`
    Timeframes,
    /// `rider_categories.txt`
    RiderCategories,
    /// `fare_media.txt`
    FareMedia,
    /// `fare_products.txt`
    FareProducts,
    /// `fare_leg_rules.txt`
    FareLegRules,
    /// `fare_transfer_rules.txt`
    FareTransferRules,
    /// `fare_leg_join_rules.txt`
    FareLegJoinRules,
}

impl FileName {
    const ALL: [FileName; 19] = [
        FileName::Stops,
        FileName::Routes,
        FileName::Trips,
        FileName::StopTimes,
        FileName::Calendar,
        FileName::CalendarDates,
        FileName::Frequencies,
        FileName::Transfers,
        FileName::Areas,
        FileName::StopAreas,
        FileName::Networks,
        FileName::RouteNetworks,
        FileName::Timeframes,
        FileName::RiderCategories,
        FileName::FareMedia,
        FileName::FareProducts,
        FileName::FareLegRules,
        FileName::FareTransferRules,
        FileName::FareLegJoinRules,
    ];

    /// The files of a feed, in the order in which they are read and judged.
    pub fn all() -> &'static [FileName]
        ensures { result.now ≡ all_files }
    {
        &FileName::ALL
    }

    /// The file's name in a feed's folder.
    pub fn text(self) -> &'static str
        ensures { result.now ≡ file_text self }
    {
        match self {
            FileName::Stops => "stops.txt",
            FileName::Routes => "routes.txt",
            FileName::Trips => "trips.txt",
            FileName::StopTimes => "stop_times.txt",
            FileName::Calendar => "calendar.txt",
            FileName::CalendarDates => "calendar_dates.txt",
            FileName::Frequencies => "frequencies.txt",
            FileName::Transfers => "transfers.txt",
            FileName::Areas => "areas.txt",
            FileName::StopAreas => "stop_areas.txt",
            FileName::Networks => "networks.txt",
            FileName::RouteNetworks => "route_networks.txt",
            FileName::Timeframes => "timeframes.txt",
            FileName::RiderCategories => "rider_categories.txt",
            FileName::FareMedia => "fare_media.txt",
            FileName::FareProducts => "fare_products.txt",
            FileName::FareLegRules => "fare_leg_rules.txt",
            FileName::FareTransferRules => "fare_transfer_rules.txt",
            FileName::FareLegJoinRules => "fare_leg_join_rules.txt",
        }
    }
}

/// A column that is read. The last six are looked at only to tell a row that is passed over or out of scope.
#[derive(Clone, Copy, PartialEq, Eq)]
pub enum ColumnName {
    /// `stop_id`
    StopId,
    /// `location_type`
    LocationType,
    /// `parent_station`
    ParentStation,
    /// `route_id`
    RouteId,
    /// `network_id`
    NetworkId,
    /// `service_id`
    ServiceId,
    /// `trip_id`
    TripId,
    /// `stop_sequence`
    StopSequence,
    /// `arrival_time`
    ArrivalTime,
    /// `departure_time`
    DepartureTime,
    /// `pickup_type`
    PickupType,
    /// `drop_off_type`
    DropOffType,
    /// `monday`
    Monday,
    /// `tuesday`
    Tuesday,
    /// `wednesday`
    Wednesday,
    /// `thursday`
    Thursday,
    /// `friday`
    Friday,
    /// `saturday`
    Saturday,
    /// `sunday`
    Sunday,
    /// `start_date`
    StartDate,
    /// `end_date`
    EndDate,
    /// `date`
    Date,
    /// `exception_type`
    ExceptionType,
    /// `start_time`
    StartTime,
    /// `end_time`
    EndTime,
    /// `headway_secs`
    HeadwaySecs,
    /// `exact_times`
    ExactTimes,
    /// `transfer_type`
    TransferType,
    /// `from_stop_id`
    FromStopId,
    /// `to_stop_id`
    ToStopId,
    /// `min_transfer_time`
    MinTransferTime,
    /// `area_id`
    AreaId,
    /// `timeframe_group_id`
    TimeframeGroupId,
    /// `rider_category_id`
    RiderCategoryId,
    /// `is_default_fare_category`
    IsDefaultFareCategory,
    /// `fare_media_id`
    FareMediaId,
    /// `fare_media_type`
    FareMediaType,
    /// `fare_product_id`
    FareProductId,
    /// `currency`
    Currency,
    /// `amount`
    Amount,
    /// `leg_group_id`
    LegGroupId,
    /// `from_area_id`
    FromAreaId,
    /// `to_area_id`
    ToAreaId,
    /// `from_timeframe_group_id`
    FromTimeframeGroupId,
    /// `to_timeframe_group_id`
    ToTimeframeGroupId,
    /// `rule_priority`
    RulePriority,
    /// `from_leg_group_id`
    FromLegGroupId,
    /// `to_leg_group_id`
    ToLegGroupId,
    /// `transfer_count`
    TransferCount,
    /// `duration_limit`
    DurationLimit,
    /// `duration_limit_type`
    DurationLimitType,
    /// `fare_transfer_type`
    FareTransferType,
    /// `from_network_id`
    FromNetworkId,
    /// `to_network_id`
    ToNetworkId,
    /// `location_group_id`
    LocationGroupId,
    /// `location_id`
    LocationId,
    /// `from_route_id`
    FromRouteId,
    /// `to_route_id`
    ToRouteId,
    /// `from_trip_id`
    FromTripId,
    /// `to_trip_id`
    ToTripId,
}

impl ColumnName {
    const ALL: [ColumnName; 60] = [
        ColumnName::StopId,
        ColumnName::LocationType,
        ColumnName::ParentStation,
        ColumnName::RouteId,
        ColumnName::NetworkId,
        ColumnName::ServiceId,
        ColumnName::TripId,
        ColumnName::StopSequence,
        ColumnName::ArrivalTime,
        ColumnName::DepartureTime,
        ColumnName::PickupType,
        ColumnName::DropOffType,
        ColumnName::Monday,
        ColumnName::Tuesday,
        ColumnName::Wednesday,
        ColumnName::Thursday,
        ColumnName::Friday,
        ColumnName::Saturday,
        ColumnName::Sunday,
        ColumnName::StartDate,
        ColumnName::EndDate,
        ColumnName::Date,
        ColumnName::ExceptionType,
        ColumnName::StartTime,
        ColumnName::EndTime,
        ColumnName::HeadwaySecs,
        ColumnName::ExactTimes,
        ColumnName::TransferType,
        ColumnName::FromStopId,
        ColumnName::ToStopId,
        ColumnName::MinTransferTime,
        ColumnName::AreaId,
        ColumnName::TimeframeGroupId,
        ColumnName::RiderCategoryId,
        ColumnName::IsDefaultFareCategory,
        ColumnName::FareMediaId,
        ColumnName::FareMediaType,
        ColumnName::FareProductId,
        ColumnName::Currency,
        ColumnName::Amount,
        ColumnName::LegGroupId,
        ColumnName::FromAreaId,
        ColumnName::ToAreaId,
        ColumnName::FromTimeframeGroupId,
        ColumnName::ToTimeframeGroupId,
        ColumnName::RulePriority,
        ColumnName::FromLegGroupId,
        ColumnName::ToLegGroupId,
        ColumnName::TransferCount,
        ColumnName::DurationLimit,
        ColumnName::DurationLimitType,
        ColumnName::FareTransferType,
        ColumnName::FromNetworkId,
        ColumnName::ToNetworkId,
        ColumnName::LocationGroupId,
        ColumnName::LocationId,
        ColumnName::FromRouteId,
        ColumnName::ToRouteId,
        ColumnName::FromTripId,
        ColumnName::ToTripId,
    ];

    /// The columns, in the order in which they are declared.
    pub fn all() -> &'static [ColumnName]
        ensures { result.now ≡ all_columns }
    {
        &ColumnName::ALL
    }

    /// The column's name in a header.
    pub fn text(self) -> &'static str
        ensures { result.now ≡ column_text self }
    {
        match self {
            ColumnName::StopId => "stop_id",
            ColumnName::LocationType => "location_type",
            ColumnName::ParentStation => "parent_station",
            ColumnName::RouteId => "route_id",
            ColumnName::NetworkId => "network_id",
            ColumnName::ServiceId => "service_id",
            ColumnName::TripId => "trip_id",
            ColumnName::StopSequence => "stop_sequence",
            ColumnName::ArrivalTime => "arrival_time",
            ColumnName::DepartureTime => "departure_time",
            ColumnName::PickupType => "pickup_type",
            ColumnName::DropOffType => "drop_off_type",
            ColumnName::Monday => "monday",
            ColumnName::Tuesday => "tuesday",
            ColumnName::Wednesday => "wednesday",
            ColumnName::Thursday => "thursday",
            ColumnName::Friday => "friday",
            ColumnName::Saturday => "saturday",
            ColumnName::Sunday => "sunday",
            ColumnName::StartDate => "start_date",
            ColumnName::EndDate => "end_date",
            ColumnName::Date => "date",
            ColumnName::ExceptionType => "exception_type",
            ColumnName::StartTime => "start_time",
            ColumnName::EndTime => "end_time",
            ColumnName::HeadwaySecs => "headway_secs",
            ColumnName::ExactTimes => "exact_times",
            ColumnName::TransferType => "transfer_type",
            ColumnName::FromStopId => "from_stop_id",
            ColumnName::ToStopId => "to_stop_id",
            ColumnName::MinTransferTime => "min_transfer_time",
            ColumnName::AreaId => "area_id",
            ColumnName::TimeframeGroupId => "timeframe_group_id",
            ColumnName::RiderCategoryId => "rider_category_id",
            ColumnName::IsDefaultFareCategory => "is_default_fare_category",
            ColumnName::FareMediaId => "fare_media_id",
            ColumnName::FareMediaType => "fare_media_type",
            ColumnName::FareProductId => "fare_product_id",
            ColumnName::Currency => "currency",
            ColumnName::Amount => "amount",
            ColumnName::LegGroupId => "leg_group_id",
            ColumnName::FromAreaId => "from_area_id",
            ColumnName::ToAreaId => "to_area_id",
            ColumnName::FromTimeframeGroupId => "from_timeframe_group_id",
            ColumnName::ToTimeframeGroupId => "to_timeframe_group_id",
            ColumnName::RulePriority => "rule_priority",
            ColumnName::FromLegGroupId => "from_leg_group_id",
            ColumnName::ToLegGroupId => "to_leg_group_id",
            ColumnName::TransferCount => "transfer_count",
            ColumnName::DurationLimit => "duration_limit",
            ColumnName::DurationLimitType => "duration_limit_type",
            ColumnName::FareTransferType => "fare_transfer_type",
            ColumnName::FromNetworkId => "from_network_id",
            ColumnName::ToNetworkId => "to_network_id",
            ColumnName::LocationGroupId => "location_group_id",
            ColumnName::LocationId => "location_id",
            ColumnName::FromRouteId => "from_route_id",
            ColumnName::ToRouteId => "to_route_id",
            ColumnName::FromTripId => "from_trip_id",
            ColumnName::ToTripId => "to_trip_id",
        }
    }
}
