//! What each file of a feed is judged by: one table, in the order of the files.
ghost use Rattle.std.specs.Prelude.{◌≡◌};
ghost use Rattle.feed_faults.specs.FileColumns.{is_always_needed, columns_of, checks_of};

use crate::checks::{IdColumn, RowCheck, RowRule};
use crate::columns::Grammar::{Amount, Count, Currency, Date, Id};
use crate::columns::{ColumnRule, EmptyField, Grammar};
use feed_files::{ColumnName, FaultKind, FileName};
use transit_base::{DAY_SECONDS, MOST_TIME};

/// What a file is judged by.
#[derive(Clone, Copy)]
pub struct FileRule {
    /// A feed needs the file, whatever else it holds.
    pub is_needed: bool,
    /// The columns that are read, in the order in which they are judged. Every other column is passed over.
    pub columns: &'static [ColumnRule],
    /// What is checked of its rows among the rows of all files, in the order in which it is judged.
    pub checks: &'static [RowRule],
}

// A file's rule as a tuple, since definitions can't cite a constant of a struct that lends.
type Row = (bool, &'static [ColumnRule], &'static [RowRule]);

// The greatest integer of a column without a limit of its own.
const MOST_INT: i64 = 2_147_483_647;

const ANY_TIME: Grammar = Grammar::Time { most: MOST_TIME };

const DAY_TIME: Grammar = Grammar::Time { most: DAY_SECONDS };

// Integers from least to most.
macro_rules! int {
    ($least:expr, $most:expr) => {
        Grammar::Int {
            least: $least,
            most: $most,
        }
    };
}

// A column, and what an empty field of it is.
macro_rules! column {
    ($name:ident, $empty:ident, $grammar:expr) => {
        ColumnRule {
            name: ColumnName::$name,
            empty: EmptyField::$empty,
            grammar: $grammar,
        }
    };
}

// A column that must be there, with no field empty.
macro_rules! must {
    ($name:ident, $grammar:expr) => {
        column!($name, Fault, $grammar)
    };
}

// A column that may be absent, and whose fields may be empty.
macro_rules! may {
    ($name:ident, $grammar:expr) => {
        column!($name, Fine, $grammar)
    };
}

// What is checked of a row, and under which column it is told as which fault.
macro_rules! rule {
    ($column:ident, $kind:ident, $check:expr) => {
        RowRule {
            check: $check,
            column: ColumnName::$column,
            kind: FaultKind::$kind,
        }
    };
}

// No earlier row has its id in this column, by which rows are found.
macro_rules! new_id {
    ($column:ident, $ids:ident) => {
        rule!($column, DoubledKey, RowCheck::NewId(IdColumn::$ids))
    };
}

// Its id in this column stands in another, or in one of two others.
macro_rules! known {
    ($column:ident, $ids:ident) => {
        rule!($column, UnknownReference, RowCheck::Known(IdColumn::$ids))
    };
    ($column:ident, $ids:ident, $others:ident) => {
        rule!(
            $column,
            UnknownReference,
            RowCheck::KnownInOne(IdColumn::$ids, IdColumn::$others)
        )
    };
}

const STOPS: Row = (
    true,
    &[
        must!(StopId, Id),
        may!(LocationType, int!(0, 4)),
        may!(ParentStation, Id),
    ],
    &[
        new_id!(StopId, Stop),
        rule!(ParentStation, UnknownReference, RowCheck::KnownParent),
        rule!(ParentStation, BadParent, RowCheck::GoodParent),
    ],
);

const ROUTES: Row = (
    true,
    &[must!(RouteId, Id), may!(NetworkId, Id)],
    &[new_id!(RouteId, Route)],
);

const TRIPS: Row = (
    true,
    &[must!(RouteId, Id), must!(ServiceId, Id), must!(TripId, Id)],
    &[
        new_id!(TripId, Trip),
        known!(RouteId, Route),
        known!(ServiceId, Calendar, CalendarDate),
    ],
);

const STOP_TIMES: Row = (
    true,
    &[
        must!(TripId, Id),
        column!(StopId, FaultOrFlex, Id),
        must!(StopSequence, int!(0, MOST_INT)),
        may!(ArrivalTime, ANY_TIME),
        may!(DepartureTime, ANY_TIME),
        may!(PickupType, int!(0, 3)),
        may!(DropOffType, int!(0, 3)),
    ],
    &[
        known!(TripId, Trip),
        known!(StopId, Stop),
        rule!(StopId, WrongStopKind, RowCheck::AtPlatform),
        rule!(StopSequence, DoubledKey, RowCheck::NewKey),
        rule!(ArrivalTime, EndTimeMissing, RowCheck::TimedEnds),
        rule!(ArrivalTime, TimesDecrease, RowCheck::RisingTimes),
    ],
);

const CALENDAR: Row = (
    false,
    &[
        must!(ServiceId, Id),
        must!(Monday, int!(0, 1)),
        must!(Tuesday, int!(0, 1)),
        must!(Wednesday, int!(0, 1)),
        must!(Thursday, int!(0, 1)),
        must!(Friday, int!(0, 1)),
        must!(Saturday, int!(0, 1)),
        must!(Sunday, int!(0, 1)),
        must!(StartDate, Date),
        must!(EndDate, Date),
    ],
    &[
        new_id!(ServiceId, Calendar),
        rule!(EndDate, DatesReversed, RowCheck::OrderedDays),
    ],
);

const CALENDAR_DATES: Row = (
    false,
    &[
        must!(ServiceId, Id),
        must!(Date, Date),
        must!(ExceptionType, int!(1, 2)),
    ],
    &[rule!(Date, DoubledKey, RowCheck::NewKey)],
);

const FREQUENCIES: Row = (
    false,
    &[
        must!(TripId, Id),
        must!(StartTime, ANY_TIME),
        must!(EndTime, ANY_TIME),
        must!(HeadwaySecs, int!(1, MOST_INT)),
        may!(ExactTimes, int!(0, 1)),
    ],
    &[
        known!(TripId, Trip),
        rule!(StartTime, DoubledKey, RowCheck::NewKey),
    ],
);

const TRANSFERS: Row = (
    false,
    &[
        may!(TransferType, int!(0, 5)),
        must!(FromStopId, Id),
        must!(ToStopId, Id),
        may!(MinTransferTime, int!(0, MOST_INT)),
    ],
    &[known!(FromStopId, Stop), known!(ToStopId, Stop)],
);

const AREAS: Row = (false, &[must!(AreaId, Id)], &[new_id!(AreaId, Area)]);

const STOP_AREAS: Row = (
    false,
    &[must!(AreaId, Id), must!(StopId, Id)],
    &[known!(AreaId, Area), known!(StopId, Stop)],
);

const NETWORKS: Row = (
    false,
    &[must!(NetworkId, Id)],
    &[new_id!(NetworkId, Network)],
);

const ROUTE_NETWORKS: Row = (
    false,
    &[must!(NetworkId, Id), must!(RouteId, Id)],
    &[
        new_id!(RouteId, NetworkRoute),
        known!(NetworkId, Network),
        known!(RouteId, Route),
    ],
);

const TIMEFRAMES: Row = (
    false,
    &[
        must!(TimeframeGroupId, Id),
        may!(StartTime, DAY_TIME),
        may!(EndTime, DAY_TIME),
        must!(ServiceId, Id),
    ],
    &[
        known!(ServiceId, Calendar, CalendarDate),
        rule!(StartTime, TimeframeFault, RowCheck::GoodTimeframe),
    ],
);

const RIDER_CATEGORIES: Row = (
    false,
    &[
        must!(RiderCategoryId, Id),
        may!(IsDefaultFareCategory, int!(0, 1)),
    ],
    &[new_id!(RiderCategoryId, RiderCategory)],
);

const FARE_MEDIA: Row = (
    false,
    &[must!(FareMediaId, Id), may!(FareMediaType, int!(0, 4))],
    &[new_id!(FareMediaId, FareMedia)],
);

const FARE_PRODUCTS: Row = (
    true,
    &[
        must!(FareProductId, Id),
        may!(RiderCategoryId, Id),
        may!(FareMediaId, Id),
        must!(Currency, Currency),
        must!(Amount, Amount),
    ],
    &[
        known!(RiderCategoryId, RiderCategory),
        known!(FareMediaId, FareMedia),
        rule!(FareProductId, DoubledKey, RowCheck::NewKey),
        rule!(Currency, MixedCurrency, RowCheck::OneCurrency),
    ],
);

const FARE_LEG_RULES: Row = (
    true,
    &[
        may!(LegGroupId, Id),
        may!(NetworkId, Id),
        may!(FromAreaId, Id),
        may!(ToAreaId, Id),
        may!(FromTimeframeGroupId, Id),
        may!(ToTimeframeGroupId, Id),
        must!(FareProductId, Id),
        may!(RulePriority, int!(0, MOST_INT)),
    ],
    &[
        known!(NetworkId, RouteNetwork, Network),
        known!(FromAreaId, Area),
        known!(ToAreaId, Area),
        known!(FromTimeframeGroupId, TimeframeGroup),
        known!(ToTimeframeGroupId, TimeframeGroup),
        known!(FareProductId, FareProduct),
    ],
);

const FARE_TRANSFER_RULES: Row = (
    false,
    &[
        may!(FromLegGroupId, Id),
        may!(ToLegGroupId, Id),
        may!(TransferCount, Count),
        may!(DurationLimit, int!(1, MOST_INT)),
        may!(DurationLimitType, int!(0, 3)),
        must!(FareTransferType, int!(0, 2)),
        may!(FareProductId, Id),
    ],
    &[
        rule!(TransferCount, TransferFields, RowCheck::GoodCount),
        rule!(DurationLimitType, TransferFields, RowCheck::WholeLimit),
        known!(FromLegGroupId, LegGroup),
        known!(ToLegGroupId, LegGroup),
        known!(FareProductId, FareProduct),
    ],
);

const FARE_LEG_JOIN_RULES: Row = (
    false,
    &[
        must!(FromNetworkId, Id),
        must!(ToNetworkId, Id),
        may!(FromStopId, Id),
        may!(ToStopId, Id),
    ],
    &[
        known!(FromNetworkId, RouteNetwork, Network),
        known!(ToNetworkId, RouteNetwork, Network),
        known!(FromStopId, Stop),
        known!(ToStopId, Stop),
        rule!(ToStopId, JoinStops, RowCheck::BothStops),
    ],
);

/// What a file is judged by.
pub fn rule_of(file: FileName) -> FileRule
    ensures needed { result.is_needed ≡ is_always_needed file }
    ensures columns { result.columns.now ≡ columns_of file }
    ensures checks { result.checks.now ≡ checks_of file }
{
    let (is_needed, columns, checks) = match file {
        FileName::Stops => STOPS,
        FileName::Routes => ROUTES,
        FileName::Trips => TRIPS,
        FileName::StopTimes => STOP_TIMES,
        FileName::Calendar => CALENDAR,
        FileName::CalendarDates => CALENDAR_DATES,
        FileName::Frequencies => FREQUENCIES,
        FileName::Transfers => TRANSFERS,
        FileName::Areas => AREAS,
        FileName::StopAreas => STOP_AREAS,
        FileName::Networks => NETWORKS,
        FileName::RouteNetworks => ROUTE_NETWORKS,
        FileName::Timeframes => TIMEFRAMES,
        FileName::RiderCategories => RIDER_CATEGORIES,
        FileName::FareMedia => FARE_MEDIA,
        FileName::FareProducts => FARE_PRODUCTS,
        FileName::FareLegRules => FARE_LEG_RULES,
        FileName::FareTransferRules => FARE_TRANSFER_RULES,
        FileName::FareLegJoinRules => FARE_LEG_JOIN_RULES,
    };
    FileRule {
        is_needed,
        columns,
        checks,
    }
}
