//! A feed: the rows of its files, with what holds of them.
use crate::ids::Id;
use crate::rows::{
    AreaRow, ExceptionRow, FrequencyRow, JoinRow, LegRuleRow, LinkRow, MediumRow, ProductRow,
    RiderRow, RouteRow, ServiceRow, StopAreaRow, StopRow, StopTimeRow, TimeframeRow,
    TransferRuleRow, TripRow,
};
use plain_laws::ItemList;
use std::marker::Model;

/// The rows of `stops.txt`.
pub type StopRows = ItemList<StopRow>;

/// The rows of `routes.txt`.
pub type RouteRows = ItemList<RouteRow>;

/// The rows of `trips.txt`.
pub type TripRows = ItemList<TripRow>;

/// The rows of `stop_times.txt`.
pub type StopTimeRows = ItemList<StopTimeRow>;

/// The rows of `calendar.txt`.
pub type ServiceRows = ItemList<ServiceRow>;

/// The rows of `calendar_dates.txt`.
pub type ExceptionRows = ItemList<ExceptionRow>;

/// The rows of `frequencies.txt`.
pub type FrequencyRows = ItemList<FrequencyRow>;

/// The rows of `transfers.txt` that are not passed over.
pub type LinkRows = ItemList<LinkRow>;

/// The rows of `areas.txt`.
pub type AreaRows = ItemList<AreaRow>;

/// The rows of `stop_areas.txt`.
pub type StopAreaRows = ItemList<StopAreaRow>;

/// The rows of `timeframes.txt`.
pub type TimeframeRows = ItemList<TimeframeRow>;

/// The rows of `rider_categories.txt`.
pub type RiderRows = ItemList<RiderRow>;

/// The rows of `fare_media.txt`.
pub type MediumRows = ItemList<MediumRow>;

/// The rows of `fare_products.txt`.
pub type ProductRows = ItemList<ProductRow>;

/// The rows of `fare_leg_rules.txt`.
pub type LegRuleRows = ItemList<LegRuleRow>;

/// The rows of `fare_transfer_rules.txt`.
pub type TransferRuleRows = ItemList<TransferRuleRow>;

/// The rows of `fare_leg_join_rules.txt`.
pub type JoinRows = ItemList<JoinRow>;

/// Names without rows of their own, by first appearance.
pub type NameList = ItemList<Id>;

/// A feed without a fault: the rows of each file, in file order, with row numbers in place of ids. Contracts see it as
/// the record of its lists, and whatever makes one proves that it has no fault.
pub struct Feed {
    pub stops: StopRows,
    pub routes: RouteRows,
    pub trips: TripRows,
    pub stop_times: StopTimeRows,
    pub services: ServiceRows,
    pub exceptions: ExceptionRows,
    pub frequencies: FrequencyRows,
    pub links: LinkRows,
    pub areas: AreaRows,
    pub stop_areas: StopAreaRows,
    pub timeframes: TimeframeRows,
    pub riders: RiderRows,
    pub media: MediumRows,
    pub products: ProductRows,
    pub leg_rules: LegRuleRows,
    pub transfer_rules: TransferRuleRows,
    pub joins: JoinRows,
    /// The names of services.
    pub service_names: NameList,
    /// The names of fare networks.
    pub network_names: NameList,
    /// The names of timeframe groups.
    pub frame_names: NameList,
    /// The names of fare products.
    pub product_names: NameList,
    /// The names of leg groups.
    pub group_names: NameList,
    /// Whether `fare_leg_rules.txt` has the column `rule_priority`.
    pub has_priority: bool,
    /// The currency of all prices; none where the feed has no price.
    pub currency: Option<[u8; 3]>,
    /// The decimals of the currency.
    pub decimals: u8,
}

// Written out, so that what holds one needn't look into it to let go of it.
impl Drop for Feed {
    fn drop(self) {
        let Feed {
            stops: _,
            routes: _,
            trips: _,
            stop_times: _,
            services: _,
            exceptions: _,
            frequencies: _,
            links: _,
            areas: _,
            stop_areas: _,
            timeframes: _,
            riders: _,
            media: _,
            products: _,
            leg_rules: _,
            transfer_rules: _,
            joins: _,
            service_names: _,
            network_names: _,
            frame_names: _,
            product_names: _,
            group_names: _,
            has_priority: _,
            currency: _,
            decimals: _,
        } = self;
    }
}

impl Model for Feed {
    ghost use Rattle.feed_rows.specs.FeedRows.{FeedRows};

    ghost Value = { FeedRows };

    ghost use Rattle.feed_rows.specs.SoundFeed.{IsSoundFeed};
    ghost use Rattle.feed_rows.specs.Feed.{rows_inside};

    ghost view = { rows_inside };

    ghost invariant = { λ fields. IsSoundFeed (rows_inside fields) };
}
