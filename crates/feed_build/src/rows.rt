//! The rows of a feed, each made of the tables of its files.
ghost use Rattle.std.specs.Prelude.{◌≡◌, ◌==◌, ◌<◌, ◌≤◌, not, true, false, IfOk};
ghost use Rattle.plain_laws.specs.Plain.{picks_below};
ghost use Rattle.feed_files.specs.declared.names.FileName.TheVariants as file;
ghost use Rattle.feed_faults.specs.Records.{field, row_count};
ghost use Rattle.feed_faults.specs.FormFaults.{is_passed_over};
ghost use Rattle.feed_faults.specs.FeedTables.{table_in};
ghost use Rattle.feed_faults.specs.FieldValues.{nat_of};
ghost use Rattle.feed_faults.specs.AcceptedFeed.{if_filled, stop_row, network_of_route, route_row, trip_row, service_row, exception_row, frequency_row, link_row, area_row, stop_area_row, timeframe_row, rider_row, medium_row, product_row, leg_rule_row, transfer_rule_row, join_row, feed_currency, feed_decimals};

use crate::feed::{TableSource, row_number};
use crate::names::name_number;
use feed_faults::IdColumn;
use feed_files::{ColumnName, FileName};
use feed_rows::{
    AreaRow, ExceptionRow, FrequencyRow, Id, JoinRow, LegRuleRow, Limit, LinkRow, LinkRows,
    MediumRow, PLATFORM, ProductRow, RiderRow, RouteRow, ServiceRow, StopAreaRow, StopRow,
    TimeframeRow, TransferRuleRow, TripRow,
};
use feed_tables::CallTable;
use feed_text::{Table, is_filled, is_passed_over, nat_of, natural};
use std::alloc::AllocError;
use transit_base::{
    AreaId, DAY_SECONDS, Day, FrameId, LegGroupId, MediumId, Money, NetworkId, ProductId, RiderId,
    RouteId, ServiceId, StopId, TripId,
};

// A weekday of `calendar.txt` on which the service runs.
const SERVICE_AVAILABLE: u32 = 1;

// The `exception_type` of a date on which the service is added.
const SERVICE_ADDED: u32 = 1;

// The `transfer_type` of a row that forbids the change.
const CHANGE_FORBIDDEN: u32 = 3;

// The `is_default_fare_category` of the category of riders who name none.
const DEFAULT_CATEGORY: u32 = 1;

// A value, where the text that gives it is filled.
fn filled<T: Copy>(text: &[u8], value: T) -> Option<T>
    ensures { result ≡ if_filled text.now value }
{
    if is_filled(text) { Some(value) } else { None }
}

// Whether a field tells this code. An empty one tells 0.
fn is_code(number: Option<i64>, code: u32) -> bool
    requires { 1 ≤ code }
    ensures { result ≡ (nat_of number == code) }
{
    number == Some(i64::from(code))
}

/// A row of a feed that a row of one file gives.
pub trait FileRow: Drop {
    ghost use Rattle.std.specs.Prelude.{◌≡◌, ◌<◌, ℕ, Bool, true, false, IfOk, OnErr};
    ghost use Rattle.feed_files.specs.declared.names.FileName.{FileName};
    ghost use Rattle.feed_faults.specs.Records.{row_count};
    ghost use Rattle.feed_faults.specs.FeedTables.{FeedTables, table_in};

    /// The file.
    ghost file: { FileName };

    /// What a row of the file gives.
    ghost row_in: { FeedTables → ℕ → Self };

    /// Whether it has a copy of a text.
    ghost copies: { Bool } = { false };

    /// The row of a number in the file's table.
    ///
    /// # Errors
    /// Want of memory, for a copy.
    fn of<C: CallTable>(
        source: &TableSource<C>,
        table: &Table,
        row: u32,
    ) -> Result<Self, AllocError>
        requires table { table.now ≡ table_in source.now file }
        requires within { row < row_count table.now }
        ensures row { IfOk result (λ made. made ≡ row_in source.now row) }
        ensures memory { OnErr result (copies ≡ true) };
}

// A row of `stops.txt`. A platform alone has the station that it names.
impl FileRow for StopRow {
    ghost file = { file.Stops };

    ghost row_in = { stop_row };

    ghost copies = { true };

    #[tactic(auto, unfolding(feed_faults::specs::AcceptedFeed::stop_row, feed_faults::specs::AcceptedFeed::accepted_parent), using(feed_soundness::proofs::IdColumns::stop_id, crate::proofs::ValueLaws::values))]
    fn of<C: CallTable>(
        source: &TableSource<C>,
        table: &Table,
        row: u32,
    ) -> Result<Self, AllocError> {
        let &[_, kind, _] = source.tables.numbers::<3>(FileName::Stops, row);
        let kind = nat_of(kind) as u8;
        let parent = table.field(row, ColumnName::ParentStation);
        Ok(StopRow {
            id: Id::copy_of(source.alloc, table.field(row, ColumnName::StopId))?,
            kind,
            parent: if kind == PLATFORM && is_filled(parent) {
                Some(StopId(row_number(source, IdColumn::Stop, parent)))
            } else {
                None
            },
        })
    }
}

// A row of `routes.txt`.
impl FileRow for RouteRow {
    ghost file = { file.Routes };

    ghost row_in = { route_row };

    ghost copies = { true };

    #[tactic(auto, unfolding(feed_faults::specs::AcceptedFeed::route_row), using(feed_soundness::proofs::IdColumns::route_id))]
    fn of<C: CallTable>(
        source: &TableSource<C>,
        table: &Table,
        row: u32,
    ) -> Result<Self, AllocError> {
        let names = source.names;
        let network = source.network_of_route(row);
        Ok(RouteRow {
            id: Id::copy_of(source.alloc, table.field(row, ColumnName::RouteId))?,
            network: filled(network, NetworkId(name_number(&names.networks, network))),
        })
    }
}

// A row of `trips.txt`.
impl FileRow for TripRow {
    ghost file = { file.Trips };

    ghost row_in = { trip_row };

    ghost copies = { true };

    #[tactic(auto, unfolding(feed_faults::specs::AcceptedFeed::trip_row), using(feed_soundness::proofs::IdColumns::trip_id))]
    fn of<C: CallTable>(
        source: &TableSource<C>,
        table: &Table,
        row: u32,
    ) -> Result<Self, AllocError> {
        let route = table.field(row, ColumnName::RouteId);
        let service = table.field(row, ColumnName::ServiceId);
        Ok(TripRow {
            id: Id::copy_of(source.alloc, table.field(row, ColumnName::TripId))?,
            route: RouteId(row_number(source, IdColumn::Route, route)),
            service: ServiceId(name_number(&source.names.services, service)),
        })
    }
}

// A row of `calendar.txt`.
impl FileRow for ServiceRow {
    ghost file = { file.Calendar };

    ghost row_in = { service_row };

    #[tactic(auto, unfolding(feed_faults::specs::AcceptedFeed::service_row, feed_faults::specs::FieldValues::int_or_zero, feed_faults::specs::FieldValues::day_or_zero))]
    fn of<C: CallTable>(
        source: &TableSource<C>,
        table: &Table,
        row: u32,
    ) -> Result<Self, AllocError> {
        let &[
            _,
            monday,
            tuesday,
            wednesday,
            thursday,
            friday,
            saturday,
            sunday,
            first,
            last,
        ] = source.tables.numbers::<10>(FileName::Calendar, row);
        let service = table.field(row, ColumnName::ServiceId);
        Ok(ServiceRow {
            service: ServiceId(name_number(&source.names.services, service)),
            days: [
                is_code(monday, SERVICE_AVAILABLE),
                is_code(tuesday, SERVICE_AVAILABLE),
                is_code(wednesday, SERVICE_AVAILABLE),
                is_code(thursday, SERVICE_AVAILABLE),
                is_code(friday, SERVICE_AVAILABLE),
                is_code(saturday, SERVICE_AVAILABLE),
                is_code(sunday, SERVICE_AVAILABLE),
            ],
            first: Day(first.unwrap_or(0)),
            last: Day(last.unwrap_or(0)),
        })
    }
}

// A row of `calendar_dates.txt`.
impl FileRow for ExceptionRow {
    ghost file = { file.CalendarDates };

    ghost row_in = { exception_row };

    #[tactic(auto, unfolding(feed_faults::specs::AcceptedFeed::exception_row, feed_faults::specs::FieldValues::int_or_zero, feed_faults::specs::FieldValues::day_or_zero))]
    fn of<C: CallTable>(
        source: &TableSource<C>,
        table: &Table,
        row: u32,
    ) -> Result<Self, AllocError> {
        let &[_, date, kind] = source.tables.numbers::<3>(FileName::CalendarDates, row);
        let service = table.field(row, ColumnName::ServiceId);
        Ok(ExceptionRow {
            service: ServiceId(name_number(&source.names.services, service)),
            day: Day(date.unwrap_or(0)),
            added: is_code(kind, SERVICE_ADDED),
        })
    }
}

// A row of `frequencies.txt`.
impl FileRow for FrequencyRow {
    ghost file = { file.Frequencies };

    ghost row_in = { frequency_row };

    #[tactic(auto, unfolding(feed_faults::specs::AcceptedFeed::frequency_row), using(crate::proofs::ValueLaws::values))]
    fn of<C: CallTable>(
        source: &TableSource<C>,
        table: &Table,
        row: u32,
    ) -> Result<Self, AllocError> {
        let &[_, start, end, headway, _] = source.tables.numbers::<5>(FileName::Frequencies, row);
        let trip = table.field(row, ColumnName::TripId);
        Ok(FrequencyRow {
            trip: TripId(row_number(source, IdColumn::Trip, trip)),
            start: natural(start).unwrap_or(0),
            end: natural(end).unwrap_or(0),
            headway: nat_of(headway),
        })
    }
}

// A row of `areas.txt`.
impl FileRow for AreaRow {
    ghost file = { file.Areas };

    ghost row_in = { area_row };

    ghost copies = { true };

    #[tactic(auto, unfolding(feed_faults::specs::AcceptedFeed::area_row), using(crate::proofs::IdLaws::area_ids))]
    fn of<C: CallTable>(
        source: &TableSource<C>,
        table: &Table,
        row: u32,
    ) -> Result<Self, AllocError> {
        Ok(AreaRow {
            id: Id::copy_of(source.alloc, table.field(row, ColumnName::AreaId))?,
        })
    }
}

// A row of `stop_areas.txt`.
impl FileRow for StopAreaRow {
    ghost file = { file.StopAreas };

    ghost row_in = { stop_area_row };

    #[tactic(auto, unfolding(feed_faults::specs::AcceptedFeed::stop_area_row))]
    fn of<C: CallTable>(
        source: &TableSource<C>,
        table: &Table,
        row: u32,
    ) -> Result<Self, AllocError> {
        Ok(StopAreaRow {
            area: AreaId(row_number(source, IdColumn::Area, table.field(row, ColumnName::AreaId))),
            stop: StopId(row_number(source, IdColumn::Stop, table.field(row, ColumnName::StopId))),
        })
    }
}

// A row of `timeframes.txt`.
impl FileRow for TimeframeRow {
    ghost file = { file.Timeframes };

    ghost row_in = { timeframe_row };

    #[tactic(auto, unfolding(feed_faults::specs::AcceptedFeed::timeframe_row), using(crate::proofs::ValueLaws::values))]
    fn of<C: CallTable>(
        source: &TableSource<C>,
        table: &Table,
        row: u32,
    ) -> Result<Self, AllocError> {
        let &[_, start, end, _] = source.tables.numbers::<4>(FileName::Timeframes, row);
        let group = table.field(row, ColumnName::TimeframeGroupId);
        let service = table.field(row, ColumnName::ServiceId);
        Ok(TimeframeRow {
            frame: FrameId(name_number(&source.names.frames, group)),
            start: natural(start).unwrap_or(0),
            end: natural(end).unwrap_or(DAY_SECONDS),
            service: ServiceId(name_number(&source.names.services, service)),
        })
    }
}

// A row of `rider_categories.txt`.
impl FileRow for RiderRow {
    ghost file = { file.RiderCategories };

    ghost row_in = { rider_row };

    ghost copies = { true };

    #[tactic(auto, unfolding(feed_faults::specs::AcceptedFeed::rider_row), using(crate::proofs::IdLaws::rider_ids, crate::proofs::ValueLaws::values))]
    fn of<C: CallTable>(
        source: &TableSource<C>,
        table: &Table,
        row: u32,
    ) -> Result<Self, AllocError> {
        let &[_, default] = source.tables.numbers::<2>(FileName::RiderCategories, row);
        Ok(RiderRow {
            id: Id::copy_of(source.alloc, table.field(row, ColumnName::RiderCategoryId))?,
            default: is_code(default, DEFAULT_CATEGORY),
        })
    }
}

// A row of `fare_media.txt`.
impl FileRow for MediumRow {
    ghost file = { file.FareMedia };

    ghost row_in = { medium_row };

    ghost copies = { true };

    #[tactic(auto, unfolding(feed_faults::specs::AcceptedFeed::medium_row), using(crate::proofs::IdLaws::medium_ids))]
    fn of<C: CallTable>(
        source: &TableSource<C>,
        table: &Table,
        row: u32,
    ) -> Result<Self, AllocError> {
        Ok(MediumRow {
            id: Id::copy_of(source.alloc, table.field(row, ColumnName::FareMediaId))?,
        })
    }
}

// A row of `fare_products.txt`.
impl FileRow for ProductRow {
    ghost file = { file.FareProducts };

    ghost row_in = { product_row };

    #[tactic(auto, unfolding(feed_faults::specs::AcceptedFeed::product_row, feed_faults::specs::FieldValues::amount_or_zero))]
    fn of<C: CallTable>(
        source: &TableSource<C>,
        table: &Table,
        row: u32,
    ) -> Result<Self, AllocError> {
        let &[_, _, _, _, amount] = source.tables.numbers::<5>(FileName::FareProducts, row);
        let product = table.field(row, ColumnName::FareProductId);
        let rider = table.field(row, ColumnName::RiderCategoryId);
        let medium = table.field(row, ColumnName::FareMediaId);
        Ok(ProductRow {
            product: ProductId(name_number(&source.names.products, product)),
            rider: filled(
                rider,
                RiderId(row_number(source, IdColumn::RiderCategory, rider)),
            ),
            medium: filled(
                medium,
                MediumId(row_number(source, IdColumn::FareMedia, medium)),
            ),
            amount: Money(amount.unwrap_or(0)),
        })
    }
}

// A row of `fare_leg_rules.txt`.
impl FileRow for LegRuleRow {
    ghost file = { file.FareLegRules };

    ghost row_in = { leg_rule_row };

    #[tactic(auto, unfolding(feed_faults::specs::AcceptedFeed::leg_rule_row), using(crate::proofs::ValueLaws::values))]
    fn of<C: CallTable>(
        source: &TableSource<C>,
        table: &Table,
        row: u32,
    ) -> Result<Self, AllocError> {
        let &[_, _, _, _, _, _, _, priority] = source
            .tables
            .numbers::<8>(FileName::FareLegRules, row);
        let names = source.names;
        let group = table.field(row, ColumnName::LegGroupId);
        let network = table.field(row, ColumnName::NetworkId);
        let from_area = table.field(row, ColumnName::FromAreaId);
        let to_area = table.field(row, ColumnName::ToAreaId);
        let from_frame = table.field(row, ColumnName::FromTimeframeGroupId);
        let to_frame = table.field(row, ColumnName::ToTimeframeGroupId);
        let product = table.field(row, ColumnName::FareProductId);
        Ok(LegRuleRow {
            group: filled(group, LegGroupId(name_number(&names.groups, group))),
            network: filled(network, NetworkId(name_number(&names.networks, network))),
            from_area: filled(
                from_area,
                AreaId(row_number(source, IdColumn::Area, from_area)),
            ),
            to_area: filled(to_area, AreaId(row_number(source, IdColumn::Area, to_area))),
            from_frame: filled(from_frame, FrameId(name_number(&names.frames, from_frame))),
            to_frame: filled(to_frame, FrameId(name_number(&names.frames, to_frame))),
            product: ProductId(name_number(&names.products, product)),
            priority: nat_of(priority),
        })
    }
}

// A row of `fare_transfer_rules.txt`.
impl FileRow for TransferRuleRow {
    ghost file = { file.FareTransferRules };

    ghost row_in = { transfer_rule_row };

    #[tactic(auto, unfolding(feed_faults::specs::AcceptedFeed::transfer_rule_row, feed_faults::specs::AcceptedFeed::limit_of), using(crate::proofs::ValueLaws::values))]
    fn of<C: CallTable>(
        source: &TableSource<C>,
        table: &Table,
        row: u32,
    ) -> Result<Self, AllocError> {
        let &[_, _, count, seconds, limit_kind, kind, _] = source
            .tables
            .numbers::<7>(FileName::FareTransferRules, row);
        let names = source.names;
        let from = table.field(row, ColumnName::FromLegGroupId);
        let to = table.field(row, ColumnName::ToLegGroupId);
        let limit = Limit {
            seconds: nat_of(seconds),
            kind: nat_of(limit_kind) as u8,
        };
        let product = table.field(row, ColumnName::FareProductId);
        Ok(TransferRuleRow {
            from: filled(from, LegGroupId(name_number(&names.groups, from))),
            to: filled(to, LegGroupId(name_number(&names.groups, to))),
            count: natural(count),
            limit: filled(table.field(row, ColumnName::DurationLimit), limit),
            kind: nat_of(kind) as u8,
            product: filled(product, ProductId(name_number(&names.products, product))),
        })
    }
}

// A row of `fare_leg_join_rules.txt`.
impl FileRow for JoinRow {
    ghost file = { file.FareLegJoinRules };

    ghost row_in = { join_row };

    #[tactic(auto, unfolding(feed_faults::specs::AcceptedFeed::join_row))]
    fn of<C: CallTable>(
        source: &TableSource<C>,
        table: &Table,
        row: u32,
    ) -> Result<Self, AllocError> {
        let networks = &source.names.networks;
        let from_network = table.field(row, ColumnName::FromNetworkId);
        let to_network = table.field(row, ColumnName::ToNetworkId);
        let from_stop = table.field(row, ColumnName::FromStopId);
        let to_stop = table.field(row, ColumnName::ToStopId);
        Ok(JoinRow {
            from_network: NetworkId(name_number(networks, from_network)),
            to_network: NetworkId(name_number(networks, to_network)),
            from_stop: filled(
                from_stop,
                StopId(row_number(source, IdColumn::Stop, from_stop)),
            ),
            to_stop: filled(to_stop, StopId(row_number(source, IdColumn::Stop, to_stop))),
        })
    }
}

// A row of `transfers.txt` that isn't passed over.
#[tactic(auto, unfolding(feed_faults::specs::AcceptedFeed::link_row), using(crate::proofs::ValueLaws::values))]
fn link_row<C: CallTable>(source: &TableSource<C>, row: u32) -> LinkRow
    requires within { row < row_count (table_in source.now file.Transfers) }
    requires judged { is_passed_over (field (table_in source.now file.Transfers) row) ≡ false }
    ensures { result ≡ link_row source.now row }
{
    let transfers = source.tables.get(FileName::Transfers);
    let &[kind, _, _, seconds] = source.tables.numbers::<4>(FileName::Transfers, row);
    let from = transfers.field(row, ColumnName::FromStopId);
    let to = transfers.field(row, ColumnName::ToStopId);
    LinkRow {
        from: StopId(row_number(source, IdColumn::Stop, from)),
        to: StopId(row_number(source, IdColumn::Stop, to)),
        forbidden: is_code(kind, CHANGE_FORBIDDEN),
        seconds: nat_of(seconds),
    }
}

impl<'t, C: CallTable> TableSource<'t, C> {
    // The name of a route's network: that of its own row, or else that of its row in route_networks.txt.
    #[tactic(auto, unfolding(feed_faults::specs::AcceptedFeed::network_of_route))]
    fn network_of_route(&self, row: u32) -> &'t [u8]
        requires { row < row_count (table_in self.now file.Routes) }
        ensures { result.now ≡ network_of_route self.now row }
    {
        let routes = self.tables.get(FileName::Routes);
        let own = routes.field(row, ColumnName::NetworkId);
        if is_filled(own) {
            return own;
        }
        let route = routes.field(row, ColumnName::RouteId);
        let members = self.tables.get(FileName::RouteNetworks);
        match self.ids.get(IdColumn::NetworkRoute).row_of(route) {
            Some(member) => members.field(member, ColumnName::NetworkId),
            None => &[],
        }
    }

    /// The rows of `transfers.txt` that aren't passed over, in order.
    ///
    /// # Errors
    /// Want of memory.
    pub fn link_rows(&self) -> Result<LinkRows, AllocError>
        ensures { IfOk result (λ rows. rows ≡ picks_below (row_count (table_in self.now file.Transfers)) (λ row. not (is_passed_over (field (table_in self.now file.Transfers) row))) (link_row self.now)) }
    {
        let transfers = self.tables.get(FileName::Transfers);
        let mut rows = LinkRows::empty(self.alloc);
        for row in 0..transfers.rows() {
            if !is_passed_over(&transfers.row(row)) {
                rows.push(link_row(self, row))?;
            }
        }
        Ok(rows)
    }

    /// The currency of the products and its decimals, those of the first; none and 2 where there is no product.
    #[tactic(auto, unfolding(feed_faults::specs::AcceptedFeed::feed_currency, feed_faults::specs::AcceptedFeed::feed_decimals), using(crate::proofs::CurrencyLaws::currency_of_three, crate::proofs::CurrencyLaws::three_bytes, crate::proofs::ValueLaws::decimals))]
    pub fn currency(&self) -> (Option<[u8; 3]>, u8)
        ensures currency { result.0 ≡ feed_currency (table_in self.now file.FareProducts) }
        ensures decimals { result.1 ≡ feed_decimals (table_in self.now file.FareProducts) }
    {
        let products = self.tables.get(FileName::FareProducts);
        if products.rows() == 0 {
            return (None, 2);
        }
        let text = products.field(0, ColumnName::Currency);
        let &[_, _, _, decimals, _] = self.tables.numbers::<5>(FileName::FareProducts, 0);
        let decimals = natural(decimals).unwrap_or(2) as u8;
        (Some([text[0], text[1], text[2]]), decimals)
    }
}
