//! The files that are alike in all generated feeds: the calendar, and the rules of fares.
ghost use Rattle.std.specs.Prelude.{◌≡◌};
ghost use Rattle.feed_rows.specs.GeneratedFeed.{calendar_file, areas_file, timeframes_file, fare_products_file, fare_leg_rules_file, fare_transfer_rules_file};

/// The text of `calendar.txt`.
#[tactic(auto, unfolding(feed_rows::specs::GeneratedFeed::calendar_file))]
pub fn calendar_file() -> &'static [u8]
    ensures { result.now ≡ calendar_file }
{
    b"service_id,monday,tuesday,wednesday,thursday,friday,saturday,sunday,start_date,end_date\n\
    W,1,1,1,1,1,1,1,20250101,20251231\n"
}

/// The text of `areas.txt`.
#[tactic(auto, unfolding(feed_rows::specs::GeneratedFeed::areas_file))]
pub fn areas_file() -> &'static [u8]
    ensures { result.now ≡ areas_file }
{
    b"area_id\n\
    z0\n\
    z1\n"
}

/// The text of `timeframes.txt`.
#[tactic(auto, unfolding(feed_rows::specs::GeneratedFeed::timeframes_file))]
pub fn timeframes_file() -> &'static [u8]
    ensures { result.now ≡ timeframes_file }
{
    b"timeframe_group_id,start_time,end_time,service_id\n\
    peak,00:00:00,09:00:00,W\n\
    off,09:00:00,24:00:00,W\n"
}

/// The text of `fare_products.txt`.
#[tactic(auto, unfolding(feed_rows::specs::GeneratedFeed::fare_products_file))]
pub fn fare_products_file() -> &'static [u8]
    ensures { result.now ≡ fare_products_file }
{
    b"fare_product_id,currency,amount\n\
    bus_peak,EUR,2.00\n\
    bus_off,EUR,1.00\n\
    tram,EUR,1.50\n\
    rail_far,EUR,3.00\n\
    rail_near,EUR,2.00\n\
    change,EUR,0.50\n\
    bonus,EUR,-0.30\n\
    combi,EUR,2.20\n"
}

/// The text of `fare_leg_rules.txt`.
#[tactic(auto, unfolding(feed_rows::specs::GeneratedFeed::fare_leg_rules_file))]
pub fn fare_leg_rules_file() -> &'static [u8]
    ensures { result.now ≡ fare_leg_rules_file }
{
    b"leg_group_id,network_id,to_area_id,from_timeframe_group_id,fare_product_id,rule_priority\n\
    g_bus,bus,,peak,bus_peak,0\n\
    g_bus,bus,,off,bus_off,0\n\
    g_tram,tram,,,tram,0\n\
    g_rail,rail,z1,,rail_far,1\n\
    g_rail,rail,,,rail_near,0\n"
}

/// The text of `fare_transfer_rules.txt`.
#[tactic(auto, unfolding(feed_rows::specs::GeneratedFeed::fare_transfer_rules_file))]
pub fn fare_transfer_rules_file() -> &'static [u8]
    ensures { result.now ≡ fare_transfer_rules_file }
{
    b"from_leg_group_id,to_leg_group_id,transfer_count,duration_limit,duration_limit_type,fare_transfer_type,fare_product_id\n\
    g_bus,g_bus,-1,3600,1,0,\n\
    g_bus,g_tram,,,,0,change\n\
    g_rail,g_tram,,,,0,bonus\n\
    g_tram,g_bus,,,,2,combi\n"
}
