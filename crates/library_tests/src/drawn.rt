// Small feeds that are drawn: sixteen trips along seven stops within an hour, and a tariff with discounts and surcharges, limits
// of all four types, counts, priorities and riders.
ghost use Rattle.plan_rides.specs.InTime.{IsUsualQuery};

use crate::feeds::{AT_ONCE, feed_of};
use feed_files::FileName;
use feed_rows::{Buyer, Feed, Query};
use std::alloc::{AllocError, Global};
use transit_base::{Moment, RiderId, StopId};

const STOPS: &[u8] =
    b"stop_id,location_type,parent_station\nA,,\nB,,P\nC,,P\nD,,\nE,,\nF,,\nG,,\nP,1,\n";

// Walks at both ends and between rides, two of which take no time.
const LINKS: &[u8] = b"from_stop_id,to_stop_id,transfer_type,min_transfer_time\n\
    F,G,2,120\nA,B,2,60\nD,E,2,\nE,F,2,0\n";

const ROUTES: &[u8] = b"route_id,network_id\nR0,bus\nR1,rail\nR2,tram\nR3,ferry\n";

// The trips that are drawn, and two that go from A to G at once.
const TRIPS: &[u8] = b"route_id,service_id,trip_id\n\
    R0,W,a\nR1,W,b\nR2,W,c\nR3,W,d\nR0,W,e\nR1,W,f\nR2,W,g\nR3,W,h\n\
    R0,W,i\nR1,W,j\nR2,W,k\nR3,W,l\nR0,W,m\nR1,W,n\nR2,W,o\nR3,W,p\n\
    R3,W,y\nR1,W,z\n";

const DRAWN_TRIPS: u32 = 16;

// The calls of those two. The others stand behind them.
const FIRST_CALLS: &[u8] = b"trip_id,stop_id,stop_sequence,arrival_time\n\
    y,A,1,07:01:00\ny,G,2,07:45:00\nz,A,1,07:01:00\nz,G,2,07:30:00\n";

const DATES: &[u8] = b"service_id,date,exception_type\nW,20250602,1\n";

const FRAMES: &[u8] = b"timeframe_group_id,start_time,end_time,service_id\n\
    early,00:00:00,07:20:00,W\nlate,07:20:00,24:00:00,W\n";

const RIDERS: &[u8] = b"rider_category_id,is_default_fare_category\nadult,1\nchild,0\n";

// Each has tickets of four networks and four for changes, some of them below zero, and of the later two some are for one rider
// alone.
const PRODUCTS: [&[u8]; 3] = [
    b"fare_product_id,rider_category_id,amount,currency\n\
    bus,,2.00,EUR\nrail,,3.20,EUR\ntram,,2.50,EUR\nferry,,2.90,EUR\n\
    low,,0.30,EUR\nback,,-1.20,EUR\ncombi,,0.80,EUR\ngift,,-0.40,EUR\n",
    b"fare_product_id,rider_category_id,amount,currency\n\
    bus,adult,2.40,EUR\nbus,child,1.20,EUR\nrail,,4.00,EUR\nrail,child,2.10,EUR\ntram,,1.60,EUR\nferry,,1.90,EUR\n\
    low,,0.20,EUR\nback,adult,-0.50,EUR\nback,child,-1.80,EUR\ncombi,,0.10,EUR\ngift,child,-0.90,EUR\n",
    b"fare_product_id,rider_category_id,amount,currency\n\
    bus,,3.00,EUR\nrail,,2.51,EUR\ntram,,3.10,EUR\ntram,child,-0.70,EUR\nferry,,2.50,EUR\n\
    low,,0.50,EUR\nback,,-2.60,EUR\ncombi,adult,0.90,EUR\ncombi,child,-1.10,EUR\ngift,,-0.10,EUR\n",
];

// A leg may be of two groups, by the rule that is chosen, and the ferry's is of none.
const LEG_RULES: [&[u8]; 3] = [
    b"leg_group_id,network_id,fare_product_id\ngb,bus,bus\ngr,rail,rail\ngt,tram,tram\n,ferry,ferry\n",
    b"leg_group_id,network_id,from_timeframe_group_id,fare_product_id\n\
    gb,bus,early,bus\ngt,bus,late,low\ngr,rail,,rail\ngt,tram,,tram\ngr,tram,late,bus\n,ferry,,ferry\n",
    b"leg_group_id,network_id,from_timeframe_group_id,fare_product_id,rule_priority\n\
    gb,bus,,bus,1\ngr,,,rail,0\ngt,tram,,tram,2\n,tram,early,ferry,2\n,ferry,,ferry,1\n",
];

const CHANGES: &[u8] =
    b"from_leg_group_id,to_leg_group_id,transfer_count,duration_limit,duration_limit_type,fare_transfer_type,fare_product_id\n";

// A tariff has five of them, of which some may be the same.
const CHANGE_ROWS: [&[u8]; 16] = [
    b"gb,gb,1,900,1,0,\n",
    b"gb,gb,-1,1800,0,0,low\n",
    b"gb,gr,,,,0,low\n",
    b"gb,gr,,600,1,2,combi\n",
    b"gr,gt,,,,2,combi\n",
    b"gr,gb,,1200,2,1,back\n",
    b"gt,gb,,,,2,gift\n",
    b"gt,gr,,900,3,1,gift\n",
    b"gt,gt,2,,,0,gift\n",
    b"gr,gr,1,1800,1,2,low\n",
    b",gt,,,,0,back\n",
    b"gb,,,,,2,low\n",
    b",,,1500,0,0,gift\n",
    b",,-1,,,1,back\n",
    b"gt,,,300,2,0,\n",
    b",gr,,,,2,low\n",
];

const DRAWN_ROWS: u32 = 5;

// The number that is drawn after this one.
fn drawn(number: u32) -> u32 {
    (75 * (number % 65_537) + 74) % 65_537
}

// Adds the call of a trip at a place of it, at a stop and a minute past seven.
fn push_call(
    text: &mut Vec<u8>,
    trip: u32,
    place: u32,
    stop: u32,
    minute: u32,
) -> Result<(), AllocError> {
    let line = [
        b'a' + (trip % 16) as u8,
        b',',
        b"ABCDEFGG"[(stop % 8) as usize],
        b',',
        b'1' + (place % 3) as u8,
        b',',
        b'0',
        b'7',
        b':',
        b'0' + (minute / 10 % 6) as u8,
        b'0' + (minute % 10) as u8,
        b':',
        b'0',
        b'0',
        b'\n',
    ];
    text.extend_from_slice(&line)
}

// Adds the three calls of a trip, at most five minutes and two stops apart, and gives the last number that was drawn.
fn push_trip(text: &mut Vec<u8>, trip: u32, last: u32) -> Result<u32, AllocError> {
    let mut last = drawn(last);
    let mut minute = last % 40;
    let mut stop = last / 40 % 4;
    for place in 0..3 {
        last = drawn(last);
        push_call(text, trip, place, stop, minute)?;
        minute = minute % 60 + 1 + last % 5;
        stop = stop % 8 + 1 + last / 5 % 2;
    }
    Ok(last)
}

// The feed of a seed.
pub fn drawn_feed(alloc: Global, seed: u32) -> Result<Feed, AllocError> {
    let mut last = seed;
    let mut calls = Vec::from_slice(alloc, FIRST_CALLS)?;
    for trip in 0..DRAWN_TRIPS {
        last = push_trip(&mut calls, trip, last)?;
    }
    let mut changes = Vec::from_slice(alloc, CHANGES)?;
    for _ in 0..DRAWN_ROWS {
        last = drawn(last);
        changes.extend_from_slice(CHANGE_ROWS[(last % 16) as usize])?;
    }
    let texts: [(FileName, &[u8]); 11] = [
        (FileName::Stops, STOPS),
        (FileName::Routes, ROUTES),
        (FileName::Trips, TRIPS),
        (FileName::StopTimes, calls.as_slice()),
        (FileName::CalendarDates, DATES),
        (FileName::Transfers, LINKS),
        (FileName::Timeframes, FRAMES),
        (FileName::RiderCategories, RIDERS),
        (FileName::FareProducts, PRODUCTS[(seed % 3) as usize]),
        (FileName::FareLegRules, LEG_RULES[(seed / 3 % 3) as usize]),
        (FileName::FareTransferRules, changes.as_slice()),
    ];
    feed_of(alloc, &texts, AT_ONCE)
}

// From A to G on 2 June 2025 at 07:00:00 within an hour, by two to four rides, for one rider or the other.
pub fn drawn_query(seed: u32) -> Query
    ensures { IsUsualQuery result }
{
    Query {
        from: StopId(0),
        to: StopId(6),
        departure: Moment(20_241 * 86_400 + 25_200),
        rides: 2 + (seed / 2 % 3) as u8,
        window: 3_600,
        buyer: Buyer {
            rider: Some(RiderId(seed % 2)),
        },
    }
}
