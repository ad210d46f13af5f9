// Texts that are, or are nearly, those of entries of a query, read back.
ghost use Rattle.ticket_read.specs.Judgement.{IsNearQuery};

use crate::feeds::{AT_ONCE, feed_of};
use feed_files::FileName;
use feed_rows::{Feed, NO_CATEGORY, Query};
use feed_timetable::Timetable;
use std::alloc::{AllocError, Global};
use ticket_read::entries_of;
use transit_base::{Moment, StopId};

// One walks from A to C in an hour.
const FILES: [(FileName, &[u8]); 9] = [
    (FileName::Stops, b"stop_id\nA\nB\nC\n"),
    (FileName::Routes, b"route_id,network_id\nR1,bus\nR2,rail\n"),
    (
        FileName::Trips,
        b"route_id,service_id,trip_id\nR1,W,T1\nR2,W,T2\nR1,W,T3\n",
    ),
    (
        FileName::StopTimes,
        b"trip_id,stop_id,stop_sequence,arrival_time,departure_time\n\
        T1,A,1,08:00:00,08:00:00\nT1,B,2,08:10:00,08:10:00\n\
        T2,B,1,08:15:00,08:15:00\nT2,C,2,08:30:00,08:30:00\n\
        T3,A,1,08:05:00,08:05:00\nT3,C,2,09:00:00,09:00:00\n",
    ),
    (
        FileName::CalendarDates,
        b"service_id,date,exception_type\nW,20250602,1\n",
    ),
    (
        FileName::Transfers,
        b"from_stop_id,to_stop_id,transfer_type,min_transfer_time\nA,C,2,3600\n",
    ),
    (
        FileName::FareProducts,
        b"fare_product_id,amount,currency\nsingle,2.50,EUR\nrail,4.00,EUR\nchange,0.50,EUR\n",
    ),
    (
        FileName::FareLegRules,
        b"leg_group_id,network_id,fare_product_id\ngb,bus,single\ngr,rail,rail\n",
    ),
    (
        FileName::FareTransferRules,
        b"from_leg_group_id,to_leg_group_id,fare_transfer_type,fare_product_id\ngb,gr,0,change\n",
    ),
];

// From A to the stop of this number on 2 June 2025 at 08:00:00, within a day.
fn query_to(stop: u32) -> Query
    ensures { IsNearQuery result }
{
    Query {
        from: StopId(0),
        to: StopId(stop),
        departure: Moment(1_748_851_200),
        rides: 4,
        window: 86_400,
        buyer: NO_CATEGORY,
    }
}

// The text of one ride, by its lines.
const JOURNEY: &[u8] = b"journey\t2025-06-02 09:00:00\t1\t2.50\tEUR\n";

const RIDE: &[u8] =
    b"ride\tT3\t2025-06-02\t-\t1\t2\tA\t2025-06-02 08:05:00\tC\t2025-06-02 09:00:00\n";

const LEG: &[u8] = b"leg\t1\tbuy\t1\t1\tsingle\t\t2.50\n";

// That of two rides: the lines before the change, and those from there on.
const FIRST: &[u8] = b"journey\t2025-06-02 08:30:00\t2\t3.00\tEUR\n\
    ride\tT1\t2025-06-02\t-\t1\t2\tA\t2025-06-02 08:00:00\tB\t2025-06-02 08:10:00\n\
    ride\tT2\t2025-06-02\t-\t1\t2\tB\t2025-06-02 08:15:00\tC\t2025-06-02 08:30:00\n\
    leg\t1\tbuy\t1\t1\tsingle\t\t2.50\n";

const CHANGE: &[u8] = b"change\t1\t0\t1\t3\tchange\t\t0.50\n";

const INCLUDED: &[u8] = b"leg\t2\tincluded\t2\t2\trail\t\t0.00\n";

// That of a walk, and the line of its journey.
const ON_FOOT: &[u8] = b"journey\t2025-06-02 09:00:00\t0\t0.00\tEUR\n";

const WALK: &[u8] = b"walk\tA\tC\t3600\n";

// To which stop, the text in parts, and how many entries it tells; none where it is no text of entries.
const TEXTS: [(u32, &[&[u8]], Option<usize>); 25] = [
    // Texts of entries, in any order, and more than once.
    (2, &[], Some(0)),
    (2, &[FIRST, CHANGE, INCLUDED, JOURNEY, RIDE, LEG], Some(2)),
    (2, &[JOURNEY, RIDE, LEG, FIRST, CHANGE, INCLUDED], Some(2)),
    (
        2,
        &[JOURNEY, RIDE, LEG, ON_FOOT, WALK, JOURNEY, RIDE, LEG],
        Some(3),
    ),
    (
        0,
        &[b"journey\t2025-06-02 08:00:00\t0\t0.00\tEUR\nstay\tA\n"],
        Some(1),
    ),
    // An included leg with its amount, and the change left out.
    (
        2,
        &[FIRST, CHANGE, b"leg\t2\tincluded\t2\t2\trail\t\t4.00\n"],
        None,
    ),
    (2, &[FIRST, INCLUDED], None),
    // A walk of a second more, and its price with a sign.
    (2, &[ON_FOOT, b"walk\tA\tC\t3601\n"], None),
    (
        2,
        &[b"journey\t2025-06-02 09:00:00\t0\t-0.00\tEUR\n", WALK],
        None,
    ),
    // The last line feed is missing, and an empty line stands behind the text.
    (
        2,
        &[JOURNEY, RIDE, b"leg\t1\tbuy\t1\t1\tsingle\t\t2.50"],
        None,
    ),
    (2, &[JOURNEY, RIDE, LEG, b"\n"], None),
    // A rule row one off, and a product row one off.
    (
        2,
        &[JOURNEY, RIDE, b"leg\t1\tbuy\t2\t1\tsingle\t\t2.50\n"],
        None,
    ),
    (
        2,
        &[JOURNEY, RIDE, b"leg\t1\tbuy\t1\t2\tsingle\t\t2.50\n"],
        None,
    ),
    // A tab more, and a medium that the row doesn't have.
    (
        2,
        &[JOURNEY, RIDE, b"leg\t1\tbuy\t1\t1\tsingle\t\t\t2.50\n"],
        None,
    ),
    (
        2,
        &[JOURNEY, RIDE, b"leg\t1\tbuy\t1\t1\tsingle\tcard\t2.50\n"],
        None,
    ),
    // A stay beside a ride.
    (2, &[JOURNEY, b"stay\tA\n", RIDE, LEG], None),
    // A start of a trip without frequencies, a day that doesn't exist, and a number with a leading zero.
    (
        2,
        &[
            JOURNEY,
            b"ride\tT3\t2025-06-02\t08:05:00\t1\t2\tA\t2025-06-02 08:05:00\tC\t2025-06-02 09:00:00\n",
            LEG,
        ],
        None,
    ),
    (
        2,
        &[
            JOURNEY,
            b"ride\tT3\t2025-02-29\t-\t1\t2\tA\t2025-06-02 08:05:00\tC\t2025-06-02 09:00:00\n",
            LEG,
        ],
        None,
    ),
    (
        2,
        &[
            JOURNEY,
            b"ride\tT3\t2025-06-02\t-\t01\t2\tA\t2025-06-02 08:05:00\tC\t2025-06-02 09:00:00\n",
            LEG,
        ],
        None,
    ),
    // Another price, number of rides, arrival and currency.
    (
        2,
        &[b"journey\t2025-06-02 09:00:00\t1\t2.51\tEUR\n", RIDE, LEG],
        None,
    ),
    (
        2,
        &[b"journey\t2025-06-02 09:00:00\t2\t2.50\tEUR\n", RIDE, LEG],
        None,
    ),
    (
        2,
        &[b"journey\t2025-06-02 09:00:01\t1\t2.50\tEUR\n", RIDE, LEG],
        None,
    ),
    (
        2,
        &[b"journey\t2025-06-02 09:00:00\t1\t2.50\tUSD\n", RIDE, LEG],
        None,
    ),
    // The text ends early, and within a line.
    (2, &[JOURNEY], None),
    (2, &[JOURNEY, RIDE, b"leg\t1\tbu"], None),
];

// How many entries of the query the text tells; none where it is no text of entries.
fn told(
    timetable: &Timetable,
    alloc: Global,
    query: &Query,
    parts: &[&[u8]],
) -> Result<Option<usize>, AllocError>
    requires { IsNearQuery query.now }
{
    let mut text = Vec::new(alloc);
    for part in parts {
        text.extend_from_slice(part)?;
    }
    match entries_of(alloc, timetable, query, text.as_slice())? {
        Some(entries) => Ok(Some(entries.items().len())),
        None => Ok(None),
    }
}

// Whether each text tells as many entries as it should.
fn are_told(timetable: &Timetable, alloc: Global) -> bool {
    for (stop, parts, wanted) in &TEXTS {
        if told(timetable, alloc, &query_to(*stop), parts) != Ok(*wanted) {
            return false;
        }
    }
    true
}

// The same over a feed.
fn are_told_over(alloc: Global, feed: &Feed) -> bool {
    match Timetable::build(alloc, feed) {
        Ok(timetable) => are_told(&timetable, alloc),
        Err(AllocError) => false,
    }
}

// The same over the feed.
fn are_texts_of_entries(alloc: Global) -> bool {
    match feed_of(alloc, &FILES, AT_ONCE) {
        Ok(feed) => are_told_over(alloc, &feed),
        Err(AllocError) => false,
    }
}

#[test]
fn texts_of_entries(rt: HostRuntime) {
    assert!(rt; are_texts_of_entries(rt.alloc()));
}
