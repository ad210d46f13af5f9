// A folder that is loaded, whose files come in short pieces.
use crate::feeds::{AT_ONCE, feed_of};
use feed_files::FileName;
use feed_rows::Feed;
use std::alloc::{AllocError, Global};

// In the stop times a byte order mark, blanks, quotes with a line end in them, both line ends, characters of two, three and
// four bytes, a stop time without times and one without a second one.
const FILES: [(FileName, &[u8]); 7] = [
    (FileName::Stops, b"stop_id\nA\nB\nC\n"),
    (FileName::Routes, b"route_id,route_type\nR,3\n"),
    (
        FileName::Trips,
        b"route_id,service_id,trip_id\nR,W,T\nR,W,U\n",
    ),
    (
        FileName::StopTimes,
        b"\xef\xbb\xbftrip_id,arrival_time,departure_time,stop_id,stop_sequence,stop_headsign\r\n\
        T,08:00:00,08:00:00, A ,1,\"\xc3\xa9\"\"\n\xe2\x82\xac\"\r\nT,,,B,2,\xf0\x9f\x9a\x8b\n\nT,08:10:00,,C,3,\n\
        U,09:00:00,09:00:00,C,1,\nU,09:30:00,\"09:30:00\",A,2,",
    ),
    (
        FileName::CalendarDates,
        b"service_id,date,exception_type\nW,20250602,1\n",
    ),
    (
        FileName::FareProducts,
        b"fare_product_id,amount,currency\nP,2.50,EUR\n",
    ),
    (FileName::FareLegRules, b"fare_product_id\nP\n"),
];

// The trip, stop, sequence and times of each row of stop_times.txt.
const ROWS: [(u32, u32, u32, Option<u32>, Option<u32>); 5] = [
    (0, 0, 1, Some(28_800), Some(28_800)),
    (0, 1, 2, None, None),
    (0, 2, 3, Some(29_400), None),
    (1, 2, 1, Some(32_400), Some(32_400)),
    (1, 0, 2, Some(34_200), Some(34_200)),
];

// Whether the feed has these rows.
fn has_rows(feed: &Feed) -> bool {
    let found = feed.stop_times.items();
    for (row, (trip, stop, sequence, arrival, departure)) in found.iter().zip(&ROWS) {
        if row.trip.0 != *trip
            || row.stop.0 != *stop
            || row.sequence != *sequence
            || row.arrival.seconds() != *arrival
            || row.departure.seconds() != *departure
        {
            return false;
        }
    }
    found.len() == ROWS.len()
}

// Whether a folder whose reads give at most so many bytes each comes to these rows.
fn is_read_by(alloc: Global, most: usize) -> bool {
    match feed_of(alloc, &FILES, most) {
        Ok(feed) => has_rows(&feed),
        Err(AllocError) => false,
    }
}

#[test]
fn stop_times_in_pieces(rt: HostRuntime) {
    for most in &[1, 2, 3, 7, AT_ONCE] {
        assert!(rt; is_read_by(rt.alloc(), *most));
    }
}
