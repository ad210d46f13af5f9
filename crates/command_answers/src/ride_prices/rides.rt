//! The ride that a word names.
ghost use Rattle.std.specs.Prelude.{◌≡◌, ◌<◌, ◌≤◌, ◌≤ℤ◌, length, pos, negsuc, IfSome, option_map, Some};
ghost use Rattle.feed_rows.specs.Limits.{least_shift, most_shift};
ghost use Rattle.commands.specs.PriceQueries.{named_shift, named_ride};
ghost use Rattle.feed_rows.specs.RowsById.{find_trip};
ghost use Rattle.feed_rows.specs.Rides.{is_ride, ride_facts};
ghost use Rattle.plain_laws.specs.Plain.{when};
ghost use Rattle.plan_words.specs.Rides.{ride_of, IsUsualRide};
ghost use Rattle.transit_base.specs.Limits.{most_time};

use feed_rows::{Ride, RideFacts};
use feed_timetable::Timetable;
use plan_words::RideWord;
use transit_base::TripId;

/// A ride that a word names, and where and when it goes.
#[derive(Clone, Copy)]
pub struct NamedRide {
    pub ride: Ride,
    pub facts: RideFacts,
}

// The trip with this id.
#[tactic(auto, using(feed_laws::proofs::RowIdLaws::trip_within))]
fn find_trip(timetable: &Timetable, id: &[u8]) -> Option<TripId>
    ensures value { result ≡ find_trip timetable.now id.now }
    ensures within { IfSome result (λ trip. trip.0 < length timetable.now.trips) }
{
    timetable.find_trip(id)
}

// The shift of the run that a word names: 0 where it says no start, which is right for a trip without frequency rows
// alone.
fn named_shift(timetable: &Timetable, trip: TripId, start: Option<u32>) -> Option<i64>
    requires trip { trip.0 < length timetable.now.trips }
    requires start { IfSome start (λ s. s ≤ most_time) }
    ensures value { result ≡ named_shift timetable.now trip start }
    ensures low { IfSome result (λ s. least_shift ≤ℤ s) }
    ensures high { IfSome result (λ s. s ≤ℤ most_shift) }
{
    match (start, timetable.has_frequencies(trip)) {
        (None, false) => Some(0),
        (Some(start), true) => {
            Some(i64::from(start) - i64::from(timetable.first_departure(trip)))
        }
        (None, true) | (Some(_), false) => None,
    }
}

// The ride, with where and when it goes. None exactly where it is no ride of the feed.
#[tactic(auto, using(crate::proofs::RideLaws::ride_known, crate::proofs::RideLaws::ride_unknown))]
fn known_ride(timetable: &Timetable, ride: Ride) -> Option<NamedRide>
    requires trip { ride.trip.0 < length timetable.now.trips }
    requires day_low { negsuc 799_999 ≤ℤ ride.day.0 }
    requires day_high { ride.day.0 ≤ℤ pos 3_000_000 }
    requires shift_low { least_shift ≤ℤ ride.shift }
    requires shift_high { ride.shift ≤ℤ most_shift }
    ensures value { option_map (λ named. named.ride) result ≡ when (is_ride timetable.now ride) ride }
    ensures facts { IfSome result (λ named. ride_facts timetable.now named.ride ≡ Some named.facts) }
{
    match timetable.facts(&ride) {
        Some(facts) => Some(NamedRide { ride, facts }),
        None => None,
    }
}

/// The ride that a word names. None exactly where it names no ride of the feed.
#[tactic(auto, unfolding(commands::specs::PriceQueries::named_ride))]
pub fn named_ride(timetable: &Timetable, word: &RideWord) -> Option<NamedRide>
    requires { IsUsualRide word.now }
    ensures value { option_map (λ named. named.ride) result ≡ named_ride timetable.now (ride_of word.now) }
    ensures facts { IfSome result (λ named. ride_facts timetable.now named.ride ≡ Some named.facts) }
{
    let trip = find_trip(timetable, word.trip)?;
    let shift = named_shift(timetable, trip, word.start)?;
    let from = timetable.call_position(trip, word.from)?;
    let to = timetable.call_position(trip, word.to)?;
    let ride = Ride {
        trip,
        day: word.day,
        shift,
        from,
        to,
    };
    known_ride(timetable, ride)
}
