//! What lines say of the rows of a feed.
ghost use Rattle.std.specs.Prelude.{◌≡◌, ◌<◌, length, slice_get, option_map};
ghost use Rattle.feed_rows.specs.Calls.{calls_of};
ghost use Rattle.feed_rows.specs.Rides.{ride_facts};
ghost use Rattle.feed_rows.specs.Journeys.{facts_at};
ghost use Rattle.feed_rows.specs.EntryText.{currency_text, stop_text, stop_before, product_text, medium_text};
ghost use Rattle.feed_rows.specs.FareSums.{amount_of};
ghost use Rattle.ticket_explain.specs.LineParts.{is_near};

use feed_rows::{
    Call, Feed, Journey, LEAST_SHIFT, MOST_SHIFT, ProductRow, Ride, RideFacts, RideList,
};
use feed_timetable::Timetable;
use plain_laws::ItemList;
use transit_base::{Money, ProductRowId, StopId, TripId, XferId};

/// The item at a place; none past the end.
pub fn item_at<T: Drop>(list: &ItemList<T>, place: usize) -> Option<&T>
    ensures { option_map (λ item. item.now) result ≡ slice_get list.now place }
{
    list.items().get(place)
}

/// The code of the feed's currency; empty where no product has a row.
pub fn currency(feed: &Feed) -> &[u8]
    ensures { result.now ≡ currency_text feed.now }
{
    match &feed.currency {
        Some(code) => code,
        None => &[],
    }
}

/// The id of a stop; none where the feed lacks it.
pub fn stop_id(feed: &Feed, stop: StopId) -> Option<&[u8]>
    ensures { option_map (λ id. id.now) result ≡ stop_text feed.now stop }
{
    let row = item_at(&feed.stops, stop.0 as usize)?;
    Some(row.id.bytes())
}

/// The name of a product row's product; none where the feed lacks it.
pub fn product_name<'f>(feed: &'f Feed, row: &ProductRow) -> Option<&'f [u8]>
    ensures { option_map (λ name. name.now) result ≡ product_text feed.now row.now }
{
    let name = item_at(&feed.product_names, row.product.0 as usize)?;
    Some(name.bytes())
}

/// The id of a product row's medium, empty where it names none; none where the feed lacks it.
pub fn medium_id<'f>(feed: &'f Feed, row: &ProductRow) -> Option<&'f [u8]>
    ensures { option_map (λ id. id.now) result ≡ medium_text feed.now row.now }
{
    let Some(medium) = row.medium else {
        return Some(&[]);
    };
    let row = item_at(&feed.media, medium.0 as usize)?;
    Some(row.id.bytes())
}

/// The amount of a product row; 0 where the feed lacks it.
#[tactic(auto, unfolding(feed_rows::specs::FareSums::amount_of))]
pub fn amount_of(feed: &Feed, row: ProductRowId) -> Money
    ensures { result.0 ≡ amount_of feed.now row }
{
    match item_at(&feed.products, row.0 as usize) {
        Some(product) => product.amount,
        None => Money(0),
    }
}

/// The type of a transfer rule; none where the feed lacks it.
pub fn rule_kind(feed: &Feed, rule: XferId) -> Option<u8>
    ensures { result ≡ option_map (λ row. row.kind) (slice_get feed.now.transfer_rules rule.0) }
{
    let row = item_at(&feed.transfer_rules, rule.0 as usize)?;
    Some(row.kind)
}

/// The call of a trip at a position; none where there is none.
pub fn call_at(timetable: &Timetable, trip: TripId, position: u32) -> Option<Call>
    requires { trip.0 < length timetable.now.trips }
    ensures { result ≡ slice_get (calls_of timetable.now trip) position }
{
    timetable.calls_of(trip).get(position as usize)
}

// Whether the ride is of a trip of the feed, and its day and shift are small: no others are rides of a feed.
fn is_near(timetable: &Timetable, ride: &Ride) -> bool
    ensures { result ≡ is_near timetable.now ride.now }
{
    ride.trip.0 < timetable.trips()
        && -800_000 <= ride.day.0
        && ride.day.0 <= 3_000_000
        && LEAST_SHIFT <= ride.shift
        && ride.shift <= MOST_SHIFT
}

/// Where and when a ride goes. None exactly where it is no ride of the feed.
#[tactic(auto, using(crate::proofs::RideBounds::far_ride))]
pub fn facts_of(timetable: &Timetable, ride: &Ride) -> Option<RideFacts>
    ensures { result ≡ ride_facts timetable.now ride.now }
{
    let _feed = timetable.feed();
    if !is_near(timetable, ride) {
        return None;
    }
    timetable.facts(ride)
}

/// Where and when the ride at a place goes; none where there is none, or it is no ride of the feed.
pub fn facts_at(timetable: &Timetable, rides: &RideList, place: usize) -> Option<RideFacts>
    ensures { result ≡ facts_at timetable.now rides.now place }
{
    facts_of(timetable, item_at(rides, place)?)
}

/// Where the traveller stands before the ride at a place.
#[tactic(auto, using(crate::proofs::PartLaws::before_ride))]
pub fn stop_before(timetable: &Timetable, journey: &Journey, place: usize) -> Option<StopId>
    ensures { result ≡ stop_before timetable.now journey.now place }
{
    if place == 0 {
        return Some(journey.first);
    }
    let before = facts_at(timetable, &journey.rides, place - 1)?;
    Some(before.to)
}
