//! The trips by their ids.
ghost use Rattle.std.specs.Prelude.{◌≡◌};
ghost use Rattle.feed_rows.specs.RowsById.{find_trip, has_trip_id};

use feed_rows::Feed;
use transit_base::TripId;

// Whether the trip of the row has this id.
#[tactic(auto, unfolding(feed_rows::specs::RowsById::has_trip_id))]
fn has_id(feed: &Feed, row: usize, id: &[u8]) -> bool
    ensures { result ≡ has_trip_id feed.now id.now row }
{
    match feed.trips.items().get(row) {
        Some(trip) => trip.id.bytes() == id,
        None => false,
    }
}

/// The first trip with this id; none where no trip has it. The trips are looked through: a command asks for few ids,
/// and to put them all in order takes longer.
#[tactic(auto, using(plain_laws::proofs::Laws::found_firsts))]
pub fn trip_with(feed: &Feed, id: &[u8]) -> Option<TripId>
    ensures { result ≡ find_trip feed.now id.now }
{
    for row in 0..feed.trips.items().len() {
        if has_id(feed, row, id) {
            return Some(TripId(row as u32));
        }
    }
    None
}
