//! The stops of a feed: by id, and the platforms that each stands for.
#![tactic(auto)]

ghost use Rattle.std.specs.Prelude.{◌≡◌, IfOk};
ghost use Rattle.feed_rows.specs.FeedRows.{FeedRows};
ghost use Rattle.feed_rows.specs.RowsById.{find_stop, has_stop_id};
ghost use Rattle.feed_rows.specs.StopLinks.{stop_set};
ghost use Rattle.feed_rows.specs.StopSets.{stop_sets};
ghost use Rattle.feed_stops.specs.BuiltStops.{AreStopsOf};

mod sets;

use feed_rows::Feed;
use item_groups::Groups;
pub use sets::stop_sets;
use std::alloc::{AllocError, Global};
use transit_base::StopId;

/// The stops of a feed, by id, and the platforms that each stands for.
///
/// What the calls answer is about the feed that the value was built from.
pub struct Stops<'f> {
    feed: &'f Feed,
    /// The platforms that each stop stands for.
    sets: Groups<StopId>,
}

// Written out, so that what holds one needn't look into it to let go of it.
impl<'f> Drop for Stops<'f> {
    fn drop(self) {
        let Stops { feed: _, sets: _ } = self;
    }
}

impl<'f> Stops<'f> {
    /// The stops of the feed.
    ///
    /// # Errors
    /// Want of memory.
    pub fn build(alloc: Global, feed: &'f Feed) -> Result<Stops<'f>, AllocError>
        ensures { IfOk result (λ stops. AreStopsOf feed.now stops) }
    {
        let sets = stop_sets(alloc, feed)?;
        Ok(Stops { feed, sets })
    }

    /// The stop with this id; none where no stop has it. The stops are looked through: a command asks for few ids, and
    /// to put them all in order takes longer.
    pub fn find(&self, id: &[u8]) -> Option<StopId>
        ensures { (feed : FeedRows) → AreStopsOf feed self.now → result ≡ find_stop feed id.now }
    {
        stop_with(self.feed, id)
    }

    /// The platforms that the stop stands for: a platform for itself, a station for its platforms in file order. There
    /// are none for a place of another kind, nor for a number that is no stop's.
    pub fn members(&self, stop: StopId) -> &[StopId]
        ensures { (feed : FeedRows) → AreStopsOf feed self.now → result.now ≡ stop_set feed stop }
    {
        self.sets.get(stop.0 as usize)
    }

    /// The platforms that each stop stands for, one group a stop.
    pub fn sets(&self) -> &Groups<StopId>
        ensures { (feed : FeedRows) → AreStopsOf feed self.now → result.now ≡ stop_sets feed }
    {
        &self.sets
    }
}

/// Whether the stop of the row has this id.
#[tactic(auto, unfolding(feed_rows::specs::RowsById::has_stop_id))]
fn has_id(feed: &Feed, row: usize, id: &[u8]) -> bool
    ensures { result ≡ has_stop_id feed.now id.now row }
{
    match feed.stops.items().get(row) {
        Some(stop) => stop.id.bytes() == id,
        None => false,
    }
}

/// The first stop with this id; none where no stop has it.
#[tactic(auto, using(plain_laws::proofs::Laws::found_firsts))]
fn stop_with(feed: &Feed, id: &[u8]) -> Option<StopId>
    ensures { result ≡ find_stop feed.now id.now }
{
    for row in 0..feed.stops.items().len() {
        if has_id(feed, row, id) {
            return Some(StopId(row as u32));
        }
    }
    None
}
