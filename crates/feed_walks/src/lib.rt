//! The walks between the platforms of a feed, in three steps: the rows of `transfers.txt` by their two stops (`rules`), the
//! platforms near each platform (`near`), and of these the ones that there is a walk to (`steps`).
#![tactic(auto)]

ghost use Rattle.std.specs.Prelude.{◌≡◌, IfOk, option_map};
ghost use Rattle.feed_rows.specs.FeedRows.{FeedRows};
ghost use Rattle.feed_rows.specs.StopLinks.{link};
ghost use Rattle.feed_rows.specs.StopSets.{stop_sets};
ghost use Rattle.feed_walks.specs.OutOf.{out_of};
ghost use Rattle.feed_walks.specs.BuiltWalks.{AreWalksOf};

mod near;
mod rules;
mod steps;

use feed_rows::Feed;
use feed_stops::stop_sets;
use item_groups::Groups;
use near::reached_of;
use rules::rules_of;
use std::alloc::{AllocError, Global};
pub use steps::Step;
use steps::{seconds_to, steps_of};
use transit_base::{Secs, StopId};

/// The walks between the platforms of a feed.
///
/// What the calls answer is about the feed that the value was built from.
pub struct Walks {
    /// The walks out of each stop, by the stop that they lead to.
    steps: Groups<Step>,
}

// Written out, so that what holds one needn't look into it to let go of it.
impl Drop for Walks {
    fn drop(self) {
        let Walks { steps: _ } = self;
    }
}

impl Walks {
    /// The walks of the feed.
    ///
    /// Each platform is tried with those that it or its station leads to, by a row that allows the change or, within
    /// itself, by none. So the time grows with the rows, the stops and the walks, and besides with the pairs that stations
    /// lead to and a closer row forbids.
    ///
    /// # Errors
    /// Want of memory.
    pub fn build(alloc: Global, feed: &Feed) -> Result<Walks, AllocError>
        ensures { IfOk result (λ walks. AreWalksOf feed.now walks) }
    {
        let sets = stop_sets(alloc, feed)?;
        Walks::build_with(alloc, feed, &sets)
    }

    /// The walks of the feed, where the platforms that each stop stands for are at hand.
    ///
    /// # Errors
    /// Want of memory.
    pub fn build_with(
        alloc: Global,
        feed: &Feed,
        sets: &Groups<StopId>,
    ) -> Result<Walks, AllocError>
        requires { sets.now ≡ stop_sets feed.now }
        ensures { IfOk result (λ walks. AreWalksOf feed.now walks) }
    {
        let count = feed.stops.items().len() as u32;
        let rules = rules_of(alloc, feed.links.items(), count)?;
        let reached = reached_of(alloc, feed, &rules, sets)?;
        let steps = steps_of(alloc, feed, &rules, &reached)?;
        Ok(Walks { steps })
    }

    /// The seconds of the walk from the one platform to the other or to itself; none where there is no walk. There is
    /// none from or to a stop that is no platform.
    pub fn link(&self, from: StopId, to: StopId) -> Option<Secs>
        ensures { (feed : FeedRows) → AreWalksOf feed self.now → option_map (λ (seconds : Secs). seconds.0) result ≡ link feed from to }
    {
        seconds_to(self.out_of(from), to)
    }

    /// The walks out of the platform, to itself among them where there is one, in file order of the platforms that they
    /// lead to. There are none out of a stop that is no platform.
    pub fn out_of(&self, from: StopId) -> &[Step]
        ensures { (feed : FeedRows) → AreWalksOf feed self.now → result.now ≡ out_of feed from }
    {
        self.steps.get(from.0 as usize)
    }
}
