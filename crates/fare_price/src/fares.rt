//! The fares of a feed.
ghost use Rattle.std.specs.Prelude.{◌≡◌, IfOk};
ghost use Rattle.feed_rows.specs.SoundFeed.{IsSoundFeed};

use fare_automaton::Automaton;
use feed_rows::{Feed, NO_CATEGORY};
use std::alloc::{AllocError, Global};
use std::marker::Model;

/// The fare rules of a feed, by which a choice is judged for any buyer. Contracts see it as the rows of its feed.
pub struct Fares<'f> {
    /// The automaton for a buyer without a rider category.
    pub(crate) automaton: Automaton<'f>,
}

// Written out, so that what holds one needn't look into it to let go of it.
impl<'f> Drop for Fares<'f> {
    fn drop(self) {
        let Fares { automaton: _ } = self;
    }
}

impl<'f> Model for Fares<'f> {
    ghost use Rattle.feed_rows.specs.FeedRows.{FeedRows};

    ghost Value = { FeedRows };

    ghost view = { λ s. s.automaton.feed };
}

impl<'f> Fares<'f> {
    /// The fares of the feed.
    ///
    /// # Errors
    /// Want of memory.
    pub fn build(alloc: Global, feed: &'f Feed) -> Result<Fares<'f>, AllocError>
        ensures { IfOk result (λ fares. fares ≡ feed.now) }
    {
        let automaton = Automaton::compile(alloc, feed, NO_CATEGORY)?;
        Ok(Fares { automaton })
    }

    /// The feed.
    pub fn feed(&self) -> &'f Feed
        ensures value { result.now ≡ self.now }
        ensures sound { IsSoundFeed self.now }
    {
        self.automaton.feed()
    }
}
