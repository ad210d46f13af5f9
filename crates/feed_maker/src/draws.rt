//! The numbers that are drawn from a seed.
ghost use Rattle.std.specs.Prelude.{◌≡◌, ◌≤◌, ◌<◌};
ghost use Rattle.feed_maker.specs.Draws.{number_after, pace_after};

use std::marker::Model;

/// When the trips of a route depart, and how long they take.
#[derive(Clone, Copy)]
pub struct Pace {
    /// The minutes after 06:00:00 at which the first trip departs.
    pub offset: u32,
    /// The seconds from each stop to the next.
    pub hop: u32,
}

/// The numbers that are drawn from a seed, one after another. Contracts see the last one.
#[derive(Drop)]
pub struct Draws {
    last: u32,
}

impl Model for Draws {
    ghost use Rattle.std.specs.Prelude.{ℕ, ◌<◌};

    ghost Value = { ℕ };

    ghost view = { λ draws. draws.last };

    ghost invariant = { λ draws. draws.last < 65_537 };
}

impl Draws {
    /// Before the first draw the last number is the seed.
    pub fn new(seed: u32) -> Draws
        requires { seed ≤ 65_535 }
        ensures { result ≡ seed }
    {
        Draws { last: seed }
    }

    /// Draws a number.
    #[tactic(auto, unfolding(crate::specs::Draws::number_after))]
    pub fn next(&mut self) -> u32
        ensures value { result ≡ number_after self.old }
        ensures last { self.new ≡ number_after self.old }
    {
        self.last = (75 * self.last + 74) % 65_537;
        self.last
    }

    /// Draws the pace of a route.
    #[tactic(auto, unfolding(crate::specs::Draws::pace_after))]
    pub fn pace(&mut self) -> Pace
        ensures value { result ≡ pace_after self.old }
        ensures last { self.new ≡ number_after (number_after self.old) }
        ensures offset { result.offset < 10 }
        ensures hop { result.hop < 180 }
    {
        let offset = self.next() % 10;
        let hop = 60 + self.next() % 120;
        Pace { offset, hop }
    }
}
