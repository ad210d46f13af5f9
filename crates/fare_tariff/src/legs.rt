//! What is known of the rides from a position: of which kinds their legs are, and of which leg groups these can be.
ghost use Rattle.std.specs.Prelude.{◌≡◌};

use crate::repeats::Repeats;
use fare_bounds::LastChanges;
use feed_rows::{ChangeChoice, Move};
use ride_kinds::LegKinds;
use std::alloc::Global;
use transit_base::LegGroupId;

/// The kinds of legs, and of the rides from a position in their order the numbers of their legs' kinds; for a quick search those that are
/// like one before; of which leg groups they can be, and until when changes to these are arranged.
pub struct FareLegs<'l> {
    pub(crate) known: LegKinds<'l, 'l>,
    pub(crate) kinds: Vec<usize>,
    pub(crate) repeats: Repeats,
    pub(crate) groups: Vec<Option<LegGroupId>>,
    pub(crate) changes: LastChanges,
}

// Written out, so that what holds one needn't look into it to let go of it.
impl<'l> Drop for FareLegs<'l> {
    fn drop(self) {
        let FareLegs {
            known: _,
            kinds: _,
            repeats: _,
            groups: _,
            changes: _,
        } = self;
    }
}

impl<'l> FareLegs<'l> {
    /// Of no rides, by what is known of legs.
    pub fn of(alloc: Global, known: LegKinds<'l, 'l>) -> FareLegs<'l>
        ensures { result.known ≡ known.entry }
    {
        FareLegs {
            known,
            kinds: Vec::new(alloc),
            repeats: Repeats::none(alloc),
            groups: Vec::new(alloc),
            changes: LastChanges::none(alloc),
        }
    }
}

/// What finding moves needs for its memory: places of changes, and the moves of which some are as good as others.
pub struct FareRoom {
    pub(crate) places: Vec<Option<ChangeChoice>>,
    pub(crate) moves: Vec<Move>,
}

// Written out, so that what holds one needn't look into it to let go of it.
impl Drop for FareRoom {
    fn drop(self) {
        let FareRoom {
            places: _,
            moves: _,
        } = self;
    }
}

impl FareRoom {
    /// Nothing yet.
    pub fn none(alloc: Global) -> FareRoom {
        FareRoom {
            places: Vec::new(alloc),
            moves: Vec::new(alloc),
        }
    }
}
