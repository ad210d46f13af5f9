//! What a search keeps for its memory.
ghost use Rattle.std.specs.Prelude.{◌≡◌};

use crate::bags::StopBags;
use crate::kept::Kept;
use crate::scan::Marks;
use crate::seen::Seen;
use round_terms::Classed;
use std::alloc::Global;
use transit_base::Moment;

/// Where a round stores what it leads to: the labels in bags, and the arrivals that a search has seen which may pass over any journey.
#[derive(Drop)]
pub struct Store<F: Classed, M: Copy> {
    pub(crate) bags: StopBags<F, M>,
    pub(crate) seen: Seen,
}

/// The moves that pay a ride, with room for finding them.
#[derive(Drop)]
pub struct Tries<M: Copy, R: Drop> {
    pub(crate) moves: Vec<M>,
    pub(crate) room: R,
}

/// What searches by a tariff keep for its memory from round to round, and from one search to the next: what the labels reach, the rides
/// from the position that was looked at last, and the moves that pay a ride.
#[derive(Drop)]
pub struct Room<M: Copy, L: Drop, R: Drop> {
    pub(crate) marks: Marks,
    pub(crate) kept: Kept<L>,
    pub(crate) tries: Tries<M, R>,
}

impl<M: Copy, L: Drop, R: Drop> Room<M, L, R> {
    /// Room for searches by a tariff, which needs this room for moves, and by which this is known of rides.
    pub fn of(alloc: Global, legs: L, room: R) -> Self
        ensures { result.kept.legs ≡ legs }
    {
        Room {
            marks: Marks {
                reached: Vec::new(alloc),
                untils: Vec::new(alloc),
                last: Moment(0),
            },
            kept: Kept::none(alloc, legs),
            tries: Tries {
                moves: Vec::new(alloc),
                room,
            },
        }
    }
}
