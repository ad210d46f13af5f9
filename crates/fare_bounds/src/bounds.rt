//! How little a journey costs that goes on.
ghost use Rattle.std.specs.Prelude.{◌≡◌, IfOk};
ghost use Rattle.fare_bounds.specs.FareBounds.{least_after, least_by, least_in, least_more, least_late, late_after, AreFareBounds};

use crate::amounts::{NEVER, at_place, place_of};
use crate::level::Level;
use crate::limits::{greatest_limits, late_by};
use crate::payable::least_amounts;
use feed_rows::{Buyer, FareState, Feed};
use std::alloc::{AllocError, Global};
use std::marker::Model;
use transit_base::{LegGroupId, Money};

/// How little further rides can cost by the fare rules of a feed for one buyer. Contracts see it as its lists: for each
/// number of further rides what they add at least, by the place of the last leg's group, and the same where the next
/// ride departs late.
pub struct FareBounds {
    levels: Vec<Level>,
    lates: Vec<Level>,
    limits: Vec<u32>,
}

// Written out, so that what holds one needn't look into it to let go of it.
impl Drop for FareBounds {
    fn drop(self) {
        let FareBounds {
            levels: _,
            lates: _,
            limits: _,
        } = self;
    }
}

impl Model for FareBounds {
    ghost use Rattle.fare_bounds.specs.FareBounds.{BoundLists};

    ghost Value = { BoundLists };

    ghost view = { λ s. record { levels = s.levels.items; lates = s.lates.items; limits = s.limits.items } };
}

impl FareBounds {
    /// The bounds for up to so many further rides. `lasts` tells by the place of a leg group, which is two more than
    /// its number and 0 for none, whether a journey's last leg may be of that group; past the end none may.
    ///
    /// # Errors
    /// Want of memory.
    pub fn of(
        alloc: Global,
        feed: &Feed,
        buyer: Buyer,
        rides: u8,
        lasts: &[bool],
    ) -> Result<FareBounds, AllocError>
        ensures { IfOk result (λ bounds. AreFareBounds feed.now buyer rides lasts.now bounds) }
    {
        let amounts = least_amounts(alloc, feed, buyer, lasts)?;
        let places = amounts.legs.len();
        let mut levels = Vec::with_capacity(alloc, usize::from(rides) + 1)?;
        let mut lates = Vec::with_capacity(alloc, usize::from(rides) + 1)?;
        levels.push(Level::filled(alloc, 0, places, NEVER)?)?;
        lates.push(Level::filled(alloc, 0, places, NEVER)?)?;
        for more in 0..rides {
            let before = &levels[usize::from(more)];
            let late = before.next(alloc, feed, &amounts, true)?;
            let next = before.next(alloc, feed, &amounts, false)?;
            lates.push(late)?;
            levels.push(next)?;
        }
        let limits = greatest_limits(alloc, feed)?;
        Ok(FareBounds {
            levels,
            lates,
            limits,
        })
    }

    /// The least price of a journey that goes on by one to so many rides, in minor units: none costs less by the fare
    /// rules. Where the bounds are for fewer rides it is less than that of any journey.
    #[inline]
    pub fn least_more(&self, more: u8, state: &Option<FareState>, paid: Money, held: Money) -> i128
        ensures { result ≡ least_more self.now more state.now paid.0 held.0 }
    {
        least_in(&self.levels, more, state, paid, held)
    }

    /// The same where the next ride departs late.
    #[inline]
    pub fn least_late(&self, more: u8, state: &Option<FareState>, paid: Money, held: Money) -> i128
        ensures { result ≡ least_late self.now more state.now paid.0 held.0 }
    {
        least_in(&self.lates, more, state, paid, held)
    }

    /// The seconds of the moment past which rides that depart are late after the state, since no limit of a transfer
    /// rule can hold for a change to them; none where each ride is late.
    #[inline]
    pub fn late_after(&self, state: &Option<FareState>) -> Option<i128>
        ensures { result ≡ late_after self.now state.now }
    {
        match state {
            Some(own) => late_by(&self.limits, own),
            None => None,
        }
    }
}

/// The least price by the level for so many rides.
#[inline]
fn least_in(levels: &[Level], more: u8, state: &Option<FareState>, paid: Money, held: Money) -> i128
    ensures { result ≡ least_in levels.now more state.now paid.0 held.0 }
{
    match levels.get(usize::from(more)) {
        Some(level) => level.least_by(state, paid, held),
        None => i128::MIN,
    }
}

impl Level {
    /// The least price of a journey that goes on by one to the level's number of rides.
    #[inline]
    fn least_by(&self, state: &Option<FareState>, paid: Money, held: Money) -> i128
        ensures { result ≡ least_by self.now state.now paid.0 held.0 }
    {
        match state {
            Some(own) => self.least_after(own.group, paid, held),
            None => i128::from(paid.0) + i128::from(at_place(&self.with_held, 0)),
        }
    }

    /// The same after a leg of the group.
    #[inline]
    fn least_after(&self, group: Option<LegGroupId>, paid: Money, held: Money) -> i128
        ensures { result ≡ least_after self.now group paid.0 held.0 }
    {
        let place = place_of(group);
        let paid = i128::from(paid.0);
        let with_held = paid + i128::from(held.0) + i128::from(at_place(&self.with_held, place));
        let without_held = paid + i128::from(at_place(&self.without_held, place));
        with_held.min(without_held)
    }
}
