//! What was found of rides.
ghost use Rattle.std.specs.Prelude.{◌≡◌, ◌⊎◌, true, IfOk, IfSome};
ghost use Rattle.feed_rows.specs.declared.journeys.RideFacts.{RideFacts};
ghost use Rattle.ride_cache.specs.Kept.{HoldsFor};

use crate::cache::Cache;
use feed_rows::RideFacts;
use std::alloc::{AllocError, Global};
use std::marker::Model;
use transit_base::{Moment, NetworkId};

/// A ride and what was found of it.
#[derive(Clone, Copy)]
pub struct KeptRide<T> {
    pub(crate) ride: RideFacts,
    pub(crate) value: T,
}

/// What was found of rides, kept until others take the places. Contracts see what stands at each place.
pub struct RideCache<T> {
    cache: Cache<KeptRide<T>>,
}

// Written out, so that what holds one needn't look into it to let go of it.
impl<T: Drop> Drop for RideCache<T> {
    fn drop(self) {
        let RideCache { cache: _ } = self;
    }
}

impl<T> Model for RideCache<T> {
    ghost use Rattle.std.specs.Prelude.{List, Option};
    ghost use Rattle.ride_cache.specs.declared.rides.KeptRide.{KeptRide};

    ghost Value = { List (Option (KeptRide T)) };

    ghost view = { λ s. s.cache };
}

impl<T: Copy + Drop> RideCache<T> {
    /// So many places, of which none is taken.
    ///
    /// # Errors
    /// Want of memory.
    pub fn of(alloc: Global, count: usize) -> Result<RideCache<T>, AllocError>
        ensures { IfOk result (λ cache. (ride : RideFacts) (value : T) → HoldsFor cache ride value → ⊥) }
    {
        Ok(RideCache {
            cache: Cache::of(alloc, count)?,
        })
    }

    /// What was found of the ride, where it is kept.
    pub fn get(&self, ride: &RideFacts) -> Option<T>
        ensures { IfSome result (HoldsFor self.now ride.now) }
    {
        match self.cache.get(number_of(ride)) {
            Some(kept) if is_same_ride(&kept.ride, ride) => Some(kept.value),
            _ => None,
        }
    }

    /// Keeps what was found of the ride.
    pub fn put(&mut self, ride: &RideFacts, value: T)
        ensures { (other : RideFacts) (kept : T) → HoldsFor self.new other kept → HoldsFor self.old other kept ⊎ ((ride.now ≡ other) × (value ≡ kept)) }
    {
        self.cache
            .put(number_of(ride), KeptRide { ride: *ride, value });
    }
}

/// A number for the ride. Others may have the same.
fn number_of(ride: &RideFacts) -> u32 {
    let network = match ride.network {
        Some(network) => network.0,
        None => u32::MAX,
    };
    let ends = mixed(ride.from.0, ride.to.0);
    let times = mixed(second_of(ride.departure), second_of(ride.arrival));
    mixed(mixed(ends, times), network)
}

/// A number made of both, whose upper part depends on all of them.
pub fn mixed(a: u32, b: u32) -> u32 {
    a.wrapping_mul(0x9e37_79b1)
        .wrapping_add(b)
        .wrapping_mul(0x85eb_ca6b)
}

/// A moment, as a small number.
pub fn second_of(moment: Moment) -> u32 {
    (moment.0.unsigned_abs() % (1 << 32)) as u32
}

/// Whether each part of the rides is the same.
fn is_same_ride(a: &RideFacts, b: &RideFacts) -> bool
    ensures { result ≡ true → a.now ≡ b.now }
{
    a.departure.0 == b.departure.0
        && a.to.0 == b.to.0
        && a.from.0 == b.from.0
        && a.arrival.0 == b.arrival.0
        && is_same_network(a.network, b.network)
}

/// Whether both networks are there and equal, or neither is there.
pub fn is_same_network(a: Option<NetworkId>, b: Option<NetworkId>) -> bool
    ensures { result ≡ true → a ≡ b }
{
    match (a, b) {
        (Some(one), Some(other)) => one.0 == other.0,
        (None, None) => true,
        _ => false,
    }
}
