//! Items at places that are computed from them.
ghost use Rattle.std.specs.Prelude.{◌≡◌, ◌⊎◌, Contains, Some, IfOk, IfSome};
ghost use Rattle.ride_cache.specs.Kept.{Holds};

use std::alloc::{AllocError, Global};
use std::marker::Model;

/// Items, each at a place that a number of its own gives. What comes to a place takes it from what stood there. Contracts see what
/// stands at each place.
pub struct Cache<T> {
    places: Vec<Option<T>>,
}

// Written out, so that what holds one needn't look into it to let go of it.
impl<T: Drop> Drop for Cache<T> {
    fn drop(self) {
        let Cache { places: _ } = self;
    }
}

impl<T> Model for Cache<T> {
    ghost use Rattle.std.specs.Prelude.{List, Option};

    ghost Value = { List (Option T) };

    ghost view = { λ s. s.places.items };
}

impl<T: Copy + Drop> Cache<T> {
    /// So many places, of which none has an item.
    ///
    /// # Errors
    /// Want of memory.
    pub fn of(alloc: Global, count: usize) -> Result<Cache<T>, AllocError>
        ensures { IfOk result (λ cache. (item : T) → Holds cache item → ⊥) }
    {
        Ok(Cache {
            places: unfilled(alloc, count)?,
        })
    }

    /// The item at the place that the number gives, if there is one.
    pub fn get(&self, number: u32) -> Option<T>
        ensures { IfSome result (Holds self.now) }
    {
        match self.places.get(self.place(number)) {
            Some(item) => *item,
            None => None,
        }
    }

    /// Puts the item at the place that the number gives.
    pub fn put(&mut self, number: u32, item: T)
        ensures { (kept : T) → Holds self.new kept → Holds self.old kept ⊎ (item ≡ kept) }
    {
        let place = self.place(number);
        if place < self.places.len() {
            self.places[place] = Some(item);
        }
    }

    /// The place that the number gives: the numbers are spread evenly over the places.
    fn place(&self, number: u32) -> usize {
        (u64::from(number).wrapping_mul(self.places.len() as u64) >> 32) as usize
    }
}

/// So many places, of which none has an item.
///
/// # Errors
/// Want of memory.
pub fn unfilled<T: Copy + Drop>(alloc: Global, count: usize) -> Result<Vec<Option<T>>, AllocError>
    ensures { IfOk result (λ places. (item : T) → Contains places.items (Some item) → ⊥) }
{
    let mut places = Vec::with_capacity(alloc, count)?;
    for _ in 0..count {
        places.push(None)?;
    }
    Ok(places)
}
