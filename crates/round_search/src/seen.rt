//! What a search that may pass over any journey has come to, so that it looks at few.
use std::alloc::{AllocError, Global};
use transit_base::{Moment, Money, StopId};

/// An arrival at a stop, and the price until there.
#[derive(Clone, Copy)]
struct SeenEnd {
    at: Moment,
    price: Money,
}

/// The arrivals at each stop of which none is as early and as cheap as another, whatever the state of fares.
pub struct Seen {
    by_stop: Vec<Vec<SeenEnd>>,
}

// Written out, so that what holds one needn't look into it to let go of it.
impl Drop for Seen {
    fn drop(self) {
        let Seen { by_stop: _ } = self;
    }
}

impl Seen {
    /// None yet, at so many stops.
    ///
    /// # Errors
    /// Want of memory.
    pub fn none(alloc: Global, stops: usize) -> Result<Seen, AllocError> {
        let mut by_stop = Vec::with_capacity(alloc, stops)?;
        for _stop in 0..stops {
            by_stop.push(Vec::new(alloc))?;
        }
        Ok(Seen { by_stop })
    }

    /// Whether no arrival at the stop so far is as early and as cheap, or the stop is past the last. Then it is one from now on.
    ///
    /// # Errors
    /// Want of memory.
    pub fn admits(&mut self, stop: StopId, at: Moment, price: Money) -> Result<bool, AllocError> {
        let stop = stop.0 as usize;
        if stop >= self.by_stop.len() {
            return Ok(true);
        }
        let seen = &mut self.by_stop[stop];
        if seen
            .iter()
            .any(|one| one.at.0 <= at.0 && one.price.0 <= price.0)
        {
            return Ok(false);
        }
        seen.retain(|one| one.at.0 < at.0 || one.price.0 < price.0);
        seen.push(SeenEnd { at, price })?;
        Ok(true)
    }
}
