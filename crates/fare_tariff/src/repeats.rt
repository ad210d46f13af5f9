//! Which rides from a position a search that may pass over any journey needn't try again.
use plan_rides::CaughtRide;
use std::alloc::{AllocError, Global};
use transit_base::Moment;

/// When a ride departs, and the number of its leg's kind.
#[derive(Clone, Copy)]
struct LastRide {
    kind: usize,
    departure: Moment,
}

/// By ride from a position when the last one before it departs that alights at the same call and is a leg of the same kind.
pub struct Repeats {
    befores: Vec<Option<Moment>>,
    /// By call the last ride that alights there, kept for its memory.
    lasts: Vec<Option<LastRide>>,
}

// Written out, so that what holds one needn't look into it to let go of it.
impl Drop for Repeats {
    fn drop(self) {
        let Repeats {
            befores: _,
            lasts: _,
        } = self;
    }
}

impl Repeats {
    /// Of no rides.
    pub fn none(alloc: Global) -> Repeats {
        Repeats {
            befores: Vec::new(alloc),
            lasts: Vec::new(alloc),
        }
    }

    /// Replaces what it tells by what these rides tell, in the order of their departures, whose legs' kinds have these numbers.
    ///
    /// # Errors
    /// Want of memory.
    pub fn find(&mut self, rides: &[CaughtRide], kinds: &[usize]) -> Result<(), AllocError> {
        self.befores.clear();
        self.lasts.clear();
        for k in 0..rides.len() {
            if let Some(kind) = kinds.get(k) {
                let ride = LastRide {
                    kind: *kind,
                    departure: rides[k].facts.departure,
                };
                self.push(rides[k].ride.to as usize, ride)?;
            }
        }
        Ok(())
    }

    // Adds the next ride, which alights at this call.
    fn push(&mut self, to: usize, ride: LastRide) -> Result<(), AllocError> {
        for _call in self.lasts.len()..=to {
            self.lasts.push(None)?;
        }
        let before = match self.lasts.get(to) {
            Some(Some(last)) if last.kind == ride.kind => Some(last.departure),
            _ => None,
        };
        if to < self.lasts.len() {
            self.lasts[to] = Some(ride);
        }
        self.befores.push(before)?;
        Ok(())
    }

    /// Whether some ride like the one at this place departs before it, since the moment.
    pub fn has(&self, place: usize, since: Moment) -> bool {
        match self.befores.get(place) {
            Some(Some(before)) => since.0 <= before.0,
            _ => false,
        }
    }
}
