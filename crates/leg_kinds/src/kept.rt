//! A list that is kept for the legs of a kind.
ghost use Rattle.std.specs.Prelude.{◌≡◌, IfOk};
ghost use Rattle.leg_kinds.specs.Kinds.{network_place, timeless, kept_leg, facts_cmp, areas_cmp, frames_cmp};

use feed_rows::LegFacts;
use std::alloc::{AllocError, Global};
use std::cmp::Ordering;
use transit_base::{AreaId, FrameId, NetworkId};

/// What decides which rules a leg selects, and the list that is kept for it.
pub struct KeptList<T> {
    network: Option<NetworkId>,
    from_areas: Vec<AreaId>,
    to_areas: Vec<AreaId>,
    from_frames: Vec<FrameId>,
    to_frames: Vec<FrameId>,
    pub items: Vec<T>,
}

// Written out, so that what holds one needn't look into it to let go of it.
impl<T: Drop> Drop for KeptList<T> {
    fn drop(self) {
        let KeptList {
            network: _,
            from_areas: _,
            to_areas: _,
            from_frames: _,
            to_frames: _,
            items: _,
        } = self;
    }
}

impl<T: Drop> KeptList<T> {
    /// The list, with what decides it of the leg.
    ///
    /// # Errors
    /// Want of memory.
    pub fn of(alloc: Global, leg: &LegFacts, items: Vec<T>) -> Result<KeptList<T>, AllocError>
        ensures leg { IfOk result (λ kept. kept_leg kept ≡ timeless leg.now) }
        ensures items { IfOk result (λ kept. kept.items.items ≡ items.items) }
    {
        Ok(KeptList {
            network: leg.network,
            from_areas: Vec::from_slice(alloc, leg.from_areas.items())?,
            to_areas: Vec::from_slice(alloc, leg.to_areas.items())?,
            from_frames: Vec::from_slice(alloc, leg.from_frames.items())?,
            to_frames: Vec::from_slice(alloc, leg.to_frames.items())?,
            items,
        })
    }

    /// How the leg for which the list is kept stands to another: they are equal where they differ in their moments at most.
    pub fn order(&self, leg: &LegFacts) -> Ordering
        ensures { result ≡ facts_cmp (kept_leg self.now) leg.now }
    {
        match network_place(self.network).cmp(&network_place(leg.network)) {
            Ordering::Equal => self.areas_order(leg),
            other => other,
        }
    }

    /// The same by their areas, and then by their timeframe groups.
    fn areas_order(&self, leg: &LegFacts) -> Ordering
        ensures { result ≡ areas_cmp (kept_leg self.now) leg.now }
    {
        match self.from_areas.as_slice().cmp(leg.from_areas.items()) {
            Ordering::Equal => match self.to_areas.as_slice().cmp(leg.to_areas.items()) {
                Ordering::Equal => self.frames_order(leg),
                other => other,
            },
            other => other,
        }
    }

    /// The same by their timeframe groups.
    fn frames_order(&self, leg: &LegFacts) -> Ordering
        ensures { result ≡ frames_cmp (kept_leg self.now) leg.now }
    {
        match self.from_frames.as_slice().cmp(leg.from_frames.items()) {
            Ordering::Equal => self.to_frames.as_slice().cmp(leg.to_frames.items()),
            other => other,
        }
    }
}

/// Where a network stands in an order of networks, in which none is first.
fn network_place(network: Option<NetworkId>) -> u64
    ensures { result ≡ network_place network }
{
    match network {
        Some(named) => u64::from(named.0) + 1,
        None => 0,
    }
}
