//! What an audit has found so far.
ghost use Rattle.std.specs.Prelude.{◌≡◌, ◌<◌, ◌⊎◌, true, [], length, Contains, IfOk, OnOk};
ghost use Rattle.feed_rows.specs.declared.journeys.Pair.{Pair};
ghost use Rattle.fare_audit.specs.declared.found.Walk.{Walk};
ghost use Rattle.fare_audit.specs.Found.{AuditOf, AreNoted, HasWalk, IsFound, IsWalk, GrowsTo};

use crate::ends::{End, are_same_ends};
use crate::pairs::{PAIRS, has_pair, pair_number, put_in_order};
use feed_rows::Pair;
use ride_cache::{Cache, RideCache, is_same_network, mixed, second_of};
use std::alloc::{AllocError, Global};
use transit_base::NetworkId;

/// On how many rides a verdict is kept at most.
const VERDICTS: usize = 65_536;

/// How many runs are kept at most, so that others that are seen the same needn't be looked at.
const WALKS: usize = 256;

/// The calls of a run, as fare rules see them, and its network.
#[derive(Drop)]
pub struct Walk {
    pub network: Option<NetworkId>,
    pub ends: Vec<End>,
}

/// Which leg rules are selected, and which pairs of stops have a ride without an option.
pub struct Found {
    /// Whether a ride selects each leg rule.
    pub used: Vec<bool>,
    /// Pairs of rides without an option; one may stand several times.
    pub gaps: Vec<Pair>,
    /// Whether rides that were judged lately have an option.
    pub verdicts: RideCache<bool>,
    /// Pairs that were noted lately.
    pub noted: Cache<Pair>,
    /// How many gaps there may be until those that stand several times are taken out.
    pub most: usize,
    /// Runs whose rides were looked at lately, each at its place: those of another that is seen the same needn't be.
    pub walks: Vec<Walk>,
}

// Written out, so that what holds one needn't look into it to let go of it.
impl Drop for Found {
    fn drop(self) {
        let Found {
            used: _,
            gaps: _,
            verdicts: _,
            noted: _,
            most: _,
            walks: _,
        } = self;
    }
}

impl Found {
    /// Nothing, for so many leg rules.
    ///
    /// # Errors
    /// Want of memory.
    pub fn empty(alloc: Global, rules: usize) -> Result<Found, AllocError>
        ensures { IfOk result (λ found. (audit : AuditOf) → length audit.feed.leg_rules ≡ rules → IsFound audit found) }
    {
        Ok(Found {
            used: vec![in alloc; false; rules]?,
            gaps: Vec::new(alloc),
            verdicts: RideCache::of(alloc, VERDICTS)?,
            noted: Cache::of(alloc, PAIRS)?,
            most: PAIRS,
            walks: no_walks(alloc)?,
        })
    }

    /// Whether a run with these ends and this network was looked at, and is kept.
    pub fn is_walked(&self, network: Option<NetworkId>, ends: &[End]) -> bool
        ensures { result ≡ true → HasWalk self.now network ends.now }
    {
        match self.walks.get(walk_place(ends)) {
            Some(walk) => is_walk(walk, network, ends),
            None => false,
        }
    }

    /// Keeps the ends and the network of the run whose rides were looked at.
    ///
    /// # Errors
    /// Want of memory.
    pub fn keep_walk(
        &mut self,
        alloc: Global,
        network: Option<NetworkId>,
        ends: &[End],
    ) -> Result<(), AllocError>
        ensures same { OnOk result ((self.new.used ≡ self.old.used) × (self.new.gaps ≡ self.old.gaps) × (self.new.verdicts ≡ self.old.verdicts) × (self.new.noted ≡ self.old.noted)) }
        ensures walks { OnOk result ((walk : Walk) → Contains self.new.walks.items walk → Contains self.old.walks.items walk ⊎ IsWalk walk network ends.now) }
    {
        let ends = Vec::from_slice(alloc, ends)?;
        let place = walk_place(&ends);
        if place < self.walks.len() {
            self.walks[place] = Walk { network, ends };
        }
        Ok(())
    }

    /// Notes that a ride between the stops has no option.
    ///
    /// # Errors
    /// Want of memory.
    pub fn note(&mut self, pair: Pair) -> Result<(), AllocError>
        requires { AreNoted self.old }
        ensures same { OnOk result ((self.new.used ≡ self.old.used) × (self.new.verdicts ≡ self.old.verdicts) × (self.new.walks ≡ self.old.walks)) }
        ensures noted { OnOk result (AreNoted self.new) }
        ensures here { OnOk result (Contains self.new.gaps.items pair) }
        ensures kept { OnOk result ((p : Pair) → Contains self.old.gaps.items p → Contains self.new.gaps.items p) }
        ensures tells { OnOk result ((p : Pair) → Contains self.new.gaps.items p → Contains self.old.gaps.items p ⊎ (p ≡ pair)) }
    {
        if has_pair(&self.noted, pair) {
            return Ok(());
        }
        self.drop_doubles();
        self.gaps.push(pair)?;
        self.noted.put(pair_number(pair), pair);
        Ok(())
    }

    /// Takes out gaps that stand several times, once there are many: so there are never many more gaps than pairs.
    fn drop_doubles(&mut self)
        ensures same { (self.new.used ≡ self.old.used) × (self.new.verdicts ≡ self.old.verdicts) × (self.new.noted ≡ self.old.noted) × (self.new.walks ≡ self.old.walks) }
        ensures kept { (p : Pair) → Contains self.old.gaps.items p → Contains self.new.gaps.items p }
        ensures tells { (p : Pair) → Contains self.new.gaps.items p → Contains self.old.gaps.items p }
    {
        if self.gaps.len() >= self.most {
            put_in_order(&mut self.gaps);
            self.most = self.gaps.len().saturating_mul(2).max(PAIRS);
        }
    }
}

/// Whether the run has these ends and this network.
fn is_walk(walk: &Walk, network: Option<NetworkId>, ends: &[End]) -> bool
    ensures { result ≡ true → IsWalk walk.now network ends.now }
{
    is_same_network(walk.network, network) && are_same_ends(&walk.ends, ends)
}

/// The place at which a run with these ends is kept. Others may have the same.
fn walk_place(ends: &[End]) -> usize {
    let (Some(first), Some(last)) = (ends.first(), ends.last()) else {
        return 0;
    };
    let stops = mixed(first.stop.0, last.stop.0);
    let times = mixed(second_of(first.departure), second_of(last.arrival));
    (mixed(stops, times) >> 16) as usize % WALKS
}

/// Places for runs, of which none calls anywhere.
fn no_walks(alloc: Global) -> Result<Vec<Walk>, AllocError>
    ensures { IfOk result (λ walks. (walk : Walk) → Contains walks.items walk → walk.ends.items ≡ []) }
{
    let mut walks = Vec::with_capacity(alloc, WALKS)?;
    for _ in 0..WALKS {
        walks.push(Walk {
            network: None,
            ends: Vec::new(alloc),
        })?;
    }
    Ok(walks)
}
