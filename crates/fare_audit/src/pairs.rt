//! Pairs of stops: where one is kept, and their order.
ghost use Rattle.std.specs.Prelude.{◌≡◌, true};
ghost use Rattle.feed_rows.specs.declared.journeys.Pair.{Pair};
ghost use Rattle.ride_cache.specs.Kept.{Holds};
ghost use Rattle.fare_audit.specs.Reports.{ArePairsInOrder};

use feed_rows::Pair;
use ride_cache::{Cache, mixed};

/// How many pairs are known to be noted at most.
pub const PAIRS: usize = 65_536;

/// A number for the pair. Others may have the same.
pub fn pair_number(pair: Pair) -> u32 {
    mixed(pair.from.0, pair.to.0)
}

/// Whether the pair is kept.
pub fn has_pair(pairs: &Cache<Pair>, pair: Pair) -> bool
    ensures { result ≡ true → Holds pairs.now pair }
{
    match pairs.get(pair_number(pair)) {
        Some(kept) => kept.from.0 == pair.from.0 && kept.to.0 == pair.to.0,
        None => false,
    }
}

/// Puts the pairs in order of the boarding stop and then of the alighting stop, and leaves each once.
pub fn put_in_order(pairs: &mut Vec<Pair>)
    ensures { ArePairsInOrder pairs.old.items pairs.new.items }
{
    pairs.sort_unstable_by_key(|pair| (pair.from.0, pair.to.0));
    pairs.dedup();
}
