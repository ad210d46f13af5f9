//! Counts of transfer rules, of which an empty one is greater than every number.
ghost use Rattle.std.specs.Prelude.{◌≡◌, ℕ, Option, Some, ◌&&◌};
ghost use Rattle.feed_rows.specs.TransferRules.{count_le};
ghost use Rattle.fare_transfer_rules.specs.Counts.{is_within};

/// Whether the one count is at most the other.
pub fn count_le(a: Option<u32>, b: Option<u32>) -> bool
    ensures { result ≡ count_le a b }
{
    match (a, b) {
        (_, None) => true,
        (None, Some(_)) => false,
        (Some(m), Some(n)) => m <= n,
    }
}

/// The lesser of the least count so far, where there is one, and another.
pub fn lesser(least: Option<Option<u32>>, count: Option<u32>) -> Option<u32>
    ensures { (other : Option ℕ) → is_within (Some result) other ≡ (is_within least other && count_le other count) }
{
    match least {
        Some(held) if count_le(held, count) => held,
        _ => count,
    }
}

/// Whether the count is at most the least one, where there is a least one.
pub fn is_within(least: Option<Option<u32>>, count: Option<u32>) -> bool
    ensures { result ≡ is_within least count }
{
    match least {
        Some(held) => count_le(count, held),
        None => true,
    }
}
