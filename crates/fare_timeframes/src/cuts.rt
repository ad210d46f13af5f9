//! Times of day between which no timeframe starts or ends.
ghost use Rattle.std.specs.Prelude.{◌≡◌, ℕ, IfOk};
ghost use Rattle.std.specs.List.Sorted.{IsNonDecreasingBy};
ghost use Rattle.feed_rows.specs.FeedRows.{FeedRows};
ghost use Rattle.feed_rows.specs.Legs.{frames_at};
ghost use Rattle.fare_timeframes.specs.Cuts.{AreCutsOf, IsCutBefore};

use feed_rows::Feed;
use std::alloc::{AllocError, Global};
use transit_base::Moment;

/// The times of day at which a timeframe starts or ends, ascending.
///
/// # Errors
/// Want of memory.
pub fn cuts_of(alloc: Global, feed: &Feed) -> Result<Vec<u32>, AllocError>
    ensures { IfOk result (λ cuts. AreCutsOf feed.now cuts.items) }
{
    let mut cuts = Vec::new(alloc);
    for row in feed.timeframes.items() {
        cuts.push(row.start)?;
        cuts.push(row.end)?;
    }
    cuts.sort_unstable_by_key(|cut| *cut);
    Ok(cuts)
}

/// A moment at which the same timeframe groups hold.
pub fn moment_by(cuts: &[u32], at: Moment) -> Moment
    ensures { (feed : FeedRows) → AreCutsOf feed cuts.now → frames_at feed result ≡ frames_at feed at }
{
    let time = at.time_of_day().0;
    let cut = cut_before(cuts, time);
    match at.0.checked_sub(i64::from(time.saturating_sub(cut))) {
        Some(like) => Moment(like),
        None => at,
    }
}

/// The last of the times of day by this one, and midnight where there is none.
fn cut_before(cuts: &[u32], time: u32) -> u32
    ensures { IsNonDecreasingBy (λ (cut : ℕ). cut) cuts.now → IsCutBefore cuts.now time result }
{
    let passed = cuts.partition_point(|cut| *cut <= time);
    if passed == 0 { 0 } else { cuts[passed - 1] }
}
