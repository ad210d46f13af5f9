//! Stop times: as there are so many, all checks of one are judged before the next is looked at.
ghost use Rattle.std.specs.Prelude.{◌≡◌, ◌<◌, option_map};
ghost use Rattle.plain_laws.specs.Plain.{first_below};
ghost use Rattle.feed_files.specs.declared.names.FileName.TheVariants as file;
ghost use Rattle.feed_faults.specs.Records.{row_count};
ghost use Rattle.feed_faults.specs.FileColumns.{checks_of};
ghost use Rattle.feed_faults.specs.FaultPlaces.{field_fault};
ghost use Rattle.feed_faults.specs.FeedTables.{table_in};
ghost use Rattle.feed_faults.specs.RowChecks.{relation_fault_of_row};

use crate::judged::JudgedFeed;
use feed_faults::{RowRule, rule_of};
use feed_files::{FeedFault, FileName};
use feed_tables::CallTable;
use feed_text::field_fault;

// The first check of a row of stop_times.txt that fails: those of its place in its trip come behind that the trip is there.
#[tactic(auto, unfolding(feed_faults::specs::RowChecks::relation_fault_of_row, stop_order::specs::Numbered::faults_at))]
fn failing_check<C: CallTable>(
    feed: &JudgedFeed<C>,
    checks: &[RowRule; 6],
    row: u32,
) -> Option<RowRule>
    requires checks { checks.now ≡ checks_of file.StopTimes }
    requires within { row < row_count (table_in feed.now file.StopTimes) }
    ensures { option_map (λ rule. field_fault file.StopTimes row rule.column rule.kind) result ≡ relation_fault_of_row feed.now file.StopTimes row }
{
    let &[
        trip_known,
        stop_known,
        at_platform,
        new_key,
        timed_ends,
        rising_times,
    ] = checks;
    let call = feed.call(row);
    let order = feed.order(row);
    if call.trip.is_none() {
        Some(trip_known)
    } else if call.stop.is_none() {
        Some(stop_known)
    } else if !feed.is_at_platform(row) {
        Some(at_platform)
    } else if order.is_repeated {
        Some(new_key)
    } else if order.is_end_time_missing {
        Some(timed_ends)
    } else if order.do_times_decrease {
        Some(rising_times)
    } else {
        None
    }
}

// The first fault of the rows of stop_times.txt.
#[tactic(auto, using(plain_laws::proofs::Laws::firsts))]
pub fn fault_of_calls<C: CallTable>(feed: &JudgedFeed<C>) -> Option<FeedFault>
    ensures { result ≡ first_below (row_count (table_in feed.now file.StopTimes)) (relation_fault_of_row feed.now file.StopTimes) }
{
    let Some(checks) = rule_of(FileName::StopTimes).checks.as_array() else {
        unreachable!();
    };
    for row in 0..feed.tables().rows(FileName::StopTimes) {
        if let Some(rule) = failing_check(feed, checks, row) {
            return Some(field_fault(FileName::StopTimes, row, rule.column, rule.kind));
        }
    }
    None
}
