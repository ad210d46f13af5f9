//! Timeframes.
ghost use Rattle.std.specs.Prelude.{◌≡◌, ◌≤◌, ◌<◌, ℕ, None, IfOk};
ghost use Rattle.feed_files.specs.declared.names.ColumnName.TheVariants.{ServiceId};
ghost use Rattle.feed_files.specs.declared.names.FileName.TheVariants as file;
ghost use Rattle.plain_laws.specs.Plain.{find_below};
ghost use Rattle.feed_faults.specs.Records.{FileTable, row_count};
ghost use Rattle.feed_faults.specs.FeedTables.{table_in};
ghost use Rattle.feed_faults.specs.FareRelations.{do_frames_overlap, is_bad_frame};
ghost use Rattle.feed_faults.specs.RowKeys.{is_repeated};
ghost use Rattle.feed_relations.specs.Frames.{AreSeen, frame_of};

use crate::judged::JudgedFeed;
use crate::rows::is_one_filled;
use feed_faults::IdColumn;
use feed_files::{ColumnName, FileName};
use feed_tables::{CallTable, IdIndex};
use feed_text::{Table, natural};
use std::alloc::{AllocError, Global};
use std::collections::BTreeSet;
use transit_base::DAY_SECONDS;

// A timeframe: the earliest rows of its group and of its service, and its seconds of the day.
#[derive(Clone, Copy, PartialEq, Eq, PartialOrd, Ord)]
pub struct Frame {
    pub group: u32,
    pub service: u32,
    pub start: u32,
    pub end: u32,
}

// Whether a row's timeframe overlaps one of an earlier row, of which those that were seen don't overlap. Some of them overlaps it
// exactly where the last one does that begins before it ends.
fn is_overlapping(seen: &BTreeSet<Frame>, frame: Frame) -> bool
    ensures { (table : FileTable) (row : ℕ) → row < row_count table → find_below row (is_bad_frame table) ≡ None → AreSeen ⟦<Frame as Ord>⟧.cmp (frame_of table) seen.now row → frame ≡ frame_of table row → result ≡ is_repeated (do_frames_overlap table) row }
{
    let end = Frame {
        start: frame.end,
        end: 0,
        ..frame
    };
    seen.range(..end).next_back().is_some_and(|last| {
        last.group == frame.group && last.service == frame.service && frame.start < last.end
    })
}

// The timeframe of a row.
#[tactic(auto, using(feed_text::proofs::ValueLaws::times))]
fn frame_of<C: CallTable>(feed: &JudgedFeed<C>, services: &IdIndex, row: u32) -> Frame
    requires within { row < row_count (table_in feed.now file.Timeframes) }
    requires services { services.now ≡ record { table = table_in feed.now file.Timeframes; name = ServiceId } }
    ensures { result ≡ frame_of (table_in feed.now file.Timeframes) row }
{
    let table = feed.tables().get(FileName::Timeframes);
    let &[_, start, end, _] = feed.tables().numbers::<4>(FileName::Timeframes, row);
    let groups = feed.index(IdColumn::TimeframeGroup);
    Frame {
        group: groups.number(table.field(row, ColumnName::TimeframeGroupId)),
        service: services.number(table.field(row, ColumnName::ServiceId)),
        start: natural(start).unwrap_or(0),
        end: natural(end).unwrap_or(DAY_SECONDS),
    }
}

// Whether the timeframe of a row is bad, where none of an earlier row is.
fn is_bad(table: &Table, seen: &BTreeSet<Frame>, row: u32, frame: Frame) -> bool
    requires within { row < row_count table.now }
    requires frame { frame ≡ frame_of table.now row }
    requires none { find_below row (is_bad_frame table.now) ≡ None }
    requires seen { AreSeen ⟦<Frame as Ord>⟧.cmp (frame_of table.now) seen.now row }
    ensures { result ≡ is_bad_frame table.now row }
{
    let is_half = is_one_filled(
        table.field(row, ColumnName::StartTime),
        table.field(row, ColumnName::EndTime),
    );
    if is_half || frame.start >= frame.end {
        return true;
    }
    is_overlapping(seen, frame)
}

// The first row of timeframes.txt below one whose timeframe is bad.
pub fn first_bad_frame<C: CallTable>(
    alloc: Global,
    feed: &JudgedFeed<C>,
    below: u32,
) -> Result<Option<u32>, AllocError>
    requires { below ≤ row_count (table_in feed.now file.Timeframes) }
    ensures { IfOk result (λ found. found ≡ find_below below (is_bad_frame (table_in feed.now file.Timeframes))) }
{
    let table = feed.tables().get(FileName::Timeframes);
    let services = IdIndex::of(alloc, table, ColumnName::ServiceId)?;
    let mut seen = BTreeSet::new(alloc);
    for row in 0..below {
        let frame = frame_of(feed, &services, row);
        if is_bad(table, &seen, row, frame) {
            return Ok(Some(row));
        }
        seen.insert(frame)?;
    }
    Ok(None)
}
