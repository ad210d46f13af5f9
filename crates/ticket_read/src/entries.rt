//! The entries whose text this is.
ghost use Rattle.std.specs.Prelude.{◌≡◌, IfOk, IfSome, List, Some};
ghost use Rattle.feed_rows.specs.SoundFeed.{IsSoundFeed};
ghost use Rattle.feed_rows.specs.declared.fares.Entry.{Entry};
ghost use Rattle.fare_timeframes.specs.BuiltTimeframes.{AreTimeframesOf};
ghost use Rattle.ticket_read.specs.Judgement.{IsNearQuery};
ghost use Rattle.ticket_read.specs.EntryTexts.{IsTextOf, HasOneListByText};

use crate::reader::Reader;
use fare_price::Fares;
use fare_timeframes::Timeframes;
use feed_rows::{Entries, Query};
use feed_timetable::Timetable;
use std::alloc::{AllocError, Global};

/// The entries of the query whose text this is, byte by byte. None exactly where it is the text of no list of entries of
/// the query. The entries may stand in any order, and more than once; a text is that of one list alone.
///
/// # Errors
/// Want of memory.
pub fn entries_of(
    alloc: Global,
    timetable: &Timetable,
    query: &Query,
    text: &[u8],
) -> Result<Option<Entries>, AllocError>
    requires near { IsNearQuery query.now }
    ensures told { IfOk result (λ read. IfSome read (λ entries. IsTextOf timetable.now query.now entries text.now)) }
    ensures only { IfOk result (λ read. (entries : List Entry) → IsTextOf timetable.now query.now entries text.now → read ≡ Some entries) }
    ensures one { HasOneListByText timetable.now query.now }
{
    match Timeframes::build(alloc, timetable.feed(), timetable.calendar()) {
        Ok(timeframes) => entries_at(timetable, &timeframes, alloc, query, text),
        Err(AllocError) => Err(AllocError),
    }
}

// The same, where the timeframes of the feed are at hand.
fn entries_at<'s, 'f>(
    timetable: &'s Timetable<'f>,
    timeframes: &'s Timeframes<'s>,
    alloc: Global,
    query: &'s Query,
    text: &[u8],
) -> Result<Option<Entries>, AllocError>
    requires near { IsNearQuery query.now }
    requires timeframes { AreTimeframesOf timetable.now timeframes.now }
    ensures told { IfOk result (λ read. IfSome read (λ entries. IsTextOf timetable.now query.now entries text.now)) }
    ensures only { IfOk result (λ read. (entries : List Entry) → IsTextOf timetable.now query.now entries text.now → read ≡ Some entries) }
{
    match Fares::build(alloc, timetable.feed()) {
        Ok(fares) => entries_by(timetable, &fares, timeframes, alloc, query, text),
        Err(AllocError) => Err(AllocError),
    }
}

// The same, where the fares and the timeframes of the feed are at hand.
fn entries_by<'s, 'f>(
    timetable: &'s Timetable<'f>,
    fares: &'s Fares<'f>,
    timeframes: &'s Timeframes<'s>,
    alloc: Global,
    query: &'s Query,
    text: &[u8],
) -> Result<Option<Entries>, AllocError>
    requires near { IsNearQuery query.now }
    requires timeframes { AreTimeframesOf timetable.now timeframes.now }
    requires fares { fares.now ≡ timetable.now }
    requires sound { IsSoundFeed timetable.now }
    ensures told { IfOk result (λ read. IfSome read (λ entries. IsTextOf timetable.now query.now entries text.now)) }
    ensures only { IfOk result (λ read. (entries : List Entry) → IsTextOf timetable.now query.now entries text.now → read ≡ Some entries) }
{
    Reader::new(timetable, query, timeframes, fares).entries(alloc, text)
}
