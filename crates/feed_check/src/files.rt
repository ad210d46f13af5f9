//! The feed that files make.
ghost use Rattle.std.specs.Prelude.{◌≡◌, IfOk, IfErr, OnOk, None, length};
ghost use Rattle.feed_files.specs.declared.names.FileName.TheVariants as file;
ghost use Rattle.feed_files.specs.HeldFiles.{HeldFile};
ghost use Rattle.feed_files.specs.declared.names.FileName.{FileName};
ghost use Rattle.feed_faults.specs.AcceptedFeed.{feed_of, rows_of_tables};
ghost use Rattle.feed_faults.specs.FirstFault.{first_relation_fault, first_fault};
ghost use Rattle.feed_check.specs.FilesBehind.{AreReadTo, Accepts, Refuses};
ghost use Rattle.feed_check.specs.FolderCalls.{AreCallsOfHeld};
ghost use Rattle.feed_soundness.specs.AcceptedTables.{AreFormed};
ghost use Rattle.folder_io.specs.KeptFiles.{AreWithin, held_in, held_of};
ghost use Rattle.feed_tables.specs.IdColumns.{call_ids};
ghost use Rattle.feed_tables.specs.ReadCalls.{read_calls};
ghost use Rattle.feed_tables.specs.KeptTables.{tables_with, AreKept};
ghost use Rattle.feed_text.specs.TextErrors.{IsErrorOf};

use crate::calls::{answer, whole_fault};
use feed_build::feed_of_tables;
use feed_calls::{StopTimes, read_stop_times};
use feed_files::{FaultKind, FileName};
use feed_relations::first_relation_fault;
use feed_rows::Feed;
use feed_tables::{CallIds, CallTable, Ids, ReadTable, Tables, read_tables};
use feed_text::{Records, TextError, is_text};
use folder_io::{FileBytes, Files, PLACE_BEHIND, STOP_TIMES_PLACE};
use std::alloc::Global;
use std::marker::Brand;

// The feed of tables whose files have no fault by themselves, with what was read of stop_times.txt. `Fault` is exactly the first
// fault of the files among each other.
fn related_feed<C: CallTable>(
    alloc: Global,
    first: &[ReadTable],
    others: &[ReadTable],
    calls: &CallIds,
    stop_times: StopTimes,
) -> Result<Feed, TextError>
    requires kept { AreKept first.now others.now C.table (length stop_times.calls) }
    requires formed { AreFormed (tables_with first.now C.table others.now) }
    requires calls { calls.now ≡ call_ids (tables_with first.now C.table others.now) }
    requires stop_times { stop_times.calls ≡ read_calls (call_ids (tables_with first.now C.table others.now)) C.table }
    ensures fault { IfErr result (IsErrorOf (first_relation_fault (tables_with first.now C.table others.now))) }
    ensures sound { OnOk result (first_relation_fault (tables_with first.now C.table others.now) ≡ None) }
    ensures feed { IfOk result (λ feed. feed ≡ rows_of_tables (tables_with first.now C.table others.now)) }
{
    let read = stop_times.calls;
    let tables: Tables<C> = Tables::of(first, others, read.len() as u32);
    let ids = Ids::of(alloc, &tables, calls)?;
    if let Some(fault) = first_relation_fault(alloc, &tables, &ids, &read)? {
        return Err(TextError::Fault(fault));
    }
    let Some(rows) = read.into_rows() else {
        unreachable!();
    };
    Ok(feed_of_tables(alloc, &tables, &ids, rows)?)
}

/// The feed of files of which those up to stop_times.txt were read: these are the tables before it, and its stop times or its
/// first fault. `Fault` is exactly the first fault of all files.
pub(crate) fn feed_behind(
    alloc: Global,
    files: &mut Files,
    first: &[ReadTable],
    ids: &CallIds,
    calls: Result<StopTimes, TextError>,
) -> Result<Feed, TextError>
    requires within { AreWithin files.old }
    requires read { (all : FileName → HeldFile) × AreReadTo all first.now ids.now calls (held_in files.old) }
    ensures fault { IfErr result (Refuses first.now ids.now calls (held_in files.old)) }
    ensures feed { IfOk result (Accepts first.now ids.now calls (held_in files.old)) }
{
    let stop_times = calls?;
    let others = read_tables(alloc, files, &FileName::all()[PLACE_BEHIND..])?;
    related_feed::<Brand>(alloc, first, &others, ids, stop_times)
}

// The stop times of a file as it is held, by the ids of trips and stops. `Fault` is the first fault of the
// file by itself.
fn held_stop_times(alloc: Global, held: &FileBytes, ids: &CallIds) -> Result<StopTimes, TextError>
    ensures { AreCallsOfHeld ids.now (held_of held.now) result }
{
    let text = match held {
        FileBytes::Absent => return Err(whole_fault(FaultKind::MissingFile)),
        FileBytes::TooLarge => return Err(whole_fault(FaultKind::FileTooLarge)),
        FileBytes::Bytes(text) => text.bytes(),
    };
    let mut records = Records::of(alloc, text);
    let calls = read_stop_times(alloc, &mut records, ids);
    answer(is_text(text), calls)
}

/// The feed of files that have no fault. `Fault` is exactly their first fault: of each file by itself, in the order of the
/// files, and then of the files among each other. The bytes of a file are let go of once they are read.
#[tactic(auto, unfolding(feed_faults::specs::FirstFault::first_fault))]
pub fn check(alloc: Global, files: Files) -> Result<Feed, TextError>
    requires { AreWithin files }
    ensures fault { IfErr result (IsErrorOf (first_fault (held_in files))) }
    ensures sound { OnOk result (first_fault (held_in files) ≡ None) }
    ensures feed { IfOk result (λ feed. feed ≡ feed_of (held_in files)) }
{
    let mut files = files;
    let first = read_tables(alloc, &mut files, &FileName::all()[..STOP_TIMES_PLACE])?;
    let ids = CallIds::of(alloc, &first)?;
    let calls = held_stop_times(alloc, files.get(FileName::StopTimes), &ids);
    files.put(FileName::StopTimes, FileBytes::Absent);
    feed_behind(alloc, &mut files, &first, &ids, calls)
}
