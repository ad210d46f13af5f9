//! stop_times.txt of a folder, read record by record.
ghost use Rattle.std.specs.Prelude.{◌≡◌, true, IfOk, IfErr, OnOk};
ghost use Rattle.feed_files.specs.FaultCounts.{Stayed};
ghost use Rattle.feed_files.specs.HeldFiles.{most_bytes};
ghost use Rattle.feed_files.specs.declared.names.FileName.TheVariants as file;
ghost use Rattle.feed_faults.specs.FaultPlaces.{file_fault};
ghost use Rattle.folder_io.specs.FilePlaces.{place_behind, stop_times_place};
ghost use Rattle.folder_io.specs.FolderCalls.{FolderState};
ghost use Rattle.folder_io.specs.FileReading.{GivesUp, GivesUpOn, ReadsTo};
ghost use Rattle.feed_check.specs.FolderCalls.{answer_of, AreCallsIn, AreCallsLeft, IsLeft};

use feed_calls::{CallError, StopTimes, read_stop_times};
use feed_files::{FaultKind, FileName};
use feed_tables::CallIds;
use feed_text::{Records, TextError, file_fault};
use folder_io::{Beginning, Folder, MOST_BYTES, Opened, PiecesEnd, PiecesSince, ReadError};
use std::alloc::Global;
use std::marker::Brand;

/// That the file as a whole has a fault.
pub(crate) fn whole_fault(kind: FaultKind) -> TextError
    ensures { result ≡ TextError.Fault (file_fault file.StopTimes kind) }
{
    TextError::Fault(file_fault(FileName::StopTimes, kind))
}

/// What is answered of the file, of which this was read to its end.
pub(crate) fn answer(
    is_text: bool,
    calls: Result<StopTimes, CallError>,
) -> Result<StopTimes, TextError>
    ensures { result ≡ answer_of is_text calls }
{
    if !is_text {
        return Err(whole_fault(FaultKind::NotUtf8));
    }
    match calls {
        Ok(calls) => Ok(calls),
        Err(CallError::Fault(fault)) => Err(TextError::Fault(fault)),
        // Where the reading didn't fail, text gives records but for want of memory.
        Err(CallError::Record(_)) => Err(TextError::NoMemory),
    }
}

// The stop times of the file that the folder has open, or its first fault. The file is read to its end, whatever
// is wrong with its rows: a failure of the folder comes before any fault, and a fault of the file as a whole before those of
// its rows.
fn open_calls<'a, F: Folder, S: Beginning>(
    alloc: Global,
    folder: &'a mut F,
    ids: &CallIds,
) -> (Result<Result<StopTimes, TextError>, ReadError>, &'a mut F)
    requires is_open { (F.state folder.old).readable ≡ true }
    requires start { F.state folder.old ≡ S.start }
    requires limit { S.limit ≡ most_bytes }
    requires name { folder.ghost_name ≡ S.name }
    ensures calls { IfOk result.0 (AreCallsLeft S.start.left ids.now) }
    ensures ok { OnOk result.0 (Stayed S.start.faults (F.state result.1.now).faults) }
    ensures err { IfErr result.0 (λ error. GivesUp error S.start (F.state result.1.now)) }
    ensures asked { IsLeft S.start (F.state result.1.now) }
    ensures same_folder { result.1.ghost_name ≡ folder.entry.ghost_name }
{
    let pieces = PiecesSince::<'a, F, S>::new(folder, MOST_BYTES);
    let mut records = Records::of(alloc, pieces);
    let calls = read_stop_times(alloc, &mut records, ids);
    let mut pieces = records.into_source();
    let end = pieces.finish();
    let is_text = pieces.is_text();
    let folder = pieces.release();
    let calls = match end {
        PiecesEnd::Going => unreachable!(),
        PiecesEnd::Failed => Err(ReadError::ReadFault),
        PiecesEnd::TooLarge => Ok(Err(whole_fault(FaultKind::FileTooLarge))),
        PiecesEnd::Ended => Ok(answer(is_text, calls)),
    };
    (calls, folder)
}

/// The stop times of a folder, by the ids of trips and stops, or the first fault of their file by itself. The
/// files before it were opened. Nothing of the file is kept but these.
///
/// # Errors
/// [`ReadError::ReadFault`] where a call of the folder failed, after which no further call was made; want of memory.
pub fn folder_calls<F: Folder>(
    alloc: Global,
    folder: &mut F,
    ids: &CallIds,
) -> Result<Result<StopTimes, TextError>, ReadError>
    ensures calls { IfOk result (AreCallsIn (F.state folder.old) ids.now) }
    ensures ok { OnOk result ((start : FolderState) → ReadsTo start stop_times_place (F.state folder.old) → ReadsTo start place_behind (F.state folder.new)) }
    ensures err { IfErr result (λ error. (start : FolderState) → ReadsTo start stop_times_place (F.state folder.old) → GivesUpOn error start (F.state folder.new)) }
    ensures source { (F.state folder.new).source ≡ (F.state folder.old).source }
{
    match folder.open(FileName::StopTimes.text()) {
        Opened::Failed => return Err(ReadError::ReadFault),
        Opened::NoMemory => return Err(ReadError::NoMemory),
        Opened::Absent => return Ok(Err(whole_fault(FaultKind::MissingFile))),
        Opened::Present => {}
    }
    let (calls, _folder) = open_calls::<F, Brand>(alloc, folder, ids);
    calls
}
