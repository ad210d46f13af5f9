//! The feed that a folder holds.
ghost use Rattle.std.specs.Prelude.{◌≡◌, IfOk, IfErr, OnOk};
ghost use Rattle.folder_io.specs.FileReading.{OpensAll};
ghost use Rattle.folder_io.specs.FolderCalls.{FolderState};
ghost use Rattle.folder_io.specs.KeptFiles.{AreWithin};
ghost use Rattle.feed_check.specs.FilesBehind.{IsBegun};
ghost use Rattle.feed_check.specs.LoadErrors.{GivesUpLoading, IsFeedOf};

use crate::calls::folder_calls;
use crate::files::feed_behind;
use feed_files::{FeedFault, FileName};
use feed_rows::Feed;
use feed_tables::{CallIds, ReadTable, read_tables};
use feed_text::TextError;
use folder_io::{FILE_COUNT, Files, Folder, PLACE_BEHIND, ReadError, STOP_TIMES_PLACE, read_files};
use std::alloc::Global;

/// Why a folder gives no feed.
#[derive(Clone, Copy, PartialEq, Eq)]
pub enum LoadError {
    /// A call of the folder failed: its count of faults rose.
    ReadFault,
    /// The first fault of the feed.
    Fault(FeedFault),
    /// Want of memory.
    NoMemory,
}

impl From<ReadError> for LoadError {
    ghost use Rattle.std.specs.Prelude.{◌≡◌};
    ghost use Rattle.feed_check.specs.LoadErrors.{unread};

    ghost from_gives = { λ error load. load ≡ unread error };

    fn from(error: ReadError) -> LoadError {
        match error {
            ReadError::ReadFault => LoadError::ReadFault,
            ReadError::NoMemory => LoadError::NoMemory,
        }
    }
}

impl From<TextError> for LoadError {
    ghost use Rattle.std.specs.Prelude.{◌≡◌};
    ghost use Rattle.feed_check.specs.LoadErrors.{refused};

    ghost from_gives = { λ error load. load ≡ refused error };

    fn from(error: TextError) -> LoadError {
        match error {
            TextError::Fault(fault) => LoadError::Fault(fault),
            TextError::NoMemory => LoadError::NoMemory,
        }
    }
}

// The feed of a folder of which the files before stop_times.txt were read, and have these tables.
fn load_behind<F: Folder>(
    alloc: Global,
    folder: &mut F,
    files: &mut Files,
    first: &[ReadTable],
) -> Result<Feed, LoadError>
    requires within { AreWithin files.old }
    requires begun { (start : FolderState) × IsBegun start first.now (F.state folder.old) }
    ensures feed { IfOk result (λ feed. (start : FolderState) → IsBegun start first.now (F.state folder.old) → IsFeedOf start feed) }
    ensures ok { OnOk result ((start : FolderState) → IsBegun start first.now (F.state folder.old) → OpensAll start (F.state folder.new)) }
    ensures err { IfErr result (λ error. (start : FolderState) → IsBegun start first.now (F.state folder.old) → GivesUpLoading error start (F.state folder.new)) }
    ensures source { (F.state folder.new).source ≡ (F.state folder.old).source }
{
    let Ok(ids) = CallIds::of(alloc, first) else {
        return Err(LoadError::NoMemory);
    };
    let calls = folder_calls(alloc, folder, &ids)?;
    read_files(alloc, folder, files, PLACE_BEHIND, FILE_COUNT)?;
    match feed_behind(alloc, files, first, &ids, calls) {
        Ok(feed) => Ok(feed),
        Err(error) => Err(LoadError::from(error)),
    }
}

/// The feed of the files that a folder holds, each opened once, in order, and read before a fault is answered. Of
/// stop_times.txt nothing is kept but its rows.
///
/// # Errors
/// [`LoadError::ReadFault`] where a call of the folder failed, after which no further call was made; the first fault of the
/// feed; want of memory.
pub fn load<F: Folder>(alloc: Global, folder: &mut F) -> Result<Feed, LoadError>
    ensures feed { IfOk result (IsFeedOf (F.state folder.old)) }
    ensures ok { OnOk result (OpensAll (F.state folder.old) (F.state folder.new)) }
    ensures err { IfErr result (λ error. GivesUpLoading error (F.state folder.old) (F.state folder.new)) }
    ensures source { (F.state folder.new).source ≡ (F.state folder.old).source }
{
    let mut files = Files::empty();
    read_files(alloc, folder, &mut files, 0, STOP_TIMES_PLACE)?;
    match read_tables(alloc, &mut files, &FileName::all()[..STOP_TIMES_PLACE]) {
        Ok(first) => load_behind(alloc, folder, &mut files, &first),
        Err(error) => {
            read_files(alloc, folder, &mut files, STOP_TIMES_PLACE, FILE_COUNT)?;
            Err(LoadError::from(error))
        }
    }
}
