//! Reading the files of a feed.
ghost use Rattle.std.specs.Prelude.{◌≡◌, ◌≤◌, ◌∷◌, [], IfOk, IfErr, OnOk};
ghost use Rattle.feed_files.specs.FaultCounts.{Stayed};
ghost use Rattle.feed_files.specs.Names.{file_text};
ghost use Rattle.folder_io.specs.CallLogs.{Makes};
ghost use Rattle.folder_io.specs.KeptFiles.{IsWithin};
ghost use Rattle.folder_io.specs.FolderCalls.{FolderState, WhereTold};
ghost use Rattle.folder_io.specs.FileReading.{AreReadBetween, GivesUp, GivesUpOn, IsRead, ReadsTo, StopsPast};

use crate::{ByteText, FILE_COUNT, FileBytes, Files, Folder, Opened, Piece};
use feed_files::FileName;
use std::alloc::{AllocError, Global};
use thiserror::Error;

/// Why a file wasn't read.
#[derive(Clone, Copy, Debug, PartialEq, Eq, Error)]
pub enum ReadError {
    /// A call of the folder failed: its count of faults rose.
    #[error("the folder can't be read")]
    ReadFault,
    /// Want of memory.
    #[error("out of memory")]
    NoMemory,
}

impl From<AllocError> for ReadError {
    ghost use Rattle.std.specs.Prelude.{◌≡◌};
    ghost use Rattle.folder_io.specs.declared.reading.ReadError.TheVariants.{NoMemory};

    ghost from_gives = { λ _ error. error ≡ NoMemory };

    fn from(_error: AllocError) -> ReadError {
        ReadError::NoMemory
    }
}

/// The greatest number of bytes of a file of a feed that is read.
pub const MOST_BYTES: u32 = 268_435_456;

// How many bytes are asked for at a time.
pub(crate) const ROOM: usize = 65_536;

/// The bytes of a file that has at most `limit` bytes. A larger one is read no further than one byte past the limit.
///
/// # Errors
/// [`ReadError::ReadFault`] where a call of the folder failed, after which no further call was made; want of memory.
pub fn read_file<F: Folder>(
    alloc: Global,
    folder: &mut F,
    name: FileName,
    limit: u32,
) -> Result<FileBytes, ReadError>
    ensures within { IfOk result (IsWithin limit) }
    ensures bytes { IfOk result (λ bytes. WhereTold (F.state folder.old) (λ contents. IsRead contents (file_text name) limit bytes)) }
    ensures stops_past { IfOk result (λ bytes. WhereTold (F.state folder.old) (λ contents. StopsPast contents (file_text name) limit (F.state folder.new).left bytes)) }
    ensures ok { OnOk result (Stayed (F.state folder.old).faults (F.state folder.new).faults) }
    ensures err { IfErr result (λ error. GivesUp error (F.state folder.old) (F.state folder.new)) }
    ensures source { (F.state folder.new).source ≡ (F.state folder.old).source }
    ensures opens { Makes (F.state folder.old).opens (file_text name ∷ []) (F.state folder.new).opens }
{
    match folder.open(name.text()) {
        Opened::Failed => return Err(ReadError::ReadFault),
        Opened::NoMemory => return Err(ReadError::NoMemory),
        Opened::Absent => return Ok(FileBytes::Absent),
        Opened::Present => {}
    }
    let most = limit as usize + 1;
    let mut bytes = Vec::new(alloc);
    let mut room = [0u8; ROOM];
    while bytes.len() < most {
        let want = ROOM.min(most - bytes.len());
        match folder.read(&mut room[..want]) {
            Piece::Failed => return Err(ReadError::ReadFault),
            Piece::End => return Ok(FileBytes::Bytes(ByteText::of(bytes))),
            Piece::Got(count) => {
                bytes.extend_from_slice(&room[..count])?;
            }
        }
    }
    Ok(FileBytes::TooLarge)
}

/// Reads the files of a feed from one place and up to another, in order, each of at most [`MOST_BYTES`], and puts them
/// beside those that are there.
///
/// # Errors
/// [`ReadError::ReadFault`] where a call of the folder failed, after which no further call was made; want of memory.
pub fn read_files<F: Folder>(
    alloc: Global,
    folder: &mut F,
    files: &mut Files,
    from: usize,
    to: usize,
) -> Result<(), ReadError>
    requires order { from ≤ to }
    requires places { to ≤ FILE_COUNT }
    ensures files { OnOk result (AreReadBetween (F.state folder.old) from to files.old files.new) }
    ensures ok { OnOk result ((start : FolderState) → ReadsTo start from (F.state folder.old) → ReadsTo start to (F.state folder.new)) }
    ensures err { IfErr result (λ error. (start : FolderState) → ReadsTo start from (F.state folder.old) → GivesUpOn error start (F.state folder.new)) }
    ensures source { (F.state folder.new).source ≡ (F.state folder.old).source }
{
    let names = FileName::all();
    for place in from..to {
        let bytes = read_file(alloc, folder, names[place], MOST_BYTES)?;
        files.put_at(place, bytes);
    }
    Ok(())
}
