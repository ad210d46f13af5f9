//! The open file of a folder, read piece by piece.
ghost use Rattle.std.specs.Prelude.{◌≡◌, ◌≢◌, ◌+◌, ◌<◌, List, ℕ, [], true, length, take, option_map};
ghost use Rattle.std.specs.Io.{ReadsAtMost};
ghost use Rattle.std.specs.Io.KnownBytes.{ReadConsumes};
ghost use Rattle.std.specs.Str.{is_utf8};
ghost use Rattle.folder_io.specs.FolderCalls.{FolderState};
ghost use Rattle.folder_io.specs.declared.pieces.PiecesEnd.{PiecesEnd};

use crate::reading::ROOM;
use crate::utf8::Utf8State;
use crate::{Folder, Piece};
use std::io;
use std::io::{ErrorKind, Read};

/// How far a reading by pieces came.
#[derive(Clone, Copy, PartialEq, Eq)]
pub enum PiecesEnd {
    /// More may come.
    Going,
    /// The folder answered that nothing is left of the file, which has no more bytes than the limit.
    Ended,
    /// The folder failed, and counted it. No further call is made of it.
    Failed,
    /// The file has more bytes than the limit. One byte past it was taken, and nothing further is.
    TooLarge,
}

/// The file that a folder has open, as a reader: each read takes the bytes that come next, and none of them is held.
///
/// A read gives no bytes where the file ended, and past the limit. A failure of the folder is an error, and so is each read
/// after it.
pub struct Pieces<'a, F: Folder> {
    folder: &'a mut F,
    // How many bytes more are taken at most.
    room: usize,
    // How far it came, but for a file that is too large, which has no room left.
    end: PiecesEnd,
    text: Utf8State,
    ghost is_open: { end ≡ PiecesEnd.Going → (F.state folder.now).readable ≡ true },
}

impl<F: Folder> Drop for Pieces<'_, F> {
    ghost use Rattle.folder_io.specs.Pieces.{read_folder};

    /// Lets go of the folder as it is.
    fn drop(self)
        ensures { self.exit.0.now ≡ read_folder self.entry }
    {
        let Pieces {
            folder: _,
            room: _,
            end: _,
            text: _,
        } = self;
    }
}

impl<'a, F: Folder> Pieces<'a, F> {
    ghost use Rattle.folder_io.specs.Pieces.{pieces_state, pieces_end, read_folder, folder_name, bytes_to_come, HasTaken, TakesSome};

    /// The rest of the folder's open file, of which at most `limit` bytes and one more are taken.
    pub fn new(folder: &'a mut F, limit: u32) -> Pieces<'a, F>
        requires { (F.state folder.old).readable ≡ true }
        ensures begins { HasTaken (F.state folder.old) limit [] (pieces_state result) }
        ensures going { pieces_end result ≡ PiecesEnd.Going }
        ensures bytes { bytes_to_come (pieces_state result) ≡ option_map (take (limit + 1)) (F.state folder.old).left }
        ensures folder { read_folder result ≡ folder.old }
        ensures same_folder { folder_name result ≡ folder.entry.ghost_name }
    {
        Pieces {
            folder,
            room: limit as usize + 1,
            end: PiecesEnd::Going,
            text: Utf8State::Whole,
        }
    }

    /// How far the reading came.
    pub fn end(&self) -> PiecesEnd
        ensures { result ≡ pieces_end self.now }
    {
        if self.room == 0 {
            return PiecesEnd::TooLarge;
        }
        self.end
    }

    /// Reads on until nothing more is taken, and lets go of the bytes. Answers how far the reading came.
    pub fn finish(&mut self) -> PiecesEnd
        ensures value { result ≡ pieces_end self.new }
        ensures ended { result ≢ PiecesEnd.Going }
        ensures takes { TakesSome (pieces_state self.old) (pieces_state self.new) }
        ensures same_folder { folder_name self.new ≡ folder_name self.old }
    {
        let mut room = [0u8; ROOM];
        while let PiecesEnd::Going = self.end() {
            let _ = self.read(&mut room);
        }
        self.end()
    }

    /// Gives the folder back, as it is.
    pub fn release(self) -> &'a mut F
        ensures value { result.now ≡ read_folder self.entry }
        ensures same_folder { result.ghost_name ≡ folder_name self.entry }
    {
        let Pieces {
            folder,
            room: _,
            end: _,
            text: _,
        } = self;
        folder
    }

    /// Whether the bytes that were taken are UTF-8.
    pub fn is_text(&self) -> bool
        ensures { (start : FolderState) (limit : ℕ) (taken : List ℕ) → HasTaken start limit taken (pieces_state self.now) → result ≡ is_utf8 taken }
    {
        self.text.is_between()
    }
}

impl<F: Folder> Read for Pieces<'_, F> {
    ghost use Rattle.folder_io.specs.Pieces.{pieces_state, pieces_end, read_folder, folder_name, bytes_to_come, given, TakesOn, AnswersAs};

    ghost remaining = { λ pieces. bytes_to_come (pieces_state pieces) };

    /// Reads the bytes that come next, at most as many as the room takes.
    ///
    /// # Errors
    /// A failure of the folder, also an earlier one.
    fn read(&mut self, room: &mut [u8]) -> io::Result<usize>
        ensures bound { ReadsAtMost result room.new }
        ensures bytes { ReadConsumes (bytes_to_come (pieces_state self.old)) (bytes_to_come (pieces_state self.new)) result room.new }
        ensures takes { TakesOn (pieces_state self.old) (given result room.new) (pieces_state self.new) }
        ensures shrinks { pieces_end self.new ≡ PiecesEnd.Going → 0 < length room.old → (pieces_state self.new).room < (pieces_state self.old).room }
        ensures answers { AnswersAs (pieces_end self.new) (length room.old) result }
        ensures rests { pieces_end self.old ≢ PiecesEnd.Going → (read_folder self.new ≡ read_folder self.old) × (pieces_end self.new ≡ pieces_end self.old) }
        ensures same_folder { folder_name self.new ≡ folder_name self.old }
    {
        match self.end() {
            PiecesEnd::Going => {}
            PiecesEnd::Ended | PiecesEnd::TooLarge => return Ok(0),
            PiecesEnd::Failed => return Err(io::Error::from(ErrorKind::Other)),
        }
        if room.is_empty() {
            return Ok(0);
        }
        let most = room.len().min(self.room);
        match self.folder.read(&mut room[..most]) {
            Piece::Got(count) => {
                self.text = self.text.after(&room[..count]);
                self.room -= count;
                Ok(count)
            }
            Piece::End => {
                self.end = PiecesEnd::Ended;
                Ok(0)
            }
            Piece::Failed => {
                self.end = PiecesEnd::Failed;
                Err(io::Error::from(ErrorKind::Other))
            }
        }
    }
}
