//! A reading by pieces whose type tells where it began.
ghost use Rattle.std.specs.Prelude.{◌≡◌, ◌≢◌, ◌+◌, List, ℕ, true, length, take, option_map, IfSome};
ghost use Rattle.std.specs.Io.{ReadsAtMost};
ghost use Rattle.std.specs.Io.KnownBytes.{ReadConsumes};
ghost use Rattle.std.specs.Str.{is_utf8};
ghost use Rattle.folder_io.specs.Pieces.{folder_name, pieces_state, bytes_to_come, HasTakenSome};

use crate::{Folder, Pieces, PiecesEnd};
use std::io;
use std::io::Read;
use std::marker::{Brand, PhantomData};

/// Where a reading by pieces began. Contracts alone know it: a call of a function over a `Beginning` passes [`Brand`], and
/// its proof picks what was told then.
pub trait Beginning {
    ghost use Rattle.std.specs.Prelude.{ℕ};
    ghost use Rattle.std.specs.Borrow.{GName};
    ghost use Rattle.folder_io.specs.FolderCalls.{FolderState};

    /// What the folder told.
    ghost start: { FolderState };
    /// At most so many bytes are wanted.
    ghost limit: { ℕ };
    /// The folder's name as a reference.
    ghost name: { GName };
}

impl Beginning for Brand {
    ghost use Rattle.folder_io.specs.FolderCalls.{nothing_told};

    ghost start = { nothing_told };

    ghost limit = { 0 };

    ghost name = { 0 };
}

/// [`Pieces`] whose type tells contracts where they began.
///
/// A reader that is made over a reader, as that of `csv` is, says which bytes it took from it and nothing else. What the
/// type tells holds all the same: take the pieces back from the reader, and the folder from them.
pub struct PiecesSince<'a, F: Folder, S: Beginning> {
    pieces: Pieces<'a, F>,
    beginning: PhantomData<S>,
    ghost same_folder: { folder_name pieces ≡ S.name },
    ghost since: { ∥ HasTakenSome S.start S.limit (pieces_state pieces) ∥₁ },
}

impl<'a, F: Folder, S: Beginning> PiecesSince<'a, F, S> {
    ghost use Rattle.folder_io.specs.Pieces.{HasTaken};
    ghost use Rattle.folder_io.specs.PiecesSince.{since_state, since_folder, since_end, IsSince};

    /// The rest of the folder's open file, of which at most `limit` bytes and one more are taken.
    pub fn new(folder: &'a mut F, limit: u32) -> PiecesSince<'a, F, S>
        requires is_open { (F.state folder.old).readable ≡ true }
        requires start { F.state folder.old ≡ S.start }
        requires limit { limit ≡ S.limit }
        requires name { folder.ghost_name ≡ S.name }
        ensures going { since_end result ≡ PiecesEnd.Going }
        ensures bytes { bytes_to_come (since_state result) ≡ option_map (take (S.limit + 1)) S.start.left }
        ensures folder { since_folder result ≡ folder.old }
    {
        PiecesSince {
            pieces: Pieces::new(folder, limit),
            beginning: PhantomData,
        }
    }

    /// How far the reading came.
    pub fn end(&self) -> PiecesEnd
        ensures { result ≡ since_end self.now }
    {
        self.pieces.end()
    }

    /// Whether the bytes that were taken are UTF-8.
    pub fn is_text(&self) -> bool
        ensures taken { (taken : List ℕ) → HasTaken S.start S.limit taken (since_state self.now) → result ≡ is_utf8 taken }
        ensures ended { since_end self.now ≡ PiecesEnd.Ended → IfSome S.start.left (λ bytes. result ≡ is_utf8 bytes) }
    {
        self.pieces.is_text()
    }

    /// Reads on until nothing more is taken, and lets go of the bytes. Answers how far the reading came.
    pub fn finish(&mut self) -> PiecesEnd
        ensures value { result ≡ since_end self.new }
        ensures ended { result ≢ PiecesEnd.Going }
    {
        self.pieces.finish()
    }

    /// Gives the folder back, as it is.
    pub fn release(self) -> &'a mut F
        ensures value { result.now ≡ since_folder self.entry }
        ensures same_folder { result.ghost_name ≡ S.name }
        ensures since { IsSince S.start S.limit (F.state result.now) (since_end self.entry) }
    {
        let PiecesSince {
            pieces,
            beginning: _,
        } = self;
        pieces.release()
    }
}

impl<F: Folder, S: Beginning> Read for PiecesSince<'_, F, S> {
    ghost use Rattle.folder_io.specs.Pieces.{bytes_to_come, given, TakesOn, AnswersAs};
    ghost use Rattle.folder_io.specs.PiecesSince.{since_state, since_folder, since_end};

    ghost remaining = { λ pieces. bytes_to_come (since_state pieces) };

    /// Reads the bytes that come next, at most as many as the room takes.
    ///
    /// # Errors
    /// A failure of the folder, also an earlier one.
    fn read(&mut self, room: &mut [u8]) -> io::Result<usize>
        ensures bound { ReadsAtMost result room.new }
        ensures bytes { ReadConsumes (bytes_to_come (since_state self.old)) (bytes_to_come (since_state self.new)) result room.new }
        ensures takes { TakesOn (since_state self.old) (given result room.new) (since_state self.new) }
        ensures answers { AnswersAs (since_end self.new) (length room.old) result }
        ensures rests { since_end self.old ≢ PiecesEnd.Going → (since_folder self.new ≡ since_folder self.old) × (since_end self.new ≡ since_end self.old) }
    {
        self.pieces.read(room)
    }
}
