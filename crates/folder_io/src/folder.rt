//! A folder that files are read from.
ghost use Rattle.std.specs.Prelude.{◌≡◌, ◌<◌, ◌≤◌, ◌^◌, ◌-◌, ◌∷◌, [], true, length, IfSome};

/// What an open answers.
#[derive(Clone, Copy, PartialEq, Eq)]
pub enum Opened {
    /// The file is open, and is read from its first byte.
    Present,
    /// The folder doesn't hold the name.
    Absent,
    /// Want of memory. The folders in memory never answer it.
    NoMemory,
    /// The folder failed, and counted it.
    Failed,
}

/// What a read answers.
#[derive(Clone, Copy, PartialEq, Eq)]
pub enum Piece {
    /// So many bytes, at least one, stand at the start of the room.
    Got(usize),
    /// Nothing is left of the file.
    End,
    /// The folder failed, and counted it.
    Failed,
}

/// A folder of named files, at most one of which is open.
///
/// What it holds is told where the object can tell it, as those in memory do; a folder of the system tells nothing of it.
/// Every failure is counted: a call answers Failed only where the count of faults rose, and any other answer leaves the
/// count as it was. Each open is told too, as far as the object counts them.
pub trait Folder {
    ghost use Rattle.folder_io.specs.FolderCalls.{FolderState, WhereTold, CountsFault, is_present, is_got, is_failed_open, is_failed_read, Finds, Takes, FitsRoom};
    ghost use Rattle.folder_io.specs.CallLogs.{Makes};

    /// What the folder tells of itself.
    ghost state: { Self → FolderState };

    /// Opens the file of that name. A file that was open is open no more.
    fn open(&mut self, name: &str) -> Opened
        ensures counts { CountsFault (is_failed_open result) (state self.old).faults (state self.new).faults }
        ensures never_falls { (state self.old).faults ≤ (state self.new).faults }
        ensures failed { (state self.new).failed ≡ is_failed_open result }
        ensures readable { (state self.new).readable ≡ is_present result }
        ensures source { (state self.new).source ≡ (state self.old).source }
        ensures finds { WhereTold (state self.old) (λ contents. Finds (contents name.now) (state self.new).left result) }
        ensures opens { Makes (state self.old).opens (name.now ∷ []) (state self.new).opens };

    /// Reads on in the open file, at most as much as the room takes. It is over with an answer other than bytes: then nothing
    /// is read before a file is opened.
    fn read(&mut self, room: &mut [u8]) -> Piece
        requires is_open { (state self.old).readable ≡ true }
        requires some_room { 0 < length room.old }
        ensures counts { CountsFault (is_failed_read result) (state self.old).faults (state self.new).faults }
        ensures never_falls { (state self.old).faults ≤ (state self.new).faults }
        ensures failed { (state self.new).failed ≡ is_failed_read result }
        ensures readable { (state self.new).readable ≡ is_got result }
        ensures source { (state self.new).source ≡ (state self.old).source }
        ensures fits { FitsRoom (length room.old) result }
        ensures takes { IfSome (state self.old).left (λ bytes. Takes bytes (state self.new).left room.new result) }
        ensures opens { (state self.new).opens ≡ (state self.old).opens };

    /// The count fits a `u64`.
    ghost bounded: { (folder : Self) → (state folder).faults ≤ 2 ^ 64 - 1 };
}
