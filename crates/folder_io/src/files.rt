//! The bytes of a feed's files.
ghost use Rattle.std.specs.Prelude.{◌≡◌, ◌≢◌, ◌<◌, List, ℕ, length, IfOk, IsTrue, Some, slice_set, replicate, true};
ghost use Rattle.folder_io.specs.FilePlaces.{place, file_named};

use feed_files::FileName;
use std::alloc::{AllocError, Global};
use std::marker::Model;

/// How many files a feed has.
pub const FILE_COUNT: usize = 19;

/// The place of stop_times.txt among them, in the order of [`FileName::all`].
pub const STOP_TIMES_PLACE: usize = 3;

/// The place of the file behind stop_times.txt.
pub const PLACE_BEHIND: usize = 4;

/// Bytes that are kept. Contracts see them as a list.
#[derive(Drop)]
pub struct ByteText {
    bytes: Vec<u8>,
}

impl Model for ByteText {
    ghost use Rattle.std.specs.Prelude.{List, ℕ};

    ghost Value = { List ℕ };

    ghost view = { λ text. text.bytes.items };
}

impl ByteText {
    /// A copy of the bytes.
    ///
    /// # Errors
    /// Want of memory.
    pub fn copy_of(alloc: Global, bytes: &[u8]) -> Result<ByteText, AllocError>
        ensures { IfOk result (λ text. text ≡ bytes.now) }
    {
        Ok(ByteText {
            bytes: Vec::from_slice(alloc, bytes)?,
        })
    }

    // The bytes themselves, without a copy.
    pub(crate) fn of(bytes: Vec<u8>) -> ByteText
        ensures { result ≡ bytes.items }
    {
        ByteText { bytes }
    }

    /// The bytes.
    pub fn bytes(&self) -> &[u8]
        ensures { result.now ≡ self.now }
    {
        self.bytes.as_slice()
    }
}

/// What is known of a file.
#[derive(Drop)]
pub enum FileBytes {
    /// The folder doesn't hold the file.
    Absent,
    /// The file has more bytes than are read.
    TooLarge,
    /// The file's bytes.
    Bytes(ByteText),
}

/// What is known of each file of a feed. Contracts see it as the list of what is known, in the order of
/// [`FileName::all`].
pub struct Files {
    files: [FileBytes; FILE_COUNT],
}

// Written out, so that what holds one needn't look into it to let go of it.
impl Drop for Files {
    fn drop(self) {
        let Files { files: _ } = self;
    }
}

impl Model for Files {
    ghost use Rattle.std.specs.Prelude.{◌≡◌, List, length};
    ghost use Rattle.folder_io.specs.declared.files.FileBytes.{FileBytes};

    ghost Value = { List FileBytes };

    ghost view = { λ files. files.files };
}

impl Files {
    ghost use Rattle.folder_io.specs.KeptFiles.{file_in, is_whole, are_whole};

    /// No file is there.
    pub fn empty() -> Files
        ensures { result ≡ replicate FILE_COUNT FileBytes.Absent }
    {
        Files {
            files: [
                FileBytes::Absent,
                FileBytes::Absent,
                FileBytes::Absent,
                FileBytes::Absent,
                FileBytes::Absent,
                FileBytes::Absent,
                FileBytes::Absent,
                FileBytes::Absent,
                FileBytes::Absent,
                FileBytes::Absent,
                FileBytes::Absent,
                FileBytes::Absent,
                FileBytes::Absent,
                FileBytes::Absent,
                FileBytes::Absent,
                FileBytes::Absent,
                FileBytes::Absent,
                FileBytes::Absent,
                FileBytes::Absent,
            ],
        }
    }

    /// Replaces what is known of the file.
    #[tactic(auto, using(crate::proofs::WholeLaws::whole_put))]
    pub fn put(&mut self, name: FileName, bytes: FileBytes)
        ensures list { self.new ≡ slice_set self.old (place name) bytes }
        ensures value { file_in self.new name ≡ bytes }
        ensures others { (other : FileName) → place other ≢ place name → file_in self.new other ≡ file_in self.old other }
        ensures whole { are_whole self.old ≡ true → is_whole bytes ≡ true → are_whole self.new ≡ true }
    {
        self.files[name as usize] = bytes;
    }

    // Replaces what is known of the file at that place.
    pub(crate) fn put_at(&mut self, place: usize, bytes: FileBytes)
        requires { place < FILE_COUNT }
        ensures value { self.new ≡ slice_set self.old place bytes }
        ensures size { length self.new ≡ FILE_COUNT }
    {
        self.files[place] = bytes;
    }

    /// What is known of the file.
    pub fn get(&self, name: FileName) -> &FileBytes
        ensures { result.now ≡ file_in self.now name }
    {
        &self.files[name as usize]
    }
}

// The file of that name, if it is one of a feed.
pub(crate) fn file_of(name: &str) -> Option<FileName>
    ensures { result ≡ file_named name.now }
{
    FileName::all()
        .iter()
        .copied()
        .find(|file| file.text() == name)
}
