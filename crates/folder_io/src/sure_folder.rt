//! A folder in memory that never fails.
ghost use Rattle.std.specs.Prelude.{◌≡◌, ◌<◌, ◌≤◌, IsTrue, length, true, false, None, Some};

use crate::files::file_of;
use crate::{FileBytes, Files, Folder, Opened, Piece};
use feed_files::FileName;

/// A folder in memory that tells what it holds and never fails: its count of faults is the constant 0.
#[derive(Drop)]
pub struct SureFolder {
    files: Files,
    current: Option<FileName>,
    at: usize,
    readable: bool,
}

impl SureFolder {
    ghost use Rattle.folder_io.specs.KeptFiles.{are_whole};
    ghost use Rattle.folder_io.specs.SureFolder.{sure_files, sure_readable, sure_left};

    /// A folder of these files, none of which is open.
    pub fn new(files: Files) -> SureFolder
        requires { IsTrue (are_whole files) }
        ensures files { sure_files result ≡ files }
        ensures none_open { sure_readable result ≡ false }
    {
        SureFolder {
            files,
            current: None,
            at: 0,
            readable: false,
        }
    }

    // Nothing is read from here on, before a file is opened.
    pub(crate) fn stop(&mut self)
        ensures files { sure_files self.new ≡ sure_files self.old }
        ensures left { sure_left self.new ≡ sure_left self.old }
        ensures none_open { sure_readable self.new ≡ false }
    {
        self.readable = false;
    }
}

impl Folder for SureFolder {
    ghost use Rattle.std.specs.Prelude.{◌≡◌, ◌<◌, ◌≤◌, length, true, false, IfSome};
    ghost use Rattle.folder_io.specs.FolderCalls.{is_present, is_got, is_failed_open, is_failed_read, Finds, Takes, FitsRoom};
    ghost use Rattle.folder_io.specs.MemoryCalls.{opened_of};
    ghost use Rattle.folder_io.specs.SureFolder.{sure_files, sure_contents, sure_left, sure_readable, sure_folder_state};

    ghost state = { sure_folder_state };

    /// Present exactly where the name is held, and else Absent.
    fn open(&mut self, name: &str) -> Opened
        ensures answer { result ≡ opened_of false (sure_contents self.old name.now) }
        ensures sure { is_failed_open result ≡ false }
        ensures files { sure_files self.new ≡ sure_files self.old }
        ensures readable { sure_readable self.new ≡ is_present result }
        ensures finds { Finds (sure_contents self.old name.now) (sure_left self.new) result }
    {
        self.current = None;
        self.readable = false;
        let Some(file) = file_of(name) else {
            return Opened::Absent;
        };
        match self.files.get(file) {
            FileBytes::Bytes(_) => {
                self.current = Some(file);
                self.at = 0;
                self.readable = true;
                Opened::Present
            }
            FileBytes::Absent | FileBytes::TooLarge => Opened::Absent,
        }
    }

    fn read(&mut self, room: &mut [u8]) -> Piece
        requires is_open { sure_readable self.old ≡ true }
        requires some_room { 0 < length room.old }
        ensures sure { is_failed_read result ≡ false }
        ensures files { sure_files self.new ≡ sure_files self.old }
        ensures readable { sure_readable self.new ≡ is_got result }
        ensures fits { FitsRoom (length room.old) result }
        ensures takes { IfSome (sure_left self.old) (λ bytes. Takes bytes (sure_left self.new) room.new result) }
    {
        self.readable = false;
        let Some(file) = self.current else {
            return Piece::End;
        };
        let FileBytes::Bytes(text) = self.files.get(file) else {
            return Piece::End;
        };
        let rest = text.bytes().get(self.at..).unwrap_or(&[]);
        let count = rest.len().min(room.len());
        if count == 0 {
            return Piece::End;
        }
        room[..count].copy_from_slice(&rest[..count]);
        self.at += count;
        self.readable = true;
        Piece::Got(count)
    }

    ghost use Rattle.std.proofs.Common.{arith};

    ghost bounded = { λ _. Prim.omega arith };
}
