//! A folder of the system.
ghost use Rattle.std.specs.Prelude.{◌≡◌, ◌↔◌, IfOk, IsTrue, false};

use crate::fault_count::FaultCount;
use crate::{Folder, Opened, Piece};
use std::alloc::{AllocError, Global};
use std::fs;
use std::io::{ErrorKind, Read};
use std::path::{Path, PathBuf};
use std::rt::Files as FileSystem;

/// A folder of the system, by its path. It tells nothing of what it holds.
#[derive(Drop)]
pub struct DirFolder<R: FileSystem + Clone + Drop> {
    rt: R,
    alloc: Global,
    path: PathBuf,
    file: Option<R::File>,
    faults: FaultCount,
}

impl<R: FileSystem + Clone + Drop> DirFolder<R> {
    ghost use Rattle.folder_io.specs.SystemFolder.{system_folder_state, unread_folder};

    /// The folder under that path, which is looked at only when a file is opened. No file is open, and the count of faults
    /// starts with 0.
    ///
    /// # Errors
    /// Want of memory.
    pub fn new(rt: R, alloc: Global, path: &str) -> Result<DirFolder<R>, AllocError>
        ensures { IfOk result (λ folder. system_folder_state folder ≡ unread_folder path.now) }
    {
        Ok(DirFolder {
            rt,
            alloc,
            path: Path::new(path).to_path_buf(alloc)?,
            file: None,
            faults: FaultCount::new(),
        })
    }
}

// Whether an open that came to an error of this kind says that the folder doesn't hold the name: NotFound alone does.
fn is_absent(kind: ErrorKind) -> bool
    ensures { IsTrue result ↔ (kind ≡ ErrorKind.NotFound) }
{
    matches!(kind, ErrorKind::NotFound)
}

impl<R: FileSystem + Clone + Drop> Folder for DirFolder<R> {
    ghost use Rattle.folder_io.specs.SystemFolder.{system_folder_state};

    ghost state = { system_folder_state };

    /// Absent where the system says that nothing is found under the name, and Failed at every other error of the system.
    /// The path takes memory; want of it is no failure of the folder.
    fn open(&mut self, name: &str) -> Opened {
        self.file = None;
        self.faults.pass();
        let Ok(path) = self.path.join(self.alloc, name) else {
            return Opened::NoMemory;
        };
        match fs::open(&self.rt, path.as_path()) {
            Ok(file) => {
                self.file = Some(file);
                Opened::Present
            }
            Err(error) => {
                if is_absent(error.kind()) {
                    return Opened::Absent;
                }
                self.faults.fail();
                Opened::Failed
            }
        }
    }

    fn read(&mut self, room: &mut [u8]) -> Piece {
        self.faults.pass();
        let Some(file) = &mut self.file else {
            return Piece::End;
        };
        match file.read(room) {
            Ok(0) => {
                self.file = None;
                Piece::End
            }
            Ok(count) => Piece::Got(count),
            Err(_) => {
                self.file = None;
                self.faults.fail();
                Piece::Failed
            }
        }
    }

    ghost use Rattle.std.proofs.Common.{arith};

    ghost bounded = { λ folder. Prim.omega (arith, folder.faults.bounded) };
}
