// Feeds from the texts of their files.
ghost use Rattle.std.specs.Prelude.{IfOk, IsTrue};
ghost use Rattle.folder_io.specs.KeptFiles.{are_whole};

use feed_check::load;
use feed_files::FileName;
use feed_rows::Feed;
use folder_io::{ByteText, FileBytes, Files, Folder, Opened, Piece, SureFolder};
use std::alloc::{AllocError, Global};

// As many bytes as are read at a time.
pub const AT_ONCE: usize = 65_536;

// A folder in memory whose reads give at most so many bytes each, and one at least.
#[derive(Drop)]
struct ShortFolder {
    folder: SureFolder,
    most: usize,
}

impl Folder for ShortFolder {
    ghost use Rattle.folder_io.specs.SureFolder.{sure_folder_state};

    ghost state = { λ short. sure_folder_state short.folder };

    fn open(&mut self, name: &str) -> Opened {
        self.folder.open(name)
    }

    fn read(&mut self, room: &mut [u8]) -> Piece {
        let most = room.len().min(self.most).max(1);
        self.folder.read(&mut room[..most])
    }

    ghost use Rattle.std.proofs.Common.{arith};

    ghost bounded = { λ _. Prim.omega arith };
}

// The files with these texts.
pub fn files_of(alloc: Global, texts: &[(FileName, &[u8])]) -> Result<Files, AllocError>
    ensures { IfOk result (λ files. IsTrue (are_whole files)) }
{
    let mut files = Files::empty();
    for (name, text) in texts {
        files.put(*name, FileBytes::Bytes(ByteText::copy_of(alloc, text)?));
    }
    Ok(files)
}

// The feed whose files have these texts, which have no fault, read by at most so many bytes at a time.
pub fn feed_of(
    alloc: Global,
    texts: &[(FileName, &[u8])],
    most: usize,
) -> Result<Feed, AllocError> {
    let folder = SureFolder::new(files_of(alloc, texts)?);
    match load(alloc, &mut ShortFolder { folder, most }) {
        Ok(feed) => Ok(feed),
        Err(_) => Err(AllocError),
    }
}
