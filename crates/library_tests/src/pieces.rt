// A folder's open file, read piece by piece.
use crate::feeds::files_of;
use feed_files::FileName;
use folder_io::{Folder, MemFolder, Opened, Pieces, PiecesEnd};
use std::alloc::{AllocError, Global};
use std::io::Read;

// A file, the read of the folder that fails, the limit, and the room of each read; then the bytes that come, how far the reading
// comes with them, and whether they are text.
type Reading = (
    &'static [u8],
    u32,
    u32,
    usize,
    &'static [u8],
    PiecesEnd,
    bool,
);

const FILE: &[u8] = b"trip_id\nA\n";

const READINGS: [Reading; 16] = [
    (FILE, 99, 100, 7, FILE, PiecesEnd::Ended, true),
    (FILE, 99, 10, 1, FILE, PiecesEnd::Ended, true),
    (FILE, 99, 9, 3, FILE, PiecesEnd::TooLarge, true),
    (FILE, 99, 4, 2, b"trip_", PiecesEnd::TooLarge, true),
    (FILE, 99, 0, 7, b"t", PiecesEnd::TooLarge, true),
    (b"", 99, 0, 3, b"", PiecesEnd::Ended, true),
    // A limit that cuts a character, whose last byte is met exactly, and a character that isn't whole.
    (b"A\xc3\xa9", 99, 1, 7, b"A\xc3", PiecesEnd::TooLarge, false),
    (
        b"A\xc3\xa9",
        99,
        2,
        1,
        b"A\xc3\xa9",
        PiecesEnd::TooLarge,
        true,
    ),
    (
        b"A\xe2\x82",
        99,
        9,
        2,
        b"A\xe2\x82",
        PiecesEnd::Ended,
        false,
    ),
    // A wrong byte in the middle.
    (b"A\xffB", 99, 9, 1, b"A\xffB", PiecesEnd::Ended, false),
    // A read that fails: the first, the third, and one that would tell the end.
    (FILE, 1, 100, 7, b"", PiecesEnd::Failed, true),
    (FILE, 3, 100, 1, b"tr", PiecesEnd::Failed, true),
    (FILE, 3, 100, 3, b"trip_i", PiecesEnd::Failed, true),
    (FILE, 3, 100, 7, FILE, PiecesEnd::Failed, true),
    (FILE, 4, 100, 7, FILE, PiecesEnd::Ended, true),
    // No room, so that nothing is read.
    (FILE, 1, 100, 0, b"", PiecesEnd::Going, true),
];

// The bytes that come into room of so many bytes, up to the first read that gives none.
fn read_through(
    pieces: &mut Pieces<'_, MemFolder>,
    alloc: Global,
    size: usize,
) -> Result<Vec<u8>, AllocError> {
    let mut bytes = Vec::new(alloc);
    let mut room = [0u8; 7];
    for _ in 0..100 {
        let most = size.min(7);
        match pieces.read(&mut room[..most]) {
            Ok(0) | Err(_) => return Ok(bytes),
            Ok(count) => bytes.extend_from_slice(&room[..count])?,
        }
    }
    Ok(bytes)
}

// Whether the file is read so.
fn is_read(folder: &mut MemFolder, alloc: Global, reading: &Reading) -> bool {
    let (_, _, limit, size, wanted, end, is_text) = reading;
    let Opened::Present = folder.open("stop_times.txt") else {
        return false;
    };
    let mut pieces = Pieces::new(folder, *limit);
    match read_through(&mut pieces, alloc, *size) {
        Ok(bytes) => {
            bytes.as_slice() == *wanted && pieces.end() == *end && pieces.is_text() == *is_text
        }
        Err(AllocError) => false,
    }
}

// The same of a folder that has the file.
fn gives(alloc: Global, reading: &Reading) -> bool {
    let (file, failing, ..) = reading;
    let Ok(files) = files_of(alloc, &[(FileName::StopTimes, file)]) else {
        return false;
    };
    match MemFolder::new(alloc, files, &[], &[*failing]) {
        Ok(mut folder) => is_read(&mut folder, alloc, reading),
        Err(AllocError) => false,
    }
}

#[test]
fn readings(rt: HostRuntime) {
    for reading in &READINGS {
        assert!(rt; gives(rt.alloc(), reading));
    }
}
