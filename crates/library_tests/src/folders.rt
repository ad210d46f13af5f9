// The folder and the output of the system, where all goes well and where a call fails, and a sink that only libraries take.
use feed_files::FileName;
use folder_io::{DirFolder, FileBytes, ReadError, Sink, StdSink, SureSink, Wrote, read_file};
use std::alloc::{AllocError, Global};
use std::fmt::Display;
use std::io::ErrorKind;
use std::{fs, io};

// Whether a sink with room for three bytes takes three and no more.
fn takes_three(alloc: Global) -> bool {
    match SureSink::new(alloc, 3) {
        Ok(mut sink) => sink.write(b"abc") == Wrote::All && sink.write(b"d") == Wrote::Failed,
        Err(AllocError) => false,
    }
}

// An output that takes one byte of a piece at a time, and fails where no more than so many are left of it.
#[derive(Clone, Copy)]
struct NarrowOutput {
    fails_at: usize,
}

impl Print for NarrowOutput {
    fn print<D: Display + Drop>(&self, _value: D) -> io::Result<()> {
        Err(io::Error::from(ErrorKind::Unsupported))
    }

    fn println<D: Display + Drop>(&self, _value: D) -> io::Result<()> {
        Err(io::Error::from(ErrorKind::Unsupported))
    }

    fn write_all(&self, _bytes: &[u8]) -> io::Result<()> {
        Err(io::Error::from(ErrorKind::Unsupported))
    }

    fn write_some(&self, bytes: &[u8]) -> io::Result<usize> {
        if bytes.len() <= self.fails_at {
            return Err(io::Error::from(ErrorKind::StorageFull));
        }
        Ok(1)
    }
}

// What is answered to three bytes where an output fails never, before the last byte, after one, and at once.
const ANSWERS: [Wrote; 4] = [Wrote::All, Wrote::Failed, Wrote::Failed, Wrote::Failed];

#[test]
fn sinks_that_fail(rt: HostRuntime) {
    assert!(rt; takes_three(rt.alloc()));
    for (fails_at, answer) in ANSWERS.iter().enumerate() {
        assert!(rt; StdSink::new(NarrowOutput { fails_at }).write(b"abc") == *answer);
    }
}

// What a read gave.
#[derive(Clone, Copy, PartialEq, Eq)]
enum Read {
    Wanted,
    Others,
    Absent,
    TooLarge,
    Failed,
}

// So many bytes, in which what one read gives starts with another byte than what the next gives.
fn many_bytes(alloc: Global, count: u32) -> Result<Vec<u8>, AllocError> {
    let mut bytes = Vec::new(alloc);
    for place in 0..count {
        bytes.push((place % 251) as u8)?;
    }
    Ok(bytes)
}

// What the file of the stops holds, and how long a large file is.
const STOPS: &[u8] = b"stop_id\nA\n";

const LARGE: u32 = 1_100_000;

// Makes a folder of the system with a file, a folder in the place of a file, and a large file.
fn make_folder(rt: HostRuntime, large: &[u8]) -> io::Result<()> {
    let _ = fs::remove_dir_all(&rt, "folder_io_test");
    fs::create_dir(&rt, "folder_io_test")?;
    fs::create_dir(&rt, "folder_io_test/trips.txt")?;
    fs::write(&rt, "folder_io_test/stops.txt", STOPS)?;
    fs::write(&rt, "folder_io_test/stop_times.txt", large)
}

// What a file that was read holds, where these bytes are wanted.
fn read_of(file: &FileBytes, wanted: &[u8]) -> Read {
    match file {
        FileBytes::Absent => Read::Absent,
        FileBytes::TooLarge => Read::TooLarge,
        FileBytes::Bytes(text) if text.bytes() == wanted => Read::Wanted,
        FileBytes::Bytes(_) => Read::Others,
    }
}

// What the read of a file in a folder of the system gives.
fn read_in(rt: HostRuntime, path: &str, name: FileName, limit: u32, wanted: &[u8]) -> Option<Read> {
    let Ok(mut folder) = DirFolder::new(rt, rt.alloc(), path) else {
        return None;
    };
    match read_file(rt.alloc(), &mut folder, name, limit) {
        Ok(file) => Some(read_of(&file, wanted)),
        Err(ReadError::ReadFault) => Some(Read::Failed),
        Err(ReadError::NoMemory) => None,
    }
}

// What the reads of names in folders give, of at most so many bytes.
const READS: [(&str, FileName, u32, Read); 6] = [
    ("folder_io_test", FileName::Stops, 10, Read::Wanted),
    ("folder_io_test", FileName::Stops, 9, Read::TooLarge),
    // A name that isn't found is absent, and so is a folder's every name where the folder isn't found.
    ("folder_io_test", FileName::Routes, 9, Read::Absent),
    ("folder_io_test/nowhere", FileName::Stops, 9, Read::Absent),
    // A file that is a folder can't be read, and a path through a file that is none can't be opened.
    ("folder_io_test", FileName::Trips, 9, Read::Failed),
    ("folder_io_test/stops.txt", FileName::Stops, 9, Read::Failed),
];

// Whether they do.
fn are_read(rt: HostRuntime) -> bool {
    for (path, name, limit, want) in &READS {
        if read_in(rt, path, *name, *limit, STOPS) != Some(*want) {
            return false;
        }
    }
    true
}

#[test]
fn folder_of_the_system(rt: HostRuntime) -> io::Result<()> {
    let large = many_bytes(rt.alloc(), LARGE)?;
    make_folder(rt, &large)?;
    let whole = read_in(rt, "folder_io_test", FileName::StopTimes, LARGE, &large);
    assert!(rt; are_read(rt) && whole == Some(Read::Wanted));
    fs::remove_dir_all(&rt, "folder_io_test")
}
