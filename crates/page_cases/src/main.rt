//! Tries the page on cases that are files: words, the text of an answer, the files that give names, and what one reads on the page.
//!
//! The words are a folder with the folders `cases` and `feeds`, and then the names of the cases that are tried, all where there are
//! none. A line is printed of each case that differs, and at the end how many were tried and differ. What a case wants is written
//! by `tools/page-cases`, a program in another language that knows of the page what docs/FORMATS.md says, and nothing else.
#![tactic(auto)]

mod reader_text;

use answer_page::{Shown, read_names, show};
use anyhow::Result;
use case_files::{Program, try_named};
use folder_io::{MemFolder, MemSink, ReadError, Sink, Wrote};
use plan_arguments::WordList;
use reader_text::reader_text;
use std::alloc::Global;
use std::process::ExitCode;

// More bytes than the page of any case has.
const ROOM: u32 = 1_048_576;

// The status of a run that wanted memory.
const NO_MEMORY: u8 = 6;

// The page, read as text.
struct Page;

impl Program for Page {
    fn run(
        alloc: Global,
        words: &WordList,
        input: &[u8],
        folder: &mut MemFolder,
        sink: &mut MemSink,
    ) -> u8 {
        match read_page(alloc, words, input, folder, sink) {
            Ok(status) => status,
            Err(ReadError::ReadFault) => 4,
            Err(ReadError::NoMemory) => NO_MEMORY,
        }
    }
}

// Shows the text, and writes what one reads on its page, or which line is refused and that nothing was written.
fn read_page(
    alloc: Global,
    words: &WordList,
    input: &[u8],
    folder: &mut MemFolder,
    sink: &mut MemSink,
) -> Result<u8, ReadError> {
    let names = read_names(alloc, folder)?;
    let mut page = MemSink::new(alloc, ROOM, &[])?;
    Ok(match show(alloc, input, words, &names, &mut page) {
        Shown::Whole => written(sink, reader_text(alloc, page.bytes())?.as_slice(), 0),
        Shown::Refused(line) => {
            let text = format!(in alloc; "refused {line}\n")?;
            let status = if page.bytes().is_empty() { 3 } else { 0 };
            written(sink, text.as_bytes(), status)
        }
        Shown::WriteFault => 5,
        Shown::NoMemory => NO_MEMORY,
    })
}

// Writes a text; the status behind it.
fn written(sink: &mut MemSink, text: &[u8], status: u8) -> u8 {
    match sink.write(text) {
        Wrote::All => status,
        Wrote::Failed => 5,
    }
}

fn main(rt: HostRuntime) -> Result<ExitCode> {
    Ok(if try_named::<Page>(&rt)? {
        ExitCode::SUCCESS
    } else {
        ExitCode::FAILURE
    })
}
