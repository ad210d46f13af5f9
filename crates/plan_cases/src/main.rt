//! Tries the program on cases that are files: words, a feed, and what must come.
//!
//! The words are a folder with the folders `cases` and `feeds`, and then the names of the cases that are tried, all where there are
//! none. A line is printed of each case that differs, and at the end how many were tried and differ.
#![tactic(auto)]

use anyhow::Result;
use case_files::{Program, try_named};
use folder_io::{MemFolder, MemSink};
use plan_app::{WordList, run};
use std::alloc::Global;
use std::process::ExitCode;

// The program.
struct Farewise;

impl Program for Farewise {
    fn run(
        alloc: Global,
        words: &WordList,
        _input: &[u8],
        folder: &mut MemFolder,
        sink: &mut MemSink,
    ) -> u8 {
        run(alloc, words, folder, sink).number()
    }
}

fn main(rt: HostRuntime) -> Result<ExitCode> {
    Ok(if try_named::<Farewise>(&rt)? {
        ExitCode::SUCCESS
    } else {
        ExitCode::FAILURE
    })
}
