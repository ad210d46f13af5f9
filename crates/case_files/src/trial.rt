//! Running a case, and what differs.

use crate::case::Case;
use crate::failing_call::FailingCall;
use folder_io::{MemFolder, MemSink};
use plan_arguments::WordList;
use std::alloc::{AllocError, Global};

/// The program that is tried.
pub trait Program {
    /// Runs the words over a text that is given and a folder, and writes to a sink. Answers the status.
    fn run(
        alloc: Global,
        words: &WordList,
        input: &[u8],
        folder: &mut MemFolder,
        sink: &mut MemSink,
    ) -> u8;
}

// More bytes than any case writes.
const ROOM: u32 = 1_048_576;

/// What a run came to.
#[derive(Drop)]
pub struct Outcome {
    /// The number of the run, counted from 0.
    pub run: usize,
    pub status: u8,
    /// What was written.
    pub sink: MemSink,
}

/// The first run of the case that came to something else than it says, if there is one.
///
/// # Errors
/// Want of memory.
pub fn first_difference<P: Program>(
    alloc: Global,
    case: &Case,
) -> Result<Option<Outcome>, AllocError> {
    let calls = case.failing_calls();
    for run in 0..calls.len() {
        let came = outcome_of::<P>(alloc, case, run, calls[run])?;
        if !case.is_met(came.status, came.sink.bytes()) {
            return Ok(Some(came));
        }
    }
    Ok(None)
}

// What the case comes to in the run of that number, where that call fails.
fn outcome_of<P: Program>(
    alloc: Global,
    case: &Case,
    run: usize,
    call: FailingCall,
) -> Result<Outcome, AllocError> {
    let mut sink = MemSink::new(alloc, ROOM, call.write.as_slice())?;
    let files = case.files(alloc)?;
    let mut folder = MemFolder::new(alloc, files, call.open.as_slice(), call.read.as_slice())?;
    let status = P::run(alloc, case.words(), case.input(), &mut folder, &mut sink);
    Ok(Outcome { run, status, sink })
}
