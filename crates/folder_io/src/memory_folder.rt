//! A folder in memory whose calls fail where a list says so.
ghost use Rattle.std.specs.Prelude.{◌≡◌, ◌<◌, ◌≤◌, IfOk, IsTrue, false};
ghost use Rattle.folder_io.specs.MemoryCalls.{is_named};

use crate::fault_count::FaultCount;
use crate::{Files, Folder, Opened, Piece, SureFolder};
use std::alloc::{AllocError, Global};

/// A folder in memory that tells what it holds, and whose opens and reads fail where lists say so, and nowhere else.
#[derive(Drop)]
pub struct MemFolder {
    folder: SureFolder,
    failing_opens: Vec<u32>,
    failing_reads: Vec<u32>,
    opens: u64,
    reads: u64,
    faults: FaultCount,
}

impl MemFolder {
    ghost use Rattle.folder_io.specs.KeptFiles.{are_whole};
    ghost use Rattle.folder_io.specs.MemoryFolder.{memory_files, memory_readable, memory_faults, memory_calls};

    /// A folder of these files, none of which is open. The lists name the opens and the reads that fail, each counted from
    /// 1. The count of faults starts with 0.
    ///
    /// # Errors
    /// Want of memory.
    pub fn new(
        alloc: Global,
        files: Files,
        failing_opens: &[u32],
        failing_reads: &[u32],
    ) -> Result<MemFolder, AllocError>
        requires { IsTrue (are_whole files) }
        ensures files { IfOk result (λ folder. memory_files folder ≡ files) }
        ensures calls { IfOk result (λ folder. memory_calls folder ≡ record { failing_opens = failing_opens.now; failing_reads = failing_reads.now; opens_made = 0; reads_made = 0 }) }
        ensures none_open { IfOk result (λ folder. memory_readable folder ≡ false) }
        ensures no_fault { IfOk result (λ folder. memory_faults folder ≡ 0) }
    {
        Ok(MemFolder {
            folder: SureFolder::new(files),
            failing_opens: failing_opens.to_vec(alloc)?,
            failing_reads: failing_reads.to_vec(alloc)?,
            opens: 0,
            reads: 0,
            faults: FaultCount::new(),
        })
    }
}

// Whether the list names the call of that number.
fn names(numbers: &[u32], call: u64) -> bool
    ensures { result ≡ is_named numbers.now call }
{
    numbers.iter().any(|number| *number as u64 == call)
}

impl Folder for MemFolder {
    ghost use Rattle.std.specs.Prelude.{◌≡◌, ◌<◌, ◌≤◌, ◌-◌, ◌^◌, ◌∷◌, [], length, true, false, IfSome};
    ghost use Rattle.folder_io.specs.FolderCalls.{CountsFault, is_present, is_got, is_failed_open, is_failed_read, Finds, Takes, FitsRoom};
    ghost use Rattle.folder_io.specs.MemoryCalls.{opened_of, open_fails, read_fails, after_open, after_read};
    ghost use Rattle.folder_io.specs.MemoryFolder.{memory_files, memory_contents, memory_left, memory_readable, memory_failed, memory_faults, memory_calls, memory_opens, memory_folder_state};
    ghost use Rattle.folder_io.specs.CallLogs.{Makes};

    ghost state = { memory_folder_state };

    /// Failed exactly where the list of opens names the call, else Present exactly where the name is held, else Absent.
    fn open(&mut self, name: &str) -> Opened
        ensures answer { result ≡ opened_of (open_fails (memory_calls self.old)) (memory_contents self.old name.now) }
        ensures calls { memory_calls self.new ≡ after_open (memory_calls self.old) }
        ensures counts { CountsFault (is_failed_open result) (memory_faults self.old) (memory_faults self.new) }
        ensures never_falls { memory_faults self.old ≤ memory_faults self.new }
        ensures failed { memory_failed self.new ≡ is_failed_open result }
        ensures readable { memory_readable self.new ≡ is_present result }
        ensures files { memory_files self.new ≡ memory_files self.old }
        ensures finds { Finds (memory_contents self.old name.now) (memory_left self.new) result }
        ensures opens { Makes (memory_opens self.old) (name.now ∷ []) (memory_opens self.new) }
    {
        self.opens = self.opens.saturating_add(1);
        if names(&self.failing_opens, self.opens) {
            self.faults.fail();
            self.folder.stop();
            return Opened::Failed;
        }
        self.faults.pass();
        self.folder.open(name)
    }

    /// Failed exactly where the list of reads names the call.
    fn read(&mut self, room: &mut [u8]) -> Piece
        requires is_open { memory_readable self.old ≡ true }
        requires some_room { 0 < length room.old }
        ensures fails { is_failed_read result ≡ read_fails (memory_calls self.old) }
        ensures calls { memory_calls self.new ≡ after_read (memory_calls self.old) }
        ensures counts { CountsFault (is_failed_read result) (memory_faults self.old) (memory_faults self.new) }
        ensures never_falls { memory_faults self.old ≤ memory_faults self.new }
        ensures failed { memory_failed self.new ≡ is_failed_read result }
        ensures readable { memory_readable self.new ≡ is_got result }
        ensures files { memory_files self.new ≡ memory_files self.old }
        ensures fits { FitsRoom (length room.old) result }
        ensures takes { IfSome (memory_left self.old) (λ bytes. Takes bytes (memory_left self.new) room.new result) }
    {
        self.reads = self.reads.saturating_add(1);
        if names(&self.failing_reads, self.reads) {
            self.faults.fail();
            self.folder.stop();
            return Piece::Failed;
        }
        self.faults.pass();
        self.folder.read(room)
    }

    ghost use Rattle.std.proofs.Common.{arith};

    ghost bounded = { λ folder. Prim.omega (arith, folder.faults.bounded) };
}
