//! A sink in memory whose writes fail where a list says so.
ghost use Rattle.std.specs.Prelude.{◌≡◌, [], IfOk, false, option_map};
ghost use Rattle.folder_io.specs.CutWrites.{first_cut};

use crate::fault_count::FaultCount;
use crate::room::Room;
use crate::{Sink, Wrote};
use std::alloc::{AllocError, Global};

/// A write that fails.
#[derive(Clone, Copy, PartialEq, Eq)]
pub struct Cut {
    /// The number of the write, counted from 1.
    pub call: u32,
    /// How many bytes of its piece are kept, at most all.
    pub kept: u32,
}

/// A sink in memory that tells what was written. A write fails where a list says so or where the piece doesn't fit what is
/// left of the room, and nowhere else.
#[derive(Drop)]
pub struct MemSink {
    room: Room,
    cuts: Vec<Cut>,
    writes: u64,
    faults: FaultCount,
}

impl MemSink {
    ghost use Rattle.folder_io.specs.MemorySink.{memory_written, memory_room, memory_cuts, memory_sink_faults};

    /// A sink with room for so many bytes and nothing written. The list names the writes that fail; of two cuts of one
    /// write the first counts. The count of faults starts with 0.
    ///
    /// # Errors
    /// Want of memory.
    pub fn new(alloc: Global, room: u32, failing_writes: &[Cut]) -> Result<MemSink, AllocError>
        ensures written { IfOk result (λ sink. memory_written sink ≡ []) }
        ensures room { IfOk result (λ sink. memory_room sink ≡ room) }
        ensures cuts { IfOk result (λ sink. memory_cuts sink ≡ record { cuts = failing_writes.now; writes_made = 0 }) }
        ensures no_fault { IfOk result (λ sink. memory_sink_faults sink ≡ 0) }
    {
        Ok(MemSink {
            room: Room::new(alloc, room)?,
            cuts: failing_writes.to_vec(alloc)?,
            writes: 0,
            faults: FaultCount::new(),
        })
    }

    /// What was written.
    pub fn bytes(&self) -> &[u8]
        ensures { result.now ≡ memory_written self.now }
    {
        self.room.bytes()
    }
}

// The first cut of that write, if there is one.
fn cut_of(cuts: &[Cut], call: u64) -> Option<Cut>
    ensures { result ≡ first_cut cuts.now call }
{
    cuts.iter().copied().find(|cut| cut.call as u64 == call)
}

impl Sink for MemSink {
    ghost use Rattle.std.specs.Prelude.{◌≡◌, ◌<◌, ◌≤◌, ◌-◌, ◌^◌, ◌++◌, ◌∷◌, [], Some, length};
    ghost use Rattle.folder_io.specs.FolderCalls.{CountsFault};
    ghost use Rattle.folder_io.specs.SinkCalls.{is_failed_write, Writes, has_room_for};
    ghost use Rattle.folder_io.specs.CutWrites.{next_cut, after_write, cut_answer, kept_bytes};
    ghost use Rattle.folder_io.specs.MemorySink.{memory_written, memory_room, memory_cuts, memory_sink_failed, memory_sink_faults, memory_writes, memory_sink_state};
    ghost use Rattle.folder_io.specs.CallLogs.{Makes};

    ghost state = { memory_sink_state };

    /// Failed exactly where a cut names the write, which keeps so much of the piece as the cut says, or where the piece
    /// doesn't fit what is left of the room, which keeps nothing of it. Takes no memory.
    fn write(&mut self, piece: &[u8]) -> Wrote
        ensures answer { result ≡ cut_answer (has_room_for (memory_room self.old) (memory_written self.old) piece.now) (next_cut (memory_cuts self.old)) }
        ensures bytes { memory_written self.new ≡ memory_written self.old ++ kept_bytes (has_room_for (memory_room self.old) (memory_written self.old) piece.now) (next_cut (memory_cuts self.old)) piece.now }
        ensures cuts { memory_cuts self.new ≡ after_write (memory_cuts self.old) }
        ensures room { memory_room self.new ≡ memory_room self.old }
        ensures counts { CountsFault (is_failed_write result) (memory_sink_faults self.old) (memory_sink_faults self.new) }
        ensures never_falls { memory_sink_faults self.old ≤ memory_sink_faults self.new }
        ensures failed { memory_sink_failed self.new ≡ is_failed_write result }
        ensures written { Writes (Some (memory_written self.old)) (Some (memory_written self.new)) piece.now result }
        ensures writes { Makes (memory_writes self.old) (piece.now ∷ []) (memory_writes self.new) }
    {
        self.writes = self.writes.saturating_add(1);
        if !self.room.fits(piece) {
            self.faults.fail();
            return Wrote::Failed;
        }
        if let Some(cut) = cut_of(&self.cuts, self.writes) {
            self.room.put(&piece[..piece.len().min(cut.kept as usize)]);
            self.faults.fail();
            return Wrote::Failed;
        }
        self.faults.pass();
        self.room.put(piece);
        Wrote::All
    }

    ghost use Rattle.std.proofs.Common.{arith};

    ghost bounded = { λ sink. Prim.omega (arith, sink.faults.bounded) };
}
