//! A sink in memory that fails only where a piece doesn't fit.
ghost use Rattle.std.specs.Prelude.{◌≡◌, [], IfOk, false};

use crate::fault_count::FaultCount;
use crate::room::Room;
use crate::{Sink, Wrote};
use std::alloc::{AllocError, Global};

/// A sink in memory that tells what was written, and fails only where a piece doesn't fit what is left of its room.
#[derive(Drop)]
pub struct SureSink {
    room: Room,
    faults: FaultCount,
}

impl SureSink {
    ghost use Rattle.folder_io.specs.SureSink.{sure_written, sure_room, sure_faults};

    /// A sink with room for so many bytes and nothing written. The count of faults starts with 0.
    ///
    /// # Errors
    /// Want of memory.
    pub fn new(alloc: Global, room: u32) -> Result<SureSink, AllocError>
        ensures written { IfOk result (λ sink. sure_written sink ≡ []) }
        ensures room { IfOk result (λ sink. sure_room sink ≡ room) }
        ensures no_fault { IfOk result (λ sink. sure_faults sink ≡ 0) }
    {
        Ok(SureSink {
            room: Room::new(alloc, room)?,
            faults: FaultCount::new(),
        })
    }
}

impl Sink for SureSink {
    ghost use Rattle.std.specs.Prelude.{◌≡◌, ◌<◌, ◌≤◌, ◌-◌, ◌^◌, ◌++◌, Some, length};
    ghost use Rattle.folder_io.specs.FolderCalls.{CountsFault};
    ghost use Rattle.folder_io.specs.SinkCalls.{is_failed_write, Writes, has_room_for, whole_or_none, wrote_of};
    ghost use Rattle.folder_io.specs.SureSink.{sure_written, sure_room, sure_failed, sure_faults, sure_sink_state};

    ghost state = { sure_sink_state };

    /// All exactly where the piece fits what is left of the room; else nothing of it is kept. Takes no memory.
    fn write(&mut self, piece: &[u8]) -> Wrote
        ensures answer { result ≡ wrote_of (has_room_for (sure_room self.old) (sure_written self.old) piece.now) }
        ensures bytes { sure_written self.new ≡ sure_written self.old ++ whole_or_none (has_room_for (sure_room self.old) (sure_written self.old) piece.now) piece.now }
        ensures room { sure_room self.new ≡ sure_room self.old }
        ensures counts { CountsFault (is_failed_write result) (sure_faults self.old) (sure_faults self.new) }
        ensures never_falls { sure_faults self.old ≤ sure_faults self.new }
        ensures failed { sure_failed self.new ≡ is_failed_write result }
        ensures written { Writes (Some (sure_written self.old)) (Some (sure_written self.new)) piece.now result }
    {
        if !self.room.fits(piece) {
            self.faults.fail();
            return Wrote::Failed;
        }
        self.faults.pass();
        self.room.put(piece);
        Wrote::All
    }

    ghost use Rattle.std.proofs.Common.{arith};

    ghost bounded = { λ sink. Prim.omega (arith, sink.faults.bounded) };
}
