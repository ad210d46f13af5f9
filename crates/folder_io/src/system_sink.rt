//! Standard output.
ghost use Rattle.std.specs.Prelude.{◌≡◌, ◌<◌, ◌≤◌, ◌^◌};

use crate::fault_count::FaultCount;
use crate::{Sink, Wrote};

/// Standard output. It doesn't tell what was written.
#[derive(Drop)]
pub struct StdSink<R: Print + Clone + Drop> {
    rt: R,
    faults: FaultCount,
}

impl<R: Print + Clone + Drop> StdSink<R> {
    ghost use Rattle.folder_io.specs.SystemSink.{output_state, unwritten_output};

    /// Standard output, with nothing written yet. The count of faults starts with 0.
    pub fn new(rt: R) -> StdSink<R>
        ensures { output_state result ≡ unwritten_output }
    {
        StdSink {
            rt,
            faults: FaultCount::new(),
        }
    }
}

impl<R: Print + Clone + Drop> Sink for StdSink<R> {
    ghost use Rattle.folder_io.specs.SystemSink.{output_state};

    ghost state = { output_state };

    /// Writes until the whole piece was taken. Failed at an error of the system, or where it takes nothing.
    fn write(&mut self, piece: &[u8]) -> Wrote {
        self.faults.pass();
        let mut rest = piece;
        while !rest.is_empty() {
            match self.rt.write_some(rest) {
                Ok(count) if count > 0 => rest = &rest[count..],
                _ => {
                    self.faults.fail();
                    return Wrote::Failed;
                }
            }
        }
        Wrote::All
    }

    ghost use Rattle.std.proofs.Common.{arith};

    ghost bounded = { λ sink. Prim.omega (arith, sink.faults.bounded) };
}
