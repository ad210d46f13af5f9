//! A sink that keeps nothing of what is written.
ghost use Rattle.std.specs.Prelude.{◌≡◌};

use crate::{Sink, Wrote};

/// A sink that keeps its count of faults, which is the constant 0, and nothing else: it never fails, and doesn't tell what
/// was written.
#[derive(Drop)]
pub struct CountSink {
    faults: u64,
    ghost no_fault: { faults ≡ 0 },
}

impl CountSink {
    ghost use Rattle.folder_io.specs.CountSink.{count_faults};

    /// A sink with nothing written. The count of faults is 0, and stays so.
    pub fn new() -> CountSink
        ensures { count_faults result ≡ 0 }
    {
        CountSink { faults: 0 }
    }
}

impl Sink for CountSink {
    ghost use Rattle.std.specs.Prelude.{◌≡◌};
    ghost use Rattle.folder_io.specs.CountSink.{count_faults, count_sink_state};

    ghost state = { count_sink_state };

    /// Always All.
    fn write(&mut self, piece: &[u8]) -> Wrote
        ensures answer { result ≡ Wrote.All }
        ensures count { count_faults self.new ≡ count_faults self.old }
    {
        let _ = piece;
        Wrote::All
    }

    ghost use Rattle.std.proofs.Common.{arith};

    ghost bounded = { λ sink. Prim.omega (arith, sink.no_fault) };
}
