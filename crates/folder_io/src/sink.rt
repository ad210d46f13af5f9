//! A sink that texts are written to.
ghost use Rattle.std.specs.Prelude.{◌≡◌, ◌≤◌, ◌^◌, ◌-◌, ◌∷◌, []};

/// What a write answers.
#[derive(Clone, Copy, PartialEq, Eq)]
pub enum Wrote {
    /// The whole piece was written.
    All,
    /// The sink failed, and counted it. A first part of the piece may have been written.
    Failed,
}

/// What pieces of bytes are written to, one behind the other.
///
/// What was written is told where the object can tell it, as those in memory do. Every failure is counted: a write answers
/// Failed only where the count of faults rose, and any other answer leaves the count as it was. Each write is told too, as
/// far as the object counts them.
pub trait Sink {
    ghost use Rattle.folder_io.specs.SinkCalls.{SinkState, is_failed_write, Writes};
    ghost use Rattle.folder_io.specs.FolderCalls.{CountsFault};
    ghost use Rattle.folder_io.specs.CallLogs.{Makes};

    /// What the sink tells of itself.
    ghost state: { Self → SinkState };

    /// Writes the piece behind what was written so far.
    fn write(&mut self, piece: &[u8]) -> Wrote
        ensures counts { CountsFault (is_failed_write result) (state self.old).faults (state self.new).faults }
        ensures never_falls { (state self.old).faults ≤ (state self.new).faults }
        ensures failed { (state self.new).failed ≡ is_failed_write result }
        ensures written { Writes (state self.old).written (state self.new).written piece.now result }
        ensures writes { Makes (state self.old).writes (piece.now ∷ []) (state self.new).writes };

    /// The count fits a `u64`.
    ghost bounded: { (sink : Self) → (state sink).faults ≤ 2 ^ 64 - 1 };
}
