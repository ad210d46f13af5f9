//! The count of what failed.
ghost use Rattle.std.specs.Prelude.{◌≡◌, ◌<◌, ◌≤◌, ◌^◌, true, false};
ghost use Rattle.feed_files.specs.FaultCounts.{Rose};

// How many calls of an object failed, and whether its last call did. Past its last value the count stands there.
#[derive(Drop)]
pub(crate) struct FaultCount {
    pub(crate) count: u64,
    pub(crate) failed: bool,
    ghost bounded: { count < 2 ^ 64 },
}

impl FaultCount {
    // No call was made.
    pub(crate) fn new() -> FaultCount
        ensures count { result.count ≡ 0 }
        ensures failed { result.failed ≡ false }
    {
        FaultCount {
            count: 0,
            failed: false,
        }
    }

    // The last call went well.
    pub(crate) fn pass(&mut self)
        ensures count { self.new.count ≡ self.old.count }
        ensures failed { self.new.failed ≡ false }
    {
        self.failed = false;
    }

    // The last call failed.
    pub(crate) fn fail(&mut self)
        ensures count { Rose self.old.count self.new.count }
        ensures never_falls { self.old.count ≤ self.new.count }
        ensures failed { self.new.failed ≡ true }
    {
        self.failed = true;
        self.count = self.count.saturating_add(1);
    }
}
