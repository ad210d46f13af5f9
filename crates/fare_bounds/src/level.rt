//! What so many further rides add at least.
ghost use Rattle.std.specs.Prelude.{◌*◌};
ghost use Rattle.fare_bounds.specs.Amounts.{AreAmounts};

/// What at most so many further rides add at least, by the place of the last leg's group, in minor units.
pub struct Level {
    /// How many further rides there are at most.
    pub rides: u8,
    /// What they add to what is paid and held.
    pub with_held: Vec<i64>,
    /// What they add to what is paid alone, where they begin with a change that takes back what is held.
    pub without_held: Vec<i64>,
    ghost of_with: { AreAmounts (2 * rides) with_held.items },
    ghost of_without: { AreAmounts (2 * rides) without_held.items },
}

// Written out, so that what holds one needn't look into it to let go of it.
impl Drop for Level {
    fn drop(self) {
        let Level {
            rides: _,
            with_held: _,
            without_held: _,
        } = self;
    }
}

/// What a leg and what follows it, further rides or the journey's end, add at least, in minor units.
#[derive(Clone, Copy)]
pub struct LegCosts {
    /// Where the change to the leg makes it free.
    pub free: i64,
    /// Where the leg is charged, and nothing is held after it.
    pub charged: i64,
    /// Where no change to the leg is arranged, so that its amount is held.
    pub apart: i64,
}
