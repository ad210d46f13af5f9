//! Stretches of time in which rides are looked for.
ghost use Rattle.std.specs.Prelude.{◌≡◌};
ghost use Rattle.plan_patterns.specs.Spans.{IsUsualSpan, seconds_of};

use transit_base::Moment;

/// A stretch of time in which rides are looked for: they depart no earlier than it begins, and arrive no later than it
/// ends. For one query it begins with the departure and is as long as the window; a range of departures ends a window
/// after its last.
#[derive(Clone, Copy)]
pub struct Span {
    pub from: Moment,
    pub until: Moment,
}

impl Span {
    /// How many seconds it is long.
    pub fn seconds(&self) -> u32
        requires usual { IsUsualSpan self.now }
        ensures { result ≡ seconds_of self.now }
    {
        (self.until.0 - self.from.0) as u32
    }
}
