//! Where a number stands between two others.
ghost use Rattle.std.specs.Prelude.{◌≡◌};
ghost use Rattle.answer_page.specs.Scales.{narrowest, rest_of, share_of, widened, width_of};

/// From the least of some numbers to the greatest.
#[derive(Clone, Copy)]
pub struct Scale {
    pub start: i64,
    pub end: i64,
}

impl Scale {
    /// That of no numbers.
    pub fn none() -> Scale
        ensures { result ≡ narrowest }
    {
        Scale {
            start: i64::MAX,
            end: i64::MIN,
        }
    }

    /// The scale of two numbers more.
    pub fn with(self, low: i64, high: i64) -> Scale
        ensures { result ≡ widened self low high }
    {
        Scale {
            start: if low < self.start { low } else { self.start },
            end: if self.end < high { high } else { self.end },
        }
    }

    /// How many thousandths of the scale lie below a number: none at its start and before it, and all at its end and past it.
    #[tactic(auto, unfolding(crate::specs::Scales::share_of))]
    pub fn share(self, at: i64) -> u32
        ensures { result ≡ share_of self at }
    {
        if at <= self.start || self.end <= self.start {
            return 0;
        }
        let part = u128::from(at.abs_diff(self.start));
        let whole = u128::from(self.end.abs_diff(self.start));
        let share = part * 1000 / whole;
        if share < 1000 { share as u32 } else { 1000 }
    }

    /// How many thousandths lie above a number.
    pub fn rest(self, at: i64) -> u32
        ensures { result ≡ rest_of self at }
    {
        1000u32.saturating_sub(self.share(at))
    }

    /// How many thousandths lie between two numbers, the second of which is the greater one.
    pub fn width(self, from: i64, to: i64) -> u32
        ensures { result ≡ width_of self from to }
    {
        self.share(to).saturating_sub(self.share(from))
    }
}
