//! Times of stop times.
ghost use Rattle.std.specs.Prelude.{◌≡◌, ◌≤◌};
ghost use Rattle.std.specs.Option.{ForSome};
ghost use Rattle.transit_base.specs.Limits.{most_time};

use std::marker::Model;

/// An arrival or a departure in seconds of the service day, or none. Contracts see it as an `Option`, of which it takes
/// half the bytes.
#[derive(Clone, Copy)]
pub struct CallTime {
    // The seconds and one more, or 0 where there are none.
    code: u32,
}

impl Model for CallTime {
    ghost use Rattle.feed_rows.specs.CallTimes.{seconds_of_code, code_of_seconds, code_is_kept};
    ghost use Rattle.std.specs.Prelude.{ℕ, Option};
    ghost use Rattle.std.proofs.Common.{ap};

    ghost Value = { Option ℕ };

    ghost view = { λ time. seconds_of_code time.code };

    ghost inverse = { λ seconds. record { code = code_of_seconds seconds } };

    ghost inverse_ok = { λ time inside. ap (λ code. record { code = code }) (code_is_kept time.code) };
}

#[tactic(auto, unfolding(crate::specs::CallTimes::seconds_of_code))]
impl CallTime {
    /// The time of so many seconds.
    pub fn of(seconds: Option<u32>) -> CallTime
        requires few { ForSome seconds (λ n. n ≤ most_time) }
        ensures { result ≡ seconds }
    {
        CallTime {
            code: match seconds {
                Some(seconds) => seconds + 1,
                None => 0,
            },
        }
    }

    /// The seconds, where there is a time.
    pub fn seconds(self) -> Option<u32>
        ensures { result ≡ self }
    {
        self.code.checked_sub(1)
    }
}
