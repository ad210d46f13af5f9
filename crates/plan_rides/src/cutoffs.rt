//! By when a journey is to end, and the seconds that it takes from stops to its end at least.
ghost use Rattle.std.specs.Prelude.{◌≡◌, ◌-ℤ◌};
ghost use Rattle.plan_rides.specs.Cutoffs.{cutoff_of, is_early, is_span};

use transit_base::{Moment, Secs, StopId};

/// By when a journey is to end, and the seconds that it takes from each stop to its end at least: whoever has fewer left
/// there is too late.
#[derive(Clone, Copy)]
pub struct Cutoff<'p> {
    /// By stop; none where no journey ends in time. At a stop past their end each moment is early enough.
    pub spans: &'p [Option<Secs>],
    pub until: Moment,
}

// Whether the span from the moment on ends by then; none doesn't.
fn ends_by(span: Option<Secs>, at: Moment, until: Moment) -> bool
    ensures { result ≡ is_span span (until.0 -ℤ at.0) }
{
    let Some(span) = span else {
        return false;
    };
    match at.0.checked_add(i64::from(span.0)) {
        Some(end) => end <= until.0,
        None => false,
    }
}

/// Whether the moment is early enough at the stop.
#[tactic(auto, unfolding(crate::specs::Cutoffs::is_span_any))]
pub fn is_early(cutoff: &Cutoff, stop: StopId, at: Moment) -> bool
    ensures { result ≡ is_early (cutoff_of cutoff.now) stop.0 at.0 }
{
    match cutoff.spans.get(stop.0 as usize) {
        Some(span) => ends_by(*span, at, cutoff.until),
        None => true,
    }
}
