//! What the trips of one pattern have in common: where they call, and what riders may do there.
ghost use Rattle.std.specs.Prelude.{◌≡◌, All, IfOk, map};
ghost use Rattle.std.proofs.Common.{rules};
ghost use Rattle.std.specs.Cmp.{partial_order_from_own_ties};
ghost use Rattle.std.specs.Cmp.Rules.{comparing};
ghost use Rattle.std.specs.Ordering.{as_partial_cmp};
ghost use Rattle.plan_patterns.specs.Halts.{halt_cmp, halt_of, run_halts};
ghost use Rattle.plan_patterns.specs.Runs.{IsKnown};

use crate::runs::Run;
use feed_rows::Call;
use feed_timetable::{Calls, Timetable};
use item_groups::Groups;
use std::alloc::{AllocError, Global};
use std::cmp::Ordering;
use transit_base::StopId;

/// What the trips of a pattern have in common at a position: the stop at which they call, and what riders may do there.
#[derive(Clone, Copy, PartialEq, Eq)]
pub struct Halt {
    pub stop: StopId,
    /// Whether riders may board here.
    pub pickup: bool,
    /// Whether riders may alight here.
    pub drop_off: bool,
}

// Any order serves that puts equal halts next to one another.
impl Ord for Halt {
    ghost cmp = { halt_cmp };

    ghost total = { Prim.search (comparing, rules) };

    ghost matches_partial_cmp = { Prim.search (comparing, rules) };

    ghost matches_eq = { Prim.search (comparing, rules) };

    fn cmp(&self, other: &Halt) -> Ordering {
        self.stop
            .0
            .cmp(&other.stop.0)
            .then(self.pickup.cmp(&other.pickup))
            .then(self.drop_off.cmp(&other.drop_off))
    }
}

impl PartialOrd for Halt {
    ghost partial_cmp = { as_partial_cmp halt_cmp };

    ghost laws = { partial_order_from_own_ties (Prim.search (comparing, rules)) (Prim.search (comparing, rules)) };

    fn partial_cmp(&self, other: &Halt) -> Option<Ordering> {
        Some(self.cmp(other))
    }
}

// The halt of a call.
fn halt_of(call: &Call) -> Halt
    ensures { result ≡ halt_of call.now }
{
    Halt {
        stop: call.stop,
        pickup: call.pickup,
        drop_off: call.drop_off,
    }
}

// The halts of calls.
fn halts_of(alloc: Global, calls: &Calls) -> Result<Vec<Halt>, AllocError>
    ensures { IfOk result (λ halts. halts.items ≡ map halt_of calls.now) }
{
    let mut halts = Vec::with_capacity(alloc, calls.len())?;
    for position in 0..calls.len() {
        halts.push(halt_of(&calls.at(position)))?;
    }
    Ok(halts)
}

/// The halts of the trip of each run, and of no other trip.
///
/// # Errors
/// Want of memory.
pub fn all_halts(
    alloc: Global,
    timetable: &Timetable,
    runs: &[Run],
) -> Result<Groups<Halt>, AllocError>
    requires { All (IsKnown timetable.now) runs.now }
    ensures { IfOk result (λ halts. halts ≡ map (run_halts timetable.now) runs.now) }
{
    let mut halts = Groups::empty(alloc);
    for number in 0..runs.len() {
        let own = halts_of(alloc, &timetable.calls_of(runs[number].trip))?;
        halts.push(&own)?;
    }
    Ok(halts)
}
