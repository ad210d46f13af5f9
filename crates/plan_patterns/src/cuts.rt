//! Runs by the halts of their trips, and the patterns that they make up.
ghost use Rattle.std.specs.Prelude.{◌≡◌, ◌<◌, length, slice_index_or, All, IfOk, OnOk};
ghost use Rattle.std.specs.List.Sorted.{IsPermutation};
ghost use Rattle.std.specs.Ordering.{is_lt};
ghost use Rattle.plan_patterns.specs.declared.cuts.RunWithHalts.{RunWithHalts};
ghost use Rattle.plan_patterns.specs.Cuts.{AreCut, AreInHaltOrder, ArePatternsOf, AreTogether, AreWithHalts, IsOwn, entry_runs, goes_on};
ghost use Rattle.plan_patterns.specs.Halts.{halts_cmp};
ghost use Rattle.plan_patterns.specs.Runs.{IsKnown};

use crate::halts::{Halt, all_halts};
use crate::pattern::Pattern;
use crate::runs::Run;
use feed_timetable::Timetable;
use item_groups::Groups;
use std::alloc::{AllocError, Global};

/// A run with the halts of its trip, by which it is sorted.
#[derive(Clone, Copy)]
pub struct RunWithHalts<'h> {
    pub halts: &'h [Halt],
    pub run: Run,
}

// The runs, each with the halts that have its number.
fn with_halts<'h>(
    alloc: Global,
    halts: &'h Groups<Halt>,
    runs: &[Run],
) -> Result<Vec<RunWithHalts<'h>>, AllocError>
    requires { length halts.now ≡ length runs.now }
    ensures { IfOk result (λ entries. AreWithHalts halts.now runs.now entries.items) }
{
    let mut entries = Vec::with_capacity(alloc, runs.len())?;
    for number in 0..runs.len() {
        entries.push(RunWithHalts {
            halts: halts.group(number),
            run: runs[number],
        })?;
    }
    Ok(entries)
}

// Puts runs in the order of the halts of their trips.
fn put_in_order(entries: &mut Vec<RunWithHalts>) -> Result<(), AllocError>
    ensures moved { OnOk result (IsPermutation entries.old.items entries.new.items) }
    ensures rises { OnOk result (AreInHaltOrder entries.new.items) }
{
    entries.sort_by_key(|entry| entry.halts)?;
    Ok(())
}

// The runs, each with the halts that have its number, and those with the same halts next to one another.
fn put_together<'h>(
    alloc: Global,
    halts: &'h Groups<Halt>,
    runs: &[Run],
) -> Result<Vec<RunWithHalts<'h>>, AllocError>
    requires { length halts.now ≡ length runs.now }
    ensures { IfOk result (λ together. AreTogether halts.now runs.now together.items) }
{
    let mut entries = with_halts(alloc, halts, runs)?;
    put_in_order(&mut entries)?;
    Ok(entries)
}

// The runs without the halts.
fn runs_of(alloc: Global, entries: &[RunWithHalts]) -> Result<Vec<Run>, AllocError>
    ensures { IfOk result (λ runs. runs.items ≡ entry_runs entries.now) }
{
    let mut runs = Vec::with_capacity(alloc, entries.len())?;
    for entry in entries {
        runs.push(entry.run)?;
    }
    Ok(runs)
}

// Whether the halts of a run's trip come before those of another's.
fn is_before(entry: &RunWithHalts, other: &RunWithHalts) -> bool
    ensures { result ≡ is_lt (halts_cmp entry.now.halts.now other.now.halts.now) }
{
    entry.halts.cmp(other.halts).is_lt()
}

// Whether the run at a place is followed by one of the same pattern.
fn goes_on(entries: &[RunWithHalts], at: usize) -> bool
    requires { at < length entries.now }
    ensures { result ≡ goes_on entries.now at }
{
    at + 1 < entries.len() && !is_before(&entries[at], &entries[at + 1])
}

// The halts of the trip of the run at a place.
fn halts_from<'h>(entries: &[RunWithHalts<'h>], start: usize) -> &'h [Halt]
    requires { start < length entries.now }
    ensures { (d : RunWithHalts) → result.now ≡ (slice_index_or entries.now start d).halts.now }
{
    entries[start].halts
}

// The patterns of runs of which those of trips with the same halts stand next to one another.
fn cut(
    alloc: Global,
    timetable: &Timetable,
    together: &[RunWithHalts],
    runs: &[Run],
) -> Result<Vec<Pattern>, AllocError>
    requires own { All (IsOwn timetable.now) together.now }
    requires rises { AreInHaltOrder together.now }
    requires runs { runs.now ≡ entry_runs together.now }
    ensures { IfOk result (λ patterns. AreCut timetable.now runs.now patterns.items) }
{
    let mut patterns = Vec::new(alloc);
    let mut start = 0;
    for at in 0..together.len() {
        if !goes_on(together, at) {
            let own = halts_from(together, start);
            patterns.push(Pattern::of(alloc, timetable, own, &runs[start..at + 1])?)?;
            start = at + 1;
        }
    }
    Ok(patterns)
}

/// The patterns of runs.
///
/// # Errors
/// Want of memory; so counts that there would be 2^32 runs of a pattern or more.
pub fn patterns_of(
    alloc: Global,
    timetable: &Timetable,
    runs: &[Run],
) -> Result<Vec<Pattern>, AllocError>
    requires { All (IsKnown timetable.now) runs.now }
    ensures { IfOk result (λ patterns. ArePatternsOf timetable.now runs.now patterns.items) }
{
    let halts = all_halts(alloc, timetable, runs)?;
    let together = put_together(alloc, &halts, runs)?;
    let in_order = runs_of(alloc, &together)?;
    cut(alloc, timetable, &together, &in_order)
}
