//! The walks out of each platform.
ghost use Rattle.std.specs.Prelude.{◌≡◌, ◌<◌, ◌≤◌, ◌++◌, ◌==◌, IfOk, OnOk, find, option_map};
ghost use Rattle.std.specs.List.Sorted.{IsNonDecreasingBy};
ghost use Rattle.feed_rows.specs.SoundTimetable.{AreSoundStops};
ghost use Rattle.feed_rows.specs.StopLinks.{link};
ghost use Rattle.feed_walks.specs.Rules.{IsPlace, AreRules, IsStart};
ghost use Rattle.feed_walks.specs.Near.{AreReached, AreNear};
ghost use Rattle.feed_walks.specs.OutOf.{step_list, out_of, walk_steps};

use crate::near::near_of;
use crate::rules::Start;
use feed_rows::{Feed, LinkRow};
use item_groups::Groups;
use std::alloc::{AllocError, Global};
use transit_base::{Secs, StopId};

/// A walk out of a platform.
#[derive(Clone, Copy, PartialEq, Eq)]
pub struct Step {
    /// The platform that it leads to.
    pub to: StopId,
    /// How long it takes.
    pub seconds: Secs,
}

/// The walks out of each stop.
pub fn steps_of(
    alloc: Global,
    feed: &Feed,
    rules: &Groups<LinkRow>,
    reached: &Groups<StopId>,
) -> Result<Groups<Step>, AllocError>
    requires rules { AreRules feed.now.links rules.now }
    requires reached { AreReached feed.now reached.now }
    ensures { IfOk result (λ steps. steps ≡ walk_steps feed.now) }
{
    let count = feed.stops.items().len() as u32;
    let mut steps = Groups::empty(alloc);
    let mut near = Vec::new(alloc);
    let mut out = Vec::new(alloc);
    for from in 0..count {
        near_of(feed, reached, StopId(from), &mut near)?;
        steps_to(feed, rules, StopId(from), near.as_slice(), &mut out)?;
        steps.push(out.as_slice())?;
    }
    Ok(steps)
}

/// Replaces what `steps` holds by the walks to those of the platforms near a stop that there is a walk to.
fn steps_to(
    feed: &Feed,
    rules: &Groups<LinkRow>,
    from: StopId,
    near: &[StopId],
    steps: &mut Vec<Step>,
) -> Result<(), AllocError>
    requires rules { AreRules feed.now.links rules.now }
    requires near { AreNear feed.now from near.now }
    ensures { OnOk result (steps.new.items ≡ out_of feed.now from) }
{
    steps.clear();
    let start = Start::of(feed, rules, from);
    for to in near {
        push_step(steps, feed, &start, *to)?;
    }
    Ok(())
}

/// Adds the step from the one stop to the other, where there is a walk.
fn push_step(
    steps: &mut Vec<Step>,
    feed: &Feed,
    start: &Start,
    to: StopId,
) -> Result<(), AllocError>
    requires { IsStart feed.now start.now }
    ensures { OnOk result (steps.new.items ≡ steps.old.items ++ step_list to (link feed.now start.now.stop to)) }
{
    if let Some(seconds) = start.link(feed, to) {
        steps.push(Step { to, seconds })?;
    }
    Ok(())
}

/// The seconds of the step to the stop, if there is one.
pub fn seconds_to(steps: &[Step], to: StopId) -> Option<Secs>
    ensures { IsNonDecreasingBy (λ (step : Step). step.to.0) steps.now → option_map (λ (s : Secs). s.0) result ≡ option_map (λ (step : Step). step.seconds.0) (find (λ step. step.to.0 == to.0) steps.now) }
{
    let place = place_of(steps, to);
    if place < steps.len() && steps[place].to.0 == to.0 {
        Some(steps[place].seconds)
    } else {
        None
    }
}

/// How many of the steps lead to an earlier stop.
fn place_of(steps: &[Step], to: StopId) -> usize
    ensures { IsNonDecreasingBy (λ (step : Step). step.to.0) steps.now → IsPlace (λ (step : Step). step.to.0) steps.now to.0 result }
{
    steps.partition_point(|step| step.to.0 < to.0)
}
