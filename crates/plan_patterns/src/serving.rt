//! Where patterns serve stops.
ghost use Rattle.std.specs.Prelude.{◌≡◌, ◌++◌, ◌<◌, ◌^◌, length, All, IfOk, OnOk};
ghost use Rattle.plan_patterns.specs.declared.pattern.Pattern.{Pattern};
ghost use Rattle.plan_patterns.specs.Servings.{AreServings, servings_in, grouped_serving, is_pickup, halts_in};

use crate::halts::Halt;
use crate::pattern::Pattern;
use feed_timetable::Timetable;
use item_groups::{Grouped, Groups};
use std::alloc::{AllocError, Global};

/// A position of a pattern, by their numbers.
#[derive(Clone, Copy)]
pub struct Serving {
    pub pattern: u32,
    pub position: u32,
}

// Whether riders may board at a position.
fn is_pickup(halts: &[Halt], position: u32) -> bool
    requires { position < length halts.now }
    ensures { result ≡ is_pickup halts.now position }
{
    halts[position as usize].pickup
}

// A position of a pattern with the number of its stop.
fn grouped_serving(halts: &[Halt], pattern: u32, position: u32) -> Grouped<Serving>
    requires { position < length halts.now }
    ensures { result ≡ grouped_serving halts.now pattern position }
{
    Grouped {
        group: halts[position as usize].stop.0,
        item: Serving { pattern, position },
    }
}

// Appends the positions of a pattern at which riders may board, with the numbers of their stops.
fn add_pattern(
    halts: &[Halt],
    pattern: u32,
    servings: &mut Vec<Grouped<Serving>>,
) -> Result<(), AllocError>
    requires { length halts.now < 2 ^ 32 }
    ensures { OnOk result (servings.new.items ≡ servings.old.items ++ servings_in halts.now pattern) }
{
    for position in 0..halts.len() as u32 {
        if is_pickup(halts, position) {
            servings.push(grouped_serving(halts, pattern, position))?;
        }
    }
    Ok(())
}

/// The positions of patterns at which riders may board, by their stops.
///
/// # Errors
/// Want of memory; so counts that there would be 2^32 patterns or more.
pub fn servings_of(
    alloc: Global,
    timetable: &Timetable,
    patterns: &[Pattern],
) -> Result<Groups<Serving>, AllocError>
    requires { All (λ (p : Pattern). length p.halts.items < 2 ^ 32) patterns.now }
    ensures few { IfOk result (λ servings. length patterns.now < 2 ^ 32) }
    ensures by_stop { IfOk result (λ servings. AreServings (halts_in patterns.now) (length timetable.now.stops) servings) }
{
    if patterns.len() >= 1 << 32 {
        return Err(AllocError);
    }
    let mut servings = Vec::new(alloc);
    for number in 0..patterns.len() as u32 {
        add_pattern(&patterns[number as usize].halts, number, &mut servings)?;
    }
    let stops = timetable.feed().stops.items().len() as u32;
    Groups::of(alloc, servings, stops)
}
