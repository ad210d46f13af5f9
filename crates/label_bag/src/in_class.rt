//! An offer to labels of one class.
ghost use Rattle.std.specs.Prelude.{◌≡◌, false, [], ◌∷◌, Contains, OnOk, OnErr};
ghost use Rattle.label_bag.specs.Bags.{AreApart, Gathers, IsUncovered, covers};
ghost use Rattle.label_bag.specs.Flights.{IsFlight};

use crate::search::{count_lower, count_up_to, cover_below, replace};
use label_order::Stair;
use std::alloc::AllocError;

/// Whether one of the members of the label's class, which stand in ascending order of height, is at most it.
pub fn is_covered_in_class<L: Stair>(members: &[L], label: &L) -> bool
    requires { IsFlight L.Class.eq L.class_of L.height_of (L.class_of label.now) members.now }
    ensures { result ≡ covers L.at_most members.now label.now }
{
    let up_to = count_up_to(members, label);
    cover_below(members, up_to, label).is_some()
}

/// Adds the label to members of its class, which stand in ascending order of height, of which none is at most another, and none
/// at most the label: it takes its place among them, and the members that it is at most go.
///
/// # Errors
/// Want of memory, which changes no member.
pub fn add_in_class<L: Stair>(members: &mut Vec<L>, label: L) -> Result<(), AllocError>
    requires flight { IsFlight L.Class.eq L.class_of L.height_of (L.class_of label) members.old.items }
    requires apart { AreApart L.at_most members.old.items }
    requires uncovered { IsUncovered L.at_most members.old.items label }
    ensures gathers { OnOk result (Gathers L.at_most members.old.items (label ∷ []) members.new.items) }
    ensures keeps { OnOk result ((x : L) → Contains members.old.items x → L.at_most label x ≡ false → Contains members.new.items x) }
    ensures flight { IsFlight L.Class.eq L.class_of L.height_of (L.class_of label) members.new.items }
    ensures apart { AreApart L.at_most members.new.items }
    ensures err { OnErr result (members.new.items ≡ members.old.items) }
{
    let flight = members.as_slice();
    let up_to = count_up_to(flight, &label);
    let start = count_lower(flight, up_to, &label);
    let end = flight.len();
    match replace(members, start, end, label) {
        Ok(()) => Ok(()),
        Err(_) => Err(AllocError),
    }
}
