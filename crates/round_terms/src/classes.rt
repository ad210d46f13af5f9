//! The classes of what is kept of fares.
ghost use Rattle.std.specs.Prelude.{◌≡◌};

use label_order::LabelOrder;
use std::hash::Hash;

/// What is kept of fares, in classes: what is at most another has its class.
pub trait Classed: LabelOrder + Copy {
    ghost use Rattle.std.specs.Prelude.{Option};
    ghost use Rattle.round_terms.specs.Classes.{KeepsClass};

    /// What only fares of one class share.
    type Class: Copy + Eq + Hash;

    ghost class_of: { Self → Option Self.Class };

    /// The class. Those without one are as if of one class, which needs no look-up: their labels are found by their stop alone.
    fn class(&self) -> Option<Self::Class>
        ensures { result ≡ class_of self.now };

    ghost classes: { KeepsClass Self.at_most Self.Class.eq class_of };
}

/// A stop and a class of fares: no label covers one of another stop or class.
#[derive(Clone, Copy, PartialEq, Eq, Hash)]
pub struct StopClass<C> {
    /// The number of the stop.
    pub stop: u32,
    pub class: C,
}
