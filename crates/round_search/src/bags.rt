//! The labels of each stop of which none is as good as another.
ghost use Rattle.std.specs.Prelude.{◌≡◌, ◌++◌, ◌<◌, ◌∷◌, [], false, filter, length, Contains, IfOk, None, OnErr, OnOk, Some};
ghost use Rattle.label_bag.specs.Bags.{AreApart, Gathers, IsUncovered, covers as has_cover};
ghost use Rattle.search_laws.specs.Stores.{Takes};
ghost use Rattle.std.specs.Map.{values_of};
ghost use Rattle.round_search.specs.Bags.{IsBag, gathered, has_rides, in_all, in_bags};
ghost use Rattle.round_terms.specs.Labels.{covers};
ghost use Rattle.round_terms.specs.declared.label.Label.{Label};

use indexmap::IndexMap;
use label_bag::{add_in_class, is_covered_in_class};
use label_order::LabelOrder;
use round_terms::{Classed, Label, StopClass};
use std::alloc::{AllocError, Global};
use std::marker::Model;

/// Labels of one stop and class, in ascending order of arrival, of which none covers another. Contracts see a list.
pub struct StopBag<F: LabelOrder + Copy, M: Copy> {
    labels: Vec<Label<F, M>>,
}

// Written out, so that what holds one needn't look into it to let go of it.
impl<F: LabelOrder + Copy, M: Copy> Drop for StopBag<F, M> {
    fn drop(self) {
        let StopBag { labels: _ } = self;
    }
}

impl<F: LabelOrder + Copy, M: Copy> Model for StopBag<F, M> {
    ghost use Rattle.std.specs.Prelude.{List};
    ghost use Rattle.round_terms.specs.declared.label.Label.{Label};

    ghost Value = { List (Label F M) };

    ghost view = { λ s. s.labels.items };
}

impl<F: LabelOrder + Copy, M: Copy> StopBag<F, M> {
    /// No label.
    fn empty(alloc: Global) -> Self
        ensures { result ≡ [] }
    {
        StopBag {
            labels: Vec::new(alloc),
        }
    }

    /// The label alone.
    ///
    /// # Errors
    /// Want of memory.
    fn of(alloc: Global, label: Label<F, M>) -> Result<Self, AllocError>
        ensures { IfOk result (λ bag. bag ≡ label ∷ []) }
    {
        let mut labels = Vec::with_capacity(alloc, 1)?;
        labels.push(label)?;
        Ok(StopBag { labels })
    }

    /// Whether one of the labels covers this one.
    fn covers(&self, label: &Label<F, M>) -> bool
        requires { IsBag F.at_most self.now }
        ensures { result ≡ has_cover (covers F.at_most) self.now label.now }
    {
        is_covered_in_class(&self.labels, label)
    }

    /// Takes the label in, which none covers; those that it covers go, and no other.
    ///
    /// # Errors
    /// Want of memory.
    fn add(&mut self, label: Label<F, M>) -> Result<(), AllocError>
        requires bag { IsBag F.at_most self.old }
        requires uncovered { IsUncovered (covers F.at_most) self.old label }
        ensures gathers { OnOk result (Gathers (covers F.at_most) self.old (label ∷ []) self.new) }
        ensures keeps { OnOk result ((x : Label F M) → Contains self.old x → covers F.at_most label x ≡ false → Contains self.new x) }
        ensures bag { IsBag F.at_most self.new }
        ensures err { OnErr result (self.new ≡ self.old) }
    {
        add_in_class(&mut self.labels, label)
    }

    /// Adds the labels that have so many rides.
    ///
    /// # Errors
    /// Want of memory.
    fn push_into(&self, rides: u8, labels: &mut Vec<Label<F, M>>) -> Result<(), AllocError>
        ensures { OnOk result (labels.new.items ≡ labels.old.items ++ filter (has_rides rides) self.now) }
    {
        for label in self.labels.as_slice() {
            if label.rides == rides {
                labels.push(*label)?;
            }
        }
        Ok(())
    }
}

/// The labels of all stops, of which none covers another: those whose fares have no class in a bag for each stop, and the others in
/// one for each stop and class, which a hash finds. Contracts see a list of labels for each bag.
pub struct StopBags<F: Classed, M: Copy> {
    alloc: Global,
    stops: Vec<StopBag<F, M>>,
    classes: IndexMap<StopClass<F::Class>, StopBag<F, M>>,
}

// Written out, so that what holds one needn't look into it to let go of it.
impl<F: Classed, M: Copy> Drop for StopBags<F, M> {
    fn drop(self) {
        let StopBags {
            alloc: _,
            stops: _,
            classes: _,
        } = self;
    }
}

impl<F: Classed, M: Copy> Model for StopBags<F, M> {
    ghost use Rattle.round_search.specs.Bags.{AreBags, Bags, bags_of};

    ghost Value = { Bags F M };

    ghost view = { λ s. bags_of s.stops.items s.classes.entries };

    ghost invariant = { λ s. AreBags F.at_most F.Class.eq F.class_of s.stops.items s.classes.entries };
}

impl<F: Classed, M: Copy> StopBags<F, M> {
    /// No labels, at so many stops.
    ///
    /// # Errors
    /// Want of memory.
    pub fn empty(alloc: Global, stops: usize) -> Result<Self, AllocError>
        ensures stops { IfOk result (λ bags. length bags.stops ≡ stops) }
        ensures none { IfOk result (λ bags. in_bags bags ≡ []) }
    {
        let mut bags = Vec::with_capacity(alloc, stops)?;
        for _stop in 0..stops {
            bags.push(StopBag::empty(alloc))?;
        }
        Ok(StopBags {
            alloc,
            stops: bags,
            classes: IndexMap::new(alloc),
        })
    }

    /// Takes the label in, unless one covers it; those that it covers go, and no other.
    ///
    /// # Errors
    /// Want of memory.
    // Inlined, so that a label that is covered is never written.
    #[inline(always)]
    pub fn offer(&mut self, label: &Label<F, M>) -> Result<(), AllocError>
        requires { label.now.stop.0 < length self.old.stops }
        ensures takes { OnOk result (Takes (covers F.at_most) (in_bags self.old) label.now (in_bags self.new)) }
        ensures stops { length self.new.stops ≡ length self.old.stops }
    {
        match label.fare.class() {
            None => self.offer_at_stop(label),
            Some(class) => self.offer_in_class(class, label),
        }
    }

    /// The same, of a label without a class.
    #[inline(always)]
    fn offer_at_stop(&mut self, label: &Label<F, M>) -> Result<(), AllocError>
        requires stop { label.now.stop.0 < length self.old.stops }
        requires class { F.class_of label.now.fare ≡ None }
        ensures takes { OnOk result (Takes (covers F.at_most) (in_bags self.old) label.now (in_bags self.new)) }
        ensures stops { length self.new.stops ≡ length self.old.stops }
    {
        let stop = label.stop.0 as usize;
        if self.stops[stop].covers(label) {
            return Ok(());
        }
        self.stops[stop].add(*label)
    }

    /// The same, of a label of this class.
    #[inline(always)]
    fn offer_in_class(&mut self, class: F::Class, label: &Label<F, M>) -> Result<(), AllocError>
        requires { F.class_of label.now.fare ≡ Some class }
        ensures takes { OnOk result (Takes (covers F.at_most) (in_bags self.old) label.now (in_bags self.new)) }
        ensures stops { length self.new.stops ≡ length self.old.stops }
    {
        let key = StopClass {
            stop: label.stop.0,
            class,
        };
        match self.classes.get_index_of(&key) {
            Some(number) => {
                if self.classes[number].covers(label) {
                    return Ok(());
                }
                self.classes[number].add(*label)
            }
            None => {
                let bag = StopBag::of(self.alloc, *label)?;
                self.classes.insert(key, bag)?;
                Ok(())
            }
        }
    }

    /// Adds the labels that have so many rides, bag by bag.
    ///
    /// # Errors
    /// Want of memory.
    pub fn gather(&self, rides: u8, labels: &mut Vec<Label<F, M>>) -> Result<(), AllocError>
        ensures value { OnOk result (labels.new.items ≡ labels.old.items ++ gathered rides (in_bags self.now)) }
        ensures apart { AreApart (covers F.at_most) (in_bags self.now) }
    {
        push_stops(&self.stops, rides, labels)?;
        push_classes(&self.classes, rides, labels)
    }
}

/// Adds the labels of the stops' bags that have so many rides.
fn push_stops<F: LabelOrder + Copy, M: Copy>(
    bags: &Vec<StopBag<F, M>>,
    rides: u8,
    labels: &mut Vec<Label<F, M>>,
) -> Result<(), AllocError>
    ensures { OnOk result (labels.new.items ≡ labels.old.items ++ gathered rides (in_all bags.now.items)) }
{
    for number in 0..bags.len() {
        bags[number].push_into(rides, labels)?;
    }
    Ok(())
}

/// Adds the labels of the bags by class that have so many rides.
fn push_classes<F: Classed, M: Copy>(
    bags: &IndexMap<StopClass<F::Class>, StopBag<F, M>>,
    rides: u8,
    labels: &mut Vec<Label<F, M>>,
) -> Result<(), AllocError>
    ensures { OnOk result (labels.new.items ≡ labels.old.items ++ gathered rides (in_all (values_of bags.now.entries))) }
{
    for number in 0..bags.len() {
        bags[number].push_into(rides, labels)?;
    }
    Ok(())
}
