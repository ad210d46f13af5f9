//! What the lines of one entry have told so far.
ghost use Rattle.std.specs.Prelude.{◌≡◌, OnOk};
ghost use Rattle.ticket_read.specs.Drafts.{empty_draft, gone, with_leg, with_item};

use feed_rows::{ChangeChoice, ChangeChoices, LegChoice, LegChoices, Ride, RideList};
use std::alloc::{AllocError, Global};
use transit_base::StopId;

/// What a line of a text tells.
#[derive(Clone, Copy)]
pub enum Item {
    /// Another entry begins.
    Head,
    /// A walk from one stop to another, or a stay at one stop.
    Walk(StopId, StopId),
    /// A ride, and the stops where it boards and alights.
    Ride(Ride, StopId, StopId),
    /// The rule and the product row of a leg.
    Leg(LegChoice),
    /// The rule and the product row of an arranged change.
    Change(ChangeChoice),
}

/// What the lines of one entry have told so far.
#[derive(Drop)]
pub struct Draft {
    /// Where the first line of the way starts.
    pub first: Option<StopId>,
    /// Where the last line of the way ends.
    pub last: Option<StopId>,
    pub rides: RideList,
    pub legs: LegChoices,
    /// The changes between the legs, each arranged or not.
    pub changes: ChangeChoices,
    /// The change that stands after the last leg, if one does.
    pub after: Option<ChangeChoice>,
}

impl Draft {
    /// The draft before any line.
    pub fn empty(alloc: Global) -> Draft
        ensures { result ≡ empty_draft }
    {
        Draft {
            first: None,
            last: None,
            rides: RideList::empty(alloc),
            legs: LegChoices::empty(alloc),
            changes: ChangeChoices::empty(alloc),
            after: None,
        }
    }

    // Goes from one stop to another.
    fn go(&mut self, from: StopId, to: StopId)
        ensures { self.new ≡ gone self.old from to }
    {
        if self.first.is_none() {
            self.first = Some(from);
        }
        self.last = Some(to);
    }

    // Adds a leg. The change between the leg before it, if there is one, and this one is known by now.
    fn add_leg(&mut self, pick: LegChoice) -> Result<(), AllocError>
        ensures { OnOk result (self.new ≡ with_leg self.old pick) }
    {
        if !self.legs.items().is_empty() {
            self.changes.push(self.after)?;
        }
        self.legs.push(pick)?;
        self.after = None;
        Ok(())
    }

    /// Adds what a line tells.
    ///
    /// # Errors
    /// Want of memory.
    pub fn add(&mut self, item: Item) -> Result<(), AllocError>
        ensures { OnOk result (self.new ≡ with_item self.old item) }
    {
        match item {
            Item::Head => Ok(()),
            Item::Walk(from, to) => {
                self.go(from, to);
                Ok(())
            }
            Item::Ride(ride, from, to) => {
                self.go(from, to);
                self.rides.push(ride)
            }
            Item::Leg(pick) => self.add_leg(pick),
            Item::Change(pick) => {
                self.after = Some(pick);
                Ok(())
            }
        }
    }
}
