//! A bag that looks at every member.
ghost use Rattle.std.specs.Prelude.{◌≡◌, ◌-◌, ◌≤◌, [], vec_capacity, vec_len};
ghost use Rattle.label_bag.specs.Bags.{AreApart, not_above};

use crate::bag::{Bag, NoRoom, Offered};
use crate::search::cover_among;
use label_order::LabelOrder;
use std::alloc::{AllocError, Global};

/// A bag in one list, in the order in which the members came.
pub struct ListBag<L: LabelOrder> {
    members: Vec<L>,
    ghost apart: { AreApart L.at_most members.items },
}

// Written out, so that what holds one needn't look into it to let go of it.
impl<L: LabelOrder> Drop for ListBag<L> {
    fn drop(self) {
        let ListBag { members: _ } = self;
    }
}

impl<L: LabelOrder> ListBag<L> {
    /// A bag without members.
    pub fn new(alloc: Global) -> Self
        ensures { ⟦<ListBag<L> as Bag<L>>⟧.content result ≡ [] }
    {
        ListBag {
            members: Vec::new(alloc),
        }
    }

    /// Lets go of the members that the label is at most.
    fn thin(&mut self, label: &L)
        ensures members { self.new.members.items ≡ not_above L.at_most label.now self.old.members.items }
        ensures len { vec_len self.new.members ≤ vec_len self.old.members }
        ensures capacity { vec_capacity self.new.members ≡ vec_capacity self.old.members }
    {
        self.members.retain(|m| !label.leq(m));
    }
}

impl<L: LabelOrder> Bag<L> for ListBag<L> {
    ghost content = { λ b. b.members.items };

    ghost spare = { λ b. vec_capacity b.members - vec_len b.members };

    fn reserve(&mut self, more: usize) -> Result<(), AllocError> {
        self.members.reserve(more)
    }

    fn offer(&mut self, label: L) -> Result<Offered, NoRoom<L>> {
        if let Some(number) = cover_among(&self.members, &label) {
            return Ok(Offered::Covered(number));
        }
        self.thin(&label);
        match self.members.push(label) {
            Ok(()) => Ok(Offered::Kept),
            Err(refused) => Err(NoRoom {
                label: refused.value,
            }),
        }
    }

    fn len(&self) -> usize {
        self.members.len()
    }

    fn member(&self, number: usize) -> &L {
        &self.members[number]
    }

    ghost apart = { λ b. b.apart };
}
