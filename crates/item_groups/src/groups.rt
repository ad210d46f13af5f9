//! Lists in one vector: items in numbered groups, one group after another.
ghost use Rattle.std.specs.Prelude.{◌≡◌, ◌+◌, ◌^◌, ◌++◌, ◌∷◌, ◌<◌, length, get_or, IfOk, OnOk, OnErr, Some, slice_get, unwrap_or, []};
ghost use Rattle.plain_laws.specs.Plain.{joined_below};
ghost use Rattle.item_groups.specs.Groups.{group_of, groups_below, AreChains};
ghost use Rattle.item_groups.specs.Parts.{parts, Rise};

use crate::parts::{part_of, push_end};
use std::alloc::{AllocError, Global};
use std::marker::Model;

/// An item, and the number of the group that it belongs to.
#[derive(Clone, Copy)]
pub struct Grouped<T> {
    /// The number of the group.
    pub group: u32,
    pub item: T,
}

/// Items in groups that are numbered from 0: lists that are kept flat. In a group items stand in the order in which they
/// came. Contracts see it as the list of the groups.
pub struct Groups<T> {
    /// Where each group ends among the items.
    ends: Vec<u32>,
    items: Vec<T>,
}

// Written out, so that what holds one needn't look into it to let go of it.
impl<T: Drop> Drop for Groups<T> {
    fn drop(self) {
        let Groups { ends: _, items: _ } = self;
    }
}

impl<T> Model for Groups<T> {
    ghost use Rattle.std.specs.Prelude.{List, length};
    ghost use Rattle.item_groups.specs.Parts.{parts, Rise};

    ghost Value = { List (List T) };

    ghost view = { λ s. parts 0 s.ends.items s.items.items };

    ghost invariant = { λ s. Rise 0 s.ends.items (length s.items.items) };
}

impl<T: Drop> Groups<T> {
    /// No groups.
    pub fn empty(alloc: Global) -> Groups<T>
        ensures { result ≡ [] }
    {
        Groups {
            ends: Vec::new(alloc),
            items: Vec::new(alloc),
        }
    }

    /// The groups of these items that end at these places.
    pub fn from_parts(ends: Vec<u32>, items: Vec<T>) -> Groups<T>
        requires { Rise 0 ends.items (length items.items) }
        ensures { result ≡ parts 0 ends.items items.items }
    {
        Groups { ends, items }
    }

    /// The items of a group, in order.
    pub fn group(&self, number: usize) -> &[T]
        requires { number < length self.now }
        ensures { slice_get self.now number ≡ Some result.now }
    {
        let (start, end) = part_of(&self.ends, number, self.items.len());
        &self.items[start..end]
    }

    /// The items of a group, in order; none where there is no group with this number.
    pub fn get(&self, number: usize) -> &[T]
        ensures { result.now ≡ unwrap_or (slice_get self.now number) [] }
    {
        if number < self.count() {
            self.group(number)
        } else {
            &[]
        }
    }

    /// All items, group by group.
    pub fn items(&self) -> &[T]
        ensures { result.now ≡ joined_below (length self.now) (λ i. get_or self.now i []) }
    {
        self.items.as_slice()
    }

    /// How many groups there are.
    pub fn count(&self) -> usize
        ensures { result ≡ length self.now }
    {
        self.ends.len()
    }
}

impl<T: Copy + Drop> Groups<T> {
    /// Appends a group of these items. After a refusal the groups are as before.
    ///
    /// # Errors
    /// Want of memory; so counts that there would be 2^32 items or more.
    pub fn push(&mut self, group: &[T]) -> Result<(), AllocError>
        ensures ok { OnOk result (self.new ≡ self.old ++ group.now ∷ []) }
        ensures err { OnErr result (self.new ≡ self.old) }
    {
        let Some(end) = self.items.len().checked_add(group.len()) else {
            return Err(AllocError);
        };
        push_end(&mut self.ends, end)?;
        match self.items.extend_from_slice(group) {
            Ok(()) => Ok(()),
            Err(refused) => {
                self.ends.pop();
                Err(refused)
            }
        }
    }

    /// The groups with the numbers below `count` of these members.
    ///
    /// # Errors
    /// Want of memory; so counts that there would be 2^32 members or more.
    pub fn of(alloc: Global, members: Vec<Grouped<T>>, count: u32) -> Result<Groups<T>, AllocError>
        ensures { IfOk result (λ groups. groups ≡ groups_below count members.items) }
    {
        let chains = Chains::of(alloc, &members, count)?;
        let mut ends = Vec::with_capacity(alloc, count as usize)?;
        let mut items = Vec::with_capacity(alloc, members.len())?;
        for group in 0..count {
            push_group(&mut items, &members, &chains, group)?;
            push_end(&mut ends, items.len())?;
        }
        Ok(Groups { ends, items })
    }
}

// Past the places of all members.
const NONE: u32 = u32::MAX;

/// Members, each linked to the next of its group: no sort is needed to take them group by group.
pub struct Chains {
    /// By group: the place of its first member.
    pub firsts: Vec<u32>,
    /// By place: that of the next member of the same group.
    pub nexts: Vec<u32>,
}

// Written out, so that what holds one needn't look into it to let go of it.
impl Drop for Chains {
    fn drop(self) {
        let Chains {
            firsts: _,
            nexts: _,
        } = self;
    }
}

impl Chains {
    // The chains of the groups with the numbers below `count`.
    fn of<T: Copy + Drop>(
        alloc: Global,
        members: &[Grouped<T>],
        count: u32,
    ) -> Result<Chains, AllocError>
        ensures chains { IfOk result (AreChains members.now 0) }
        ensures count { IfOk result (λ chains. length chains.firsts.items ≡ count) }
    {
        if members.len() >= NONE as usize {
            return Err(AllocError);
        }
        let mut chains = Chains {
            firsts: vec![in alloc; NONE; count as usize]?,
            nexts: vec![in alloc; NONE; members.len()]?,
        };
        for passed in 0..members.len() {
            chains.put(members, members.len() - passed - 1);
        }
        Ok(chains)
    }

    // Puts the member at a place before those of its group that stand behind it.
    fn put<T: Copy + Drop>(&mut self, members: &[Grouped<T>], place: usize)
        requires within { place < length members.now }
        requires few { length members.now < 2 ^ 32 }
        requires behind { AreChains members.now (place + 1) self.old }
        ensures chains { AreChains members.now place self.new }
        ensures count { length self.new.firsts.items ≡ length self.old.firsts.items }
    {
        let group = members[place].group as usize;
        if group < self.firsts.len() {
            self.nexts[place] = self.firsts[group];
            self.firsts[group] = place as u32;
        }
    }
}

// Appends the items of a group.
fn push_group<T: Copy + Drop>(
    items: &mut Vec<T>,
    members: &[Grouped<T>],
    chains: &Chains,
    group: u32,
) -> Result<(), AllocError>
    requires chains { AreChains members.now 0 chains.now }
    requires below { group < length chains.now.firsts.items }
    ensures { OnOk result (items.new.items ≡ items.old.items ++ group_of members.now group) }
{
    let mut place = chains.firsts[group as usize] as usize;
    while place < members.len() {
        items.push(members[place].item)?;
        place = chains.nexts[place] as usize;
    }
    Ok(())
}
