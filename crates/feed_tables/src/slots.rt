//! Where an id is looked for first: one slot of a table that is hashed. The ids are parted into buckets of a few, and
//! each bucket has a pilot, a number that is mixed into the hashes of its ids and chosen so that each has a slot of its
//! own. So one slot alone is read, and the table is so full that what is read at random takes little memory. Ids of the
//! grammar of ids alone have slots, so that one that is found there needs no judgement.
ghost use Rattle.std.specs.Prelude.{◌≡◌, ◌≤◌, ◌<◌, ◌^◌, length, IfOk};
ghost use Rattle.feed_text.specs.RowLimits.{row_limit};
ghost use Rattle.feed_tables.specs.IdRows.{slot_key, AreSlots};

use crate::id_rows::IdRow;
use feed_text::id_ok;
use item_groups::{Grouped, Groups};
use std::alloc::{AllocError, Global};

// The row of a slot without an id: more than any table has.
const FREE: u32 = u32::MAX;

// The key of a slot without an id, which no id has: one with a first byte has a length too.
const NO_KEY: u64 = 1;

/// A slot: the key of its id and the earliest row with it. They stand together, so that a look-up reads one line of memory,
/// and the key is kept by halves, so that they take twelve bytes.
#[derive(Clone, Copy)]
pub struct Slot {
    low: u32,
    high: u32,
    /// The row; `FREE` where the slot has no id.
    pub row: u32,
}

impl Slot {
    // The slot of an id with this key.
    fn of(key: u64, row: u32) -> Slot
        ensures key { slot_key result ≡ key }
        ensures row { result.row ≡ row }
    {
        Slot {
            low: (key % (1 << 32)) as u32,
            high: (key >> 32) as u32,
            row,
        }
    }

    /// The key of its id.
    #[inline(always)]
    pub fn key(&self) -> u64
        ensures { result ≡ slot_key self.now }
    {
        u64::from(self.low) + u64::from(self.high) * (1 << 32)
    }
}

/// A slot for most ids of a column.
#[derive(Drop)]
pub struct Slots {
    // By bucket.
    pub pilots: Vec<u8>,
    // By slot.
    pub entries: Vec<Slot>,
}

// A hash with a number more.
#[inline(always)]
fn mixed(hash: u64, number: u64) -> u64 {
    let product = (hash ^ number).wrapping_mul(0x9e37_79b9_7f4a_7c15);
    product ^ (product >> 32)
}

// A number made of an id's key and of its bytes behind the first seven. What it is has no meaning.
#[inline(always)]
fn hash_of(key: u64, id: &[u8]) -> u64 {
    let mut hash = mixed(0, key);
    for place in 7..id.len() {
        hash = mixed(hash, u64::from(id[place]));
    }
    hash
}

// As far among so many as the upper half of a hash is among all numbers of 32 bits.
#[inline(always)]
#[tactic(auto, using(crate::proofs::ShareLaws::share_below, crate::proofs::ShareLaws::share_fits))]
fn share_of(hash: u64, count: usize) -> usize
    requires some { 1 ≤ count }
    requires few { count < 2 ^ 32 }
    ensures { result < count }
{
    let share = (hash >> 32) as u32;
    (u64::from(share) * count as u64 / (1 << 32)) as usize
}

// The slot of a hash by the pilot of its bucket.
#[inline(always)]
fn slot_by(hash: u64, pilot: u8, slots: usize) -> usize
    requires some { 1 ≤ slots }
    requires few { slots < 2 ^ 32 }
    ensures { result < slots }
{
    share_of(mixed(hash, u64::from(pilot)), slots)
}

// An id by its place among the rows, and its hash.
#[derive(Clone, Copy)]
struct Member {
    place: usize,
    hash: u64,
}

impl Slots {
    /// The slot of an id with this key.
    #[inline(always)]
    pub fn slot_of(&self, key: u64, id: &[u8]) -> usize
        requires piloted { 1 ≤ length self.now.pilots.items }
        requires few_pilots { length self.now.pilots.items < 2 ^ 32 }
        requires some { 1 ≤ length self.now.entries.items }
        requires few { length self.now.entries.items < 2 ^ 32 }
    {
        let hash = hash_of(key, id);
        let pilot = self.pilots[share_of(hash, self.pilots.len())];
        slot_by(hash, pilot, self.entries.len())
    }

    // Whether the slots of these by a pilot are free, and each is another one.
    fn are_free(&self, members: &[Member], pilot: u8) -> bool
        requires some { 1 ≤ length self.now.entries.items }
        requires few { length self.now.entries.items < 2 ^ 32 }
    {
        for i in 0..members.len() {
            let slot = slot_by(members[i].hash, pilot, self.entries.len());
            if self.entries[slot].row != FREE {
                return false;
            }
            for j in 0..i {
                if slot_by(members[j].hash, pilot, self.entries.len()) == slot {
                    return false;
                }
            }
        }
        true
    }

    // Puts the ids of a bucket into their slots, where there is a pilot by which these are free.
    fn fill(&mut self, rows: &[IdRow], bucket: usize, members: &[Member])
        requires within { bucket < length self.old.pilots.items }
        requires before { AreSlots rows.now self.old }
        ensures slots { AreSlots rows.now self.new }
        ensures count { length self.new.pilots.items ≡ length self.old.pilots.items }
    {
        let Some(pilot) = (0..=u8::MAX).find(|pilot| self.are_free(members, *pilot)) else {
            return;
        };
        self.pilots[bucket] = pilot;
        for member in members {
            match rows.get(member.place) {
                Some(entry) if id_ok(entry.id) => {
                    let slot = slot_by(member.hash, pilot, self.entries.len());
                    self.entries[slot] = Slot::of(entry.key, entry.row);
                }
                _ => {}
            }
        }
    }
}

// The ids by bucket, each by its place.
fn members_of(alloc: Global, rows: &[IdRow], buckets: usize) -> Result<Groups<Member>, AllocError>
    requires some { 1 ≤ buckets }
    requires few { buckets < 2 ^ 32 }
{
    let mut members = Vec::with_capacity(alloc, rows.len())?;
    for (place, entry) in rows.iter().enumerate() {
        let hash = hash_of(entry.key, entry.id);
        members.push(Grouped {
            group: share_of(hash, buckets) as u32,
            item: Member { place, hash },
        })?;
    }
    Groups::of(alloc, members, buckets as u32)
}

// The greatest size of a bucket whose ids get slots. Hardly one is greater.
const LARGEST: usize = 12;

/// Slots for these ids, of which a tenth stays free, and two buckets for five of them. Great buckets come first, while much
/// is free.
///
/// # Errors
/// Want of memory.
pub fn slots_of(alloc: Global, rows: &[IdRow]) -> Result<Slots, AllocError>
    requires { length rows.now ≤ row_limit }
    ensures { IfOk result (AreSlots rows.now) }
{
    let count = (rows.len() + rows.len() / 9 + 1).min(u32::MAX as usize);
    let buckets = rows.len() * 2 / 5 + 1;
    let groups = members_of(alloc, rows, buckets)?;
    let mut slots = Slots {
        pilots: vec![in alloc; 0u8; buckets]?,
        entries: vec![in alloc; Slot::of(NO_KEY, FREE); count]?,
    };
    for step in 0..LARGEST {
        for bucket in 0..buckets {
            let members = groups.get(bucket);
            if members.len() == LARGEST - step {
                slots.fill(rows, bucket, members);
            }
        }
    }
    Ok(slots)
}
