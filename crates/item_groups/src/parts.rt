//! Where parts end that lie one after another.
ghost use Rattle.std.specs.Prelude.{◌≡◌, ◌≤◌, ◌<◌, ◌^◌, ◌++◌, ◌∷◌, [], length, nat_lt, slice_index, OnOk, OnErr};
ghost use Rattle.item_groups.specs.Parts.{Rise, start_of};
ghost use Rattle.plain_laws.specs.Plain.{when};

use std::alloc::AllocError;

/// A length as the end of a part. None exactly where it is 2^32 or more.
pub fn end_of(length: usize) -> Option<u32>
    ensures { result ≡ when (nat_lt length (2 ^ 32)) length }
{
    u32::try_from(length).ok()
}

// Where the part at a place starts.
#[tactic(auto, using(crate::proofs::PartLaws::start_zero, crate::proofs::PartLaws::start_after))]
fn start_of(ends: &[u32], place: usize) -> usize
    requires { place < length ends.now }
    ensures { result ≡ start_of 0 ends.now place }
{
    if place == 0 {
        0
    } else {
        ends[place - 1] as usize
    }
}

/// Where the part at a place starts and ends, of parts that make up so many items.
pub fn part_of(ends: &[u32], place: usize, size: usize) -> (usize, usize)
    requires within { place < length ends.now }
    requires rise { Rise 0 ends.now size }
    ensures start { result.0 ≡ start_of 0 ends.now place }
    ensures end { result.1 ≡ slice_index ends.now place }
    ensures order { result.0 ≤ result.1 }
    ensures bound { result.1 ≤ size }
    ensures fits { result.1 < 2 ^ 32 }
{
    (start_of(ends, place), ends[place] as usize)
}

/// Appends the end of a part, behind so many items. After a refusal the ends are as before.
///
/// # Errors
/// Want of memory; and always where the end is 2^32 or more, which no entry holds.
pub fn push_end(ends: &mut Vec<u32>, end: usize) -> Result<(), AllocError>
    ensures ok { OnOk result (ends.new.items ≡ ends.old.items ++ end ∷ []) }
    ensures fits { OnOk result (end < 2 ^ 32) }
    ensures err { OnErr result (ends.new.items ≡ ends.old.items) }
{
    let Some(end) = end_of(end) else {
        return Err(AllocError);
    };
    ends.push(end)?;
    Ok(())
}
