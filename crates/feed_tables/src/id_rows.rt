//! The ids of a column: the key of each, a number by which short ids are told apart with none of their bytes read, and
//! the earliest row with it.
ghost use Rattle.std.specs.Prelude.{◌≡◌, slice_index, IfOk};
ghost use Rattle.feed_tables.specs.IdRows.{IsKeyOf, AreIdRows};

use feed_files::ColumnName;
use feed_text::Table;
use std::alloc::{AllocError, Global};

// The byte of an id at a place; past its end 0.
fn byte_of(id: &[u8], place: usize) -> u8
    ensures { result ≡ slice_index id.now place }
{
    if place < id.len() { id[place] } else { 0 }
}

/// An id's key: the number that its first seven bytes make, the first of them the least, and above these its length; past
/// its end bytes count as 0. Where it has as many they are read as two words, of which the second begins with the last byte
/// of the first: a feed has more ids of stop times than of all else.
#[inline(always)]
pub fn key_of(id: &[u8]) -> u64
    ensures { IsKeyOf result id.now }
{
    let length = id.len().min(255) as u8;
    if let [a, b, c, d, e, f, g, ..] = id {
        let start = u32::from_le_bytes([*a, *b, *c, *d]);
        let end = u32::from_le_bytes([*d, *e, *f, *g]) / 256;
        return u64::from(start) + u64::from(end) * (1 << 32) + u64::from(length) * (1 << 56);
    }
    let [a, b, c, d, e, f, g]: [u8; 7] = std::array::from_fn(|place| byte_of(id, place));
    u64::from_le_bytes([a, b, c, d, e, f, g, length])
}

/// An id, its key, and the earliest row with it.
#[derive(Clone, Copy)]
pub struct IdRow<'t> {
    pub key: u64,
    pub id: &'t [u8],
    pub row: u32,
}

/// The ids of a column, each once, in the order of their keys and, where these are the same, of their bytes.
///
/// # Errors
/// Want of memory.
pub fn id_rows<'t>(
    alloc: Global,
    table: &'t Table,
    name: ColumnName,
) -> Result<Vec<IdRow<'t>>, AllocError>
    ensures { IfOk result (λ rows. AreIdRows table.now name rows.items) }
{
    let mut rows = Vec::with_capacity(alloc, table.rows() as usize)?;
    for row in 0..table.rows() {
        let id = table.field(row, name);
        rows.push(IdRow {
            key: key_of(id),
            id,
            row,
        })?;
    }
    rows.sort_unstable_by_key(|entry| (entry.key, entry.id, entry.row));
    rows.dedup_by_key(|entry| (entry.key, entry.id));
    Ok(rows)
}
