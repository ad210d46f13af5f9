//! Whether a text is that of entries.
ghost use Rattle.std.specs.Prelude.{◌≡◌, IfOk, bytes_eq};
ghost use Rattle.std.specs.List.{concat};
ghost use Rattle.feed_rows.specs.EntryText.{text_of_entries};

use feed_rows::Entry;
use feed_timetable::Timetable;
use std::alloc::{AllocError, Global};
use ticket_explain::{Text, text_of};

// The bytes of all lines.
fn bytes_of(alloc: Global, lines: &Text) -> Result<Vec<u8>, AllocError>
    ensures { IfOk result (λ bytes. bytes.items ≡ concat lines.now) }
{
    let mut bytes = Vec::new(alloc);
    for number in 0..lines.lines() {
        bytes.extend_from_slice(lines.line(number))?;
    }
    Ok(bytes)
}

/// Whether this is the text of the entries, byte by byte.
///
/// # Errors
/// Want of memory.
pub fn is_text_of(
    alloc: Global,
    timetable: &Timetable,
    entries: &[Entry],
    text: &[u8],
) -> Result<bool, AllocError>
    ensures { IfOk result (λ is. is ≡ bytes_eq (text_of_entries timetable.now entries.now) text.now) }
{
    let lines = text_of(alloc, timetable, entries)?;
    let bytes = bytes_of(alloc, &lines)?;
    Ok(bytes.as_slice() == text)
}
