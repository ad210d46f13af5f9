//! A text cut into lines, and a line into fields.
#![tactic(auto)]

ghost use Rattle.std.specs.Prelude.{◌≡◌, map, IfOk};
ghost use Rattle.line_cuts.specs.Cuts.{line_parts, fields_in, field};

use std::alloc::{AllocError, Global};

/// The parts of a text that line feeds part.
///
/// # Errors
/// Want of memory.
pub fn line_parts(alloc: Global, text: &[u8]) -> Result<Vec<&[u8]>, AllocError>
    ensures { IfOk result (λ parts. map (λ part. part.now) parts.items ≡ line_parts text.now) }
{
    text.split(|byte| *byte == b'\n').collect(alloc)
}

/// The fields of a line that tabs part, its word first.
///
/// # Errors
/// Want of memory.
pub fn fields_of(alloc: Global, line: &[u8]) -> Result<Vec<&[u8]>, AllocError>
    ensures { IfOk result (λ fields. map (λ field. field.now) fields.items ≡ fields_in line.now) }
{
    line.split(|byte| *byte == b'\t').collect(alloc)
}

/// The field at a place; empty where there is none.
pub fn field<'t>(fields: &[&'t [u8]], place: usize) -> &'t [u8]
    ensures { result.now ≡ field (map (λ text. text.now) fields.now) place }
{
    match fields.get(place) {
        Some(text) => text,
        None => &[],
    }
}
