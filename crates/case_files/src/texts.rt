//! What a text must have, where it needn't be one very text.

use bstr::ByteSlice;

/// Whether the text has these lines.
pub fn has_lines(text: &[u8], wanted: &[u8]) -> bool {
    for line in wanted.lines_with_terminator() {
        if !has_line(text, line) {
            return false;
        }
    }
    true
}

// Whether the text has this line.
fn has_line(text: &[u8], wanted: &[u8]) -> bool {
    for line in text.lines_with_terminator() {
        if line == wanted {
            return true;
        }
    }
    false
}

/// Whether these are the arrival, the rides and the price of each line that starts a journey, a line for each and in order.
pub fn are_triples(text: &[u8], wanted: &[u8]) -> bool {
    match behind_triples(text, wanted) {
        Some(rest) => rest.is_empty(),
        None => false,
    }
}

// What is wanted behind the triples of the text's journeys; none where it doesn't begin with them.
fn behind_triples<'w>(text: &[u8], wanted: &'w [u8]) -> Option<&'w [u8]> {
    let mut rest = wanted;
    for line in text.lines() {
        if let Some(triple) = triple_of(line) {
            rest = rest.strip_prefix(triple)?.strip_prefix(b"\n")?;
        }
    }
    Some(rest)
}

// The arrival, the rides and the price that the line tells, where it starts a journey.
fn triple_of(line: &[u8]) -> Option<&[u8]> {
    let journey = line.strip_prefix(b"journey\t")?;
    let (triple, _) = journey.rsplit_once_str(b"\t")?;
    Some(triple)
}
