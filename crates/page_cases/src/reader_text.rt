//! What one reads on a page: its characters without tags and style, in one line.

use bstr::ByteSlice;
use std::alloc::{AllocError, Global};

// The names of characters that a page uses, and the characters.
const ENTITIES: [(&[u8], u8); 5] = [
    (b"&amp;", b'&'),
    (b"&lt;", b'<'),
    (b"&gt;", b'>'),
    (b"&quot;", b'"'),
    (b"&#39;", b'\''),
];

/// The words that stand between the tags of a page, each behind a space but the first, and a line feed. A tag parts words, as
/// white space does; what stands in the style is passed over.
///
/// # Errors
/// Want of memory.
pub fn reader_text(alloc: Global, page: &[u8]) -> Result<Vec<u8>, AllocError> {
    let mut text = Vec::new(alloc);
    for piece in page.split(|byte| *byte == b'<') {
        add_piece(&mut text, piece)?;
    }
    text.push(b'\n')?;
    Ok(text)
}

// Adds the words of what stands from the begin of a tag to that of the next one.
fn add_piece(text: &mut Vec<u8>, piece: &[u8]) -> Result<(), AllocError> {
    if piece.starts_with(b"style>") {
        return Ok(());
    }
    let shown = match piece.split_once_str(b">") {
        Some((_, shown)) => shown,
        None => piece,
    };
    for word in shown.split(|byte| byte.is_ascii_whitespace()) {
        if !word.is_empty() {
            add_word(text, word)?;
        }
    }
    Ok(())
}

// Adds a word.
fn add_word(text: &mut Vec<u8>, word: &[u8]) -> Result<(), AllocError> {
    if !text.is_empty() {
        text.push(b' ')?;
    }
    let mut rest = word;
    for _ in 0..word.len() {
        let Some((character, behind)) = first_character(rest) else {
            return Ok(());
        };
        text.push(character)?;
        rest = behind;
    }
    Ok(())
}

// The first character of a text, by its name or by itself, and what stands behind it.
fn first_character(text: &[u8]) -> Option<(u8, &[u8])> {
    for (name, character) in ENTITIES {
        if let Some(behind) = text.strip_prefix(name) {
            return Some((character, behind));
        }
    }
    let (first, behind) = text.split_first()?;
    Some((*first, behind))
}
