//! Texts of whole lines.
ghost use Rattle.std.specs.Prelude.{◌≡◌, ◌<◌, [], ◌∷◌, ◌++◌, length, Some, slice_get, OnOk, OnErr};

use item_groups::Groups;
use std::alloc::{AllocError, Global};
use std::marker::Model;

/// A text of lines, each with the line feed at its end. Contracts see it as the list of its lines.
#[derive(Drop)]
pub struct Text {
    lines: Groups<u8>,
}

impl Model for Text {
    ghost use Rattle.std.specs.Prelude.{ℕ, List};

    ghost Value = { List (List ℕ) };

    ghost view = { λ t. t.lines };
}

impl Text {
    /// The text without lines.
    pub fn empty(alloc: Global) -> Text
        ensures { result ≡ [] }
    {
        Text {
            lines: Groups::empty(alloc),
        }
    }

    /// Appends a line. After a refusal the text is as before.
    ///
    /// # Errors
    /// Want of memory.
    pub fn push(&mut self, line: &[u8]) -> Result<(), AllocError>
        ensures ok { OnOk result (self.new ≡ self.old ++ line.now ∷ []) }
        ensures err { OnErr result (self.new ≡ self.old) }
    {
        self.lines.push(line)
    }

    /// How many lines there are.
    pub fn lines(&self) -> usize
        ensures { result ≡ length self.now }
    {
        self.lines.count()
    }

    /// A line, with its line feed.
    pub fn line(&self, number: usize) -> &[u8]
        requires { number < length self.now }
        ensures { slice_get self.now number ≡ Some result.now }
    {
        self.lines.group(number)
    }
}
