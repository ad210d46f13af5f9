//! Bytes that stand in a text.
ghost use Rattle.std.specs.Prelude.{◌≡◌};

use std::marker::Model;

/// Some bytes that stand in a text. Contracts see them as a list.
#[derive(Drop)]
pub struct Excerpt<'t> {
    bytes: &'t [u8],
}

impl<'t> Model for Excerpt<'t> {
    ghost use Rattle.std.specs.Prelude.{List, ℕ};

    ghost Value = { List ℕ };

    ghost view = { λ excerpt. excerpt.bytes.now };
}

impl<'t> Excerpt<'t> {
    /// These bytes.
    pub fn of(bytes: &'t [u8]) -> Excerpt<'t>
        ensures { result ≡ bytes.now }
    {
        Excerpt { bytes }
    }

    /// The bytes.
    pub fn bytes(&self) -> &'t [u8]
        ensures { result.now ≡ self.now }
    {
        self.bytes
    }
}
