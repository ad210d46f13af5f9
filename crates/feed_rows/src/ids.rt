//! The ids that a feed gives to its stops, routes, trips and the rest.
ghost use Rattle.std.specs.Prelude.{◌≡◌, ◌≤◌, length, IfOk};

use std::alloc::{AllocError, Global};
use std::marker::Model;

/// An id of a feed: a text of 1 to 255 bytes. Contracts see it as its bytes.
#[derive(Drop)]
pub struct Id {
    text: Vec<u8>,
}

impl Model for Id {
    ghost use Rattle.std.specs.Prelude.{ℕ, ◌≤◌, List, length};

    ghost Value = { List ℕ };

    ghost view = { λ id. id.text.items };

    ghost invariant = { λ id. (1 ≤ length id.text.items) × (length id.text.items ≤ 255) };
}

impl Id {
    /// A copy of the text.
    ///
    /// # Errors
    /// Want of memory.
    pub fn copy_of(alloc: Global, text: &[u8]) -> Result<Id, AllocError>
        requires some { 1 ≤ length text.now }
        requires short { length text.now ≤ 255 }
        ensures { IfOk result (λ id. id ≡ text.now) }
    {
        Ok(Id {
            text: Vec::from_slice(alloc, text)?,
        })
    }

    /// The id's bytes.
    pub fn bytes(&self) -> &[u8]
        ensures value { result.now ≡ self.now }
        ensures some { 1 ≤ length result.now }
        ensures short { length result.now ≤ 255 }
    {
        self.text.as_slice()
    }
}
