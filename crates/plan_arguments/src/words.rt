//! The words of a command.
ghost use Rattle.std.specs.Prelude.{◌≡◌, ◌<◌, ◌==◌, ◌++◌, ◌∷◌, [], List, ℕ, OnOk, OnErr, length, map, slice_index_or, string_bytes};

use std::alloc::{AllocError, Global};
use std::marker::Model;

/// The words behind the folder's path, in order. Contracts see them as a list of texts.
#[derive(Drop)]
pub struct WordList {
    words: Vec<String>,
    alloc: Global,
}

impl Model for WordList {
    ghost use Rattle.std.specs.Prelude.{List, ℕ, map, string_bytes};

    ghost Value = { List (List ℕ) };

    ghost view = { λ list. map string_bytes list.words.items };
}

impl WordList {
    /// No words.
    pub fn empty(alloc: Global) -> WordList
        ensures { result ≡ [] }
    {
        WordList {
            words: Vec::new(alloc),
            alloc,
        }
    }

    /// Appends a word. After a refusal the list is as before.
    ///
    /// # Errors
    /// Want of memory.
    pub fn push(&mut self, word: &str) -> Result<(), AllocError>
        ensures ok { OnOk result (self.new ≡ self.old ++ word.now ∷ []) }
        ensures err { OnErr result (self.new ≡ self.old) }
    {
        let word = String::from_str(self.alloc, word)?;
        self.words.push(word)?;
        Ok(())
    }

    /// What its memory comes from.
    pub fn alloc(&self) -> Global {
        self.alloc
    }

    /// The words, as they are passed on.
    pub fn as_slice(&self) -> &[String]
        ensures { map string_bytes result.now ≡ self.now }
    {
        self.words.as_slice()
    }

    /// How many words there are.
    pub fn len(&self) -> usize
        ensures { result ≡ length self.now }
    {
        self.words.len()
    }

    /// Whether there is no word.
    pub fn is_empty(&self) -> bool
        ensures { result ≡ (length self.now == 0) }
    {
        self.words.is_empty()
    }

    /// A word.
    pub fn word(&self, i: usize) -> &str
        requires { i < length self.now }
        ensures { result.now ≡ slice_index_or self.now i [] }
    {
        self.words[i].as_str()
    }
}
