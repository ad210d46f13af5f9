//! The text of a file that is being written.
ghost use Rattle.std.specs.Prelude.{◌≡◌, ◌≤◌, ◌++◌, ◌∷◌, [], IfOk, OnOk, decimal};
ghost use Rattle.transit_base.specs.Limits.{most_time};
ghost use Rattle.transit_base.specs.DateTexts.{time_text};

use itoa::Buffer;
use std::alloc::{AllocError, Global};
use std::marker::Model;
use transit_base::{Secs, time_text};

/// A file that is being written. Contracts see it as its bytes.
#[derive(Drop)]
pub struct FileText {
    bytes: Vec<u8>,
}

impl Model for FileText {
    ghost use Rattle.std.specs.Prelude.{ℕ, List};

    ghost Value = { List ℕ };

    ghost view = { λ file. file.bytes.items };
}

impl FileText {
    /// The file that begins with a text.
    pub fn of(alloc: Global, text: &[u8]) -> Result<FileText, AllocError>
        ensures { IfOk result (λ file. file ≡ text.now) }
    {
        Ok(FileText {
            bytes: Vec::from_slice(alloc, text)?,
        })
    }

    /// Adds a text.
    pub fn text(&mut self, text: &[u8]) -> Result<(), AllocError>
        ensures { OnOk result (self.new ≡ self.old ++ text.now) }
    {
        self.bytes.extend_from_slice(text)
    }

    /// Adds a number.
    pub fn number(&mut self, number: u32) -> Result<(), AllocError>
        ensures { OnOk result (self.new ≡ self.old ++ decimal number) }
    {
        let mut buffer = Buffer::new();
        self.text(buffer.format(number).as_bytes())
    }

    /// Adds a second of the service day as a time.
    pub fn time(&mut self, second: u32) -> Result<(), AllocError>
        requires { second ≤ most_time }
        ensures { OnOk result (self.new ≡ self.old ++ time_text second) }
    {
        self.text(time_text(Secs(second)).bytes())
    }

    /// Adds the comma behind a field.
    pub fn comma(&mut self) -> Result<(), AllocError>
        ensures { OnOk result (self.new ≡ self.old ++ 44 ∷ []) }
    {
        self.text(b",")
    }

    /// Ends the row.
    pub fn end(&mut self) -> Result<(), AllocError>
        ensures { OnOk result (self.new ≡ self.old ++ 10 ∷ []) }
    {
        self.text(b"\n")
    }

    /// The bytes.
    pub fn bytes(&self) -> &[u8]
        ensures { result.now ≡ self.now }
    {
        self.bytes.as_slice()
    }
}
