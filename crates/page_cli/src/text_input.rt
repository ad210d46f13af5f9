//! Standard input, which is read as one text.
ghost use Rattle.std.specs.Prelude.{◌≡◌, false};

use folder_io::ReadError;
use std::alloc::Global;
use std::io::{ErrorKind, Read};

/// Standard input, and whether reading it failed.
#[derive(Drop)]
pub struct TextInput<R: Input + Clone + Drop> {
    rt: R,
    failed: bool,
}

impl<R: Input + Clone + Drop> TextInput<R> {
    ghost use Rattle.page_cli.specs.Runs.{input_failed, is_read_fault};

    /// Standard input, of which nothing is read yet.
    pub fn new(rt: R) -> TextInput<R>
        ensures { input_failed result ≡ false }
    {
        TextInput { rt, failed: false }
    }

    /// The text up to its end.
    ///
    /// # Errors
    /// [`ReadError::ReadFault`] where the system failed to read; want of memory.
    pub fn read(&mut self, alloc: Global) -> Result<Vec<u8>, ReadError>
        ensures { input_failed self.new ≡ is_read_fault result }
    {
        self.failed = false;
        let mut bytes = Vec::new(alloc);
        let mut reader = self.rt.reader();
        match reader.read_to_end(&mut bytes) {
            Ok(_) => Ok(bytes),
            Err(error) => match error.kind() {
                ErrorKind::OutOfMemory => Err(ReadError::NoMemory),
                _ => {
                    self.failed = true;
                    Err(ReadError::ReadFault)
                }
            },
        }
    }
}
