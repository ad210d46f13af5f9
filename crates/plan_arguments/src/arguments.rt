//! The arguments of the program, or why they can't be had.
ghost use Rattle.std.specs.Prelude.{◌≡◌, ◌≢◌};
ghost use Rattle.plan_arguments.specs.Arguments.{number_without};
ghost use Rattle.plan_arguments.specs.declared.arguments.ArgumentError.TheVariants as error;

use std::env;
use std::io::ErrorKind;
use std::rt::Env;

/// Why the program's arguments can't be had.
#[derive(Clone, Copy, PartialEq, Eq)]
pub enum ArgumentError {
    /// Memory was wanting.
    NoMemory,
    /// Any other cause, as an argument that isn't UTF-8.
    Unreadable,
}

impl ArgumentError {
    /// The error of a cause.
    pub fn of(kind: ErrorKind) -> ArgumentError
        ensures memory { kind ≡ ErrorKind.OutOfMemory → result ≡ error.NoMemory }
        ensures other { kind ≢ ErrorKind.OutOfMemory → result ≡ error.Unreadable }
    {
        match kind {
            ErrorKind::OutOfMemory => ArgumentError::NoMemory,
            _ => ArgumentError::Unreadable,
        }
    }

    /// The number with which the program ends.
    pub fn number(self) -> u8
        ensures { result ≡ number_without self }
    {
        match self {
            ArgumentError::NoMemory => 6,
            ArgumentError::Unreadable => 7,
        }
    }
}

/// The program's arguments, of which the first is its own name.
///
/// # Errors
/// Want of memory; any other cause, as an argument that isn't UTF-8.
pub fn read_arguments<R: Env + AllocGlobal>(rt: &R) -> Result<Vec<String>, ArgumentError> {
    match env::args(rt) {
        Ok(arguments) => match arguments.collect::<Vec<String>>(rt.alloc()) {
            Ok(arguments) => Ok(arguments),
            Err(_) => Err(ArgumentError::NoMemory),
        },
        Err(error) => Err(ArgumentError::of(error.kind())),
    }
}
