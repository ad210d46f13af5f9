//! Why words ask for nothing.

use commands::UsageFault;
use std::alloc::AllocError;

/// Why words ask for nothing.
#[derive(Clone, Copy)]
pub enum WordsError {
    /// Their first fault.
    Usage(UsageFault),
    /// Want of memory.
    NoMemory,
}

impl From<AllocError> for WordsError {
    ghost use Rattle.std.specs.Prelude.{◌≡◌};
    ghost use Rattle.plan_words.specs.declared.error.WordsError.TheVariants as error;

    ghost from_gives = { λ e f. f ≡ error.NoMemory };

    fn from(_error: AllocError) -> WordsError {
        WordsError::NoMemory
    }
}
