//! What comes of a command, before it is written.
ghost use Rattle.std.specs.Prelude.{◌≡◌, ◌∷◌, [], IfOk, Ok, Err};
ghost use Rattle.command_answers.specs.Due.{Task};
ghost use Rattle.command_answers.specs.Outcomes.{IsOutcome};
ghost use Rattle.command_answers.specs.declared.status.Status.TheVariants as status;

use crate::lines::check_line_of;
use crate::refusal::{Refusal, answer_of, line_of};
use crate::status::Status;
use feed_rows::Feed;
use std::alloc::{AllocError, Global};
use ticket_explain::Text;

/// An answer, and the lines that are written before it is given.
#[derive(Drop)]
pub struct Outcome {
    pub told: Status,
    pub text: Text,
}

/// Why nothing comes of a command.
#[derive(Clone, Copy)]
pub enum Failure {
    /// A call of the folder failed.
    ReadFault,
    /// Want of memory.
    NoMemory,
}

impl From<AllocError> for Failure {
    ghost use Rattle.std.specs.Prelude.{◌≡◌};
    ghost use Rattle.command_answers.specs.declared.outcome.Failure.TheVariants as failure;

    ghost from_gives = { λ e f. f ≡ failure.NoMemory };

    fn from(_error: AllocError) -> Failure {
        Failure::NoMemory
    }
}

/// The answer behind the whole text of a command.
pub fn answered(text: Text) -> Outcome
    ensures told { result.told ≡ status.Answered }
    ensures text { result.text ≡ text }
{
    Outcome {
        told: Status::Answered,
        text,
    }
}

/// An answer behind one line.
pub fn behind_line(alloc: Global, line: &[u8], told: Status) -> Result<Outcome, AllocError>
    ensures told { IfOk result (λ out. out.told ≡ told) }
    ensures text { IfOk result (λ out. out.text ≡ line.now ∷ []) }
{
    let mut text = Text::empty(alloc);
    text.push(line)?;
    Ok(Outcome { told, text })
}

/// The outcome of a refusal.
pub fn refused(alloc: Global, refusal: Refusal) -> Result<Outcome, AllocError>
    ensures { IfOk result (IsOutcome (Err refusal)) }
{
    let line = line_of(alloc, refusal)?;
    behind_line(alloc, line.as_bytes(), answer_of(refusal))
}

/// What a check answers.
///
/// # Errors
/// Want of memory.
pub fn check_outcome(alloc: Global, feed: &Feed) -> Result<Outcome, AllocError>
    ensures { IfOk result (IsOutcome (Ok (Task.Checks feed.now))) }
{
    let line = check_line_of(alloc, feed)?;
    behind_line(alloc, line.bytes(), Status::Answered)
}
