//! What refuses a command.
ghost use Rattle.std.specs.Prelude.{◌≡◌, IfOk, string_bytes};
ghost use Rattle.command_answers.specs.Due.{refusal_answer, refusal_line};

use crate::lines::{refused_line_of, usage_line_of};
use crate::status::Status;
use commands::UsageFault;
use feed_files::FeedFault;
use std::alloc::{AllocError, Global};

/// What refuses a command.
#[derive(Clone, Copy)]
pub enum Refusal {
    /// A fault of the words, or of a name that they give.
    Usage(UsageFault),
    /// A fault of the feed.
    Feed(FeedFault),
}

/// The answer of a refusal.
pub fn answer_of(refusal: Refusal) -> Status
    ensures { result ≡ refusal_answer refusal }
{
    match refusal {
        Refusal::Usage(fault) => Status::Usage(fault),
        Refusal::Feed(fault) => Status::Refused(fault),
    }
}

/// The line of a refusal.
pub fn line_of(alloc: Global, refusal: Refusal) -> Result<String, AllocError>
    ensures { IfOk result (λ line. string_bytes line ≡ refusal_line refusal) }
{
    match refusal {
        Refusal::Usage(fault) => usage_line_of(alloc, fault),
        Refusal::Feed(fault) => refused_line_of(alloc, fault),
    }
}
