//! What the program answers.
use commands::UsageFault;
use feed_files::FeedFault;

/// The answer of a command.
#[derive(Clone, Copy, PartialEq, Eq)]
pub enum Status {
    /// The command's whole text was written.
    Answered,
    /// A fault of the words, or of a name that they give; its line was written.
    Usage(UsageFault),
    /// A fault of the feed; its line was written.
    Refused(FeedFault),
    /// A call of the folder failed; nothing was written.
    ReadFault,
    /// A write failed; what was due was written in part.
    WriteFault,
    /// Want of memory; nothing was written.
    NoMemory,
}

impl Status {
    ghost use Rattle.std.specs.Prelude.{◌≡◌};
    ghost use Rattle.command_answers.specs.Answers.{status_number};

    /// The number with which the program ends.
    pub fn number(self) -> u8
        ensures { result ≡ status_number self }
    {
        match self {
            Status::Answered => 0,
            Status::Usage(_) => 2,
            Status::Refused(_) => 3,
            Status::ReadFault => 4,
            Status::WriteFault => 5,
            Status::NoMemory => 6,
        }
    }
}
