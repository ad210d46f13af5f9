//! What a command answers over a folder.
ghost use Rattle.std.specs.Prelude.{◌≡◌, ℕ, List, false, None, IfOk, IfErr, OnOk, Ok};
ghost use Rattle.feed_faults.specs.AcceptedFeed.{feed_of};
ghost use Rattle.feed_faults.specs.FirstFault.{first_fault};
ghost use Rattle.feed_rows.specs.GeneratedFeed.{generated};
ghost use Rattle.feed_text.specs.TextErrors.{IsErrorOf};
ghost use Rattle.plan_app.specs.Made.{IsFeedFor, GivesNone, IsMade, Fails};
ghost use Rattle.plan_app.specs.Run.{Reads, asks_folder};
ghost use Rattle.plan_words.specs.Request.{command_request, IsUsualGen, IsUsualRequest};
ghost use Rattle.commands.specs.Commands.{read_command};

use crate::planning::outcome_of;
use command_answers::{Failure, Outcome, Refusal, refused};
use feed_check::{LoadError, check, load};
use feed_maker::gen_files;
use feed_rows::Feed;
use feed_text::TextError;
use folder_io::Folder;
use plan_words::{CommandWords, GenWords, WordList, WordsError, read_command};
use std::alloc::Global;

// The feed that is made by rule, or its first fault.
fn made_feed(alloc: Global, words: &GenWords) -> Result<Feed, TextError>
    requires { IsUsualGen words.now }
    ensures fault { IfErr result (IsErrorOf (first_fault (generated words.now.seed words.now.lines))) }
    ensures sound { OnOk result (first_fault (generated words.now.seed words.now.lines) ≡ None) }
    ensures feed { IfOk result (λ feed. feed ≡ feed_of (generated words.now.seed words.now.lines)) }
{
    let files = gen_files(alloc, words.seed, words.lines)?;
    check(alloc, files)
}

// The feed that a command is about: that of the folder, but for the command that makes its own.
fn feed_for<F: Folder>(
    alloc: Global,
    command: &CommandWords,
    folder: &mut F,
) -> Result<Feed, LoadError>
    requires { IsUsualRequest command.now }
    ensures ok { OnOk result (Reads (Ok (command_request command.now)) (F.state folder.old) (F.state folder.new)) }
    ensures feed { IfOk result (IsFeedFor (F.state folder.old) (command_request command.now)) }
    ensures err { IfErr result (λ error. GivesNone error (command_request command.now) (F.state folder.old) (F.state folder.new)) }
    ensures untouched { asks_folder (Ok (command_request command.now)) ≡ false → folder.new ≡ folder.old }
    ensures source { (F.state folder.new).source ≡ (F.state folder.old).source }
{
    match command {
        CommandWords::Gen(words) => match made_feed(alloc, words) {
            Ok(feed) => Ok(feed),
            Err(TextError::Fault(fault)) => Err(LoadError::Fault(fault)),
            Err(TextError::NoMemory) => Err(LoadError::NoMemory),
        },
        CommandWords::Asks(_) => load(alloc, folder),
    }
}

// What a request answers over a folder, whichever words ask for it.
fn made_for<F: Folder>(
    alloc: Global,
    command: &CommandWords,
    folder: &mut F,
) -> Result<Outcome, Failure>
    requires { IsUsualRequest command.now }
    ensures made { IfOk result (λ outcome. (words : List (List ℕ)) → Ok (command_request command.now) ≡ read_command words → IsMade (F.state folder.old) words outcome) }
    ensures ok { OnOk result (Reads (Ok (command_request command.now)) (F.state folder.old) (F.state folder.new)) }
    ensures err { IfErr result (λ failure. Fails failure (Ok (command_request command.now)) (F.state folder.old) (F.state folder.new)) }
    ensures untouched { asks_folder (Ok (command_request command.now)) ≡ false → folder.new ≡ folder.old }
    ensures source { (F.state folder.new).source ≡ (F.state folder.old).source }
{
    match feed_for(alloc, command, folder) {
        Ok(feed) => Ok(outcome_of(alloc, &feed, command)?),
        Err(LoadError::ReadFault) => Err(Failure::ReadFault),
        Err(LoadError::Fault(fault)) => Ok(refused(alloc, Refusal::Feed(fault))?),
        Err(LoadError::NoMemory) => Err(Failure::NoMemory),
    }
}

/// What the words answer over a folder: they are judged first, then the files are read, each once and in order, then they
/// are judged, and then the journeys are planned.
///
/// # Errors
/// A failed call of the folder, after which none is made; want of memory.
pub(crate) fn made<F: Folder>(
    alloc: Global,
    words: &WordList,
    folder: &mut F,
) -> Result<Outcome, Failure>
    ensures made { IfOk result (IsMade (F.state folder.old) words.now) }
    ensures ok { OnOk result (Reads (read_command words.now) (F.state folder.old) (F.state folder.new)) }
    ensures err { IfErr result (λ failure. Fails failure (read_command words.now) (F.state folder.old) (F.state folder.new)) }
    ensures untouched { asks_folder (read_command words.now) ≡ false → folder.new ≡ folder.old }
    ensures source { (F.state folder.new).source ≡ (F.state folder.old).source }
{
    match read_command(words) {
        Ok(command) => made_for(alloc, &command, folder),
        Err(WordsError::Usage(fault)) => Ok(refused(alloc, Refusal::Usage(fault))?),
        Err(WordsError::NoMemory) => Err(Failure::NoMemory),
    }
}
