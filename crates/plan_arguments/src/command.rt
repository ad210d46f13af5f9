//! What the arguments of the program name.
ghost use Rattle.std.specs.Prelude.{◌≡◌, IfOk, map, string_bytes};
ghost use Rattle.plan_arguments.specs.Arguments.{path_in, words_in};

use crate::words::WordList;
use std::alloc::{AllocError, Global};

/// The folder's path, and the words of the command behind it.
#[derive(Drop)]
pub struct Command {
    /// The path of the feed's folder.
    pub path: String,
    /// The words behind it.
    pub words: WordList,
}

// The words, each once and in order.
fn words_of(alloc: Global, arguments: &[String]) -> Result<WordList, AllocError>
    ensures { IfOk result (λ words. words ≡ map string_bytes arguments.now) }
{
    let mut words = WordList::empty(alloc);
    for argument in arguments {
        words.push(argument.as_str())?;
    }
    Ok(words)
}

/// What the arguments name, the first of which is the program's own name: the argument behind it is the path, or `.` where
/// there is none, and those behind the path are the words, each once and in order.
///
/// # Errors
/// Want of memory.
pub fn command_of(alloc: Global, arguments: &[String]) -> Result<Command, AllocError>
    ensures path { IfOk result (λ command. string_bytes command.path ≡ path_in (map string_bytes arguments.now)) }
    ensures words { IfOk result (λ command. command.words ≡ words_in (map string_bytes arguments.now)) }
{
    match arguments {
        [_, path, words @ ..] => Ok(Command {
            path: path.clone()?,
            words: words_of(alloc, words)?,
        }),
        _ => Ok(Command {
            path: String::from_str(alloc, ".")?,
            words: WordList::empty(alloc),
        }),
    }
}
