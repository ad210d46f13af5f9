//! What `clap` finds in the words of a command.
//!
//! The words are judged before, by the definitions of the commands; what it finds in words that fit is what they give.
ghost use Rattle.std.specs.Prelude.{◌≡◌, true, IfOk, is_some};
ghost use Rattle.std.specs.Option.{option_copied};
ghost use Rattle.clap.specs.Matches.{found_of, first_value};
ghost use Rattle.clap.specs.Simple.{app_of, with_rule};
ghost use Rattle.commands.specs.CommandWords.{fits_form, word_at};
ghost use Rattle.plan_words.specs.Found.{flag_rule, option_rule, plain_command, with_all_rules, named_in, IsFound};
ghost use Rattle.plan_words.specs.Rides.{texts_of};
ghost use Rattle.commands.specs.Table.{form_of, option_text};
ghost use Rattle.plan_words.specs.Words.{behind};

use clap::{Arg, ArgAction, ArgMatches, Command};
use commands::{CommandName, CommandOption};
use plan_arguments::WordList;
use std::alloc::{AllocError, Global};

// The command with one option more. Each use of an option is kept: whether it stands once is judged before.
fn with_option<'a>(
    command: Command<'a>,
    alloc: Global,
    id: &'a str,
    name: &'a str,
) -> Result<Command<'a>, AllocError>
    ensures { IfOk result (λ more. app_of more ≡ with_rule (app_of command.entry) (option_rule id.now name.now)) }
{
    let option = Arg::new(alloc, id).long(name).action(ArgAction::Append);
    command.arg(option)
}

// The command with one flag more. Each use of it is kept, as a value that stands for it: whether it stands once is
// judged before.
fn with_flag<'a>(
    command: Command<'a>,
    alloc: Global,
    id: &'a str,
    name: &'a str,
) -> Result<Command<'a>, AllocError>
    ensures { IfOk result (λ more. app_of more ≡ with_rule (app_of command.entry) (flag_rule id.now name.now)) }
{
    let flag = Arg::new(alloc, id)
        .long(name)
        .action(ArgAction::Append)
        .num_args(0_usize)
        .default_missing_value("set");
    command.arg(flag)
}

// A command without options, help and version.
fn plain_command<'a>(alloc: Global) -> Result<Command<'a>, AllocError>
    ensures { IfOk result (λ command. app_of command ≡ plain_command) }
{
    let words = Arg::new(alloc, "WORDS").action(ArgAction::Append);
    Command::new(alloc, "farewise")
        .disable_help_flag(true)
        .disable_version_flag(true)
        .arg(words)
}

// The command with the options of all commands: which of them a command takes is judged before. Each result is matched, as a
// `?` on a value with lifetimes is written out longer.
fn with_all_options<'a>(command: Command<'a>, alloc: Global) -> Result<Command<'a>, AllocError>
    ensures { IfOk result (λ more. app_of more ≡ with_all_rules (app_of command.entry)) }
{
    let command = match with_option(command, alloc, "--rides", "rides") {
        Ok(command) => command,
        Err(AllocError) => return Err(AllocError),
    };
    let command = match with_option(command, alloc, "--rider", "rider") {
        Ok(command) => command,
        Err(AllocError) => return Err(AllocError),
    };
    let command = match with_option(command, alloc, "--within", "within") {
        Ok(command) => command,
        Err(AllocError) => return Err(AllocError),
    };
    with_flag(command, alloc, "--stats", "stats")
}

/// What `clap` finds in words that fit their command, the first of which it takes for the program's name.
///
/// # Errors
/// Want of memory; also where `clap` refuses the words.
pub(crate) fn found_in(command: CommandName, words: &WordList) -> Result<ArgMatches<'_>, AllocError>
    requires { fits_form (form_of command) (behind words.now) ≡ true }
    ensures { IfOk result (IsFound (form_of command) (behind words.now)) }
{
    let known = match plain_command(words.alloc()) {
        Ok(plain) => plain,
        Err(AllocError) => return Err(AllocError),
    };
    let known = match with_all_options(known, words.alloc()) {
        Ok(known) => known,
        Err(AllocError) => return Err(AllocError),
    };
    match known.try_get_matches_from(words.as_slice()) {
        Ok(found) => Ok(found),
        Err(_) => Err(AllocError),
    }
}

/// A positional word that was found, by its number; the empty word past the last.
pub(crate) fn named<'a>(found: &ArgMatches<'a>, number: usize) -> &'a str
    ensures { result.now ≡ word_at (named_in found.now) number }
{
    let Some(words) = found.get_strs("WORDS") else {
        return "";
    };
    match words.get(number) {
        Some(word) => word,
        None => "",
    }
}

/// The positional words that were found, in order.
///
/// # Errors
/// Want of memory.
pub(crate) fn all_named<'a>(
    alloc: Global,
    found: &ArgMatches<'a>,
) -> Result<Vec<&'a str>, AllocError>
    ensures { IfOk result (λ texts. texts_of texts.items ≡ named_in found.now) }
{
    let mut texts = Vec::new(alloc);
    if let Some(words) = found.get_strs("WORDS") {
        texts.extend_from_slice(words)?;
    }
    Ok(texts)
}

/// The value of an option that was found.
pub(crate) fn value_of<'a>(found: &ArgMatches<'a>, option: CommandOption) -> Option<&'a [u8]>
    ensures { option_copied result ≡ first_value (found_of found.now) (option_text option) }
{
    match found.get_str(option.text()) {
        Some(value) => Some(value.as_bytes()),
        None => None,
    }
}

/// Whether a flag was found.
pub(crate) fn is_set(found: &ArgMatches, flag: CommandOption) -> bool
    ensures { result ≡ is_some (first_value (found_of found.now) (option_text flag)) }
{
    found.get_str(flag.text()).is_some()
}
