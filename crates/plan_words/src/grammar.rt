//! The grammar of the words behind a command: options with values, flags and positional words, in any order.
ghost use Rattle.std.specs.Prelude.{◌≡◌, ◌<◌, if◌then◌else◌, length, is_some, [], ◌∷◌, ◌&&◌, ◌||◌, nat_le, not, bytes_eq, codes, count_by, IfOk};
ghost use Rattle.std.specs.List.{list_any, list_all};
ghost use Rattle.std.specs.Option.{option_copied};
ghost use Rattle.plain_laws.specs.Plain.{count_below};
ghost use Rattle.commands.specs.CommandWords.{is_one_of, is_dashed, joined_value, follows_option, role_at, is_taken, is_positional, value_at, is_single_flag, is_single_option, fits_form, word_at};
ghost use Rattle.commands.specs.Table.{form_of, has_value, option_text};
ghost use Rattle.plan_words.specs.Words.{behind, roles_below};

use crate::words::{count_behind, word_behind};
use commands::{CommandName, CommandOption, WordRole};
use plan_arguments::WordList;
use std::alloc::AllocError;

// Whether the word is the name of the option, which has a value.
fn names_option(option: CommandOption, word: &str) -> bool
    ensures { result ≡ (has_value option && bytes_eq word.now (option_text option)) }
{
    option.has_value() && word == option.text()
}

// Whether the word is the name of an option of the command.
fn is_option(command: CommandName, word: &str) -> bool
    ensures { result ≡ is_one_of (form_of command).options word.now }
{
    command
        .options()
        .iter()
        .any(|option| names_option(*option, word))
}

// Whether the word is the name of the option with its value behind `=`.
fn joins_option(option: CommandOption, word: &str) -> bool
    ensures { result ≡ (has_value option && is_some (joined_value (option_text option) word.now)) }
{
    option.has_value() && joined_value(option.text(), word).is_some()
}

// Whether the word is the name of an option of the command with its value behind `=`.
fn is_joined(command: CommandName, word: &str) -> bool
    ensures { result ≡ list_any (λ option. is_some (joined_value option word.now)) (form_of command).options }
{
    command
        .options()
        .iter()
        .any(|option| joins_option(*option, word))
}

// Whether the word is the flag.
fn names_flag(option: CommandOption, word: &str) -> bool
    ensures { result ≡ (not (has_value option) && bytes_eq word.now (option_text option)) }
{
    !option.has_value() && word == option.text()
}

// Whether the word is a flag of the command.
fn is_flag(command: CommandName, word: &str) -> bool
    ensures { result ≡ is_one_of (form_of command).flags word.now }
{
    command
        .options()
        .iter()
        .any(|option| names_flag(*option, word))
}

// Whether the option stands at most once, where it has a value.
fn is_single_option(option: CommandOption, words: &WordList) -> bool
    ensures { result ≡ (not (has_value option) || is_single_option (behind words.now) (option_text option)) }
{
    !option.has_value() || count_values(words, option.text()) <= 1
}

// Whether each option of the command stands at most once among the words behind it.
fn has_single_options(command: CommandName, words: &WordList) -> bool
    ensures { result ≡ list_all (is_single_option (behind words.now)) (form_of command).options }
{
    command
        .options()
        .iter()
        .all(|option| is_single_option(*option, words))
}

// Whether the flag stands at most once, where it is one.
fn is_single_flag(option: CommandOption, words: &WordList) -> bool
    ensures { result ≡ (has_value option || is_single_flag (behind words.now) (option_text option)) }
{
    option.has_value() || count_uses(words, option.text()) <= 1
}

// Whether each flag of the command stands at most once among the words behind it.
fn has_single_flags(command: CommandName, words: &WordList) -> bool
    ensures { result ≡ list_all (is_single_flag (behind words.now)) (form_of command).flags }
{
    command
        .options()
        .iter()
        .all(|option| is_single_flag(*option, words))
}

// What the word of that number behind the command is.
#[tactic(auto, unfolding(commands::specs::CommandWords::role_at))]
fn role_at(command: CommandName, words: &WordList, i: usize) -> WordRole
    requires { i < length (behind words.now) }
    ensures { result ≡ role_at (form_of command) (behind words.now) i }
{
    let word = word_behind(words, i);
    if is_never_taken(word) {
        return WordRole::Refused;
    }
    if follows_option(command, words, i) {
        return role_of_value(word);
    }
    if is_option(command, word) {
        return if count_behind(words) > i + 1 {
            WordRole::OptionName
        } else {
            WordRole::Refused
        };
    }
    if is_joined(command, word) {
        return WordRole::OptionWithValue;
    }
    if is_flag(command, word) {
        return WordRole::Flag;
    }
    if is_dashed(word) {
        WordRole::Refused
    } else {
        WordRole::Positional
    }
}

// Whether the word before the one of that number names an option.
fn follows_option(command: CommandName, words: &WordList, i: usize) -> bool
    requires { i < length (behind words.now) }
    ensures { result ≡ follows_option (form_of command) (behind words.now) i }
{
    i > 0 && is_option(command, word_behind(words, i - 1))
}

// What each word behind the command is.
fn roles_of(command: CommandName, words: &WordList) -> Result<Vec<WordRole>, AllocError>
    ensures { IfOk result (λ roles. roles.items ≡ roles_below (form_of command) (behind words.now) (length (behind words.now))) }
{
    let mut roles = Vec::new(words.alloc());
    for i in 0..count_behind(words) {
        roles.push(role_at(command, words, i))?;
    }
    Ok(roles)
}

// Whether a word with this role is positional.
fn is_positional(role: WordRole) -> bool
    ensures { result ≡ is_positional role }
{
    match role {
        WordRole::Positional => true,
        WordRole::OptionName
        | WordRole::OptionValue
        | WordRole::OptionWithValue
        | WordRole::Flag
        | WordRole::Refused => false,
    }
}

// Whether a word with this role is taken.
fn is_taken(role: WordRole) -> bool
    ensures { result ≡ is_taken role }
{
    match role {
        WordRole::Refused => false,
        WordRole::OptionName
        | WordRole::OptionValue
        | WordRole::OptionWithValue
        | WordRole::Flag
        | WordRole::Positional => true,
    }
}

// Whether words with these roles are all taken.
fn are_taken(roles: &[WordRole]) -> bool
    ensures { result ≡ list_all is_taken roles.now }
{
    roles.iter().all(|role| is_taken(*role))
}

// How many words with these roles are positional.
fn count_positional(roles: &[WordRole]) -> usize
    ensures { result ≡ count_by is_positional roles.now }
{
    roles.iter().filter(|role| is_positional(**role)).count()
}

// Whether the command takes so many positional words.
fn takes_so_many(command: CommandName, count: usize) -> bool
    ensures { result ≡ (nat_le (form_of command).fewest count && nat_le count (form_of command).most) }
{
    command.fewest() <= count && count <= command.most()
}

/// Whether the words behind the command are such as it takes, each option at most once, with as many positional words as
/// it asks for.
///
/// # Errors
/// Want of memory.
pub(crate) fn fits(command: CommandName, words: &WordList) -> Result<bool, AllocError>
    ensures { IfOk result (λ fits. fits ≡ fits_form (form_of command) (behind words.now)) }
{
    let roles = roles_of(command, words)?;
    if !are_taken(&roles)
        || !has_single_options(command, words)
        || !has_single_flags(command, words)
    {
        return Ok(false);
    }
    Ok(takes_so_many(command, count_positional(&roles)))
}

// Whether no command takes the word.
fn is_never_taken(word: &str) -> bool
    ensures { result ≡ is_one_of ([] ∷ codes "-" ∷ codes "--" ∷ []) word.now }
{
    word.is_empty() || word == "-" || word == "--"
}

// Whether the word begins with `-`.
fn is_dashed(word: &str) -> bool
    ensures { result ≡ is_dashed word.now }
{
    let word = word.as_bytes();
    !word.is_empty() && word[0] == b'-'
}

// What a word is that follows an option's name.
fn role_of_value(word: &str) -> WordRole
    ensures { result ≡ (if is_dashed word.now then WordRole.Refused else WordRole.OptionValue) }
{
    if is_dashed(word) {
        WordRole::Refused
    } else {
        WordRole::OptionValue
    }
}

// The value that the word gives to the option as `--name=value`, where it is not empty.
fn joined_value<'a>(option: &str, word: &'a str) -> Option<&'a [u8]>
    ensures { option_copied result ≡ joined_value option.now word.now }
{
    let word = word.as_bytes();
    let end = option.len();
    if word.len() <= end || word.len() - end == 1 {
        return None;
    }
    if &word[..end] != option.as_bytes() || word[end] != b'=' {
        return None;
    }
    Some(&word[end + 1..])
}

// The value that the word of that number gives to the option: the next word after `--name`, or what stands behind
// `--name=`.
#[tactic(auto, using(crate::proofs::WordLaws::word_there, crate::proofs::WordLaws::no_word), unfolding(commands::specs::CommandWords::value_at))]
fn value_at<'a>(words: &'a WordList, option: &str, i: usize) -> Option<&'a [u8]>
    requires { i < length (behind words.now) }
    ensures { option_copied result ≡ value_at (behind words.now) option.now i }
{
    if word_behind(words, i) != option {
        return joined_value(option, word_behind(words, i));
    }
    if count_behind(words) > i + 1 {
        Some(word_behind(words, i + 1).as_bytes())
    } else {
        None
    }
}

// How often a value is given to the option.
#[tactic(auto, using(crate::proofs::WordLaws::count_below_next))]
fn count_values(words: &WordList, option: &str) -> usize
    ensures { result ≡ count_below (length (behind words.now)) (λ i. is_some (value_at (behind words.now) option.now i)) }
{
    let mut count = 0;
    for i in 0..count_behind(words) {
        if value_at(words, option, i).is_some() {
            count += 1;
        }
    }
    count
}

// How often the flag stands among the words behind the command.
#[tactic(auto, using(crate::proofs::WordLaws::count_below_next))]
fn count_uses(words: &WordList, flag: &str) -> usize
    ensures { result ≡ count_below (length (behind words.now)) (λ i. bytes_eq (word_at (behind words.now) i) flag.now) }
{
    let mut count = 0;
    for i in 0..count_behind(words) {
        if word_behind(words, i) == flag {
            count += 1;
        }
    }
    count
}
