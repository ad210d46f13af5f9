//! What a command's words ask for.
ghost use Rattle.std.specs.Prelude.{◌≡◌, true, List, ℕ, Ok, IfOk, IfErr};
ghost use Rattle.commands.specs.CommandWords.{positional_words, fits_form};
ghost use Rattle.commands.specs.Commands.{read_audit, read_by, read_command, read_gen, read_plan, read_price, command_named};
ghost use Rattle.commands.specs.Table.{form_of};
ghost use Rattle.plan_words.specs.Errors.{IsErrorOf};
ghost use Rattle.plan_words.specs.Found.{IsFound};
ghost use Rattle.plan_words.specs.Words.{behind};
ghost use Rattle.plan_words.specs.Request.{command_request, IsUsualRequest};

use crate::error::WordsError;
use crate::found::{all_named, found_in, is_set, named, value_of};
use crate::grammar::fits;
use crate::rides::{RideWords, rides_in};
use crate::values::{date_in, last_in, number_in, option_number};
use clap::ArgMatches;
use commands::{CommandName, CommandOption, UsageFault};
use feed_rows::{MOST_RIDES, USUAL_WINDOW};
use feed_text::time_of;
use plan_arguments::WordList;
use std::alloc::AllocError;
use transit_base::{Day, Moment};

// The seconds within which a plan may ask to arrive, at most.
const MOST_WINDOW: u32 = 259_200;

/// What a command's words ask for.
#[derive(Drop)]
pub enum CommandWords<'a> {
    /// An answer about the feed of the folder.
    Asks(Question<'a>),
    /// A plan over a generated feed.
    Gen(GenWords),
}

/// What is asked about the feed of the folder.
#[derive(Drop)]
pub enum Question<'a> {
    /// The journeys of a plan.
    Plan(PlanWords<'a>),
    /// The price of rides.
    Price(PriceWords<'a>),
    /// Whether the feed is accepted.
    Check,
    /// What the tariff leaves open on some days.
    Audit(AuditWords<'a>),
}

/// A plan, as its words say it.
#[derive(Clone, Copy)]
pub struct PlanWords<'a> {
    /// The id of the stop where it starts.
    pub from: &'a str,
    /// The id of the stop where it ends.
    pub to: &'a str,
    pub departure: Moment,
    /// The greatest number of rides.
    pub rides: u8,
    /// The id of the rider category.
    pub rider: Option<&'a [u8]>,
    /// The seconds after the departure within which a journey arrives.
    pub window: u32,
    /// Whether a last line tells the size of the table.
    pub stats: bool,
}

/// The rides of which the price is asked, as words say it.
#[derive(Drop)]
pub struct PriceWords<'a> {
    /// The id of the rider category.
    pub rider: Option<&'a [u8]>,
    /// The rides, in order.
    pub rides: RideWords<'a>,
}

/// The service days of an audit, as words say them.
#[derive(Clone, Copy)]
pub struct AuditWords<'a> {
    /// The first day.
    pub first: Day,
    /// The last day, at most 365 days later.
    pub last: Day,
    /// The id of the rider category.
    pub rider: Option<&'a [u8]>,
}

/// A generated feed, as words say it.
#[derive(Clone, Copy)]
pub struct GenWords {
    /// What its numbers are drawn from, from 0 to 65,535.
    pub seed: u32,
    /// The stops along each side of its square, from 2 to 32.
    pub lines: u32,
}

// The plan that `clap` found the fields of, or its first fault.
fn plan_in<'a>(found: &ArgMatches<'a>) -> Result<CommandWords<'a>, WordsError>
    ensures value { (words : List (List ℕ)) → IsFound (form_of CommandName.Plan) words found.now → IfOk result (λ command. Ok (command_request command) ≡ read_plan (positional_words (form_of CommandName.Plan) words) words) }
    ensures usual { IfOk result IsUsualRequest }
    ensures err { (words : List (List ℕ)) → IsFound (form_of CommandName.Plan) words found.now → IfErr result (IsErrorOf (read_plan (positional_words (form_of CommandName.Plan) words) words)) }
{
    let Some(day) = date_in(named(found, 2).as_bytes()) else {
        return Err(WordsError::Usage(UsageFault::BadDate));
    };
    let Some(seconds) = time_of(named(found, 3).as_bytes(), 86_399) else {
        return Err(WordsError::Usage(UsageFault::BadTime));
    };
    let Some(rides) = option_number(value_of(found, CommandOption::Rides), 4, 0, MOST_RIDES) else {
        return Err(WordsError::Usage(UsageFault::BadRides));
    };
    let within = value_of(found, CommandOption::Within);
    let Some(window) = option_number(within, USUAL_WINDOW, 1, MOST_WINDOW) else {
        return Err(WordsError::Usage(UsageFault::BadWindow));
    };
    Ok(CommandWords::Asks(Question::Plan(PlanWords {
        from: named(found, 0),
        to: named(found, 1),
        departure: Moment::at(day, i64::from(seconds)),
        rides: rides as u8,
        rider: value_of(found, CommandOption::Rider),
        window,
        stats: is_set(found, CommandOption::Stats),
    })))
}

// The rides whose price the words ask for, of which `clap` found these fields, or their first fault.
fn price_in<'a>(words: &WordList, found: &ArgMatches<'a>) -> Result<CommandWords<'a>, WordsError>
    requires fits { fits_form (form_of CommandName.Price) (behind words.now) ≡ true }
    requires found { IsFound (form_of CommandName.Price) (behind words.now) found.now }
    ensures value { IfOk result (λ command. Ok (command_request command) ≡ read_price (positional_words (form_of CommandName.Price) (behind words.now)) (behind words.now)) }
    ensures usual { IfOk result IsUsualRequest }
    ensures err { IfErr result (IsErrorOf (read_price (positional_words (form_of CommandName.Price) (behind words.now)) (behind words.now))) }
{
    let texts = all_named(words.alloc(), found)?;
    match rides_in(texts) {
        Ok(rides) => Ok(CommandWords::Asks(Question::Price(PriceWords {
            rider: value_of(found, CommandOption::Rider),
            rides,
        }))),
        Err(fault) => Err(WordsError::Usage(fault)),
    }
}

// The service days of an audit that `clap` found the fields of, or their first fault.
fn audit_in<'a>(found: &ArgMatches<'a>) -> Result<CommandWords<'a>, WordsError>
    ensures value { (words : List (List ℕ)) → IsFound (form_of CommandName.Audit) words found.now → IfOk result (λ command. Ok (command_request command) ≡ read_audit (positional_words (form_of CommandName.Audit) words) words) }
    ensures usual { IfOk result IsUsualRequest }
    ensures err { (words : List (List ℕ)) → IsFound (form_of CommandName.Audit) words found.now → IfErr result (IsErrorOf (read_audit (positional_words (form_of CommandName.Audit) words) words)) }
{
    let Some(first) = date_in(named(found, 0).as_bytes()) else {
        return Err(WordsError::Usage(UsageFault::BadFirst));
    };
    let Some(last) = last_in(first, named(found, 1).as_bytes()) else {
        return Err(WordsError::Usage(UsageFault::BadLast));
    };
    Ok(CommandWords::Asks(Question::Audit(AuditWords {
        first,
        last,
        rider: value_of(found, CommandOption::Rider),
    })))
}

// The generated feed that `clap` found the fields of, or its first fault.
fn gen_in<'a>(found: &ArgMatches<'a>) -> Result<CommandWords<'a>, WordsError>
    ensures value { (words : List (List ℕ)) → IsFound (form_of CommandName.Gen) words found.now → IfOk result (λ command. Ok (command_request command) ≡ read_gen (positional_words (form_of CommandName.Gen) words) words) }
    ensures usual { IfOk result IsUsualRequest }
    ensures err { (words : List (List ℕ)) → IsFound (form_of CommandName.Gen) words found.now → IfErr result (IsErrorOf (read_gen (positional_words (form_of CommandName.Gen) words) words)) }
{
    let Some(seed) = number_in(named(found, 0).as_bytes(), 0, 65_535) else {
        return Err(WordsError::Usage(UsageFault::BadSeed));
    };
    let Some(lines) = number_in(named(found, 1).as_bytes(), 2, 32) else {
        return Err(WordsError::Usage(UsageFault::BadLines));
    };
    Ok(CommandWords::Gen(GenWords { seed, lines }))
}

// What words that fit their command ask for, of which `clap` found these fields, or their first fault.
fn command_in<'a>(
    command: CommandName,
    words: &WordList,
    found: &ArgMatches<'a>,
) -> Result<CommandWords<'a>, WordsError>
    requires fits { fits_form (form_of command) (behind words.now) ≡ true }
    requires found { IsFound (form_of command) (behind words.now) found.now }
    ensures value { IfOk result (λ asked. Ok (command_request asked) ≡ read_by command (positional_words (form_of command) (behind words.now)) (behind words.now)) }
    ensures usual { IfOk result IsUsualRequest }
    ensures err { IfErr result (IsErrorOf (read_by command (positional_words (form_of command) (behind words.now)) (behind words.now))) }
{
    match command {
        CommandName::Plan => plan_in(found),
        CommandName::Price => price_in(words, found),
        CommandName::Check => Ok(CommandWords::Asks(Question::Check)),
        CommandName::Audit => audit_in(found),
        CommandName::Gen => gen_in(found),
    }
}

// The command of that name.
fn command_named(name: &str) -> Option<CommandName>
    ensures { result ≡ command_named name.now }
{
    CommandName::all()
        .iter()
        .copied()
        .find(|command| name == command.text())
}

/// What the words ask for, or their first fault. They are judged by the definitions; those without a fault of their grammar go
/// through `clap`, which finds the fields.
///
/// # Errors
/// That fault; want of memory.
#[tactic(auto, unfolding(commands::specs::Commands::read_command))]
pub fn read_command(words: &WordList) -> Result<CommandWords<'_>, WordsError>
    ensures value { IfOk result (λ command. Ok (command_request command) ≡ read_command words.now) }
    ensures usual { IfOk result IsUsualRequest }
    ensures err { IfErr result (IsErrorOf (read_command words.now)) }
{
    if words.is_empty() {
        return Err(WordsError::Usage(UsageFault::WrongWords));
    }
    let Some(command) = command_named(words.word(0)) else {
        return Err(WordsError::Usage(UsageFault::WrongWords));
    };
    if !fits(command, words)? {
        return Err(WordsError::Usage(UsageFault::WrongWords));
    }
    match found_in(command, words) {
        Ok(found) => command_in(command, words, &found),
        Err(AllocError) => Err(WordsError::NoMemory),
    }
}
