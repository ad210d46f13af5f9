//! The commands, their words and their options, as tables.
ghost use Rattle.std.specs.Prelude.{◌≡◌};
ghost use Rattle.commands.specs.Table.{all_commands, command_text, form_of, has_value, is_repeated, option_row, option_text, options_of, row_of, word_text, words_of};

use crate::usage::StopWord;
use feed_rows::MOST_RIDES;

/// An option of a command.
#[derive(Clone, Copy)]
pub enum CommandOption {
    /// The greatest number of rides.
    Rides,
    /// The id of the rider category.
    Rider,
    /// The seconds within which a journey arrives.
    Within,
    /// Whether a last line tells the size of the table.
    Stats,
}

// An option's row: its name as a word, and whether a value follows it; else it is a flag.
type OptionRow = (&'static str, bool);

const RIDES: OptionRow = ("--rides", true);

const RIDER: OptionRow = ("--rider", true);

const WITHIN: OptionRow = ("--within", true);

const STATS: OptionRow = ("--stats", false);

impl CommandOption {
    // Its row.
    fn row(self) -> OptionRow
        ensures { (result.0.now, result.1) ≡ option_row self }
    {
        match self {
            CommandOption::Rides => RIDES,
            CommandOption::Rider => RIDER,
            CommandOption::Within => WITHIN,
            CommandOption::Stats => STATS,
        }
    }

    /// Its name, as a word.
    pub fn text(self) -> &'static str
        ensures { result.now ≡ option_text self }
    {
        self.row().0
    }

    /// Whether a value follows it.
    pub fn has_value(self) -> bool
        ensures { result ≡ has_value self }
    {
        self.row().1
    }
}

/// What a word behind a command is that is no option.
#[derive(Clone, Copy)]
pub enum WordKind {
    /// The id of a stop.
    Stop(StopWord),
    /// The date of departure.
    Date,
    /// The time of departure.
    Time,
    /// A ride.
    Ride,
    /// The first service day.
    First,
    /// The last service day.
    Last,
    /// What numbers are drawn from.
    Seed,
    /// The stops along each side of a square.
    Lines,
}

impl WordKind {
    /// What the command's description calls it.
    pub fn text(self) -> &'static str
        ensures { result.now ≡ word_text self }
    {
        match self {
            WordKind::Stop(StopWord::From) => "FROM",
            WordKind::Stop(StopWord::To) => "TO",
            WordKind::Date => "DATE",
            WordKind::Time => "TIME",
            WordKind::Ride => "RIDE",
            WordKind::First => "FIRST",
            WordKind::Last => "LAST",
            WordKind::Seed => "SEED",
            WordKind::Lines => "LINES",
        }
    }
}

/// A command.
#[derive(Clone, Copy)]
pub enum CommandName {
    /// The journeys of a query.
    Plan,
    /// The least price of rides.
    Price,
    /// Whether the feed is accepted.
    Check,
    /// What a tariff leaves open on some days.
    Audit,
    /// A plan over a feed that is made by rule.
    Gen,
}

// A command's row: the word that names it, the words behind it that are no options, in the order in which they are judged,
// whether the last of these may stand once for each ride of a journey, and the options that it takes. It is a tuple, since
// definitions can't cite a constant of a struct that lends.
type Row = (
    &'static str,
    &'static [WordKind],
    bool,
    &'static [CommandOption],
);

const PLAN: Row = (
    "plan",
    &[
        WordKind::Stop(StopWord::From),
        WordKind::Stop(StopWord::To),
        WordKind::Date,
        WordKind::Time,
    ],
    false,
    &[
        CommandOption::Rides,
        CommandOption::Rider,
        CommandOption::Within,
        CommandOption::Stats,
    ],
);

const PRICE: Row = ("price", &[WordKind::Ride], true, &[CommandOption::Rider]);

const CHECK: Row = ("check", &[], false, &[]);

const AUDIT: Row = (
    "audit",
    &[WordKind::First, WordKind::Last],
    false,
    &[CommandOption::Rider],
);

const GEN: Row = ("gen", &[WordKind::Seed, WordKind::Lines], false, &[]);

impl CommandName {
    /// All commands.
    pub fn all() -> &'static [CommandName]
        ensures { result.now ≡ all_commands }
    {
        &[
            CommandName::Plan,
            CommandName::Price,
            CommandName::Check,
            CommandName::Audit,
            CommandName::Gen,
        ]
    }

    // Its row.
    fn row(self) -> Row
        ensures { (result.0.now, result.1.now, result.2, result.3.now) ≡ row_of self }
    {
        match self {
            CommandName::Plan => PLAN,
            CommandName::Price => PRICE,
            CommandName::Check => CHECK,
            CommandName::Audit => AUDIT,
            CommandName::Gen => GEN,
        }
    }

    /// The word that names it.
    pub fn text(self) -> &'static str
        ensures { result.now ≡ command_text self }
    {
        self.row().0
    }

    /// The words behind it that are no options, in the order in which they are judged.
    pub fn words(self) -> &'static [WordKind]
        ensures { result.now ≡ words_of self }
    {
        self.row().1
    }

    /// Whether the last of these may stand once for each ride of a journey.
    pub fn is_repeated(self) -> bool
        ensures { result ≡ is_repeated self }
    {
        self.row().2
    }

    /// The options that it takes.
    pub fn options(self) -> &'static [CommandOption]
        ensures { result.now ≡ options_of self }
    {
        self.row().3
    }

    /// The least number of its words that are no options.
    pub fn fewest(self) -> usize
        ensures { result ≡ (form_of self).fewest }
    {
        self.words().len()
    }

    /// The greatest number of these.
    pub fn most(self) -> usize
        ensures { result ≡ (form_of self).most }
    {
        if self.is_repeated() {
            MOST_RIDES as usize
        } else {
            self.words().len()
        }
    }
}
