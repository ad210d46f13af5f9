//! What is wrong with the words of a command, or with the names that they give.
ghost use Rattle.std.specs.Prelude.{◌≡◌};
ghost use Rattle.commands.specs.UsageFaults.{usage_text};

/// A word that names a stop.
#[derive(Clone, Copy, PartialEq, Eq)]
pub enum StopWord {
    /// `FROM`, where a journey starts.
    From,
    /// `TO`, where it ends.
    To,
}

/// A fault of the words of a command, or of the names that they give. The words that name rides are numbered from 1.
#[derive(Clone, Copy, PartialEq, Eq)]
pub enum UsageFault {
    /// The words are not those of a command.
    WrongWords,
    /// `DATE` is no date from 1900-01-01 to 2999-12-31.
    BadDate,
    /// `TIME` is no time before 24:00:00.
    BadTime,
    /// `--rides` is no number from 0 to 8.
    BadRides,
    /// `--within` is no number from 1 to 259,200.
    BadWindow,
    /// The ride word of this number is not of the form of one, and those before it are.
    BadRide(u32),
    /// `FIRST` is no date from 1900-01-01 to 2999-12-31.
    BadFirst,
    /// `LAST` is no such date, or before `FIRST`, or more than 365 days after it.
    BadLast,
    /// `SEED` is no number from 0 to 65,535.
    BadSeed,
    /// `LINES` is no number from 2 to 32.
    BadLines,
    /// No stop has the id.
    UnknownStop(StopWord),
    /// The stop is neither a platform nor a station.
    WrongStopKind(StopWord),
    /// The ride word of this number names no ride of the feed, and those before it do.
    NoSuchRide(u32),
    /// The ride after that of this number departs before it can be reached, or no link leads to it, and those before it can
    /// be reached.
    NoChange(u32),
    /// No rider category has the id.
    UnknownRider,
    /// No rider category is named, and two or more are marked as default.
    RiderNeeded,
}

impl UsageFault {
    /// The fault's name without its fields, as it is printed.
    pub fn text(self) -> &'static str
        ensures { result.now ≡ usage_text self }
    {
        match self {
            UsageFault::WrongWords => "WrongWords",
            UsageFault::BadDate => "BadDate",
            UsageFault::BadTime => "BadTime",
            UsageFault::BadRides => "BadRides",
            UsageFault::BadWindow => "BadWindow",
            UsageFault::BadRide(_) => "BadRide",
            UsageFault::BadFirst => "BadFirst",
            UsageFault::BadLast => "BadLast",
            UsageFault::BadSeed => "BadSeed",
            UsageFault::BadLines => "BadLines",
            UsageFault::UnknownStop(_) => "UnknownStop",
            UsageFault::WrongStopKind(_) => "WrongStopKind",
            UsageFault::NoSuchRide(_) => "NoSuchRide",
            UsageFault::NoChange(_) => "NoChange",
            UsageFault::UnknownRider => "UnknownRider",
            UsageFault::RiderNeeded => "RiderNeeded",
        }
    }
}

/// What a word behind the command is.
#[derive(Clone, Copy, PartialEq, Eq)]
pub enum WordRole {
    /// `--name`, where the next word is the option's value.
    OptionName,
    /// The value of the option that the word before names.
    OptionValue,
    /// `--name=value`.
    OptionWithValue,
    /// `--name`, where the flag has no value.
    Flag,
    /// A word that its place among the positional words tells, such as `FROM`.
    Positional,
    /// A word that the command does not take.
    Refused,
}
