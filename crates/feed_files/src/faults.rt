//! What is wrong with a feed: the kind of a fault, and its place.
ghost use Rattle.std.specs.Prelude.{◌≡◌};
ghost use Rattle.feed_files.specs.Faults.{fault_number, fault_text};

use crate::names::{ColumnName, FileName};

/// A kind of fault. Its number is printed beside its name.
#[derive(Clone, Copy, PartialEq, Eq)]
pub enum FaultKind {
    /// A required file is absent, or has no record.
    MissingFile,
    /// A file has more than 268,435,456 bytes.
    FileTooLarge,
    /// A file's bytes are not UTF-8.
    NotUtf8,
    /// A file has more than 4,000,000 data rows.
    TooManyRows,
    /// A column that must exist is absent.
    MissingColumn,
    /// A listed column stands twice in the header.
    DoubledColumn,
    /// A field past the header is not empty.
    LongRow,
    /// A field that must be filled is empty.
    EmptyRequired,
    /// A field is no integer of the stated set.
    BadNumber,
    /// A field is no time, or one past the greatest that the column takes.
    BadTime,
    /// A field is no date.
    BadDate,
    /// A field is no amount in its row's currency.
    BadAmount,
    /// A field is no currency code, or one that is out of scope.
    BadCurrency,
    /// The currency differs from that of the first row.
    MixedCurrency,
    /// An earlier row has the same key.
    DoubledKey,
    /// No row has the named id.
    UnknownReference,
    /// A stop of kind 0 whose parent is not a station, or a station with a parent.
    BadParent,
    /// A stop time at a stop that is not of kind 0.
    WrongStopKind,
    /// Times go back within a trip.
    TimesDecrease,
    /// A trip's first or last stop time has neither time.
    EndTimeMissing,
    /// One time without the other, a start not before the end, or an overlap with an earlier row of the same group and service.
    TimeframeFault,
    /// A transfer count against the leg groups, or one of limit and limit type without the other.
    TransferFields,
    /// The file has a data row and some route has a network of its own.
    ForbiddenTogether,
    /// A field is no id: over 255 bytes, or with a tab or a line end.
    BadText,
    /// A stop time of GTFS-Flex, which names no stop.
    FlexRow,
    /// The start date lies after the end date.
    DatesReversed,
    /// A rule by which legs join names one of its two stops without the other.
    JoinStops,
}

impl FaultKind {
    /// The fault's number, from 1 to 27.
    pub fn number(self) -> u8
        ensures { result ≡ fault_number self }
    {
        match self {
            FaultKind::MissingFile => 1,
            FaultKind::FileTooLarge => 2,
            FaultKind::NotUtf8 => 3,
            FaultKind::TooManyRows => 4,
            FaultKind::MissingColumn => 5,
            FaultKind::DoubledColumn => 6,
            FaultKind::LongRow => 7,
            FaultKind::EmptyRequired => 8,
            FaultKind::BadNumber => 9,
            FaultKind::BadTime => 10,
            FaultKind::BadDate => 11,
            FaultKind::BadAmount => 12,
            FaultKind::BadCurrency => 13,
            FaultKind::MixedCurrency => 14,
            FaultKind::DoubledKey => 15,
            FaultKind::UnknownReference => 16,
            FaultKind::BadParent => 17,
            FaultKind::WrongStopKind => 18,
            FaultKind::TimesDecrease => 19,
            FaultKind::EndTimeMissing => 20,
            FaultKind::TimeframeFault => 21,
            FaultKind::TransferFields => 22,
            FaultKind::ForbiddenTogether => 23,
            FaultKind::BadText => 24,
            FaultKind::FlexRow => 25,
            FaultKind::DatesReversed => 26,
            FaultKind::JoinStops => 27,
        }
    }

    /// The fault's name, as it is printed.
    pub fn text(self) -> &'static str
        ensures { result.now ≡ fault_text self }
    {
        match self {
            FaultKind::MissingFile => "MissingFile",
            FaultKind::FileTooLarge => "FileTooLarge",
            FaultKind::NotUtf8 => "NotUtf8",
            FaultKind::TooManyRows => "TooManyRows",
            FaultKind::MissingColumn => "MissingColumn",
            FaultKind::DoubledColumn => "DoubledColumn",
            FaultKind::LongRow => "LongRow",
            FaultKind::EmptyRequired => "EmptyRequired",
            FaultKind::BadNumber => "BadNumber",
            FaultKind::BadTime => "BadTime",
            FaultKind::BadDate => "BadDate",
            FaultKind::BadAmount => "BadAmount",
            FaultKind::BadCurrency => "BadCurrency",
            FaultKind::MixedCurrency => "MixedCurrency",
            FaultKind::DoubledKey => "DoubledKey",
            FaultKind::UnknownReference => "UnknownReference",
            FaultKind::BadParent => "BadParent",
            FaultKind::WrongStopKind => "WrongStopKind",
            FaultKind::TimesDecrease => "TimesDecrease",
            FaultKind::EndTimeMissing => "EndTimeMissing",
            FaultKind::TimeframeFault => "TimeframeFault",
            FaultKind::TransferFields => "TransferFields",
            FaultKind::ForbiddenTogether => "ForbiddenTogether",
            FaultKind::BadText => "BadText",
            FaultKind::FlexRow => "FlexRow",
            FaultKind::DatesReversed => "DatesReversed",
            FaultKind::JoinStops => "JoinStops",
        }
    }
}

/// A fault of a feed with its place.
#[derive(Clone, Copy, PartialEq, Eq)]
pub struct FeedFault {
    pub kind: FaultKind,
    pub file: FileName,
    /// The data row, counted from 1, or 0 where the fault is of the whole file or of its header.
    pub row: u32,
    /// The column, where the fault is of one.
    pub column: Option<ColumnName>,
}
