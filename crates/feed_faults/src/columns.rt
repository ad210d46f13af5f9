//! How the fields of a column are judged.
use feed_files::ColumnName;

/// What the fields of a column are, where they are filled.
#[derive(Clone, Copy, PartialEq, Eq)]
pub enum Grammar {
    /// 1 to 255 bytes without tab, line feed and carriage return.
    Id,
    /// A whole number from `least` to `most`.
    Int { least: i64, most: i64 },
    /// A number of changes: -1, or a whole number from 1 on.
    Count,
    /// A time of at most so many seconds.
    Time { most: u32 },
    /// A date.
    Date,
    /// The code of a currency.
    Currency,
    /// An amount in the currency of its row.
    Amount,
}

/// What an empty field of a column is.
#[derive(Clone, Copy, PartialEq, Eq)]
pub enum EmptyField {
    /// No fault. The column itself may be absent too.
    Fine,
    /// A fault, as is the want of the column.
    Fault,
    /// A fault, as is the want of the column; a row that names a place of GTFS-Flex instead has a fault of its own.
    FaultOrFlex,
}

/// A column of a file, and how its fields are judged.
#[derive(Clone, Copy, PartialEq, Eq)]
pub struct ColumnRule {
    pub name: ColumnName,
    pub empty: EmptyField,
    pub grammar: Grammar,
}
