//! What is wrong with files: faults at their places, and why bytes make no table.
ghost use Rattle.std.specs.Prelude.{◌≡◌, ◌<◌};
ghost use Rattle.feed_faults.specs.FaultPlaces.{file_fault, column_fault, row_fault, field_fault};
ghost use Rattle.feed_text.specs.RowLimits.{row_limit};

use feed_files::{ColumnName, FaultKind, FeedFault, FileName};
use std::alloc::AllocError;

/// Why the bytes of files make no tables, or no feed.
#[derive(Clone, Copy, PartialEq, Eq)]
pub enum TextError {
    /// The first fault of what was judged: of a file before its rows, of a file by itself, or of a feed.
    Fault(FeedFault),
    /// Want of memory.
    NoMemory,
}

impl From<AllocError> for TextError {
    ghost use Rattle.std.specs.Prelude.{◌≡◌};
    ghost use Rattle.feed_text.specs.declared.errors.TextError.TheVariants as error;

    ghost from_gives = { λ e f. f ≡ error.NoMemory };

    fn from(_error: AllocError) -> TextError {
        TextError::NoMemory
    }
}

/// A fault of a whole file.
pub fn file_fault(file: FileName, kind: FaultKind) -> FeedFault
    ensures { result ≡ file_fault file kind }
{
    FeedFault {
        kind,
        file,
        row: 0,
        column: None,
    }
}

/// A fault of a column of the header.
pub fn column_fault(file: FileName, column: ColumnName, kind: FaultKind) -> FeedFault
    ensures { result ≡ column_fault file column kind }
{
    FeedFault {
        column: Some(column),
        ..file_fault(file, kind)
    }
}

/// A fault of a data row, which is numbered from 0 here.
pub fn row_fault(file: FileName, row: u32, kind: FaultKind) -> FeedFault
    requires { row < row_limit }
    ensures { result ≡ row_fault file row kind }
{
    FeedFault {
        row: row + 1,
        ..file_fault(file, kind)
    }
}

/// A fault of a field of such a row.
pub fn field_fault(file: FileName, row: u32, column: ColumnName, kind: FaultKind) -> FeedFault
    requires { row < row_limit }
    ensures { result ≡ field_fault file row column kind }
{
    FeedFault {
        column: Some(column),
        ..row_fault(file, row, kind)
    }
}
