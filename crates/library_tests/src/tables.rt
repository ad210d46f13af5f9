// The limit of rows, which a case would need four million of.
ghost use Rattle.std.specs.Prelude.{◌≤◌};

use feed_files::{FaultKind, FeedFault, FileName};
use feed_text::{Table, TextError};
use std::alloc::Global;

// How many rows a table of three has, where at most so many are read.
fn rows_within(alloc: Global, most: u32) -> Result<u32, TextError>
    requires { most ≤ 3 }
{
    let stops = b"stop_id\nA\nB\nC\n";
    Ok(Table::read(alloc, stops, FileName::Stops, true, most)?.rows())
}

// The fault of the file as a whole where there are more.
const TOO_MANY: FeedFault = FeedFault {
    kind: FaultKind::TooManyRows,
    file: FileName::Stops,
    row: 0,
    column: None,
};

#[test]
fn row_limit(rt: HostRuntime) {
    let alloc = rt.alloc();
    assert!(rt; matches!(rows_within(alloc, 3), Ok(3)));
    assert!(rt; matches!(rows_within(alloc, 2), Err(TextError::Fault(fault)) if fault == TOO_MANY));
}
