//! Which numbers rows name in a column.
ghost use Rattle.std.specs.Prelude.{◌≡◌, ℕ, ◌&&◌, ◌||◌, nat_lt, length, IfOk};
ghost use Rattle.std.specs.List.{list_any};
ghost use Rattle.number_marks.specs.Marks.{is_marked, is_number};

use std::alloc::{AllocError, Global};

/// A column in which each row may name a number.
pub trait NumberColumn<R>: Copy {
    ghost use Rattle.std.specs.Prelude.{◌≡◌, ℕ, Option};

    /// The number that a row names.
    ghost number: { Self → R → Option ℕ };

    /// The number that the row names.
    fn number_in(self, row: &R) -> Option<u32>
        ensures { result ≡ number self row.now };
}

/// A mark for each number below `count`: whether a row names it in the column.
///
/// # Errors
/// Want of memory.
pub fn marked<R, C: NumberColumn<R>>(
    alloc: Global,
    rows: &[R],
    column: C,
    count: usize,
) -> Result<Vec<bool>, AllocError>
    ensures { IfOk result (λ marks. (i : ℕ) → is_marked marks.items i ≡ (nat_lt i count && list_any (λ row. is_number i (C.number column row)) rows.now)) }
{
    let mut marks = vec![in alloc; false; count]?;
    for row in rows {
        mark(&mut marks, column.number_in(row));
    }
    Ok(marks)
}

// Marks the number, where it is filled and there is a mark for it.
fn mark(marks: &mut [bool], number: Option<u32>)
    ensures many { length marks.new ≡ length marks.old }
    ensures marks { (i : ℕ) → is_marked marks.new i ≡ (is_marked marks.old i || (nat_lt i (length marks.old) && is_number i number)) }
{
    let Some(number) = number else {
        return;
    };
    if (number as usize) < marks.len() {
        marks[number as usize] = true;
    }
}

/// Whether the number is marked.
pub fn is_marked(marks: &[bool], number: u32) -> bool
    ensures { result ≡ is_marked marks.now number }
{
    (number as usize) < marks.len() && marks[number as usize]
}
