//! The rows by the leg groups that they name in the column `from_leg_group_id`, and those of each by what they name in
//! the column `to_leg_group_id`.
ghost use Rattle.std.specs.Prelude.{◌≡◌, ℕ, ◌+◌, ◌<◌, ◌^◌, length, filter, All, IfOk, OnOk};
ghost use Rattle.std.specs.List.Sorted.{IsNonDecreasingBy};
ghost use Rattle.std.specs.Option.{ForSome};
ghost use Rattle.feed_rows.specs.declared.rows.TransferRuleRow.{TransferRuleRow};
ghost use Rattle.plain_laws.specs.Plain.{list_below};
ghost use Rattle.fare_transfer_rules.specs.Classes.{field_class, class_of, row_to, member_at, leads_to, IsPutByTo, AreByClasses};

use feed_rows::TransferRuleRow;
use item_groups::{Grouped, Groups};
use number_marks::is_marked;
use std::alloc::{AllocError, Global};
use transit_base::{LegGroupId, XferId};

/// A row, and the class of the leg groups that it matches after a change.
#[derive(Clone, Copy)]
pub struct ClassedRow {
    pub to_class: u64,
    pub row: XferId,
}

/// The class of a leg group: its own, from 1, where some row names it, and 0 where none does.
pub fn class_of(named: &[bool], group: u32) -> u64
    ensures { result ≡ class_of named.now group }
{
    if is_marked(named, group) {
        u64::from(group) + 1
    } else {
        0
    }
}

/// The class of the leg groups that the field of a row matches.
fn field_class(field: Option<LegGroupId>) -> u64
    ensures { result ≡ field_class field }
{
    match field {
        Some(group) => u64::from(group.0) + 1,
        None => 0,
    }
}

/// The rows of each class of the leg group before a change, where there are so many leg groups: by the class of the leg
/// group after it, and those of one class in file order.
///
/// # Errors
/// Want of memory.
pub fn rows_by_from(
    alloc: Global,
    rows: &[TransferRuleRow],
    groups: u32,
) -> Result<Groups<ClassedRow>, AllocError>
    requires few { length rows.now < 2 ^ 32 }
    requires names { All (λ (r : TransferRuleRow). ForSome r.from (λ g. g.0 < groups)) rows.now }
    requires groups { groups < 2 ^ 31 }
    ensures { IfOk result (AreByClasses rows.now (groups + 1)) }
{
    let mut members = in_file_order(alloc, rows)?;
    put_by_to(&mut members)?;
    let by_from = Groups::of(alloc, members, groups + 1)?;
    Ok(by_from)
}

/// All rows with their classes, in file order.
fn in_file_order(
    alloc: Global,
    rows: &[TransferRuleRow],
) -> Result<Vec<Grouped<ClassedRow>>, AllocError>
    requires few { length rows.now < 2 ^ 32 }
    requires names { All (λ (r : TransferRuleRow). ForSome r.from (λ g. g.0 < 2 ^ 31)) rows.now }
    ensures { IfOk result (λ members. members.items ≡ list_below (length rows.now) (member_at rows.now)) }
{
    let mut members = Vec::with_capacity(alloc, rows.len())?;
    for number in 0..rows.len() {
        members.push(member(&rows[number], XferId(number as u32)))?;
    }
    Ok(members)
}

/// The row with its classes.
fn member(rule: &TransferRuleRow, row: XferId) -> Grouped<ClassedRow>
    requires { ForSome rule.now.from (λ g. g.0 < 2 ^ 31) }
    ensures { result ≡ record { group = field_class rule.now.from; item = row_to (field_class rule.now.to) row.0 } }
{
    Grouped {
        group: field_class(rule.from) as u32,
        item: ClassedRow {
            to_class: field_class(rule.to),
            row,
        },
    }
}

/// Puts rows by the classes of the leg groups after a change, those of one class as they were.
fn put_by_to(members: &mut Vec<Grouped<ClassedRow>>) -> Result<(), AllocError>
    ensures { OnOk result (IsPutByTo members.old.items members.new.items) }
{
    members.sort_by_key(|member| member.item.to_class)?;
    Ok(())
}

/// Those of the rows that match the leg groups of this class after a change. The rows stand by these classes.
pub fn rows_to(rows: &[ClassedRow], class: u64) -> &[ClassedRow]
    ensures { IsNonDecreasingBy (λ (row : ClassedRow). row.to_class) rows.now → result.now ≡ filter (leads_to class) rows.now }
{
    let first = rows.partition_point(|row| row.to_class < class);
    let end = rows.partition_point(|row| row.to_class <= class);
    &rows[first..end.max(first)]
}
