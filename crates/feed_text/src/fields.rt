//! The fields of a row: what they tell, or what is wrong with them.
ghost use Rattle.std.specs.Prelude.{◌≡◌, ◌<◌, ◌^◌, ℕ, List, true, false, IfOk, IfErr, OnOk, None, Some};
ghost use Rattle.std.specs.Option.{ForSome};
ghost use Rattle.feed_files.specs.declared.names.ColumnName.TheVariants as column;
ghost use Rattle.feed_faults.specs.FileColumns.{fits, misfit};
ghost use Rattle.feed_faults.specs.FormFaults.{field_misfit, is_passed_over, judged_columns, fault_of_field, fault_of_fields};
ghost use Rattle.feed_faults.specs.AcceptedFeed.{finite_count};
ghost use Rattle.feed_faults.specs.FieldValues.{nat_of};
ghost use Rattle.feed_faults.specs.Records.{is_filled};
ghost use Rattle.feed_text.specs.FieldNumbers.{number_by, field_number, numbers_of, IsShort};
ghost use Rattle.feed_text.specs.RowLimits.{row_limit};

use crate::amounts::amount_of;
use crate::errors::field_fault;
use crate::ids::{currency_of, id_ok};
use crate::numbers::{count_of, date_of, int_of, time_of};
use crate::table::Fields;
use feed_faults::{ColumnRule, EmptyField, Grammar, rule_of};
use feed_files::{ColumnName, FaultKind, FeedFault, FileName};
use std::alloc::AllocError;

/// Whether a field isn't empty.
pub fn is_filled(text: &[u8]) -> bool
    ensures { result ≡ is_filled text.now }
{
    !text.is_empty()
}

// What a text of the grammar tells.
#[inline(always)]
fn number_by<F: Fields>(grammar: Grammar, fields: &F, text: &[u8]) -> Option<i64>
    ensures { result ≡ number_by grammar (F.at fields.now column.Currency) text.now }
{
    match grammar {
        Grammar::Id => None,
        Grammar::Int { least, most } => int_of(text, least, most),
        Grammar::Count => count_of(text),
        Grammar::Time { most } => time_of(text, most).map(i64::from),
        Grammar::Date => date_of(text).map(|day| day.0),
        Grammar::Currency => currency_of(text).map(i64::from),
        Grammar::Amount => {
            let decimals = currency_of(fields.field(ColumnName::Currency))?;
            amount_of(text, decimals).map(|amount| amount.0)
        }
    }
}

// Whether a text that tells this number is of the grammar.
#[inline(always)]
fn fits(grammar: Grammar, number: Option<i64>, text: &[u8]) -> bool
    ensures { (row_currency : List ℕ) → number ≡ number_by grammar row_currency text.now → result ≡ fits grammar row_currency text.now }
{
    match grammar {
        Grammar::Id => id_ok(text),
        _ => number.is_some(),
    }
}

// The fault of a text that isn't of the grammar.
fn misfit(grammar: Grammar) -> FaultKind
    ensures { result ≡ misfit grammar }
{
    match grammar {
        Grammar::Id => FaultKind::BadText,
        Grammar::Int { .. } | Grammar::Count => FaultKind::BadNumber,
        Grammar::Time { .. } => FaultKind::BadTime,
        Grammar::Date => FaultKind::BadDate,
        Grammar::Currency => FaultKind::BadCurrency,
        Grammar::Amount => FaultKind::BadAmount,
    }
}

// What the text of a row's field in a column tells, or what is wrong with it.
#[inline(always)]
#[tactic(auto, unfolding(feed_faults::specs::FormFaults::field_misfit, feed_faults::specs::FormFaults::names_flex_place), using(crate::proofs::NumberLaws::nothing_told))]
fn read_field<F: Fields>(
    fields: &F,
    rule: ColumnRule,
    text: &[u8],
) -> Result<Option<i64>, FaultKind>
    requires { text.now ≡ F.at fields.now rule.name }
    ensures fault { IfErr result (λ kind. field_misfit (F.at fields.now) rule ≡ Some kind) }
    ensures sound { OnOk result (field_misfit (F.at fields.now) rule ≡ None) }
    ensures number { IfOk result (λ number. number ≡ field_number (F.at fields.now) rule) }
{
    if is_filled(text) {
        let number = number_by(rule.grammar, fields, text);
        if !fits(rule.grammar, number, text) {
            return Err(misfit(rule.grammar));
        }
        return Ok(number);
    }
    match rule.empty {
        EmptyField::Fine => Ok(None),
        EmptyField::FaultOrFlex
            if is_filled(fields.field(ColumnName::LocationGroupId))
                || is_filled(fields.field(ColumnName::LocationId)) => { Err(FaultKind::FlexRow) }
        EmptyField::Fault | EmptyField::FaultOrFlex => Err(FaultKind::EmptyRequired),
    }
}

/// What the text of a row's field in a column tells: none where it is empty, or an id. Answers its fault, where it has one.
/// Inlined, so that a column that is known is judged without a look at its rule.
#[inline(always)]
#[tactic(auto, using(crate::proofs::NumberLaws::own_fault, crate::proofs::NumberLaws::no_fault))]
pub fn read_found<F: Fields>(
    file: FileName,
    row: u32,
    fields: &F,
    rule: ColumnRule,
    text: &[u8],
) -> Result<Option<i64>, FeedFault>
    requires few { row < row_limit }
    requires text { text.now ≡ F.at fields.now rule.name }
    ensures fault { IfErr result (λ fault. fault_of_field file row (F.at fields.now) rule ≡ Some fault) }
    ensures sound { OnOk result (fault_of_field file row (F.at fields.now) rule ≡ None) }
    ensures number { IfOk result (λ number. number ≡ field_number (F.at fields.now) rule) }
{
    match read_field(fields, rule, text) {
        Ok(number) => Ok(number),
        Err(kind) => Err(field_fault(file, row, rule.name, kind)),
    }
}

/// Whether a row of `transfers.txt` is passed over: it is of type 4 or 5, or it names routes or trips.
#[tactic(auto, unfolding(feed_faults::specs::FormFaults::is_passed_over))]
pub fn is_passed_over<F: Fields>(fields: &F) -> bool
    ensures { result ≡ is_passed_over (F.at fields.now) }
{
    int_of(fields.field(ColumnName::TransferType), 4, 5).is_some()
        || is_filled(fields.field(ColumnName::FromRouteId))
        || is_filled(fields.field(ColumnName::ToRouteId))
        || is_filled(fields.field(ColumnName::FromTripId))
        || is_filled(fields.field(ColumnName::ToTripId))
}

// The columns of a row that are judged: of a row that is passed over, the type alone.
fn judged_columns<F: Fields>(file: FileName, fields: &F) -> &'static [ColumnRule]
    ensures { result.now ≡ judged_columns file (F.at fields.now) }
{
    if file == FileName::Transfers && is_passed_over(fields) {
        return &rule_of(FileName::Transfers).columns[..1];
    }
    rule_of(file).columns
}

/// Replaces what `numbers` holds by what the fields of a row of the file tell: of each column that is judged, in their
/// order, the number of the field; none where it is empty, or an id. Answers the first fault of the fields, where they have
/// one; then `numbers` is cut short.
///
/// # Errors
/// Want of memory.
pub fn read_fields<F: Fields>(
    file: FileName,
    row: u32,
    fields: &F,
    numbers: &mut Vec<Option<i64>>,
) -> Result<Option<FeedFault>, AllocError>
    requires { row < row_limit }
    ensures fault { IfOk result (λ fault. fault ≡ fault_of_fields file row (F.at fields.now)) }
    ensures numbers { IfOk result (λ fault. fault ≡ None → numbers.new.items ≡ numbers_of file (F.at fields.now)) }
{
    numbers.clear();
    let rules = judged_columns(file, fields);
    for (i, rule) in rules.iter().enumerate() {
        match read_found(file, row, fields, *rule, fields.field(rule.name)) {
            Ok(number) => numbers.push(number)?,
            Err(fault) => return Ok(Some(fault)),
        }
    }
    Ok(None)
}

/// A number from 0 on; none where there is none, or it is less, as -1 for changes without a limit.
pub fn natural(number: Option<i64>) -> Option<u32>
    requires { ForSome (finite_count number) (λ n. n < 2 ^ 32) }
    ensures { result ≡ finite_count number }
{
    u32::try_from(number?).ok()
}

/// A number that is short, from 0 on; 0 where there is none.
pub fn nat_of(number: Option<i64>) -> u32
    requires { IsShort number }
    ensures value { result ≡ nat_of number }
    ensures most { result < 2 ^ 31 }
{
    match number {
        Some(value) => value as u32,
        None => 0,
    }
}
