//! The columns in which an empty field matches what no row names.

use feed_rows::TransferRuleRow;
use number_marks::NumberColumn;

/// A column in which an empty field matches what no row names.
#[derive(Clone, Copy)]
pub enum Column {
    From,
    To,
}

impl NumberColumn<TransferRuleRow> for Column {
    ghost use Rattle.fare_transfer_rules.specs.Columns.{number_in};

    ghost number = { number_in };

    fn number_in(self, row: &TransferRuleRow) -> Option<u32> {
        match self {
            Column::From => Some(row.from?.0),
            Column::To => Some(row.to?.0),
        }
    }
}
