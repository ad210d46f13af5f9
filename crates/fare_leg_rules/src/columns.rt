//! The columns in which an empty field may match what no rule names.

use feed_rows::LegRuleRow;
use number_marks::NumberColumn;

/// A column in which an empty field may match what no rule names.
#[derive(Clone, Copy)]
pub enum Column {
    Network,
    FromArea,
    ToArea,
}

impl NumberColumn<LegRuleRow> for Column {
    ghost use Rattle.fare_leg_rules.specs.Columns.{number_in};

    ghost number = { number_in };

    fn number_in(self, row: &LegRuleRow) -> Option<u32> {
        match self {
            Column::Network => Some(row.network?.0),
            Column::FromArea => Some(row.from_area?.0),
            Column::ToArea => Some(row.to_area?.0),
        }
    }
}
