//! The text of a feed's files: tables of cut fields, and the values of fields by their grammars.
#![tactic(auto)]

mod amounts;
mod errors;
mod fields;
mod ids;
mod numbers;
mod reading;
mod records;
mod table;

pub use amounts::amount_of;
pub use errors::{TextError, field_fault, file_fault, row_fault};
pub use fields::{is_filled, is_passed_over, nat_of, natural, read_fields, read_found};
pub use ids::{currency_of, id_ok};
pub use numbers::{count_of, date_of, day_of_parts, int_of, start_in, time_of};
pub use reading::{header_fault, is_text};
pub use records::{RecordError, Records, SeenTable};
pub use table::{Fields, RecordRow, Table, TableRow, has_record};
