//! The line of a text that is being written.
ghost use Rattle.std.specs.Prelude.{◌≡◌, ◌<◌, ◌++◌, ◌∷◌, [], OnOk, decimal, map};
ghost use Rattle.std.specs.List.{flat_map};
ghost use Rattle.transit_base.specs.Dates.{is_dated};
ghost use Rattle.transit_base.specs.DateTexts.{two_digits, date_text, time_text, moment_text};
ghost use Rattle.feed_rows.specs.MoneyText.{sign_text, decimals_text, units_of_whole, money_text};
ghost use Rattle.feed_rows.specs.EntryText.{service_time_text};
ghost use Rattle.feed_rows.specs.Lines.{fields_text, line};
ghost use Rattle.ticket_explain.specs.Fields.{field_text, behind_tab};
ghost use Rattle.ticket_explain.specs.LineParts.{head_text};

use crate::field::Field;
use itoa::Buffer;
use std::alloc::{AllocError, Global};
use std::marker::Model;
use transit_base::{Day, MOST_TIME, Moment, Money, Secs, date_text, time_text};

/// A line that is being written, so that its memory serves for the next line too. Contracts see it as its bytes.
#[derive(Drop)]
pub struct Line {
    bytes: Vec<u8>,
}

impl Model for Line {
    ghost use Rattle.std.specs.Prelude.{ℕ, List};

    ghost Value = { List ℕ };

    ghost view = { λ l. l.bytes.items };
}

impl Line {
    /// The line without bytes.
    pub fn empty(alloc: Global) -> Line
        ensures { result ≡ [] }
    {
        Line {
            bytes: Vec::new(alloc),
        }
    }

    // Begins the line anew, with a word.
    fn start(&mut self, word: &[u8]) -> Result<(), AllocError>
        ensures { OnOk result (self.new ≡ word.now) }
    {
        self.bytes.clear();
        self.bytes.extend_from_slice(word)
    }

    /// Begins the line anew, with a word and its first fields.
    #[tactic(auto, using(crate::proofs::LineLaws::head_of))]
    pub fn begin(&mut self, word: &[u8], fields: &[Field<'_>]) -> Result<(), AllocError>
        ensures { OnOk result (self.new ≡ head_text word.now (map field_text fields.now)) }
    {
        self.start(word)?;
        self.push_all(fields)
    }

    /// Adds the last fields, and ends the line.
    #[tactic(auto, using(crate::proofs::LineLaws::end_of))]
    pub fn finish(&mut self, fields: &[Field<'_>]) -> Result<(), AllocError>
        ensures { OnOk result (self.new ≡ self.old ++ fields_text (map field_text fields.now)) }
    {
        self.push_all(fields)?;
        self.end()
    }

    /// Writes a whole line.
    pub fn write(&mut self, word: &[u8], fields: &[Field<'_>]) -> Result<(), AllocError>
        ensures { OnOk result (self.new ≡ line word.now (map field_text fields.now)) }
    {
        self.start(word)?;
        self.finish(fields)
    }

    // Adds fields, each behind a tab.
    fn push_all(&mut self, fields: &[Field<'_>]) -> Result<(), AllocError>
        ensures { OnOk result (self.new ≡ self.old ++ flat_map behind_tab fields.now) }
    {
        for field in fields {
            self.bytes.push(b'\t')?;
            self.push(*field)?;
        }
        Ok(())
    }

    // Adds the text of a field.
    fn push(&mut self, field: Field<'_>) -> Result<(), AllocError>
        ensures { OnOk result (self.new ≡ self.old ++ field_text field.entry) }
    {
        match field {
            Field::Text(bytes) => self.bytes.extend_from_slice(bytes),
            Field::Number(number) => self.push_number(number),
            Field::Amount(amount, decimals) => self.push_amount(amount, decimals),
            Field::Date(day) => self.push_date(day),
            Field::Moment(moment) => self.push_moment(moment),
            Field::Second(second) => self.push_second(second),
        }
    }

    // Adds a number.
    fn push_number(&mut self, number: u64) -> Result<(), AllocError>
        ensures { OnOk result (self.new ≡ self.old ++ decimal number) }
    {
        let mut buffer = Buffer::new();
        self.bytes
            .extend_from_slice(buffer.format(number).as_bytes())
    }

    // Adds an amount of a currency with so many decimals; nothing where none has so many.
    #[tactic(auto, unfolding(feed_rows::specs::MoneyText::money_text))]
    fn push_amount(&mut self, amount: Money, decimals: u8) -> Result<(), AllocError>
        ensures { OnOk result (self.new ≡ self.old ++ money_text decimals amount.0) }
    {
        if decimals != 0 && decimals != 2 && decimals != 3 {
            return Ok(());
        }
        let size = amount.0.unsigned_abs();
        self.push_sign(amount)?;
        self.push_number(size / unit_of(decimals))?;
        self.push_decimals(size, decimals)
    }

    // Adds the sign of a negative amount.
    fn push_sign(&mut self, amount: Money) -> Result<(), AllocError>
        ensures { OnOk result (self.new ≡ self.old ++ sign_text amount.0) }
    {
        if amount.0 < 0 {
            self.bytes.push(b'-')?;
        }
        Ok(())
    }

    // Adds the decimals of so many minor units.
    fn push_decimals(&mut self, size: u64, decimals: u8) -> Result<(), AllocError>
        ensures { OnOk result (self.new ≡ self.old ++ decimals_text decimals size) }
    {
        let [tens, ones] = two_digits((size % 100) as u8);
        match decimals {
            0 => Ok(()),
            2 => self.bytes.extend_from_slice(&[b'.', tens, ones]),
            _ => {
                let hundreds = b'0' + (size % 1000 / 100) as u8;
                self.bytes.extend_from_slice(&[b'.', hundreds, tens, ones])
            }
        }
    }

    // Adds a moment.
    fn push_moment(&mut self, moment: Moment) -> Result<(), AllocError>
        ensures { OnOk result (self.new ≡ self.old ++ moment_text moment.0) }
    {
        self.push_date(moment.day())?;
        self.bytes.push(b' ')?;
        self.push_time(moment.time_of_day())
    }

    // Adds a second of the service day as a time, where it has one.
    #[tactic(auto, using(crate::proofs::LineLaws::early, crate::proofs::LineLaws::late, crate::proofs::LineLaws::time_within))]
    fn push_second(&mut self, second: i64) -> Result<(), AllocError>
        ensures { OnOk result (self.new ≡ self.old ++ service_time_text second) }
    {
        if second < 0 || second > i64::from(MOST_TIME) {
            return Ok(());
        }
        self.push_time(Secs(second as u32))
    }

    // Ends the line.
    fn end(&mut self) -> Result<(), AllocError>
        ensures { OnOk result (self.new ≡ self.old ++ 10 ∷ []) }
    {
        self.bytes.push(b'\n')?;
        Ok(())
    }

    /// The bytes of the line.
    pub fn bytes(&self) -> &[u8]
        ensures { result.now ≡ self.now }
    {
        self.bytes.as_slice()
    }

    // Adds a day as a date, where it has one.
    #[tactic(auto, using(crate::proofs::LineLaws::undated))]
    fn push_date(&mut self, day: Day) -> Result<(), AllocError>
        ensures { OnOk result (self.new ≡ self.old ++ date_text day.0) }
    {
        if !is_dated(day) {
            return Ok(());
        }
        self.bytes.extend_from_slice(&date_text(day))
    }

    // Adds seconds as a time, where they have one.
    #[tactic(auto, using(crate::proofs::LineLaws::untimed))]
    fn push_time(&mut self, seconds: Secs) -> Result<(), AllocError>
        ensures { OnOk result (self.new ≡ self.old ++ time_text seconds.0) }
    {
        if seconds.0 > MOST_TIME {
            return Ok(());
        }
        self.bytes.extend_from_slice(time_text(seconds).bytes())
    }
}

// How many minor units a whole of a currency with so many decimals has.
fn unit_of(decimals: u8) -> u64
    ensures { result ≡ units_of_whole decimals }
{
    match decimals {
        0 => 1,
        2 => 100,
        _ => 1000,
    }
}

// Whether a day has a date.
fn is_dated(day: Day) -> bool
    ensures { result ≡ is_dated day.0 }
{
    -719_162 <= day.0 && day.0 <= 2_932_896
}

// A number below 100 in two digits.
fn two_digits(number: u8) -> [u8; 2]
    requires { number < 100 }
    ensures { result ≡ two_digits number }
{
    [b'0' + number / 10, b'0' + number % 10]
}
