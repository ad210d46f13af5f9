//! A page that is being written.
ghost use Rattle.std.specs.Prelude.{◌≡◌, ◌+◌, ◌<◌, ◌^◌, ◌++◌, ◌∷◌, [], IfOk, OnOk, decimal};
ghost use Rattle.answer_page.specs.Html.{shown, escaped, value_html, next_html, part_html, next_after, filled};

use crate::excerpt::Excerpt;
use itoa::Buffer;
use std::alloc::{AllocError, Global};
use std::marker::Model;

/// What stands in a place of a template.
#[derive(Drop)]
pub enum Value<'t> {
    /// A text, of which no byte is markup.
    Text(Excerpt<'t>),
    Number(u64),
    /// So many thousandths, in percent.
    Share(u32),
}

/// A text as a value.
pub fn text(bytes: &[u8]) -> Value<'_>
    ensures { result ≡ Value.Text bytes.now }
{
    Value::Text(Excerpt::of(bytes))
}

/// A page that is being written. Contracts see it as its bytes.
#[derive(Drop)]
pub struct Page {
    bytes: Vec<u8>,
}

impl Model for Page {
    ghost use Rattle.std.specs.Prelude.{List, ℕ};

    ghost Value = { List ℕ };

    ghost view = { λ page. page.bytes.items };
}

impl Page {
    /// The page without bytes.
    pub fn empty(alloc: Global) -> Page
        ensures { result ≡ [] }
    {
        Page {
            bytes: Vec::new(alloc),
        }
    }

    /// The bytes of the page.
    pub fn bytes(&self) -> &[u8]
        ensures { result.now ≡ self.now }
    {
        self.bytes.as_slice()
    }

    // Adds what shows a byte of a text.
    fn push_shown(&mut self, byte: u8) -> Result<(), AllocError>
        ensures { OnOk result (self.new ≡ self.old ++ shown byte) }
    {
        match byte {
            b'&' => self.bytes.extend_from_slice(b"&amp;"),
            b'<' => self.bytes.extend_from_slice(b"&lt;"),
            b'>' => self.bytes.extend_from_slice(b"&gt;"),
            b'"' => self.bytes.extend_from_slice(b"&quot;"),
            b'\'' => self.bytes.extend_from_slice(b"&#39;"),
            _ => Ok(self.bytes.push(byte)?),
        }
    }

    // Adds a text, of which no byte is markup.
    fn push_text(&mut self, text: &[u8]) -> Result<(), AllocError>
        ensures { OnOk result (self.new ≡ self.old ++ escaped text.now) }
    {
        for byte in text {
            self.push_shown(*byte)?;
        }
        Ok(())
    }

    // Adds a number.
    fn push_number(&mut self, number: u64) -> Result<(), AllocError>
        ensures { OnOk result (self.new ≡ self.old ++ decimal number) }
    {
        let mut buffer = Buffer::new();
        self.bytes
            .extend_from_slice(buffer.format(number).as_bytes())
    }

    // Adds a value.
    fn push_value(&mut self, value: &Value<'_>) -> Result<(), AllocError>
        ensures { OnOk result (self.new ≡ self.old ++ value_html value.now) }
    {
        match value {
            Value::Text(text) => self.push_text(text.bytes()),
            Value::Number(number) => self.push_number(*number),
            Value::Share(share) => {
                self.push_number(u64::from(*share / 10))?;
                self.push_byte(b'.')?;
                self.push_number(u64::from(*share % 10))
            }
        }
    }

    // Adds a byte.
    fn push_byte(&mut self, byte: u8) -> Result<(), AllocError>
        ensures { OnOk result (self.new ≡ self.old ++ byte ∷ []) }
    {
        Ok(self.bytes.push(byte)?)
    }

    // Adds the value at a place, if there is one.
    fn push_next(&mut self, values: &[Value<'_>], next: usize) -> Result<(), AllocError>
        ensures { OnOk result (self.new ≡ self.old ++ next_html values.now next) }
    {
        match values.get(next) {
            Some(value) => self.push_value(value),
            None => Ok(()),
        }
    }

    // Adds what a byte of a template stands for, the next value being at this place. Answers the place of the one behind it.
    fn push_part(
        &mut self,
        byte: u8,
        values: &[Value<'_>],
        next: usize,
    ) -> Result<usize, AllocError>
        requires { next + 1 < 2 ^ 64 }
        ensures html { OnOk result (self.new ≡ self.old ++ part_html byte values.now next) }
        ensures next { IfOk result (λ after. after ≡ next_after byte next) }
    {
        if byte == b'$' {
            self.push_next(values, next)?;
            return Ok(next + 1);
        }
        self.push_byte(byte)?;
        Ok(next)
    }

    /// Adds a template, in which each `$` stands for the next value.
    #[tactic(auto, unfolding(crate::specs::Html::filled))]
    pub fn fill(&mut self, template: &str, values: &[Value<'_>]) -> Result<(), AllocError>
        ensures { OnOk result (self.new ≡ self.old ++ filled template.now values.now) }
    {
        let mut next = 0usize;
        for byte in template.as_bytes() {
            next = self.push_part(*byte, values, next)?;
        }
        Ok(())
    }
}
