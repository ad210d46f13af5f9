//! Amounts of money as text.
ghost use Rattle.std.specs.Prelude.{◌≡◌, ◌<◌, ◌≤◌, ◌/◌, ◌+◌, ◌++◌, ◌∷◌, [], length, decimal};
ghost use Rattle.transit_base.specs.DateTexts.{two_digits};
ghost use Rattle.feed_rows.specs.MoneyText.{sign_text, decimals_text, units_of_whole, money_text};

use itoa::Buffer;
use std::marker::Model;
use transit_base::Money;

/// An amount as text, such as `-3.50`: a sign, at most 20 digits, and a point with at most three more. Contracts see it
/// as its bytes.
#[derive(Drop)]
pub struct MoneyText {
    bytes: [u8; 25],
    used: usize,
}

impl Model for MoneyText {
    ghost use Rattle.std.specs.Prelude.{ℕ, ◌≤◌, List, take};

    ghost Value = { List ℕ };

    ghost view = { λ t. take t.used t.bytes };

    ghost invariant = { λ t. t.used ≤ 25 };
}

impl MoneyText {
    /// The bytes of the text, which are ASCII.
    pub fn bytes(&self) -> &[u8]
        ensures { result.now ≡ self.now }
    {
        &self.bytes[..self.used]
    }

    /// The text without bytes.
    fn empty() -> MoneyText
        ensures { result ≡ [] }
    {
        MoneyText {
            bytes: [0; 25],
            used: 0,
        }
    }

    /// Adds a byte.
    fn push(&mut self, byte: u8)
        requires { length self.old < 25 }
        ensures { self.new ≡ self.old ++ byte ∷ [] }
    {
        self.bytes[self.used] = byte;
        self.used += 1;
    }

    /// Adds bytes.
    fn extend(&mut self, text: &[u8])
        requires { length self.old + length text.now ≤ 25 }
        ensures { self.new ≡ self.old ++ text.now }
    {
        for byte in text {
            self.push(*byte);
        }
    }

    /// Adds the sign of a negative amount.
    fn sign(&mut self, amount: Money)
        requires { length self.old < 25 }
        ensures { self.new ≡ self.old ++ sign_text amount.0 }
    {
        if amount.0 < 0 {
            self.push(b'-');
        }
    }

    /// Adds the wholes of so many minor units.
    fn whole(&mut self, size: u64, decimals: u8)
        requires { length self.old ≤ 5 }
        ensures text { self.new ≡ self.old ++ decimal (size / units_of_whole decimals) }
        ensures short { length self.new ≤ length self.old + 20 }
    {
        let unit = match decimals {
            0 => 1,
            2 => 100,
            _ => 1000,
        };
        let mut buffer = Buffer::new();
        self.extend(buffer.format(size / unit).as_bytes());
    }

    /// Adds the decimals of so many minor units.
    fn decimals(&mut self, size: u64, decimals: u8)
        requires { length self.old ≤ 21 }
        ensures { self.new ≡ self.old ++ decimals_text decimals size }
    {
        let [tens, ones] = two_digits((size % 100) as u8);
        match decimals {
            0 => {}
            2 => self.extend(&[b'.', tens, ones]),
            _ => {
                let hundreds = b'0' + (size % 1000 / 100) as u8;
                self.extend(&[b'.', hundreds, tens, ones]);
            }
        }
    }
}

/// An amount of a currency with 0, 2 or 3 decimals; no text for others.
#[tactic(auto, unfolding(feed_rows::specs::MoneyText::money_text))]
pub fn money_text(amount: Money, decimals: u8) -> MoneyText
    ensures { result ≡ money_text decimals amount.0 }
{
    let mut text = MoneyText::empty();
    if decimals != 0 && decimals != 2 && decimals != 3 {
        return text;
    }
    let size = amount.0.unsigned_abs();
    text.sign(amount);
    text.whole(size, decimals);
    text.decimals(size, decimals);
    text
}

/// A number below 100 in two digits.
fn two_digits(number: u8) -> [u8; 2]
    requires { number < 100 }
    ensures { result ≡ two_digits number }
{
    [b'0' + number / 10, b'0' + number % 10]
}
