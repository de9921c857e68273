//! A printed number or day: at most 48 bytes, kept in place.
ghost use Rattle.std.specs.Prelude.{◌≡◌, ℕ, ◌+◌, ◌<◌, ◌≤◌, ◌^◌, List, [], ◌∷◌, ◌++◌, length, take};
ghost use Rattle.std.specs.Fmt.{decimal};
ghost use Rattle.tb_units.specs.Decimals.{last_digits, with_decimals};

use std::marker::Model;

/// A text of at most 48 bytes. Contracts see its bytes.
#[derive(Debug, Drop)]
pub struct Short {
    bytes: [u8; 48],
    used: usize,
}

impl Model for Short {
    ghost Value = { List ℕ };

    ghost view = { λ s. take s.used s.bytes };

    ghost invariant = { λ s. s.used ≤ 48 };
}

impl Short {
    /// The bytes of the text.
    pub fn bytes(&self) -> &[u8]
        ensures bytes { result.now ≡ self.now }
        ensures few { length self.now ≤ 48 }
    {
        &self.bytes[..self.used]
    }

    /// The empty text.
    pub fn new() -> Short
        ensures { result ≡ [] }
    {
        Short {
            bytes: [0; 48],
            used: 0,
        }
    }

    /// Puts a byte at the end.
    pub fn push(&mut self, byte: u8)
        requires { length self.old < 48 }
        ensures { self.new ≡ self.old ++ byte ∷ [] }
    {
        self.bytes[self.used] = byte;
        self.used += 1;
    }

    fn push_decimal(&mut self, number: u128)
        requires small { number < 10 ^ 30 }
        requires room { length self.old + length (decimal number) ≤ 48 }
        ensures { self.new ≡ self.old ++ decimal number }
    {
        if number < 10 {
            self.push(b'0' + number as u8);
            return;
        }
        self.push_decimal(number / 10);
        self.push(b'0' + (number % 10) as u8);
    }

    /// Puts so many last digits of a number at the end, with zeros in front where it has fewer.
    pub fn push_last_digits(&mut self, number: u128, places: usize)
        requires { length self.old + places ≤ 48 }
        ensures { self.new ≡ self.old ++ last_digits places number }
    {
        if places > 0 {
            self.push_last_digits(number / 10, places - 1);
            self.push(b'0' + (number % 10) as u8);
        }
    }

    /// A whole number in decimal, without leading zeros.
    pub fn whole(number: u128) -> Short
        requires { number < 10 ^ 30 }
        ensures { result ≡ decimal number }
    {
        let mut text = Short::new();
        text.push_decimal(number);
        text
    }

    /// A number of units of `10 ^ -places`, with as many decimals; `unit` is `10 ^ places`.
    pub fn with_decimals(number: u128, places: usize, unit: u128) -> Short
        requires small { number < 10 ^ 30 }
        requires few { places ≤ 10 }
        requires unit { unit ≡ 10 ^ places }
        ensures { result ≡ with_decimals places number }
    {
        let mut text = Short::new();
        text.push_decimal(number / unit);
        text.push(b'.');
        text.push_last_digits(number, places);
        text
    }
}
