//! Numbers in the lines of a book, read from their bytes.
ghost use Rattle.std.specs.Prelude.{
  ◌≡◌,
  ◌≢◌,
  ℕ,
  ◌<◌,
  ◌≤◌,
  ◌^◌,
  ◌⊎◌,
  length,
  position,
  slice_index,
  true,
  false,
  IfSome,
  IfNone,
  IsNone,
};
ghost use Rattle.std.specs.Fmt.{decimal};
ghost use Rattle.std.specs.Str.{all_ascii_digits};
ghost use Rattle.std.specs.Str.Parse.{digits_value};
ghost use Rattle.tb_units.specs.Rates.{is_point, short_numeral_of, thousandths_of, thousandths_of_decimals};
ghost use Rattle.tb_text_book.specs.BookLines.{SpellsRate};

use tb_units::{Dollars, Rate};

/// Digits of the largest number that is read.
const MOST_DIGITS: usize = 13;

/// Reads a decimal number without leading zeros, at most 10^12.
pub fn read_decimal(text: &[u8]) -> Option<u64>
    ensures read { IfSome result (λ number. (number ≤ 10 ^ 12) × (text.now ≡ decimal number)) }
    ensures none { IfNone result ((n : ℕ) → n ≤ 10 ^ 12 → text.now ≢ decimal n) }
{
    if !has_form(text) {
        return None;
    }
    let number = read_digits(text)?;
    if number > Dollars::MOST_READ {
        return None;
    }
    Some(number)
}

// A few bytes, and no zero in front of another.
fn has_form(text: &[u8]) -> bool
    ensures form { result ≡ true → (0 < length text.now) × (length text.now ≤ 13)
        × (slice_index text.now 0 ≡ 48 → length text.now ≤ 1) }
    ensures other { result ≡ false → (length text.now ≡ 0)
        ⊎ ((13 < length text.now) ⊎ ((slice_index text.now 0 ≡ 48) × (1 < length text.now))) }
{
    if text.is_empty() || text.len() > MOST_DIGITS {
        return false;
    }
    text[0] != b'0' || text.len() == 1
}

/// Reads a rate in percent.
pub fn read_rate(text: &[u8]) -> Option<Rate>
    ensures read { IfSome result (SpellsRate text.now) }
    ensures none { IfNone result ((rate : Rate) → ¬ (SpellsRate text.now rate)) }
{
    let thousandths = read_thousandths(text)?;
    if thousandths % 5 != 0 {
        return None;
    }
    Some(Rate {
        steps: thousandths as u32 / 5,
    })
}

// The thousandths of a percent that the text stands for.
fn read_thousandths(text: &[u8]) -> Option<u64>
    ensures value { result ≡ thousandths_of text.now }
    ensures small { IfSome result (λ number. number < 1000000) }
{
    match first_point(text) {
        None => Some(1000 * read_short(text)?),
        Some(end) => {
            let whole = read_short(&text[..end])?;
            let parts = read_fraction(&text[end + 1..])?;
            Some(1000 * whole + parts)
        }
    }
}

// The place of the first decimal point.
fn first_point(text: &[u8]) -> Option<usize>
    ensures { result ≡ position is_point text.now }
{
    text.iter().position(|byte| *byte == b'.')
}

// The thousandths that one to three decimals stand for.
fn read_fraction(text: &[u8]) -> Option<u64>
    ensures value { result ≡ thousandths_of_decimals text.now }
    ensures small { IfSome result (λ number. number < 1000) }
{
    let number = read_short(text)?;
    match text.len() {
        1 => Some(100 * number),
        2 => Some(10 * number),
        _ => Some(number),
    }
}

// The number that one to three digits write.
fn read_short(text: &[u8]) -> Option<u64>
    ensures value { result ≡ short_numeral_of text.now }
    ensures digits { IfSome result (λ number. number < 10 ^ length text.now) }
    ensures small { IfSome result (λ number. number < 1000) }
{
    if text.is_empty() || text.len() > 3 {
        return None;
    }
    read_digits(text)
}

// The number that a few digits write.
fn read_digits(text: &[u8]) -> Option<u64>
    requires few { length text.now ≤ 13 }
    ensures read { IfSome result (λ number. (all_ascii_digits text.now ≡ true)
        × (number ≡ digits_value 10 text.now)) }
    ensures none { IsNone result → all_ascii_digits text.now ≡ false }
{
    let mut number = 0;
    for byte in text {
        if !byte.is_ascii_digit() {
            return None;
        }
        number = 10 * number + (*byte - b'0') as u64;
    }
    Some(number)
}
