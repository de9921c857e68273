//! Days and minutes as they are written. Only what is printed is read.
ghost use Rattle.std.specs.Prelude.{◌≡◌, ◌≢◌, ℕ, ◌+◌, ◌-◌, ◌*◌, ◌<◌, ◌≤◌, length, option_map, IfSome, IfNone};
ghost use Rattle.tb_terms.specs.Texts.{date_text, day_text, minute_text, day_of, minute_of};

use crate::civil::{civil_date, day_of_date};
use tb_units::{Day, Short};

/// Prints a day as `YYYY-MM-DD`.
pub fn print_day(day: Day) -> Short
    ensures text { result ≡ day_text day.number }
    ensures ten { length result ≡ 10 }
{
    let date = civil_date(day);
    let mut text = Short::new();
    text.push_last_digits(date.year as u128, 4);
    text.push(b'-');
    text.push_last_digits(date.month as u128, 2);
    text.push(b'-');
    text.push_last_digits(date.day as u128, 2);
    text
}

/// Reads a day from 2000-01-01 to 2099-12-31. Every other text is `None`.
pub fn read_day(text: &str) -> Option<Day>
    ensures read { IfSome result (λ day. text.now ≡ day_text day.number) }
    ensures none { IfNone result ((n : ℕ) → 10957 ≤ n → n ≤ 47481 → text.now ≢ day_text n) }
    ensures day { option_map (λ day. day.number) result ≡ day_of text.now }
{
    day_in(text.as_bytes())
}

// The day of these digits, where it is printed as they stand: so no other spelling is read.
fn day_in(bytes: &[u8]) -> Option<Day>
    ensures read { IfSome result (λ day. bytes.now ≡ day_text day.number) }
    ensures none { IfNone result ((n : ℕ) → 10957 ≤ n → n ≤ 47481 → bytes.now ≢ day_text n) }
{
    if bytes.len() != 10 {
        return None;
    }
    let year = 100 * two_digits(bytes[0], bytes[1]) + two_digits(bytes[2], bytes[3]);
    let month = two_digits(bytes[5], bytes[6]);
    let Some(day) = day_of_date(year, month, two_digits(bytes[8], bytes[9])) else {
        return None;
    };
    if print_day(day).bytes() != bytes {
        return None;
    }
    Some(day)
}

/// Prints a minute of the day as `HH:MM`.
pub fn print_minute(minute: u16) -> Short
    requires { minute < 1440 }
    ensures { result ≡ minute_text minute }
{
    let mut text = Short::new();
    text.push_last_digits(minute as u128 / 60, 2);
    text.push(b':');
    text.push_last_digits(minute as u128 % 60, 2);
    text
}

/// Reads a minute of the day. Every other text is `None`.
pub fn read_minute(text: &str) -> Option<u16>
    ensures read { IfSome result (λ minute. (minute < 1440) × (text.now ≡ minute_text minute)) }
    ensures none { IfNone result ((n : ℕ) → n < 1440 → text.now ≢ minute_text n) }
    ensures minute { result ≡ minute_of text.now }
{
    minute_in(text.as_bytes())
}

// The minute of these digits, where it is printed as they stand.
fn minute_in(bytes: &[u8]) -> Option<u16>
    ensures read { IfSome result (λ minute. (minute < 1440) × (bytes.now ≡ minute_text minute)) }
    ensures none { IfNone result ((n : ℕ) → n < 1440 → bytes.now ≢ minute_text n) }
{
    if bytes.len() != 5 {
        return None;
    }
    let minute = 60 * two_digits(bytes[0], bytes[1]) + two_digits(bytes[3], bytes[4]);
    if minute >= 1440 || print_minute(minute as u16).bytes() != bytes {
        return None;
    }
    Some(minute as u16)
}

// The number that two digits write.
fn two_digits(tens: u8, ones: u8) -> u32
    ensures { result ≡ 10 * (tens - 48) + (ones - 48) }
{
    10 * tens.saturating_sub(b'0') as u32 + ones.saturating_sub(b'0') as u32
}
