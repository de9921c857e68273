//! How long the body of a request is.
ghost use Rattle.std.specs.Prelude.{◌≡◌, ◌≤◌, ◌<◌, ℕ, All, Ok, Err, IfOk, true, length, map};
ghost use Rattle.std.specs.List.{list_all};
ghost use Rattle.std.specs.Char.{is_ascii_digit};
ghost use Rattle.std.specs.Str.Parse.{digits_value};
ghost use Rattle.httparse.specs.Spans.{IsHeaderWithin, header_bytes};
ghost use Rattle.tb_wire.specs.Bodies.{is_length, length_said, body_length};
ghost use Rattle.tb_wire.specs.Headers.{values_of};

use crate::headers::{Standing, find_header};
use httparse::spans::HeaderSpan;

/// The length of the body, or the code of the fault in what the headers say of it.
pub(crate) fn find_length(text: &[u8], headers: &[HeaderSpan], method: &[u8]) -> Result<usize, u16>
    requires within { All (IsHeaderWithin (length text.now)) headers.now }
    ensures length { result ≡ body_length method.now (map (header_bytes text.now) headers.now) }
    ensures few { IfOk result (λ length. length ≤ 4096) }
{
    if !matches!(
        find_header(text, headers, b"transfer-encoding"),
        Standing::Nowhere
    ) {
        return Err(501);
    }
    match find_header(text, headers, b"content-length") {
        Standing::Nowhere if method == b"POST".as_slice() => Err(411),
        Standing::Nowhere => Ok(0),
        Standing::Once(value) => read_length(value.of(text)),
        Standing::Often => Err(400),
    }
}

fn read_length(value: &[u8]) -> Result<usize, u16>
    ensures length { result ≡ length_said value.now }
    ensures few { IfOk result (λ length. length ≤ 4096) }
{
    if value.is_empty() || value.len() > 9 || !are_digits(value) {
        return Err(400);
    }
    let length = number_of(value);
    if length > 4096 {
        return Err(413);
    }
    Ok(length)
}

fn are_digits(value: &[u8]) -> bool
    ensures { result ≡ list_all is_ascii_digit value.now }
{
    value.iter().all(|byte| byte.is_ascii_digit())
}

fn number_of(digits: &[u8]) -> usize
    requires digits { list_all is_ascii_digit digits.now ≡ true }
    requires few { length digits.now ≤ 9 }
    ensures { result ≡ digits_value 10 digits.now }
{
    let mut number = 0;
    for digit in digits {
        number = number * 10 + (digit - b'0') as usize;
    }
    number
}
