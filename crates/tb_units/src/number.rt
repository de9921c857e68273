//! Whole numbers as they are written: in decimal, without leading zeros.
ghost use Rattle.std.specs.Prelude.{◌≡◌, ◌≢◌, ℕ, ◌+◌, ◌<◌, ◌≤◌, ◌^◌, ◌⊎◌, true, false, length, slice_index, IfSome, IfNone};
ghost use Rattle.std.specs.Fmt.{decimal};

/// Reads a decimal number without leading zeros and below 2^64. Every other text is `None`.
pub fn read_number(text: &str) -> Option<u64>
    ensures read { IfSome result (λ number. text.now ≡ decimal number) }
    ensures none { IfNone result ((n : ℕ) → n < 2 ^ 64 → text.now ≢ decimal n) }
{
    if !has_plain_front(text) {
        return None;
    }
    text.parse::<u64>().ok()
}

/// Reads a decimal number without leading zeros, from `least` to `most`. Every other text is `None`.
pub fn read_within(text: &str, least: u64, most: u64) -> Option<u64>
    ensures read { IfSome result (λ number. (least ≤ number) × (number ≤ most) × (text.now ≡ decimal number)) }
    ensures none { IfNone result ((n : ℕ) → least ≤ n → n ≤ most → text.now ≢ decimal n) }
{
    let number = read_number(text)?;
    if number < least || number > most {
        return None;
    }
    Some(number)
}

// No sign and no leading zero stands in front of a digit.
fn has_plain_front(text: &str) -> bool
    ensures plain { result ≡ true → (slice_index text.now 0 ≢ 43)
        × (slice_index text.now 0 ≡ 48 → length text.now ≤ 1) }
    ensures other { result ≡ false
        → (length text.now ≡ 0)
        ⊎ ((slice_index text.now 0 ≡ 43) ⊎ ((slice_index text.now 0 ≡ 48) × (1 < length text.now))) }
{
    let bytes = text.as_bytes();
    if bytes.is_empty() || bytes[0] == b'+' {
        return false;
    }
    bytes[0] != b'0' || bytes.len() == 1
}
