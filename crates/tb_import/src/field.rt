//! Fields of a record.
ghost use Rattle.std.specs.Prelude.{◌≡◌, ◌≢◌, ℕ, ◌≤◌, Option, IfSome, IfNone, IsUtf8, option_map};
ghost use Rattle.std.specs.Fmt.{decimal};
ghost use Rattle.tb_import.specs.Rows.{IsRateOf};

use tb_units::{Rate, read_within};

/// The number in a range that the field writes.
pub(crate) fn number_in(field: &[u8], least: u64, most: u64) -> Option<u64>
    ensures number { IfSome result (λ number. ((least ≤ number) × (number ≤ most)) × (field.now ≡ decimal number)) }
    ensures none { IfNone result ((number : ℕ) → least ≤ number → number ≤ most → field.now ≢ decimal number) }
{
    read_within(text_of(field)?, least, most)
}

/// The rate that the field writes; an empty field is none.
pub(crate) fn rate_in(field: &[u8]) -> Option<Option<Rate>>
    ensures rate { IfSome result (λ rate. IsRateOf (option_map (λ r. r.steps) rate) field.now) }
    ensures none { IfNone result ((steps : Option ℕ) → ¬ (IsRateOf steps field.now)) }
{
    if field.is_empty() {
        return Some(None);
    }
    match Rate::read(text_of(field)?) {
        Ok(rate) => Some(Some(rate)),
        Err(_) => None,
    }
}

fn text_of(field: &[u8]) -> Option<&str>
    ensures text { IfSome result (λ text. (text.now ≡ field.now) × IsUtf8 field.now) }
    ensures none { IfNone result (¬ (IsUtf8 field.now)) }
{
    str::from_utf8(field).ok()
}
