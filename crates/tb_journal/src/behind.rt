//! What stands behind the closed gate of a journal.
ghost use Rattle.std.specs.Prelude.{◌≡◌, ◌∷◌, List, ℕ, IfSome, IfNone};
ghost use Rattle.tb_journal.specs.Behind.{BeginsWithFrame, HasTwoFrames};

use crate::form::Form;
use crate::frames::numbered_size;

/// How many bytes an append writes behind a gate byte, at most: a head, the longest payload and a closed gate.
pub const MOST_BEHIND: usize = 32_781;

/// The payloads of two whole frames at the front of the bytes behind a gate, the first with this ordinal and the second
/// with the next one.
pub fn two_frames(ordinal: u64, bytes: &[u8]) -> Option<(&[u8], &[u8])>
    ensures found { IfSome result (λ found. HasTwoFrames ordinal found.0.now found.1.now bytes.now) }
    ensures none { IfNone result ((first second : List ℕ) → ¬ (HasTwoFrames ordinal first second bytes.now)) }
{
    let next = ordinal.checked_add(1)?;
    let (first, rest) = first_frame(ordinal, bytes)?;
    match rest.split_first() {
        Some((_gate, between)) => match first_frame(next, between) {
            Some((second, _rest)) => Some((first, second)),
            None => None,
        },
        None => None,
    }
}

// The payload of the whole frame with this ordinal at the front of the bytes, and what stands behind it.
fn first_frame(ordinal: u64, bytes: &[u8]) -> Option<(&[u8], &[u8])>
    ensures found { IfSome result (λ found. BeginsWithFrame ordinal found.0.now found.1.now bytes.now) }
    ensures none { IfNone result ((payload rest : List ℕ) → ¬ (BeginsWithFrame ordinal payload rest bytes.now)) }
{
    let Some(size) = numbered_size(Form::Second, ordinal, bytes) else {
        return None;
    };
    let head = Form::Second.head_size();
    if bytes.len() - head < size {
        return None;
    }
    Some(bytes[head..].split_at(size))
}
