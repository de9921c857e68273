//! The heads of frames, in either form of a journal.
ghost use Rattle.std.specs.Prelude.{◌≡◌, ◌≢◌, ◌⊎◌, ◌<◌, ◌≤◌, length, take, IfSome, IfNone};
ghost use Rattle.std.specs.Bool.{Decides};
ghost use Rattle.tb_journal.specs.Frames.{head_of, head_in};
ghost use Rattle.tb_journal.specs.Image.{length_in};

use crate::form::Form;

/// The gate byte before a frame that counts.
pub(crate) const OPEN: u8 = 1;

/// The gate byte behind the last frame, as this journal writes it: any byte but 1 would do.
pub(crate) const CLOSED: u8 = 0;

const SHORTEST_PAYLOAD: usize = 1;

pub(crate) const LONGEST_PAYLOAD: usize = 32_768;

/// How many bytes of a frame of the second form stand before its payload: the gate byte, the length and the ordinal.
pub(crate) const FRAME_HEAD: usize = 13;

// The number in the first four bytes.
fn size_in(bytes: &[u8]) -> usize
    requires { 4 ≤ length bytes.now }
    ensures { result ≡ length_in bytes.now }
{
    let (size, _) = bytes.split_at(4);
    u32::from_be_bytes([size[0], size[1], size[2], size[3]]) as usize
}

// Whether a head has this ordinal behind its length. In the first form it has none.
#[tactic(auto, unfolding(crate::specs::Frames::head_in))]
fn has_ordinal(form: Form, ordinal: u64, bytes: &[u8], size: usize) -> bool
    requires long { head_of form ≤ length bytes.now }
    requires size { size ≡ length_in bytes.now }
    requires few { size ≤ 32768 }
    ensures { Decides result (take (head_of form) bytes.now ≡ head_in form ordinal size) }
{
    match form {
        Form::First => true,
        Form::Second => {
            let (head, _) = bytes.split_at(12);
            let (_, found) = head.split_at(4);
            found == ordinal.to_be_bytes().as_slice()
        }
    }
}

/// How long a payload is, by the bytes behind its gate byte: none where they are fewer than a head, or say no length
/// that a payload may have.
pub(crate) fn payload_size(form: Form, bytes: &[u8]) -> Option<usize>
    ensures found { IfSome result (λ size. (head_of form ≤ length bytes.now) × (size ≡ length_in bytes.now)
        × (1 ≤ size) × (size ≤ 32768)) }
    ensures none { IfNone result ((length bytes.now < head_of form) ⊎ (length_in bytes.now < 1)
        ⊎ (32768 < length_in bytes.now)) }
{
    if bytes.len() < form.head_size() {
        return None;
    }
    let size = size_in(bytes);
    if size < SHORTEST_PAYLOAD || size > LONGEST_PAYLOAD {
        return None;
    }
    Some(size)
}

/// The same where the frame has to have this ordinal.
pub(crate) fn numbered_size(form: Form, ordinal: u64, bytes: &[u8]) -> Option<usize>
    ensures found { IfSome result (λ size. (size ≡ length_in bytes.now) × (1 ≤ size) × (size ≤ 32768)) }
    ensures spelled { IfSome result (λ size. take (head_of form) bytes.now ≡ head_in form ordinal size) }
    ensures none { IfNone result ((length bytes.now < head_of form) ⊎ (length_in bytes.now < 1)
        ⊎ (32768 < length_in bytes.now)
        ⊎ (take (head_of form) bytes.now ≢ head_in form ordinal (length_in bytes.now))) }
{
    let size = payload_size(form, bytes)?;
    if !has_ordinal(form, ordinal, bytes, size) {
        return None;
    }
    Some(size)
}
