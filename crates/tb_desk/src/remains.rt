//! What remains behind the closed gate of a journal.
ghost use Rattle.std.specs.Prelude.{◌≡◌, ◌≤◌, ◌↔◌, [], length, true, false, IsTrue};
ghost use Rattle.tb_desk.specs.Remains.{AreRemains, HasTwoGroups, SpellsGroup};

use tb_journal::{MOST_BEHIND, two_frames};
use tb_message::Entry;

/// What remains behind the closed gate of a journal.
#[derive(Clone, Copy, Debug, PartialEq, Eq)]
pub enum Remains {
    Nothing,
    /// What an append that was broken off may leave.
    TornAppend,
    /// What no append leaves: the gate byte at this place was 1, or others wrote behind it.
    Damage(u64),
}

/// What the bytes are that stand behind the gate at a place, before which so many frames stand.
pub(crate) fn remains_of(gate: u64, ordinal: u64, bytes: &[u8]) -> Remains
    ensures { AreRemains gate ordinal bytes.now result }
{
    if bytes.is_empty() {
        Remains::Nothing
    } else if bytes.len() > MOST_BEHIND || has_two_groups(ordinal, bytes) {
        Remains::Damage(gate)
    } else {
        Remains::TornAppend
    }
}

fn has_two_groups(ordinal: u64, bytes: &[u8]) -> bool
    ensures some { result ≡ true → HasTwoGroups ordinal bytes.now }
    ensures none { result ≡ false → ¬ (HasTwoGroups ordinal bytes.now) }
{
    match two_frames(ordinal, bytes) {
        Some((first, second)) => is_group(first) && is_group(second),
        None => false,
    }
}

// Whether a payload is the records of a group.
fn is_group(payload: &[u8]) -> bool
    ensures group { result ≡ true → SpellsGroup payload.now }
    ensures none { result ≡ false → ¬ (SpellsGroup payload.now) }
{
    let mut rest = payload;
    'entries: loop {
        let Some((_entry, size)) = Entry::take(rest) else {
            return false;
        };
        rest = &rest[size..];
        if is_done(rest) {
            return true;
        }
    }
}

// Whether no bytes are left.
fn is_done(rest: &[u8]) -> bool
    ensures done { result ≡ true → rest.now ≡ [] }
    ensures more { result ≡ false → 1 ≤ length rest.now }
{
    rest.is_empty()
}
