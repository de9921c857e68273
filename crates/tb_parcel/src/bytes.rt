//! The bytes of a parcel: at most 524, kept in place.
ghost use Rattle.std.specs.Prelude.{◌≡◌, ◌+◌, ◌≤◌, [], ◌++◌, length, take, drop};

use std::marker::Model;

/// At most 524 bytes. Contracts see them.
#[derive(Debug, Drop)]
pub struct ParcelBytes {
    bytes: [u8; 524],
    used: usize,
}

impl Model for ParcelBytes {
    ghost use Rattle.std.specs.Prelude.{ℕ, ◌≤◌, List, take};

    ghost Value = { List ℕ };

    ghost view = { λ r. take r.used r.bytes };

    ghost invariant = { λ r. r.used ≤ 524 };
}

impl ParcelBytes {
    /// The bytes.
    pub fn bytes(&self) -> &[u8]
        ensures bytes { result.now ≡ self.now }
        ensures few { length result.now ≤ 524 }
    {
        &self.bytes[..self.used]
    }

    pub(crate) fn new() -> ParcelBytes
        ensures { result ≡ [] }
    {
        ParcelBytes {
            bytes: [0; 524],
            used: 0,
        }
    }

    pub(crate) fn push(&mut self, more: &[u8])
        requires { length self.old + length more.now ≤ 524 }
        ensures { self.new ≡ self.old ++ more.now }
    {
        write_at(&mut self.bytes, self.used, more);
        self.used += more.len();
    }
}

// Writes more over the bytes from a place on.
fn write_at(bytes: &mut [u8], at: usize, more: &[u8])
    requires { at + length more.now ≤ length bytes.old }
    ensures { bytes.new ≡ take at bytes.old ++ (more.now ++ drop (at + length more.now) bytes.old) }
{
    let (_, rest) = bytes.split_at_mut(at);
    let (front, _) = rest.split_at_mut(more.len());
    front.copy_from_slice(more);
}
