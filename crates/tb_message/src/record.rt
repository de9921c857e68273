//! Records: at most 512 bytes, kept in place.
ghost use Rattle.std.specs.Prelude.{◌≡◌, ◌+◌, ◌≤◌, [], ◌++◌, length};

use crate::writing::write_at;
use std::marker::Model;

/// A record of at most 512 bytes. Contracts see its bytes.
#[derive(Debug, Drop)]
pub struct Record {
    bytes: [u8; 512],
    used: usize,
}

impl Model for Record {
    ghost use Rattle.std.specs.Prelude.{ℕ, ◌≤◌, List, take};

    ghost Value = { List ℕ };

    ghost view = { λ r. take r.used r.bytes };

    ghost invariant = { λ r. r.used ≤ 512 };
}

impl Record {
    /// The bytes of the record.
    pub fn bytes(&self) -> &[u8]
        ensures bytes { result.now ≡ self.now }
        ensures few { length result.now ≤ 512 }
    {
        &self.bytes[..self.used]
    }

    pub(crate) fn new() -> Record
        ensures { result ≡ [] }
    {
        Record {
            bytes: [0; 512],
            used: 0,
        }
    }

    pub(crate) fn push(&mut self, more: &[u8])
        requires { length self.old + length more.now ≤ 512 }
        ensures { self.new ≡ self.old ++ more.now }
    {
        write_at(&mut self.bytes, self.used, more);
        self.used += more.len();
    }
}
