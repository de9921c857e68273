//! A line that is told of how a command ends: at most 64 bytes, kept in place.
ghost use Rattle.std.specs.Prelude.{◌≡◌, ◌<◌, ◌≤◌, ℕ, List, [], ◌∷◌, ◌++◌, length, take};

use std::marker::Model;

/// A text of at most 64 bytes. Contracts see its bytes.
#[derive(Debug, Drop)]
pub struct Notice {
    bytes: [u8; 64],
    used: usize,
}

impl Model for Notice {
    ghost Value = { List ℕ };

    ghost view = { λ s. take s.used s.bytes };

    ghost invariant = { λ s. s.used ≤ 64 };
}

impl Notice {
    /// The bytes of the text.
    pub fn bytes(&self) -> &[u8]
        ensures bytes { result.now ≡ self.now }
        ensures few { length self.now ≤ 64 }
    {
        &self.bytes[..self.used]
    }

    /// The empty text.
    pub fn new() -> Notice
        ensures { result ≡ [] }
    {
        Notice {
            bytes: [0; 64],
            used: 0,
        }
    }

    /// Puts a byte at the end.
    pub fn push(&mut self, byte: u8)
        requires { length self.old < 64 }
        ensures { self.new ≡ self.old ++ byte ∷ [] }
    {
        self.bytes[self.used] = byte;
        self.used += 1;
    }
}
