//! The bytes of a link that have come and aren't used yet.
ghost use Rattle.std.specs.Prelude.{◌≡◌, ◌≤◌, ◌↔◌, [], IsTrue, drop, length, vec_len};
ghost use Rattle.tb_gates.specs.Links.{link_of};
ghost use Rattle.tb_session.specs.Inbox.{Fills, most_kept, most_waiting};

use std::alloc::Global;
use std::marker::Model;
use tb_gates::Link;

// Bytes of a link that are read at once, at most.
const PIECE: usize = 4096;

/// Contracts see the bytes that wait. At most 16,384 bytes are kept, used ones among them.
#[derive(Drop)]
pub(crate) struct Inbox {
    bytes: Vec<u8>,
    at: usize,
}

impl Model for Inbox {
    ghost use Rattle.std.specs.Prelude.{ℕ, List, drop, vec_len};
    ghost use Rattle.tb_session.specs.Inbox.{IsKept};

    ghost Value = { List ℕ };

    ghost view = { λ inbox. drop inbox.at inbox.bytes.items };

    ghost invariant = { λ inbox. IsKept inbox.at (vec_len inbox.bytes) };
}

/// Why nothing was read.
#[derive(Clone, Copy, Debug)]
pub(crate) enum Unread {
    ReadFault,
    OutOfMemory,
}

impl Inbox {
    /// No bytes wait.
    pub fn new(alloc: Global) -> Inbox
        ensures { result ≡ [] }
    {
        Inbox {
            bytes: Vec::new(alloc),
            at: 0,
        }
    }

    /// The bytes that wait.
    pub fn waiting(&self) -> &[u8]
        ensures waiting { result.now ≡ self.now }
        ensures few { length self.now ≤ most_kept }
    {
        &self.bytes[self.at..]
    }

    /// Whether no bytes wait.
    pub fn is_empty(&self) -> bool
        ensures { IsTrue result ↔ (self.now ≡ []) }
    {
        self.waiting().is_empty()
    }

    /// So many bytes are used.
    pub fn used(&mut self, count: usize)
        requires { count ≤ length self.old }
        ensures { self.new ≡ drop count self.old }
    {
        self.at += count;
    }

    /// Reads the next bytes of the link, and says how many. Memory is taken first, so that no byte that was read is
    /// lost.
    pub fn fill<K: Link>(&mut self, link: &mut K) -> Result<usize, Unread>
        requires few { length self.old ≤ most_waiting }
        ensures fills { Fills (link_of K.source K.sink link.old) (link_of K.source K.sink link.new)
            self.old self.new result }
    {
        // The bytes that wait move to the front, where the used ones were: else a link would keep all that it ever read.
        drop_front(&mut self.bytes, self.at);
        self.at = 0;
        if self.bytes.reserve(PIECE).is_err() {
            return Err(Unread::OutOfMemory);
        }
        let mut piece = [0u8; PIECE];
        let Ok(count) = link.read(&mut piece) else {
            return Err(Unread::ReadFault);
        };
        self.bytes.extend_from_slice(&piece[..count]).unwrap();
        Ok(count)
    }
}

// Lets so many bytes at the front go.
fn drop_front(bytes: &mut Vec<u8>, count: usize)
    requires within { count ≤ vec_len bytes.old }
    ensures { bytes.new.items ≡ drop count bytes.old.items }
{
    let left = bytes.len() - count;
    bytes.copy_within(count.., 0);
    bytes.truncate(left);
}
