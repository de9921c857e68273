//! The log that a disk in memory keeps of its calls.
ghost use Rattle.std.specs.Prelude.{◌≡◌, ◌+◌, ◌*◌, ◌≤◌, ◌↔◌, ℕ, [], ◌∷◌, ◌++◌, length, vec_len, vec_capacity, IfOk, IsTrue};
ghost use Rattle.tb_disk.specs.Notes.{size_of, sizes_of};

use crate::note::Note;
use std::alloc::Global;
use tb_units::OutOfMemory;

/// The bytes that the disk began with, a note of each call, and the bytes that the calls wrote, one after another.
#[derive(Drop)]
pub(crate) struct Log {
    pub(crate) first: Vec<u8>,
    pub(crate) notes: Vec<Note>,
    pub(crate) written: Vec<u8>,
    room: usize,
    ghost sized: { sizes_of notes.items ≡ length written.items },
    ghost within: { 32 * vec_len notes + vec_len written ≤ room },
    ghost notes_fit: { room ≤ 32 * vec_capacity notes + 31 },
    ghost bytes_fit: { room ≤ vec_capacity written },
}

impl Log {
    ghost use Rattle.tb_disk.specs.Notes.{after_note};
    ghost use Rattle.tb_disk.specs.Logging.{recorded};

    /// No call yet. A call takes 32 bytes of the room, and as many more as it writes.
    pub(crate) fn new(alloc: Global, first: &[u8], room: usize) -> Result<Log, OutOfMemory>
        ensures first { IfOk result (λ log. log.first.items ≡ first.now) }
        ensures empty { IfOk result (λ log. (log.notes.items ≡ []) × (log.written.items ≡ [])) }
        ensures room { IfOk result (λ log. log.room ≡ room) }
    {
        Ok(Log {
            first: first.to_vec(alloc)?,
            notes: Vec::with_capacity(alloc, room / 32)?,
            written: Vec::with_capacity(alloc, room)?,
            room,
        })
    }

    /// Whether there is room for a call that writes so many bytes.
    pub(crate) fn has_room(&self, size: usize) -> bool
        ensures { IsTrue result ↔ (32 * vec_len self.now.notes + vec_len self.now.written + 32 + size ≤ self.now.room) }
    {
        let left = self.room - 32 * self.notes.len() - self.written.len();
        left >= 32 && size <= left - 32
    }

    /// Notes a call and the bytes that it wrote.
    pub(crate) fn note(&mut self, note: Note, bytes: &[u8])
        requires room { 32 * vec_len self.old.notes + vec_len self.old.written + 32 + length bytes.now ≤ self.old.room }
        requires size { length bytes.now ≡ size_of note }
        ensures told { (torn : ℕ) → recorded torn self.new ≡ after_note torn note bytes.now (recorded torn self.old) }
        ensures first { self.new.first ≡ self.old.first }
        ensures notes { self.new.notes.items ≡ self.old.notes.items ++ note ∷ [] }
        ensures written { self.new.written.items ≡ self.old.written.items ++ bytes.now }
        ensures same_room { self.new.room ≡ self.old.room }
    {
        self.notes.push(note).unwrap();
        self.written.extend_from_slice(bytes).unwrap();
    }
}
