//! A source in memory, which tells its bytes.
ghost use Rattle.std.specs.Prelude.{◌≡◌, ◌+◌, ◌<◌, ◌≤◌, ◌↔◌, [], ◌++◌, drop, length, vec_len, IfOk, OnErr, IsErr, Contains};
ghost use Rattle.tb_link.specs.Counts.{counted};
ghost use Rattle.tb_link.specs.Sources.{Gives, FailsToGive};
ghost use Rattle.tb_link.specs.Sinks.{LeavesSink, no_sink};

use crate::faults::Faults;
use crate::source::{Failed, Source};

/// Gives bytes in pieces, and fails at stated calls.
#[derive(Drop)]
pub struct TextSource {
    bytes: Vec<u8>,
    at: usize,
    piece: usize,
    fails: Vec<u64>,
    calls: u64,
    faults: Faults,
    ghost within: { at ≤ vec_len bytes },
    ghost some: { 1 ≤ piece },
}

impl TextSource {
    /// Gives at most `piece` bytes a call. The calls whose numbers, from 0, are in `fails` fail.
    pub fn new(bytes: Vec<u8>, piece: usize, fails: Vec<u64>) -> TextSource
        requires { 1 ≤ piece }
        ensures bytes { result.bytes.items ≡ bytes.items }
        ensures start { (result.at ≡ 0) × (result.faults.count ≡ 0) × (result.calls ≡ 0) }
        ensures as_given { (result.piece ≡ piece) × (result.fails.items ≡ fails.items) }
    {
        TextSource {
            bytes,
            at: 0,
            piece,
            fails,
            calls: 0,
            faults: Faults::none(),
        }
    }

    // The next piece, for a buffer of so many bytes.
    fn next_piece(&self, most: usize) -> &[u8]
        requires { 0 < most }
        ensures next { drop self.now.at self.now.bytes.items
            ≡ result.now ++ drop (self.now.at + length result.now) self.now.bytes.items }
        ensures within { self.now.at + length result.now ≤ vec_len self.now.bytes }
        ensures short { length result.now ≤ most }
        ensures few { length result.now ≤ self.now.piece }
        ensures at_end { (length result.now ≡ 0) ↔ (drop self.now.at self.now.bytes.items ≡ []) }
    {
        let left = &self.bytes[self.at..];
        let count = left.len().min(self.piece).min(most);
        &left[..count]
    }
}

impl Source for TextSource {
    ghost use Rattle.tb_link.specs.Memory.{text_source, CountsRead};

    ghost source = { text_source };

    fn read(&mut self, into: &mut [u8]) -> Result<usize, Failed>
        requires { 0 < length into.old }
        ensures gives { IfOk result (Gives (text_source self.old) (text_source self.new) into.new) }
        ensures fails { OnErr result (FailsToGive (text_source self.old) (text_source self.new)) }
        ensures beside { LeavesSink no_sink no_sink }
        // It fails at the stated calls and at no other.
        ensures exactly { IsErr result ↔ Contains self.old.fails.items self.old.calls }
        ensures few { IfOk result (λ n. n ≤ self.old.piece) }
        ensures one_fault { OnErr result (self.new.faults.count ≡ counted self.old.faults.count) }
        ensures call { CountsRead self.old self.new }
    {
        let call = self.calls;
        self.calls = call.saturating_add(1);
        if self.fails.contains(&call) {
            return Err(self.faults.rise());
        }
        let next = self.next_piece(into.len());
        let count = next.len();
        into[..count].copy_from_slice(next);
        self.at += count;
        Ok(count)
    }

    ghost bounded = { λ self. self.faults.bounded };
}
