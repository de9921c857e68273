//! A sink in memory, which tells its bytes.
ghost use Rattle.std.specs.Prelude.{◌≡◌, ◌+◌, ◌<◌, ◌≤◌, ◌↔◌, ◌⊎◌, [], length, vec_len, vec_capacity, IfOk, OnOk, OnErr, IsErr, IsTrue, Contains};
ghost use Rattle.tb_link.specs.Counts.{counted};
ghost use Rattle.tb_link.specs.Sinks.{Takes, FailsToTake};
ghost use Rattle.tb_link.specs.Sources.{LeavesSource, no_source};

use crate::faults::Faults;
use crate::sink::Sink;
use crate::source::Failed;
use std::alloc::Global;
use tb_units::OutOfMemory;

/// Keeps the bytes that it takes, up to its room, and fails at stated calls.
#[derive(Drop)]
pub struct TextSink {
    bytes: Vec<u8>,
    room: usize,
    fails: Vec<u64>,
    calls: u64,
    faults: Faults,
    ghost within: { vec_len bytes ≤ room },
    ghost reserved: { room ≤ vec_capacity bytes },
}

impl TextSink {
    /// Takes at most `room` bytes. The calls whose numbers, from 0, are in `fails` fail, and so do those whose piece
    /// passes the room; a call that fails takes nothing.
    pub fn new(alloc: Global, room: usize, fails: Vec<u64>) -> Result<TextSink, OutOfMemory>
        ensures empty { IfOk result (λ sink. (sink.bytes.items ≡ []) × (sink.room ≡ room)) }
        ensures start { IfOk result (λ sink. (sink.faults.count ≡ 0) × (sink.calls ≡ 0)) }
        ensures fails { IfOk result (λ sink. sink.fails.items ≡ fails.items) }
    {
        let bytes = Vec::with_capacity(alloc, room)?;
        Ok(TextSink {
            bytes,
            room,
            fails,
            calls: 0,
            faults: Faults::none(),
        })
    }

    /// The bytes taken.
    pub fn bytes(&self) -> &[u8]
        ensures { result.now ≡ self.now.bytes.items }
    {
        self.bytes.as_slice()
    }

    fn is_refused(&self, piece: &[u8]) -> bool
        ensures { IsTrue result ↔ (Contains self.now.fails.items self.now.calls
            ⊎ (self.now.room < vec_len self.now.bytes + length piece.now)) }
    {
        self.fails.contains(&self.calls) || piece.len() > self.room - self.bytes.len()
    }
}

impl Sink for TextSink {
    ghost use Rattle.tb_link.specs.Memory.{text_sink, CountsWrite};

    ghost sink = { text_sink };

    fn write(&mut self, bytes: &[u8]) -> Result<(), Failed>
        ensures takes { OnOk result (Takes (text_sink self.old) (text_sink self.new) bytes.now) }
        ensures fails { OnErr result (FailsToTake (text_sink self.old) (text_sink self.new) bytes.now) }
        ensures beside { LeavesSource no_source no_source }
        // It fails at the stated calls and where the piece passes the room, and at no other.
        ensures exactly { IsErr result ↔ (Contains self.old.fails.items self.old.calls
            ⊎ (self.old.room < vec_len self.old.bytes + length bytes.now)) }
        ensures nothing { OnErr result (self.new.bytes.items ≡ self.old.bytes.items) }
        ensures one_fault { OnErr result (self.new.faults.count ≡ counted self.old.faults.count) }
        ensures call { CountsWrite self.old self.new }
    {
        let refused = self.is_refused(bytes);
        self.calls = self.calls.saturating_add(1);
        if refused {
            return Err(self.faults.rise());
        }
        self.bytes.extend_from_slice(bytes).unwrap();
        Ok(())
    }

    ghost bounded = { λ self. self.faults.bounded };
}
