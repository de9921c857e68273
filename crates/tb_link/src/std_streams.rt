//! Adapters over std's readers and writers, which tell no bytes.
ghost use Rattle.std.specs.Prelude.{◌≡◌, ◌≤◌, ◌<◌, length, IfOk, OnOk, OnErr};
ghost use Rattle.std.specs.Io.KnownBytes.{ReadConsumes, Appends};
ghost use Rattle.tb_link.specs.Counts.{counted};
ghost use Rattle.tb_link.specs.Sources.{Gives, FailsToGive, LeavesSource, no_source};
ghost use Rattle.tb_link.specs.Sinks.{Takes, FailsToTake, LeavesSink, no_sink};

use crate::faults::Faults;
use crate::sink::Sink;
use crate::source::{Failed, Source};
use std::io::{self, ErrorKind, Read, Write};

/// Any reader of std. Its count of faults rises at each error but an interruption, after which it reads again.
#[derive(Drop)]
pub struct StdSource<R> {
    reader: R,
    faults: Faults,
    reads: u64,
}

impl<R: Read> StdSource<R> {
    /// A source of what the reader gives. It was not read yet, and has had no fault.
    pub fn new(reader: R) -> StdSource<R>
        ensures start { (result.faults.count ≡ 0) × (result.reads ≡ 0) }
        ensures reader { result.reader ≡ reader }
    {
        StdSource {
            reader,
            faults: Faults::none(),
            reads: 0,
        }
    }
}

// One read, again and again while a signal interrupts it.
fn read_uninterrupted<R: Read>(reader: &mut R, into: &mut [u8]) -> io::Result<usize>
    ensures within { IfOk result (λ n. n ≤ length into.old) }
    ensures bytes { ReadConsumes (R.remaining reader.old) (R.remaining reader.new) result into.new }
{
    for _ in 0..u64::MAX {
        match reader.read(into) {
            Ok(count) => return Ok(count),
            Err(error) if error.kind() == ErrorKind::Interrupted => {}
            Err(error) => return Err(error),
        }
    }
    Err(ErrorKind::Interrupted.into())
}

impl<R: Read> Source for StdSource<R> {
    ghost use Rattle.tb_link.specs.Streams.{std_source};

    ghost source = { std_source };

    fn read(&mut self, into: &mut [u8]) -> Result<usize, Failed>
        requires { 0 < length into.old }
        ensures gives { IfOk result (Gives (std_source self.old) (std_source self.new) into.new) }
        ensures fails { OnErr result (FailsToGive (std_source self.old) (std_source self.new)) }
        ensures beside { LeavesSink no_sink no_sink }
        // It gives the reader's next bytes, none only at the reader's end, and takes none where it fails.
        ensures bytes { ReadConsumes (R.remaining self.old.reader) (R.remaining self.new.reader) result into.new }
        ensures one_fault { OnErr result (self.new.faults.count ≡ counted self.old.faults.count) }
    {
        self.reads = self.reads.saturating_add(1);
        match read_uninterrupted(&mut self.reader, into) {
            Ok(count) => Ok(count),
            Err(_) => Err(self.faults.rise()),
        }
    }

    ghost bounded = { λ self. self.faults.bounded };
}

/// Any writer of std. Its count of faults rises at each error, and where nothing is taken of a piece.
#[derive(Drop)]
pub struct StdSink<W> {
    writer: W,
    faults: Faults,
}

impl<W: Write> StdSink<W> {
    /// A sink that writes to the writer. It has had no fault.
    pub fn new(writer: W) -> StdSink<W>
        ensures start { result.faults.count ≡ 0 }
        ensures writer { result.writer ≡ writer }
    {
        StdSink {
            writer,
            faults: Faults::none(),
        }
    }
}

impl<W: Write> Sink for StdSink<W> {
    ghost use Rattle.tb_link.specs.Streams.{std_sink};

    ghost sink = { std_sink };

    // Each piece is flushed, so that a pipe or a terminal has it before the next read.
    fn write(&mut self, bytes: &[u8]) -> Result<(), Failed>
        ensures takes { OnOk result (Takes (std_sink self.old) (std_sink self.new) bytes.now) }
        ensures fails { OnErr result (FailsToTake (std_sink self.old) (std_sink self.new) bytes.now) }
        ensures beside { LeavesSource no_source no_source }
        // The writer has taken the whole piece.
        ensures bytes { OnOk result (Appends (W.contents self.old.writer) (W.contents self.new.writer) bytes.now) }
        ensures one_fault { OnErr result (self.new.faults.count ≡ counted self.old.faults.count) }
    {
        let written = self.writer.write_all(bytes).is_ok() && self.writer.flush().is_ok();
        if !written {
            return Err(self.faults.rise());
        }
        Ok(())
    }

    ghost bounded = { λ self. self.faults.bounded };
}
