//! The lines of a source, in whatever pieces it gives its bytes.
ghost use Rattle.std.specs.Prelude.{
  ◌≡◌,
  ◌+◌,
  ◌≤◌,
  [],
  false,
  length,
  drop,
  vec_len,
  position,
  ℕ,
  Some,
  Ok,
  IfOk,
  OnOk,
  OnErr,
  IsErrOf,
};
ghost use Rattle.tb_link.specs.Counts.{NeverFalls, Rose};

use crate::line_end::{
    LONGEST_LINE, NextLine, line_end, line_or_too_long, without_carriage_return,
};
use crate::pieces::{InputFault, PieceReader};
use std::alloc::Global;
use tb_link::Source;

/// Reads lines from a source. Contracts see the bytes that it has and has not given yet, and the line that it gave
/// last. It holds no more than two lines and their ends, whatever comes.
#[derive(Drop)]
pub struct LineReader {
    pieces: PieceReader,
    // The line that was given last.
    from: usize,
    to: usize,
    ghost line: { from ≤ to },
    ghost within: { to ≤ pieces.filled },
    ghost bounded: { vec_len pieces.space ≤ 16386 },
}

impl LineReader {
    ghost use Rattle.tb_lines.specs.Lines.{
      unread,
      current,
      ahead,
      FindsWhereTold,
      GaveLine,
      GaveLast,
      StaysAtEnd,
    };
    ghost use Rattle.tb_lines.specs.Reads.{ReadsLines, ReadsNoMore};
    ghost use Rattle.tb_lines.specs.Told.{WhereTold};
    ghost use Rattle.tb_lines.specs.LineEnds.{FitsLine, is_line_feed};

    pub fn new(alloc: Global) -> LineReader
        ensures empty { unread result ≡ [] }
        ensures going { result.pieces.ended ≡ false }
    {
        LineReader {
            pieces: PieceReader::new(alloc),
            from: 0,
            to: 0,
        }
    }

    /// Reads the next line. Where a whole line waits nothing is read, and where none does no more than shows the next one
    /// whole. The source's end is found once, and not read again.
    pub fn next_line<I: Source>(&mut self, input: &mut I) -> Result<NextLine, InputFault>
        ensures finds { IfOk result (λ found. FindsWhereTold (ahead self.old (I.source input.old)) found
            (current self.new) (ahead self.new (I.source input.new))) }
        ensures reads { result ≡ Ok NextLine.Line → WhereTold (ahead self.old (I.source input.old))
            (ReadsNoMore (I.source input.old).reads (I.source input.new).reads self.new.pieces.ended
            (ahead self.new (I.source input.new))) }
        // Whatever is found, nothing behind the next line was read.
        ensures alone { WhereTold (ahead self.old (I.source input.old))
            (ReadsLines 1 (I.source input.old).reads (I.source input.new).reads) }
        // A whole line that waits is given without a read.
        ensures waits { (end : ℕ) → position is_line_feed (unread self.old) ≡ Some end → input.new ≡ input.old }
        ensures once { StaysAtEnd self.old self.new (I.source input.old) (I.source input.new) }
        ensures no_fault { OnOk result ((I.source input.new).faults ≡ (I.source input.old).faults) }
        ensures fault { IsErrOf result InputFault.Read → Rose (I.source input.old).faults (I.source input.new).faults }
        // A read that failed isn't told as want of memory, so that none is made whose failure can't be told.
        ensures lacked { IsErrOf result InputFault.OutOfMemory
            → (I.source input.new).faults ≡ (I.source input.old).faults }
        // Where no line was given, none was whole, and what was taken is kept.
        ensures failed { OnErr result ((ahead self.new (I.source input.new) ≡ ahead self.old (I.source input.old))
            × (position is_line_feed (unread self.new) ≡ None) × (self.new.pieces.ended ≡ false)) }
        ensures count { NeverFalls (I.source input.old).faults (I.source input.new).faults }
    {
        loop {
            if let Some(end) = line_end(self.unread()) {
                return Ok(self.give(end));
            }
            if self.unread().len() > LONGEST_LINE + 1 {
                return Ok(NextLine::TooLong);
            }
            self.from = 0;
            self.to = 0;
            if !self.pieces.fill(input)? {
                return Ok(self.give_last());
            }
        }
    }

    /// The line that was given last.
    pub fn line(&self) -> &[u8]
        ensures { result.now ≡ current self.now }
    {
        &self.pieces.held()[self.from..self.to]
    }

    fn unread(&self) -> &[u8]
        ensures { result.now ≡ unread self.now }
    {
        self.pieces.waiting()
    }

    // Gives the line up to its line feed.
    fn give(&mut self, end: usize) -> NextLine
        requires { position is_line_feed (unread self.old) ≡ Some end }
        ensures line { GaveLine (unread self.old) self.new }
        ensures rest { unread self.new ≡ drop (end + 1) (unread self.old) }
        ensures fits { FitsLine result (current self.new) }
        ensures ended { self.new.pieces.ended ≡ self.old.pieces.ended }
    {
        let line = &self.unread()[..end];
        let count = without_carriage_return(line);
        self.show(count);
        self.pieces.give(end + 1);
        line_or_too_long(count)
    }

    // Gives what the source's end cuts off, where there is anything.
    fn give_last(&mut self) -> NextLine
        requires { position is_line_feed (unread self.old) ≡ None }
        ensures gave { GaveLast result (unread self.old) self.new }
        ensures ended { self.new.pieces.ended ≡ self.old.pieces.ended }
    {
        let count = self.unread().len();
        if count == 0 {
            return NextLine::End;
        }
        self.show(count);
        self.pieces.give(count);
        line_or_too_long(count)
    }

    // So many of the bytes that wait are the line that is shown.
    fn show(&mut self, count: usize)
        requires { count ≤ length (unread self.old) }
        ensures from { self.new.from ≡ self.old.pieces.at }
        ensures to { self.new.to ≡ self.old.pieces.at + count }
        ensures pieces { self.new.pieces ≡ self.old.pieces }
    {
        self.from = self.pieces.place();
        self.to = self.from + count;
    }
}
