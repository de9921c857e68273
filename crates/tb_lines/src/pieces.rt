//! The bytes of a source, read in whatever pieces it gives them.
ghost use Rattle.std.specs.Prelude.{
  ◌≡◌,
  ◌+◌,
  ◌<◌,
  ◌≤◌,
  ◌++◌,
  [],
  true,
  false,
  length,
  take,
  drop,
  vec_len,
  max,
  ℕ,
  List,
  Ok,
  IfOk,
  IfSome,
  OnOk,
  OnErr,
  IsErrOf,
};
ghost use Rattle.tb_link.specs.Counts.{NeverFalls, Rose};
ghost use Rattle.tb_link.specs.Sources.{FailsToGive, Gives};
ghost use Rattle.tb_lines.specs.declared.pieces.InputFault.TheVariants.{OutOfMemory};

use std::alloc::Global;
use tb_link::{Failed, Source};
use tb_units::OutOfMemory;

/// Bytes that there is space for before a read, at least.
const PIECE: usize = 8192;

/// Why nothing was read.
#[derive(Clone, Copy, Debug, PartialEq, Eq)]
pub enum InputFault {
    Read,
    OutOfMemory,
}

impl From<OutOfMemory> for InputFault {
    ghost from_gives = { λ _ fault. fault ≡ OutOfMemory };

    fn from(_error: OutOfMemory) -> InputFault {
        InputFault::OutOfMemory
    }
}

/// Reads a source in pieces. Contracts see the bytes that were read and not given yet, and whether the source's end was
/// found.
#[derive(Drop)]
pub struct PieceReader {
    space: Vec<u8>,
    // The first byte that was not given yet.
    at: usize,
    // So much of the space holds bytes that were read.
    filled: usize,
    // The source's end was found.
    ended: bool,
    ghost given: { at ≤ filled },
    ghost held: { filled ≤ vec_len space },
}

impl PieceReader {
    ghost use Rattle.tb_lines.specs.Pieces.{
      StaysAtEnd,
      coming,
      held,
      space_for,
      still_left,
      waiting,
    };

    pub fn new(alloc: Global) -> PieceReader
        ensures empty { waiting result ≡ [] }
        ensures going { result.ended ≡ false }
        ensures spare { vec_len result.space ≡ 0 }
    {
        PieceReader {
            space: Vec::new(alloc),
            at: 0,
            filled: 0,
            ended: false,
        }
    }

    /// The bytes that were read and not given yet.
    pub fn waiting(&self) -> &[u8]
        ensures { result.now ≡ waiting self.now }
    {
        &self.held()[self.at..]
    }

    /// Gives so many of the bytes that wait.
    pub fn give(&mut self, count: usize)
        requires { count ≤ length (waiting self.old) }
        ensures at { self.new.at ≡ self.old.at + count }
        ensures held { held self.new ≡ held self.old }
        ensures filled { self.new.filled ≡ self.old.filled }
        ensures ended { self.new.ended ≡ self.old.ended }
        ensures space { self.new.space ≡ self.old.space }
    {
        self.at += count;
    }

    /// Reads a piece of the source, unless its end was found: true where it gave some bytes, false at its end. Memory is
    /// taken first, so that no byte that was read is lost.
    #[inline(never)]
    pub fn fill<I: Source>(&mut self, input: &mut I) -> Result<bool, InputFault>
        // What waits and what the source has left is what it was.
        ensures same { coming self.new (I.source input.new) ≡ coming self.old (I.source input.old) }
        ensures kept { (piece : List ℕ) × (waiting self.new ≡ waiting self.old ++ piece) }
        ensures more { result ≡ Ok true → length (waiting self.old) < length (waiting self.new) }
        ensures ended { result ≡ Ok true → self.new.ended ≡ self.old.ended }
        ensures end { result ≡ Ok false → (waiting self.new ≡ waiting self.old) × (self.new.ended ≡ true)
            × IfSome (still_left self.old.ended (I.source input.old).left) (λ left. left ≡ []) }
        ensures left { result ≡ Ok false → (I.source input.new).left ≡ (I.source input.old).left }
        ensures one_read { (I.source input.new).reads ≤ (I.source input.old).reads + 1 }
        ensures once { StaysAtEnd self.old self.new (I.source input.old) (I.source input.new) }
        ensures no_fault { OnOk result ((I.source input.new).faults ≡ (I.source input.old).faults) }
        ensures fault { IsErrOf result InputFault.Read → Rose (I.source input.old).faults (I.source input.new).faults }
        // Where nothing was read, nothing is taken, and the end wasn't found.
        ensures failed { OnErr result ((waiting self.new ≡ waiting self.old) × (self.new.ended ≡ false)
            × ((I.source input.new).left ≡ (I.source input.old).left)) }
        // Where memory lacks, no read was made: one that fails can't be told as want of memory.
        ensures lacked { IsErrOf result InputFault.OutOfMemory → input.new ≡ input.old }
        ensures count { NeverFalls (I.source input.old).faults (I.source input.new).faults }
        // The bytes that wait are moved in place, and the space grows only where a piece doesn't fit behind them.
        ensures space { vec_len self.new.space ≤ max (vec_len self.old.space) (space_for (waiting self.old)) }
    {
        if self.ended {
            return Ok(false);
        }
        self.settle();
        self.make_space()?;
        match self.receive(input) {
            Ok(count) => {
                self.ended = count == 0;
                Ok(count > 0)
            }
            Err(Failed) => Err(InputFault::Read),
        }
    }

    // The bytes that were read, as far as the space holds them.
    pub(crate) fn held(&self) -> &[u8]
        ensures { result.now ≡ held self.now }
    {
        &self.space[..self.filled]
    }

    // How many of the bytes held were given.
    pub(crate) fn place(&self) -> usize
        ensures { result ≡ self.now.at }
    {
        self.at
    }

    // Moves the bytes that wait to the front, where the given ones were.
    fn settle(&mut self)
        ensures waiting { waiting self.new ≡ waiting self.old }
        ensures front { self.new.at ≡ 0 }
        ensures size { self.new.filled + self.old.at ≡ self.old.filled }
        ensures space { vec_len self.new.space ≡ vec_len self.old.space }
        ensures ended { self.new.ended ≡ self.old.ended }
    {
        if self.at > 0 {
            self.space.copy_within(self.at..self.filled, 0);
            self.filled -= self.at;
            self.at = 0;
        }
    }

    // Makes space for a piece behind the bytes that wait, or for as many bytes as wait.
    fn make_space(&mut self) -> Result<(), OutOfMemory>
        requires { self.old.at ≡ 0 }
        ensures room { OnOk result (self.new.filled < vec_len self.new.space) }
        ensures waiting { waiting self.new ≡ waiting self.old }
        ensures front { self.new.at ≡ 0 }
        ensures ended { self.new.ended ≡ self.old.ended }
        ensures space { vec_len self.new.space ≤ max (vec_len self.old.space) (space_for (waiting self.old)) }
    {
        if self.space.len() - self.filled < PIECE {
            let size = self.filled.saturating_add(self.filled.max(PIECE));
            self.space.resize(size, 0)?;
        }
        Ok(())
    }

    // Reads once into the space behind the bytes that wait.
    fn receive<I: Source>(&mut self, input: &mut I) -> Result<usize, Failed>
        requires room { self.old.filled < vec_len self.old.space }
        ensures gives { IfOk result (λ count. (into : List ℕ)
            × Gives (I.source input.old) (I.source input.new) into count
            × (waiting self.new ≡ waiting self.old ++ take count into)) }
        ensures fails { OnErr result (FailsToGive (I.source input.old) (I.source input.new)
            × (waiting self.new ≡ waiting self.old)) }
        ensures space { vec_len self.new.space ≡ vec_len self.old.space }
        ensures ended { self.new.ended ≡ self.old.ended }
    {
        let count = input.read(&mut self.space[self.filled..])?;
        self.filled += count;
        Ok(count)
    }
}
