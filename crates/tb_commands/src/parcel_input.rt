//! The parcels of a source, in whatever pieces it gives its bytes.
ghost use Rattle.std.specs.Prelude.{
  ◌≡◌,
  ◌+◌,
  ◌<◌,
  ◌≤◌,
  [],
  false,
  length,
  vec_len,
  Ok,
  Err,
  None,
  IfOk,
  IfSome,
  OnOk,
  IsErrOf,
};
ghost use Rattle.tb_link.specs.Counts.{Rose};
ghost use Rattle.tb_message.specs.Spelling.{IsInRange};
ghost use Rattle.tb_parcel.specs.Parcels.{parcel_bytes};
ghost use Rattle.tb_lines.specs.Told.{WhereTold};
ghost use Rattle.tb_commands.specs.declared.parcel_input.ParcelFault.TheVariants as fault;

use std::alloc::Global;
use tb_lines::{InputFault, PieceReader};
use tb_link::Source;
use tb_parcel::{Parcel, ParcelFront, read_parcel};

/// Why no parcel was read.
#[derive(Clone, Copy, Debug, PartialEq, Eq)]
pub enum ParcelFault {
    /// What comes next is no parcel, or is cut by the end of the input.
    Bad,
    Read,
    OutOfMemory,
}

impl From<InputFault> for ParcelFault {
    ghost use Rattle.tb_commands.specs.ParcelInput.{fault_of};

    ghost from_gives = { λ why fault. fault ≡ fault_of why };

    fn from(why: InputFault) -> ParcelFault {
        match why {
            InputFault::Read => ParcelFault::Read,
            InputFault::OutOfMemory => ParcelFault::OutOfMemory,
        }
    }
}

/// Reads parcels from a source. Contracts see the bytes that it has and has not given yet. It holds no more than a
/// piece behind a parcel that isn't whole, whatever comes.
#[derive(Drop)]
pub struct ParcelReader {
    pieces: PieceReader,
    ghost bounded: { vec_len pieces.space ≤ 8715 },
}

impl ParcelReader {
    ghost use Rattle.tb_commands.specs.ParcelInput.{ungiven, to_come, FindsWhereTold, ReadsFront};

    pub fn new(alloc: Global) -> ParcelReader
        ensures empty { ungiven result ≡ [] }
        ensures going { result.pieces.ended ≡ false }
    {
        ParcelReader {
            pieces: PieceReader::new(alloc),
        }
    }

    /// Reads the next parcel, and no more of the source than shows it whole; `None` at the end of the input.
    pub fn next_parcel<I: Source>(&mut self, input: &mut I) -> Result<Option<Parcel>, ParcelFault>
        ensures finds { FindsWhereTold (to_come self.old (I.source input.old)) result
            (to_come self.new (I.source input.new)) (ungiven self.new) }
        ensures in_range { IfOk result (λ found. IfSome found (λ parcel. IsInRange parcel.entry)) }
        // Each read gave at least a byte of the parcel.
        ensures reads { IfOk result (λ found. IfSome found (λ parcel. (I.source input.new).reads
            ≤ (I.source input.old).reads + length (parcel_bytes parcel))) }
        // Whatever is found, nothing behind the bytes that tell it was read.
        ensures alone { WhereTold (to_come self.old (I.source input.old))
            (ReadsFront (I.source input.old).reads (I.source input.new).reads) }
        ensures going { IfOk result (λ found. IfSome found (λ parcel. self.new.pieces.ended ≡ self.old.pieces.ended)) }
        ensures end { result ≡ Ok None → self.old.pieces.ended ≡ false
            → IfSome (I.source input.new).left (λ left. left ≡ []) }
        ensures failed { IsErrOf result ParcelFault.Read → self.new.pieces.ended ≡ false }
        ensures no_fault { OnOk result ((I.source input.new).faults ≡ (I.source input.old).faults) }
        ensures none { IsErrOf result ParcelFault.Bad
            → (I.source input.new).faults ≡ (I.source input.old).faults }
        ensures fault { IsErrOf result ParcelFault.Read
            → Rose (I.source input.old).faults (I.source input.new).faults }
        // A read that failed isn't told as want of memory, so that none is made whose failure can't be told.
        ensures lacked { IsErrOf result ParcelFault.OutOfMemory
            → (I.source input.new).faults ≡ (I.source input.old).faults }
    {
        'front: loop {
            match read_parcel(self.ungiven()) {
                ParcelFront::Whole(parcel, size) => {
                    self.pieces.give(size);
                    return Ok(Some(parcel));
                }
                ParcelFront::Bad => return Err(ParcelFault::Bad),
                ParcelFront::More => {
                    if !self.pieces.fill(input)? {
                        return self.end();
                    }
                }
            }
        }
    }

    fn ungiven(&self) -> &[u8]
        ensures { result.now ≡ ungiven self.now }
    {
        self.pieces.waiting()
    }

    // At the end of the input nothing may be left.
    fn end(&self) -> Result<Option<Parcel>, ParcelFault>
        ensures whole { ungiven self.now ≡ [] → result ≡ Ok None }
        ensures cut { 0 < length (ungiven self.now) → result ≡ Err fault.Bad }
    {
        if self.ungiven().is_empty() {
            Ok(None)
        } else {
            Err(ParcelFault::Bad)
        }
    }
}
