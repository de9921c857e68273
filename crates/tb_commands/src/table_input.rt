//! A table of bids, read whole from the input.
ghost use Rattle.std.specs.Prelude.{
  ◌≡◌,
  ◌+◌,
  ◌<◌,
  ◌≤◌,
  ◌++◌,
  ℕ,
  List,
  [],
  Ok,
  true,
  false,
  length,
  vec_len,
  IfOk,
  IfSome,
  OnOk,
  OnErr,
  IsErrOf,
};
ghost use Rattle.tb_link.specs.Counts.{NeverFalls, Rose};
ghost use Rattle.tb_link.specs.Sources.{before_left};
ghost use Rattle.tb_lines.specs.Reads.{ReadsToEnd};
ghost use Rattle.tb_commands.specs.TableInput.{AnswersInput, HasText};
ghost use Rattle.tb_lines.specs.Told.{WhereTold};

use crate::command_endings::TextEnding;
use std::alloc::Global;
use tb_import::{BidTable, ImportFault};
use tb_lines::InputFault;
use tb_link::{Failed, Source};

// Bytes of a table, at most.
const MOST_BYTES: usize = 134_217_728;

const PIECE: usize = 8192;

/// Reads the whole input, and the table that it is: each row once, in the order in which they were first seen.
pub fn read_table<I: Source>(alloc: Global, input: &mut I) -> Result<BidTable, TextEnding>
    ensures answers { AnswersInput (I.source input.old) (I.source input.new) result }
    ensures reads { WhereTold (I.source input.old).left
        (ReadsToEnd (I.source input.old).reads (I.source input.new).reads) }
{
    match read_text(alloc, input) {
        Ok(text) => match tb_import::read_table(alloc, &text) {
            Ok(table) => Ok(table),
            Err(ImportFault::BadRecord(record)) => Err(TextEnding::BadInput(record)),
            Err(ImportFault::OutOfMemory) => Err(TextEnding::OutOfMemory),
        },
        Err(InputFault::Read) => Err(TextEnding::ReadFault),
        Err(InputFault::OutOfMemory) => Err(TextEnding::OutOfMemory),
    }
}

// The whole input, or more of it than a table may have.
fn read_text<I: Source>(alloc: Global, input: &mut I) -> Result<Vec<u8>, InputFault>
    ensures text { IfOk result (λ text. HasText text.items (I.source input.old) (I.source input.new)) }
    ensures reads { WhereTold (I.source input.old).left
        (ReadsToEnd (I.source input.old).reads (I.source input.new).reads) }
    ensures no_fault { OnOk result ((I.source input.new).faults ≡ (I.source input.old).faults) }
    ensures fault { IsErrOf result InputFault.Read → Rose (I.source input.old).faults (I.source input.new).faults }
    ensures lacked { IsErrOf result InputFault.OutOfMemory
        → (I.source input.new).faults ≡ (I.source input.old).faults }
{
    let mut text = Vec::new(alloc);
    let mut space = [0; PIECE];
    while text.len() <= MOST_BYTES {
        if !read_piece(input, &mut space, &mut text)? {
            return Ok(text);
        }
    }
    Ok(text)
}

// Reads a piece behind the text, by the space for it: true where the input gave some bytes, false at its end.
fn read_piece<I: Source>(
    input: &mut I,
    space: &mut [u8; PIECE],
    text: &mut Vec<u8>,
) -> Result<bool, InputFault>
    ensures piece { OnOk result ((piece : List ℕ) × (text.new.items ≡ text.old.items ++ piece)
        × ((I.source input.old).left ≡ before_left piece (I.source input.new).left)) }
    ensures more { result ≡ Ok true → vec_len text.old < vec_len text.new }
    ensures one_read { (I.source input.new).reads ≤ (I.source input.old).reads + 1 }
    ensures end { result ≡ Ok false → (text.new.items ≡ text.old.items)
        × IfSome (I.source input.old).left (λ left. left ≡ [])
        × ((I.source input.new).left ≡ (I.source input.old).left) }
    ensures no_fault { OnOk result ((I.source input.new).faults ≡ (I.source input.old).faults) }
    ensures fault { IsErrOf result InputFault.Read → Rose (I.source input.old).faults (I.source input.new).faults }
    ensures lacked { IsErrOf result InputFault.OutOfMemory
        → (I.source input.new).faults ≡ (I.source input.old).faults }
{
    let count = match input.read(space) {
        Ok(count) => count,
        Err(Failed) => return Err(InputFault::Read),
    };
    match text.extend_from_slice(&space[..count]) {
        Ok(()) => Ok(count > 0),
        Err(_) => Err(InputFault::OutOfMemory),
    }
}
