//! The command `award`.
ghost use Rattle.std.specs.Prelude.{◌≡◌};
ghost use Rattle.tb_link.specs.Counts.{NeverFalls};
ghost use Rattle.tb_commands.specs.AwardRun.{AwardEnds};

use crate::command_endings::TextEnding;
use std::alloc::Global;
use tb_link::{Sink, Source};
use tb_text_book::{BookFault, award_text, read_book};

/// Reads a book from the input and prints where its auction stops, and where it is asked for in full what each bidder
/// gets. Nothing is written before the book's end was read.
pub fn award<I: Source, O: Sink>(
    alloc: Global,
    full: bool,
    input: &mut I,
    out: &mut O,
) -> TextEnding
    ensures ends { AwardEnds full result (I.source input.old) (I.source input.new) (O.sink out.old) (O.sink out.new) }
    ensures input_count { NeverFalls (I.source input.old).faults (I.source input.new).faults }
    ensures out_count { NeverFalls (O.sink out.old).faults (O.sink out.new).faults }
{
    let book = match read_book(alloc, input) {
        Ok(book) => book,
        Err(BookFault::BadLine(line)) => return TextEnding::BadInput(line),
        Err(BookFault::Read) => return TextEnding::ReadFault,
        Err(BookFault::OutOfMemory) => return TextEnding::OutOfMemory,
    };
    match award_text(alloc, book, full) {
        Ok(text) => match out.write(&text) {
            Ok(()) => TextEnding::Done,
            Err(_) => TextEnding::WriteFault,
        },
        Err(_) => TextEnding::OutOfMemory,
    }
}
