//! Reading a text book of bids from a source.
ghost use Rattle.std.specs.Prelude.{◌≡◌, ◌≢◌, ◌<◌, ℕ, false, length, None, Err, IfOk, OnOk, IsErrOf, position};
ghost use Rattle.std.specs.Str.Lines.{lines};
ghost use Rattle.tb_link.specs.Counts.{NeverFalls, Rose};
ghost use Rattle.tb_text_book.specs.Books.{Adds, Book, empty_book};
ghost use Rattle.tb_lines.specs.LineEnds.{is_line_feed, most_lines};
ghost use Rattle.tb_text_book.specs.BookReading.{AreSomeEntries, HasNoLine, IsOpenBook, ReadsBadLine, ReadsLine, StopsEntries};
ghost use Rattle.tb_lines.specs.Told.{WhereTold};
ghost use Rattle.tb_lines.specs.Lines.{ahead, StaysAtEnd, unread};
ghost use Rattle.tb_lines.specs.Reads.{CutsOpen, LeavesOpen, ReadsLines, ReadsNoMore, ReadsWithoutFault};
ghost use Rattle.tb_text_book.specs.SoundLines.{IsLine, IsSoundOffering};
ghost use Rattle.tb_text_book.specs.Tallies.{HasReadEntries, IsReadFrom, IsTally};
ghost use Rattle.tb_text_book.specs.BookFaults.{of_input};
ghost use Rattle.tb_text_book.specs.declared.book_line.BookLine.TheVariants as kind;
ghost use Rattle.tb_text_book.specs.declared.book.BookFault.TheVariants as fault;

use crate::book_line::{BookLine, Entry};
use crate::read_line::read_book_line;
use crate::text_book::{AddFault, TextBook};
use std::alloc::Global;
use tb_lines::{InputFault, LineReader, MOST_LINES, NextLine};
use tb_link::Source;

/// Why no book was read.
#[derive(Clone, Copy, Debug, PartialEq, Eq)]
pub enum BookFault {
    /// The first line outside the grammar was reached, the line of this number, counted from 1.
    BadLine(u64),
    Read,
    OutOfMemory,
}

impl From<InputFault> for BookFault {
    ghost from_gives = { λ from to. to ≡ of_input from };

    fn from(error: InputFault) -> BookFault {
        match error {
            InputFault::Read => BookFault::Read,
            InputFault::OutOfMemory => BookFault::OutOfMemory,
        }
    }
}

// The next line, the line of this number, if it is one of a book's.
fn next_book_line<I: Source>(
    reader: &mut LineReader,
    number: u64,
    input: &mut I,
) -> Result<BookLine, BookFault>
    ensures line { IfOk result (λ line. WhereTold (ahead reader.old (I.source input.old))
        (ReadsLine line (ahead reader.new (I.source input.new)))) }
    ensures spelled { IfOk result IsLine }
    ensures reads { OnOk result (WhereTold (ahead reader.old (I.source input.old))
        (ReadsNoMore (I.source input.old).reads (I.source input.new).reads reader.new.pieces.ended
        (ahead reader.new (I.source input.new)))) }
    ensures alone { WhereTold (ahead reader.old (I.source input.old))
        (ReadsLines 1 (I.source input.old).reads (I.source input.new).reads) }
    ensures once { StaysAtEnd reader.old reader.new (I.source input.old) (I.source input.new) }
    ensures no_fault { OnOk result ((I.source input.new).faults ≡ (I.source input.old).faults) }
    ensures bad { (line : ℕ) → IsErrOf result (fault.BadLine line) → (line ≡ number)
        × ((I.source input.new).faults ≡ (I.source input.old).faults)
        × WhereTold (ahead reader.old (I.source input.old)) (λ text. HasNoLine (lines text)) }
    ensures fault { IsErrOf result BookFault.Read → Rose (I.source input.old).faults (I.source input.new).faults }
    ensures lacked { IsErrOf result BookFault.OutOfMemory
        → (I.source input.new).faults ≡ (I.source input.old).faults }
    // Where a read failed, no line was whole, and what was taken is kept.
    ensures failed { IsErrOf result BookFault.Read
        → (ahead reader.new (I.source input.new) ≡ ahead reader.old (I.source input.old))
        × (position is_line_feed (unread reader.new) ≡ None) × (reader.new.pieces.ended ≡ false) }
    ensures count { NeverFalls (I.source input.old).faults (I.source input.new).faults }
{
    match reader.next_line(input)? {
        NextLine::Line => match read_book_line(reader.line()) {
            Some(line) => Ok(line),
            None => Err(BookFault::BadLine(number)),
        },
        NextLine::End => Err(BookFault::BadLine(number)),
        NextLine::TooLong => Err(BookFault::BadLine(number)),
    }
}

/// Reads a book up to its line `end`, or to the first line outside the grammar. Nothing behind that is read, and nothing
/// once that line is there.
pub fn read_book<I: Source>(alloc: Global, input: &mut I) -> Result<TextBook, BookFault>
    ensures book { IfOk result (IsReadFrom (I.source input.old) (I.source input.new)) }
    ensures no_fault { OnOk result ((I.source input.new).faults ≡ (I.source input.old).faults) }
    ensures bad { (line : ℕ) → IsErrOf result (fault.BadLine line)
        → ReadsWithoutFault (I.source input.old) (I.source input.new)
        (ReadsBadLine line (I.source input.old).reads (I.source input.new).reads) }
    ensures fault { IsErrOf result BookFault.Read → Rose (I.source input.old).faults (I.source input.new).faults }
    // Where a read failed, the lines that were whole are a book without its end: no read is made once that is there.
    ensures failed { IsErrOf result BookFault.Read → WhereTold (I.source input.old).left
        (CutsOpen IsOpenBook (I.source input.old).reads (I.source input.new).reads (I.source input.new).left) }
    ensures lacked { IsErrOf result BookFault.OutOfMemory → ReadsWithoutFault (I.source input.old) (I.source input.new)
        (LeavesOpen IsOpenBook (I.source input.old).reads (I.source input.new).reads) }
    ensures count { NeverFalls (I.source input.old).faults (I.source input.new).faults }
{
    let mut reader = LineReader::new(alloc);
    let offering = match next_book_line(&mut reader, 1, input)? {
        BookLine::Offering(offering) => offering,
        _ => return Err(BookFault::BadLine(1)),
    };
    let mut book = TextBook::new(alloc, offering);
    read_entries(&mut book, &mut reader, input)?;
    Ok(book)
}

// Reads the lines behind the offering.
fn read_entries<I: Source>(
    book: &mut TextBook,
    reader: &mut LineReader,
    input: &mut I,
) -> Result<(), BookFault>
    requires empty { IsTally empty_book book.old }
    requires offered { IsSoundOffering book.old.offering }
    ensures offering { book.new.offering ≡ book.old.offering }
    ensures book { OnOk result (HasReadEntries (ahead reader.old (I.source input.old))
        (ahead reader.new (I.source input.new)) book.new) }
    ensures reads { OnOk result (WhereTold (ahead reader.old (I.source input.old))
        (ReadsNoMore (I.source input.old).reads (I.source input.new).reads reader.new.pieces.ended
        (ahead reader.new (I.source input.new)))) }
    ensures once { StaysAtEnd reader.old reader.new (I.source input.old) (I.source input.new) }
    ensures no_fault { OnOk result ((I.source input.new).faults ≡ (I.source input.old).faults) }
    ensures bad { (line : ℕ) → IsErrOf result (fault.BadLine line)
        → ((I.source input.new).faults ≡ (I.source input.old).faults)
        × WhereTold (ahead reader.old (I.source input.old))
        (StopsEntries line (I.source input.old).reads (I.source input.new).reads book.old.offering) }
    ensures fault { IsErrOf result BookFault.Read → Rose (I.source input.old).faults (I.source input.new).faults }
    ensures failed { IsErrOf result BookFault.Read → WhereTold (ahead reader.old (I.source input.old))
        (CutsOpen (AreSomeEntries book.old.offering) (I.source input.old).reads (I.source input.new).reads
        (I.source input.new).left) }
    ensures lacked { IsErrOf result BookFault.OutOfMemory
        → ((I.source input.new).faults ≡ (I.source input.old).faults)
        × WhereTold (ahead reader.old (I.source input.old)) (LeavesOpen (AreSomeEntries book.old.offering)
        (I.source input.old).reads (I.source input.new).reads) }
    ensures count { NeverFalls (I.source input.old).faults (I.source input.new).faults }
{
    for read in 1..MOST_LINES {
        let number = read + 1;
        match next_book_line(reader, number, input)? {
            BookLine::Entry(entry) => add_entry(book, entry, number)?,
            BookLine::End => return Ok(()),
            BookLine::Offering(_) => return Err(BookFault::BadLine(number)),
        }
    }
    Err(BookFault::BadLine(MOST_LINES + 1))
}

// Adds the entry of the line of this number.
fn add_entry(book: &mut TextBook, entry: Entry, number: u64) -> Result<(), BookFault>
    requires tally { (b : Book) × IsTally b book.old × (length b.names < most_lines) × (length b.entries < most_lines) }
    requires spelled { IsLine (kind.Entry entry) }
    ensures added { OnOk result ((b : Book) → IsTally b book.old
        → (new : Book) × Adds book.old.offering b entry new × IsTally new book.new) }
    ensures bad { (line : ℕ) → IsErrOf result (fault.BadLine line) → (line ≡ number)
        × ((b : Book) → IsTally b book.old → (new : Book) → ¬ (Adds book.old.offering b entry new)) }
    ensures offering { book.new.offering ≡ book.old.offering }
    ensures read { result ≢ Err BookFault.Read }
{
    match book.add(entry) {
        Ok(()) => Ok(()),
        Err(AddFault::BadLine) => Err(BookFault::BadLine(number)),
        Err(AddFault::OutOfMemory) => Err(BookFault::OutOfMemory),
    }
}
