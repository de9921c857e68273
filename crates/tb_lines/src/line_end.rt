//! Where lines end, and how long they may be.
ghost use Rattle.std.specs.Prelude.{◌≡◌, ◌≤◌, ℕ, List, length, take, position};
ghost use Rattle.std.specs.Str.Lines.{strip_carriage_return};
ghost use Rattle.tb_lines.specs.LineEnds.{is_line_feed, FitsLine};

/// The longest line, without its line feed and the one carriage return before that.
pub const LONGEST_LINE: usize = 8192;

/// Lines of a book or of a script, at most.
pub const MOST_LINES: u64 = 1_000_000;

/// What stands next in the input.
#[derive(Clone, Copy, Debug, PartialEq, Eq)]
pub enum NextLine {
    /// A line, which the reader then shows.
    Line,
    /// Nothing.
    End,
    /// A line of more than 8,192 bytes.
    TooLong,
}

/// The place of the first line feed.
pub fn line_end(text: &[u8]) -> Option<usize>
    ensures { result ≡ position is_line_feed text.now }
{
    text.iter().position(|byte| *byte == b'\n')
}

/// The length of a line that a line feed ends, without one carriage return before that.
pub fn without_carriage_return(line: &[u8]) -> usize
    ensures shorter { result ≤ length line.now }
    ensures line { take result line.now ≡ strip_carriage_return line.now }
{
    match line.last() {
        Some(b'\r') => line.len() - 1,
        _ => line.len(),
    }
}

/// A line of this length, or one that is too long.
pub fn line_or_too_long(count: usize) -> NextLine
    ensures { (line : List ℕ) → length line ≡ count → FitsLine result line }
{
    if count > LONGEST_LINE {
        NextLine::TooLong
    } else {
        NextLine::Line
    }
}
