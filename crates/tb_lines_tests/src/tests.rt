use std::test::Fail;
use tb_lines::*;
use tb_link::TextSource;

// Whether the next line of the source is this one.
fn gives(reader: &mut LineReader, source: &mut TextSource, line: &[u8]) -> bool {
    reader.next_line(source) == Ok(NextLine::Line) && reader.line() == line
}

// The source gives both lines at once, and its next read fails: the second line is given without it.
#[test]
fn a_line_that_waits_is_given_without_a_read(rt: HostRuntime) -> Result<(), Fail> {
    let text = b"one\ntwo\nth".to_vec(rt.alloc())?;
    let mut source = TextSource::new(text, 64, vec![in rt.alloc(); 1]?);
    let mut reader = LineReader::new(rt.alloc());
    assert!(rt; gives(&mut reader, &mut source, b"one"));
    assert!(rt; gives(&mut reader, &mut source, b"two"));
    assert!(rt; reader.next_line(&mut source) == Err(InputFault::Read));
    // What was begun is kept, and the read is made again.
    assert!(rt; gives(&mut reader, &mut source, b"th"));
    Ok(())
}

// Behind the end, which is found by the read numbered 1, each read fails.
#[test]
fn the_end_is_read_once(rt: HostRuntime) -> Result<(), Fail> {
    let text = b"one".to_vec(rt.alloc())?;
    let mut source = TextSource::new(text, 64, vec![in rt.alloc(); 2, 3]?);
    let mut reader = LineReader::new(rt.alloc());
    assert!(rt; gives(&mut reader, &mut source, b"one"));
    assert!(rt; reader.next_line(&mut source) == Ok(NextLine::End));
    assert!(rt; reader.next_line(&mut source) == Ok(NextLine::End));
    Ok(())
}

// A byte a read, and a carriage return before a line feed.
#[test]
fn a_line_comes_in_pieces(rt: HostRuntime) -> Result<(), Fail> {
    let text = b"ab\r\n\r\n\r".to_vec(rt.alloc())?;
    let mut source = TextSource::new(text, 1, vec![in rt.alloc(); 2]?);
    let mut reader = LineReader::new(rt.alloc());
    assert!(rt; reader.next_line(&mut source) == Err(InputFault::Read));
    assert!(rt; gives(&mut reader, &mut source, b"ab"));
    assert!(rt; gives(&mut reader, &mut source, b""));
    assert!(rt; gives(&mut reader, &mut source, b"\r"));
    assert!(rt; reader.next_line(&mut source) == Ok(NextLine::End));
    Ok(())
}

// Lines of 8,192 and of 8,193 bytes, of which no read shows one whole.
#[test]
fn the_longest_line_is_read_and_no_longer_one(rt: HostRuntime) -> Result<(), Fail> {
    let mut text = Vec::new(rt.alloc());
    text.resize(8192, b'x')?;
    text.push(b'\n')?;
    text.resize(16386, b'y')?;
    text.push(b'\n')?;
    let mut source = TextSource::new(text, 5000, Vec::new(rt.alloc()));
    let mut reader = LineReader::new(rt.alloc());
    assert!(rt; reader.next_line(&mut source) == Ok(NextLine::Line));
    assert!(rt; reader.line().len() == 8192);
    assert!(rt; reader.next_line(&mut source) == Ok(NextLine::TooLong));
    Ok(())
}

// Many lines pass through one space: what waits is moved to its front.
#[test]
fn lines_pass_one_by_one(rt: HostRuntime) -> Result<(), Fail> {
    let mut text = Vec::new(rt.alloc());
    for _ in 0..5000 {
        text.extend_from_slice(b"twelve bytes\n")?;
    }
    let mut source = TextSource::new(text, 8000, Vec::new(rt.alloc()));
    let mut reader = LineReader::new(rt.alloc());
    for _ in 0..5000 {
        assert!(rt; gives(&mut reader, &mut source, b"twelve bytes"));
    }
    assert!(rt; reader.next_line(&mut source) == Ok(NextLine::End));
    Ok(())
}

#[test]
fn pieces_wait_until_they_are_given(rt: HostRuntime) -> Result<(), Fail> {
    let text = b"abcdef".to_vec(rt.alloc())?;
    let mut source = TextSource::new(text, 4, vec![in rt.alloc(); 1]?);
    let mut pieces = PieceReader::new(rt.alloc());
    assert!(rt; pieces.waiting().is_empty());
    assert!(rt; pieces.fill(&mut source) == Ok(true));
    assert!(rt; pieces.waiting() == b"abcd".as_slice());
    if pieces.waiting().len() >= 3 {
        pieces.give(3);
    }
    assert!(rt; pieces.waiting() == b"d".as_slice());
    assert!(rt; pieces.fill(&mut source) == Err(InputFault::Read));
    assert!(rt; pieces.fill(&mut source) == Ok(true));
    assert!(rt; pieces.waiting() == b"def".as_slice());
    assert!(rt; pieces.fill(&mut source) == Ok(false));
    assert!(rt; pieces.fill(&mut source) == Ok(false));
    assert!(rt; pieces.waiting() == b"def".as_slice());
    Ok(())
}
