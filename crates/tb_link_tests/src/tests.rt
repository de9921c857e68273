//! Tests of sources and sinks, in memory and over the standard library.
use std::io::{self, ErrorKind, Read};
use std::test::Fail;
use tb_link::*;

// Whether a read into this buffer, which has room, gives these bytes.
fn gives(source: &mut impl Source, into: &mut [u8], bytes: &[u8]) -> bool {
    if into.is_empty() {
        return false;
    }
    match source.read(into) {
        Ok(count) => count <= into.len() && &into[..count] == bytes,
        Err(_) => false,
    }
}

#[test]
fn a_source_gives_its_bytes_in_pieces(rt: HostRuntime) -> Result<(), Fail> {
    let bytes = b"abcde".to_vec(rt.alloc())?;
    let mut source = TextSource::new(bytes, 2, vec![in rt.alloc(); 1]?);
    assert!(rt; gives(&mut source, &mut [0u8; 4], b"ab"));
    assert!(rt; source.read(&mut [0u8; 4]) == Err(Failed));
    assert!(rt; gives(&mut source, &mut [0u8; 1], b"c"));
    assert!(rt; gives(&mut source, &mut [0u8; 4], b"de"));
    assert!(rt; gives(&mut source, &mut [0u8; 4], b""));
    Ok(())
}

#[test]
fn a_sink_keeps_what_it_takes(rt: HostRuntime) -> Result<(), Fail> {
    let mut sink = TextSink::new(rt.alloc(), 5, vec![in rt.alloc(); 1]?)?;
    assert!(rt; sink.write(b"abc") == Ok(()));
    // The call numbered 1 fails, and what is past the room.
    assert!(rt; sink.write(b"x") == Err(Failed));
    assert!(rt; sink.write(b"def") == Err(Failed));
    assert!(rt; sink.write(b"de") == Ok(()));
    assert!(rt; sink.bytes() == b"abcde".as_slice());
    Ok(())
}

#[test]
fn adapters_pass_bytes_on(rt: HostRuntime) -> Result<(), Fail> {
    let mut source = StdSource::new(b"ab".as_slice());
    assert!(rt; gives(&mut source, &mut [0u8; 4], b"ab"));
    assert!(rt; gives(&mut source, &mut [0u8; 4], b""));
    let mut sink = StdSink::new(Vec::new(rt.alloc()));
    assert!(rt; sink.write(b"ab") == Ok(()));
    Ok(())
}

// A reader that is interrupted at every other read.
#[derive(Drop)]
struct Disturbed<'a> {
    bytes: &'a [u8],
    disturbed: bool,
}

impl Read for Disturbed<'_> {
    fn read(&mut self, into: &mut [u8]) -> io::Result<usize> {
        self.disturbed = !self.disturbed;
        if self.disturbed {
            return Err(ErrorKind::Interrupted.into());
        }
        self.bytes.read(into)
    }
}

#[test]
fn an_interrupted_read_is_made_again(rt: HostRuntime) -> Result<(), Fail> {
    let mut source = StdSource::new(Disturbed {
        bytes: b"abc",
        disturbed: false,
    });
    assert!(rt; gives(&mut source, &mut [0u8; 2], b"ab"));
    assert!(rt; gives(&mut source, &mut [0u8; 2], b"c"));
    assert!(rt; gives(&mut source, &mut [0u8; 2], b""));
    Ok(())
}
