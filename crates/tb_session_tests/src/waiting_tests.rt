//! A client that sends nothing more before it has its reply: it is answered only by a session that doesn't read on
//! while a whole request waits.

use crate::tests::{
    FIRST, FIRST_REPLY, Memory, SHAPELESS, SHAPELESS_REPLY, joined, opened, serve_one,
};
use std::alloc::Global;
use std::process::Abort;
use std::sync::Wait;
use tb_gates::{Link, PairLink};
use tb_link::{Failed, Faults, Sink, Source, TextSink, TextSource};
use tb_session::*;

/// A link whose client sends requests of one size. Where it is read while a whole one of them has no reply, this read
/// and every later one fail. It tells no bytes.
#[derive(Drop)]
struct WaitingLink {
    pair: PairLink,
    size: usize,
    given: usize,
    replies: usize,
    reads: u64,
    lost: bool,
    faults: Faults,
}

impl WaitingLink {
    // Whether the client waits for a reply.
    fn waits(&self) -> bool {
        match self.replies.checked_add(1) {
            Some(next) => self.given >= next.saturating_mul(self.size),
            None => false,
        }
    }
}

impl Source for WaitingLink {
    ghost use Rattle.std.specs.Prelude.{None};
    ghost use Rattle.tb_link.specs.Memory.{text_sink};

    ghost source = { λ link. record { left = None; faults = link.faults.count; reads = link.reads } };

    ghost sink_beside = { λ link. text_sink link.pair.sink };

    fn read(&mut self, into: &mut [u8]) -> Result<usize, Failed> {
        self.reads = self.reads.saturating_add(1);
        self.lost |= self.waits();
        if self.lost {
            return Err(self.faults.rise());
        }
        match self.pair.read(into) {
            Ok(count) => {
                self.given = self.given.saturating_add(count);
                Ok(count)
            }
            Err(_) => Err(self.faults.rise()),
        }
    }

    ghost bounded = { λ self. self.faults.bounded };
}

impl Sink for WaitingLink {
    ghost use Rattle.std.specs.Prelude.{None};
    ghost use Rattle.tb_link.specs.Memory.{text_sink};

    ghost sink = { λ link. text_sink link.pair.sink };

    ghost source_beside = { λ link. record { left = None; faults = link.faults.count; reads = link.reads } };

    fn write(&mut self, bytes: &[u8]) -> Result<(), Failed> {
        self.replies = self.replies.saturating_add(1);
        self.pair.write(bytes)
    }

    ghost bounded = { λ self. self.pair.sink.faults.bounded };
}

impl Link for WaitingLink {
    ghost use Rattle.std.specs.Prelude.{refl};

    ghost sink_is = { λ link. refl };

    ghost source_is = { λ link. refl };
}

/// So many requests with this text, which come in pieces of at most so many bytes.
fn link_of(
    rt: &impl Abort,
    alloc: Global,
    request: &str,
    count: usize,
    piece: usize,
) -> WaitingLink {
    assert!(rt; 1 <= piece);
    let mut text = Vec::new(alloc);
    for _ in 0..count {
        text.extend_from_slice(request.as_bytes())
            .expect(rt, "memory");
    }
    WaitingLink {
        pair: PairLink {
            source: TextSource::new(text, piece, Vec::new(alloc)),
            sink: TextSink::new(alloc, 1_000, Vec::new(alloc)).expect(rt, "memory"),
        },
        size: request.len(),
        given: 0,
        replies: 0,
        reads: 0,
        lost: false,
        faults: Faults::none(),
    }
}

/// Three requests with this text come in pieces of so many bytes. Whether each has this reply, and one read more finds
/// the end of the input.
pub fn three_are_answered<R: Wait + Abort>(
    rt: &R,
    alloc: Global,
    room: &mut Option<Memory>,
    request: &str,
    piece: usize,
    reply: &str,
) -> bool {
    let mut link = link_of(rt, alloc, request, 3, piece);
    let ended = serve_one(rt, alloc, room, &mut link);
    let expected = joined(rt, alloc, &[reply, reply, reply]);
    let taken = link.pair.sink.bytes();
    !link.lost && ended == End::EndOfInput && taken == expected.as_bytes()
}

// Two of them come in one piece, or parts of them.
#[test]
fn a_client_that_waits_for_its_replies_is_answered(rt: HostRuntime) {
    let alloc = rt.alloc();
    let mut room = Some(opened(&rt, alloc, &[]));
    let shapeless = SHAPELESS.len();
    assert!(rt; three_are_answered(&rt, alloc, &mut room, SHAPELESS, 1, SHAPELESS_REPLY));
    assert!(rt; three_are_answered(&rt, alloc, &mut room, SHAPELESS, 50, SHAPELESS_REPLY));
    assert!(rt; three_are_answered(&rt, alloc, &mut room, SHAPELESS, shapeless, SHAPELESS_REPLY));
    assert!(rt;
        three_are_answered(
            &rt,
            alloc,
            &mut room,
            SHAPELESS,
            shapeless * 2,
            SHAPELESS_REPLY
        )
    );
    let bid = FIRST.len();
    assert!(rt; three_are_answered(&rt, alloc, &mut room, FIRST, 1, FIRST_REPLY));
    assert!(rt; three_are_answered(&rt, alloc, &mut room, FIRST, 50, FIRST_REPLY));
    assert!(rt; three_are_answered(&rt, alloc, &mut room, FIRST, bid, FIRST_REPLY));
    assert!(rt; three_are_answered(&rt, alloc, &mut room, FIRST, bid * 2, FIRST_REPLY));
}

/// A request after whose reply the link closes.
const CLOSING: &str = "GET /elsewhere HTTP/1.1\r\nConnection: close\r\n\r\n";

// The bytes come one by one, so that there is a read for each byte of the first request.
#[test]
fn nothing_is_read_behind_the_reply_that_closes(rt: HostRuntime) {
    let alloc = rt.alloc();
    let mut room = Some(opened(&rt, alloc, &[]));
    let mut link = link_of(&rt, alloc, CLOSING, 2, 1);
    assert!(rt; serve_one(&rt, alloc, &mut room, &mut link) == End::Asked);
    assert!(rt; link.reads == CLOSING.len() as u64);
}
