//! Two links of which each waits, in the middle of its request, until the other has come as far. They are answered only
//! by workers that run side by side, and only where no turn is held while a link is read.
ghost use Rattle.std.specs.Prelude.{◌≤◌, ◌+◌, None, length, option_to_list};
ghost use Rattle.tb_gates.specs.Gates.{most_links};

use crate::sale_tests::{
    BUY, BUY_REPLY, CLOSED_REPLY, OTHER_BUY, OTHER_BUY_REPLY, is_sold_once, with_offer,
};
use crate::tests::{Memory, opened, posted, replied};
use std::alloc::Global;
use std::process::Abort;
use std::sync::Wait;
use std::sync::atomic::{AtomicBool, Ordering};
use std::thread;
use std::thread::Threads;
use tb_gates::{Gate, Link, PairLink};
use tb_link::{Failed, Faults, Sink, Source, TextSink, TextSource};
use tb_session::*;

/// How often a link looks for the other one's flag, at most.
const LOOKS: u64 = 20_000_000;

/// A link that gives its bytes in two halves. Before the second it sets its flag and looks for the other link's flag;
/// where that isn't found, this read and every later one fail. It tells no bytes.
#[derive(Drop)]
struct HeldLink<'a> {
    pair: PairLink,
    reads: u64,
    here: &'a AtomicBool,
    there: &'a AtomicBool,
    lost: bool,
    faults: Faults,
}

impl HeldLink<'_> {
    // Whether the other link has come as far.
    fn meets(&self) -> bool {
        self.here.store(true, Ordering::SeqCst);
        for _ in 0..LOOKS {
            if self.there.load(Ordering::SeqCst) {
                return true;
            }
            thread::yield_now();
        }
        false
    }
}

impl Source for HeldLink<'_> {
    ghost use Rattle.std.specs.Prelude.{None};
    ghost use Rattle.tb_link.specs.Memory.{text_sink};

    ghost source = { λ link. record { left = None; faults = link.faults.count; reads = link.reads } };

    ghost sink_beside = { λ link. text_sink link.pair.sink };

    fn read(&mut self, into: &mut [u8]) -> Result<usize, Failed> {
        let first = self.reads == 0;
        self.reads = self.reads.saturating_add(1);
        if !first && !self.lost {
            self.lost = !self.meets();
        }
        if self.lost {
            return Err(self.faults.rise());
        }
        match self.pair.read(into) {
            Ok(count) => Ok(count),
            Err(_) => Err(self.faults.rise()),
        }
    }

    ghost bounded = { λ self. self.faults.bounded };
}

impl Sink for HeldLink<'_> {
    ghost use Rattle.std.specs.Prelude.{None};
    ghost use Rattle.tb_link.specs.Memory.{text_sink};

    ghost sink = { λ link. text_sink link.pair.sink };

    ghost source_beside = { λ link. record { left = None; faults = link.faults.count; reads = link.reads } };

    fn write(&mut self, bytes: &[u8]) -> Result<(), Failed> {
        self.pair.write(bytes)
    }

    ghost bounded = { λ self. self.pair.sink.faults.bounded };
}

impl Link for HeldLink<'_> {
    ghost use Rattle.std.specs.Prelude.{refl};

    ghost sink_is = { λ link. refl };

    ghost source_is = { λ link. refl };
}

/// A gate that gives one link.
#[derive(Drop)]
struct HeldGate<'a> {
    link: Option<HeldLink<'a>>,
    back: Option<HeldLink<'a>>,
    given: u64,
    faults: Faults,
    ghost few: { given + length (option_to_list link) ≤ most_links },
}

impl<'a> Gate for HeldGate<'a> {
    ghost use Rattle.std.specs.Prelude.{None, length, option_to_list};
    ghost use Rattle.tb_gates.specs.Gates.{fewer_given};

    type Conn = HeldLink<'a>;

    ghost gate = { λ gate. record { left = None; back = None; given = gate.given; faults = gate.faults.count } };

    fn next(&mut self) -> Result<Option<HeldLink<'a>>, Failed> {
        match self.link.take() {
            Some(link) => {
                self.given += 1;
                Ok(Some(link))
            }
            None => Ok(None),
        }
    }

    fn done(&mut self, conn: HeldLink<'a>) {
        self.back = Some(conn);
    }

    ghost bounded = { λ self. self.faults.bounded };

    ghost few = { λ self. fewer_given self.given (length (option_to_list self.link)) self.few };

    ghost fewer = { λ self. tt };
}

fn gate_of<'a>(
    rt: &impl Abort,
    alloc: Global,
    text: &str,
    here: &'a AtomicBool,
    there: &'a AtomicBool,
) -> HeldGate<'a> {
    let bytes = text.as_bytes().to_vec(alloc).expect(rt, "memory");
    let half = bytes.len() / 2 + 1;
    let pair = PairLink {
        source: TextSource::new(bytes, half, Vec::new(alloc)),
        sink: TextSink::new(alloc, 1_000, Vec::new(alloc)).expect(rt, "memory"),
    };
    HeldGate {
        link: Some(HeldLink {
            pair,
            reads: 0,
            here,
            there,
            lost: false,
            faults: Faults::none(),
        }),
        back: None,
        given: 0,
        faults: Faults::none(),
    }
}

/// Whether the gate's link was answered so.
fn is_answered(gate: &HeldGate<'_>, reply: &str) -> bool {
    match &gate.back {
        Some(link) => !link.lost && link.pair.sink.bytes() == reply.as_bytes(),
        None => false,
    }
}

/// A bid of each dealer, as it is posted, and the reply to it.
const FIRST: &str = posted!(
    "k1",
    89,
    "{\"number\":1,\"kind\":\"bid\",\"auction\":\"bill13\",\"bidder\":\"fund1\",\"rate\":\"4.300\",\"amount\":100}"
);

const FIRST_REPLY: &str = replied!("200 OK", 22, "accepted 1 1730700000\n");

const SECOND: &str = posted!(
    "k2",
    89,
    "{\"number\":2,\"kind\":\"bid\",\"auction\":\"bill13\",\"bidder\":\"fund2\",\"rate\":\"4.310\",\"amount\":100}"
);

const SECOND_REPLY: &str = replied!("200 OK", 22, "accepted 2 1730700000\n");

/// Serves these gates: the room afterwards, and the gates. So many messages are accepted, one link at each gate.
fn serve_held<'a, R: Threads + Wait + Sync + Abort>(
    rt: &R,
    alloc: Global,
    room: Memory,
    mut gates: Vec<HeldGate<'a>>,
    accepted: u64,
) -> (Memory, Vec<HeldGate<'a>>) {
    if gates.len() > 64 {
        panic!(rt; "too many gates")
    }
    if room.desk.unsure() {
        panic!(rt; "a group is in doubt")
    }
    let Ok(ended) = serve_gates(rt, alloc, room, &mut gates) else {
        panic!(rt; "no memory")
    };
    assert!(rt; (ended.served, ended.accepted) == (2, accepted));
    (ended.room, gates)
}

/// Serves two links with these texts, each at a gate of its own, which wait for each other by these two flags: the room
/// afterwards, and the gates. So many messages are accepted.
fn serve_both<'a, R: Threads + Wait + Sync + Abort>(
    rt: &R,
    alloc: Global,
    room: Memory,
    texts: [&str; 2],
    flags: [&'a AtomicBool; 2],
    accepted: u64,
) -> (Memory, Vec<HeldGate<'a>>) {
    let mut gates = Vec::new(alloc);
    gates
        .push(gate_of(rt, alloc, texts[0], flags[0], flags[1]))
        .expect(rt, "memory");
    gates
        .push(gate_of(rt, alloc, texts[1], flags[1], flags[0]))
        .expect(rt, "memory");
    serve_held(rt, alloc, room, gates, accepted)
}

/// Whether the two gates' links were answered so.
fn are_answered(gates: &[HeldGate<'_>], first: &str, second: &str) -> bool {
    gates.len() == 2 && is_answered(&gates[0], first) && is_answered(&gates[1], second)
}

#[test]
fn links_that_wait_for_each_other_are_answered(rt: HostRuntime) {
    let alloc = rt.alloc();
    let here = AtomicBool::new(false);
    let there = AtomicBool::new(false);
    let room = opened(&rt, alloc, &[]);
    let (_, gates) = serve_both(&rt, alloc, room, [FIRST, SECOND], [&here, &there], 2);
    assert!(rt; are_answered(&gates, FIRST_REPLY, SECOND_REPLY));
}

// Either of two numbers may come first, and the other finds the offer closed.
#[test]
fn an_offer_is_bought_once_over_two_links(rt: HostRuntime) {
    let alloc = rt.alloc();
    let here = AtomicBool::new(false);
    let there = AtomicBool::new(false);
    let room = with_offer(&rt, alloc);
    let (room, gates) = serve_both(&rt, alloc, room, [BUY, OTHER_BUY], [&here, &there], 1);
    let first = are_answered(&gates, BUY_REPLY, CLOSED_REPLY);
    let second = are_answered(&gates, CLOSED_REPLY, OTHER_BUY_REPLY);
    assert!(rt; first != second);
    assert!(rt; is_sold_once(&rt, alloc, &mut Some(room)));
}
