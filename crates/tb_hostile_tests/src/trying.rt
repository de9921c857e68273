//! The host over objects in memory: what it is given, and what comes of it.
use std::alloc::Global;
use std::process::Abort;
use std::sync::Wait;
use std::thread::Threads;
use tb_disk::MemoryDisk;
use tb_gates::{ListClock, ListGate, PairLink};
use tb_host::*;
use tb_link::{TextSink, TextSource};
use tb_register::MemoryKeeper;
use tb_units::Moment;

/// What the clock gives, before the closings of the auction.
const MORNING: Moment = Moment {
    seconds: 1_730_700_000,
};

/// What the host runs on: threads, and memory.
#[derive(Drop)]
pub struct Host<'r, R> {
    pub rt: &'r R,
    pub alloc: Global,
}

/// How a run ended, what its sinks have taken, its disk and its gates.
#[derive(Drop)]
pub struct Outcome {
    pub status: u8,
    pub out: TextSink,
    pub err: TextSink,
    pub disk: MemoryDisk,
    pub spare: MemoryDisk,
    pub gates: Vec<ListGate>,
}

/// What the spare holds before a run.
pub const SPARE: &[u8] = b"spare";

/// The run ended with this status, and has written this to its output and this to its errors.
pub fn is_ended(run: &Outcome, status: u8, out: &[u8], err: &str) -> bool {
    run.status == status && run.out.bytes() == out && run.err.bytes() == err.as_bytes()
}

/// A disk with these contents and room for so many bytes, of which the calls of these numbers fail: a failed write
/// leaves the byte `torn` where something stood.
pub fn disk_with<R: Abort>(
    host: &Host<'_, R>,
    contents: &[u8],
    room: u64,
    fails: &[u64],
    torn: u8,
) -> MemoryDisk {
    let (rt, alloc) = (host.rt, host.alloc);
    assert!(rt; contents.len() as u64 <= room);
    let fails = fails.to_vec(alloc).expect(rt, "memory");
    MemoryDisk::new(alloc, contents, room, 100_000, fails, torn).expect(rt, "memory")
}

/// A disk with these contents and room for more, of which no call fails.
pub fn disk_of<R: Abort>(host: &Host<'_, R>, contents: &[u8]) -> MemoryDisk {
    disk_with(host, contents, 50_000, &[], 0)
}

/// Runs the host on a text and a disk.
pub fn run<R: Abort + Threads + Wait + Sync>(
    host: &Host<'_, R>,
    words: &[&str],
    text: &str,
    disk: MemoryDisk,
) -> Outcome {
    serve(host, words, text, disk, Vec::new(host.alloc))
}

/// Runs the host on a text, a disk and these gates, which are as many as the words say.
pub fn serve<R: Abort + Threads + Wait + Sync>(
    host: &Host<'_, R>,
    words: &[&str],
    text: &str,
    disk: MemoryDisk,
    gates: Vec<ListGate>,
) -> Outcome {
    serve_with_room(host, words, text, 20_000, disk, gates)
}

// The words, as the host takes them.
fn owned(rt: &impl Abort, alloc: Global, words: &[&str]) -> Vec<String> {
    let mut owned = Vec::new(alloc);
    for word in words {
        let word = word.to_string(alloc).expect(rt, "memory");
        owned.push(word).expect(rt, "memory");
    }
    owned
}

// A sink with room for so many bytes, of which the writes of these numbers fail.
fn sink(rt: &impl Abort, alloc: Global, room: usize, fails: &[u64]) -> TextSink {
    let fails = fails.to_vec(alloc).expect(rt, "memory");
    TextSink::new(alloc, room, fails).expect(rt, "memory")
}

/// The same as `serve`, whose output has room for so many bytes.
pub fn serve_with_room<R: Abort + Threads + Wait + Sync>(
    host: &Host<'_, R>,
    words: &[&str],
    text: &str,
    room: usize,
    disk: MemoryDisk,
    mut gates: Vec<ListGate>,
) -> Outcome {
    let (rt, alloc) = (host.rt, host.alloc);
    let owned = owned(rt, alloc, words);
    let owned = owned.as_slice();
    let Ok(plan) = plan(alloc, owned) else {
        panic!(rt; "memory");
    };
    if gates.len() != plan.workers as usize {
        panic!(rt; "other gates");
    }
    let bytes = text.as_bytes().to_vec(alloc).expect(rt, "memory");
    let mut input = TextSource::new(bytes, 4096, Vec::new(alloc));
    let mut out = sink(rt, alloc, room, &[]);
    let mut err = sink(rt, alloc, 1_000, &[]);
    let mut spare = MemoryDisk::new(alloc, SPARE, 5, 0, Vec::new(alloc), 0).expect(rt, "memory");
    let mut keeper = MemoryKeeper::new(alloc, Vec::new(alloc));
    let clock = ListClock::new(Vec::from_array(alloc, [MORNING]).expect(rt, "memory"));
    let ended = host_main(
        rt,
        alloc,
        owned,
        &mut input,
        &mut out,
        &mut err,
        disk,
        &mut spare,
        &mut gates,
        clock,
        &mut keeper,
    );
    Outcome {
        status: ended.status,
        out,
        err,
        disk: ended.disk,
        spare,
        gates,
    }
}

/// What a link gives, in pieces of at most so many bytes, and which of its reads and writes fail.
#[derive(Clone, Copy)]
pub struct Given<'a> {
    pub text: &'a str,
    pub piece: usize,
    pub failing_reads: &'a [u64],
    pub failing_writes: &'a [u64],
}

/// A link that gives this text, and no call of it fails.
pub fn whole(text: &str) -> Given<'_> {
    Given {
        text,
        piece: 1_000,
        failing_reads: &[],
        failing_writes: &[],
    }
}

fn link_of(rt: &impl Abort, alloc: Global, given: &Given<'_>) -> PairLink {
    let text = given.text.as_bytes().to_vec(alloc).expect(rt, "memory");
    let fails = given.failing_reads.to_vec(alloc).expect(rt, "memory");
    let source = TextSource::new(text, given.piece.max(1), fails);
    let sink = sink(rt, alloc, 1_000, given.failing_writes);
    PairLink { source, sink }
}

/// A gate with these links alone.
pub fn one_gate<R: Abort>(host: &Host<'_, R>, given: &[Given<'_>]) -> Vec<ListGate> {
    let gate = gate(host, given);
    Vec::from_array(host.alloc, [gate]).expect(host.rt, "memory")
}

/// A gate with these links.
pub fn gate<R: Abort>(host: &Host<'_, R>, given: &[Given<'_>]) -> ListGate {
    let (rt, alloc) = (host.rt, host.alloc);
    let mut links = Vec::new(alloc);
    for link in given {
        let link = link_of(rt, alloc, link);
        links.push(link).expect(rt, "memory");
    }
    assert!(rt; links.len() <= 1_000_000);
    ListGate::new(alloc, links, Vec::new(alloc)).expect(rt, "memory")
}

/// The links of this gate took these replies, in order, and it has had all of them back.
pub fn takes(run: &Outcome, gate: usize, replies: &[&str]) -> bool {
    let Some(gate) = run.gates.get(gate) else {
        return false;
    };
    for (link, reply) in gate.finished().iter().zip(replies) {
        if link.sink.bytes() != reply.as_bytes() {
            return false;
        }
    }
    gate.finished().len() == replies.len()
}

/// The texts, one behind the other.
pub fn joined<R: Abort>(host: &Host<'_, R>, texts: &[&str]) -> String {
    let mut all = String::new(host.alloc);
    for text in texts {
        all.push_str(text).expect(host.rt, "memory");
    }
    all
}

/// The same text so many times.
pub fn repeated<R: Abort>(host: &Host<'_, R>, text: &str, count: u64) -> String {
    let mut all = String::new(host.alloc);
    for _ in 0..count {
        all.push_str(text).expect(host.rt, "memory");
    }
    all
}
