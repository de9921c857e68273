//! `serve` on links in memory. The replies are worked out by hand from the formats.
use crate::opening::opened;
use crate::tests::{Outcome, disk_of, is_ended, run, serve_on};
use std::alloc::Global;
use std::process::Abort;
use std::sync::Wait;
use std::thread::Threads;
use tb_gates::{ListGate, PairLink};
use tb_link::{TextSink, TextSource};

/// A dealer with a fund, and an auction of the next days.
const OPENING: &str = opened!("\nend\n");

/// Two bids of the dealer, each as it is posted.
const FIRST: &str = "POST /messages HTTP/1.1\r\nAuction-Key: k1\r\nContent-Length: 89\r\n\r\n\
    {\"number\":1,\"kind\":\"bid\",\"auction\":\"bill13\",\"bidder\":\"fund1\",\"rate\":\"4.300\",\"amount\":100}";

const SECOND: &str = "POST /messages HTTP/1.1\r\nAuction-Key: k1\r\nContent-Length: 89\r\n\r\n\
    {\"number\":2,\"kind\":\"bid\",\"auction\":\"bill13\",\"bidder\":\"fund1\",\"rate\":\"4.310\",\"amount\":200}";

const ACCEPTED_FIRST: &str =
    "HTTP/1.1 200 OK\r\nContent-Type: text/plain\r\nContent-Length: 22\r\n\r\n\
    accepted 1 1730700000\n";

const ACCEPTED_SECOND: &str =
    "HTTP/1.1 200 OK\r\nContent-Type: text/plain\r\nContent-Length: 22\r\n\r\n\
    accepted 2 1730700000\n";

/// A gate that gives a link for each text, in pieces of this size. The calls of these numbers fail.
fn gate(rt: &impl Abort, alloc: Global, texts: &[&str], piece: usize, fails: &[u64]) -> ListGate {
    let mut links = Vec::new(alloc);
    for text in texts {
        let bytes = text.as_bytes().to_vec(alloc).expect(rt, "memory");
        let source = TextSource::new(bytes, piece.max(1), Vec::new(alloc));
        let sink = TextSink::new(alloc, 1_000, Vec::new(alloc)).expect(rt, "memory");
        links.push(PairLink { source, sink }).expect(rt, "memory");
    }
    assert!(rt; links.len() <= 1_000);
    let fails = fails.to_vec(alloc).expect(rt, "memory");
    ListGate::new(alloc, links, fails).expect(rt, "memory")
}

// Two gates of a link each.
fn two_gates(rt: &impl Abort, alloc: Global, first: &str, second: &str) -> Vec<ListGate> {
    let first = gate(rt, alloc, &[first], 50, &[]);
    let second = gate(rt, alloc, &[second], 50, &[]);
    Vec::from_array(alloc, [first, second]).expect(rt, "memory")
}

// A gate with the links of both bids.
fn one_gate(rt: &impl Abort, alloc: Global, piece: usize, fails: &[u64]) -> Vec<ListGate> {
    let gate = gate(rt, alloc, &[FIRST, SECOND], piece, fails);
    Vec::from_array(alloc, [gate]).expect(rt, "memory")
}

/// Serves the gates from the disk that the opening leaves.
fn serve<R: Abort + Threads + Wait + Sync>(
    rt: &R,
    alloc: Global,
    workers: &str,
    links: &str,
    gates: Vec<ListGate>,
) -> (Outcome, Vec<ListGate>) {
    let opened = run(rt, alloc, &["run", "--op", "root"], OPENING, 4096, &[], &[]);
    let disk = disk_of(rt, alloc, opened.disk.contents(), &[], 0);
    let words = [
        "serve",
        "--op",
        "root",
        "--port",
        "8080",
        "--workers",
        workers,
        "--links",
        links,
    ];
    serve_on(rt, alloc, &words, "", 1, &[], &[], disk, gates)
}

// What each link of the gate of this place was written.
fn takes(gates: &[ListGate], place: usize, texts: &[&str]) -> bool {
    let Some(gate) = gates.get(place) else {
        return false;
    };
    for (link, text) in gate.finished().iter().zip(texts) {
        if link.sink.bytes() != text.as_bytes() {
            return false;
        }
    }
    gate.finished().len() == texts.len()
}

// Both bids in pieces of this size are accepted.
fn one_worker_serves<R: Abort + Threads + Wait + Sync>(
    rt: &R,
    alloc: Global,
    piece: usize,
) -> bool {
    let (served, gates) = serve(rt, alloc, "1", "2", one_gate(rt, alloc, piece, &[]));
    is_ended(&served, 0, "served 2\naccepted 2\n", "")
        && takes(&gates, 0, &[ACCEPTED_FIRST, ACCEPTED_SECOND])
}

#[test]
fn one_worker_serves_two_links(rt: HostRuntime) {
    assert!(rt; one_worker_serves(&rt, rt.alloc(), 1));
    assert!(rt; one_worker_serves(&rt, rt.alloc(), 7));
    assert!(rt; one_worker_serves(&rt, rt.alloc(), 1000));
}

#[test]
fn two_workers_serve_a_link_each(rt: HostRuntime) {
    let alloc = rt.alloc();
    let gates = two_gates(&rt, alloc, FIRST, SECOND);
    let (served, gates) = serve(&rt, alloc, "2", "1", gates);
    assert!(rt; is_ended(&served, 0, "served 2\naccepted 2\n", ""));
    assert!(rt; takes(&gates, 0, &[ACCEPTED_FIRST]));
    assert!(rt; takes(&gates, 1, &[ACCEPTED_SECOND]));
}

#[test]
fn one_message_on_two_links_stands_once(rt: HostRuntime) {
    let alloc = rt.alloc();
    let gates = two_gates(&rt, alloc, FIRST, FIRST);
    let (served, gates) = serve(&rt, alloc, "2", "1", gates);
    assert!(rt; is_ended(&served, 0, "served 2\naccepted 1\n", ""));
    assert!(rt; takes(&gates, 0, &[ACCEPTED_FIRST]));
    assert!(rt; takes(&gates, 1, &[ACCEPTED_FIRST]));
}

#[test]
fn a_gate_that_fails_is_told_once_its_links_were_served(rt: HostRuntime) {
    let alloc = rt.alloc();
    let gates = one_gate(&rt, alloc, 50, &[1]);
    let (served, gates) = serve(&rt, alloc, "1", "2", gates);
    assert!(rt; is_ended(&served, 10, "", "gate fault\n"));
    assert!(rt; takes(&gates, 0, &[ACCEPTED_FIRST]));
}
