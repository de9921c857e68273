//! `check` on what a script left, whole, with a torn append, and with a gate that was changed.
use crate::run_tests::{ORDINARY, WORDS};
use crate::tests::{Outcome, is_ended, run, run_on};
use std::alloc::Global;
use std::process::Abort;
use std::sync::Wait;
use std::thread::Threads;
use tb_disk::MemoryDisk;

/// The place of the first gate byte.
const FIRST_GATE: usize = 17;

/// A closed gate, and what a torn append left: a length, and a part of an ordinal.
const TORN: &[u8] = b"\0\0\0\x25\0\0";

/// The file is looked at. The writes of these numbers fail, and calls of the disk.
fn look<R: Abort + Threads + Wait + Sync>(
    rt: &R,
    alloc: Global,
    file: &[u8],
    failing_writes: &[u64],
    failing_calls: &[u64],
) -> Outcome {
    assert!(rt; file.len() <= 100_000);
    let fails = failing_calls.to_vec(alloc).expect(rt, "memory");
    let disk = MemoryDisk::new(alloc, file, 100_000, 100_000, fails, 0).expect(rt, "memory");
    let outcome = run_on(rt, alloc, &["check"], "", 1, &[0], failing_writes, disk);
    assert!(rt; outcome.disk.contents() == file);
    outcome
}

/// These bytes, one behind the other.
fn both(rt: &impl Abort, alloc: Global, front: &[u8], back: &[u8]) -> Vec<u8> {
    let mut bytes = front.to_vec(alloc).expect(rt, "memory");
    assert!(rt; bytes.extend_from_slice(back).is_ok());
    bytes
}

/// What the ordinary auction leaves.
fn left<R: Abort + Threads + Wait + Sync>(rt: &R, alloc: Global) -> Vec<u8> {
    let ran = run(rt, alloc, &WORDS, ORDINARY, 4096, &[], &[]);
    both(rt, alloc, ran.disk.contents(), b"")
}

/// The same with this byte at a place.
fn changed<R: Abort + Threads + Wait + Sync>(
    rt: &R,
    alloc: Global,
    place: usize,
    byte: u8,
) -> Vec<u8> {
    let mut file = left(rt, alloc);
    let count = file.len();
    assert!(rt; place < count);
    file[place] = byte;
    file
}

#[test]
fn what_stands_behind_the_gate_is_told(rt: HostRuntime) {
    let alloc = rt.alloc();
    let file = left(&rt, alloc);
    assert!(rt; is_ended(&look(&rt, alloc, &file, &[], &[]), 0, "nothing\n", ""));
    let torn = both(&rt, alloc, &file, TORN);
    assert!(rt; is_ended(&look(&rt, alloc, &torn, &[], &[]), 0, "a torn append\n", ""));
}

#[test]
fn a_gate_that_was_changed_is_damage(rt: HostRuntime) {
    let alloc = rt.alloc();
    let file = changed(&rt, alloc, FIRST_GATE, 0);
    let told = "damaged behind 17\n";
    assert!(rt; is_ended(&look(&rt, alloc, &file, &[], &[]), 15, "", told));
}

#[test]
fn more_than_an_append_writes_is_damage(rt: HostRuntime) {
    let alloc = rt.alloc();
    let many = [b'x'; 32_782];
    let file = both(&rt, alloc, b"TBHOSTJOURNAL002\x01\0", &many);
    let told = "damaged behind 17\n";
    assert!(rt; is_ended(&look(&rt, alloc, &file, &[], &[]), 15, "", told));
    let some = both(&rt, alloc, b"TBHOSTJOURNAL002\x01\0", &many[1..]);
    assert!(rt; is_ended(&look(&rt, alloc, &some, &[], &[]), 0, "a torn append\n", ""));
}

#[test]
fn a_failing_write_or_read_ends_a_check(rt: HostRuntime) {
    let alloc = rt.alloc();
    let file = left(&rt, alloc);
    assert!(rt; is_ended(&look(&rt, alloc, &file, &[0], &[]), 5, "", "write fault\n"));
    assert!(rt; is_ended(&look(&rt, alloc, &file, &[], &[0]), 6, "", "disk fault\n"));
}
