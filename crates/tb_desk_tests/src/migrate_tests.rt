//! A journal of the first version is written anew in the second. Its bytes were written by hand.
use std::alloc::Global;
use std::process::Abort;
use tb_desk::*;
use tb_disk::MemoryDisk;
use tb_journal::{Journal, JournalFault};

// A journal of the first version: dealer1's registration and that of dealer2, byte by byte, in a frame each.
const FIRST: &[u8] = b"TBHOSTJOURNAL001\
    \x01\0\0\0\x21\x08operator\0\0\0\0\0\0\0\x01\x67\x28\x62\xe0\x01\x07dealer1\x02k1\
    \x01\0\0\0\x21\x08operator\0\0\0\0\0\0\0\x02\x67\x28\x62\xe0\x01\x07dealer2\x02k2\
    \0";

// The same in one frame.
const GROUPED: &[u8] = b"TBHOSTJOURNAL001\
    \x01\0\0\0\x42\x08operator\0\0\0\0\0\0\0\x01\x67\x28\x62\xe0\x01\x07dealer1\x02k1\
    \x08operator\0\0\0\0\0\0\0\x02\x67\x28\x62\xe0\x01\x07dealer2\x02k2\
    \0";

// And in the second version.
const SECOND: &[u8] = b"TBHOSTJOURNAL002\x01\
    \x01\0\0\0\x25\0\0\0\0\0\0\0\0\x08operator\0\0\0\0\0\0\0\x01\0\0\0\0\x67\x28\x62\xe0\x01\x07dealer1\x02k1\
    \x01\0\0\0\x25\0\0\0\0\0\0\0\x01\x08operator\0\0\0\0\0\0\0\x02\0\0\0\0\x67\x28\x62\xe0\x01\x07dealer2\x02k2\
    \0";

// The first of them alone, in both versions.
const FIRST_ONE: &[u8] = b"TBHOSTJOURNAL001\
    \x01\0\0\0\x21\x08operator\0\0\0\0\0\0\0\x01\x67\x28\x62\xe0\x01\x07dealer1\x02k1\
    \0";

const SECOND_ONE: &[u8] = b"TBHOSTJOURNAL002\x01\
    \x01\0\0\0\x25\0\0\0\0\0\0\0\0\x08operator\0\0\0\0\0\0\0\x01\0\0\0\0\x67\x28\x62\xe0\x01\x07dealer1\x02k1\
    \0";

// Both have the same number, so that the second isn't accepted.
const REPEATED: &[u8] = b"TBHOSTJOURNAL001\
    \x01\0\0\0\x21\x08operator\0\0\0\0\0\0\0\x01\x67\x28\x62\xe0\x01\x07dealer1\x02k1\
    \x01\0\0\0\x21\x08operator\0\0\0\0\0\0\0\x01\x67\x28\x62\xe0\x01\x07dealer2\x02k2\
    \0";

const ROOM: u64 = 1000;

const LOG_ROOM: u64 = 10_000;

// A disk in memory whose calls with these numbers fail, and whose failed writes leave this byte.
fn disk_of(rt: &impl Abort, alloc: Global, contents: &[u8], fails: &[u64], torn: u8) -> MemoryDisk {
    assert!(rt; contents.len() < 1000);
    let fails = fails.to_vec(alloc).expect(rt, "memory");
    MemoryDisk::new(alloc, contents, ROOM, LOG_ROOM, fails, torn).expect(rt, "memory")
}

// So many entries are migrated onto the spare, which then has these bytes.
fn migrates(
    rt: &impl Abort,
    alloc: Global,
    first: &[u8],
    spare: &[u8],
    count: u64,
    written: &[u8],
) -> bool {
    let mut from = disk_of(rt, alloc, first, &[], 0);
    let mut to = disk_of(rt, alloc, spare, &[], 0);
    migrate(alloc, &mut from, &mut to) == Ok(count)
        && from.contents() == first
        && to.contents() == written
}

// A first disk is refused for this fault, and the spare isn't touched.
fn refused(rt: &impl Abort, alloc: Global, first: &[u8], why: OpenFault) -> bool {
    let mut from = disk_of(rt, alloc, first, &[], 0);
    let mut to = disk_of(rt, alloc, b"spare", &[], 0);
    migrate(alloc, &mut from, &mut to) == Err(MigrateFault::From(why))
        && from.contents() == first
        && to.contents() == b"spare".as_slice()
}

#[test]
fn a_first_journal_is_migrated(rt: HostRuntime) {
    let alloc = rt.alloc();
    let empty = b"TBHOSTJOURNAL002\x01\0";
    assert_eq!(rt; FIRST_ONE.len(), 55);
    assert_eq!(rt; SECOND_ONE.len(), 68);
    assert!(rt; migrates(&rt, alloc, FIRST_ONE, b"", 1, SECOND_ONE));
    assert!(rt; migrates(&rt, alloc, FIRST_ONE, SECOND_ONE, 1, SECOND_ONE));
    assert!(rt; migrates(&rt, alloc, FIRST, b"", 2, SECOND));
    assert!(rt; migrates(&rt, alloc, FIRST, b"a spare of a few bytes", 2, SECOND));
    assert!(rt; migrates(&rt, alloc, FIRST, FIRST, 2, SECOND));
    assert!(rt; migrates(&rt, alloc, GROUPED, b"", 2, SECOND));
    assert!(rt; migrates(&rt, alloc, b"", b"", 0, empty));
    assert!(rt; migrates(&rt, alloc, b"seventeen bytes..", SECOND, 0, empty));
}

#[test]
fn other_files_are_not_migrated(rt: HostRuntime) {
    let alloc = rt.alloc();
    let second = OpenFault::NotAJournal(*b"TBHOSTJOURNAL002");
    assert!(rt; refused(&rt, alloc, SECOND, second));
    assert!(rt;
        refused(
            &rt,
            alloc,
            b"aaaaaaaaaaaaaaaaaa",
            OpenFault::NotAJournal([b'a'; 16])
        )
    );
    assert!(rt; refused(&rt, alloc, &FIRST_ONE[..40], OpenFault::Damaged(16)));
    assert!(rt; refused(&rt, alloc, &FIRST[..80], OpenFault::Damaged(54)));
    assert!(rt; refused(&rt, alloc, REPEATED, OpenFault::Damaged(54)));
    assert!(rt;
        refused(
            &rt,
            alloc,
            b"TBHOSTJOURNAL001\x01\0\0\0\x01a\0",
            OpenFault::Damaged(16)
        )
    );
}

// Whether a file has at most 18 bytes, is no journal, or isn't sealed.
fn is_blank(rt: &impl Abort, alloc: Global, file: &[u8]) -> bool {
    let disk = disk_of(rt, alloc, file, &[], 0);
    match Journal::open(alloc, disk) {
        Ok(_opened) => file.len() <= 18,
        Err((_disk, JournalFault::NotAJournal(_))) => true,
        Err((_disk, JournalFault::Unsealed(_))) => true,
        Err((_disk, _fault)) => false,
    }
}

// This call on a spare fails, which holds a sealed journal. The first disk stays, and the spare is what it was, or
// blank, or the whole journal.
fn spare_fails(rt: &impl Abort, alloc: Global, call: u64) -> bool {
    let mut from = disk_of(rt, alloc, FIRST, &[], 0);
    let mut to = disk_of(rt, alloc, SECOND_ONE, &[call], 1);
    let answer = migrate(alloc, &mut from, &mut to);
    let file = to.contents();
    let safe = file == SECOND || file == SECOND_ONE || is_blank(rt, alloc, file);
    answer == Err(MigrateFault::SpareFault) && safe && from.contents() == FIRST
}

// This call on the first disk fails. Both disks stay.
fn first_fails(rt: &impl Abort, alloc: Global, call: u64) -> bool {
    let mut from = disk_of(rt, alloc, FIRST, &[call], 7);
    let mut to = disk_of(rt, alloc, b"spare", &[], 0);
    migrate(alloc, &mut from, &mut to) == Err(MigrateFault::From(OpenFault::DiskFault))
        && from.contents() == FIRST
        && to.contents() == b"spare".as_slice()
}

#[test]
fn a_first_disk_fails(rt: HostRuntime) {
    let alloc = rt.alloc();
    assert!(rt; first_fails(&rt, alloc, 0));
    assert!(rt; first_fails(&rt, alloc, 1));
    assert!(rt; first_fails(&rt, alloc, 2));
    assert!(rt; first_fails(&rt, alloc, 3));
}

// The calls on the spare: a sync, the length, the seal's byte, the byte 0 and a sync, a cut and a sync, the title and a
// sync.
#[test]
fn a_spare_fails_before_a_frame(rt: HostRuntime) {
    let alloc = rt.alloc();
    assert!(rt; spare_fails(&rt, alloc, 0));
    assert!(rt; spare_fails(&rt, alloc, 3));
    assert!(rt; spare_fails(&rt, alloc, 4));
    assert!(rt; spare_fails(&rt, alloc, 5));
    assert!(rt; spare_fails(&rt, alloc, 6));
    assert!(rt; spare_fails(&rt, alloc, 7));
    assert!(rt; spare_fails(&rt, alloc, 8));
}

// Then two writes for each of two frames, the closed gate and a sync, the seal and a sync.
#[test]
fn a_spare_fails_behind_the_title(rt: HostRuntime) {
    let alloc = rt.alloc();
    assert!(rt; spare_fails(&rt, alloc, 9));
    assert!(rt; spare_fails(&rt, alloc, 12));
    assert!(rt; spare_fails(&rt, alloc, 13));
    assert!(rt; spare_fails(&rt, alloc, 14));
    assert!(rt; spare_fails(&rt, alloc, 15));
    assert!(rt; spare_fails(&rt, alloc, 16));
    assert!(rt; !spare_fails(&rt, alloc, 17));
}
