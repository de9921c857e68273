//! Tests of a journal that is written anew. Its bytes were written by hand.
ghost use Rattle.std.specs.Prelude.{◌≤◌};

use std::alloc::Global;
use std::process::Abort;
use tb_disk::MemoryDisk;
use tb_journal::*;

// The record of dealer1's registration, byte by byte.
const RECORD: &[u8] =
    b"\x08operator\0\0\0\0\0\0\0\x01\0\0\0\0\x67\x28\x62\xe0\x01\x07dealer1\x02k1";

// A sealed journal of that record and of `abc`, byte by byte.
const WRITTEN: &[u8] = b"TBHOSTJOURNAL002\x01\
    \x01\0\0\0\x25\0\0\0\0\0\0\0\0\x08operator\0\0\0\0\0\0\0\x01\0\0\0\0\x67\x28\x62\xe0\x01\x07dealer1\x02k1\
    \x01\0\0\0\x03\0\0\0\0\0\0\0\x01abc\
    \0";

// What a spare may hold before it is written.
const SEVENTEEN: &[u8] = b"0123456789abcdef\x01";

const EIGHTEEN: &[u8] = b"0123456789abcdef\x01x";

const NINETEEN: &[u8] = b"0123456789abcdef\x01xy";

const SEALED: &[u8] = b"TBHOSTJOURNAL002\x01\x01\0\0\0\x01\0\0\0\0\0\0\0\0a\0";

const UNSEALED: &[u8] = b"TBHOSTJOURNAL002\0\x01\0\0\0\x01\0\0\0\0\0\0\0\0a\0";

const FIRST: &[u8] = b"TBHOSTJOURNAL001\x01\0\0\0\x01a\0";

// A sealed journal that is longer than what is written.
const LONGER: &[u8] = b"TBHOSTJOURNAL002\x01\
    \x01\0\0\0\x50\0\0\0\0\0\0\0\0\
    aaaaaaaaaaaaaaaaaaaaaaaaaaaaaaaaaaaaaaaabbbbbbbbbbbbbbbbbbbbbbbbbbbbbbbbbbbbbbbb\
    \0";

const ROOM: u64 = 1000;

const LOG_ROOM: u64 = 10_000;

// A disk in memory whose calls with these numbers fail, and whose failed writes leave this byte.
fn disk_of(rt: &impl Abort, alloc: Global, contents: &[u8], fails: &[u64], torn: u8) -> MemoryDisk {
    assert!(rt; contents.len() < 1000);
    let fails = fails.to_vec(alloc).expect(rt, "memory");
    MemoryDisk::new(alloc, contents, ROOM, LOG_ROOM, fails, torn).expect(rt, "memory")
}

// The record and `abc` are written over what a disk holds.
fn write(disk: &mut MemoryDisk) -> Result<(), DiskFault> {
    rewrite(disk, &[RECORD, b"abc"])
}

// They are written over these bytes, and nothing else is left.
fn anew(rt: &impl Abort, alloc: Global, spare: &[u8]) -> bool {
    let mut disk = disk_of(rt, alloc, spare, &[], 0);
    write(&mut disk).is_ok() && disk.contents() == WRITTEN
}

// Whether a file has at most 18 bytes, is no journal, or isn't sealed.
fn is_blank(rt: &impl Abort, alloc: Global, file: &[u8]) -> bool {
    match Journal::open(alloc, disk_of(rt, alloc, file, &[], 0)) {
        Ok(_opened) => file.len() <= 18,
        Err((_disk, JournalFault::NotAJournal(_))) => true,
        Err((_disk, JournalFault::Unsealed(_))) => true,
        Err((_disk, _fault)) => false,
    }
}

// Each device call fails in turn: the file is then what it was, or blank, or what was to be written.
fn is_safe(rt: &impl Abort, alloc: Global, spare: &[u8], torn: u8) -> bool {
    for call in 0..20 {
        let mut disk = disk_of(rt, alloc, spare, &[call], torn);
        let written = write(&mut disk);
        let file = disk.contents();
        if file != WRITTEN && (written.is_ok() || file != spare && !is_blank(rt, alloc, file)) {
            return false;
        }
    }
    true
}

#[test]
fn a_spare_is_written_anew(rt: HostRuntime) {
    let alloc = rt.alloc();
    assert!(rt; WRITTEN.len() == 84);
    assert!(rt; anew(&rt, alloc, b""));
    assert!(rt; anew(&rt, alloc, b"spare"));
    assert!(rt; anew(&rt, alloc, SEVENTEEN));
    assert!(rt; anew(&rt, alloc, EIGHTEEN));
    assert!(rt; anew(&rt, alloc, NINETEEN));
    assert!(rt; anew(&rt, alloc, SEALED));
    assert!(rt; anew(&rt, alloc, UNSEALED));
    assert!(rt; anew(&rt, alloc, FIRST));
    assert!(rt; anew(&rt, alloc, LONGER));
    assert!(rt; anew(&rt, alloc, WRITTEN));
}

#[test]
fn a_failed_call_leaves_no_half_journal(rt: HostRuntime) {
    let alloc = rt.alloc();
    for torn in 0..3 {
        assert!(rt; is_safe(&rt, alloc, b"", torn));
        assert!(rt; is_safe(&rt, alloc, b"spare", torn));
        assert!(rt; is_safe(&rt, alloc, SEVENTEEN, torn));
        assert!(rt; is_safe(&rt, alloc, EIGHTEEN, torn));
        assert!(rt; is_safe(&rt, alloc, NINETEEN, torn));
        assert!(rt; is_safe(&rt, alloc, SEALED, torn));
        assert!(rt; is_safe(&rt, alloc, UNSEALED, torn));
        assert!(rt; is_safe(&rt, alloc, FIRST, torn));
        assert!(rt; is_safe(&rt, alloc, LONGER, torn));
        assert!(rt; is_safe(&rt, alloc, WRITTEN, torn));
    }
}

// Whether a disk of which this call fails is handed back as it was.
fn is_handed_back(rt: &impl Abort, alloc: Global, call: u64) -> bool {
    let mut disk = disk_of(rt, alloc, LONGER, &[call], 7);
    match Writer::begin(&mut disk) {
        Ok(_begun) => false,
        Err((spare, DiskFault)) => spare.contents() == LONGER,
    }
}

// Beginning over a sealed spare takes the calls 0 to 8: a sync, the length, the seal's byte, the byte 0 and a sync, a
// cut and a sync, the title and a sync.
#[test]
fn a_spare_is_handed_back(rt: HostRuntime) {
    let alloc = rt.alloc();
    assert!(rt; is_handed_back(&rt, alloc, 0));
    assert!(rt; is_handed_back(&rt, alloc, 1));
    assert!(rt; is_handed_back(&rt, alloc, 2));
}

// A journal without a payload is sealed over a spare, and this stands there then.
fn seals(rt: &impl Abort, alloc: Global, spare: &[u8], after: &[u8]) -> bool {
    let mut disk = disk_of(rt, alloc, spare, &[], 0);
    let sealed = match Writer::begin(&mut disk) {
        Ok(writer) => writer.seal().is_ok(),
        Err((_spare, DiskFault)) => false,
    };
    sealed && disk.contents() == after
}

#[test]
fn an_empty_journal_is_written(rt: HostRuntime) {
    let alloc = rt.alloc();
    assert!(rt; seals(&rt, alloc, LONGER, b"TBHOSTJOURNAL002\x01\0"));
}
