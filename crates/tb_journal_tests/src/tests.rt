//! Tests of the journal through its public calls.
ghost use Rattle.std.specs.Prelude.{◌≡◌, ◌<◌, ◌^◌, None};
ghost use Rattle.tb_journal.specs.declared.form.Form.TheVariants.{First};
ghost use Rattle.tb_journal.specs.Places.{StandsAt, StandsAtIn};

use std::alloc::Global;
use std::process::Abort;
use tb_disk::{Disk, MemoryDisk};
use tb_journal::*;

// The title and the seal.
const HEADER: &[u8] = b"TBHOSTJOURNAL002\x01";

const ROOM: u64 = 1000;

const LOG_ROOM: u64 = 10_000;

// A disk in memory whose calls with these numbers fail.
fn disk_of(rt: &impl Abort, alloc: Global, contents: &[u8], fails: &[u64], torn: u8) -> MemoryDisk {
    assert!(rt; contents.len() < 1000);
    let fails = fails.to_vec(alloc).expect(rt, "memory");
    MemoryDisk::new(alloc, contents, ROOM, LOG_ROOM, fails, torn).expect(rt, "memory")
}

// The journal on a disk.
fn open(rt: &impl Abort, alloc: Global, disk: MemoryDisk) -> Journal<MemoryDisk> {
    match Journal::open(alloc, disk) {
        Ok(journal) => journal,
        Err((_disk, _fault)) => rt.panic("not opened"),
    }
}

// The payload is added.
fn adds(rt: &impl Abort, journal: &mut Journal<MemoryDisk>, payload: &[u8]) -> bool {
    assert!(rt; !journal.unsure() && journal.gate() < 70_000);
    assert!(rt; !payload.is_empty() && payload.len() <= 32_768);
    journal.append(payload).is_ok()
}

fn settle(rt: &impl Abort, journal: &mut Journal<MemoryDisk>) -> Result<bool, DiskFault> {
    assert!(rt; journal.unsure());
    journal.resolve()
}

// The bytes of three slices, one behind the other.
fn joined(rt: &impl Abort, alloc: Global, first: &[u8], second: &[u8], third: &[u8]) -> Vec<u8> {
    let mut bytes = Vec::new(alloc);
    assert!(rt; bytes.extend_from_slice(first).is_ok());
    assert!(rt; bytes.extend_from_slice(second).is_ok());
    assert!(rt; bytes.extend_from_slice(third).is_ok());
    bytes
}

// The payloads of a journal, one after another, each with its place.
fn payloads_of<D: Disk>(rt: &impl Abort, alloc: Global, journal: &mut Journal<D>) -> Vec<u8>
    requires sure { journal.old.doubt ≡ None }
    requires first { StandsAt (D.disk journal.old.disk) journal.old.gate 17 }
{
    let mut text = Vec::new(alloc);
    let mut window = Window::new();
    let mut place = 17;
    'frames: for _ in 0..10 {
        let Ok(found) = journal.next_frame(place, &mut window) else {
            rt.panic("the disk failed")
        };
        let Some((_size, behind)) = found else {
            return text;
        };
        assert!(rt; text.push((place % 256) as u8).is_ok());
        assert!(rt; text.extend_from_slice(window.payload()).is_ok());
        place = behind;
    }
    rt.panic("no end")
}

// The same of a journal of the first form.
fn first_payloads_of<D: Disk>(
    rt: &impl Abort,
    alloc: Global,
    journal: &mut FirstJournal<'_, D>,
) -> Vec<u8>
    requires first { StandsAtIn First (D.disk journal.old.disk.now) journal.old.gate 16 }
{
    let mut text = Vec::new(alloc);
    let mut window = Window::new();
    let mut place = 16;
    'frames: for _ in 0..10 {
        let Ok(found) = journal.next_frame(place, &mut window) else {
            rt.panic("the disk failed")
        };
        let Some((_size, behind)) = found else {
            return text;
        };
        assert!(rt; text.push((place % 256) as u8).is_ok());
        assert!(rt; text.extend_from_slice(window.payload()).is_ok());
        place = behind;
    }
    rt.panic("no end")
}

// The payloads of the journal on a disk.
fn payloads_on(rt: &impl Abort, alloc: Global, disk: MemoryDisk) -> Vec<u8> {
    match Journal::open(alloc, disk) {
        Ok(mut journal) => payloads_of(rt, alloc, &mut journal),
        Err((_disk, _fault)) => rt.panic("not opened"),
    }
}

// The payloads that a file stands for.
fn payloads_in(rt: &impl Abort, alloc: Global, file: &[u8]) -> Vec<u8> {
    payloads_on(rt, alloc, disk_of(rt, alloc, file, &[], 0))
}

// A file is opened: the payloads that it stands for, and what the disk holds afterwards.
fn opened(rt: &impl Abort, alloc: Global, file: &[u8], found: &[u8], after: &[u8]) -> bool {
    match Journal::open(alloc, disk_of(rt, alloc, file, &[], 0)) {
        Ok(journal) => {
            journal.into_disk().contents() == after
                && payloads_in(rt, alloc, file).as_slice() == found
        }
        Err((_disk, _fault)) => false,
    }
}

// A file is refused for this fault, and stays as it is.
fn refused(rt: &impl Abort, alloc: Global, file: &[u8], wanted: JournalFault) -> bool {
    match Journal::open(alloc, disk_of(rt, alloc, file, &[], 0)) {
        Ok(_opened) => false,
        Err((disk, fault)) => fault == wanted && disk.contents() == file,
    }
}

// A file of the first form is read: the payloads that it stands for. It stays as it is.
fn first_opened(rt: &impl Abort, alloc: Global, file: &[u8], found: &[u8]) -> bool {
    let mut disk = disk_of(rt, alloc, file, &[], 0);
    let same = match FirstJournal::open(alloc, &mut disk) {
        Ok(mut journal) => first_payloads_of(rt, alloc, &mut journal).as_slice() == found,
        Err((_disk, _fault)) => false,
    };
    same && disk.contents() == file
}

// It is refused for this fault on a disk of which these calls fail, and stays as it is.
fn first_refused(
    rt: &impl Abort,
    alloc: Global,
    file: &[u8],
    fails: &[u64],
    wanted: JournalFault,
) -> bool {
    let mut disk = disk_of(rt, alloc, file, fails, 7);
    let same = match FirstJournal::open(alloc, &mut disk) {
        Ok(_opened) => false,
        Err((_disk, fault)) => fault == wanted,
    };
    same && disk.contents() == file
}

// Two payloads, "abc" and "d": the first stands at 17, the second 13 and 3 bytes behind.
const WHOLE: &[u8] = b"TBHOSTJOURNAL002\x01\
    \x01\0\0\0\x03\0\0\0\0\0\0\0\0abc\
    \x01\0\0\0\x01\0\0\0\0\0\0\0\x01d\
    \0rest";

// The same in the first form: the first stands at 16, the second 5 and 3 bytes behind.
const WHOLE_FIRST: &[u8] = b"TBHOSTJOURNAL001\x01\0\0\0\x03abc\x01\0\0\0\x01d\0rest";

#[test]
fn files_are_opened(rt: HostRuntime) {
    let alloc = rt.alloc();
    let empty = b"TBHOSTJOURNAL002\x01\0";
    let other_gate = b"TBHOSTJOURNAL002\x01\x07x";
    assert!(rt; opened(&rt, alloc, b"", b"", empty));
    assert!(rt; opened(&rt, alloc, b"eighteen bytes....", b"", empty));
    assert!(rt; opened(&rt, alloc, b"TBHOSTJOURNAL001\0", b"", empty));
    assert!(rt; opened(&rt, alloc, other_gate, b"", other_gate));
    assert!(rt; opened(&rt, alloc, WHOLE, b"\x11abc\x21d", WHOLE));
}

#[test]
fn other_files_are_refused(rt: HostRuntime) {
    let alloc = rt.alloc();
    let foreign = JournalFault::NotAJournal([b'a'; 16]);
    let first = JournalFault::NotAJournal(*b"TBHOSTJOURNAL001");
    assert!(rt; refused(&rt, alloc, b"aaaaaaaaaaaaaaaaaaa", foreign));
    assert!(rt; refused(&rt, alloc, WHOLE_FIRST, first));
    assert!(rt;
        refused(
            &rt,
            alloc,
            b"TBHOSTJOURNAL002\0\0\0",
            JournalFault::Unsealed(0)
        )
    );
    assert!(rt;
        refused(
            &rt,
            alloc,
            b"TBHOSTJOURNAL002\x02\x01\x01",
            JournalFault::Unsealed(2)
        )
    );
}

// A file with the header and these bytes behind it is damaged at this place.
fn damaged(rt: &impl Abort, alloc: Global, behind: &[u8], place: u64) -> bool {
    let file = joined(rt, alloc, HEADER, behind, b"");
    refused(rt, alloc, &file, JournalFault::Damaged(place))
}

#[test]
fn damaged_files_are_refused(rt: HostRuntime) {
    let alloc = rt.alloc();
    // It runs past the end, or its head does.
    assert!(rt; damaged(&rt, alloc, b"\x01\0\0\0\x03\0\0\0\0\0\0\0\0ab", 17));
    assert!(rt; damaged(&rt, alloc, b"\x01\0\0\0\x03\0\0\0\0\0\0\0", 17));
    // Its length is none of a payload.
    assert!(rt; damaged(&rt, alloc, b"\x01\0\0\0\0\0\0\0\0\0\0\0\0\0", 17));
    assert!(rt; damaged(&rt, alloc, b"\x01\0\0\x80\x01\0\0\0\0\0\0\0\0abc", 17));
    // Its ordinal is another.
    assert!(rt; damaged(&rt, alloc, b"\x01\0\0\0\x01\0\0\0\0\0\0\0\x01a\0", 17));
    assert!(rt; damaged(&rt, alloc, b"\x01\0\0\0\x01\x80\0\0\0\0\0\0\0a\0", 17));
    // No gate byte stands behind it, or an open one alone.
    assert!(rt; damaged(&rt, alloc, b"\x01\0\0\0\x01\0\0\0\0\0\0\0\0a", 31));
    assert!(rt; damaged(&rt, alloc, b"\x01\0\0\0\x01\0\0\0\0\0\0\0\0a\x01", 31));
}

#[test]
fn files_of_the_first_form_are_read(rt: HostRuntime) {
    let alloc = rt.alloc();
    assert!(rt; first_opened(&rt, alloc, b"", b""));
    assert!(rt; first_opened(&rt, alloc, b"seventeen bytes..", b""));
    assert!(rt; first_opened(&rt, alloc, b"TBHOSTJOURNAL001\x07x", b""));
    assert!(rt; first_opened(&rt, alloc, WHOLE_FIRST, b"\x10abc\x18d"));
}

#[test]
fn other_files_are_not_of_the_first_form(rt: HostRuntime) {
    let alloc = rt.alloc();
    let second = JournalFault::NotAJournal(*b"TBHOSTJOURNAL002");
    assert!(rt; first_refused(&rt, alloc, WHOLE, &[], second));
    assert!(rt;
        first_refused(
            &rt,
            alloc,
            b"TBHOSTJOURNAL001\x01\0\0\0\x03ab",
            &[],
            JournalFault::Damaged(16)
        )
    );
    assert!(rt;
        first_refused(
            &rt,
            alloc,
            b"TBHOSTJOURNAL001\x01\0\0\0\x01a",
            &[],
            JournalFault::Damaged(22)
        )
    );
    assert!(rt; first_refused(&rt, alloc, WHOLE_FIRST, &[0], JournalFault::DiskFault));
    assert!(rt; first_refused(&rt, alloc, WHOLE_FIRST, &[3], JournalFault::DiskFault));
}

// A payload is added to what a disk holds, and this stands there then.
fn leaves(rt: &impl Abort, alloc: Global, before: &[u8], payload: &[u8], after: &[u8]) -> bool {
    let mut journal = open(rt, alloc, disk_of(rt, alloc, before, &[], 0));
    adds(rt, &mut journal, payload) && journal.into_disk().contents() == after
}

// A file stands for this payload alone, which stands at 17.
fn has_one(rt: &impl Abort, alloc: Global, file: &[u8], payload: &[u8]) -> bool {
    payloads_in(rt, alloc, file) == joined(rt, alloc, &[17], payload, b"")
}

// The frame of a file with one payload, twice, is damaged at the gate behind the first.
fn damaged_twice(rt: &impl Abort, alloc: Global, file: &[u8]) -> bool {
    assert!(rt; 67 <= file.len());
    let twice = joined(rt, alloc, &file[..67], &file[17..], b"");
    refused(rt, alloc, &twice, JournalFault::Damaged(67))
}

// One payload of 37 bytes, byte by byte; the same file cut within its frame; and the frame twice.
#[test]
fn a_journal_has_the_bytes_of_its_format(rt: HostRuntime) {
    let alloc = rt.alloc();
    let payload =
        b"\x08operator\0\0\0\0\0\0\0\x01\0\0\0\0\x67\x28\x62\xe0\x01\x07dealer1\x02k1".as_slice();
    let file = b"TBHOSTJOURNAL002\x01\
        \x01\0\0\0\x25\0\0\0\0\0\0\0\0\
        \x08operator\0\0\0\0\0\0\0\x01\0\0\0\0\x67\x28\x62\xe0\x01\x07dealer1\x02k1\
        \0"
        .as_slice();
    assert!(rt; file.len() == 68);
    assert!(rt; leaves(&rt, alloc, b"", payload, file));
    assert!(rt; has_one(&rt, alloc, file, payload));
    assert!(rt; refused(&rt, alloc, &file[..40], JournalFault::Damaged(17)));
    assert!(rt; damaged_twice(&rt, alloc, file));
}

// An append of "abc" fails on a disk of which these calls fail and that leaves this byte of a failed write, then
// `resolve` fails once or not, and tells whether the payload counts. Whether it does, and what the file stands for once
// "d" is added.
fn settled(
    rt: &impl Abort,
    alloc: Global,
    fails: &[u64],
    torn: u8,
    again: bool,
) -> (bool, Vec<u8>) {
    let mut journal = open(rt, alloc, disk_of(rt, alloc, b"", fails, torn));
    assert!(rt; !adds(rt, &mut journal, b"abc"));
    assert!(rt; !again || settle(rt, &mut journal).is_err());
    let counts = settle(rt, &mut journal).expect(rt, "settled");
    assert!(rt; adds(rt, &mut journal, b"d"));
    (
        counts,
        payloads_in(rt, alloc, journal.into_disk().contents()),
    )
}

fn counts_at_last(rt: &impl Abort, alloc: Global, fails: &[u64], torn: u8, again: bool) -> bool {
    let (counts, found) = settled(rt, alloc, fails, torn, again);
    counts && found.as_slice() == b"\x11abc\x21d".as_slice()
}

fn counts_never(rt: &impl Abort, alloc: Global, fails: &[u64], torn: u8, again: bool) -> bool {
    let (counts, found) = settled(rt, alloc, fails, torn, again);
    !counts && found.as_slice() == b"\x11d".as_slice()
}

// Opening an empty disk takes the calls 0 to 3: a sync, the length, a write and a sync. Those of the first append are 4
// to 7, and then come a sync and a read of `resolve`.
#[test]
fn a_payload_in_doubt_is_settled(rt: HostRuntime) {
    let alloc = rt.alloc();
    assert!(rt; counts_at_last(&rt, alloc, &[7], 0, false));
    assert!(rt; counts_at_last(&rt, alloc, &[7, 8], 0, true));
    assert!(rt; counts_at_last(&rt, alloc, &[6], 1, false));
    assert!(rt; counts_never(&rt, alloc, &[6], 7, false));
    assert!(rt; counts_never(&rt, alloc, &[6, 8], 7, true));
    assert!(rt; counts_never(&rt, alloc, &[5], 0, false));
    assert!(rt; counts_never(&rt, alloc, &[4], 0, false));
}

// Whether the payload is known to count.
fn counts(rt: &impl Abort, journal: &mut Journal<MemoryDisk>, payload: &[u8]) -> bool {
    if journal.unsure() {
        return false;
    }
    if adds(rt, journal, payload) {
        return true;
    }
    match settle(rt, journal) {
        Ok(counts) => counts,
        Err(DiskFault) => settle(rt, journal) == Ok(true),
    }
}

// What counts on a disk of which these calls fail stands there afterwards, and nothing else does unless it is in doubt.
fn keeps_what_counts(rt: &impl Abort, alloc: Global, fails: &[u64]) -> bool {
    match Journal::open(alloc, disk_of(rt, alloc, b"", fails, 7)) {
        Ok(mut journal) => {
            let mut want = Vec::new(alloc);
            for payload in [b"abc".as_slice(), b"de"] {
                let place = (journal.gate() % 256) as u8;
                if counts(rt, &mut journal, payload) {
                    assert!(rt; want.push(place).is_ok());
                    assert!(rt; want.extend_from_slice(payload).is_ok());
                }
            }
            let unsure = journal.unsure();
            let found = payloads_in(rt, alloc, journal.into_disk().contents());
            found.as_slice().starts_with(want.as_slice()) && (unsure || found.len() == want.len())
        }
        Err((disk, fault)) => {
            fault == JournalFault::DiskFault && payloads_in(rt, alloc, disk.contents()).is_empty()
        }
    }
}

// The same where each call from this one on fails.
fn keeps_what_counted(rt: &impl Abort, alloc: Global, call: u64) -> bool {
    let mut rest = Vec::new(alloc);
    for later in call..30 {
        assert!(rt; rest.push(later).is_ok());
    }
    keeps_what_counts(rt, alloc, &rest)
}

#[test]
fn any_call_may_fail(rt: HostRuntime) {
    let alloc = rt.alloc();
    for call in 0..20 {
        assert!(rt; keeps_what_counts(&rt, alloc, &[call]));
        assert!(rt; keeps_what_counted(&rt, alloc, call));
    }
}

// The block behind the gate: a length, an ordinal, two bytes of payload and a closed gate.
const BLOCK: &[u8] = b"\0\0\0\x02\0\0\0\0\0\0\0\0ab\0";

// A file with this gate and the block behind it stands for so many bytes.
fn gate_stands(rt: &impl Abort, alloc: Global, gate: u8, size: usize) -> bool {
    let file = joined(rt, alloc, HEADER, &[gate], BLOCK);
    payloads_in(rt, alloc, &file).len() == size
}

// A file with a closed gate and so many of the digits 0, 1 and 2 of this number behind it.
fn image_of(rt: &impl Abort, alloc: Global, size: usize, image: u32) -> Vec<u8> {
    let mut file = joined(rt, alloc, HEADER, &[0], b"");
    let mut digits = image;
    for _ in 0..size {
        assert!(rt; file.push((digits % 3) as u8).is_ok());
        digits /= 3;
    }
    file
}

// A file with a closed gate and so many bytes behind it stands for no payload, whichever of 0, 1 and 2 these are: so
// many images.
fn none_stands(rt: &impl Abort, alloc: Global, size: usize, images: u32) -> bool {
    for image in 0..images {
        if !payloads_in(rt, alloc, &image_of(rt, alloc, size, image)).is_empty() {
            return false;
        }
    }
    true
}

#[test]
fn a_crash_leaves_the_old_list_or_the_new(rt: HostRuntime) {
    let alloc = rt.alloc();
    let file = joined(&rt, alloc, HEADER, &[1], BLOCK);
    assert!(rt; leaves(&rt, alloc, HEADER, b"ab", &file));
    assert!(rt; has_one(&rt, alloc, &file, b"ab"));
    // While the gate byte is written it may be any byte. 0 is what stands there after the second call.
    for gate in 0..=255 {
        assert!(rt; gate_stands(&rt, alloc, gate, if gate == 1 { 3 } else { 0 }));
    }
    // While the block is written, any bytes stand behind the closed gate: here the first seven of its 15.
    assert!(rt; none_stands(&rt, alloc, 0, 1));
    assert!(rt; none_stands(&rt, alloc, 1, 3));
    assert!(rt; none_stands(&rt, alloc, 2, 9));
    assert!(rt; none_stands(&rt, alloc, 3, 27));
    assert!(rt; none_stands(&rt, alloc, 4, 81));
    assert!(rt; none_stands(&rt, alloc, 5, 243));
    assert!(rt; none_stands(&rt, alloc, 6, 729));
    assert!(rt; none_stands(&rt, alloc, 7, 2187));
}

// A payload of 32,768 such bytes is added, and noted as one that stands at a place of which the last byte is this.
fn longest_added(
    rt: &impl Abort,
    alloc: Global,
    journal: &mut Journal<MemoryDisk>,
    noted: &mut Vec<u8>,
    byte: u8,
    place: u8,
) -> bool {
    let payload = vec![in alloc; byte; 32_768].expect(rt, "memory");
    noted.push(place).is_ok()
        && noted.extend_from_slice(&payload).is_ok()
        && adds(rt, journal, &payload)
}

// Three of the longest payloads take more bytes than a window has: the second and the third frame don't stand whole in
// what was read for the one before. They stand at 17, 32,798 and 65,579.
#[test]
fn the_longest_payloads_are_kept(rt: HostRuntime) {
    let alloc = rt.alloc();
    let disk = MemoryDisk::new(alloc, b"", 120_000, 240_000, Vec::new(alloc), 0);
    let mut journal = open(&rt, alloc, disk.expect(&rt, "memory"));
    let mut want = Vec::new(alloc);
    assert!(rt; longest_added(&rt, alloc, &mut journal, &mut want, b'p', 17));
    assert!(rt; longest_added(&rt, alloc, &mut journal, &mut want, b'q', 30));
    assert!(rt; longest_added(&rt, alloc, &mut journal, &mut want, b'r', 43));
    assert!(rt; payloads_on(&rt, alloc, journal.into_disk()) == want);
}

// What stands behind the gate of a journal.
fn read_on<D: Disk>(rt: &impl Abort, alloc: Global, journal: &mut Journal<D>) -> Vec<u8>
    requires sure { journal.old.doubt ≡ None }
    requires end { journal.old.gate < 2 ^ 42 }
{
    let mut window = Window::new();
    assert!(rt; journal.read_behind(&mut window).is_ok());
    window.payload().to_vec(alloc).expect(rt, "memory")
}

// The same of the journal on a disk.
fn behind(rt: &impl Abort, alloc: Global, file: &[u8]) -> Vec<u8> {
    let mut journal = open(rt, alloc, disk_of(rt, alloc, file, &[], 0));
    assert!(rt; !journal.unsure() && journal.gate() < 70_000 && journal.ordinal() == 0);
    read_on(rt, alloc, &mut journal)
}

// Two frames of two bytes and of one, with a closed gate before them.
const CLOSED: &[u8] = b"TBHOSTJOURNAL002\x01\0\
    \0\0\0\x02\0\0\0\0\0\0\0\0\xa1\xb2\
    \x01\0\0\0\x01\0\0\0\0\0\0\0\x01\xc3\
    \0";

#[test]
fn what_stands_behind_a_closed_gate_is_read(rt: HostRuntime) {
    let alloc = rt.alloc();
    assert!(rt; behind(&rt, alloc, CLOSED).as_slice() == &CLOSED[18..]);
    assert!(rt; behind(&rt, alloc, &CLOSED[..18]).is_empty());
    let many = [b'x'; 32_790];
    let long = joined(&rt, alloc, &CLOSED[..18], &many, b"");
    assert!(rt; long.len() <= 40_000);
    let disk = MemoryDisk::new(alloc, &long, 40_000, LOG_ROOM, Vec::new(alloc), 0);
    let mut journal = open(&rt, alloc, disk.expect(&rt, "memory"));
    assert!(rt; !journal.unsure() && journal.gate() < 70_000);
    assert_eq!(rt; read_on(&rt, alloc, &mut journal).len(), MOST_BEHIND + 1);
}

#[test]
fn two_frames_are_found_by_their_ordinals(rt: HostRuntime) {
    let frames = &CLOSED[18..];
    assert!(rt; two_frames(0, frames) == Some((b"\xa1\xb2".as_slice(), b"\xc3".as_slice())));
    assert!(rt; two_frames(1, frames).is_none());
    assert!(rt; two_frames(0, &frames[..14]).is_none());
}
