//! Disks with little room. A new journal has 18 bytes, and the first entry of the auction 50 more.
use crate::auction::{EMPTY, FIRST_LINE, REGISTER, RUN, SCRIPT, journal, keeps};
use crate::trying::{Host, Outcome, disk_with, is_ended, run};
use std::process::Abort;
use std::sync::Wait;
use std::thread::Threads;

// A script on an empty disk with room for so many bytes.
fn tried<R: Abort + Threads + Wait + Sync>(host: &Host<'_, R>, script: &str, room: u64) -> Outcome {
    run(host, &RUN, script, disk_with(host, b"", room, &[], 0))
}

// The first line on a disk with so much room ends so, and leaves a disk that opens with these entries.
fn ends_with_room<R: Abort + Threads + Wait + Sync>(
    host: &Host<'_, R>,
    room: u64,
    status: u8,
    out: &str,
    err: &str,
    records: &[&[u8]],
) -> bool {
    let first = tried(host, FIRST_LINE, room);
    is_ended(&first, status, out.as_bytes(), err) && keeps(host, first.disk.contents(), records)
}

#[test]
fn a_disk_with_room_for_40_bytes_takes_no_entry(rt: HostRuntime) {
    let host = Host {
        rt: &rt,
        alloc: rt.alloc(),
    };
    let fault = "unavailable DiskFault\n";
    let accepted = "accepted 1 1730700000\n";
    assert!(rt; ends_with_room(&host, 0, 6, "", "disk fault\n", &[]));
    assert!(rt; ends_with_room(&host, 17, 6, "", "disk fault\n", &[]));
    assert!(rt; ends_with_room(&host, 18, 0, fault, "", &[]));
    assert!(rt; ends_with_room(&host, 40, 0, fault, "", &[]));
    assert!(rt; ends_with_room(&host, 67, 0, fault, "", &[]));
    assert!(rt; ends_with_room(&host, 68, 0, accepted, "", &[REGISTER]));
}

/// No entry fits, so there is no key but the operator's, and no auction to publish.
const NOTHING_FITS: &str = "unavailable DiskFault
refused 71 UnknownParticipant
unavailable DiskFault
refused 1 UnknownKey
refused 1 UnknownKey
refused 1 UnknownKey
refused 1 UnknownKey
refused 1 UnknownKey
refused 10 UnknownAuction
refused 1 UnknownKey
refused 1 UnknownKey
";

/// The registration fits alone.
const ONE_FITS: &str = "accepted 1 1730700000
unavailable DiskFault
unavailable DiskFault
refused 10 UnknownAuction
refused 10 UnknownAuction
refused 10 UnknownAuction
refused 10 UnknownAuction
refused 10 UnknownAuction
refused 10 UnknownAuction
refused 10 UnknownAuction
refused 10 UnknownAuction
";

#[test]
fn the_whole_script_goes_on_where_no_entry_fits(rt: HostRuntime) {
    let host = Host {
        rt: &rt,
        alloc: rt.alloc(),
    };
    let none = tried(&host, SCRIPT, 40);
    assert!(rt; is_ended(&none, 0, NOTHING_FITS.as_bytes(), ""));
    assert!(rt; none.disk.contents().starts_with(EMPTY));
    assert!(rt; keeps(&host, none.disk.contents(), &[]));
    let one = tried(&host, SCRIPT, 100);
    assert!(rt; is_ended(&one, 0, ONE_FITS.as_bytes(), ""));
    assert!(rt;
        one.disk
            .contents()
            .starts_with(journal(&host, &[REGISTER]).as_slice())
    );
    assert!(rt; keeps(&host, one.disk.contents(), &[REGISTER]));
}
