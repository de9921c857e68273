//! Tests of the public calls. The bytes of parcels were spelled by hand from the table of formats.
ghost use Rattle.std.specs.Prelude.{◌≡◌, []};
ghost use Rattle.tb_message.specs.Spelling.{IsInRange};

use std::alloc::Global;
use std::process::Abort;
use tb_disk::MemoryDisk;
use tb_parcel::{Parcel, ParcelFront, read_parcel};
use tb_replica::{Follower, TakeFault, Taken};

// The first three entries of a history: the operator registers dealer1, enrols fund1 with it and announces bill13.
const REGISTER: &[u8] = b"\0\0\0\x25\0\0\0\0\0\0\0\0\
    \x08operator\0\0\0\0\0\0\0\x01\0\0\0\0\x67\x28\x62\xe0\x01\x07dealer1\x02k1";

const ENROL: &[u8] = b"\0\0\0\x28\0\0\0\0\0\0\0\x01\
    \x08operator\0\0\0\0\0\0\0\x02\0\0\0\0\x67\x28\x62\xe0\x02\x05fund1\x07dealer1";

const ANNOUNCE: &[u8] = b"\0\0\0\x62\0\0\0\0\0\0\0\x02\
    \x08operator\0\0\0\0\0\0\0\x03\0\0\0\0\x67\x28\x62\xe0\x04\x06bill13912797AA5\
    \0\0\0\x11\xb1\xf3\xf8\0\0\0\0\0\0\0\0\x64\0\0\0\0\0\x98\x96\x80\
    \0\0\0\0\x3b\x9a\xca\0\0\0\0\x06\x31\x7b\xca\0\
    \0\0\x4e\x3f\x02\x94\x02\xb2\0\0\x4e\x42\0\0\x4e\x9d";

// dealer2 is registered under the number of dealer1: it can't stand behind that entry.
const OTHER: &[u8] = b"\0\0\0\x25\0\0\0\0\0\0\0\0\
    \x08operator\0\0\0\0\0\0\0\x01\0\0\0\0\x67\x28\x62\xe0\x01\x07dealer2\x02k2";

const ROOM: u64 = 10_000;

const LOG_ROOM: u64 = 100_000;

// A follower with nothing in doubt, so that its steps need not be told so.
#[derive(Drop)]
struct Standby {
    follower: Follower<MemoryDisk>,
    ghost sure: { follower.desk.doubt ≡ [] },
}

// A disk of which these calls fail.
fn disk_of(rt: &impl Abort, alloc: Global, contents: &[u8], fails: &[u64]) -> MemoryDisk {
    assert!(rt; contents.len() < 10_000);
    let fails = fails.to_vec(alloc).expect(rt, "memory");
    MemoryDisk::new(alloc, contents, ROOM, LOG_ROOM, fails, 0).expect(rt, "memory")
}

// A follower on a disk of which no call fails.
fn standby_on(rt: &impl Abort, alloc: Global, contents: &[u8]) -> Option<Standby> {
    standby_of(rt, alloc, disk_of(rt, alloc, contents, &[]))
}

fn standby_of(rt: &impl Abort, alloc: Global, disk: MemoryDisk) -> Option<Standby> {
    match Follower::open(alloc, disk) {
        Ok(follower) => Some(Standby { follower }),
        Err(_) => panic!(rt; "not opened"),
    }
}

// The parcel that these bytes begin with.
fn parcel_of(rt: &impl Abort, bytes: &[u8]) -> Parcel
    ensures { IsInRange result.entry }
{
    match read_parcel(bytes) {
        ParcelFront::Whole(parcel, _) => parcel,
        _ => panic!(rt; "no parcel"),
    }
}

// The same entry as of another place.
fn placed(rt: &impl Abort, bytes: &[u8], place: u64) -> Parcel
    ensures { IsInRange result.entry }
{
    let parcel = parcel_of(rt, bytes);
    Parcel {
        place,
        entry: parcel.entry,
    }
}

// What is answered to a parcel. After a fault the follower is given up.
fn answer(standby: &mut Option<Standby>, parcel: &Parcel) -> Option<Result<Taken, TakeFault>>
    requires { IsInRange parcel.now.entry }
{
    let Some(Standby { mut follower }) = standby.take() else {
        return None;
    };
    match follower.take(parcel) {
        Ok(taken) => {
            *standby = Some(Standby { follower });
            Some(Ok(taken))
        }
        Err(fault) => Some(Err(fault)),
    }
}

// Whether the parcel is taken, and answered so.
fn takes(standby: &mut Option<Standby>, parcel: &Parcel, taken: Taken) -> bool
    requires { IsInRange parcel.now.entry }
{
    answer(standby, parcel) == Some(Ok(taken))
}

// Whether the parcel is a fork at this place.
fn forks(standby: &mut Option<Standby>, parcel: &Parcel, place: u64) -> bool
    requires { IsInRange parcel.now.entry }
{
    answer(standby, parcel) == Some(Err(TakeFault::Forked(place)))
}

// How many entries the copy has.
fn entries(standby: &Option<Standby>) -> Option<u64> {
    match standby {
        Some(standby) => Some(standby.follower.entries()),
        None => None,
    }
}

#[test]
fn a_parcel_is_added_once(rt: HostRuntime) {
    let mut standby = standby_on(&rt, rt.alloc(), b"");
    assert!(rt; entries(&standby) == Some(0));
    assert!(rt; takes(&mut standby, &parcel_of(&rt, REGISTER), Taken::Added(1)));
    assert!(rt; takes(&mut standby, &parcel_of(&rt, REGISTER), Taken::Standing));
    assert!(rt; entries(&standby) == Some(1));
}

#[test]
fn parcels_come_in_any_order(rt: HostRuntime) {
    let mut standby = standby_on(&rt, rt.alloc(), b"");
    assert!(rt; takes(&mut standby, &parcel_of(&rt, ANNOUNCE), Taken::Ahead));
    assert!(rt; takes(&mut standby, &parcel_of(&rt, REGISTER), Taken::Added(1)));
    assert!(rt; entries(&standby) == Some(1));
    assert!(rt; takes(&mut standby, &parcel_of(&rt, ENROL), Taken::Added(2)));
    assert!(rt; entries(&standby) == Some(3));
}

#[test]
fn parcels_are_repeated(rt: HostRuntime) {
    let mut standby = standby_on(&rt, rt.alloc(), b"");
    assert!(rt; takes(&mut standby, &parcel_of(&rt, REGISTER), Taken::Added(1)));
    assert!(rt; takes(&mut standby, &parcel_of(&rt, REGISTER), Taken::Standing));
    assert!(rt; takes(&mut standby, &parcel_of(&rt, ENROL), Taken::Added(1)));
    assert!(rt; entries(&standby) == Some(2));
}

#[test]
fn another_history_is_a_fork(rt: HostRuntime) {
    let alloc = rt.alloc();
    let mut standby = standby_on(&rt, alloc, b"");
    assert!(rt; takes(&mut standby, &parcel_of(&rt, OTHER), Taken::Added(1)));
    assert!(rt; forks(&mut standby, &parcel_of(&rt, REGISTER), 0));
    // At the next place too, where its number was used.
    let mut standby = standby_on(&rt, alloc, b"");
    assert!(rt; takes(&mut standby, &parcel_of(&rt, OTHER), Taken::Added(1)));
    assert!(rt; forks(&mut standby, &placed(&rt, REGISTER, 1), 1));
}

// The kept parcel's own place is told, and what came before it stays.
#[test]
fn a_kept_parcel_is_a_fork(rt: HostRuntime) {
    let mut standby = standby_on(&rt, rt.alloc(), b"");
    assert!(rt; takes(&mut standby, &placed(&rt, OTHER, 2), Taken::Ahead));
    assert!(rt; takes(&mut standby, &parcel_of(&rt, ENROL), Taken::Ahead));
    assert!(rt; forks(&mut standby, &parcel_of(&rt, REGISTER), 2));
}

// What is kept for a place and stands already is let go. The place's own parcel is taken when it comes.
#[test]
fn a_kept_parcel_stands_by_another(rt: HostRuntime) {
    let mut standby = standby_on(&rt, rt.alloc(), b"");
    assert!(rt; takes(&mut standby, &placed(&rt, REGISTER, 1), Taken::Ahead));
    assert!(rt; takes(&mut standby, &parcel_of(&rt, ANNOUNCE), Taken::Ahead));
    assert!(rt; takes(&mut standby, &parcel_of(&rt, REGISTER), Taken::Added(1)));
    assert!(rt; takes(&mut standby, &parcel_of(&rt, ENROL), Taken::Added(2)));
    assert!(rt; entries(&standby) == Some(3));
}

// The first of each place is kept.
#[test]
fn one_parcel_is_kept_for_a_place(rt: HostRuntime) {
    let mut standby = standby_on(&rt, rt.alloc(), b"");
    assert!(rt; takes(&mut standby, &parcel_of(&rt, ENROL), Taken::Ahead));
    assert!(rt; takes(&mut standby, &placed(&rt, OTHER, 1), Taken::Ahead));
    assert!(rt; takes(&mut standby, &parcel_of(&rt, REGISTER), Taken::Added(2)));
}

// The parcel of a place in a long history, in which the operator registers a submitter at each place.
fn registers(rt: &impl Abort, alloc: Global, place: u64) -> Parcel
    ensures { IsInRange result.entry }
{
    let mut bytes = Vec::new(alloc);
    bytes.extend_from_slice(b"\0\0\0\x26").expect(rt, "memory");
    bytes
        .extend_from_slice(&place.to_be_bytes())
        .expect(rt, "memory");
    bytes
        .extend_from_slice(b"\x08operator")
        .expect(rt, "memory");
    bytes
        .extend_from_slice(&place.saturating_add(1).to_be_bytes())
        .expect(rt, "memory");
    bytes
        .extend_from_slice(b"\0\0\0\0\x67\x28\x62\xe0\x01")
        .expect(rt, "memory");
    let names = format!(in alloc; "\x05s{place:04}\x05k{place:04}").expect(rt, "memory");
    bytes
        .extend_from_slice(names.as_bytes())
        .expect(rt, "memory");
    parcel_of(rt, &bytes)
}

// Whether the parcel of this place of the long history is taken so.
fn takes_at(
    rt: &impl Abort,
    alloc: Global,
    standby: &mut Option<Standby>,
    place: u64,
    taken: Taken,
) -> bool {
    let parcel = registers(rt, alloc, place);
    takes(standby, &parcel, taken)
}

// Whether the parcels of these places of the long history are kept ahead.
fn are_ahead(
    rt: &impl Abort,
    alloc: Global,
    standby: &mut Option<Standby>,
    from: u64,
    to: u64,
) -> bool {
    for place in from..to {
        if !takes_at(rt, alloc, standby, place, Taken::Ahead) {
            return false;
        }
    }
    true
}

#[test]
fn so_many_are_kept_ahead_and_no_more(rt: HostRuntime) {
    let alloc = rt.alloc();
    // Room for a thousand entries and more.
    let disk = MemoryDisk::new(alloc, b"", 100_000, 1_000_000, Vec::new(alloc), 0).expect(
        &rt, "memory",
    );
    let mut standby = standby_of(&rt, alloc, disk);
    assert!(rt; are_ahead(&rt, alloc, &mut standby, 1, 1024));
    assert!(rt; takes_at(&rt, alloc, &mut standby, 1024, Taken::Dropped));
    assert!(rt; takes(&mut standby, &placed(&rt, ENROL, u64::MAX), Taken::Dropped));
    assert!(rt; takes_at(&rt, alloc, &mut standby, 0, Taken::Added(1024)));
    assert!(rt; entries(&standby) == Some(1024));
    assert!(rt; takes_at(&rt, alloc, &mut standby, 1024, Taken::Added(1)));
}

// A standby that goes on, or the disk of one that was given up with its fault.
type Delivery = Result<Standby, (MemoryDisk, TakeFault)>;

// What a parcel makes of it: where it was given up, the parcel is lost.
fn step(delivery: Delivery, parcel: &Parcel) -> Delivery
    requires { IsInRange parcel.now.entry }
{
    let Standby { mut follower } = delivery?;
    match follower.take(parcel) {
        Ok(_) => Ok(Standby { follower }),
        Err(fault) => Err((follower.into_disk(), fault)),
    }
}

fn into_disk(standby: Standby) -> MemoryDisk {
    let Standby { follower } = standby;
    follower.into_disk()
}

// Delivers the parcels of these places of the long history up to the first fault, and gives the disk back.
fn deliver(
    rt: &impl Abort,
    alloc: Global,
    disk: MemoryDisk,
    places: &[u64],
) -> (MemoryDisk, Option<TakeFault>) {
    let mut delivery = match Follower::open(alloc, disk) {
        Ok(follower) => Ok(Standby { follower }),
        Err((disk, _fault)) => Err((disk, TakeFault::DiskFault)),
    };
    for place in places {
        delivery = step(delivery, &registers(rt, alloc, *place));
    }
    match delivery {
        Ok(standby) => (into_disk(standby), None),
        Err((disk, fault)) => (disk, Some(fault)),
    }
}

// How many entries a file stands for.
fn entries_in(rt: &impl Abort, alloc: Global, file: &[u8]) -> Option<u64> {
    entries(&standby_on(rt, alloc, file))
}

// Whether the parcels of these places make a history of so many entries.
fn arrive(rt: &impl Abort, alloc: Global, places: &[u64], next: u64) -> bool {
    let disk = disk_of(rt, alloc, b"", &[]);
    let (disk, fault) = deliver(rt, alloc, disk, places);
    fault == None && entries_in(rt, alloc, disk.contents()) == Some(next)
}

// Each order of four parcels, of which three come twice.
#[test]
fn four_parcels_come_in_each_order(rt: HostRuntime) {
    let alloc = rt.alloc();
    assert!(rt; arrive(&rt, alloc, &[0, 1, 0, 2, 1, 3, 2], 4));
    assert!(rt; arrive(&rt, alloc, &[0, 1, 0, 3, 1, 2, 3], 4));
    assert!(rt; arrive(&rt, alloc, &[0, 2, 0, 1, 2, 3, 1], 4));
    assert!(rt; arrive(&rt, alloc, &[0, 2, 0, 3, 2, 1, 3], 4));
    assert!(rt; arrive(&rt, alloc, &[0, 3, 0, 1, 3, 2, 1], 4));
    assert!(rt; arrive(&rt, alloc, &[0, 3, 0, 2, 3, 1, 2], 4));
    assert!(rt; arrive(&rt, alloc, &[1, 0, 1, 2, 0, 3, 2], 4));
    assert!(rt; arrive(&rt, alloc, &[1, 0, 1, 3, 0, 2, 3], 4));
    assert!(rt; arrive(&rt, alloc, &[1, 2, 1, 0, 2, 3, 0], 4));
    assert!(rt; arrive(&rt, alloc, &[1, 2, 1, 3, 2, 0, 3], 4));
    assert!(rt; arrive(&rt, alloc, &[1, 3, 1, 0, 3, 2, 0], 4));
    assert!(rt; arrive(&rt, alloc, &[1, 3, 1, 2, 3, 0, 2], 4));
    assert!(rt; arrive(&rt, alloc, &[2, 0, 2, 1, 0, 3, 1], 4));
    assert!(rt; arrive(&rt, alloc, &[2, 0, 2, 3, 0, 1, 3], 4));
    assert!(rt; arrive(&rt, alloc, &[2, 1, 2, 0, 1, 3, 0], 4));
    assert!(rt; arrive(&rt, alloc, &[2, 1, 2, 3, 1, 0, 3], 4));
    assert!(rt; arrive(&rt, alloc, &[2, 3, 2, 0, 3, 1, 0], 4));
    assert!(rt; arrive(&rt, alloc, &[2, 3, 2, 1, 3, 0, 1], 4));
    assert!(rt; arrive(&rt, alloc, &[3, 0, 3, 1, 0, 2, 1], 4));
    assert!(rt; arrive(&rt, alloc, &[3, 0, 3, 2, 0, 1, 2], 4));
    assert!(rt; arrive(&rt, alloc, &[3, 1, 3, 0, 1, 2, 0], 4));
    assert!(rt; arrive(&rt, alloc, &[3, 1, 3, 2, 1, 0, 2], 4));
    assert!(rt; arrive(&rt, alloc, &[3, 2, 3, 0, 2, 1, 0], 4));
    assert!(rt; arrive(&rt, alloc, &[3, 2, 3, 1, 2, 0, 1], 4));
}

// A parcel that is lost ends the history before its place.
#[test]
fn a_parcel_is_lost(rt: HostRuntime) {
    let alloc = rt.alloc();
    assert!(rt; arrive(&rt, alloc, &[], 0));
    assert!(rt; arrive(&rt, alloc, &[3, 2, 1], 0));
    assert!(rt; arrive(&rt, alloc, &[3, 0, 2], 1));
    assert!(rt; arrive(&rt, alloc, &[1, 3, 0], 2));
    assert!(rt; arrive(&rt, alloc, &[2, 1, 0], 3));
}

// Whether a delivery in which a call of the disk fails leaves at most what was delivered, and all of it once it is
// delivered anew.
fn recovers(rt: &impl Abort, alloc: Global, call: u64) -> bool {
    let disk = disk_of(rt, alloc, b"", &[call]);
    let (failed, fault) = deliver(rt, alloc, disk, &TWENTY);
    let again = disk_of(rt, alloc, failed.contents(), &[]);
    let (whole, none) = deliver(rt, alloc, again, &TWENTY);
    fault == Some(TakeFault::DiskFault)
        && none == None
        && entries_in(rt, alloc, whole.contents()) == Some(20)
}

// Twenty places: ten in their order, and the next one behind all others.
const TWENTY: [u64; 20] = [
    0, 1, 2, 3, 4, 5, 6, 7, 8, 9, 11, 12, 13, 14, 15, 16, 17, 18, 19, 10,
];

// Whether it does so at each of these calls.
fn recovers_at(rt: &impl Abort, alloc: Global, from: u64, to: u64) -> bool {
    for call in from..to {
        if !recovers(rt, alloc, call) {
            return false;
        }
    }
    true
}

// An opening of an empty disk makes four calls, and each entry that is added four more: 84 calls.
#[test]
fn an_early_call_of_the_disk_fails(rt: HostRuntime) {
    assert!(rt; recovers_at(&rt, rt.alloc(), 0, 21));
}

#[test]
fn a_later_call_of_the_disk_fails(rt: HostRuntime) {
    assert!(rt; recovers_at(&rt, rt.alloc(), 21, 42));
}

#[test]
fn a_call_fails_where_kept_parcels_are_added(rt: HostRuntime) {
    assert!(rt; recovers_at(&rt, rt.alloc(), 42, 63));
}

#[test]
fn one_of_the_last_calls_of_the_disk_fails(rt: HostRuntime) {
    assert!(rt; recovers_at(&rt, rt.alloc(), 63, 84));
}
