//! Exports over files that stop, each at a call of its own: what they leave takes the next export.
use crate::rows::{row, without_awards};
use sqlite::{Alter, Connection, FileStore, Files, Options};
use sqlite_disk::{Crash, Disk, Fuse, Memory};
use std::alloc::Global;
use std::io;
use std::process::Abort;
use tb_register::{Keeper, Row};
use tb_register_sql::SqlKeeper;

// The rows of three published auctions.
fn published(rt: &impl Abort) -> [Row; 3] {
    let second = row(rt, "b2", b"912797AA5", 1_000_000);
    let first = row(rt, "a1", b"912797AA5", 100_000_000_000_000_000);
    let third = without_awards(rt, "c3", b"912797AB3", 3_000_000);
    [second, first, third]
}

/// A keeper over a connection that stands in no transaction.
pub(crate) fn adopted<S: Alter + Drop>(
    rt: &impl Abort,
    alloc: Global,
    connection: Connection<S>,
) -> SqlKeeper<S> {
    assert!(rt; connection.is_autocommit());
    SqlKeeper::adopt(alloc, connection)
}

// How many rows were added and how many were present. `None` where the keeper failed, or another row is there.
fn export(keeper: &mut impl Keeper, rows: &[Row]) -> Option<(u64, u64)> {
    let mut added: u64 = 0;
    let mut present: u64 = 0;
    for row in rows {
        match keeper.put(row) {
            Ok(None) => added = added.saturating_add(1),
            Ok(Some(found)) if found == *row => present = present.saturating_add(1),
            _ => return None,
        }
    }
    Some((added, present))
}

// A connection over the files, where they can be opened. Else the files.
fn open<D: Disk + Drop>(
    alloc: Global,
    files: Files<D>,
) -> Result<Connection<FileStore<D>>, Files<D>> {
    if !files.may_be_used() {
        return Err(files);
    }
    match Connection::open_files(alloc, files, Options::new(7)) {
        Ok(connection) => Ok(connection),
        Err((_, left)) => Err(left.into_files()),
    }
}

// What an export gives over empty files that stop at this call of each, and what it leaves.
fn stopped(
    rt: &impl Abort,
    alloc: Global,
    calls: u64,
) -> (Option<(u64, u64)>, Files<Fuse<Memory>>) {
    let files = Files {
        log: Fuse::new(Memory::new(alloc), calls),
        db: Fuse::new(Memory::new(alloc), calls),
    };
    match open(alloc, files) {
        Ok(connection) => {
            let mut keeper = adopted(rt, alloc, connection);
            let ended = export(&mut keeper, &published(rt));
            (ended, keeper.into_connection().into_store().close())
        }
        Err(files) => (None, files),
    }
}

// A file with what a crash leaves of this one.
fn left_by(alloc: Global, mut file: Fuse<Memory>) -> io::Result<Memory> {
    file.crash();
    let mut copy = Memory::new(alloc);
    copy.write_at(0, file.inner().bytes())?;
    copy.sync()?;
    Ok(copy)
}

// The files as a crash leaves them.
fn crashed(alloc: Global, files: Files<Fuse<Memory>>) -> io::Result<Files<Memory>> {
    Ok(Files {
        log: left_by(alloc, files.log)?,
        db: left_by(alloc, files.db)?,
    })
}

// Whether an export over empty files that stop at this call ends.
fn ends(rt: &impl Abort, alloc: Global, calls: u64) -> bool {
    stopped(rt, alloc, calls).0 == Some((3, 0))
}

// Whether behind a stop at this call and a crash the next export has all three rows, and the one after adds none.
fn goes_on(rt: &impl Abort, alloc: Global, calls: u64) -> bool {
    let (_, files) = stopped(rt, alloc, calls);
    let Ok(files) = crashed(alloc, files) else {
        return false;
    };
    let Ok(connection) = open(alloc, files) else {
        return false;
    };
    let mut keeper = adopted(rt, alloc, connection);
    let rows = published(rt);
    let next = match export(&mut keeper, &rows) {
        Some((added, present)) => added.saturating_add(present) == 3,
        None => false,
    };
    next && export(&mut keeper, &rows) == Some((0, 3))
}

// From call 39 on nothing stops.
#[test]
fn exports_stop_up_to_some_call(rt: HostRuntime) {
    assert!(rt; !ends(&rt, rt.alloc(), 38));
    assert!(rt; ends(&rt, rt.alloc(), 39));
}

#[test]
fn exports_go_on_behind_a_stop_at_calls_0_to_4(rt: HostRuntime) {
    assert!(rt; goes_on(&rt, rt.alloc(), 0));
    assert!(rt; goes_on(&rt, rt.alloc(), 1));
    assert!(rt; goes_on(&rt, rt.alloc(), 2));
    assert!(rt; goes_on(&rt, rt.alloc(), 3));
    assert!(rt; goes_on(&rt, rt.alloc(), 4));
}

#[test]
fn exports_go_on_behind_a_stop_at_calls_5_to_9(rt: HostRuntime) {
    assert!(rt; goes_on(&rt, rt.alloc(), 5));
    assert!(rt; goes_on(&rt, rt.alloc(), 6));
    assert!(rt; goes_on(&rt, rt.alloc(), 7));
    assert!(rt; goes_on(&rt, rt.alloc(), 8));
    assert!(rt; goes_on(&rt, rt.alloc(), 9));
}

#[test]
fn exports_go_on_behind_a_stop_at_calls_10_to_14(rt: HostRuntime) {
    assert!(rt; goes_on(&rt, rt.alloc(), 10));
    assert!(rt; goes_on(&rt, rt.alloc(), 11));
    assert!(rt; goes_on(&rt, rt.alloc(), 12));
    assert!(rt; goes_on(&rt, rt.alloc(), 13));
    assert!(rt; goes_on(&rt, rt.alloc(), 14));
}

#[test]
fn exports_go_on_behind_a_stop_at_calls_15_to_19(rt: HostRuntime) {
    assert!(rt; goes_on(&rt, rt.alloc(), 15));
    assert!(rt; goes_on(&rt, rt.alloc(), 16));
    assert!(rt; goes_on(&rt, rt.alloc(), 17));
    assert!(rt; goes_on(&rt, rt.alloc(), 18));
    assert!(rt; goes_on(&rt, rt.alloc(), 19));
}

#[test]
fn exports_go_on_behind_a_stop_at_calls_20_to_24(rt: HostRuntime) {
    assert!(rt; goes_on(&rt, rt.alloc(), 20));
    assert!(rt; goes_on(&rt, rt.alloc(), 21));
    assert!(rt; goes_on(&rt, rt.alloc(), 22));
    assert!(rt; goes_on(&rt, rt.alloc(), 23));
    assert!(rt; goes_on(&rt, rt.alloc(), 24));
}

#[test]
fn exports_go_on_behind_a_stop_at_calls_25_to_29(rt: HostRuntime) {
    assert!(rt; goes_on(&rt, rt.alloc(), 25));
    assert!(rt; goes_on(&rt, rt.alloc(), 26));
    assert!(rt; goes_on(&rt, rt.alloc(), 27));
    assert!(rt; goes_on(&rt, rt.alloc(), 28));
    assert!(rt; goes_on(&rt, rt.alloc(), 29));
}

#[test]
fn exports_go_on_behind_a_stop_at_calls_30_to_34(rt: HostRuntime) {
    assert!(rt; goes_on(&rt, rt.alloc(), 30));
    assert!(rt; goes_on(&rt, rt.alloc(), 31));
    assert!(rt; goes_on(&rt, rt.alloc(), 32));
    assert!(rt; goes_on(&rt, rt.alloc(), 33));
    assert!(rt; goes_on(&rt, rt.alloc(), 34));
}

#[test]
fn exports_go_on_behind_a_stop_at_calls_35_to_39(rt: HostRuntime) {
    assert!(rt; goes_on(&rt, rt.alloc(), 35));
    assert!(rt; goes_on(&rt, rt.alloc(), 36));
    assert!(rt; goes_on(&rt, rt.alloc(), 37));
    assert!(rt; goes_on(&rt, rt.alloc(), 38));
    assert!(rt; goes_on(&rt, rt.alloc(), 39));
}
