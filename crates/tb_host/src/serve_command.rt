//! The command `serve`.
ghost use Rattle.std.specs.Prelude.{◌≡◌, ◌⊎◌, ◌+◌, ◌≤◌, [], vec_len};
ghost use Rattle.tb_link.specs.Counts.{last_count};
ghost use Rattle.tb_disk.specs.Disks.{DiskState};
ghost use Rattle.tb_desk.specs.Desks.{CrashesSince};
ghost use Rattle.tb_commands.specs.DiskRun.{Stays};
ghost use Rattle.tb_commands.specs.Standings.{standing};
ghost use Rattle.tb_host.specs.ServeRun.{ServeEnds, ToldEnds, RoomEnds, served_text};

use std::alloc::Global;
use std::sync::Wait;
use std::thread::Threads;
use tb_commands::{ServeEnding, tell_count};
use tb_desk::{Desk, OpenFault};
use tb_disk::Disk;
use tb_gates::{Clock, Gate};
use tb_link::Sink;
use tb_session::{Ended, Room, serve_gates};
use tb_units::Ident;

/// Serves the links of up to 64 gates from the desk on the disk, each gate by a worker of its own, and hands the disk
/// back: what was accepted stays on it. The journal is opened before the first link is taken. Then how many links were
/// served and how many entries were added is printed. The operator's key is `op:` and this name.
pub fn serve<
    D: Disk + Send + Drop,
    C: Clock + Send + Drop,
    G: Gate + Send,
    O: Sink,
    R: Threads + Wait + Sync,
>(
    rt: &R,
    alloc: Global,
    operator: &Ident,
    out: &mut O,
    disk: D,
    gates: &mut Vec<G>,
    clock: C,
) -> (ServeEnding, D)
    requires few { vec_len gates.old ≤ 64 }
    ensures ends { ServeEnds G.gate G.Conn.source G.Conn.sink operator.now (C.clock clock) result.0
        (record { disk = D.disk disk; gates = gates.old.items; out = O.sink out.old })
        (record { disk = D.disk result.1; gates = gates.new.items; out = O.sink out.new }) }
{
    match Desk::open(alloc, disk) {
        Ok(desk) => {
            // By its clauses the history is legal.
            let _entries = desk.entries();
            let room = Room {
                desk,
                clock,
                operator: *operator,
            };
            serve_room(rt, alloc, room, out, gates)
        }
        Err((disk, fault)) => (ServeEnding::Unserved(fault), disk),
    }
}

// Serves the gates from a room whose desk was just opened.
fn serve_room<
    D: Disk + Send + Drop,
    C: Clock + Send + Drop,
    G: Gate + Send,
    O: Sink,
    R: Threads + Wait + Sync,
>(rt: &R, alloc: Global, room: Room<D, C>, out: &mut O, gates: &mut Vec<G>) -> (ServeEnding, D)
    requires sure { room.desk.doubt ≡ [] }
    requires few { vec_len gates.old ≤ 64 }
    ensures ends { RoomEnds D.disk C.clock G.gate G.Conn.source G.Conn.sink room result.0
        (record { disk = D.disk room.desk.disk; gates = gates.old.items; out = O.sink out.old })
        (record { disk = D.disk result.1; gates = gates.new.items; out = O.sink out.new }) }
{
    match serve_gates(rt, alloc, room, gates) {
        Ok(ended) => finish(ended, out),
        Err((room, _)) => (ServeEnding::Unserved(OpenFault::OutOfMemory), leave(room)),
    }
}

// Tells what became of the gates, and hands the room's disk back.
fn finish<D: Disk + Drop, C: Clock + Drop, O: Sink>(
    ended: Ended<D, C>,
    out: &mut O,
) -> (ServeEnding, D)
    ensures told { ToldEnds ended.failed result.0 (O.sink out.old) (O.sink out.new)
        (served_text ended.served ended.accepted) }
    ensures disk { result.1 ≡ ended.room.desk.disk }
    ensures stays { Stays (standing (D.disk result.1) ended.room.desk) (D.disk result.1) }
    ensures since { CrashesSince (D.disk ended.room.desk.opened) (D.disk result.1) ended.room.desk.host.history
        ended.room.desk.doubt ended.room.desk.recovered ended.room.desk.faults ended.room.desk.doubted }
    ensures counted { ((D.disk ended.room.desk.opened).faults + ended.room.desk.faults ≤ (D.disk result.1).faults)
        ⊎ ((D.disk result.1).faults ≡ last_count) }
{
    let Ended {
        room,
        served,
        accepted,
        failed,
    } = ended;
    let ending = tell_run(failed, served, accepted, out);
    (ending, leave(room))
}

// The disk of a room. It keeps the room's history.
fn leave<D: Disk, C: Clock + Drop>(room: Room<D, C>) -> D
    ensures disk { result ≡ room.desk.disk }
    ensures stays { Stays (standing (D.disk result) room.desk) (D.disk result) }
    ensures since { CrashesSince (D.disk room.desk.opened) (D.disk result) room.desk.host.history room.desk.doubt
        room.desk.recovered room.desk.faults room.desk.doubted }
    ensures counted { ((D.disk room.desk.opened).faults + room.desk.faults ≤ (D.disk result).faults)
        ⊎ ((D.disk result).faults ≡ last_count) }
{
    let Room {
        desk,
        clock: _,
        operator: _,
    } = room;
    desk.into_disk()
}

// Tells that a gate failed; else prints how many links were served and how many entries were added.
fn tell_run<O: Sink>(failed: bool, served: u64, accepted: u64, out: &mut O) -> ServeEnding
    ensures { ToldEnds failed result (O.sink out.old) (O.sink out.new) (served_text served accepted) }
{
    if failed {
        return ServeEnding::GateFault;
    }
    match tell_count(b"served ", served, out) {
        Ok(()) => match tell_count(b"accepted ", accepted, out) {
            Ok(()) => ServeEnding::Done,
            Err(_) => ServeEnding::WriteFault,
        },
        Err(_) => ServeEnding::WriteFault,
    }
}
