//! All links of a gate.
ghost use Rattle.std.specs.Prelude.{◌≤◌};
ghost use Rattle.tb_gates.specs.Gates.{most_links};
ghost use Rattle.tb_session.specs.Work.{IsReady, Works};

use crate::room::Room;
use crate::session::serve_link;
use crate::worker::Worker;
use std::alloc::Global;
use std::sync::Wait;
use tb_disk::Disk;
use tb_gates::{Clock, Gate};
use tb_lock::TurnLock;

/// Serves the gate's links one after the other, until none is left or the gate fails.
pub fn work<D: Disk, C: Clock, G: Gate, R: Wait>(
    rt: &R,
    alloc: Global,
    shared: &TurnLock<Room<D, C>>,
    worker: &mut Worker<D, C, G>,
)
    requires ready { IsReady shared.now worker.old }
    requires few { worker.old.served ≤ most_links }
    ensures ready { IsReady shared.now worker.new }
    ensures works { Works G.gate G.Conn.source G.Conn.sink worker.old worker.new }
{
    for _ in rt.forever() {
        match worker.gate.next() {
            Ok(Some(mut link)) => {
                let _ended = serve_link(rt, alloc, shared, &mut worker.pass, &mut link);
                worker.gate.done(link);
                worker.served += 1;
            }
            Ok(None) => {
                worker.failed = false;
                return;
            }
            Err(_) => {
                worker.failed = true;
                return;
            }
        }
    }
    unreachable!()
}
