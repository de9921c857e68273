//! A gate with the pass of the thread that serves it.

use crate::room::Room;
use tb_disk::Disk;
use tb_gates::Clock;
use tb_lock::Pass;

/// A gate with the pass of the thread that serves it.
pub struct Worker<D: Disk, C: Clock, G> {
    pub gate: G,
    pub pass: Pass<Room<D, C>>,
    /// How many links were served.
    pub served: u64,
    /// Whether the gate failed.
    pub failed: bool,
}
