//! What the lock carries: a desk with its clock and the operator's name.

use tb_desk::Desk;
use tb_disk::Disk;
use tb_gates::Clock;
use tb_lock::Annals;
use tb_units::Ident;

/// A desk, the clock that it is read by, and the name behind `op:` that is the operator's key.
#[derive(Drop)]
pub struct Room<D: Disk, C: Clock> {
    pub desk: Desk<D>,
    pub clock: C,
    pub operator: Ident,
}

impl<D: Disk, C: Clock> Annals for Room<D, C> {
    ghost use Rattle.tb_session.specs.Rooms.{room_means, room_repeats};

    ghost means = { room_means D.disk C.clock };

    ghost repeats_stand = { room_repeats D.disk C.clock };

    fn entries(&self) -> u64 {
        self.desk.entries()
    }

    fn faults(&self) -> u64 {
        self.desk.faults()
    }
}
