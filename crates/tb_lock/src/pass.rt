//! The right to take turns at one lock.
ghost use Rattle.std.specs.Prelude.{◌≡◌, ◌↔◌, IsTrue, true, false, [], ◌∷◌, length, None};
ghost use Rattle.tb_lock.specs.declared.view.Stage.TheVariants.{Idle};
ghost use Rattle.tb_lock.specs.Views.{IsLive, is_holding};

use crate::view::View;
use atomic_table::Seat;

/// A pass has no `Drop`: give it to `join` or to `close`.
pub struct Pass<T> {
    pub(crate) seat: Seat<Option<T>, View>,
    pub(crate) holds: bool,
    // How many entries the value had when it was taken.
    pub(crate) entries: u64,
    // And its count of faults.
    pub(crate) faults: u64,
    ghost rests: { holds ≡ false → (seat.me.0.stage ≡ Idle) × (seat.me.1 ≡ []) },
    ghost live: { IsLive seat.me.0 },
    ghost held: { holds ≡ true → (is_holding seat.me.0.stage ≡ true) × (seat.me.1 ≡ (0, None) ∷ []) },
    ghost counted: { holds ≡ true → entries ≡ length seat.me.0.seen },
    ghost failed: { holds ≡ true → (faults ≡ seat.me.0.faults_taken) × (seat.me.0.faults ≡ seat.me.0.faults_taken) },
}

impl<T> Pass<T> {
    ghost use Rattle.tb_lock.specs.Passes.{IsIdle};

    /// Whether the pass is between turns.
    pub fn idle(&self) -> bool
        ensures { IsTrue result ↔ IsIdle self.now }
    {
        !self.holds
    }
}
