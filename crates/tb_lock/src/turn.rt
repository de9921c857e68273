//! The beginning and the end of a turn.
ghost use Rattle.std.specs.Prelude.{◌≡◌, ℕ, ◌%◌, ◌+◌, ◌<◌, ◌^◌, [], ◌∷◌, length, None};
ghost use Rattle.tb_lock.specs.declared.view.Stage.TheVariants.{Waiting, Come, Holding};
ghost use Rattle.tb_lock.specs.Views.{at_stage};
ghost use Rattle.tb_lock.specs.Turns.{MayGive, HaveCounts, given};

use crate::annals::{Annals, Named};
use crate::lock::TurnLock;
use crate::view::View;
use atomic_table::Seat;
use std::sync::Wait;

impl<T: Annals> TurnLock<T> {
    ghost use Rattle.tb_lock.specs.Passes.{IsSeatOf};

    // Waits until the ticket's turn has come.
    //
    // Whoever waits sleeps at once, also the next in line. One that looks again and again, or yields, would be sooner
    // by what it takes to rouse a sleeper. But where other programs keep the machine busy, each yield gives one of them
    // a whole slice, and all that wait here wait for that too.
    //
    // Who sleeps is woken. The bell's count is read before the look at serving, and the bell rings behind the step on
    // serving: where the look came before that step, the ring is past the count that was read. So it ends the sleep, or
    // the sleep doesn't begin.
    pub(crate) fn await_turn<R: Wait>(&self, rt: &R, seat: &mut Seat<Option<T>, View>, ticket: u64)
        requires own { IsSeatOf self.now seat.old }
        requires waits { (n : ℕ) × (ticket ≡ n % 2 ^ 64) × (seat.old.me.0.stage ≡ Waiting n) }
        ensures own { IsSeatOf self.now seat.new }
        ensures come { (n : ℕ) × (seat.new.me ≡ (at_stage (Come n) seat.old.me.0, seat.old.me.1)) }
    {
        for _ in rt.forever() {
            let rung = self.bells.rung(ticket);
            if self.look_at_serving(seat, ticket) == ticket {
                return;
            }
            self.bells.sleep(rt, ticket, rung);
        }
        unreachable!()
    }

    // Gives the value back. The calls of the turn are those of `K`, which the caller's proof picks
    // by what is told.
    pub(crate) fn end_turn<K: Named, N>(
        &self,
        seat: &mut Seat<Option<T>, View>,
        value: T,
        faults: u64,
        entries: u64,
        _told: &N,
    )
        requires own { IsSeatOf self.now seat.old }
        requires holds { (n : ℕ) × (seat.old.me.0.stage ≡ Holding n) × (seat.old.me.1 ≡ (0, None) ∷ []) }
        requires entries { (entries + length seat.old.me.0.seen ≡ length (T.means.history value))
            × (length (T.means.history value) < 2 ^ 64) }
        requires faults { (faults + seat.old.me.0.faults ≡ T.means.faults value) × (T.means.faults value < 2 ^ 64) }
        requires may { MayGive T.means seat.old.me.0 K.calls value }
        requires counts { HaveCounts T.means seat.old.me.0 value K.calls }
        ensures own { IsSeatOf self.now seat.new }
        ensures idle { seat.new.me ≡ (given T.means seat.old.me.0 K.calls value, []) }
    {
        self.put_back(seat, value);
        self.raise_faults(seat, faults);
        self.raise_count::<K>(seat, entries);
        self.pass_on(seat);
    }
}
