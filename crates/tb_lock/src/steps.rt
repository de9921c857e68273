//! Each kind of step on the table, one small function each.
ghost use Rattle.std.specs.Prelude.{◌≡◌, ◌≢◌, ℕ, ◌%◌, ◌^◌, ◌<◌, ◌+◌, true, false, [], ◌∷◌, Some, None};
ghost use Rattle.tb_lock.specs.declared.view.Stage.TheVariants.{Idle, Waiting, Come, Holding, Raised, Counted};
ghost use Rattle.tb_lock.specs.Views.{IsLive, at_stage, raised};
ghost use Rattle.tb_lock.specs.Steps.{Takes, MayCount};
ghost use Rattle.tb_lock.specs.Turns.{counted};

use crate::annals::{Annals, Named};
use crate::lock::TurnLock;
use crate::rule::{Draw, LookAtFaults, LookAtServing, PassOn, RaiseCount, RaiseFaults};
use crate::view::View;
use atomic_table::Seat;

const TICKET: usize = 0;

const SERVING: usize = 1;

const COUNT: usize = 2;

const FAULTS: usize = 3;

impl<T: Annals> TurnLock<T> {
    ghost use Rattle.tb_lock.specs.Passes.{IsSeatOf};

    // Draws a ticket, and answers its number.
    pub(crate) fn draw(&self, seat: &mut Seat<Option<T>, View>) -> u64
        requires own { IsSeatOf self.now seat.old }
        requires idle { (seat.old.me.0.stage ≡ Idle) × (seat.old.me.1 ≡ []) }
        requires live { IsLive seat.old.me.0 }
        ensures own { IsSeatOf self.now seat.new }
        ensures drawn { (n : ℕ) × (result ≡ n % 2 ^ 64) × (seat.new.me ≡ (at_stage (Waiting n) seat.old.me.0, [])) }
    {
        self.table.shared.fetch_add::<Draw>(seat, TICKET, 1)
    }

    // The ticket whose turn it is.
    pub(crate) fn look_at_serving(&self, seat: &mut Seat<Option<T>, View>, ticket: u64) -> u64
        requires own { IsSeatOf self.now seat.old }
        requires waits { (n : ℕ) × (ticket ≡ n % 2 ^ 64) × (seat.old.me.0.stage ≡ Waiting n) }
        ensures own { IsSeatOf self.now seat.new }
        ensures come { result ≡ ticket → (n : ℕ) × (seat.new.me ≡ (at_stage (Come n) seat.old.me.0, seat.old.me.1)) }
        ensures not_yet { result ≢ ticket → seat.new.me ≡ seat.old.me }
    {
        self.table.shared.load::<LookAtServing>(seat, SERVING)
    }

    // Looks at the count of faults, and with it takes the slot.
    pub(crate) fn look_at_faults(&self, seat: &mut Seat<Option<T>, View>) -> u64
        requires own { IsSeatOf self.now seat.old }
        requires come { (n : ℕ) × (seat.old.me.0.stage ≡ Come n) }
        ensures own { IsSeatOf self.now seat.new }
        ensures taken { (n : ℕ) × Takes T.means n result seat.old.me seat.new.me }
    {
        self.table.shared.load::<LookAtFaults>(seat, FAULTS)
    }

    // Takes the value out of the slot.
    pub(crate) fn take_value(&self, seat: &mut Seat<Option<T>, View>) -> T
        requires own { IsSeatOf self.now seat.old }
        requires carried { (x : T) × (seat.old.me.1 ≡ (0, Some x) ∷ []) }
        ensures own { IsSeatOf self.now seat.new }
        ensures value { seat.old.me.1 ≡ (0, Some result) ∷ [] }
        ensures taken { seat.new.me ≡ (seat.old.me.0, (0, None) ∷ []) }
    {
        match self.table.shared.exchange(seat, 0, None) {
            Some(value) => value,
            None => unreachable!(),
        }
    }

    // Puts the value back into the slot.
    pub(crate) fn put_back(&self, seat: &mut Seat<Option<T>, View>, value: T)
        requires own { IsSeatOf self.now seat.old }
        requires carried { seat.old.me.1 ≡ (0, None) ∷ [] }
        ensures own { IsSeatOf self.now seat.new }
        ensures back { seat.new.me ≡ (seat.old.me.0, (0, Some value) ∷ []) }
    {
        match self.table.shared.exchange(seat, 0, Some(value)) {
            None => {}
            Some(_) => unreachable!(),
        }
    }

    // Raises the faults by the new ones.
    pub(crate) fn raise_faults(&self, seat: &mut Seat<Option<T>, View>, faults: u64)
        requires own { IsSeatOf self.now seat.old }
        requires holds { (n : ℕ) × (seat.old.me.0.stage ≡ Holding n) }
        requires fits { seat.old.me.0.faults + faults < 2 ^ 64 }
        ensures own { IsSeatOf self.now seat.new }
        ensures raised { (n : ℕ) → seat.old.me.0.stage ≡ Holding n
            → seat.new.me ≡ (raised n faults seat.old.me.0, seat.old.me.1) }
    {
        self.table
            .shared
            .fetch_add::<RaiseFaults>(seat, FAULTS, faults);
    }

    // Raises the count by the new entries. With it the calls are made, and the value is at home.
    pub(crate) fn raise_count<K: Named>(&self, seat: &mut Seat<Option<T>, View>, entries: u64)
        requires own { IsSeatOf self.now seat.old }
        requires may { MayCount T.means K.calls entries seat.old.me }
        ensures own { IsSeatOf self.now seat.new }
        ensures counted { (n : ℕ) (x : T) → seat.old.me.0.stage ≡ Raised n → seat.old.me.1 ≡ (0, Some x) ∷ []
            → seat.new.me ≡ (counted T.means n seat.old.me.0 K.calls x, []) }
    {
        self.table
            .shared
            .fetch_add::<RaiseCount<K>>(seat, COUNT, entries);
    }

    // Lets the next ticket's turn come, and wakes who sleeps for it.
    pub(crate) fn pass_on(&self, seat: &mut Seat<Option<T>, View>)
        requires own { IsSeatOf self.now seat.old }
        requires counted { (n : ℕ) × (seat.old.me.0.stage ≡ Counted n) }
        ensures own { IsSeatOf self.now seat.new }
        ensures idle { seat.new.me ≡ (at_stage Idle seat.old.me.0, seat.old.me.1) }
    {
        let served = self.table.shared.fetch_add::<PassOn>(seat, SERVING, 1);
        self.bells.ring(served.wrapping_add(1));
    }
}
