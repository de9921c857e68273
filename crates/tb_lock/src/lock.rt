//! The lock and its calls.
ghost use Rattle.std.specs.Prelude.{◌≡◌, ◌≢◌, ◌-◌, ◌^◌, ◌≤◌, [], Some, IfOk, IfErr, IsOk, IsErr, IsSome};

use crate::annals::{Annals, Told};
use crate::bells::Bells;
use crate::pass::Pass;
use crate::rule::{Both, Halves, Order};
use crate::view::View;
use atomic_table::{Refused, Seat, Table};
use std::alloc::Global;
use std::marker::Brand;
use std::snapshot::Snapshot;
use std::sync::Wait;
use tb_units::OutOfMemory;

/// A value that is taken in turns.
pub struct TurnLock<T: Annals> {
    pub(crate) table: Table<Option<T>, View, Snapshot<T>, Order, Global>,
    pub(crate) bells: Bells,
    ghost sized: { (table.shared.table_id.words ≡ 4) × (table.shared.table_id.slots ≡ 1) },
}

/// A turn was still out when the lock was closed: the numbers of the next ticket and of the turn.
#[derive(Debug, Drop)]
pub struct Unserved {
    pub ticket: u64,
    pub serving: u64,
}

impl<T: Annals> TurnLock<T> {
    ghost use Rattle.tb_lock.specs.Views.{newcomer, kept_half, given_half, joined};
    ghost use Rattle.tb_lock.specs.Turns.{IsTaken, MayGive, calls_of, given, Closes, AreOut};
    ghost use Rattle.tb_lock.specs.Passes.{IsPassOf, IsSeatOf, IsIdle, HoldsTurn, view};
    ghost use Rattle.tb_lock.specs.Closing.{IsLeft};

    /// A lock round the value, and its first pass, which has the whole share.
    pub fn new(alloc: Global, value: T) -> Result<(TurnLock<T>, Pass<T>), (T, OutOfMemory)>
        requires no_doubt { T.means.doubt value ≡ [] }
        ensures own { IfOk result (λ made. IsPassOf made.0 made.1) }
        ensures idle { IfOk result (λ made. IsIdle made.1) }
        ensures first { IfOk result (λ made. view made.1 ≡ newcomer T.means value) }
        ensures back { IfErr result (λ failed. failed.0 ≡ value) }
    {
        let mut slots = Vec::new(alloc);
        if let Err(_) = slots.reserve(1) {
            slots.destroy_empty();
            return Err((value, OutOfMemory));
        }
        let given = Snapshot::of(&value);
        let entries = value.entries();
        let faults = value.faults();
        slots.push_reserved(Some(value));
        match Table::new(alloc, &[0, 0, entries, faults], slots, &given) {
            Ok((table, seat)) => Ok((
                TurnLock {
                    table,
                    bells: Bells::new(),
                },
                Pass {
                    seat,
                    holds: false,
                    entries: 0,
                    faults: 0,
                },
            )),
            Err(Refused { mut slots }) => {
                let Some(Some(value)) = slots.pop() else {
                    unreachable!()
                };
                slots.destroy_empty();
                Err((value, OutOfMemory))
            }
        }
    }

    /// A second pass, with half of the share, rounded down. It has seen what the first has.
    pub fn split(&self, pass: &mut Pass<T>) -> Pass<T>
        requires own { IsPassOf self.now pass.old }
        requires idle { IsIdle pass.old }
        requires two { 2 ≤ (view pass.old).share }
        ensures own { IsPassOf self.now pass.new × IsPassOf self.now result }
        ensures idle { IsIdle pass.new × IsIdle result }
        ensures kept { view pass.new ≡ kept_half (view pass.old) }
        ensures given { view result ≡ given_half (view pass.old) }
    {
        let seat = self.table.shared.split_seat::<Halves>(&mut pass.seat);
        Pass {
            seat,
            holds: false,
            entries: 0,
            faults: 0,
        }
    }

    /// Ends the other pass: its share goes to the pass that is kept.
    pub fn join(&self, pass: &mut Pass<T>, other: Pass<T>)
        requires own { IsPassOf self.now pass.old × IsPassOf self.now other }
        requires idle { IsIdle pass.old × IsIdle other }
        ensures own { IsPassOf self.now pass.new }
        ensures idle { IsIdle pass.new }
        ensures joined { view pass.new ≡ joined (view pass.old) (view other) }
    {
        let Pass {
            seat,
            holds: _,
            entries: _,
            faults: _,
        } = other;
        self.table.shared.join_seat::<Both>(&mut pass.seat, seat);
    }

    /// Waits for a turn, and takes the value.
    pub fn take<R: Wait>(&self, rt: &R, pass: &mut Pass<T>) -> T
        requires own { IsPassOf self.now pass.old }
        requires idle { IsIdle pass.old }
        ensures own { IsPassOf self.now pass.new }
        ensures holds { HoldsTurn pass.new }
        ensures taken { IsTaken T.means (view pass.old) (view pass.new) result }
    {
        let ticket = self.draw(&mut pass.seat);
        self.await_turn(rt, &mut pass.seat, ticket);
        pass.faults = self.look_at_faults(&mut pass.seat);
        let value = self.take_value(&mut pass.seat);
        pass.entries = value.entries();
        pass.holds = true;
        value
    }

    /// Gives the value back, and ends the turn, in which these calls were made.
    pub fn give<N: Told>(&self, pass: &mut Pass<T>, value: T, told: &N)
        requires own { IsPassOf self.now pass.old }
        requires holds { HoldsTurn pass.old }
        requires may { let calls = calls_of T.means (view pass.old) value (N.calls told.now) in
            MayGive T.means (view pass.old) calls value }
        ensures own { IsPassOf self.now pass.new }
        ensures idle { IsIdle pass.new }
        ensures given { let calls = calls_of T.means (view pass.old) value (N.calls told.now) in
            view pass.new ≡ given T.means (view pass.old) calls value }
    {
        let faults = value.faults() - pass.faults;
        let entries = value.entries() - pass.entries;
        self.end_turn::<Brand, N>(&mut pass.seat, value, faults, entries, told);
        pass.holds = false;
    }

    /// The value, where no turn is out. The lock and the pass are given up.
    pub fn close(self, last: Pass<T>) -> Result<T, Unserved>
    where
        T: Drop,
        requires own { IsPassOf self last }
        ensures home { IfOk result (λ value. Closes T.means (view last) value) }
        ensures whole { IsIdle last → (view last).share ≡ 2 ^ 64 - 1 → IsOk result }
        ensures out { HoldsTurn last → IsErr result }
        ensures unserved { IfErr result (λ words. words.ticket ≢ words.serving) }
        ensures tickets { IfErr result (λ words. AreOut (view last) words.ticket words.serving) }
    {
        let Pass {
            seat,
            holds: _,
            entries: _,
            faults: _,
        } = last;
        let left = self.shut(seat);
        served_value(left.0, left.1)
    }

    // Ends the table: its two words of tickets, and what stands in its slot.
    fn shut(self, seat: Seat<Option<T>, View>) -> (Unserved, Option<T>)
        requires own { IsSeatOf self seat }
        ensures left { IsLeft T.means seat.id seat.me.0 result.0.ticket result.0.serving result.1 }
    {
        let TurnLock { table, bells: _ } = self;
        let mut closed = table.close_with(seat);
        let ticket = closed.word(0);
        let serving = closed.word(1);
        let slot = closed.take(0);
        closed.free();
        (Unserved { ticket, serving }, slot)
    }
}

// The value in the slot, exactly where the two words are equal.
fn served_value<T: Drop>(words: Unserved, slot: Option<T>) -> Result<T, Unserved>
    requires home { words.ticket ≡ words.serving → IsSome slot }
    ensures served { IfOk result (λ value. (words.ticket ≡ words.serving) × (slot ≡ Some value)) }
    ensures unserved { IfErr result (λ told. (words.ticket ≢ words.serving) × (told ≡ words)) }
{
    if words.ticket != words.serving {
        return Err(words);
    }
    match slot {
        Some(value) => Ok(value),
        None => unreachable!(),
    }
}
