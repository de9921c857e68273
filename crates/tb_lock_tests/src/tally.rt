//! A small value under the lock: numbers in the order in which they came, each once.
//!
//! It stands beside the tests and not among them, since the wrong bodies of `must-fail/` are tried without tests.
ghost use Rattle.std.specs.Prelude.{◌≡◌, ◌≤◌, [], None};
ghost use Rattle.tb_lock.specs.Turns.{IsReadBetween};
ghost use Rattle.tb_lock.specs.Passes.{IsPassOf, IsIdle, view};
ghost use Rattle.tb_lock_tests.specs.Tally.{Adds, HasAdded, HasRead, Settles};

use std::alloc::Global;
use std::sync::Wait;
use tb_lock::{Annals, Pass, Told, TurnLock};

/// Its clock gives how often it was read.
///
/// A number that finds no room, or that comes at the reading named by `fails` (0: at none), meets a fault and is in
/// doubt: the next turn that adds a number lets it stand where there is room, and drops it where there is none.
#[derive(Drop)]
pub struct Tally {
    pub numbers: Vec<u64>,
    pub doubt: Option<u64>,
    pub room: usize,
    pub fails: u64,
    pub faults: u64,
    pub clock: u64,
}

impl Annals for Tally {
    ghost use Rattle.tb_lock_tests.specs.Tally.{tally_means, tally_repeats};

    ghost means = { tally_means };

    ghost repeats_stand = { tally_repeats };

    fn entries(&self) -> u64 {
        self.numbers.len() as u64
    }

    fn faults(&self) -> u64 {
        self.faults
    }
}

/// How a number was answered: added, there already, or met a fault.
#[derive(Clone, Copy, Debug, PartialEq, Eq)]
pub enum Outcome {
    Accepted,
    Repeated,
    Faulted,
}

/// A call that adds a number, at a moment, behind so many entries.
#[derive(Drop)]
pub struct Addition {
    pub number: u64,
    pub moment: u64,
    pub before: u64,
    pub outcome: Outcome,
}

impl Told for Addition {
    ghost use Rattle.tb_lock_tests.specs.Tally.{addition_of};

    ghost calls = { addition_of };
}

/// A call that asks how many entries there are, and adds none.
#[derive(Drop)]
pub struct Reading {
    pub entries: u64,
}

impl Told for Reading {
    ghost use Rattle.tb_lock_tests.specs.Tally.{reading_of};

    ghost calls = { reading_of };
}

// One more, or the last value.
fn counted_on(count: u64) -> u64
    ensures read { IsReadBetween count result }
    ensures rose { count ≤ result }
{
    count.saturating_add(1)
}

impl Tally {
    pub fn new(alloc: Global, room: usize, fails: u64) -> Tally
        ensures empty { (result.numbers.items ≡ []) × (result.doubt ≡ None) }
        ensures given { (result.room ≡ room) × (result.fails ≡ fails) }
        ensures counts { (result.faults ≡ 0) × (result.clock ≡ 0) }
    {
        Tally {
            numbers: Vec::new(alloc),
            doubt: None,
            room,
            fails,
            faults: 0,
            clock: 0,
        }
    }

    // Lets the number in doubt stand, or drops it.
    fn settle(&mut self)
        ensures { Settles self.old self.new }
    {
        if let Some(number) = self.doubt {
            if self.numbers.len() < self.room {
                let _kept = self.numbers.push(number).is_ok();
            }
        }
        self.doubt = None;
    }

    fn add(&mut self, number: u64) -> Outcome
        requires { self.old.doubt ≡ None }
        ensures { Adds result self.old self.new number }
    {
        if self.numbers.as_slice().contains(&number) {
            return Outcome::Repeated;
        }
        if self.numbers.len() < self.room
            && self.clock != self.fails
            && self.numbers.push(number).is_ok()
        {
            return Outcome::Accepted;
        }
        self.faults = counted_on(self.faults);
        self.doubt = Some(number);
        Outcome::Faulted
    }
}

/// Adds a number in a turn of its own.
pub fn append<R: Wait>(
    lock: &TurnLock<Tally>,
    rt: &R,
    pass: &mut Pass<Tally>,
    number: u64,
) -> Outcome
    requires own { IsPassOf lock.now pass.old }
    requires idle { IsIdle pass.old }
    ensures own { IsPassOf lock.now pass.new }
    ensures idle { IsIdle pass.new }
    ensures made { HasAdded (view pass.old) (view pass.new) number result }
{
    let mut tally = lock.take(rt, pass);
    tally.settle();
    tally.clock = counted_on(tally.clock);
    let before = tally.numbers.len() as u64;
    let outcome = tally.add(number);
    let told = Addition {
        number,
        moment: tally.clock,
        before,
        outcome,
    };
    lock.give(pass, tally, &told);
    outcome
}

/// How many numbers there are.
pub fn count<R: Wait>(lock: &TurnLock<Tally>, rt: &R, pass: &mut Pass<Tally>) -> u64
    requires own { IsPassOf lock.now pass.old }
    requires idle { IsIdle pass.old }
    ensures own { IsPassOf lock.now pass.new }
    ensures idle { IsIdle pass.new }
    ensures made { HasRead (view pass.old) (view pass.new) result }
{
    let tally = lock.take(rt, pass);
    let entries = tally.numbers.len() as u64;
    lock.give(pass, tally, &Reading { entries });
    entries
}
