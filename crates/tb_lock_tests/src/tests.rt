//! Turns of one thread, of two and of four, on the tally.
ghost use Rattle.std.specs.Prelude.{◌≡◌, ◌<◌, ◌^◌};
ghost use Rattle.tb_lock.specs.Passes.{IsPassOf, IsIdle};

use crate::tally::{Outcome, Tally, append, count};
use std::sync::Wait;
use std::test::Fail;
use std::thread::{Threads, join_mut};
use tb_lock::{Pass, TurnLock, Unserved};

fn append_all<R: Wait>(
    rt: &R,
    lock: &TurnLock<Tally>,
    pass: &mut Pass<Tally>,
    first: u64,
    count: u64,
)
    requires own { IsPassOf lock.now pass.old }
    requires idle { IsIdle pass.old }
    requires small { first < 2 ^ 32 }
    requires few { count < 2 ^ 32 }
    ensures own { IsPassOf lock.now pass.new }
    ensures idle { IsIdle pass.new }
{
    for i in 0..count {
        append(lock, rt, pass, first + i);
    }
}

#[test]
fn two_passes_append_in_turn(rt: HostRuntime) -> Result<(), Fail> {
    let Ok((lock, mut pass)) = TurnLock::new(rt.alloc(), Tally::new(rt.alloc(), 10, 0)) else {
        panic!(rt; "no memory")
    };
    let mut other = lock.split(&mut pass);
    assert!(rt; append(&lock, &rt, &mut pass, 7) == Outcome::Accepted);
    assert!(rt; append(&lock, &rt, &mut other, 8) == Outcome::Accepted);
    lock.join(&mut pass, other);
    let Ok(tally) = lock.close(pass) else {
        panic!(rt; "a turn is out")
    };
    assert!(rt; tally.numbers.as_slice() == [7, 8].as_slice() && tally.faults == 0);
    Ok(())
}

#[test]
fn a_turn_without_an_end_is_unserved(rt: HostRuntime) -> Result<(), Fail> {
    let Ok((lock, mut pass)) = TurnLock::new(rt.alloc(), Tally::new(rt.alloc(), 10, 0)) else {
        panic!(rt; "no memory")
    };
    assert!(rt; pass.idle());
    let _tally = lock.take(&rt, &mut pass);
    assert!(rt; !pass.idle());
    let Err(Unserved { ticket, serving }) = lock.close(pass) else {
        panic!(rt; "no turn is out")
    };
    assert!(rt; ticket == 1 && serving == 0);
    Ok(())
}

// Two threads, of which each appends so many numbers, the second those behind the first one's.
fn append_both<R: Threads + Wait + Sync>(
    rt: &R,
    lock: &TurnLock<Tally>,
    pass: &mut Pass<Tally>,
    other: &mut Pass<Tally>,
    first: u64,
    count: u64,
)
    requires own { IsPassOf lock.now pass.old × IsPassOf lock.now other.old }
    requires idle { IsIdle pass.old × IsIdle other.old }
    requires small { first < 2 ^ 31 }
    requires few { count < 2 ^ 31 }
    ensures own { IsPassOf lock.now pass.new × IsPassOf lock.now other.new }
    ensures idle { IsIdle pass.new × IsIdle other.new }
{
    join_mut(
        rt,
        &mut || append_all(rt, lock, pass, first, count),
        &mut || append_all(rt, lock, other, first + count, count),
    );
}

// Whether so many numbers from the first on stand among the others in their order, each once.
fn stands_in_order(numbers: &[u64], first: u64, count: u64) -> bool {
    let mut next = first;
    for number in numbers {
        if number.wrapping_sub(first) < count {
            if *number != next {
                return false;
            }
            next = next.wrapping_add(1);
        }
    }
    next == first.wrapping_add(count)
}

#[test]
fn two_threads_append_in_their_own_order(rt: HostRuntime) -> Result<(), Fail> {
    let Ok((lock, mut pass)) = TurnLock::new(rt.alloc(), Tally::new(rt.alloc(), 4000, 0)) else {
        panic!(rt; "no memory")
    };
    let mut other = lock.split(&mut pass);
    append_both(&rt, &lock, &mut pass, &mut other, 0, 1000);
    lock.join(&mut pass, other);
    let Ok(tally) = lock.close(pass) else {
        panic!(rt; "a turn is out")
    };
    assert!(rt; tally.numbers.len() == 2000);
    assert!(rt; stands_in_order(&tally.numbers, 0, 1000));
    assert!(rt; stands_in_order(&tally.numbers, 1000, 1000));
    Ok(())
}

// Of four that wait, those behind the next in line sleep.
#[test]
fn four_threads_append_in_their_own_order(rt: HostRuntime) -> Result<(), Fail> {
    let Ok((lock, mut pass)) = TurnLock::new(rt.alloc(), Tally::new(rt.alloc(), 4000, 0)) else {
        panic!(rt; "no memory")
    };
    let mut second = lock.split(&mut pass);
    let mut third = lock.split(&mut pass);
    let mut fourth = lock.split(&mut second);
    let shared = &lock;
    join_mut(
        &rt,
        &mut || append_both(&rt, shared, &mut pass, &mut second, 0, 500),
        &mut || append_both(&rt, shared, &mut third, &mut fourth, 1000, 500),
    );
    lock.join(&mut pass, second);
    lock.join(&mut pass, third);
    lock.join(&mut pass, fourth);
    let Ok(tally) = lock.close(pass) else {
        panic!(rt; "a turn is out")
    };
    assert!(rt; tally.numbers.len() == 2000);
    assert!(rt; stands_in_order(&tally.numbers, 0, 500));
    assert!(rt; stands_in_order(&tally.numbers, 500, 500));
    assert!(rt; stands_in_order(&tally.numbers, 1000, 500));
    assert!(rt; stands_in_order(&tally.numbers, 1500, 500));
    Ok(())
}

// Whether a number is answered so, and how many numbers there are then.
fn is_answered<R: Wait>(
    rt: &R,
    lock: &TurnLock<Tally>,
    pass: &mut Pass<Tally>,
    number: u64,
    outcome: Outcome,
    entries: u64,
) -> bool
    requires own { IsPassOf lock.now pass.old }
    requires idle { IsIdle pass.old }
    ensures own { IsPassOf lock.now pass.new }
    ensures idle { IsIdle pass.new }
{
    let found = append(lock, rt, pass, number);
    count(lock, rt, pass) == entries && found == outcome
}

#[test]
fn a_number_that_meets_a_fault_is_in_doubt(rt: HostRuntime) -> Result<(), Fail> {
    // The second reading of the clock fails, and there is room for three numbers.
    let Ok((lock, mut pass)) = TurnLock::new(rt.alloc(), Tally::new(rt.alloc(), 3, 2)) else {
        panic!(rt; "no memory")
    };
    assert!(rt; is_answered(&rt, &lock, &mut pass, 7, Outcome::Accepted, 1));
    assert!(rt; is_answered(&rt, &lock, &mut pass, 8, Outcome::Faulted, 1));
    // The 8 stands from this turn on.
    assert!(rt; is_answered(&rt, &lock, &mut pass, 7, Outcome::Repeated, 2));
    assert!(rt; is_answered(&rt, &lock, &mut pass, 9, Outcome::Accepted, 3));
    // There is no room for the 5, nor for it as the group in doubt.
    assert!(rt; is_answered(&rt, &lock, &mut pass, 5, Outcome::Faulted, 3));
    assert!(rt; is_answered(&rt, &lock, &mut pass, 8, Outcome::Repeated, 3));
    let Ok(tally) = lock.close(pass) else {
        panic!(rt; "a turn is out")
    };
    assert!(rt; tally.numbers.as_slice() == [7, 8, 9].as_slice());
    assert!(rt; tally.doubt.is_none() && tally.faults == 2 && tally.clock == 6);
    Ok(())
}
