//! Several gates, each with a worker of its own, over one room.
ghost use Rattle.std.specs.Prelude.{◌≡◌, ◌<◌, ◌≤◌, ◌+◌, ◌*◌, ◌^◌, ◌++◌, [], ℕ, All, length, map, flat_map, sum_by, vec_len, vec_capacity, slice_index_or, IfOk, IfErr, OnErr};
ghost use Rattle.std.specs.List.{list_any};
ghost use Rattle.tb_gates.specs.Gates.{most_links};
ghost use Rattle.tb_lock.specs.Passes.{IsPassOf, IsIdle, view};
ghost use Rattle.tb_session.specs.Work.{IsReady};
ghost use Rattle.tb_session.specs.Serve.{IsHired, WorkedOn, SameLock, share_of, served_of, failed_of, calls_with, spans_with, Turns, ServesAll};

use crate::links::work;
use crate::room::Room;
use crate::worker::Worker;
use std::alloc::Global;
use std::sync::Wait;
use std::thread;
use std::thread::Threads;
use tb_disk::Disk;
use tb_gates::{Clock, Gate};
use tb_lock::{Pass, TurnLock};
use tb_units::OutOfMemory;

// Makes a worker for each gate, with a part of the share.
fn hire<D: Disk, C: Clock, G: Gate>(
    shared: &TurnLock<Room<D, C>>,
    pass: &mut Pass<Room<D, C>>,
    gates: &mut Vec<G>,
    workers: &mut Vec<Worker<D, C, G>>,
)
    requires own { IsPassOf shared.now pass.old }
    requires idle { IsIdle pass.old }
    requires share { 2 ^ vec_len gates.old < 2 * (view pass.old).share }
    requires room { (workers.old.items ≡ []) × (vec_len gates.old ≤ vec_capacity workers.old) }
    ensures own { IsPassOf shared.now pass.new }
    ensures idle { IsIdle pass.new }
    ensures gates { map (λ w. w.gate) workers.new.items ≡ gates.old.items }
    ensures emptied { (gates.new.items ≡ []) × (vec_capacity gates.new ≡ vec_capacity gates.old) }
    ensures hired { All (IsHired shared.now (view pass.old)) workers.new.items }
    ensures share { sum_by share_of workers.new.items + (view pass.new).share ≡ (view pass.old).share }
    ensures same { SameLock (view pass.old) (view pass.new) × ((view pass.new).mine ≡ (view pass.old).mine)
        × ((view pass.new).spans ≡ (view pass.old).spans) }
{
    while !gates.is_empty() {
        let gate = gates.remove(0);
        let part = shared.split(pass);
        workers.push_reserved(Worker {
            gate,
            pass: part,
            served: 0,
            failed: false,
        });
    }
}

// Each worker serves its gate, side by side.
fn work_all<D: Disk + Send, C: Clock + Send, G: Gate + Send, R: Threads + Wait + Sync>(
    rt: &R,
    alloc: Global,
    shared: &TurnLock<Room<D, C>>,
    workers: &mut [Worker<D, C, G>],
)
    requires ready { All (IsReady shared.now) workers.old }
    requires few { All (λ w. w.served ≤ most_links) workers.old }
    ensures worked { (i : ℕ) (d : _) → i < length workers.old
        → WorkedOn G.gate G.Conn.source G.Conn.sink shared.now
        (slice_index_or workers.old i d) (slice_index_or workers.new i d) }
{
    if workers.is_empty() {
        return;
    }
    let count = workers.len();
    thread::for_each_mut(
        rt,
        workers,
        count,
        &|_: usize, worker: &mut Worker<D, C, G>|
            requires { IsReady shared.now worker.now × (worker.now.served ≤ most_links) }
            ensures { WorkedOn G.gate G.Conn.source G.Conn.sink shared.entry.now worker.entry.now worker.exit.now }
        { work(rt, alloc, shared, worker) },
    );
}

// Takes the workers apart again, in the order of their gates: how many links they served, and whether a gate failed.
fn dismiss<D: Disk, C: Clock, G: Gate>(
    shared: &TurnLock<Room<D, C>>,
    pass: &mut Pass<Room<D, C>>,
    mut workers: Vec<Worker<D, C, G>>,
    gates: &mut Vec<G>,
) -> (u64, bool)
    requires own { IsPassOf shared.now pass.old }
    requires idle { IsIdle pass.old }
    requires ready { All (IsReady shared.now) workers.items }
    requires room { (gates.old.items ≡ []) × (vec_len workers ≤ vec_capacity gates.old) }
    requires few { sum_by served_of workers.items < 2 ^ 64 }
    ensures own { IsPassOf shared.now pass.new }
    ensures idle { IsIdle pass.new }
    ensures gates { gates.new.items ≡ map (λ w. w.gate) workers.items }
    ensures share { (view pass.new).share ≡ (view pass.old).share + sum_by share_of workers.items }
    ensures mine { (view pass.new).mine ≡ (view pass.old).mine ++ flat_map calls_with workers.items }
    ensures spans { (view pass.new).spans ≡ (view pass.old).spans ++ flat_map spans_with workers.items }
    ensures same { SameLock (view pass.old) (view pass.new) }
    ensures served { result.0 ≡ sum_by served_of workers.items }
    ensures failed { result.1 ≡ list_any failed_of workers.items }
{
    let mut total = 0;
    let mut one_failed = false;
    while !workers.is_empty() {
        let Worker {
            gate,
            pass: part,
            served,
            failed,
        } = workers.remove(0);
        total += served;
        one_failed |= failed;
        shared.join(pass, part);
        gates.push_reserved(gate);
    }
    workers.destroy_empty();
    (total, one_failed)
}

// Lets each gate be served by a worker of its own. The pass has its whole share again, and all their calls
// and turns.
fn turns<D: Disk + Send, C: Clock + Send, G: Gate + Send, R: Threads + Wait + Sync>(
    rt: &R,
    alloc: Global,
    shared: &TurnLock<Room<D, C>>,
    pass: &mut Pass<Room<D, C>>,
    gates: &mut Vec<G>,
    mut workers: Vec<Worker<D, C, G>>,
) -> (u64, bool)
    requires own { IsPassOf shared.now pass.old }
    requires idle { IsIdle pass.old }
    requires share { 2 ^ vec_len gates.old < 2 * (view pass.old).share }
    requires new { ((view pass.old).mine ≡ []) × ((view pass.old).spans ≡ []) }
    requires few { vec_len gates.old ≤ 64 }
    requires room { (workers.items ≡ []) × (vec_len gates.old ≤ vec_capacity workers) }
    ensures own { IsPassOf shared.now pass.new }
    ensures idle { IsIdle pass.new }
    ensures turns { Turns G.gate G.Conn.source G.Conn.sink (view pass.old) (view pass.new) gates.old.items
        gates.new.items result.0 result.1 }
{
    hire(shared, pass, gates, &mut workers);
    work_all(rt, alloc, shared, workers.as_mut_slice());
    dismiss(shared, pass, workers, gates)
}

/// A room after a run, with how many links were served, how much longer the history is, and whether a gate failed.
#[derive(Drop)]
pub struct Ended<D: Disk, C: Clock> {
    pub room: Room<D, C>,
    pub served: u64,
    pub accepted: u64,
    pub failed: bool,
}

/// Serves up to 64 gates over the room, each with a worker of its own, and gives the room and the gates back, the gates
/// in their order. Want of memory is answered before the first link is taken.
pub fn serve_gates<
    D: Disk + Send + Drop,
    C: Clock + Send + Drop,
    G: Gate + Send,
    R: Threads + Wait + Sync,
>(
    rt: &R,
    alloc: Global,
    room: Room<D, C>,
    gates: &mut Vec<G>,
) -> Result<Ended<D, C>, (Room<D, C>, OutOfMemory)>
    requires sure { room.desk.doubt ≡ [] }
    requires few { vec_len gates.old ≤ 64 }
    ensures served { IfOk result (λ ended. ServesAll D.disk C.clock G.gate G.Conn.source G.Conn.sink room
        gates.old.items ended.room gates.new.items ended.served ended.accepted ended.failed) }
    ensures unserved { IfErr result (λ back. back.0 ≡ room) }
    ensures untouched { OnErr result (gates.new ≡ gates.old) }
{
    let before = room.desk.entries();
    let mut workers: Vec<Worker<D, C, G>> = Vec::new(alloc);
    if workers.reserve(gates.len()).is_err() {
        workers.destroy_empty();
        return Err((room, OutOfMemory));
    }
    let (lock, mut pass) = match TurnLock::new(alloc, room) {
        Ok(made) => made,
        Err((room, _)) => {
            workers.destroy_empty();
            return Err((room, OutOfMemory));
        }
    };
    let (served, failed) = turns(rt, alloc, &lock, &mut pass, gates, workers);
    match lock.close(pass) {
        Ok(room) => {
            let accepted = room.desk.entries() - before;
            Ok(Ended {
                room,
                served,
                accepted,
                failed,
            })
        }
        Err(_) => unreachable!(),
    }
}
