//! Calls of the room in turns of the lock.
ghost use Rattle.std.specs.Prelude.{◌≡◌, ◌≤◌, length, vec_len};
ghost use Rattle.tb_desk.specs.Turn.{AreBids, AreNumbered};
ghost use Rattle.tb_lock.specs.Passes.{IsPassOf, IsIdle, view};
ghost use Rattle.tb_session.specs.Gains.{GainsOne};
ghost use Rattle.tb_session.specs.Groups.{GainsGroup, answer_of};
ghost use Rattle.tb_session.specs.Turned.{CanBeTold, IsNumberedAsk};

use crate::answer::{Answer, GroupAnswer};
use crate::called::Ask;
use crate::groups::group_answer;
use crate::room::Room;
use crate::turn::Turn;
use std::alloc::Global;
use std::sync::Wait;
use tb_disk::Disk;
use tb_gates::Clock;
use tb_lock::{Pass, TurnLock};
use tb_message::{Key, Message, Verdict};

/// Makes one call in a turn of its own. No turn is held on return.
pub(crate) fn perform_in_turn<D: Disk, C: Clock, R: Wait>(
    rt: &R,
    alloc: Global,
    shared: &TurnLock<Room<D, C>>,
    pass: &mut Pass<Room<D, C>>,
    key: &Key,
    asked: &Ask,
) -> Answer
    requires own { IsPassOf shared.now pass.old }
    requires idle { IsIdle pass.old }
    requires numbered { IsNumberedAsk asked.now }
    ensures own { IsPassOf shared.now pass.new }
    ensures idle { IsIdle pass.new }
    ensures gains { GainsOne (view pass.old) (view pass.new) key.now asked.now result }
    ensures printable { CanBeTold result }
{
    let mut room = shared.take(rt, pass);
    let turn = room.call(alloc, key, asked);
    shared.give(pass, room, &turn);
    let Turn {
        called: _,
        answer,
        before: _,
    } = turn;
    answer
}

/// Makes a group of bids in a turn of its own. No turn is held on return.
pub(crate) fn perform_group<D: Disk, C: Clock, R: Wait>(
    rt: &R,
    shared: &TurnLock<Room<D, C>>,
    pass: &mut Pass<Room<D, C>>,
    key: &Key,
    bids: &Vec<(u64, Message)>,
    verdicts: &mut [Option<Verdict>; 64],
) -> GroupAnswer
    requires own { IsPassOf shared.now pass.old }
    requires idle { IsIdle pass.old }
    requires size { (1 ≤ length bids.now.items) × (length bids.now.items ≤ 64) }
    requires bids { AreBids bids.now.items }
    requires numbered { AreNumbered bids.now.items }
    ensures own { IsPassOf shared.now pass.new }
    ensures idle { IsIdle pass.new }
    ensures gains { GainsGroup (view pass.old) (view pass.new) key.now bids.now.items result verdicts.new }
{
    let mut room = shared.take(rt, pass);
    let turn = room.group_turn(key, bids, verdicts);
    shared.give(pass, room, &turn);
    group_answer(turn.came)
}
