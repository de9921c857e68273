//! Replies on a link.
ghost use Rattle.tb_gates.specs.Links.{link_of};
ghost use Rattle.tb_wire.specs.Replies.{no_memory};
ghost use Rattle.tb_session.specs.Replies.{reply_text};
ghost use Rattle.tb_session.specs.Serving.{Writes, WritesReply, Sends, Tries};
ghost use Rattle.tb_session.specs.Turned.{CanBeTold};

use crate::answer::Answer;
use crate::reply::{find_allow, reading_reply, verdict_reply};
use std::alloc::Global;
use tb_gates::Link;
use tb_link::Failed;
use tb_wire::{Target, disk_fault_reply, no_memory_reply};

/// Why a reply was not sent.
#[derive(Clone, Copy, Debug)]
pub(crate) enum Unsent {
    WriteFault,
    OutOfMemory,
}

pub(crate) fn write_bytes<K: Link>(link: &mut K, bytes: &[u8]) -> Result<(), Failed>
    ensures writes { Writes (link_of K.source K.sink link.old) (link_of K.source K.sink link.new) bytes.now result }
{
    link.write(bytes)
}

/// Tells an answer. Only the text of a reading needs memory.
pub(crate) fn send<K: Link>(
    alloc: Global,
    link: &mut K,
    answer: &Answer,
    target: Target,
    close: bool,
) -> Result<(), Unsent>
    requires printable { CanBeTold answer.now }
    ensures sends { Sends (link_of K.source K.sink link.old) (link_of K.source K.sink link.new) answer.now
        (reply_text answer.now target close) result }
{
    match answer {
        Answer::Verdict(verdict) => {
            let reply = verdict_reply(verdict, find_allow(target), close);
            write_reply(link, reply.bytes())
        }
        Answer::Reading(reading) => match reading_reply(alloc, reading, close) {
            Ok(reply) => write_reply(link, &reply),
            Err(_) => Err(Unsent::OutOfMemory),
        },
        Answer::DiskFault => {
            let reply = disk_fault_reply(close);
            write_reply(link, reply.bytes())
        }
        Answer::OutOfMemory => Err(Unsent::OutOfMemory),
    }
}

// Writes a reply with these bytes.
fn write_reply<K: Link>(link: &mut K, bytes: &[u8]) -> Result<(), Unsent>
    ensures writes { WritesReply (link_of K.source K.sink link.old) (link_of K.source K.sink link.new)
        bytes.now result }
{
    match write_bytes(link, bytes) {
        Ok(()) => Ok(()),
        Err(_) => Err(Unsent::WriteFault),
    }
}

/// Writes that memory was wanting, or tries to.
pub(crate) fn refuse_for_memory<K: Link>(link: &mut K)
    ensures tries { Tries (link_of K.source K.sink link.old) (link_of K.source K.sink link.new) no_memory }
{
    let reply = no_memory_reply();
    let _ = write_bytes(link, reply.bytes());
}
