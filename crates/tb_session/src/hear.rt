//! The next request of a link, or its end.
ghost use Rattle.tb_gates.specs.Links.{link_of};
ghost use Rattle.tb_session.specs.Serving.{Hears};

use crate::end::End;
use crate::inbox::Inbox;
use crate::receive::receive_request;
use crate::write::{refuse_for_memory, write_bytes};
use std::alloc::Global;
use tb_gates::Link;
use tb_wire::{HttpRequest, Routes, bad_front_reply};

/// Reads until a request waits. Where the link ends first, writes what is due then.
pub(crate) fn hear_request<K: Link>(
    alloc: Global,
    routes: &Routes,
    link: &mut K,
    inbox: &mut Inbox,
) -> Result<HttpRequest, End>
    ensures hears { Hears (link_of K.source K.sink link.old) (link_of K.source K.sink link.new)
        inbox.old inbox.new result }
{
    match receive_request(alloc, routes, link, inbox) {
        Ok(request) => Ok(request),
        Err(End::BadRequest(code)) => {
            let reply = bad_front_reply(code);
            match write_bytes(link, reply.bytes()) {
                Ok(()) => Err(End::BadRequest(code)),
                Err(_) => Err(End::WriteFault),
            }
        }
        Err(End::OutOfMemory) => {
            refuse_for_memory(link);
            Err(End::OutOfMemory)
        }
        Err(End::EndOfInput) => Err(End::EndOfInput),
        Err(End::CutShort) => Err(End::CutShort),
        Err(End::ReadFault) => Err(End::ReadFault),
        Err(End::Asked | End::Turns | End::WriteFault) => unreachable!(),
    }
}
