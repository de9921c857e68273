//! Requests of a link.
ghost use Rattle.std.specs.Prelude.{◌≡◌, IfOk, OnErr};
ghost use Rattle.tb_gates.specs.Links.{link_of};
ghost use Rattle.tb_session.specs.Inbox.{Receives};

use crate::end::End;
use crate::inbox::{Inbox, Unread};
use std::alloc::Global;
use tb_gates::Link;
use tb_wire::{Cutting, HttpRequest, Routes, next_request, waits};

/// Reads until a whole request waits, or the link ends.
pub(crate) fn receive_request<K: Link>(
    alloc: Global,
    routes: &Routes,
    link: &mut K,
    inbox: &mut Inbox,
) -> Result<HttpRequest, End>
    ensures receives { Receives (link_of K.source K.sink link.old) (link_of K.source K.sink link.new)
        inbox.old inbox.new result }
{
    loop {
        match next_request(alloc, routes, inbox.waiting()) {
            Ok(Cutting::Whole(request)) => return Ok(request),
            Ok(Cutting::Bad(code)) => return Err(End::BadRequest(code)),
            Ok(Cutting::More) => {}
            Err(_) => return Err(End::OutOfMemory),
        }
        // What isn't whole yet is little.
        waits();
        match inbox.fill(link) {
            Ok(0) if inbox.is_empty() => return Err(End::EndOfInput),
            Ok(0) => return Err(End::CutShort),
            Ok(_) => {}
            Err(Unread::ReadFault) => return Err(End::ReadFault),
            Err(Unread::OutOfMemory) => return Err(End::OutOfMemory),
        }
    }
}
