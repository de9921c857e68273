//! What a request asks, and by which key.
ghost use Rattle.std.specs.Prelude.{◌≡◌, ◌≤◌, length, IfNone, IfSome, IsOk};
ghost use Rattle.tb_wire.specs.declared.cutting.Cutting.TheVariants.{Whole};
ghost use Rattle.tb_wire.specs.Front.{IsFront};
ghost use Rattle.tb_session.specs.Session.{Asks, body_of, caller_key};
ghost use Rattle.tb_session.specs.Turned.{IsNumberedAsk};
ghost use Rattle.tb_wire.specs.declared.cutting.Target.TheVariants as target;

use crate::called::Ask;
use std::alloc::Global;
use tb_message::{Key, ReadFault, Request, read_request};
use tb_terms::{Field, Refusal};
use tb_wire::{HttpRequest, Target, uses};

/// The key by which a request calls; or its refusal, where it has no route, or no such method, or no key.
pub(crate) fn find_key(request: &HttpRequest) -> Result<Key, Refusal>
    ensures { result ≡ caller_key request.now }
{
    match (request.target, request.key) {
        (Target::NoRoute, _) => Err(Refusal::NoRoute),
        (Target::GetOnly | Target::PostOnly, _) => Err(Refusal::BadMethod),
        (Target::Messages | Target::Read(_), None) => Err(Refusal::UnknownKey),
        (Target::Messages | Target::Read(_), Some(key)) => Ok(key),
    }
}

/// What the request at the front of these bytes asks. `None` where there was no memory to read what is posted.
pub(crate) fn read_ask(alloc: Global, request: &HttpRequest, waiting: &[u8]) -> Option<Ask>
    requires leads { IsOk (caller_key request.now) }
    requires front { IsFront waiting.now (Whole request.now) }
    ensures asks { IfSome result (Asks request.now.target (body_of request.now waiting.now)) }
    ensures lacks { IfNone result (request.now.target ≡ target.Messages) }
    ensures numbered { IfSome result IsNumberedAsk }
{
    match request.target {
        Target::Read(query) => Some(Ask::Query(query)),
        Target::Messages => read_posted(alloc, body(request, waiting)),
        Target::NoRoute | Target::GetOnly | Target::PostOnly => unreachable!(),
    }
}

// The body of the request at the front of these bytes.
fn body<'a>(request: &HttpRequest, waiting: &'a [u8]) -> &'a [u8]
    requires front { IsFront waiting.now (Whole request.now) }
    ensures { result.now ≡ body_of request.now waiting.now }
{
    uses();
    let used = &waiting[..request.used];
    &used[request.body_start..]
}

// What a posted text asks.
fn read_posted(alloc: Global, text: &[u8]) -> Option<Ask>
    ensures asks { IfSome result (Asks target.Messages text.now) }
    ensures numbered { IfSome result IsNumberedAsk }
{
    match read_request(alloc, text) {
        Ok(Request::Message { number, message }) => Some(Ask::Message { number, message }),
        Ok(Request::Query(_)) => Some(Ask::BadShape(Field::Kind)),
        Err(ReadFault::BadJson) => Some(Ask::BadJson),
        Err(ReadFault::BadShape(member)) => Some(Ask::BadShape(member)),
        Err(ReadFault::OutOfMemory) => None,
    }
}
