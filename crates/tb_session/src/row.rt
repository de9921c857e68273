//! Bids of one key that wait whole and in a row.
ghost use Rattle.std.specs.Prelude.{◌≡◌, ◌+◌, ◌≤◌, true, IfOk, IfSome, drop, length, vec_len};
ghost use Rattle.tb_core.specs.House.{IsBid};
ghost use Rattle.tb_wire.specs.declared.cutting.Cutting.TheVariants.{Whole};
ghost use Rattle.tb_wire.specs.Front.{IsFront};
ghost use Rattle.tb_session.specs.Rows.{IsBidRequest, WaitInRow};

use crate::asking::{find_key, read_ask};
use crate::called::Ask;
use std::alloc::Global;
use tb_message::{Key, Message};
use tb_wire::{Cutting, HttpRequest, Routes, Target, next_request, uses};

// Bids of one turn, at most.
const MOST_BIDS: u64 = 64;

/// Bids with this key, and how many bytes they use.
#[derive(Drop)]
pub(crate) struct Row {
    pub key: Key,
    pub bids: Vec<(u64, Message)>,
    pub used: usize,
}

impl Row {
    /// How many bids there are.
    pub fn count(&self) -> u64
        ensures { result ≡ length self.now.bids.items }
    {
        self.bids.len() as u64
    }
}

fn is_bid(message: &Message) -> bool
    ensures { result ≡ true → IsBid message.now }
{
    match message {
        Message::Bid { .. } => true,
        _ => false,
    }
}

fn is_same_key(one: &Key, other: &Key) -> bool
    ensures { result ≡ true → one.now ≡ other.now }
{
    match (one, other) {
        (Key::Submitter(one), Key::Submitter(other)) => *one == *other,
        (Key::Operator(one), Key::Operator(other)) => *one == *other,
        _ => false,
    }
}

// The bid that the request at the front of these bytes asks for, and its key, where it doesn't close the link.
fn find_bid(alloc: Global, request: &HttpRequest, bytes: &[u8]) -> Option<(Key, (u64, Message))>
    requires front { IsFront bytes.now (Whole request.now) }
    ensures { IfSome result (λ found. IsBidRequest found.0 request.now bytes.now found.1) }
{
    if request.close {
        return None;
    }
    match (request.target, find_key(request)) {
        (Target::Messages, Ok(key)) => match read_ask(alloc, request, bytes) {
            Some(Ask::Message { number, message }) if is_bid(&message) => {
                Some((key, (number, message)))
            }
            _ => None,
        },
        _ => None,
    }
}

// The bid with this key that stands at the front of these bytes, and the bytes that it uses.
fn next_bid(
    alloc: Global,
    routes: &Routes,
    key: &Key,
    bytes: &[u8],
) -> Option<(HttpRequest, (u64, Message))>
    ensures { IfSome result (λ found. IsBidRequest key.now found.0 bytes.now found.1) }
{
    let Ok(Cutting::Whole(request)) = next_request(alloc, routes, bytes) else {
        return None;
    };
    let (other, bid) = find_bid(alloc, &request, bytes)?;
    if is_same_key(key, &other) {
        Some((request, bid))
    } else {
        None
    }
}

// How many bytes there are.
fn size_of(bytes: &[u8]) -> usize
    ensures { result ≡ length bytes.now }
{
    bytes.len()
}

// The bytes behind so many.
fn behind(bytes: &[u8], used: usize) -> &[u8]
    requires within { used ≤ length bytes.now }
    ensures { result.now ≡ drop used bytes.now }
{
    &bytes[used..]
}

// Takes the next bid into the row, where there is one and there is memory for it.
fn grow_row(alloc: Global, routes: &Routes, row: &mut Row, waiting: &[u8]) -> bool
    requires row { WaitInRow row.old waiting.now }
    ensures row { WaitInRow row.new waiting.now }
    ensures least { length row.old.bids.items ≤ length row.new.bids.items }
    ensures most { length row.new.bids.items ≤ length row.old.bids.items + 1 }
{
    uses();
    let _size = size_of(waiting);
    let Some((request, bid)) = next_bid(alloc, routes, &row.key, behind(waiting, row.used)) else {
        return false;
    };
    if row.bids.push(bid).is_err() {
        return false;
    }
    row.used += request.used;
    true
}

// The row of one bid.
fn begin_row(alloc: Global, request: &HttpRequest, waiting: &[u8]) -> Option<Row>
    requires front { IsFront waiting.now (Whole request.now) }
    ensures row { IfSome result (λ row. WaitInRow row waiting.now) }
    ensures one { IfSome result (λ row. length row.bids.items ≡ 1) }
{
    uses();
    let (key, bid) = find_bid(alloc, request, waiting)?;
    let mut bids = Vec::new(alloc);
    match bids.push(bid) {
        Ok(()) => Some(Row {
            key,
            bids,
            used: request.used,
        }),
        Err(_) => None,
    }
}

/// The bids that wait in a row from the request at the front on, so many at most. `None` where the request is no bid,
/// or nothing waits behind it.
pub(crate) fn find_row(
    alloc: Global,
    routes: &Routes,
    request: &HttpRequest,
    waiting: &[u8],
    most: u64,
) -> Option<Row>
    requires front { IsFront waiting.now (Whole request.now) }
    ensures row { IfSome result (λ row. WaitInRow row waiting.now) }
    ensures some { IfSome result (λ row. 1 ≤ length row.bids.items) }
    ensures few { IfSome result (λ row. (length row.bids.items ≤ 64) × (length row.bids.items ≤ most)) }
{
    if most == 0 || waiting.len() == request.used {
        return None;
    }
    let mut row = begin_row(alloc, request, waiting)?;
    for _place in 1..most.min(MOST_BIDS) {
        if !grow_row(alloc, routes, &mut row, waiting) {
            return Some(row);
        }
    }
    Some(row)
}
