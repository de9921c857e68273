//! What the messages of undecided entries need, and those that are asked behind them.
ghost use Rattle.std.specs.Prelude.{◌≡◌, ◌≤◌, true, length, OnOk};
ghost use Rattle.std.specs.List.{filter, list_all, list_any};
ghost use Rattle.tb_shelving.specs.Rooms.{behind_all, has_place};
ghost use Rattle.tb_tables.specs.Kinds.{announces, settles};
ghost use Rattle.tb_shelving.specs.Rooms as rooms;
ghost use Rattle.tb_tables.specs.Kinds as kinds;
ghost use Rattle.tb_shelving.specs.Shelving.{IsKeptShelf};

use crate::asked::HasMessage;
use tb_message::{Entry, Message};
use tb_shelf::Shelf;
use tb_units::OutOfMemory;

fn announces(message: &Message) -> bool
    ensures { result ≡ kinds.announces message.now }
{
    matches!(message, Message::Announce { .. })
}

fn settles(message: &Message) -> bool
    ensures { result ≡ kinds.settles message.now }
{
    matches!(message, Message::Settle { .. })
}

// How many of the messages of these are announcements.
fn count_in<T: HasMessage>(items: &[T]) -> usize
    ensures few { result ≤ length items.now }
    ensures count { result ≡ length (filter (λ item. kinds.announces (T.message_of item)) items.now) }
{
    items
        .iter()
        .filter(|item| announces(item.message()))
        .count()
}

/// How many of them are announcements.
pub fn count_announced(ahead: &[Entry], messages: &[(u64, Message)]) -> usize
    ensures { result ≡ length (filter announces (behind_all ahead.now messages.now)) }
{
    count_in(ahead) + count_in(messages)
}

// Whether one of the messages of these is a settlement.
fn settles_in<T: HasMessage>(items: &[T]) -> bool
    ensures { result ≡ list_any (λ item. kinds.settles (T.message_of item)) items.now }
{
    items.iter().any(|item| settles(item.message()))
}

/// Whether one of them is a settlement.
pub fn has_settlement(ahead: &[Entry], messages: &[(u64, Message)]) -> bool
    ensures { result ≡ list_any settles (behind_all ahead.now messages.now) }
{
    settles_in(ahead) || settles_in(messages)
}

// Whether the book that a bid names, if there is one, has so many places.
fn has_place(shelf: &Shelf, message: &Message, places: u64) -> bool
    ensures { result ≡ rooms.has_place shelf.now.books places message.now }
{
    match message {
        Message::Bid { auction, .. } => shelf.has_places(auction, places),
        _ => true,
    }
}

// Whether each of the messages of these has a book with so many places.
fn have_places_in<T: HasMessage>(shelf: &Shelf, items: &[T], places: u64) -> bool
    ensures { result ≡ list_all (λ item. rooms.has_place shelf.now.books places (T.message_of item)) items.now }
{
    items
        .iter()
        .all(|item| has_place(shelf, item.message(), places))
}

/// Whether each of them has a book with so many places.
pub fn have_places(shelf: &Shelf, ahead: &[Entry], messages: &[(u64, Message)], places: u64) -> bool
    ensures { result ≡ list_all (has_place shelf.now.books places) (behind_all ahead.now messages.now) }
{
    have_places_in(shelf, ahead, places) && have_places_in(shelf, messages, places)
}

// Makes so many places sure in the book that a bid names, if there is one.
fn reserve_place(shelf: &mut Shelf, message: &Message, places: u64) -> Result<(), OutOfMemory>
    ensures place { OnOk result (has_place shelf.new.books places message.now ≡ true) }
    ensures kept { IsKeptShelf shelf.old shelf.new }
{
    match message {
        Message::Bid { auction, .. } => shelf.reserve(auction, places),
        _ => Ok(()),
    }
}

// Makes so many places sure in the book of each of the messages of these.
fn reserve_places_in<T: HasMessage>(
    shelf: &mut Shelf,
    items: &[T],
    places: u64,
) -> Result<(), OutOfMemory>
    ensures places { OnOk result
        (list_all (λ item. rooms.has_place shelf.new.books places (T.message_of item)) items.now ≡ true) }
    ensures kept { IsKeptShelf shelf.old shelf.new }
{
    for item in items {
        reserve_place(shelf, item.message(), places)?;
    }
    Ok(())
}

/// Makes so many places sure in the book of each of them.
pub fn reserve_places(
    shelf: &mut Shelf,
    ahead: &[Entry],
    messages: &[(u64, Message)],
    places: u64,
) -> Result<(), OutOfMemory>
    ensures places { OnOk result (list_all (has_place shelf.new.books places) (behind_all ahead.now messages.now)
        ≡ true) }
    ensures kept { IsKeptShelf shelf.old shelf.new }
{
    reserve_places_in(shelf, ahead, places)?;
    reserve_places_in(shelf, messages, places)
}
