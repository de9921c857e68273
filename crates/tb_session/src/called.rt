//! Calls of the room.

use tb_message::{Entry, Key, Message, Query};
use tb_terms::Field;
use tb_units::Moment;

/// What is asked with a key: a message under its sender's number, a query, or nothing that could be read.
#[derive(Clone, Copy, Debug, PartialEq, Eq)]
pub enum Ask {
    Message { number: u64, message: Message },
    Query(Query),
    /// The text was no JSON text.
    BadJson,
    /// This member was the first that is missing or not of its form.
    BadShape(Field),
}

/// How a call came out.
#[derive(Clone, Copy, Debug, PartialEq, Eq)]
pub enum Outcome {
    /// The message was accepted, and this entry of it was added.
    Added(Entry),
    /// The message stands already, with this entry.
    Stood(Entry),
    /// The disk failed. This entry of the message may or may not stand.
    Doubted(Entry),
    /// It was told a refusal or a reading, and has no entry.
    Told,
    /// There was no memory for it.
    Lacked,
}

/// A call: who called and what was asked, the moment of the clock where it is a message, and how it came out.
#[derive(Clone, Copy, Debug, PartialEq, Eq)]
pub struct Called {
    pub key: Key,
    pub ask: Ask,
    pub moment: Option<Moment>,
    pub outcome: Outcome,
}
