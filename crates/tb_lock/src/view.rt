//! What a pass knows. These types are data for contracts and proofs: no value of them is made.

use std::collections::LinkedList;

/// How far a pass has come on its way through a turn. A number is that of its ticket.
pub enum Stage {
    Idle,
    Waiting(u64),
    /// Its turn has come.
    Come(u64),
    /// It has taken the value.
    Holding(u64),
    /// It has raised the faults.
    Raised(u64),
    /// It has raised the count, and the value is at home again.
    Counted(u64),
}

/// A call, the history on which it was answered, the counts of faults before and after it, and how
/// many readings the clock had given at the end of its turn.
pub struct Call {
    pub code: LinkedList<u64>,
    pub prefix: LinkedList<LinkedList<u64>>,
    pub faults_before: u64,
    pub faults_after: u64,
    pub readings: u64,
}

/// The counts of faults at the beginning and at the end of a turn.
pub struct Span {
    pub before: u64,
    pub after: u64,
}

/// A pass, as contracts see it. The last five fields are of its turn.
pub struct View {
    pub stage: Stage,
    /// Its part of the whole share, 2^64 - 1.
    pub share: u64,
    pub seen: LinkedList<LinkedList<u64>>,
    /// The calls that it made.
    pub mine: LinkedList<Call>,
    /// The turns that it had, also those without a call.
    pub spans: LinkedList<Span>,
    /// The fixed part of the lock's value.
    pub fixed: LinkedList<u64>,
    /// The history and the count of faults of the value that was given to `new`.
    pub opening: LinkedList<LinkedList<u64>>,
    pub opening_faults: u64,
    /// The group in doubt, the count of faults, the clock's last reading and the number of its
    /// readings, as the value was taken.
    pub doubt: LinkedList<LinkedList<u64>>,
    pub faults_taken: u64,
    pub reading: u64,
    pub readings: u64,
    /// What it knows the word for the faults to be.
    pub faults: u64,
}
