//! A table of bids that was read.
ghost use Rattle.std.specs.Prelude.{◌≡◌, ◌≤◌, length, map, take, drop, vec_capacity, IfOk};
ghost use Rattle.std.specs.List.{All};
ghost use Rattle.tb_import.specs.Sent.{IsInRange, sent_of};

use crate::row::Row;
use indexmap::IndexSet;
use std::alloc::Global;
use std::marker::Model;
use tb_message::Message;
use tb_units::OutOfMemory;

/// The bids of a table: each row once, in the order in which they were first seen. Contracts see the messages of the
/// rows under their senders' numbers.
#[derive(Drop)]
pub struct BidTable {
    rows: IndexSet<Row>,
}

impl Model for BidTable {
    ghost use Rattle.std.specs.Prelude.{ℕ, List, map};
    ghost use Rattle.std.specs.List.{All};
    ghost use Rattle.tb_message.specs.declared.message.Message.{Message};
    ghost use Rattle.tb_import.specs.Sent.{IsInRange, sent_of};

    ghost Value = { List (ℕ × Message) };

    ghost view = { λ table. map sent_of table.rows.keys };

    ghost invariant = { λ table. All IsInRange table.rows.keys };
}

impl BidTable {
    pub(crate) fn of(rows: IndexSet<Row>) -> BidTable
        requires { All IsInRange rows.keys }
        ensures { result ≡ map sent_of rows.keys }
    {
        BidTable { rows }
    }

    /// How many bids it has.
    pub fn len(&self) -> usize
        ensures { result ≡ length self.now }
    {
        self.rows.len()
    }

    /// Puts the bids from a place on in the place of what a run has: as many as are asked for, or all that are left.
    /// It takes no memory.
    pub fn put_run(&self, place: usize, most: usize, run: &mut Vec<(u64, Message)>)
        requires within { place ≤ length self.now }
        requires room { most ≤ vec_capacity run.old }
        ensures run { run.new.items ≡ take most (drop place self.now) }
        ensures room { vec_capacity run.new ≡ vec_capacity run.old }
    {
        run.clear();
        let rest = &self.rows.as_slice()[place..];
        for row in &rest[..most.min(rest.len())] {
            run.push_reserved(row.sent());
        }
    }

    /// All bids.
    pub(crate) fn bids(&self, alloc: Global) -> Result<Vec<(u64, Message)>, OutOfMemory>
        ensures { IfOk result (λ bids. bids.items ≡ self.now) }
    {
        let mut bids = Vec::with_capacity(alloc, self.len())?;
        self.put_run(0, self.len(), &mut bids);
        Ok(bids)
    }
}
