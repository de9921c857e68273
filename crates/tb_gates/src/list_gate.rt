//! A gate in memory, which tells its links.
ghost use Rattle.std.specs.Prelude.{◌≡◌, ◌≤◌, ◌+◌, ◌↔◌, [], length, vec_len, vec_capacity, IfOk, OnErr, IsErr, Contains};
ghost use Rattle.std.specs.VecDeque.{deque_len};
ghost use Rattle.tb_link.specs.Counts.{counted};
ghost use Rattle.tb_gates.specs.Gates.{NextLink, FailsToOpen, TakesBack, MayTakeBack, most_links};

use crate::gate::Gate;
use crate::pair_link::PairLink;
use std::alloc::Global;
use std::collections::VecDeque;
use tb_link::{Failed, Faults};
use tb_units::OutOfMemory;

/// Gives the links of a list, keeps those that are done, in order, and fails at stated calls.
#[derive(Drop)]
pub struct ListGate {
    links: VecDeque<PairLink>,
    back: Vec<PairLink>,
    given: u64,
    fails: Vec<u64>,
    calls: u64,
    faults: Faults,
    ghost fewer: { length back.items ≤ given },
    ghost room: { given + deque_len links ≤ vec_capacity back },
    ghost few: { given + deque_len links ≤ most_links },
}

impl ListGate {
    ghost use Rattle.tb_gates.specs.Memory.{list_gate, KeepsCalls};

    /// Gives these links, at most 1,000,000. The calls of `next` whose numbers, from 0, are in `fails` fail.
    pub fn new(
        alloc: Global,
        links: Vec<PairLink>,
        fails: Vec<u64>,
    ) -> Result<ListGate, OutOfMemory>
        requires few { vec_len links ≤ most_links }
        ensures links { IfOk result (λ gate. (gate.links.items ≡ links.items) × (gate.back.items ≡ [])) }
        ensures start { IfOk result (λ gate. (gate.given ≡ 0) × (gate.calls ≡ 0) × (gate.faults.count ≡ 0)) }
        ensures fails { IfOk result (λ gate. gate.fails.items ≡ fails.items) }
    {
        let back = Vec::with_capacity(alloc, links.len())?;
        Ok(ListGate {
            links: VecDeque::from(links),
            back,
            given: 0,
            fails,
            calls: 0,
            faults: Faults::none(),
        })
    }

    /// The links that are done, in order.
    pub fn finished(&self) -> &[PairLink]
        ensures { result.now ≡ self.now.back.items }
    {
        self.back.as_slice()
    }

    // The first of the links left.
    fn take_first(&mut self) -> Option<PairLink>
        ensures gives { NextLink (list_gate self.old) (list_gate self.new) result }
        ensures stays { KeepsCalls self.old self.new }
    {
        let link = self.links.pop_front()?;
        self.given += 1;
        Some(link)
    }
}

impl Gate for ListGate {
    ghost use Rattle.std.specs.Prelude.{vec_len};
    ghost use Rattle.tb_gates.specs.Gates.{fewer_given};
    ghost use Rattle.tb_gates.specs.Memory.{list_gate, CountsNext};

    type Conn = PairLink;

    ghost gate = { list_gate };

    fn next(&mut self) -> Result<Option<PairLink>, Failed>
        ensures gives { IfOk result (NextLink (list_gate self.old) (list_gate self.new)) }
        ensures fails { OnErr result (FailsToOpen (list_gate self.old) (list_gate self.new)) }
        // It fails at the stated calls and at no other.
        ensures exactly { IsErr result ↔ Contains self.old.fails.items self.old.calls }
        ensures one_fault { OnErr result (self.new.faults.count ≡ counted self.old.faults.count) }
        ensures call { CountsNext self.old self.new }
    {
        let call = self.calls;
        self.calls = call.saturating_add(1);
        if self.fails.contains(&call) {
            return Err(self.faults.rise());
        }
        Ok(self.take_first())
    }

    fn done(&mut self, conn: PairLink)
        requires { MayTakeBack (list_gate self.old) }
        ensures takes { TakesBack (list_gate self.old) (list_gate self.new) conn }
    {
        self.back.push_reserved(conn);
    }

    ghost bounded = { λ self. self.faults.bounded };

    ghost few = { λ self. fewer_given self.given (deque_len self.links) self.few };

    ghost fewer = { λ self. self.fewer };
}
