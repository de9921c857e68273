//! A keeper in memory, which tells its table.
ghost use Rattle.std.specs.Prelude.{◌≡◌, ◌≤◌, ◌↔◌, true, Some, Err, [], length, map};
ghost use Rattle.std.specs.Prelude.{IfOk, IfErr, OnOk, OnErr, IsErr, Contains};
ghost use Rattle.std.specs.List.{insert};
ghost use Rattle.std.specs.Option.{option_map};
ghost use Rattle.tb_link.specs.Counts.{counted};
ghost use Rattle.tb_register.specs.Rows.{kept};
ghost use Rattle.tb_register.specs.Tables.{IsTable, row_named, added, of_cusip};
ghost use Rattle.tb_register.specs.Keepers.{Puts, Gives, Refuses, LacksMemory, CountsFault};

use crate::keeper::{Keeper, KeeperFault};
use crate::row::Row;
use std::alloc::{AllocError, Global};
use tb_link::{Failed, Faults};
use tb_terms::Cusip;
use tb_units::Ident;

/// Keeps its rows in order, and fails at stated calls.
#[derive(Drop)]
pub struct MemoryKeeper {
    alloc: Global,
    rows: Vec<Row>,
    fails: Vec<u64>,
    calls: u64,
    faults: Faults,
    ghost in_order: { IsTable (map kept rows.items) },
}

impl MemoryKeeper {
    ghost use Rattle.tb_register.specs.Memory.{memory_keeper, CountsCall};

    /// An empty table. The calls whose numbers, from 0, are in `fails` fail.
    pub fn new(alloc: Global, fails: Vec<u64>) -> MemoryKeeper
        ensures empty { memory_keeper result ≡ record { table = Some []; faults = 0 } }
        ensures start { result.calls ≡ 0 }
        ensures fails { result.fails.items ≡ fails.items }
    {
        MemoryKeeper {
            alloc,
            rows: Vec::new(alloc),
            fails,
            calls: 0,
            faults: Faults::none(),
        }
    }

    // Counts the call, which may be one that fails.
    fn pass(&mut self) -> Result<(), Failed>
        ensures exactly { IsErr result ↔ Contains self.old.fails.items self.old.calls }
        ensures passes { OnOk result (self.new.faults ≡ self.old.faults) }
        ensures fails { OnErr result (self.new.faults.count ≡ counted self.old.faults.count) }
        ensures rows { self.new.rows ≡ self.old.rows }
        ensures call { CountsCall self.old self.new }
    {
        let fails = self.fails.contains(&self.calls);
        self.calls = self.calls.saturating_add(1);
        if fails {
            return Err(self.faults.rise());
        }
        Ok(())
    }
}

fn find(rows: &[Row], name: &Ident) -> Option<Row>
    ensures { option_map kept result ≡ row_named name.now (map kept rows.now) }
{
    for row in rows {
        if row.auction == *name {
            return Some(*row);
        }
    }
    None
}

// Where the row is to stand: before the first whose name is behind its own.
fn place_of(rows: &[Row], row: &Row) -> usize
    ensures within { result ≤ length rows.now }
    ensures place { added (kept row.now) (map kept rows.now) ≡ map kept (insert rows.now result row.now) }
{
    let mut place = 0;
    while place < rows.len() && row.auction >= rows[place].auction {
        place += 1;
    }
    place
}

fn add(rows: &mut Vec<Row>, row: &Row) -> Result<(), AllocError>
    ensures added { OnOk result (map kept rows.new.items ≡ added (kept row.now) (map kept rows.old.items)) }
    ensures unchanged { OnErr result (rows.new.items ≡ rows.old.items) }
{
    let place = place_of(rows, row);
    match rows.insert(place, *row) {
        Ok(()) => Ok(()),
        Err(refused) => Err(AllocError::from(refused)),
    }
}

fn with_cusip(alloc: Global, rows: &[Row], cusip: &Cusip) -> Result<Vec<Row>, AllocError>
    ensures { IfOk result (λ found. map kept found.items ≡ of_cusip cusip.now.bytes (map kept rows.now)) }
{
    let mut found = Vec::new(alloc);
    for row in rows {
        if row.cusip == *cusip {
            found.push(*row)?;
        }
    }
    Ok(found)
}

impl Keeper for MemoryKeeper {
    ghost use Rattle.tb_register.specs.Memory.{memory_keeper, CountsCall};

    ghost keeper = { memory_keeper };

    ghost counts_failures = { true };

    #[tactic(auto, using(crate::proofs::TableLemmas::table_added))]
    fn put(&mut self, row: &Row) -> Result<Option<Row>, KeeperFault>
        ensures puts { IfOk result (Puts row.now (memory_keeper self.old) (memory_keeper self.new)) }
        ensures refused { IfErr result (Refuses (memory_keeper self.old) (memory_keeper self.new)) }
        ensures lacked { IfErr result (LacksMemory self.old.faults.count self.new.faults.count) }
        // It fails at the stated calls and at no other.
        ensures exactly { (result ≡ Err KeeperFault.Failed) ↔ Contains self.old.fails.items self.old.calls }
        ensures counts { IfErr result (CountsFault self.old.faults.count self.new.faults.count) }
        ensures call { CountsCall self.old self.new }
    {
        self.pass()?;
        let found = find(&self.rows, &row.auction);
        if found.is_none() {
            add(&mut self.rows, row)?;
        }
        Ok(found)
    }

    fn of_cusip(&mut self, cusip: &Cusip) -> Result<Vec<Row>, KeeperFault>
        ensures gives { IfOk result (λ rows.
            Gives cusip.now.bytes (memory_keeper self.old) (memory_keeper self.new) rows.items) }
        ensures refused { IfErr result (Refuses (memory_keeper self.old) (memory_keeper self.new)) }
        ensures lacked { IfErr result (LacksMemory self.old.faults.count self.new.faults.count) }
        ensures exactly { (result ≡ Err KeeperFault.Failed) ↔ Contains self.old.fails.items self.old.calls }
        ensures counts { IfErr result (CountsFault self.old.faults.count self.new.faults.count) }
        ensures call { CountsCall self.old self.new }
    {
        self.pass()?;
        Ok(with_cusip(self.alloc, &self.rows, cusip)?)
    }

    ghost in_order = { λ self. self.in_order };

    ghost bounded = { λ self. self.faults.bounded };
}
