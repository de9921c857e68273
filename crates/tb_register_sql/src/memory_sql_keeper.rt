//! The keeper over a connection in memory, which tells its table.
ghost use Rattle.std.specs.Prelude.{◌≡◌, true, Some, [], IfOk, IfErr, OnErr};
ghost use Rattle.tb_register.specs.Tables.{IsTable};
ghost use Rattle.tb_register.specs.Keepers.{Puts, Gives, Refuses, CountsFault, LacksMemory};
ghost use Rattle.tb_register_sql.specs.Memory.{kept_table};
ghost use Rattle.tb_register_sql.specs.Memory.{shelf_table};

use crate::counting::Refusals;
use crate::memory_shelf::MemoryShelf;
use std::alloc::Global;
use tb_register::{Keeper, KeeperFault, Row};
use tb_terms::Cusip;

/// Keeps the register in a connection in memory, which the first call that succeeds in it opens.
#[derive(Drop)]
pub struct MemorySqlKeeper {
    alloc: Global,
    kept: Option<MemoryShelf>,
    refusals: Refusals,
    ghost in_order: { IsTable (kept_table kept) },
}

impl MemorySqlKeeper {
    ghost use Rattle.tb_register_sql.specs.Keepers.{memory_sql_keeper};

    /// An empty table.
    pub fn in_memory(alloc: Global) -> MemorySqlKeeper
        ensures { memory_sql_keeper result ≡ record { table = Some []; faults = 0 } }
    {
        MemorySqlKeeper {
            alloc,
            kept: None,
            refusals: Refusals::none(),
        }
    }

    // What was kept so far, or a new connection.
    fn take(&mut self) -> Result<MemoryShelf, KeeperFault>
        ensures table { IfOk result (λ shelf. Some (shelf_table shelf) ≡ (memory_sql_keeper self.old).table) }
        ensures faults { self.new.refusals ≡ self.old.refusals }
        ensures refused { OnErr result ((memory_sql_keeper self.new).table ≡ (memory_sql_keeper self.old).table) }
        ensures fault { IfErr result (λ fault. fault ≡ KeeperFault.OutOfMemory) }
    {
        match self.kept.take() {
            Some(shelf) => Ok(shelf),
            None => MemoryShelf::open(self.alloc),
        }
    }
}

impl Keeper for MemorySqlKeeper {
    ghost use Rattle.tb_register_sql.specs.Keepers.{memory_sql_keeper};

    ghost keeper = { memory_sql_keeper };

    ghost counts_failures = { true };

    #[tactic(auto, using(crate::proofs::CountLemmas::counted_refuses))]
    fn put(&mut self, row: &Row) -> Result<Option<Row>, KeeperFault>
        ensures puts { IfOk result (Puts row.now (memory_sql_keeper self.old) (memory_sql_keeper self.new)) }
        ensures refused { IfErr result (Refuses (memory_sql_keeper self.old) (memory_sql_keeper self.new)) }
        ensures lacked { IfErr result (LacksMemory self.old.refusals.faults.count self.new.refusals.faults.count) }
        ensures counts { IfErr result (CountsFault self.old.refusals.faults.count self.new.refusals.faults.count) }
    {
        let mut shelf = self.take()?;
        let answer = shelf.put(row, &mut self.refusals);
        self.kept = Some(shelf);
        answer
    }

    #[tactic(auto, using(crate::proofs::CountLemmas::counted_refuses))]
    fn of_cusip(&mut self, cusip: &Cusip) -> Result<Vec<Row>, KeeperFault>
        ensures gives { IfOk result (λ rows.
            Gives cusip.now.bytes (memory_sql_keeper self.old) (memory_sql_keeper self.new) rows.items) }
        ensures refused { IfErr result (Refuses (memory_sql_keeper self.old) (memory_sql_keeper self.new)) }
        ensures lacked { IfErr result (LacksMemory self.old.refusals.faults.count self.new.refusals.faults.count) }
        ensures counts { IfErr result (CountsFault self.old.refusals.faults.count self.new.refusals.faults.count) }
    {
        let mut shelf = self.take()?;
        let answer = shelf.of_cusip(cusip, &mut self.refusals);
        self.kept = Some(shelf);
        answer
    }

    ghost in_order = { λ self. self.in_order };

    ghost bounded = { λ self. self.refusals.faults.bounded };
}
