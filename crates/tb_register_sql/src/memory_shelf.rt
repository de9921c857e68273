//! The table in a connection in memory.
ghost use Rattle.std.specs.Prelude.{◌≡◌, [], map, IfOk, IfErr, OnOk, OnErr};
ghost use Rattle.std.specs.Option.{option_map};
ghost use Rattle.sqlite.specs.Held.{state};
ghost use Rattle.sqlite.specs.Steps.{over_memory};
ghost use Rattle.tb_register.specs.Rows.{kept};
ghost use Rattle.tb_register.specs.Keepers.{CountsFault};
ghost use Rattle.tb_register.specs.Tables.{IsTable, row_named, put_in, of_cusip};
ghost use Rattle.tb_register_sql.specs.Shelves.{IsShelf, shelf_rows};

use crate::counting::Refusals;
use crate::shelf::Shelf;
use sqlite::{Connection, MemStore};
use std::alloc::Global;
use tb_register::{KeeperFault, Row};
use tb_terms::Cusip;

/// A shelf whose table is told.
#[derive(Drop)]
pub(crate) struct MemoryShelf {
    shelf: Shelf<MemStore>,
    ghost told: { ∥ IsShelf shelf.is_made (state over_memory shelf.connection) ∥₁ },
    ghost in_order: { IsTable (shelf_rows (state over_memory shelf.connection)) },
}

impl MemoryShelf {
    ghost use Rattle.tb_register_sql.specs.Memory.{shelf_table};

    pub fn open(alloc: Global) -> Result<MemoryShelf, KeeperFault>
        ensures empty { IfOk result (λ shelf. shelf_table shelf ≡ []) }
        ensures fault { IfErr result (λ fault. fault ≡ KeeperFault.OutOfMemory) }
    {
        let connection = Connection::open_in_memory(alloc)?;
        Ok(MemoryShelf {
            shelf: Shelf {
                alloc,
                connection,
                is_made: false,
            },
        })
    }

    pub fn put(&mut self, row: &Row, refusals: &mut Refusals) -> Result<Option<Row>, KeeperFault>
        ensures found { IfOk result (λ found. option_map kept found
            ≡ row_named row.now.auction (shelf_table self.old)) }
        ensures put { OnOk result (shelf_table self.new ≡ put_in (kept row.now) (shelf_table self.old)) }
        ensures refused { OnErr result (shelf_table self.new ≡ shelf_table self.old) }
        ensures no_fault { OnOk result (refusals.new ≡ refusals.old) }
        ensures counts { IfErr result (CountsFault refusals.old.faults.count refusals.new.faults.count) }
    {
        self.shelf.put(row, refusals)
    }

    pub fn of_cusip(
        &mut self,
        cusip: &Cusip,
        refusals: &mut Refusals,
    ) -> Result<Vec<Row>, KeeperFault>
        ensures gives { IfOk result (λ rows. map kept rows.items
            ≡ of_cusip cusip.now.bytes (shelf_table self.old)) }
        ensures same { shelf_table self.new ≡ shelf_table self.old }
        ensures no_fault { OnOk result (refusals.new ≡ refusals.old) }
        ensures counts { IfErr result (CountsFault refusals.old.faults.count refusals.new.faults.count) }
    {
        self.shelf.of_cusip(cusip, refusals)
    }
}
