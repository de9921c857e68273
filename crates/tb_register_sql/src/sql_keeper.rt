//! The keeper over a connection that is handed in.
ghost use Rattle.std.specs.Prelude.{◌≡◌, false, OnOk, IfErr};

use crate::counting::Refusals;
use crate::shelf::Shelf;
use sqlite::{Alter, Connection};
use std::alloc::Global;
use tb_register::{Keeper, KeeperFault, Row};
use tb_terms::Cusip;

/// Keeps the register in a connection of whatever store, and tells no table.
#[derive(Drop)]
pub struct SqlKeeper<S: Alter + Drop> {
    shelf: Shelf<S>,
    refusals: Refusals,
}

impl<S: Alter + Drop> SqlKeeper<S> {
    /// Takes an open connection that stands in no transaction, so that each statement commits.
    pub fn adopt(alloc: Global, connection: Connection<S>) -> SqlKeeper<S>
        requires { connection.in_transaction ≡ false }
        ensures same { result.shelf.connection ≡ connection }
        // The table isn't made yet, and no fault counted.
        ensures begins { (result.shelf.is_made ≡ false) × (result.refusals.faults.count ≡ 0) }
    {
        SqlKeeper {
            shelf: Shelf {
                alloc,
                connection,
                is_made: false,
            },
            refusals: Refusals::none(),
        }
    }

    /// Gives the connection back, which its owner closes: until then rows may stand in the log beside the file.
    pub fn into_connection(self) -> Connection<S>
        ensures { result ≡ self.shelf.connection }
    {
        let SqlKeeper { shelf, refusals: _ } = self;
        let Shelf {
            alloc: _,
            connection,
            is_made: _,
        } = shelf;
        connection
    }
}

impl<S: Alter + Drop> Keeper for SqlKeeper<S> {
    ghost use Rattle.std.specs.Prelude.{IfOk, true, map};
    ghost use Rattle.std.specs.Option.{option_map};
    ghost use Rattle.sqlite.specs.Held.{state};
    ghost use Rattle.tb_register.specs.Keepers.{CountsFault, Gives, LacksMemory, Puts, Refuses};
    ghost use Rattle.tb_register.specs.Rows.{kept};
    ghost use Rattle.tb_register.specs.Tables.{of_cusip, put_in, row_named};
    ghost use Rattle.tb_register_sql.specs.Keepers.{untold};
    ghost use Rattle.tb_register_sql.specs.Shelves.{IsShelf, IsSure, shelf_rows};

    ghost counts_failures = { true };

    ghost keeper = { λ k. untold k.refusals.faults.count };

    #[tactic(auto, using(crate::proofs::CountLemmas::counted_refuses))]
    fn put(&mut self, row: &Row) -> Result<Option<Row>, KeeperFault>
        ensures puts { IfOk result
            (Puts row.now (untold self.old.refusals.faults.count) (untold self.new.refusals.faults.count)) }
        ensures refused { IfErr result
            (Refuses (untold self.old.refusals.faults.count) (untold self.new.refusals.faults.count)) }
        ensures lacked { IfErr result (LacksMemory self.old.refusals.faults.count self.new.refusals.faults.count) }
        // One fault is counted where it failed, and none else.
        ensures counts { IfErr result (CountsFault self.old.refusals.faults.count self.new.refusals.faults.count) }
        // Over a store that is sure the row is put into the table of the connection.
        ensures found { IsSure S.Store
            → IsShelf self.old.shelf.is_made (state S.Store self.old.shelf.connection)
            → IfOk result (λ found. option_map kept found
            ≡ row_named row.now.auction (shelf_rows (state S.Store self.old.shelf.connection))) }
        ensures put { IsSure S.Store
            → IsShelf self.old.shelf.is_made (state S.Store self.old.shelf.connection)
            → OnOk result (shelf_rows (state S.Store self.new.shelf.connection)
            ≡ put_in (kept row.now) (shelf_rows (state S.Store self.old.shelf.connection))) }
        ensures shelf { IsSure S.Store
            → IsShelf self.old.shelf.is_made (state S.Store self.old.shelf.connection)
            → IsShelf self.new.shelf.is_made (state S.Store self.new.shelf.connection) }
    {
        self.shelf.put(row, &mut self.refusals)
    }

    #[tactic(auto, using(crate::proofs::CountLemmas::counted_refuses))]
    fn of_cusip(&mut self, cusip: &Cusip) -> Result<Vec<Row>, KeeperFault>
        ensures gives { IfOk result (λ rows.
            Gives cusip.now.bytes (untold self.old.refusals.faults.count) (untold self.new.refusals.faults.count)
            rows.items) }
        ensures refused { IfErr result
            (Refuses (untold self.old.refusals.faults.count) (untold self.new.refusals.faults.count)) }
        ensures lacked { IfErr result (LacksMemory self.old.refusals.faults.count self.new.refusals.faults.count) }
        // One fault is counted where it failed, and none else.
        ensures counts { IfErr result (CountsFault self.old.refusals.faults.count self.new.refusals.faults.count) }
        // Over a store that is sure these are the rows that the table of the connection has of the bill.
        ensures rows { IsSure S.Store
            → IsShelf self.old.shelf.is_made (state S.Store self.old.shelf.connection)
            → IfOk result (λ rows. map kept rows.items
            ≡ of_cusip cusip.now.bytes (shelf_rows (state S.Store self.old.shelf.connection))) }
        ensures shelf { IsSure S.Store
            → IsShelf self.old.shelf.is_made (state S.Store self.old.shelf.connection)
            → IsShelf self.new.shelf.is_made (state S.Store self.new.shelf.connection) }
    {
        self.shelf.of_cusip(cusip, &mut self.refusals)
    }

    ghost in_order = { λ self. tt };

    ghost bounded = { λ self. self.refusals.faults.bounded };
}
