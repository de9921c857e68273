//! The table in a connection, which is made by the first call that succeeds in it.
ghost use Rattle.std.specs.Prelude.{◌≡◌, true, IfOk, IfErr, OnOk, OnErr, map};
ghost use Rattle.std.specs.Option.{option_map};
ghost use Rattle.sqlite.specs.Held.{state};
ghost use Rattle.tb_register.specs.Rows.{kept};
ghost use Rattle.tb_register.specs.Tables.{row_named, put_in, of_cusip};
ghost use Rattle.tb_register.specs.Keepers.{CountsFault};
ghost use Rattle.tb_register_sql.specs.Statements.{LacksOrFails};
ghost use Rattle.tb_register_sql.specs.Shelves.{IsMade, IsShelf, IsSure, shelf_rows};

use crate::counting::Refusals;
use crate::reading::{find, of_cusip};
use crate::statements::{create, insert};
use sqlite::{Alter, Connection};
use std::alloc::Global;
use tb_register::{KeeperFault, Row};
use tb_terms::Cusip;

/// A connection, and whether the table is made.
#[derive(Drop)]
pub(crate) struct Shelf<S: Alter + Drop> {
    pub alloc: Global,
    pub connection: Connection<S>,
    pub is_made: bool,
}

impl<S: Alter + Drop> Shelf<S> {
    fn make(&mut self, refusals: &mut Refusals) -> Result<(), KeeperFault>
        ensures made { OnOk result (self.new.is_made ≡ true) }
        ensures shelf { IsSure S.Store
            → IsShelf self.old.is_made (state S.Store self.old.connection)
            → IsShelf self.new.is_made (state S.Store self.new.connection) }
        ensures rows { IsSure S.Store
            → IsShelf self.old.is_made (state S.Store self.old.connection)
            → shelf_rows (state S.Store self.new.connection)
            ≡ shelf_rows (state S.Store self.old.connection) }
        // A table that stands isn't refused for standing.
        ensures stands { IsSure S.Store
            → IsMade (state S.Store self.old.connection)
            → IfErr result (LacksOrFails (state S.Store self.old.connection) (state S.Store self.new.connection)) }
        ensures no_fault { OnOk result (refusals.new ≡ refusals.old) }
        ensures counts { IfErr result (CountsFault refusals.old.faults.count refusals.new.faults.count) }
    {
        if self.is_made {
            return Ok(());
        }
        create(&mut self.connection, refusals)?;
        self.is_made = true;
        Ok(())
    }

    /// Puts a row, where none of its name is there.
    pub fn put(&mut self, row: &Row, refusals: &mut Refusals) -> Result<Option<Row>, KeeperFault>
        ensures found { IsSure S.Store
            → IsShelf self.old.is_made (state S.Store self.old.connection)
            → IfOk result (λ found. option_map kept found
            ≡ row_named row.now.auction (shelf_rows (state S.Store self.old.connection))) }
        ensures put { IsSure S.Store
            → IsShelf self.old.is_made (state S.Store self.old.connection)
            → OnOk result (shelf_rows (state S.Store self.new.connection)
            ≡ put_in (kept row.now) (shelf_rows (state S.Store self.old.connection))) }
        ensures refused { IsSure S.Store
            → IsShelf self.old.is_made (state S.Store self.old.connection)
            → OnErr result (shelf_rows (state S.Store self.new.connection)
            ≡ shelf_rows (state S.Store self.old.connection)) }
        ensures shelf { IsSure S.Store
            → IsShelf self.old.is_made (state S.Store self.old.connection)
            → IsShelf self.new.is_made (state S.Store self.new.connection) }
        ensures no_fault { OnOk result (refusals.new ≡ refusals.old) }
        ensures counts { IfErr result (CountsFault refusals.old.faults.count refusals.new.faults.count) }
    {
        self.make(refusals)?;
        let found = find(&mut self.connection, &row.auction, refusals)?;
        if found.is_none() {
            insert(&mut self.connection, row, refusals)?;
        }
        Ok(found)
    }

    /// The rows of a bill, in order.
    pub fn of_cusip(
        &mut self,
        cusip: &Cusip,
        refusals: &mut Refusals,
    ) -> Result<Vec<Row>, KeeperFault>
        ensures gives { IsSure S.Store
            → IsShelf self.old.is_made (state S.Store self.old.connection)
            → IfOk result (λ rows. map kept rows.items
            ≡ of_cusip cusip.now.bytes (shelf_rows (state S.Store self.old.connection))) }
        ensures same { IsSure S.Store
            → IsShelf self.old.is_made (state S.Store self.old.connection)
            → shelf_rows (state S.Store self.new.connection)
            ≡ shelf_rows (state S.Store self.old.connection) }
        ensures shelf { IsSure S.Store
            → IsShelf self.old.is_made (state S.Store self.old.connection)
            → IsShelf self.new.is_made (state S.Store self.new.connection) }
        ensures no_fault { OnOk result (refusals.new ≡ refusals.old) }
        ensures counts { IfErr result (CountsFault refusals.old.faults.count refusals.new.faults.count) }
    {
        self.make(refusals)?;
        of_cusip(self.alloc, &mut self.connection, cusip, refusals)
    }
}
