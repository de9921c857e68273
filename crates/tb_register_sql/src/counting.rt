//! The faults of a keeper, counted where they occur: at a statement that is refused, and at a stored row outside the
//! ranges. Only the functions of this file can raise the count.
ghost use Rattle.std.specs.Prelude.{◌≡◌, ◌≢◌, IsErr, IfOk, IfErr, OnOk};
ghost use Rattle.sqlite.specs.Held.{state};
ghost use Rattle.sqlite.specs.State.{HasCleanDisk, Shown};
ghost use Rattle.sqlite.specs.Values.{bound};
ghost use Rattle.tb_register.specs.Rows.{Kept, kept};
ghost use Rattle.tb_register.specs.Keepers.{CountsFault};
ghost use Rattle.tb_register_sql.specs.Shelves.{IsInRange, cells_of, kept_from, values_of};
ghost use Rattle.tb_register_sql.specs.Statements.{IsAnsweredAs, Ran, FailsToAnswer};

use crate::decoding::decode;
use sqlite::types::ValueRef;
use sqlite::{Alter, Connection, Error, ErrorCode};
use tb_link::Faults;
use tb_register::{KeeperFault, Row};

/// How many faults a keeper has had.
#[derive(Clone, Copy)]
pub(crate) struct Refusals {
    faults: Faults,
}

impl Refusals {
    /// No fault so far.
    pub fn none() -> Refusals
        ensures { result.faults.count ≡ 0 }
    {
        Refusals {
            faults: Faults::none(),
        }
    }

    // What is answered where a statement is refused. Want of memory is no fault, and every other refusal is one.
    fn refused(&mut self, error: Error) -> KeeperFault
        ensures told { IsAnsweredAs error result }
        ensures counts { CountsFault self.old.faults.count self.new.faults.count result }
    {
        match error {
            Error::SqliteFailure(ErrorCode::OutOfMemory) => KeeperFault::OutOfMemory,
            _ => KeeperFault::from(self.faults.rise()),
        }
    }
}

/// Executes a statement, once.
pub(crate) fn run<S: Alter>(
    conn: &mut Connection<S>,
    text: &str,
    values: &[ValueRef<'_>],
    refusals: &mut Refusals,
) -> Result<usize, KeeperFault>
    ensures ran { HasCleanDisk (state S.Store conn.new)
        → Ran text.now (bound values.now) (state S.Store conn.old) (state S.Store conn.new) result }
    ensures no_fault { OnOk result (refusals.new ≡ refusals.old) }
    ensures counts { IfErr result (CountsFault refusals.old.faults.count refusals.new.faults.count) }
{
    match conn.execute(text, values) {
        Ok(changed) => Ok(changed),
        Err(error) => Err(refusals.refused(error)),
    }
}

/// Asks for rows, once.
pub(crate) fn ask<S: Alter>(
    conn: &mut Connection<S>,
    text: &str,
    values: &[ValueRef<'_>],
    refusals: &mut Refusals,
) -> Result<Vec<sqlite::Row>, KeeperFault>
    ensures shown { HasCleanDisk (state S.Store conn.new) → IfOk result (λ rows.
        Shown text.now (bound values.now) (state S.Store conn.old) (state S.Store conn.new) rows.items) }
    ensures refused { HasCleanDisk (state S.Store conn.new) → IfErr result
        (FailsToAnswer text.now (bound values.now) (state S.Store conn.old) (state S.Store conn.new)) }
    ensures no_fault { OnOk result (refusals.new ≡ refusals.old) }
    ensures counts { IfErr result (CountsFault refusals.old.faults.count refusals.new.faults.count) }
{
    match conn.query_all(text, values) {
        Ok(rows) => Ok(rows),
        Err(error) => Err(refusals.refused(error)),
    }
}

/// The row that a stored row is. Where its values are outside the ranges of a row that is a fault, and never want of
/// memory.
pub(crate) fn read(stored: &sqlite::Row, refusals: &mut Refusals) -> Result<Row, KeeperFault>
    ensures read { IfOk result (λ row. kept row ≡ kept_from stored.now) }
    ensures outside { IsErr result → (row : Kept) → IsInRange row → values_of stored.now ≢ cells_of row }
    ensures failed { IfErr result (λ why. why ≡ KeeperFault.Failed) }
    ensures no_fault { OnOk result (refusals.new ≡ refusals.old) }
    ensures counts { IfErr result (CountsFault refusals.old.faults.count refusals.new.faults.count) }
{
    match decode(stored) {
        Some(row) => Ok(row),
        None => Err(KeeperFault::from(refusals.faults.rise())),
    }
}
