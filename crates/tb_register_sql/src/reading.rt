//! Rows of the register, as statements 3 and 4 answer them.
ghost use Rattle.std.specs.Prelude.{IsTrue, IfOk, IfErr, OnOk, ◌≡◌, ◌≤◌, ◌+◌, ◌++◌, length, map};
ghost use Rattle.std.specs.Prelude.{slice_get, vec_len, vec_capacity};
ghost use Rattle.std.specs.Option.{option_map};
ghost use Rattle.std.specs.List.Sorted.{IsPermutation, IsSortedByKey};
ghost use Rattle.std.specs.Ordering.{nat_cmp};
ghost use Rattle.std.specs.Cmp.Lexicographic.{slice_cmp};
ghost use Rattle.sqlite.specs.State.{HasCleanDisk};
ghost use Rattle.sqlite.specs.Held.{state};
ghost use Rattle.tb_register.specs.Rows.{kept};
ghost use Rattle.tb_register.specs.Keepers.{CountsFault};
ghost use Rattle.tb_register.specs.Tables.{row_named, of_cusip};
ghost use Rattle.tb_register_sql.specs.Shelves.{IsMade, StaysMade, rows_of, kept_from};

use crate::counting::{Refusals, read};
use crate::statements::{show_cusip, show_named};
use sqlite::{Alter, Connection};
use std::alloc::{AllocError, Global};
use tb_register::{KeeperFault, Row};
use tb_terms::Cusip;
use tb_units::Ident;

fn first_of(stored: &[sqlite::Row], refusals: &mut Refusals) -> Result<Option<Row>, KeeperFault>
    ensures first { IfOk result (λ found. option_map kept found ≡ slice_get (map kept_from stored.now) 0) }
    // No memory is needed: a row that can't be read is a fault.
    ensures failed { IfErr result (λ why. why ≡ KeeperFault.Failed) }
    ensures no_fault { OnOk result (refusals.new ≡ refusals.old) }
    ensures counts { IfErr result (CountsFault refusals.old.faults.count refusals.new.faults.count) }
{
    if stored.is_empty() {
        return Ok(None);
    }
    Ok(Some(read(&stored[0], refusals)?))
}

/// The row of this name, if there is one.
pub(crate) fn find<S: Alter>(
    conn: &mut Connection<S>,
    name: &Ident,
    refusals: &mut Refusals,
) -> Result<Option<Row>, KeeperFault>
    ensures found { HasCleanDisk (state S.Store conn.new)
        → IsMade (state S.Store conn.old)
        → IfOk result (λ found. option_map kept found ≡ row_named name.now (rows_of (state S.Store conn.old))) }
    ensures same { HasCleanDisk (state S.Store conn.new)
        → IsTrue (state S.Store conn.new).is_open
        → IsMade (state S.Store conn.old)
        → StaysMade (state S.Store conn.old) (state S.Store conn.new) }
    ensures no_fault { OnOk result (refusals.new ≡ refusals.old) }
    ensures counts { IfErr result (CountsFault refusals.old.faults.count refusals.new.faults.count) }
{
    let stored = show_named(conn, name, refusals)?;
    first_of(&stored, refusals)
}

// Reads the rows into a list that has room for them.
fn read_into(
    rows: &mut Vec<Row>,
    stored: &[sqlite::Row],
    refusals: &mut Refusals,
) -> Result<(), KeeperFault>
    requires { vec_len rows.old + length stored.now ≤ vec_capacity rows.old }
    ensures read { OnOk result (map kept rows.new.items ≡ map kept rows.old.items ++ map kept_from stored.now) }
    ensures failed { IfErr result (λ why. why ≡ KeeperFault.Failed) }
    ensures no_fault { OnOk result (refusals.new ≡ refusals.old) }
    ensures counts { IfErr result (CountsFault refusals.old.faults.count refusals.new.faults.count) }
{
    for each in stored {
        rows.push_reserved(read(each, refusals)?);
    }
    Ok(())
}

fn read_all(
    alloc: Global,
    stored: &[sqlite::Row],
    refusals: &mut Refusals,
) -> Result<Vec<Row>, KeeperFault>
    ensures read { IfOk result (λ rows. map kept rows.items ≡ map kept_from stored.now) }
    ensures no_fault { OnOk result (refusals.new ≡ refusals.old) }
    ensures counts { IfErr result (CountsFault refusals.old.faults.count refusals.new.faults.count) }
{
    let mut rows = Vec::with_capacity(alloc, stored.len())?;
    read_into(&mut rows, stored, refusals)?;
    Ok(rows)
}

fn sort(rows: &mut Vec<Row>) -> Result<(), AllocError>
    ensures moved { IsPermutation rows.old.items rows.new.items }
    ensures sorted { OnOk result (IsSortedByKey (λ row. row.auction) (slice_cmp nat_cmp) rows.new.items) }
{
    rows.sort_by_key(|row| row.auction)
}

fn in_order(
    alloc: Global,
    stored: &[sqlite::Row],
    refusals: &mut Refusals,
) -> Result<Vec<Row>, KeeperFault>
    ensures moved { IfOk result (λ rows. IsPermutation (map kept_from stored.now) (map kept rows.items)) }
    ensures sorted { IfOk result (λ rows. IsSortedByKey (λ row. row.auction) (slice_cmp nat_cmp) rows.items) }
    ensures no_fault { OnOk result (refusals.new ≡ refusals.old) }
    ensures counts { IfErr result (CountsFault refusals.old.faults.count refusals.new.faults.count) }
{
    let mut rows = read_all(alloc, stored, refusals)?;
    sort(&mut rows)?;
    Ok(rows)
}

/// The rows of this bill, in rising byte order of their names.
pub(crate) fn of_cusip<S: Alter>(
    alloc: Global,
    conn: &mut Connection<S>,
    cusip: &Cusip,
    refusals: &mut Refusals,
) -> Result<Vec<Row>, KeeperFault>
    ensures gives { HasCleanDisk (state S.Store conn.new)
        → IsMade (state S.Store conn.old)
        → IfOk result (λ rows. map kept rows.items ≡ of_cusip cusip.now.bytes (rows_of (state S.Store conn.old))) }
    ensures same { HasCleanDisk (state S.Store conn.new)
        → IsTrue (state S.Store conn.new).is_open
        → IsMade (state S.Store conn.old)
        → StaysMade (state S.Store conn.old) (state S.Store conn.new) }
    ensures no_fault { OnOk result (refusals.new ≡ refusals.old) }
    ensures counts { IfErr result (CountsFault refusals.old.faults.count refusals.new.faults.count) }
{
    let stored = show_cusip(conn, cusip, refusals)?;
    in_order(alloc, &stored, refusals)
}
