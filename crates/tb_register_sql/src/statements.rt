//! The four statements, over whatever store: what each does to the table, and that a refused one leaves it and is
//! counted.
ghost use Rattle.std.specs.Prelude.{IsTrue, IfOk, IfErr, OnOk, OnErr, ◌≡◌, [], map, filter, None};
ghost use Rattle.std.specs.List.Sorted.{IsPermutation};
ghost use Rattle.sqlite.specs.State.{HasCleanDisk};
ghost use Rattle.sqlite.specs.Held.{state};
ghost use Rattle.tb_register.specs.Rows.{kept};
ghost use Rattle.tb_register.specs.Tables.{row_named};
ghost use Rattle.tb_register.specs.Keepers.{CountsFault};
ghost use Rattle.tb_register_sql.specs.Shelves.{IsUnmade, IsMade, StaysMade, Adds, rows_of, shown, is_at};
ghost use Rattle.tb_register_sql.specs.Statements.{LacksOrFails};

use crate::binding::{amount, day, high_of, percent_of, price_of};
use crate::counting::{Refusals, ask, run};
use sqlite::types::ValueRef;
use sqlite::{Alter, Connection};
use tb_register::{KeeperFault, Row};
use tb_terms::Cusip;
use tb_units::Ident;

const CREATE: &str =
    "CREATE TABLE IF NOT EXISTS auctions (auction TEXT PRIMARY KEY NOT NULL, cusip TEXT NOT NULL, \
    issue INTEGER NOT NULL, maturity INTEGER NOT NULL, offering INTEGER NOT NULL, \
    total INTEGER NOT NULL, high INTEGER, percent INTEGER, price INTEGER) STRICT";

const INSERT: &str =
    "INSERT INTO auctions (auction, cusip, issue, maturity, offering, total, high, percent, price) \
    VALUES (?1, ?2, ?3, ?4, ?5, ?6, ?7, ?8, ?9)";

const FIND: &str =
    "SELECT auction, cusip, issue, maturity, offering, total, high, percent, price FROM auctions WHERE auction = ?1";

const OF_CUSIP: &str =
    "SELECT auction, cusip, issue, maturity, offering, total, high, percent, price FROM auctions WHERE cusip = ?1";

/// Makes the table, where it isn't there.
pub(crate) fn create<S: Alter>(
    conn: &mut Connection<S>,
    refusals: &mut Refusals,
) -> Result<usize, KeeperFault>
    ensures made { HasCleanDisk (state S.Store conn.new)
        → IsTrue (state S.Store conn.new).is_open
        → IsUnmade (state S.Store conn.old)
        → OnOk result (IsMade (state S.Store conn.new)) }
    ensures empty { HasCleanDisk (state S.Store conn.new)
        → IsTrue (state S.Store conn.new).is_open
        → IsUnmade (state S.Store conn.old)
        → OnOk result ((state S.Store conn.new).now.trees 0 ≡ []) }
    ensures refused { HasCleanDisk (state S.Store conn.new)
        → IsTrue (state S.Store conn.new).is_open
        → IsUnmade (state S.Store conn.old)
        → OnErr result (IsUnmade (state S.Store conn.new)) }
    // A table that stands stays, and isn't refused for standing.
    ensures stays { HasCleanDisk (state S.Store conn.new)
        → IsTrue (state S.Store conn.new).is_open
        → IsMade (state S.Store conn.old)
        → StaysMade (state S.Store conn.old) (state S.Store conn.new) }
    ensures stands { HasCleanDisk (state S.Store conn.new)
        → IsTrue (state S.Store conn.old).is_open
        → IsMade (state S.Store conn.old)
        → IfErr result (LacksOrFails (state S.Store conn.old) (state S.Store conn.new)) }
    ensures no_fault { OnOk result (refusals.new ≡ refusals.old) }
    ensures counts { IfErr result (CountsFault refusals.old.faults.count refusals.new.faults.count) }
{
    run(conn, CREATE, &[], refusals)
}

/// Adds a row, whose name none has.
pub(crate) fn insert<S: Alter>(
    conn: &mut Connection<S>,
    row: &Row,
    refusals: &mut Refusals,
) -> Result<usize, KeeperFault>
    ensures added { HasCleanDisk (state S.Store conn.new)
        → IsTrue (state S.Store conn.new).is_open
        → IsMade (state S.Store conn.old)
        → row_named row.now.auction (rows_of (state S.Store conn.old)) ≡ None
        → OnOk result (Adds (kept row.now) (state S.Store conn.old) (state S.Store conn.new)) }
    ensures refused { HasCleanDisk (state S.Store conn.new)
        → IsTrue (state S.Store conn.new).is_open
        → IsMade (state S.Store conn.old)
        → OnErr result (StaysMade (state S.Store conn.old) (state S.Store conn.new)) }
    ensures no_fault { OnOk result (refusals.new ≡ refusals.old) }
    ensures counts { IfErr result (CountsFault refusals.old.faults.count refusals.new.faults.count) }
{
    run(
        conn,
        INSERT,
        &[
            ValueRef::Text(row.auction.bytes()),
            ValueRef::Text(&row.cusip.bytes),
            day(row.issue),
            day(row.maturity),
            amount(row.offering),
            amount(row.total),
            high_of(row.figures),
            percent_of(row.figures),
            price_of(row.figures),
        ],
        refusals,
    )
}

/// The rows of this name, as they are stored.
pub(crate) fn show_named<S: Alter>(
    conn: &mut Connection<S>,
    name: &Ident,
    refusals: &mut Refusals,
) -> Result<Vec<sqlite::Row>, KeeperFault>
    ensures rows { HasCleanDisk (state S.Store conn.new)
        → IsMade (state S.Store conn.old)
        → IfOk result (λ rows. IsPermutation
        (map shown (filter (is_at 1 name.now) ((state S.Store conn.old).now.trees 0)))
        rows.items) }
    ensures same { HasCleanDisk (state S.Store conn.new)
        → IsTrue (state S.Store conn.new).is_open
        → IsMade (state S.Store conn.old)
        → StaysMade (state S.Store conn.old) (state S.Store conn.new) }
    ensures no_fault { OnOk result (refusals.new ≡ refusals.old) }
    ensures counts { IfErr result (CountsFault refusals.old.faults.count refusals.new.faults.count) }
{
    ask(conn, FIND, &[ValueRef::Text(name.bytes())], refusals)
}

/// The rows of this bill, as they are stored.
pub(crate) fn show_cusip<S: Alter>(
    conn: &mut Connection<S>,
    cusip: &Cusip,
    refusals: &mut Refusals,
) -> Result<Vec<sqlite::Row>, KeeperFault>
    ensures rows { HasCleanDisk (state S.Store conn.new)
        → IsMade (state S.Store conn.old)
        → IfOk result (λ rows. IsPermutation
        (map shown (filter (is_at 2 cusip.now.bytes) ((state S.Store conn.old).now.trees 0)))
        rows.items) }
    ensures same { HasCleanDisk (state S.Store conn.new)
        → IsTrue (state S.Store conn.new).is_open
        → IsMade (state S.Store conn.old)
        → StaysMade (state S.Store conn.old) (state S.Store conn.new) }
    ensures no_fault { OnOk result (refusals.new ≡ refusals.old) }
    ensures counts { IfErr result (CountsFault refusals.old.faults.count refusals.new.faults.count) }
{
    ask(conn, OF_CUSIP, &[ValueRef::Text(&cusip.bytes)], refusals)
}
