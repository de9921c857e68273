//! Tests of the keeper in memory, and of one over a connection that is handed in.
use crate::rows::{adds, finds, has, row, without_awards};
use crate::stops::adopted;
use sqlite::Connection;
use std::test::Fail;
use tb_register_sql::{MemorySqlKeeper, SqlKeeper};

#[test]
fn a_row_stays_as_it_was_put(rt: HostRuntime) {
    let mut keeper = MemorySqlKeeper::in_memory(rt.alloc());
    let bill = row(&rt, "bill13", b"912797AA5", 76_000_000_000);
    assert!(rt; adds(&mut keeper, &bill));
    assert!(rt; finds(&mut keeper, &bill, &bill));
    assert!(rt;
        finds(
            &mut keeper,
            &row(&rt, "bill13", b"912797AA5", 1_000_000),
            &bill
        )
    );
    assert!(rt; has(&mut keeper, b"912797AA5", &[bill]));
}

#[test]
fn a_bill_has_its_rows_in_order(rt: HostRuntime) {
    let mut keeper = MemorySqlKeeper::in_memory(rt.alloc());
    let bill = row(&rt, "bill13", b"912797AA5", 76_000_000_000);
    let again = without_awards(&rt, "bill13-2", b"912797AA5", 100_000_000_000_000_000);
    let first = row(&rt, "a", b"912797AA5", 1_000_000);
    let other = row(&rt, "b", b"912797AB3", 1_000_000);
    assert!(rt; has(&mut keeper, b"912797AA5", &[]));
    assert!(rt; adds(&mut keeper, &bill));
    assert!(rt; adds(&mut keeper, &again));
    assert!(rt; adds(&mut keeper, &other));
    assert!(rt; adds(&mut keeper, &first));
    assert!(rt; has(&mut keeper, b"912797AA5", &[first, bill, again]));
    assert!(rt; has(&mut keeper, b"912797AB3", &[other]));
}

#[test]
fn an_adopted_connection_keeps_rows(rt: HostRuntime) -> Result<(), Fail> {
    let mut keeper = SqlKeeper::adopt(rt.alloc(), Connection::open_in_memory(rt.alloc())?);
    let bill = row(&rt, "bill13", b"912797AA5", 76_000_000_000);
    let first = without_awards(&rt, "a", b"912797AA5", 100_000_000_000_000_000);
    assert!(rt; adds(&mut keeper, &bill));
    assert!(rt; adds(&mut keeper, &first));
    let mut next = adopted(&rt, rt.alloc(), keeper.into_connection());
    assert!(rt; finds(&mut next, &first, &first));
    assert!(rt; has(&mut next, b"912797AA5", &[first, bill]));
    Ok(())
}
