//! One story of a security, from its settlement to its redemption, with figures worked out by hand.
ghost use Rattle.std.specs.Prelude.{◌≡◌, ◌≤◌, ◌^◌};

use std::test::Fail;
use tb_holdings::{Accounts, ReleaseRefused};
use tb_movements::*;
use tb_units::Dollars;

fn dollars(value: u128) -> Dollars
    requires { value ≤ 10 ^ 22 }
    ensures { result.value ≡ value }
{
    Dollars { value }
}

// What the holder holds of security 7, and what of it is free.
fn standing(book: &Accounts, holder: u32) -> (u128, u128) {
    (book.held(holder, 7).value, book.free(holder, 7).value)
}

#[test]
fn what_is_issued_is_held_and_paid(rt: HostRuntime) -> Result<(), Fail> {
    par_is_conserved();
    figures_are_told();
    entries_mean_legal_movements::<u64>();
    let mut book = empty_book(rt.alloc());
    reserve(&mut book, 8, 1, 1)?;
    // Two bidders of holder 1 were awarded par.
    let awards = [
        Award {
            holder: 1,
            par: dollars(600),
        },
        Award {
            holder: 2,
            par: dollars(300),
        },
        Award {
            holder: 1,
            par: dollars(400),
        },
    ];
    credit_all(&mut book, 7, &awards);
    assert_eq!(rt; standing(&book, 1), (1000, 1000));
    assert_eq!(rt; standing(&book, 2), (300, 300));
    assert_eq!(rt; transfer(&mut book, 1, 2, 7, dollars(200)), Ok(()));
    assert_eq!(rt; pledge(&mut book, 2, 5, 1, 7, dollars(400)), Ok(()));
    assert_eq!(rt; standing(&book, 2), (500, 100));
    assert_eq!(rt;
        release(&mut book, 2, 5, 2, dollars(100)),
        Err(ReleaseRefused::NotPledgee)
    );
    assert_eq!(rt; release(&mut book, 2, 5, 1, dollars(100)), Ok(()));
    assert_eq!(rt; standing(&book, 2), (500, 200));
    assert_eq!(rt; redeem(&mut book, 7).value, 1300);
    assert_eq!(rt;
        (
            book.paid(1, 7).value,
            book.paid(2, 7).value,
            book.total(7).value
        ),
        (800, 500, 0)
    );
    Ok(())
}
