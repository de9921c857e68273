//! Stories of accounts, with figures worked out by hand, and the order of the causes of a refusal.
ghost use Rattle.std.specs.Prelude.{◌≡◌, []};
ghost use Rattle.tb_holdings.specs.Book.{most_held, most_open};

use std::alloc::Global;
use std::process::Abort;
use tb_holdings::{Accounts, InsufficientFree, PledgeRefused, ReleaseRefused};
use tb_units::{Dollars, OutOfMemory};

fn dollars(value: u32) -> Dollars {
    Dollars {
        value: u128::from(value),
    }
}

// The limits of the definitions, written out.
fn limits()
    ensures held { most_held ≡ 10_000_000_000_000_000_000_000 }
    ensures open_marks { most_open ≡ 1_000 }
{}

// A book of which nothing was redeemed, so that its steps need not be told so.
#[derive(Drop)]
struct Live {
    book: Accounts,
    ghost live: { book.redeemed ≡ [] },
}

impl Live {
    fn new(alloc: Global) -> Live {
        Live {
            book: Accounts::new(alloc),
        }
    }

    // Takes the memory for so many accounts and marks.
    fn reserve(&mut self, accounts: u64, marks: u64, redeems: u64) -> bool {
        self.book.reserve(accounts, marks, redeems).is_ok()
    }

    // Credits the holder with so many dollars, which are far from the limit.
    fn credit(&mut self, holder: u32, security: u32, par: u32) -> bool {
        if self.book.reserve(1, 0, 0).is_err() {
            return false;
        }
        let total = self.book.total(security);
        // So that the sum may be held. No story here comes to this total.
        if total.value > 1_000_000_000 {
            return false;
        }
        let par = Dollars {
            value: u128::from(par),
        };
        self.book.credit(holder, security, par);
        true
    }

    // Moves par of the security from the one holder to another. `None` where it is no other, or memory is wanting.
    fn transfer(
        &mut self,
        from: u32,
        to: u32,
        security: u32,
        par: u32,
    ) -> Option<Result<(), InsufficientFree>> {
        if self.book.reserve(1, 0, 0).is_err() || from == to {
            return None;
        }
        Some(self.book.transfer(from, to, security, dollars(par)))
    }

    // Pledges par of the security to another under this number, if the number is new and par not too small. `None`
    // where that isn't so, or where memory is wanting.
    fn pledge(
        &mut self,
        holder: u32,
        number: u64,
        pledgee: u32,
        security: u32,
        par: u32,
    ) -> Option<Result<(), PledgeRefused>> {
        if self.book.reserve(0, 1, 0).is_err() {
            return None;
        }
        if holder == pledgee || par < 100 || self.book.mark(holder, number).is_some() {
            return None;
        }
        let par = Dollars {
            value: u128::from(par),
        };
        Some(self.book.pledge(holder, number, pledgee, security, par))
    }

    // Releases par of the mark, if the caller may.
    fn release(
        &mut self,
        holder: u32,
        number: u64,
        caller: u32,
        par: u32,
    ) -> Result<(), ReleaseRefused> {
        self.book.release(holder, number, caller, dollars(par))
    }

    // Pays the holders of security 7: the book then, and how much.
    fn redeem(mut self, rt: &impl Abort) -> (Accounts, u128) {
        assert!(rt; self.book.reserve(0, 0, 1).is_ok());
        let mut book = self.book;
        let paid = book.redeem(7).value;
        (book, paid)
    }
}

// The holder holds so much of security 7, and so much of it is pledged and free.
fn stands(book: &Accounts, holder: u32, held: u128, pledged: u128, free: u128) -> bool {
    book.held(holder, 7).value == held
        && book.pledged(holder, 7).value == pledged
        && book.free(holder, 7).value == free
}

// The holder was paid so much of security 7.
fn is_paid(book: &Accounts, holder: u32, par: u128) -> bool {
    book.paid(holder, 7).value == par
}

// Par of security 7 is moved.
fn moves(live: &mut Live, from: u32, to: u32, par: u32) -> bool {
    live.transfer(from, to, 7, par) == Some(Ok(()))
}

// Par of security 7 isn't moved, since so much is free.
fn lacks(live: &mut Live, from: u32, to: u32, par: u32, free: u128) -> bool {
    match live.transfer(from, to, 7, par) {
        Some(Err(refusal)) => refusal.free.value == free,
        _ => false,
    }
}

// Holder 1 pledges par of security 7 to holder 2.
fn pledges(live: &mut Live, number: u64, par: u32) -> bool {
    matches!(live.pledge(1, number, 2, 7, par), Some(Ok(())))
}

// It may not, for this cause.
fn pledge_refused(live: &mut Live, number: u64, par: u32, cause: PledgeRefused) -> bool {
    live.pledge(1, number, 2, 7, par) == Some(Err(cause))
}

// The caller releases par of a mark of holder 1.
fn releases(live: &mut Live, number: u64, caller: u32, par: u32) -> bool {
    live.release(1, number, caller, par).is_ok()
}

// It may not, for this cause.
fn release_refused(
    live: &mut Live,
    number: u64,
    caller: u32,
    par: u32,
    cause: ReleaseRefused,
) -> bool {
    match live.release(1, number, caller, par) {
        Ok(()) => false,
        Err(refusal) => refusal == cause,
    }
}

fn more_than(left: u32) -> ReleaseRefused {
    ReleaseRefused::MoreThanPledged {
        left: dollars(left),
    }
}

// Holder 1 has 1,000 dollars, moves 400 of them, and pledges 500 of the other 600.
fn par_is_pledged(rt: &impl Abort, live: &mut Live) {
    assert!(rt; stands(&live.book, 1, 1000, 0, 1000));
    assert!(rt; moves(live, 1, 2, 400));
    assert!(rt; lacks(live, 1, 2, 700, 600));
    assert!(rt; pledges(live, 12, 500));
    assert!(rt; stands(&live.book, 1, 600, 500, 100));
    assert!(rt; lacks(live, 1, 2, 200, 100));
}

// The pledgee releases 300 of them.
fn par_is_released(rt: &impl Abort, live: &mut Live) {
    assert!(rt; releases(live, 12, 2, 300));
    assert!(rt; release_refused(live, 12, 2, 300, more_than(200)));
    assert!(rt; release_refused(live, 12, 1, 100, ReleaseRefused::NotPledgee));
    assert!(rt; release_refused(live, 13, 2, 100, ReleaseRefused::UnknownPledge));
}

#[test]
fn par_is_moved_and_pledged_and_paid(rt: HostRuntime) {
    let mut live = Live::new(rt.alloc());
    // All the memory of the story: where its steps reserve, there is room.
    assert!(rt; live.reserve(8, 1, 1));
    assert!(rt; live.credit(1, 7, 1000));
    par_is_pledged(&rt, &mut live);
    par_is_released(&rt, &mut live);
    // It moves the 400 that are free then, and what both hold is paid.
    assert!(rt; moves(&mut live, 1, 2, 400));
    assert!(rt; stands(&live.book, 1, 200, 200, 0));
    assert!(rt; stands(&live.book, 2, 800, 0, 800));
    assert!(rt; live.book.total(7).value == 1000);
    let (mut book, paid) = live.redeem(&rt);
    assert!(rt; paid == 1000 && book.total(7).value == 0);
    assert!(rt; stands(&book, 1, 0, 0, 0));
    assert!(rt; is_paid(&book, 1, 200) && is_paid(&book, 2, 800));
    assert!(rt; book.release(1, 12, 2, dollars(100)) == Err(more_than(0)));
}

// Pledges 100 dollars of holder 1 under a thousand numbers.
fn pledge_a_thousand(rt: &impl Abort, live: &mut Live) {
    for number in 1..1001 {
        assert!(rt; pledges(live, number, 100));
    }
}

#[test]
fn a_holder_has_at_most_a_thousand_open_marks(rt: HostRuntime) {
    let mut live = Live::new(rt.alloc());
    assert!(rt; live.credit(1, 7, 100_050));
    pledge_a_thousand(&rt, &mut live);
    assert!(rt; live.book.open_marks(1) == 1000);
    // Too little is free, and 1,000 marks are open.
    let free = PledgeRefused::InsufficientFree { free: dollars(50) };
    assert!(rt; pledge_refused(&mut live, 1001, 100, free));
    // A mark with 1 dollar left is open.
    assert!(rt; releases(&mut live, 500, 2, 99) && live.book.open_marks(1) == 1000);
    assert!(rt; stands(&live.book, 1, 100_050, 99_901, 149));
    assert!(rt; pledge_refused(&mut live, 1001, 100, PledgeRefused::PledgeQuota));
    assert!(rt; releases(&mut live, 500, 2, 1) && live.book.open_marks(1) == 999);
    assert!(rt; pledges(&mut live, 1001, 100));
    assert!(rt; live.book.open_marks(1) == 1000);
}

// Gives three holders 20,000 dollars each of security 7 and of security 8.
fn credit_three(rt: &impl Abort, live: &mut Live) {
    for holder in 1..4 {
        assert!(rt; live.credit(holder, 7, 20_000));
        assert!(rt; live.credit(holder, 8, 20_000));
    }
}

// Pledges under 300 numbers for each of the three holders, under even ones par of security 7 and under odd ones of 8.
fn pledge_across_blocks(rt: &impl Abort, live: &mut Live) {
    for step in 0..900u32 {
        let number = step / 3;
        let pledged = live.pledge(step % 3 + 1, u64::from(number), 9, number % 2 + 7, 100);
        assert!(rt; matches!(pledged, Some(Ok(()))));
    }
}

// So much is left of the mark.
fn is_left(book: &Accounts, holder: u32, number: u64, left: u128) -> bool {
    match book.mark(holder, number) {
        Some(mark) => mark.left.value == left,
        None => false,
    }
}

// So many marks of the holder are open, so much is pledged of security 8, and so much is left of its last two marks.
fn has_marks(
    book: &Accounts,
    holder: u32,
    open: u64,
    pledged: u128,
    even: u128,
    odd: u128,
) -> bool {
    book.open_marks(holder) == open
        && book.pledged(holder, 8).value == pledged
        && is_left(book, holder, 298, even)
        && is_left(book, holder, 299, odd)
}

#[test]
fn marks_are_found_and_summed_across_blocks(rt: HostRuntime) {
    let mut live = Live::new(rt.alloc());
    credit_three(&rt, &mut live);
    pledge_across_blocks(&rt, &mut live);
    assert!(rt; stands(&live.book, 2, 20_000, 15_000, 5_000));
    assert!(rt; has_marks(&live.book, 2, 300, 15_000, 100, 100));
    // A mark of either security is released.
    assert!(rt; live.release(2, 136, 9, 100).is_ok());
    assert!(rt; live.release(2, 299, 9, 60).is_ok());
    assert!(rt; stands(&live.book, 2, 20_000, 14_900, 5_100));
    assert!(rt; has_marks(&live.book, 2, 299, 14_940, 100, 40));
    let (book, paid) = live.redeem(&rt);
    assert!(rt; paid == 60_000);
    assert!(rt; has_marks(&book, 1, 150, 15_000, 0, 100));
    assert!(rt; has_marks(&book, 2, 150, 14_940, 0, 40));
    assert!(rt; has_marks(&book, 3, 150, 15_000, 0, 100));
}

#[test]
fn a_stranger_is_refused_before_too_much_is(rt: HostRuntime) {
    let mut live = Live::new(rt.alloc());
    assert!(rt; live.credit(1, 7, 1000));
    assert!(rt; pledges(&mut live, 12, 500));
    assert!(rt; release_refused(&mut live, 12, 3, 600, ReleaseRefused::NotPledgee));
    assert!(rt; release_refused(&mut live, 12, 2, 600, more_than(500)));
}

#[test]
fn what_a_holder_holds_comes_in_the_order_of_securities(rt: HostRuntime) {
    let mut live = Live::new(rt.alloc());
    assert!(rt; live.credit(1, 7, 1000));
    assert!(rt; live.credit(1, 3, 500));
    assert!(rt; live.credit(2, 5, 200));
    // What holder 2 holds of security 5 is passed over.
    assert!(rt; live.book.next_held(1, 0) == Some(3));
    assert!(rt; live.book.next_held(1, 3) == Some(3));
    assert!(rt; live.book.next_held(1, 4) == Some(7));
    assert!(rt; live.book.next_held(1, 8) == None);
    assert!(rt; live.transfer(1, 2, 3, 500) == Some(Ok(())));
    assert!(rt; live.book.next_held(1, 0) == Some(7));
    assert!(rt; live.book.next_held(2, 0) == Some(3));
}

// What a holder is credited with, which tells the holders of the next test apart.
fn par_of(holder: u32) -> u32 {
    holder.saturating_add(100)
}

// Credits 600 of the holders up to 600 with par of security 7 and of security 8. 7 times the steps leave each
// remainder of 601 once, and 594 not at all.
fn credit_many(rt: &impl Abort, live: &mut Live) {
    for step in 0..600u32 {
        let holder = step * 7 % 601;
        assert!(rt; live.credit(holder, 7, par_of(holder)));
        assert!(rt; live.credit(holder, 8, par_of(holder)));
    }
}

// The holder was paid what it was credited with of security 7, and holds that of security 8 still.
fn was_paid(book: &Accounts, holder: u32) -> bool {
    let par = u128::from(par_of(holder));
    book.held(holder, 7).value == 0
        && is_paid(book, holder, par)
        && book.held(holder, 8).value == par
        && book.next_held(holder, 0) == Some(8)
}

// The holder has nothing, and never had.
fn has_nothing(book: &Accounts, holder: u32) -> bool {
    book.held(holder, 7).value == 0
        && is_paid(book, holder, 0)
        && book.held(holder, 8).value == 0
        && book.next_held(holder, 0) == None
}

#[test]
fn accounts_of_many_blocks_are_found_and_paid(rt: HostRuntime) {
    let mut live = Live::new(rt.alloc());
    credit_many(&rt, &mut live);
    // The remainders sum to 600 * 601 / 2 - 594, and each credit has 100 besides.
    assert!(rt; live.book.total(7).value == 239_706);
    assert!(rt; live.book.total(8).value == 239_706);
    let (book, paid) = live.redeem(&rt);
    assert!(rt; paid == 239_706);
    for holder in 0..594u32 {
        assert!(rt; was_paid(&book, holder));
    }
    assert!(rt; has_nothing(&book, 594));
    for holder in 595..601u32 {
        assert!(rt; was_paid(&book, holder));
    }
}

#[test]
fn all_that_may_be_held_is_credited(rt: HostRuntime) {
    limits();
    let most = Dollars {
        value: 10_000_000_000_000_000_000_000,
    };
    let mut book = Accounts::new(rt.alloc());
    assert!(rt; book.reserve(1, 0, 0).is_ok());
    book.credit(1, 7, most);
    assert!(rt; book.total(7) == most);
}

// Memory for so much isn't there, and what holder 1 has stays.
fn wants_memory(live: &mut Live, accounts: u64, marks: u64, redeems: u64) -> bool {
    live.book.reserve(accounts, marks, redeems) == Err(OutOfMemory)
        && stands(&live.book, 1, 1000, 500, 500)
}

#[test]
fn want_of_memory_leaves_the_lists(rt: HostRuntime) {
    let mut live = Live::new(rt.alloc());
    assert!(rt; live.credit(1, 7, 1000));
    assert!(rt; pledges(&mut live, 12, 500));
    assert!(rt; wants_memory(&mut live, u64::MAX, 0, 0));
    assert!(rt; wants_memory(&mut live, 0, u64::MAX, 0));
    assert!(rt; wants_memory(&mut live, 0, 0, u64::MAX));
}
