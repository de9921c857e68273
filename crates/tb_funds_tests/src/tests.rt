//! Money and offers, with figures worked out by hand.
ghost use Rattle.std.specs.Prelude.{◌≡◌, true};
ghost use Rattle.tb_funds.specs.Funds.{HasOpenOffer, most_funds, most_offers};

use std::process::Abort;
use tb_funds::{Funds, InsufficientFunds, Offer, OfferQuota, State};
use tb_units::{Cents, Dollars};

// The limits of the definitions, written out.
fn limits()
    ensures funds { most_funds ≡ 10_000_000_000_000_000_000_000 }
    ensures offers { most_offers ≡ 1_000 }
{}

fn cents(value: u64) -> Cents
    ensures { result.value ≡ value }
{
    Cents {
        value: u128::from(value),
    }
}

// Par of security 7 for a price.
fn offer_of(seller: u32, number: u64, buyer: u32, price: u64) -> Offer
    ensures seller { result.seller ≡ seller }
    ensures number { result.number ≡ number }
{
    Offer {
        seller,
        number,
        buyer,
        security: 7,
        par: Dollars { value: 300 },
        price: cents(price),
    }
}

// Gives the holder so much, where all stays far below the bound.
fn deposits(funds: &mut Funds, holder: u32, value: u64) -> bool {
    if funds.reserve(1, 0).is_err() {
        return false;
    }
    let total = funds.total();
    if total.value > 1_000_000_000_000_000_000_000 {
        return false;
    }
    funds.deposit(holder, cents(value));
    true
}

// Gives the holder all that there may still be.
fn deposits_the_rest(funds: &mut Funds, holder: u32) -> bool {
    if funds.reserve(1, 0).is_err() {
        return false;
    }
    let rest = 10_000_000_000_000_000_000_000 - funds.total().value;
    funds.deposit(holder, Cents { value: rest });
    true
}

// So much is taken from the holder.
fn withdraws(funds: &mut Funds, holder: u32, value: u64) -> bool {
    funds.withdraw(holder, cents(value)).is_ok()
}

// It isn't, since so much is there.
fn lacks(funds: &mut Funds, holder: u32, value: u64, balance: u64) -> bool {
    match funds.withdraw(holder, cents(value)) {
        Ok(()) => false,
        Err(refusal) => refusal.balance == cents(balance),
    }
}

// Offers par under this number, if it is new. `None` where it isn't, or where memory is wanting.
fn offer(
    funds: &mut Funds,
    seller: u32,
    number: u64,
    price: u64,
) -> Option<Result<(), OfferQuota>> {
    if funds.reserve(0, 1).is_err() || funds.find(seller, number).is_some() {
        return None;
    }
    Some(funds.offer(offer_of(seller, number, 1, price)))
}

// Par is offered to holder 1.
fn offers(funds: &mut Funds, seller: u32, number: u64, price: u64) -> bool {
    offer(funds, seller, number, price) == Some(Ok(()))
}

// It isn't, since the seller has too many open offers.
fn has_too_many(funds: &mut Funds, seller: u32, number: u64) -> bool {
    offer(funds, seller, number, 100) == Some(Err(OfferQuota))
}

// The seller's offer of this number is open.
fn is_open(funds: &Funds, seller: u32, number: u64) -> bool
    ensures { result ≡ true → HasOpenOffer seller number funds.now }
{
    match funds.find(seller, number) {
        Some(found) => match found.1 {
            State::Open => true,
            _ => false,
        },
        None => false,
    }
}

// Buys the offer, if it is open. `None` where it isn't, or where memory is wanting.
fn buy(funds: &mut Funds, seller: u32, number: u64) -> Option<Result<(), InsufficientFunds>> {
    if funds.reserve(1, 0).is_err() || !is_open(funds, seller, number) {
        return None;
    }
    Some(funds.buy(seller, number))
}

// The offer is bought.
fn buys(funds: &mut Funds, seller: u32, number: u64) -> bool {
    buy(funds, seller, number) == Some(Ok(()))
}

// It isn't, since the buyer has so much.
fn buyer_lacks(funds: &mut Funds, seller: u32, number: u64, balance: u64) -> bool {
    let refusal = InsufficientFunds {
        balance: cents(balance),
    };
    buy(funds, seller, number) == Some(Err(refusal))
}

// The offer is taken back, if it is open.
fn retracts(funds: &mut Funds, seller: u32, number: u64) -> bool {
    if !is_open(funds, seller, number) {
        return false;
    }
    funds.retract(seller, number);
    true
}

// The offer of this number to holder 1 for this price is found, in this state.
fn is_found(funds: &Funds, seller: u32, number: u64, price: u64, state: State) -> bool {
    funds.find(seller, number) == Some((offer_of(seller, number, 1, price), state))
}

// Holders 1 and 2 have so much, and all together.
fn have(funds: &Funds, first: u64, second: u64) -> bool {
    funds.balance(1) == cents(first)
        && funds.balance(2) == cents(second)
        && funds.total().value == u128::from(first) + u128::from(second)
}

// Holder 1 has 1,000.00, and buys an offer of holder 2 for 297.00.
fn purchase<R: AllocGlobal + Abort>(rt: &R) -> Funds {
    let mut funds = Funds::new(rt.alloc());
    // All the memory of the story: where its steps reserve, there is room.
    assert!(rt; funds.reserve(8, 8).is_ok());
    assert!(rt; deposits(&mut funds, 1, 100_000));
    assert!(rt; offers(&mut funds, 2, 20, 29_700));
    assert!(rt; is_found(&funds, 2, 20, 29_700, State::Open));
    assert!(rt; buys(&mut funds, 2, 20));
    funds
}

#[test]
fn a_purchase_moves_its_price_once(rt: HostRuntime) {
    let mut funds = purchase(&rt);
    assert!(rt; have(&funds, 70_300, 29_700));
    assert!(rt; is_found(&funds, 2, 20, 29_700, State::Bought));
    // It can't be bought again, nor taken back.
    assert!(rt; buy(&mut funds, 2, 20).is_none());
    assert!(rt; !retracts(&mut funds, 2, 20));
    assert!(rt; have(&funds, 70_300, 29_700));
    assert!(rt; funds.find(1, 20).is_none());
    assert!(rt; funds.find(2, 21).is_none());
}

#[test]
fn a_cent_too_much_is_refused_with_the_balance(rt: HostRuntime) {
    let mut funds = purchase(&rt);
    assert!(rt; offers(&mut funds, 2, 22, 70_301));
    assert!(rt; buyer_lacks(&mut funds, 2, 22, 70_300));
    assert!(rt; is_found(&funds, 2, 22, 70_301, State::Open));
    assert!(rt; lacks(&mut funds, 2, 29_701, 29_700));
    assert!(rt; lacks(&mut funds, 3, 1, 0));
    assert!(rt; have(&funds, 70_300, 29_700));
    assert!(rt; offers(&mut funds, 2, 23, 70_300));
    assert!(rt; buys(&mut funds, 2, 23));
    assert!(rt; have(&funds, 0, 100_000));
    assert!(rt; withdraws(&mut funds, 2, 100_000));
    assert!(rt; have(&funds, 0, 0));
}

#[test]
fn an_offer_is_taken_back_once(rt: HostRuntime) {
    let mut funds = purchase(&rt);
    assert!(rt; offers(&mut funds, 2, 22, 100));
    assert!(rt; funds.open_offers(2) == 1);
    assert!(rt; retracts(&mut funds, 2, 22));
    assert!(rt; is_found(&funds, 2, 22, 100, State::Retracted));
    assert!(rt; !retracts(&mut funds, 2, 22));
    assert!(rt; buy(&mut funds, 2, 22).is_none());
    assert!(rt; funds.open_offers(2) == 0);
    assert!(rt; have(&funds, 70_300, 29_700));
}

#[test]
fn a_thousand_offers_are_open_and_no_more(rt: HostRuntime) {
    let mut funds = Funds::new(rt.alloc());
    assert!(rt; deposits(&mut funds, 1, 100));
    for number in 1..=1000u64 {
        assert!(rt; offers(&mut funds, 2, number, 100));
    }
    assert!(rt; funds.open_offers(2) == 1000);
    assert!(rt; has_too_many(&mut funds, 2, 1001));
    assert!(rt; funds.find(2, 1001).is_none());
    // Another seller's are its own.
    assert!(rt; offers(&mut funds, 3, 1001, 100));
    assert!(rt; funds.open_offers(3) == 1);
    // One that is taken back, and one that is bought, make place for one more each.
    assert!(rt; retracts(&mut funds, 2, 500));
    assert!(rt; offers(&mut funds, 2, 1001, 100));
    assert!(rt; has_too_many(&mut funds, 2, 1002));
    assert!(rt; buys(&mut funds, 2, 1));
    assert!(rt; offers(&mut funds, 2, 1002, 100));
    assert!(rt; has_too_many(&mut funds, 2, 1003));
    assert!(rt; funds.open_offers(2) == 1000);
}

#[test]
fn the_largest_amounts_move(rt: HostRuntime) {
    let mut funds = Funds::new(rt.alloc());
    // The most that a message can say: 10^14 cents.
    assert!(rt; deposits(&mut funds, 1, 100_000_000_000_000));
    assert!(rt; deposits(&mut funds, 2, 100_000_000_000_000));
    assert!(rt; offers(&mut funds, 2, 1, 100_000_000_000_000));
    assert!(rt; buys(&mut funds, 2, 1));
    assert!(rt; have(&funds, 0, 200_000_000_000_000));
    assert!(rt; lacks(&mut funds, 2, 200_000_000_000_001, 200_000_000_000_000));
    // And the most that there may be: 10^22.
    assert!(rt; deposits_the_rest(&mut funds, 2));
    assert!(rt; funds.balance(2).value == 10_000_000_000_000_000_000_000);
    assert!(rt; funds.total().value == 10_000_000_000_000_000_000_000);
    assert!(rt; offers(&mut funds, 2, 2, 1));
    assert!(rt; buyer_lacks(&mut funds, 2, 2, 0));
    assert!(rt; withdraws(&mut funds, 2, 100_000_000_000_000));
    assert!(rt; funds.total().value == 9_999_999_900_000_000_000_000);
    assert!(rt; deposits_the_rest(&mut funds, 1));
    assert!(rt; funds.balance(1).value == 100_000_000_000_000);
}

// All that there may be, and a cent more.
const MOST: Cents = Cents {
    value: 10_000_000_000_000_000_000_000,
};

const MORE: Cents = Cents {
    value: 10_000_000_000_000_000_000_001,
};

// Holder 2 offers par to holder 1 for so much under this number.
fn offers_for(funds: &mut Funds, number: u64, price: Cents) -> bool {
    if funds.reserve(0, 1).is_err() || funds.find(2, number).is_some() {
        return false;
    }
    let offer = Offer {
        price,
        ..offer_of(2, number, 1, 0)
    };
    funds.offer(offer).is_ok()
}

// The offer isn't bought, since the buyer has no more than there may be.
fn buyer_has_the_most(funds: &mut Funds, number: u64) -> bool {
    let refusal = InsufficientFunds { balance: MOST };
    buy(funds, 2, number) == Some(Err(refusal))
}

// The holder has all that there may be.
fn has_all(funds: &Funds, holder: u32) -> bool {
    funds.balance(holder) == MOST && funds.total() == MOST
}

#[test]
fn all_that_there_may_be_is_bought_for_and_withdrawn(rt: HostRuntime) {
    let mut funds = Funds::new(rt.alloc());
    assert!(rt; deposits_the_rest(&mut funds, 1));
    assert!(rt; has_all(&funds, 1));
    assert!(rt; offers_for(&mut funds, 1, MORE));
    assert!(rt; buyer_has_the_most(&mut funds, 1));
    assert!(rt; has_all(&funds, 1));
    assert!(rt; offers_for(&mut funds, 2, MOST));
    assert!(rt; buys(&mut funds, 2, 2));
    assert!(rt; has_all(&funds, 2));
    assert!(rt; funds.balance(1) == cents(0));
    // A cent more isn't there, and all is taken at once.
    assert!(rt; funds.withdraw(2, MORE) == Err(InsufficientFunds { balance: MOST }));
    assert!(rt; has_all(&funds, 2));
    assert!(rt; funds.withdraw(2, MOST).is_ok());
    assert!(rt; have(&funds, 0, 0));
    assert!(rt; deposits_the_rest(&mut funds, 1));
    assert!(rt; has_all(&funds, 1));
}
