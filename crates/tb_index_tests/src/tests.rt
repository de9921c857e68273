//! Tests of the public calls: look-ups beside walks over the rows.
use std::process::Abort;
use tb_index::{Chained, Counted, KeyOf, Latest, Named, TwiceKeyed};
use tb_units::Ident;

// A bid is found by its bidder and number, and counted by its auction.
#[derive(Clone, Copy, Debug, PartialEq, Eq)]
struct Bid {
    bidder: Ident,
    number: u64,
    auction: Ident,
}

struct ByNumber;

impl KeyOf<Bid> for ByNumber {
    type Key = (Ident, u64);

    ghost key_of = { λ bid. (bid.bidder, bid.number) };

    fn key_of(bid: &Bid) -> (Ident, u64) {
        (bid.bidder, bid.number)
    }
}

struct OfAuction;

impl KeyOf<Bid> for OfAuction {
    type Key = Ident;

    ghost key_of = { λ bid. bid.auction };

    fn key_of(bid: &Bid) -> Ident {
        bid.auction
    }
}

struct InAuction;

impl KeyOf<Bid> for InAuction {
    type Key = Ident;

    ghost key_of = { λ bid. bid.auction };

    fn key_of(bid: &Bid) -> Ident {
        bid.auction
    }
}

// A page is found by its year, and by its number.
#[derive(Clone, Copy, Debug, PartialEq, Eq)]
struct Page {
    year: u64,
    number: u64,
}

struct ByYear;

impl KeyOf<Page> for ByYear {
    type Key = u64;

    ghost key_of = { λ page. page.year };

    fn key_of(page: &Page) -> u64 {
        page.year
    }
}

struct ByPage;

impl KeyOf<Page> for ByPage {
    type Key = u64;

    ghost key_of = { λ page. page.number };

    fn key_of(page: &Page) -> u64 {
        page.number
    }
}

fn name(rt: &impl Abort, text: &str) -> Ident {
    Ident::read(text).expect(rt, "no name")
}

fn bid_of(rt: &impl Abort, bidder: &str, number: u64, auction: &str) -> Bid {
    Bid {
        bidder: name(rt, bidder),
        number,
        auction: name(rt, auction),
    }
}

type Bids = Counted<Bid, ByNumber, OfAuction>;

// The first bid of the bidder under the number stands at this place.
fn stands_at(
    rt: &impl Abort,
    bids: &Bids,
    bidder: &str,
    number: u64,
    place: Option<usize>,
) -> bool {
    let key = (name(rt, bidder), number);
    bids.keyed().find(&key) == place && bids.keyed().has(&key) == place.is_some()
}

// The first bid of the bidder under the number is the one in this auction.
fn is_found(rt: &impl Abort, bids: &Bids, bidder: &str, number: u64, auction: &str) -> bool {
    let key = (name(rt, bidder), number);
    bids.keyed().get(&key).copied() == Some(bid_of(rt, bidder, number, auction))
}

// So many bids are in the auction.
fn counts(rt: &impl Abort, bids: &Bids, auction: &str, count: usize) -> bool {
    bids.count(&name(rt, auction)) == count
}

// Adds a bid, for which there is room.
fn add(rt: &impl Abort, bids: &mut Bids, bidder: &str, number: u64, auction: &str) {
    assert!(rt; 0 < bids.spare());
    bids.push(bid_of(rt, bidder, number, auction));
}

// This bid is the last, and goes.
fn goes(rt: &impl Abort, bids: &mut Bids, bidder: &str, number: u64, auction: &str) -> bool {
    bids.pop() == Some(bid_of(rt, bidder, number, auction))
}

fn five_bids<R: AllocGlobal + Abort>(rt: &R) -> Bids {
    let mut bids: Bids = Counted::new(rt.alloc());
    assert!(rt; bids.spare() == 0);
    assert!(rt; bids.reserve(5).is_ok());
    add(rt, &mut bids, "ann", 7, "bill13");
    add(rt, &mut bids, "bob", 7, "bill13");
    add(rt, &mut bids, "ann", 8, "bill26");
    add(rt, &mut bids, "ann", 7, "bill26");
    add(rt, &mut bids, "eve", 1, "bill13");
    assert!(rt; bids.rows().len() == 5);
    bids
}

#[test]
fn bids_are_found_by_bidder_and_number_and_counted_by_auction(rt: HostRuntime) {
    let bids = five_bids(&rt);
    // The first of two that have the same bidder and number.
    assert!(rt; stands_at(&rt, &bids, "ann", 7, Some(0)));
    assert!(rt; stands_at(&rt, &bids, "ann", 8, Some(2)));
    assert!(rt; stands_at(&rt, &bids, "bob", 8, None));
    assert!(rt; stands_at(&rt, &bids, "eve", 1, Some(4)));
    assert!(rt; stands_at(&rt, &bids, "ev", 1, None));
    assert!(rt; is_found(&rt, &bids, "bob", 7, "bill13"));
    assert!(rt; counts(&rt, &bids, "bill13", 3));
    assert!(rt; counts(&rt, &bids, "bill26", 2));
    assert!(rt; counts(&rt, &bids, "bill52", 0));
}

#[test]
fn bids_that_go_are_found_and_counted_no_more(rt: HostRuntime) {
    let mut bids = five_bids(&rt);
    // The later of the two goes, and the first is still found.
    assert!(rt; goes(&rt, &mut bids, "eve", 1, "bill13"));
    assert!(rt; goes(&rt, &mut bids, "ann", 7, "bill26"));
    assert!(rt; stands_at(&rt, &bids, "ann", 7, Some(0)));
    assert!(rt; stands_at(&rt, &bids, "eve", 1, None));
    assert!(rt; counts(&rt, &bids, "bill13", 2));
    assert!(rt; counts(&rt, &bids, "bill26", 1));
}

type Pages = TwiceKeyed<Page, ByYear, ByPage>;

// A page is added.
fn adds_page(pages: &mut Pages, year: u64, number: u64) -> bool {
    if pages.reserve(1).is_err() {
        return false;
    }
    pages.push(Page { year, number });
    true
}

// A page of this year and a page of this number are found where a walk finds them.
fn finds_as_a_walk(pages: &Pages, key: u64) -> bool {
    let by_year = pages.rows().iter().position(|page| page.year == key);
    let by_number = pages.rows().iter().position(|page| page.number == key);
    pages.named().find(&key) == by_year
        && pages.named().has(&key) == by_year.is_some()
        && pages.find_other(&key) == by_number
        && pages.has_other(&key) == by_number.is_some()
}

fn finds_all(pages: &Pages) -> bool {
    for key in 0..9 {
        if !finds_as_a_walk(pages, key) {
            return false;
        }
    }
    true
}

// The page of a step is added.
fn adds_step(pages: &mut Pages, step: u32) -> bool {
    let step = u64::from(step);
    adds_page(pages, step * 5 % 8, step * 3 % 7)
}

// The first page of the year is the first of the number too.
fn is_first(pages: &Pages, year: u64, number: u64) -> bool {
    let page = Some(Page { year, number });
    pages.named().get(&year).copied() == page && pages.get_other(&number).copied() == page
}

// The last page goes.
fn page_goes(pages: &mut Pages) -> bool {
    pages.pop().is_some()
}

#[test]
fn pages_are_found_by_either_key_as_a_walk_finds_them(rt: HostRuntime) {
    let mut pages: Pages = TwiceKeyed::new(rt.alloc());
    assert!(rt; !page_goes(&mut pages));
    for step in 0..40u32 {
        assert!(rt; adds_step(&mut pages, step) && finds_all(&pages));
    }
    // The first page of the year 2 is the third, since 2 * 5 = 8 + 2.
    assert!(rt; is_first(&pages, 2, 6));
    for _ in 0..40 {
        assert!(rt; page_goes(&mut pages) && finds_all(&pages));
    }
    assert!(rt; pages.rows().len() == 0);
}

type Opened = Named<Bid, InAuction>;

// The first bid of the auction stands at this place.
fn opens_at(rt: &impl Abort, bids: &Opened, auction: &str, place: Option<usize>) -> bool {
    let auction = name(rt, auction);
    bids.find(&auction) == place && bids.has(&auction) == place.is_some()
}

// The first bid of the auction is this.
fn is_opened_by(rt: &impl Abort, bids: &Opened, auction: &str, bidder: &str, number: u64) -> bool {
    bids.get(&name(rt, auction)).copied() == Some(bid_of(rt, bidder, number, auction))
}

// The bids that three bidders open two auctions with.
fn three_opened<R: AllocGlobal + Abort>(rt: &R) -> Opened {
    let mut bids: Opened = Named::new(rt.alloc());
    assert!(rt; bids.reserve(3).is_ok());
    assert!(rt; 3 <= bids.spare());
    bids.push(bid_of(rt, "ann", 7, "bill13"));
    bids.push(bid_of(rt, "bob", 7, "bill26"));
    bids.push(bid_of(rt, "eve", 1, "bill13"));
    bids
}

// The last bid goes.
fn opened_goes(bids: &mut Opened) -> bool {
    bids.pop().is_some()
}

#[test]
fn the_first_bid_of_an_auction_is_found(rt: HostRuntime) {
    let mut bids = three_opened(&rt);
    assert!(rt; opens_at(&rt, &bids, "bill13", Some(0)));
    assert!(rt; opens_at(&rt, &bids, "bill26", Some(1)));
    assert!(rt; opens_at(&rt, &bids, "bill52", None));
    assert!(rt; is_opened_by(&rt, &bids, "bill13", "ann", 7));
    // The later of the two goes, and the first is still found; the only one of the other goes.
    assert!(rt; opened_goes(&mut bids) && opens_at(&rt, &bids, "bill13", Some(0)));
    assert!(rt; opened_goes(&mut bids) && opens_at(&rt, &bids, "bill26", None));
    assert!(rt; bids.len() == 1);
}

type LastBids = Latest<Bid, InAuction>;

// Adds a bid, for which it takes the memory.
fn add_last(rt: &impl Abort, bids: &mut LastBids, bidder: &str, number: u64, auction: &str) {
    assert!(rt; bids.reserve(1).is_ok());
    assert!(rt; 0 < bids.spare());
    bids.push(bid_of(rt, bidder, number, auction));
}

// The last bid of the auction is this.
fn is_last(rt: &impl Abort, bids: &LastBids, auction: &str, bidder: &str, number: u64) -> bool {
    bids.last(&name(rt, auction)).copied() == Some(bid_of(rt, bidder, number, auction))
}

// The auction has a last bid, and so any.
fn has_any(rt: &impl Abort, bids: &LastBids, auction: &str) -> bool {
    bids.has(&name(rt, auction))
}

// The auction has no last bid.
fn has_none(rt: &impl Abort, bids: &LastBids, auction: &str) -> bool {
    bids.last(&name(rt, auction)).is_none()
}

#[test]
fn the_last_bid_of_an_auction_is_found(rt: HostRuntime) {
    let mut bids: LastBids = Latest::new(rt.alloc());
    add_last(&rt, &mut bids, "ann", 7, "bill13");
    add_last(&rt, &mut bids, "bob", 7, "bill26");
    add_last(&rt, &mut bids, "eve", 1, "bill13");
    assert!(rt; is_last(&rt, &bids, "bill13", "eve", 1));
    assert!(rt; is_last(&rt, &bids, "bill26", "bob", 7));
    assert!(rt; has_none(&rt, &bids, "bill52"));
    assert!(rt; has_any(&rt, &bids, "bill26") && !has_any(&rt, &bids, "bill52"));
    assert!(rt; bids.rows().len() == 3);
}

type Chain = Chained<Bid, OfAuction, InAuction>;

// Adds a bid, for which it takes the memory.
fn add_in_chain(rt: &impl Abort, bids: &mut Chain, bidder: &str, number: u64, auction: &str) {
    assert!(rt; bids.reserve(1).is_ok());
    assert!(rt; 0 < bids.spare());
    bids.push(bid_of(rt, bidder, number, auction));
}

fn five_in_a_chain<R: AllocGlobal + Abort>(rt: &R) -> Chain {
    let mut bids = Chained::new(rt.alloc());
    add_in_chain(rt, &mut bids, "ann", 1, "bill13");
    add_in_chain(rt, &mut bids, "bob", 2, "bill26");
    add_in_chain(rt, &mut bids, "ann", 3, "bill13");
    add_in_chain(rt, &mut bids, "eve", 4, "bill13");
    add_in_chain(rt, &mut bids, "eve", 5, "bill26");
    bids
}

// The bids are those with these numbers, in this order.
fn are_numbered(bids: &[Bid], numbers: &[u64]) -> bool {
    if bids.len() != numbers.len() {
        return false;
    }
    for place in 0..bids.len() {
        if bids[place].number != numbers[place] {
            return false;
        }
    }
    true
}

// The bids in the auction are those with these numbers, in this order.
fn has_numbers<R: AllocGlobal + Abort>(
    rt: &R,
    bids: &Chain,
    auction: &str,
    numbers: &[u64],
) -> bool {
    match bids.rows_in(rt.alloc(), &name(rt, auction)) {
        Ok(found) => are_numbered(&found, numbers),
        Err(_) => false,
    }
}

// The bid in this place is this.
fn has_at(
    rt: &impl Abort,
    bids: &Chain,
    place: usize,
    bidder: &str,
    number: u64,
    auction: &str,
) -> bool {
    bids.rows().get(place).copied() == Some(bid_of(rt, bidder, number, auction))
}

// So many bids are in the auction.
fn chain_counts(rt: &impl Abort, bids: &Chain, auction: &str, count: usize) -> bool {
    bids.count(&name(rt, auction)) == count
}

#[test]
fn an_auction_is_gone_through_bid_by_bid(rt: HostRuntime) {
    let bids = five_in_a_chain(&rt);
    assert!(rt; has_numbers(&rt, &bids, "bill13", &[1, 3, 4]));
    assert!(rt; has_numbers(&rt, &bids, "bill26", &[2, 5]));
    assert!(rt; has_numbers(&rt, &bids, "bill52", &[]));
    assert!(rt; has_at(&rt, &bids, 2, "ann", 3, "bill13"));
    assert!(rt; chain_counts(&rt, &bids, "bill13", 3));
}

// The last bid goes.
fn chained_goes(bids: &mut Chain) -> bool {
    bids.pop().is_some()
}

#[test]
fn bids_of_an_auction_go_and_come(rt: HostRuntime) {
    let mut bids = five_in_a_chain(&rt);
    // The two last ones go, and another comes.
    assert!(rt; chained_goes(&mut bids));
    assert!(rt; chained_goes(&mut bids));
    assert!(rt; has_numbers(&rt, &bids, "bill13", &[1, 3]));
    add_in_chain(&rt, &mut bids, "bob", 6, "bill26");
    assert!(rt; has_numbers(&rt, &bids, "bill26", &[2, 6]));
    for _ in 0..4 {
        assert!(rt; chained_goes(&mut bids));
    }
    assert!(rt; !chained_goes(&mut bids));
    assert!(rt; has_numbers(&rt, &bids, "bill13", &[]));
}

// Up to the last page of the number there are so many.
fn ends_at(pages: &Pages, number: u64, end: usize) -> bool {
    pages.end_other(&number) == end
}

// Up to the last page before this one of its number there are so many.
fn ends_before(rt: &impl Abort, pages: &Pages, place: usize, end: usize) -> bool {
    assert!(rt; place < pages.rows().len());
    pages.end_before(place) == end
}

#[test]
fn pages_of_one_number_lead_back_to_each_other(rt: HostRuntime) {
    let mut pages: Pages = TwiceKeyed::new(rt.alloc());
    assert!(rt; adds_page(&mut pages, 1, 4));
    assert!(rt; adds_page(&mut pages, 2, 5));
    assert!(rt; adds_page(&mut pages, 3, 4));
    assert!(rt; adds_page(&mut pages, 4, 4));
    assert!(rt; ends_at(&pages, 4, 4));
    assert!(rt; ends_at(&pages, 5, 2));
    assert!(rt; ends_at(&pages, 6, 0));
    assert!(rt; ends_before(&rt, &pages, 3, 3));
    assert!(rt; ends_before(&rt, &pages, 2, 1));
    assert!(rt; ends_before(&rt, &pages, 0, 0));
}
