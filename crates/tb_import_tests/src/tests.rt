//! Tests of the public calls: tables that were written by hand, and tables at the limits.
use std::process::Abort;
use tb_history::{AddOnLine, AwardLine, Awards, HoldingLine, Holdings, Listing};
use tb_import::{BidTable, ImportFault, export_awards, export_holdings, read_bids, read_table};
use tb_message::Message;
use tb_terms::Cusip;
use tb_units::{Cents, Dollars, Ident, Rate};

fn bid(rt: &impl Abort, rate: Option<Rate>) -> Message {
    Message::Bid {
        auction: Ident::read("bill13").expect(rt, "a name"),
        bidder: Ident::read("fund1").expect(rt, "a name"),
        rate,
        amount: Dollars { value: 100 },
    }
}

// The first bid of the tests below, behind its number.
fn first(rt: &impl Abort) -> (u64, Message) {
    (7, bid(rt, Some(Rate { steps: 860 })))
}

// The second.
fn second(rt: &impl Abort) -> (u64, Message) {
    (8, bid(rt, None))
}

// Whether the table has the two bids of the tests below.
fn has_both<R: AllocGlobal + Abort>(rt: &R, table: &[u8]) -> bool {
    let bids = read_bids(rt.alloc(), table).expect(rt, "a table");
    let both = [first(rt), second(rt)];
    bids.as_slice() == both.as_slice()
}

// The first bad record of a table, or 0 where all records are good.
fn first_bad<R: AllocGlobal + Abort>(rt: &R, table: &[u8]) -> u64 {
    match read_bids(rt.alloc(), table) {
        Ok(_) => 0,
        Err(ImportFault::BadRecord(place)) => place,
        Err(ImportFault::OutOfMemory) => panic!(rt; "memory"),
    }
}

// The first bad record of a table is its third one, where the second is good and the third is this.
fn third_is_bad<R: AllocGlobal + Abort>(rt: &R, row: &str) -> bool {
    let mut table = Vec::new(rt.alloc());
    let front = b"number,auction,bidder,rate,amount\n7,bill13,fund1,4.300,0\n";
    assert!(rt; table.extend_from_slice(front).is_ok());
    assert!(rt; table.extend_from_slice(row.as_bytes()).is_ok());
    assert!(rt; table.extend_from_slice(b"\n8,,,,\n").is_ok());
    first_bad(rt, table.as_slice()) == 3
}

#[test]
fn equal_rows_count_once(rt: HostRuntime) {
    let table =
        b"number,auction,bidder,rate,amount\n7,bill13,fund1,4.300,100\n7,bill13,fund1,4.3,100\n8,bill13,fund1,,100\n";
    assert!(rt; has_both(&rt, table));
}

// So many bids of a table from a place on, in a buffer that had others.
fn run_of<R: AllocGlobal + Abort>(
    rt: &R,
    table: &BidTable,
    place: usize,
    most: usize,
) -> Vec<(u64, Message)> {
    let mut run = Vec::with_capacity(rt.alloc(), most).expect(rt, "memory");
    table.put_run(0, most, &mut run);
    table.put_run(place.min(table.len()), most, &mut run);
    run
}

// They are these.
fn runs<R: AllocGlobal + Abort>(
    rt: &R,
    table: &BidTable,
    place: usize,
    most: usize,
    wanted: &[(u64, Message)],
) -> bool {
    run_of(rt, table, place, most).as_slice() == wanted
}

#[test]
fn a_table_gives_its_bids_run_by_run(rt: HostRuntime) {
    let text =
        b"number,auction,bidder,rate,amount\n7,bill13,fund1,4.300,100\n7,bill13,fund1,4.3,100\n8,bill13,fund1,,100\n";
    let table = read_table(rt.alloc(), text).expect(&rt, "a table");
    assert!(rt; table.len() == 2);
    assert!(rt; runs(&rt, &table, 0, 64, &[first(&rt), second(&rt)]));
    assert!(rt; runs(&rt, &table, 0, 1, &[first(&rt)]));
    assert!(rt; runs(&rt, &table, 1, 64, &[second(&rt)]));
    assert!(rt; runs(&rt, &table, 2, 64, &[]));
}

#[test]
fn quotes_line_ends_and_marks_are_read(rt: HostRuntime) {
    let table =
        b"\xEF\xBB\xBF\"number\",auction,bidder,rate,amount\r\n\r\n7,\"bill13\",fund1,\"4.300\",100\r\n\n8,bill13,fund1,,100";
    assert!(rt; has_both(&rt, table));
}

#[test]
fn the_first_bad_record_is_told(rt: HostRuntime) {
    assert!(rt; first_bad(&rt, b"") == 1);
    assert!(rt; first_bad(&rt, b"\n\r\n") == 1);
    assert!(rt; first_bad(&rt, b"7,bill13,fund1,4.300,100\n") == 1);
    assert!(rt; first_bad(&rt, b"number,auction,bidder,rate\n") == 1);
    assert!(rt; first_bad(&rt, b"number,auction,bidder,rate,amount") == 0);
    let short = b"number,auction,bidder,rate,amount\n\n\n7,bill13,fund1,4.300\n";
    assert!(rt; first_bad(&rt, short) == 2);
    let long = b"number,auction,bidder,rate,amount\n7,bill13,fund1,4.300,100,1\n";
    assert!(rt; first_bad(&rt, long) == 2);
}

#[test]
fn the_first_bad_field_is_told(rt: HostRuntime) {
    assert!(rt; third_is_bad(&rt, "0,bill13,fund1,4.300,100"));
    assert!(rt; third_is_bad(&rt, "1000000000000001,bill13,fund1,4.300,100"));
    assert!(rt; third_is_bad(&rt, "07,bill13,fund1,4.300,100"));
    assert!(rt; third_is_bad(&rt, "7,Bill13,fund1,4.300,100"));
    assert!(rt; third_is_bad(&rt, "7,bill13,,4.300,100"));
    assert!(rt; third_is_bad(&rt, "7,bill13,fund1,4.301,100"));
    assert!(rt; third_is_bad(&rt, "7,bill13,fund1, ,100"));
    assert!(rt; third_is_bad(&rt, "7,bill13,fund1,4.300,1000000000001"));
    assert!(rt; third_is_bad(&rt, "7,bill13,fund1,4.300,"));
    assert!(rt; third_is_bad(&rt, "7,bill13,fund1,4.300,+100"));
}

#[test]
fn a_field_that_is_no_text_is_bad(rt: HostRuntime) {
    let table = b"number,auction,bidder,rate,amount\n7,bill13,fund1,\xFF,100\n";
    assert!(rt; first_bad(&rt, table) == 2);
}

// A short record of this number is added.
fn adds_row<R: AllocGlobal>(rt: &R, table: &mut String, number: u64) -> bool {
    match format!(in rt.alloc(); "{number},a,b,,0\n") {
        Ok(row) => table.push_str(row.as_str()).is_ok(),
        Err(_) => false,
    }
}

// As many short records as fit, with the numbers from 1 on.
fn short_records<R: AllocGlobal + Abort>(rt: &R) -> String {
    let mut table = String::new(rt.alloc());
    assert!(rt;
        table
            .push_str("number,auction,bidder,rate,amount\n")
            .is_ok()
    );
    for number in 1..131_073u64 {
        assert!(rt; adds_row(rt, &mut table, number));
    }
    table
}

// The last bid has this number.
fn end_with(bids: &[(u64, Message)], number: u64) -> bool {
    match bids.last() {
        Some(last) => last.0 == number,
        None => false,
    }
}

#[test]
fn short_records_are_read_whole(rt: HostRuntime) {
    let table = short_records(&rt);
    let bids = read_bids(rt.alloc(), table.as_bytes()).expect(&rt, "a table");
    assert!(rt; bids.len() == 131_072);
    assert!(rt; end_with(&bids, 131_072));
}

// The record of a bid is added, which is the same each time.
fn adds_same(table: &mut Vec<u8>) -> bool {
    table.extend_from_slice(b"1,a,b,,0\n").is_ok()
}

// As many records as there may be, which are all of one bid.
fn most_records<R: AllocGlobal + Abort>(rt: &R) -> Vec<u8> {
    let mut table = Vec::new(rt.alloc());
    assert!(rt;
        table
            .extend_from_slice(b"number,auction,bidder,rate,amount\n")
            .is_ok()
    );
    for _ in 0..999_999u64 {
        assert!(rt; adds_same(&mut table));
    }
    table
}

// So many bids are read.
fn has_bids<R: AllocGlobal + Abort>(rt: &R, table: &[u8], count: usize) -> bool {
    read_bids(rt.alloc(), table).expect(rt, "a table").len() == count
}

#[test]
fn record_1000001_is_one_too_many(rt: HostRuntime) {
    let mut table = most_records(&rt);
    assert!(rt; has_bids(&rt, table.as_slice(), 1));
    assert!(rt; adds_same(&mut table));
    assert!(rt; first_bad(&rt, table.as_slice()) == 1_000_001);
}

// A table of so many bytes whose record 2 is bad, so that what follows isn't read.
fn of_size<R: AllocGlobal + Abort>(rt: &R, size: usize) -> Vec<u8> {
    let mut table = vec![in rt.alloc(); 0; size].expect(rt, "memory");
    let front = b"number,auction,bidder,rate,amount\n7\n";
    for (place, byte) in front.iter().enumerate() {
        if place < table.len() {
            table[place] = *byte;
        }
    }
    table
}

// The first bad record of such a table.
fn first_bad_of_size<R: AllocGlobal + Abort>(rt: &R, size: usize) -> u64 {
    first_bad(rt, of_size(rt, size).as_slice())
}

#[test]
fn a_table_has_at_most_134217728_bytes(rt: HostRuntime) {
    assert!(rt; first_bad_of_size(&rt, 134_217_728) == 2);
    assert!(rt; first_bad_of_size(&rt, 134_217_729) == 1);
}

// Adds what a bidder is awarded, and what it pays.
fn add_award(
    rt: &impl Abort,
    awards: &mut Listing<AwardLine>,
    bidder: &str,
    amount: u64,
    payment: u64,
) {
    let line = AwardLine {
        bidder: Ident::read(bidder).expect(rt, "a name"),
        amount: Dollars {
            value: u128::from(amount),
        },
        payment: Cents {
            value: u128::from(payment),
        },
    };
    assert!(rt; awards.push(line).is_ok());
}

#[test]
fn awards_are_exported(rt: HostRuntime) {
    let none = Listing::new(rt.alloc());
    assert!(rt; exports_awards(&rt, none, None, "bidder,amount,payment\n"));
    let mut lines = Listing::new(rt.alloc());
    add_award(&rt, &mut lines, "fund1", 20_000_000_000, 1_978_412_778_000);
    add_award(&rt, &mut lines, "fund2", 0, 0);
    let wanted = "bidder,amount,payment\nfund1,20000000000,19784127780.00\nfund2,0,0.00\n";
    assert!(rt; exports_awards(&rt, lines, None, wanted));
}

#[test]
fn an_add_on_is_exported_last(rt: HostRuntime) {
    let addon = AddOnLine {
        amount: Dollars {
            value: 5_000_000_000,
        },
        payment: Cents {
            value: 494_603_195_000,
        },
    };
    let none = Listing::new(rt.alloc());
    let alone = "bidder,amount,payment\n+,5000000000,4946031950.00\n";
    assert!(rt; exports_awards(&rt, none, Some(addon), alone));
    let mut lines = Listing::new(rt.alloc());
    add_award(&rt, &mut lines, "fund2", 0, 0);
    let wanted = "bidder,amount,payment\nfund2,0,0.00\n+,5000000000,4946031950.00\n";
    assert!(rt; exports_awards(&rt, lines, Some(addon), wanted));
}

// Whether the table of awards is this text.
fn exports_awards<R: AllocGlobal + Abort>(
    rt: &R,
    lines: Listing<AwardLine>,
    addon: Option<AddOnLine>,
    wanted: &str,
) -> bool {
    let awards = Awards { lines, addon };
    let bytes = export_awards(rt.alloc(), &awards).expect(rt, "memory");
    bytes.as_slice() == wanted.as_bytes()
}

// Adds 200 dollars of a security, all of it pledged.
fn add_holding(rt: &impl Abort, holdings: &mut Holdings, bytes: [u8; 9]) {
    let line = HoldingLine {
        cusip: Cusip { bytes },
        held: Dollars { value: 200 },
        pledged: Dollars { value: 200 },
        free: Dollars { value: 0 },
    };
    assert!(rt; holdings.push(line).is_ok());
}

// Whether the table of holdings is this.
fn exports_holdings<R: AllocGlobal + Abort>(rt: &R, holdings: &Holdings, wanted: &[u8]) -> bool {
    let bytes = export_holdings(rt.alloc(), holdings).expect(rt, "memory");
    bytes.as_slice() == wanted
}

#[test]
fn holdings_are_exported(rt: HostRuntime) {
    let mut holdings = Holdings::new(rt.alloc());
    add_holding(&rt, &mut holdings, *b"912797AB3");
    add_holding(&rt, &mut holdings, *b"AA,\"B\"\r\nC");
    // What no CUSIP has stands in quotes, as RFC 4180 writes it.
    let wanted = b"cusip,held,pledged,free\n912797AB3,200,200,0\n\"AA,\"\"B\"\"\r\nC\",200,200,0\n";
    assert!(rt; exports_holdings(&rt, &holdings, wanted.as_slice()));
}
