//! Tests of the public calls. The bytes of records were spelled by hand from the table of formats.
ghost use Rattle.tb_message.specs.Spelling.{IsInRange};

use std::alloc::Global;
use std::process::Abort;
use tb_message::{
    Entry, Key, Kind, Message, Query, ReadFault, Request, RequestReader, Verdict, read_request,
    verdict_line,
};
use tb_terms::{Field, Refusal};
use tb_units::{Cents, Day, Dollars, Ident, Moment};

/// A record in hexadecimal, and the text of its message, for each kind. All are of one moment.
const RECORDS: &str =
    r#"086f70657261746f72000000000000000100000000672862e001076465616c657231026b31 {"number":1,"kind":"register","submitter":"dealer1","key":"k1"}
086f70657261746f72000000000000000200000000672862e0020566756e6431076465616c657231 {"number":2,"kind":"enrol","bidder":"fund1","submitter":"dealer1"}
086f70657261746f72000000000000000300000000672862e00300004ea8 {"number":3,"kind":"holiday","day":"2025-02-17"}
086f70657261746f72000000000000000400000000672862e0040662696c6c313339313237393741413500000011b1f3f80000000000000000640000000000989680000000003b9aca0000000006317bca0000004e3f029402b200004e4200004e9d {"number":4,"kind":"announce","auction":"bill13","cusip":"912797AA5","offering":76000000000,"minimum":100,"ceiling":10000000,"floor":1000000000,"threshold":26600000000,"date":"2024-11-04","nc_close":"11:00","c_close":"11:30","issue":"2024-11-07","maturity":"2025-02-06"}
076465616c657231000000000000000100000000672862e0050662696c6c31330566756e64310000035600000004a817c800 {"number":1,"kind":"bid","auction":"bill13","bidder":"fund1","rate":"4.27","amount":20000000000}
076465616c657231000000000000000200000000672862e0060662696c6c31330566756e64310000000000989680 {"number":2,"kind":"noncompetitive","auction":"bill13","bidder":"fund1","amount":10000000}
076465616c657231000000000000000300000000672862e0070662696c6c31330000000000000001 {"number":3,"kind":"cancel","auction":"bill13","bid":1}
076465616c657231000000000000000400000000672862e0080662696c6c31330566756e6431fffffffffffffe0c {"number":4,"kind":"position","auction":"bill13","bidder":"fund1","position":-500}
086f70657261746f72000000000000000500000000672862e0090662696c6c3133 {"number":5,"kind":"publish","auction":"bill13"}
086f70657261746f72000000000000000600000000672862e00a0662696c6c3133 {"number":6,"kind":"settle","auction":"bill13"}
076465616c657231000000000000000500000000672862e00b393132373937414135076465616c6572320000000000000190 {"number":5,"kind":"transfer","cusip":"912797AA5","to":"dealer2","amount":400}
076465616c657231000000000000000c00000000672862e00c393132373937414135076465616c65723200000000000001f4 {"number":12,"kind":"pledge","cusip":"912797AA5","to":"dealer2","amount":500}
076465616c65723100038d7ea4c6800000000000672862e00d076465616c657231000000000000000c000000000000012c {"number":1000000000000000,"kind":"release","holder":"dealer1","pledge":12,"amount":300}
086f70657261746f72000000000000000700000000672862e00e393132373937414135 {"number":7,"kind":"redeem","cusip":"912797AA5"}
086f70657261746f72000000000000000800000000672862e00f0662696c6c3133076465616c657232000000012a05f200 {"number":8,"kind":"addon","auction":"bill13","holder":"dealer2","amount":5000000000}
086f70657261746f72000000000000000900000000672862e010076465616c65723100000000000186a0 {"number":9,"kind":"deposit","participant":"dealer1","cents":100000}
086f70657261746f72000000000000000a00000000672862e011076465616c65723200005af3107a4000 {"number":10,"kind":"withdraw","participant":"dealer2","cents":100000000000000}
076465616c657231000000000000000600000000672862e012393132373937414135076465616c657232000000000000012c0000000000007404 {"number":6,"kind":"sell","cusip":"912797AA5","to":"dealer2","amount":300,"cents":29700}
076465616c657231000000000000001e00000000672862e013076465616c6572320000000000000014 {"number":30,"kind":"buy","seller":"dealer2","offer":20}
076465616c657231000000000000001700000000672862e0140000000000000016 {"number":23,"kind":"retract","offer":22}
086f70657261746f72000000000000000b00000000672862e010076465616c65723100005af3107a4000 {"number":11,"kind":"deposit","participant":"dealer1","cents":100000000000000}
076465616c657231000000000000000700000000672862e012393132373937414135076465616c657232000000000000012c00005af3107a4000 {"number":7,"kind":"sell","cusip":"912797AA5","to":"dealer2","amount":300,"cents":100000000000000}
076465616c657231000000000000000800000000672862e012393132373937414135076465616c657232000000000000012c0000000000000001 {"number":8,"kind":"sell","cusip":"912797AA5","to":"dealer2","amount":300,"cents":1}"#;

/// What is told of each text.
const READINGS: &str = r#"BadJson {
BadShape(Body) []
BadShape(Number) {}
BadShape(Number) {"kind":"bid","number":-0}
BadShape(Number) {"kind":"bid","number":1.0}
BadShape(Kind) {"number":1,"kind":"bids "}
BadShape(Auction) {"number":1,"kind":"bid","auction":"","rate":"5.322"}
BadShape(Rate) {"number":1,"kind":"bid","auction":"a","bidder":"b","rate":"5.322"}
BadShape(Amount) {"number":1,"kind":"noncompetitive","auction":"a","bidder":"b","amount":1000000000001}
BadShape(Position) {"number":1,"kind":"position","auction":"a","bidder":"b","position":-0}
BadShape(NcClose) {"number":1,"kind":"announce","auction":"a","cusip":"912797AA5","offering":0,"minimum":0,"ceiling":0,"floor":0,"threshold":0,"date":"2024-11-04","nc_close":"24:00"}
BadShape(Auction) {"number":1,"kind":"addon","auction":"Bill13","holder":"dealer2"}
BadShape(Holder) {"number":1,"kind":"addon","auction":"a","amount":1000000000001}
BadShape(Amount) {"number":1,"kind":"addon","auction":"a","holder":"b","amount":1000000000001}
BadShape(Participant) {"number":1,"kind":"deposit","participant":7,"cents":0}
BadShape(Cents) {"number":1,"kind":"deposit","participant":"a","cents":0}
BadShape(Cents) {"number":1,"kind":"deposit","participant":"a","cents":100000000000001}
BadShape(Cents) {"number":1,"kind":"withdraw","participant":"a","cents":0}
BadShape(Cents) {"number":1,"kind":"withdraw","participant":"a","cents":100000000000001}
BadShape(Cents) {"number":1,"kind":"sell","cusip":"912797AA5","to":"b","amount":300,"cents":0}
BadShape(Cents) {"number":1,"kind":"sell","cusip":"912797AA5","to":"b","amount":300,"cents":100000000000001}
BadShape(Amount) {"number":1,"kind":"sell","cusip":"912797AA5","to":"b","cents":0}
BadShape(Cents) {"number":1,"kind":"sell","cusip":"912797AA5","to":"b","amount":0,"cents":-1}
BadShape(Seller) {"number":1,"kind":"buy","offer":0}
BadShape(Offer) {"number":1,"kind":"buy","seller":"a","offer":0}
BadShape(Offer) {"number":1,"kind":"retract"}
BadShape(Auction) {"number":0,"kind":"results"}
BadShape(Kind) {"kind":"holdings","number":1,"kind":"none"}
Query(Holdings) {"number":0,"kind":"none","kind":"holdings"}
Query(Funds) {"number":0,"kind":"funds","cents":0}"#;

/// Members behind the first, each with what is told of the object. One that nests, or has a number that isn't whole, is
/// read into a tree.
const MEMBERS: &str = r#"Query(Funds) "kind":"funds"}
Query(Funds)  "kind" :  "funds" } 
Query(Funds) "k\u0069nd":"fun\u0064s"}
Query(Holdings) "kind":"funds","k\u0069nd":"holdings"}
Query(Funds) "kind":"funds","no":null,"one":true,"other":false,"less":-1,"most":18446744073709551615}
Query(Funds) "a":1,"b":2,"c":3,"d":4,"e":5,"f":6,"g":7,"h":8,"i":9,"j":10,"k":11,"l":12,"m":13,"n":14,"kind":"funds","o":15}
Query(Funds) "kind":"funds","more":{"kind":"holdings"}}
Query(Holdings) "kind":{"kind":"funds"},"kind":"holdings"}
Query(Funds) "kind":"funds","large":1e308}
BadJson "kind":"funds","large":1e309}
Query(Funds) "kind":"funds","twenty":18446744073709551616,"zero":-0,"half":0.5}
Query(Funds) "kind":"funds","mark":"\ud83d\ude00"}
BadJson "kind":"funds","lone":"\ud83d"}
BadJson "kind":"funds","bad":01}
BadJson "kind":"funds","bad":1.}
BadJson "kind":"funds","bad":-}
BadJson "kind":"funds","bad":nul}
BadJson "kind":"funds",}
BadJson "kind":"funds"
BadJson "kind":"funds"]
BadJson "kind":"funds"}{}
BadJson "kind":"funds" "more":1}
BadJson "kind":}
BadJson kind:"funds"}
BadShape(Kind) "number":1}
BadShape(Kind) "number":1,"kind":7}
BadShape(Number) "kind":"retract","number":1e2,"offer":1}
BadShape(Number) "kind":"retract","number":1.0,"offer":1}
BadShape(Number) "kind":"retract","number":-0,"offer":1}
BadShape(Number) "kind":"retract","number":-1,"offer":1}
BadShape(Number) "kind":"retract","number":1000000000000001,"offer":1}
BadShape(Number) "kind":"retract","number":18446744073709551617,"offer":1}
BadShape(Number) "kind":"retract","number":"1","offer":1}
BadShape(Number) "kind":"retract","number":1,"number":null,"offer":1}
BadShape(Offer) "kind":"retract","number":1000000000000000,"offer":-1}
BadShape(Position) "number":1,"kind":"position","auction":"a","bidder":"b","position":9223372036854775808}
BadShape(Position) "number":1,"kind":"position","auction":"a","bidder":"b","position":-9223372036854775808}
BadShape(Position) "number":1,"kind":"position","auction":"a","bidder":"b","position":-1000000000001}
BadShape(Position) "number":1,"kind":"position","auction":"a","bidder":"b","position":-9223372036854775809}
BadShape(Position) "number":1,"kind":"position","auction":"a","bidder":"b","position":1e2}"#;

fn name(rt: &impl Abort, text: &str) -> Ident {
    Ident::read(text).expect(rt, "no name")
}

// What is told of the text, as it prints.
fn reading(rt: &impl Abort, alloc: Global, text: &str) -> String {
    match read_request(alloc, text.as_bytes()) {
        Ok(request) => format!(in alloc; "{request:?}").expect(rt, "memory"),
        Err(fault) => format!(in alloc; "{fault:?}").expect(rt, "memory"),
    }
}

// This is told of the text.
fn reads(rt: &impl Abort, alloc: Global, text: &str, told: &str) -> bool {
    reading(rt, alloc, text).as_str() == told
}

fn hexadecimal(rt: &impl Abort, alloc: Global, bytes: &[u8]) -> String {
    let mut text = String::new(alloc);
    for byte in bytes {
        let digits = format!(in alloc; "{byte:02x}").expect(rt, "memory");
        assert!(rt; text.push_str(digits.as_str()).is_ok());
    }
    text
}

// The bytes without four of them from a place on, by which a moment is longer than in the first version.
fn without_four(rt: &impl Abort, alloc: Global, bytes: &[u8], place: usize) -> Vec<u8> {
    let mut left = Vec::new(alloc);
    for (at, byte) in bytes.iter().enumerate() {
        if at < place || at - place >= 4 {
            assert!(rt; left.push(*byte).is_ok());
        }
    }
    left
}

// The entry of a text whose record is this.
fn entry_of(rt: &impl Abort, alloc: Global, record: &str, text: &str) -> Entry
    ensures { IsInRange result }
{
    let request = read_request(alloc, text.as_bytes());
    let Ok(Request::Message { number, message }) = &request else {
        panic!(rt; "no message");
    };
    let is_operator = record.starts_with("08");
    Entry {
        submitter: name(rt, if is_operator { "operator" } else { "dealer1" }),
        number: *number,
        moment: Moment {
            seconds: 1_730_700_000,
        },
        message: *message,
    }
}

// The entry is taken of the record, but not without its last byte, nor in the first version.
fn is_taken(entry: Entry, record: &[u8]) -> bool {
    let Some((_, front)) = record.split_last() else {
        return false;
    };
    Entry::take(record) == Some((entry, record.len()))
        && Entry::take(front).is_none()
        && Entry::take_first(record).is_none()
}

// The entry is taken of the same record in the first version, but not in this one.
fn is_taken_first(rt: &impl Abort, alloc: Global, entry: Entry, record: &[u8]) -> bool {
    let first = without_four(rt, alloc, record, entry.submitter.bytes().len() + 9);
    Entry::take_first(&first) == Some((entry, first.len())) && Entry::take(&first).is_none()
}

// The bytes are these in hexadecimal.
fn are_spelled(rt: &impl Abort, alloc: Global, bytes: &[u8], digits: &str) -> bool {
    hexadecimal(rt, alloc, bytes).as_str() == digits
}

// The line's text is read, and its record put and taken.
fn is_put_and_taken(rt: &impl Abort, alloc: Global, line: &str) -> bool {
    let Some((record, text)) = line.split_once(' ') else {
        return false;
    };
    let entry = entry_of(rt, alloc, record, text);
    let put = entry.put();
    are_spelled(rt, alloc, put.bytes(), record)
        && is_taken(entry, put.bytes())
        && is_taken_first(rt, alloc, entry, put.bytes())
}

#[test]
fn a_message_of_each_kind_is_read_put_and_taken(rt: HostRuntime) {
    for line in RECORDS.lines() {
        if !is_put_and_taken(&rt, rt.alloc(), line) {
            rt.panic(line);
        }
    }
    assert!(rt; RECORDS.lines().count() == 23);
}

// What the line says is told of its text.
fn is_told(rt: &impl Abort, alloc: Global, line: &str) -> bool {
    match line.split_once(' ') {
        Some((told, text)) => reads(rt, alloc, text, told),
        None => false,
    }
}

#[test]
fn the_first_member_that_fails_is_told(rt: HostRuntime) {
    for line in READINGS.lines() {
        if !is_told(&rt, rt.alloc(), line) {
            rt.panic(line);
        }
    }
}

// The same is told of both texts.
fn are_alike(alloc: Global, one: &[u8], other: &[u8]) -> bool {
    read_request(alloc, one) == read_request(alloc, other)
}

#[test]
fn members_of_other_kinds_are_ignored(rt: HostRuntime) {
    let plain = br#"{"number":8,"kind":"addon","auction":"a","holder":"b","amount":100}"#;
    let more =
        br#"{"number":8,"kind":"addon","auction":"a","holder":"b","amount":100,"to":7,"price":"x"}"#;
    assert!(rt; are_alike(rt.alloc(), more, plain));
    let other = br#"{"number":8,"kind":"addon","auction":"a","holder":"b","amount":200}"#;
    assert!(rt; !are_alike(rt.alloc(), other, plain));
}

// The reader tells of a text what is told without one.
fn reads_alike(alloc: Global, requests: &mut RequestReader, text: &str) -> bool {
    requests.read(text.as_bytes()) == read_request(alloc, text.as_bytes())
}

// This is told of the text, without the reader and by it.
fn tells_alike(
    rt: &impl Abort,
    alloc: Global,
    requests: &mut RequestReader,
    text: &str,
    told: &str,
) -> bool {
    reads(rt, alloc, text, told) && reads_alike(alloc, requests, text)
}

// What the line says is told of its members behind a number, and behind an array.
fn is_told_alike(rt: &impl Abort, alloc: Global, requests: &mut RequestReader, line: &str) -> bool {
    let Some((told, members)) = line.split_once(' ') else {
        return false;
    };
    let plain = format!(in alloc; "{{\"first\":0,{members}").expect(rt, "memory");
    let nested = format!(in alloc; "{{\"first\":[],{members}").expect(rt, "memory");
    tells_alike(rt, alloc, requests, plain.as_str(), told)
        && tells_alike(rt, alloc, requests, nested.as_str(), told)
}

#[test]
fn a_tree_tells_what_is_told_without_one(rt: HostRuntime) {
    let mut requests = RequestReader::new(rt.alloc());
    for line in MEMBERS.lines() {
        if !is_told_alike(&rt, rt.alloc(), &mut requests, line) {
            rt.panic(line);
        }
    }
}

// The reader tells of each line's text what is told without one.
fn read_lines(rt: &impl Abort, alloc: Global, requests: &mut RequestReader, lines: &str) {
    for line in lines.lines() {
        let (_, text) = line.split_once(' ').expect(rt, "no space");
        if !reads_alike(alloc, requests, text) {
            rt.panic(line);
        }
    }
}

// The reader tells that the text is no JSON.
fn is_bad(requests: &mut RequestReader, text: &[u8]) -> bool {
    requests.read(text) == Err(ReadFault::BadJson)
}

// The reader tells that the text asks for the funds.
fn asks_for_funds(requests: &mut RequestReader, text: &[u8]) -> bool {
    requests.read(text) == Ok(Request::Query(Query::Funds))
}

#[test]
fn one_reader_reads_text_after_text(rt: HostRuntime) {
    let mut requests = RequestReader::new(rt.alloc());
    read_lines(&rt, rt.alloc(), &mut requests, RECORDS);
    read_lines(&rt, rt.alloc(), &mut requests, READINGS);
    assert!(rt; is_bad(&mut requests, b"{\"kind\":\"funds\",\"no\":\"\xff\"}"));
    assert!(rt; is_bad(&mut requests, b""));
    assert!(rt; is_bad(&mut requests, b"{\"kind\":\"fun\tds\"}"));
    assert!(rt; asks_for_funds(&mut requests, b"\r\n{\t\"kind\"\n:\"funds\"\r}\n"));
    assert!(rt; asks_for_funds(&mut requests, br#"{"kind":"funds"}"#));
}

// So many brackets within one another.
fn brackets(rt: &impl Abort, alloc: Global, depth: usize) -> String {
    let mut text = String::new(alloc);
    for _ in 0..depth {
        assert!(rt; text.push('[').is_ok());
    }
    for _ in 0..depth {
        assert!(rt; text.push(']').is_ok());
    }
    text
}

// This is told of so many brackets within one another.
fn brackets_read(rt: &impl Abort, alloc: Global, depth: usize, told: &str) -> bool {
    reads(rt, alloc, brackets(rt, alloc, depth).as_str(), told)
}

// This is told of an object with a member of so many brackets.
fn member_reads(rt: &impl Abort, alloc: Global, depth: usize, told: &str) -> bool {
    let deep = brackets(rt, alloc, depth);
    let text = format!(in alloc; "{{\"kind\":\"funds\",\"deep\":{deep}}}").expect(rt, "memory");
    reads(rt, alloc, text.as_str(), told)
}

#[test]
fn brackets_nest_127_deep(rt: HostRuntime) {
    assert!(rt; brackets_read(&rt, rt.alloc(), 127, "BadShape(Body)"));
    assert!(rt; brackets_read(&rt, rt.alloc(), 128, "BadJson"));
    assert!(rt; member_reads(&rt, rt.alloc(), 126, "Query(Funds)"));
    assert!(rt; member_reads(&rt, rt.alloc(), 127, "BadJson"));
}

// The word is the key of a submitter of this name.
fn is_submitters(rt: &impl Abort, word: &str, text: &str) -> bool {
    Key::read(word) == Some(Key::Submitter(name(rt, text)))
}

// The word is the key of an operator of this name.
fn is_operators(rt: &impl Abort, word: &str, text: &str) -> bool {
    Key::read(word) == Some(Key::Operator(name(rt, text)))
}

// The word is no key.
fn is_no_key(word: &str) -> bool {
    Key::read(word).is_none()
}

#[test]
fn key_words_are_names_or_those_behind_op(rt: HostRuntime) {
    assert!(rt; is_submitters(&rt, "k1", "k1"));
    assert!(rt; is_operators(&rt, "op:root", "root"));
    assert!(rt; is_no_key("op:"));
    assert!(rt; is_no_key("Op:root"));
}

// The verdict is told by this line.
fn tells(verdict: &Verdict, line: &str) -> bool {
    verdict_line(verdict).bytes() == line.as_bytes()
}

// The refusal is told by this line.
fn refuses(refusal: Refusal, line: &str) -> bool {
    tells(&Verdict::Refused(refusal), line)
}

#[test]
fn verdicts_are_told_with_their_values(rt: HostRuntime) {
    let moment = Moment {
        seconds: 1_730_737_800,
    };
    let late = Refusal::Late {
        moment,
        closing: moment,
    };
    let free = Dollars { value: 600 };
    let balance = Cents { value: 70_300 };
    let payment = Day { number: 20_137 };
    let auction = name(&rt, "sat1");
    assert!(rt;
        tells(
            &Verdict::Repeat { number: 1, moment },
            "accepted 1 1730737800"
        )
    );
    assert!(rt; refuses(late, "refused 17 Late 1730737800 1730737800"));
    assert!(rt; refuses(Refusal::BadShape(Field::Rate), "refused 6 BadShape rate"));
    assert!(rt;
        refuses(
            Refusal::InsufficientFree { free },
            "refused 73 InsufficientFree 600"
        )
    );
    assert!(rt;
        refuses(
            Refusal::InsufficientFunds { balance },
            "refused 90 InsufficientFunds 703.00"
        )
    );
    assert!(rt; refuses(Refusal::NotDue { payment }, "refused 81 NotDue 2025-02-18"));
    assert!(rt; refuses(Refusal::Unsettled { auction }, "refused 74 Unsettled sat1"));
    assert!(rt; refuses(Refusal::NumberReused, "refused 3 NumberReused"));
}

/// Records of a deposit, a withdrawal and a sell without the money that ends them.
const DEPOSIT: &[u8] = b"\x08operator\0\0\0\0\0\0\0\x09\0\0\0\0\x67\x28\x62\xe0\x10\x07dealer1";

const WITHDRAWAL: &[u8] = b"\x08operator\0\0\0\0\0\0\0\x0a\0\0\0\0\x67\x28\x62\xe0\x11\x07dealer1";

const SELL: &[u8] = b"\x07dealer1\0\0\0\0\0\0\0\x06\0\0\0\0\x67\x28\x62\xe0\x12\
    912797AA5\x07dealer2\0\0\0\0\0\0\x01\x2c";

// Whether the record with so much money is one.
fn is_record(rt: &impl Abort, alloc: Global, front: &[u8], cents: u64) -> bool {
    let mut record = front.to_vec(alloc).expect(rt, "memory");
    assert!(rt; record.extend_from_slice(&cents.to_be_bytes()).is_ok());
    Entry::take(&record).is_some()
}

#[test]
fn a_record_has_money_from_a_cent_to_the_largest(rt: HostRuntime) {
    let alloc = rt.alloc();
    assert!(rt; !is_record(&rt, alloc, DEPOSIT, 0));
    assert!(rt; is_record(&rt, alloc, DEPOSIT, 1));
    assert!(rt; is_record(&rt, alloc, DEPOSIT, 100_000_000_000_000));
    assert!(rt; !is_record(&rt, alloc, DEPOSIT, 100_000_000_000_001));
    assert!(rt; !is_record(&rt, alloc, WITHDRAWAL, 0));
    assert!(rt; is_record(&rt, alloc, WITHDRAWAL, 100_000_000_000_000));
    assert!(rt; !is_record(&rt, alloc, WITHDRAWAL, 100_000_000_000_001));
    assert!(rt; !is_record(&rt, alloc, SELL, 0));
    assert!(rt; is_record(&rt, alloc, SELL, 1));
    assert!(rt; is_record(&rt, alloc, SELL, 100_000_000_000_000));
    assert!(rt; !is_record(&rt, alloc, SELL, 100_000_000_000_001));
    assert!(rt; !is_record(&rt, alloc, SELL, 18_446_744_073_709_551_615));
}
