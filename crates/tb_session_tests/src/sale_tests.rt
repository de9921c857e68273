//! Par that is sold for money over links. The figures were worked out by hand.

use crate::tests::{
    FIRST, Memory, joined, opened, post, posted, replied, room_on, serve_texts, tells,
};
use std::alloc::Global;
use std::process::Abort;
use std::sync::Wait;
use std::thread::Threads;

/// The moments at which the auction's bills are issued and mature.
const ISSUE: u64 = 1_730_955_600;

const MATURITY: u64 = 1_738_818_000;

/// What the operator sends when they are issued: the second dealer gets 1,000.00.
const ISSUED: [&str; 3] = [
    "{\"number\":6,\"kind\":\"publish\",\"auction\":\"bill13\"}",
    "{\"number\":7,\"kind\":\"settle\",\"auction\":\"bill13\"}",
    "{\"number\":8,\"kind\":\"deposit\",\"participant\":\"dealer2\",\"cents\":100000}",
];

/// The first dealer offers the second its par, 100, for 98.91.
const OFFER: &str =
    "{\"number\":2,\"kind\":\"sell\",\"cusip\":\"912797AA5\",\"to\":\"dealer2\",\"amount\":100,\"cents\":9891}";

/// Purchases of it with two numbers, as they are posted, and the replies where they are accepted.
pub const BUY: &str = posted!(
    "k2",
    54,
    "{\"number\":1,\"kind\":\"buy\",\"seller\":\"dealer1\",\"offer\":2}"
);

pub const OTHER_BUY: &str = posted!(
    "k2",
    54,
    "{\"number\":2,\"kind\":\"buy\",\"seller\":\"dealer1\",\"offer\":2}"
);

pub const BUY_REPLY: &str = replied!("200 OK", 22, "accepted 1 1730955600\n");

pub const OTHER_BUY_REPLY: &str = replied!("200 OK", 22, "accepted 2 1730955600\n");

pub const CLOSED_REPLY: &str = replied!("422 Unprocessable Entity", 23, "refused 93 OfferClosed\n");

/// What each dealer asks for its account, and the replies before the purchase and after it.
const SELLER_ASKS: &str = "GET /holdings HTTP/1.1\r\nAuction-Key: k1\r\n\r\n\
    GET /funds HTTP/1.1\r\nAuction-Key: k1\r\n\r\n";

const BUYER_ASKS: &str = "GET /holdings HTTP/1.1\r\nAuction-Key: k2\r\n\r\n\
    GET /funds HTTP/1.1\r\nAuction-Key: k2\r\n\r\n";

const PAR_REPLY: &str = replied!("200 OK", 20, "912797AA5 100 0 100\n");

const NO_PAR_REPLY: &str = replied!("200 OK", 0, "");

const PAID_REPLY: &str = replied!("200 OK", 12, "funds 98.91\n");

const LEFT_REPLY: &str = replied!("200 OK", 13, "funds 901.09\n");

const WHOLE_REPLY: &str = replied!("200 OK", 14, "funds 1000.00\n");

const NOTHING_REPLY: &str = replied!("200 OK", 11, "funds 0.00\n");

/// A room in which the offer stands under the number 2 of the first dealer.
pub fn with_offer<R: Threads + Wait + Sync + Abort>(rt: &R, alloc: Global) -> Memory {
    let room = opened(rt, alloc, &[]);
    let (room, _) = serve_texts(rt, alloc, room, &[FIRST]);
    let room = room_on(rt, alloc, room.desk.into_disk(), ISSUE);
    let mut text = String::new(alloc);
    for message in &ISSUED {
        text.push_str(&post(rt, alloc, "op:root", message))
            .expect(rt, "memory");
    }
    text.push_str(&post(rt, alloc, "k1", OFFER))
        .expect(rt, "memory");
    let (room, told) = serve_texts(rt, alloc, room, &[text.as_str()]);
    assert!(rt; told.served == 1 && told.accepted == 4);
    room
}

/// Serves one link with these texts: so many messages are accepted, and these are the replies.
fn are_answered<R: Threads + Wait + Sync + Abort>(
    rt: &R,
    alloc: Global,
    room: &mut Option<Memory>,
    texts: &[&str],
    accepted: u64,
    replies: &[&str],
) -> bool {
    let text = joined(rt, alloc, texts);
    let expected = joined(rt, alloc, replies);
    let found = room.take().expect(rt, "a room");
    let (after, told) = serve_texts(rt, alloc, found, &[text.as_str()]);
    *room = Some(after);
    tells(&told, (1, accepted, false), &[expected.as_str()])
}

/// Whether the accounts of both dealers have moved once.
pub fn is_sold_once<R: Threads + Wait + Sync + Abort>(
    rt: &R,
    alloc: Global,
    room: &mut Option<Memory>,
) -> bool {
    are_answered(
        rt,
        alloc,
        room,
        &[SELLER_ASKS, BUYER_ASKS],
        0,
        &[NO_PAR_REPLY, PAID_REPLY, PAR_REPLY, LEFT_REPLY],
    )
}

/// Opens the journal of the room again, with the clock at this moment.
fn open_again(rt: &impl Abort, alloc: Global, room: &mut Option<Memory>, seconds: u64) {
    let before = room.take().expect(rt, "a room");
    *room = Some(room_on(rt, alloc, before.desk.into_disk(), seconds));
}

// The first to come is accepted, whichever number it has, and both are told the same when they come again.
#[test]
fn a_second_number_for_an_offer_is_refused(rt: HostRuntime) {
    let alloc = rt.alloc();
    let mut room = Some(with_offer(&rt, alloc));
    let replies = [BUY_REPLY, CLOSED_REPLY];
    let buys = [BUY, OTHER_BUY];
    assert!(rt; are_answered(&rt, alloc, &mut room, &buys, 1, &replies));
    assert!(rt; are_answered(&rt, alloc, &mut room, &buys, 0, &replies));
    assert!(rt; is_sold_once(&rt, alloc, &mut room));
    let mut room = Some(with_offer(&rt, alloc));
    let replies = [OTHER_BUY_REPLY, CLOSED_REPLY];
    let buys = [OTHER_BUY, BUY];
    assert!(rt; are_answered(&rt, alloc, &mut room, &buys, 1, &replies));
    assert!(rt; are_answered(&rt, alloc, &mut room, &buys, 0, &replies));
    assert!(rt; is_sold_once(&rt, alloc, &mut room));
}

/// The operator redeems the bills, and the reply.
const REDEMPTION: &str = posted!(
    "op:root",
    48,
    "{\"number\":9,\"kind\":\"redeem\",\"cusip\":\"912797AA5\"}"
);

const REDEMPTION_REPLY: &str = replied!("200 OK", 22, "accepted 9 1738818000\n");

const REDEEMED_REPLY: &str = replied!(
    "422 Unprocessable Entity",
    27,
    "refused 82 AlreadyRedeemed\n"
);

/// The first dealer takes its offer back, and the reply.
const RETRACT: &str = posted!("k1", 39, "{\"number\":3,\"kind\":\"retract\",\"offer\":2}");

const RETRACT_REPLY: &str = replied!("200 OK", 22, "accepted 3 1738818000\n");

// The offer still stands open, though nobody can buy it.
#[test]
fn an_offer_of_a_redeemed_bill_is_only_taken_back(rt: HostRuntime) {
    let alloc = rt.alloc();
    let mut room = Some(with_offer(&rt, alloc));
    open_again(&rt, alloc, &mut room, MATURITY);
    let redeemed = [REDEMPTION_REPLY, REDEEMED_REPLY];
    assert!(rt; are_answered(&rt, alloc, &mut room, &[REDEMPTION, BUY], 1, &redeemed));
    open_again(&rt, alloc, &mut room, MATURITY);
    assert!(rt; are_answered(&rt, alloc, &mut room, &[BUY], 0, &[REDEEMED_REPLY]));
    let closed = [RETRACT_REPLY, CLOSED_REPLY];
    assert!(rt; are_answered(&rt, alloc, &mut room, &[RETRACT, BUY], 1, &closed));
    let whole = [NO_PAR_REPLY, WHOLE_REPLY];
    assert!(rt; are_answered(&rt, alloc, &mut room, &[BUYER_ASKS], 0, &whole));
}

/// The operator asks for funds, somebody with another key, and somebody without one.
const OPERATOR_ASKS: &str = "GET /funds HTTP/1.1\r\nAuction-Key: op:root\r\n\r\n";

const STRANGER_ASKS: &str = "GET /funds HTTP/1.1\r\nAuction-Key: k9\r\n\r\n";

const NOBODY_ASKS: &str = "GET /funds HTTP/1.1\r\n\r\n";

const NOT_PERMITTED_REPLY: &str = replied!("403 Forbidden", 23, "refused 2 NotPermitted\n");

const UNKNOWN_KEY_REPLY: &str = replied!("401 Unauthorized", 21, "refused 1 UnknownKey\n");

#[test]
fn each_dealer_reads_its_own_funds(rt: HostRuntime) {
    let alloc = rt.alloc();
    let mut room = Some(with_offer(&rt, alloc));
    let before = [PAR_REPLY, NOTHING_REPLY, NO_PAR_REPLY, WHOLE_REPLY];
    let asked = [SELLER_ASKS, BUYER_ASKS];
    assert!(rt; are_answered(&rt, alloc, &mut room, &asked, 0, &before));
    assert!(rt; are_answered(&rt, alloc, &mut room, &[BUY], 1, &[BUY_REPLY]));
    assert!(rt; is_sold_once(&rt, alloc, &mut room));
    let others = [OPERATOR_ASKS, STRANGER_ASKS, NOBODY_ASKS];
    let refused = [NOT_PERMITTED_REPLY, UNKNOWN_KEY_REPLY, UNKNOWN_KEY_REPLY];
    assert!(rt; are_answered(&rt, alloc, &mut room, &others, 0, &refused));
}
