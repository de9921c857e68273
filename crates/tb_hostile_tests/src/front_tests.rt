//! Bytes of links that are no requests, through `serve`. A reply that closes its link comes once, nothing behind it is
//! answered, and the other links are.
use crate::link_tests::{FIRST, FIRST_REPLY, SECOND, SECOND_REPLY, served};
use crate::trying::{Host, is_ended, joined, repeated, takes, whole};
use std::process::Abort;
use std::sync::Wait;
use std::thread::Threads;

const TOO_LARGE: &str =
    "HTTP/1.1 431 Request Header Fields Too Large\r\nContent-Type: text/plain\r\n\
    Content-Length: 12\r\nConnection: close\r\n\r\nbad request\n";

const BAD: &str = "HTTP/1.1 400 Bad Request\r\nContent-Type: text/plain\r\n\
    Content-Length: 12\r\nConnection: close\r\n\r\nbad request\n";

/// The reply to what is no JSON text, after which the link goes on.
const NO_JSON: &str =
    "HTTP/1.1 400 Bad Request\r\nContent-Type: text/plain\r\nContent-Length: 18\r\n\r\nrefused 5 BadJson\n";

const BOTH_ACCEPTED: &str = "served 3\naccepted 2\n";

// Three links: a bid, these bytes with the same bid behind them, and a second bid. The second link takes this reply,
// and the others theirs.
fn is_replied<R: Abort + Threads + Wait + Sync>(
    host: &Host<'_, R>,
    bytes: &str,
    reply: &str,
) -> bool {
    let text = joined(host, &[bytes, FIRST]);
    let run = served(host, &[whole(FIRST), whole(&text), whole(SECOND)]);
    is_ended(&run, 0, BOTH_ACCEPTED.as_bytes(), "")
        && takes(&run, 0, &[FIRST_REPLY, reply, SECOND_REPLY])
}

// A request for the holdings with so many headers, the first of which is the key.
fn with_headers<R: Abort>(host: &Host<'_, R>, count: u64) -> String {
    let others = repeated(host, "a: b\r\n", count.saturating_sub(1));
    joined(
        host,
        &[
            "GET /holdings HTTP/1.1\r\nAuction-Key: k1\r\n",
            &others,
            "\r\n",
        ],
    )
}

const NO_HOLDINGS: &str =
    "HTTP/1.1 200 OK\r\nContent-Type: text/plain\r\nContent-Length: 0\r\n\r\n";

#[test]
fn a_head_with_33_headers_is_431(rt: HostRuntime) {
    let host = Host {
        rt: &rt,
        alloc: rt.alloc(),
    };
    let most = with_headers(&host, 32);
    let answered = joined(&host, &[NO_HOLDINGS, FIRST_REPLY]);
    let crowded = with_headers(&host, 33);
    let behind_one = joined(&host, &[FIRST, &crowded]);
    let second = joined(&host, &[FIRST_REPLY, TOO_LARGE]);
    assert!(rt; is_replied(&host, &most, &answered));
    assert!(rt; is_replied(&host, &crowded, TOO_LARGE));
    assert!(rt; is_replied(&host, &behind_one, &second));
}

// A request line of 24 bytes, and a header of the others, which has no end.
fn without_end<R: Abort>(host: &Host<'_, R>, size: u64) -> String {
    let letters = repeated(host, "x", size.saturating_sub(27));
    joined(host, &["GET /holdings HTTP/1.1\r\n", "a: ", &letters])
}

// The link ends with these bytes, and takes this reply.
fn ends_with<R: Abort + Threads + Wait + Sync>(
    host: &Host<'_, R>,
    bytes: &str,
    reply: &str,
) -> bool {
    let run = served(host, &[whole(FIRST), whole(bytes), whole(SECOND)]);
    is_ended(&run, 0, BOTH_ACCEPTED.as_bytes(), "")
        && takes(&run, 0, &[FIRST_REPLY, reply, SECOND_REPLY])
}

// With a byte less there may be more to come: the link ends, and nothing is replied.
#[test]
fn bytes_8192_without_a_whole_head_are_431(rt: HostRuntime) {
    let host = Host {
        rt: &rt,
        alloc: rt.alloc(),
    };
    let letters = repeated(&host, "a", 8_192);
    let letters_less = repeated(&host, "a", 8_191);
    let header = without_end(&host, 8_192);
    let header_less = without_end(&host, 8_191);
    let lines = repeated(&host, "\r\n", 4_096);
    assert!(rt; ends_with(&host, &letters, TOO_LARGE));
    assert!(rt; ends_with(&host, &letters_less, ""));
    assert!(rt; ends_with(&host, &header, TOO_LARGE));
    assert!(rt; ends_with(&host, &header_less, ""));
    assert!(rt; ends_with(&host, &lines, TOO_LARGE));
    assert!(rt; is_replied(&host, &header, TOO_LARGE));
}

#[test]
fn a_content_length_with_a_sign_is_400(rt: HostRuntime) {
    let host = Host {
        rt: &rt,
        alloc: rt.alloc(),
    };
    let signed = "POST /messages HTTP/1.1\r\nAuction-Key: k1\r\nContent-Length: +5\r\n\r\n{   }";
    assert!(rt; is_replied(&host, signed, BAD));
}

#[test]
fn a_content_length_of_ten_digits_is_400(rt: HostRuntime) {
    let host = Host {
        rt: &rt,
        alloc: rt.alloc(),
    };
    let long = "POST /messages HTTP/1.1\r\nAuction-Key: k1\r\nContent-Length: 0000000002\r\n\r\n{}";
    let large =
        "POST /messages HTTP/1.1\r\nAuction-Key: k1\r\nContent-Length: 9999999999\r\n\r\n{}";
    assert!(rt; is_replied(&host, long, BAD));
    assert!(rt; is_replied(&host, large, BAD));
}

#[test]
fn a_content_length_that_stands_twice_is_400(rt: HostRuntime) {
    let host = Host {
        rt: &rt,
        alloc: rt.alloc(),
    };
    let twice =
        "POST /messages HTTP/1.1\r\nAuction-Key: k1\r\nContent-Length: 2\r\nContent-Length: 2\r\n\r\n{}";
    let other =
        "POST /messages HTTP/1.1\r\nContent-Length: 2\r\nAuction-Key: k1\r\ncontent-length: 0\r\n\r\n{}";
    assert!(rt; is_replied(&host, twice, BAD));
    assert!(rt; is_replied(&host, other, BAD));
}

// A body of 200 open brackets and as many closed ones.
#[test]
fn a_body_of_200_brackets_is_no_json(rt: HostRuntime) {
    let host = Host {
        rt: &rt,
        alloc: rt.alloc(),
    };
    let open = repeated(&host, "[", 200);
    let closed = repeated(&host, "]", 200);
    let head = "POST /messages HTTP/1.1\r\nAuction-Key: k1\r\nContent-Length: 400\r\n\r\n";
    let nested = joined(&host, &[head, &open, &closed]);
    let replies = joined(&host, &[NO_JSON, FIRST_REPLY]);
    assert!(rt; is_replied(&host, &nested, &replies));
}
