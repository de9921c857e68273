//! Tests of the public calls. What is expected was written by hand from the profile.
use crate::recorded::{CURL_GET, CURL_POST, NGINX_POST, PYTHON_GET, PYTHON_POST, REQUESTS_POST};
use std::alloc::Global;
use std::process::Abort;
use tb_message::{Key, Query};
use tb_terms::{Field, Refusal};
use tb_units::Ident;
use tb_wire::*;

/// A message as it is posted.
const POST: &str = "POST /messages HTTP/1.1\r\nAuction-Key: k1\r\nContent-Length: 2\r\n\r\n{}";

/// Where a request goes.
#[derive(Clone, Copy, PartialEq, Eq)]
enum Place {
    Messages,
    Holdings,
    Funds,
    Read,
    NoRoute,
    GetOnly,
    PostOnly,
}

fn place_of(target: Target) -> Place {
    match target {
        Target::Messages => Place::Messages,
        Target::Read(Query::Holdings) => Place::Holdings,
        Target::Read(Query::Funds) => Place::Funds,
        Target::Read(_) => Place::Read,
        Target::NoRoute => Place::NoRoute,
        Target::GetOnly => Place::GetOnly,
        Target::PostOnly => Place::PostOnly,
    }
}

/// The table of routes.
fn routes_of<R: AllocGlobal + Abort>(rt: &R) -> Routes {
    Routes::new(rt.alloc()).expect(rt, "memory")
}

/// What stands at the front of a text: of a request where it goes, how many bytes it uses, and whether it asks to
/// close.
#[derive(Clone, Copy, PartialEq, Eq)]
enum Front {
    More,
    Bad(u16),
    Whole(Place, usize, bool),
}

/// `None` where memory is wanting.
fn front_of(alloc: Global, routes: &Routes, bytes: &[u8]) -> Option<Front> {
    match next_request(alloc, routes, bytes) {
        Ok(
            Cutting::Whole(
                HttpRequest {
                    target,
                    used,
                    close,
                    ..
                },
            ),
        ) => Some(Front::Whole(place_of(target), used, close)),
        Ok(Cutting::Bad(code)) => Some(Front::Bad(code)),
        Ok(Cutting::More) => Some(Front::More),
        Err(_) => None,
    }
}

fn is_more(alloc: Global, routes: &Routes, bytes: &[u8]) -> bool {
    front_of(alloc, routes, bytes) == Some(Front::More)
}

fn is_bad(alloc: Global, routes: &Routes, bytes: &[u8], code: u16) -> bool {
    front_of(alloc, routes, bytes) == Some(Front::Bad(code))
}

fn is_whole(
    alloc: Global,
    routes: &Routes,
    bytes: &[u8],
    place: Place,
    used: usize,
    close: bool,
) -> bool {
    front_of(alloc, routes, bytes) == Some(Front::Whole(place, used, close))
}

#[test]
fn a_front_may_need_more(rt: HostRuntime) {
    let routes = routes_of(&rt);
    assert!(rt; is_more(rt.alloc(), &routes, b""));
    assert!(rt; is_more(rt.alloc(), &routes, b"GET /holdings HTTP/1.1\r\nHost: a"));
    assert!(rt;
        is_more(
            rt.alloc(),
            &routes,
            b"GET /holdings HTTP/1.1\r\nTransfer-Encoding: chunked\r\n"
        )
    );
    assert!(rt;
        is_more(
            rt.alloc(),
            &routes,
            b"POST /messages HTTP/1.1\r\nContent-Length: 4096\r\n\r\n{}"
        )
    );
}

#[test]
fn a_bad_front_is_told_by_its_code(rt: HostRuntime) {
    let routes = routes_of(&rt);
    assert!(rt; is_bad(rt.alloc(), &routes, b"GET /holdings\r\n", 400));
    assert!(rt; is_bad(rt.alloc(), &routes, b"\x01 /holdings HTTP/1.1\r\n", 400));
    assert!(rt;
        is_bad(
            rt.alloc(),
            &routes,
            b"POST /messages HTTP/1.1\r\nTransfer-Encoding: chunked\r\n\r\n",
            501
        )
    );
    assert!(rt;
        is_bad(
            rt.alloc(),
            &routes,
            b"GET /holdings HTTP/1.1\r\nContent-Length: x\r\ntransfer-encoding: gzip\r\n\r\n",
            501
        )
    );
    assert!(rt;
        is_bad(
            rt.alloc(),
            &routes,
            b"POST /messages HTTP/1.1\r\nContent-Length: 2\r\ncontent-length: 2\r\n\r\n{}",
            400
        )
    );
    assert!(rt;
        is_bad(
            rt.alloc(),
            &routes,
            b"POST /messages HTTP/1.1\r\nContent-Length: +5\r\n\r\n",
            400
        )
    );
    assert!(rt;
        is_bad(
            rt.alloc(),
            &routes,
            b"POST /messages HTTP/1.1\r\nContent-Length:\r\n\r\n",
            400
        )
    );
    assert!(rt;
        is_bad(
            rt.alloc(),
            &routes,
            b"POST /messages HTTP/1.1\r\nContent-Length: 0000000001\r\n\r\nx",
            400
        )
    );
    assert!(rt; is_bad(rt.alloc(), &routes, b"POST /messages HTTP/1.1\r\n\r\n", 411));
    assert!(rt;
        is_bad(
            rt.alloc(),
            &routes,
            b"POST /messages HTTP/1.1\r\nContent-Length: 4097\r\n\r\n",
            413
        )
    );
}

#[test]
fn a_whole_front_is_told(rt: HostRuntime) {
    let routes = routes_of(&rt);
    assert!(rt;
        is_whole(
            rt.alloc(),
            &routes,
            b"POST /messages HTTP/1.0\r\nContent-Length: 0\r\n\r\n",
            Place::Messages,
            46,
            true
        )
    );
    assert!(rt;
        is_whole(
            rt.alloc(),
            &routes,
            b"POST /messages HTTP/1.1\r\nContent-Length: 000000003\r\n\r\nabcdef",
            Place::Messages,
            57,
            false
        )
    );
    assert!(rt;
        is_whole(
            rt.alloc(),
            &routes,
            b"POST /messages HTTP/1.1\r\nCONNECTION: Close\r\nContent-Length: 0\r\n\r\n",
            Place::Messages,
            65,
            true
        )
    );
    assert!(rt;
        is_whole(
            rt.alloc(),
            &routes,
            b"GET /funds HTTP/1.1\r\n\r\n",
            Place::Funds,
            23,
            false
        )
    );
    assert!(rt;
        is_whole(
            rt.alloc(),
            &routes,
            b"GET /holdings? HTTP/1.1\r\n\r\n",
            Place::NoRoute,
            27,
            false
        )
    );
    assert!(rt;
        is_whole(
            rt.alloc(),
            &routes,
            b"GET /redemption/1234?6789 HTTP/1.1\r\n\r\n",
            Place::NoRoute,
            38,
            false
        )
    );
    assert!(rt;
        is_whole(
            rt.alloc(),
            &routes,
            b"GET /terms/A HTTP/1.1\r\n\r\n",
            Place::NoRoute,
            25,
            false
        )
    );
    assert!(rt;
        is_whole(
            rt.alloc(),
            &routes,
            b"GET /holding HTTP/1.1\r\n\r\n",
            Place::NoRoute,
            25,
            false
        )
    );
    assert!(rt;
        is_whole(
            rt.alloc(),
            &routes,
            b"GET /messages HTTP/1.1\r\n\r\n",
            Place::PostOnly,
            26,
            false
        )
    );
    assert!(rt;
        is_whole(
            rt.alloc(),
            &routes,
            b"DELETE /bids/a HTTP/1.1\r\n\r\n",
            Place::GetOnly,
            27,
            false
        )
    );
    assert!(rt;
        is_whole(
            rt.alloc(),
            &routes,
            b"GET /holdings HTTP/1.1\r\n\r\n",
            Place::Holdings,
            26,
            false
        )
    );
}

/// Whether each text that ends before the last byte of this one needs more.
fn needs_its_last_byte(alloc: Global, routes: &Routes, bytes: &[u8]) -> bool {
    for end in 0..bytes.len() {
        if !is_more(alloc, routes, &bytes[..end]) {
            return false;
        }
    }
    true
}

#[test]
fn a_request_is_whole_at_its_last_byte(rt: HostRuntime) {
    let routes = routes_of(&rt);
    let bytes = POST.as_bytes();
    assert!(rt; needs_its_last_byte(rt.alloc(), &routes, bytes));
    let key = Ident::read("k1").expect(&rt, "a name");
    let whole = Cutting::Whole(HttpRequest {
        target: Target::Messages,
        key: Some(Key::Submitter(key)),
        body_start: bytes.len() - 2,
        used: bytes.len(),
        close: false,
    });
    assert!(rt; next_request(rt.alloc(), &routes, bytes) == Ok(whole));
}

/// Whether a text is a whole request at its last byte and no sooner: a post or not, with this key word, and asking to
/// close or not.
fn is_as_recorded(
    alloc: Global,
    routes: &Routes,
    text: &str,
    posts: bool,
    key: &str,
    closes: bool,
) -> bool {
    if !needs_its_last_byte(alloc, routes, text.as_bytes()) {
        return false;
    }
    match next_request(alloc, routes, text.as_bytes()) {
        Ok(
            Cutting::Whole(
                HttpRequest {
                    target,
                    key: found,
                    used,
                    close,
                    ..
                },
            ),
        ) => {
            used == text.len()
                && (place_of(target) == Place::Messages) == posts
                && found == Key::read(key)
                && close == closes
        }
        _ => false,
    }
}

#[test]
fn recorded_requests_are_whole_at_their_last_byte(rt: HostRuntime) {
    let routes = routes_of(&rt);
    assert!(rt; is_as_recorded(rt.alloc(), &routes, CURL_GET, false, "k1", false));
    assert!(rt; is_as_recorded(rt.alloc(), &routes, CURL_POST, true, "k1", false));
    assert!(rt; is_as_recorded(rt.alloc(), &routes, PYTHON_GET, false, "op:root", true));
    assert!(rt; is_as_recorded(rt.alloc(), &routes, PYTHON_POST, true, "k1", true));
    assert!(rt; is_as_recorded(rt.alloc(), &routes, REQUESTS_POST, true, "k1", false));
    assert!(rt; is_as_recorded(rt.alloc(), &routes, NGINX_POST, true, "k1", true));
}

/// Whether this stands at the front from this byte on.
fn stands_from(alloc: Global, routes: &Routes, bytes: &[u8], from: usize, front: Front) -> bool {
    from <= bytes.len() && front_of(alloc, routes, &bytes[from..]) == Some(front)
}

/// Three requests, and a fourth without a length.
const FOUR: &str = "POST /messages HTTP/1.1\r\nAuction-Key: k1\r\nContent-Length: 2\r\n\r\n{}\
    DELETE /terms/bill13 HTTP/1.1\r\n\r\n\
    GET /holdings HTTP/1.1\nContent-Length: 3\n\nabc\
    \r\nPOST /messages HTTP/1.1\r\n\r\n";

#[test]
fn requests_are_cut_one_after_the_other(rt: HostRuntime) {
    let routes = routes_of(&rt);
    let alloc = rt.alloc();
    let bytes = FOUR.as_bytes();
    let first = Front::Whole(Place::Messages, 65, false);
    assert!(rt; stands_from(alloc, &routes, bytes, 0, first));
    let second = Front::Whole(Place::GetOnly, 33, false);
    assert!(rt; stands_from(alloc, &routes, bytes, 65, second));
    let third = Front::Whole(Place::Holdings, 45, false);
    assert!(rt; stands_from(alloc, &routes, bytes, 98, third));
    assert!(rt; stands_from(alloc, &routes, bytes, 143, Front::Bad(411)));
}

fn with_headers(alloc: Global, count: usize) -> Option<String> {
    let mut text = String::from_str(alloc, "GET /holdings HTTP/1.1\r\n").ok()?;
    for _ in 0..count {
        text.push_str("a: b\r\n").ok()?;
    }
    text.push_str("\r\n").ok()?;
    Some(text)
}

/// A request with 32 headers is whole, and one with 33 has too many.
fn headers_have_a_limit(alloc: Global, routes: &Routes) -> bool {
    let (Some(most), Some(crowded)) = (with_headers(alloc, 32), with_headers(alloc, 33)) else {
        return false;
    };
    is_whole(alloc, routes, most.as_bytes(), Place::Holdings, 218, false)
        && is_bad(alloc, routes, crowded.as_bytes(), 431)
}

/// A head needs more at 8,191 bytes, and is too long at 8,192.
fn bytes_have_a_limit(alloc: Global, routes: &Routes) -> bool {
    let Ok(long) = vec![in alloc; b'a'; 8192] else {
        return false;
    };
    is_more(alloc, routes, &long[..8191]) && is_bad(alloc, routes, &long, 431)
}

#[test]
fn heads_have_limits(rt: HostRuntime) {
    let routes = routes_of(&rt);
    assert!(rt; headers_have_a_limit(rt.alloc(), &routes));
    assert!(rt; bytes_have_a_limit(rt.alloc(), &routes));
}

#[test]
fn heads_of_replies_are_spelled(rt: HostRuntime) {
    let plain =
        "HTTP/1.1 400 Bad Request\r\nContent-Type: text/plain\r\nContent-Length: 26\r\n\r\n";
    assert!(rt; reply_head(400, 26, None, false).bytes() == plain.as_bytes());
    let allow =
        "HTTP/1.1 405 Method Not Allowed\r\nContent-Type: text/plain\r\nContent-Length: 20\r\nAllow: POST\r\n\
        Connection: close\r\n\r\n";
    assert!(rt; reply_head(405, 20, Some(Allow::Post), true).bytes() == allow.as_bytes());
}

#[test]
fn fixed_replies_are_spelled(rt: HostRuntime) {
    let bad =
        "HTTP/1.1 413 Payload Too Large\r\nContent-Type: text/plain\r\nContent-Length: 12\r\nConnection: close\r\n\r\n\
        bad request\n";
    assert!(rt; bad_front_reply(413).bytes() == bad.as_bytes());
    let fault =
        "HTTP/1.1 503 Service Unavailable\r\nContent-Type: text/plain\r\nContent-Length: 22\r\n\r\n\
        unavailable DiskFault\n";
    assert!(rt; disk_fault_reply(false).bytes() == fault.as_bytes());
    let memory =
        "HTTP/1.1 507 Insufficient Storage\r\nContent-Type: text/plain\r\nContent-Length: 24\r\n\
        Connection: close\r\n\r\nunavailable OutOfMemory\n";
    assert!(rt; no_memory_reply().bytes() == memory.as_bytes());
}

#[test]
fn refusals_have_codes(rt: HostRuntime) {
    assert!(rt; refusal_code(&Refusal::UnknownKey) == 401);
    assert!(rt; refusal_code(&Refusal::NoRoute) == 404);
    assert!(rt; refusal_code(&Refusal::BadMethod) == 405);
    assert!(rt; refusal_code(&Refusal::MixedBids) == 422);
    assert!(rt; refusal_code(&Refusal::UnknownOffer) == 404);
    assert!(rt; refusal_code(&Refusal::OfferClosed) == 422);
    assert!(rt; refusal_code(&Refusal::BadShape(Field::Number)) == 400);
}
