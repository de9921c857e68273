//! The front of a stream.
ghost use Rattle.std.specs.Prelude.{◌≡◌, ◌≤◌, ◌↔◌, All, IfOk, OnErr, IsTrue, IsUtf8, length};
ghost use Rattle.httparse.specs.Spans.{IsWithin, IsHeaderWithin, RequestOverflows, span_bytes};
ghost use Rattle.httparse.specs.declared.Error.TheVariants.{TooManyHeaders};
ghost use Rattle.tb_wire.specs.Head.{spanned_head};
ghost use Rattle.tb_wire.specs.Reading.{Reads, IsWholeHead};
ghost use Rattle.tb_wire.specs.Front.{lines_len, seen, front_after, unfinished_front, IsFront, IsFrontOf};

use crate::bodies::find_length;
use crate::cutting::{Cutting, HttpRequest};
use crate::headers::asks_to_close;
use crate::keys::find_key;
use crate::paths::Routes;
use crate::targets::find_target;
use httparse::spans::{EMPTY_HEADER_SPAN, HeaderSpan, RequestSpans, parse_request};
use httparse::{Error, Status};
use std::alloc::Global;
use tb_units::OutOfMemory;

/// What stands at the front of a stream's bytes, of which these have come.
///
/// A request is whole once its head and its body have come. A fault is told by its code as soon as the line in which
/// it stands has come, and both answers stay as more bytes come. Takes memory only where a head has more than 32
/// headers.
pub fn next_request(alloc: Global, routes: &Routes, bytes: &[u8]) -> Result<Cutting, OutOfMemory>
    ensures front { IfOk result (IsFront bytes.now) }
    // It finds no memory only where the head has more than 32 headers.
    ensures memory { OnErr result (RequestOverflows 32 (seen bytes.now)) }
{
    let text = whole_lines(bytes);
    let mut headers = [EMPTY_HEADER_SPAN; 32];
    match read_head(text, &mut headers) {
        Reading::Whole(spans) => Ok(whole_front(routes, text, &headers, &spans, bytes.len())),
        Reading::Refused => Ok(Cutting::Bad(400)),
        Reading::More => Ok(unfinished(bytes.len())),
        Reading::Crowded => crowded_front(alloc, text, bytes.len()),
    }
}

// What httparse reads at the front of a text of whole lines.
#[derive(Clone, Copy)]
enum Reading {
    Whole(RequestSpans),
    Refused,
    More,
    Crowded,
}

fn read_head(text: &[u8], headers: &mut [HeaderSpan]) -> Reading
    requires lines { lines_len text.now ≡ length text.now }
    ensures { Reads text.now headers.new result }
{
    match parse_request(text, headers) {
        Ok(Status::Complete(spans)) => Reading::Whole(spans),
        Ok(Status::Partial) => Reading::More,
        Err(error) => {
            if is_of_room(error) {
                Reading::Crowded
            } else {
                Reading::Refused
            }
        }
    }
}

fn is_of_room(error: Error) -> bool
    ensures { IsTrue result ↔ (error ≡ TooManyHeaders) }
{
    matches!(error, Error::TooManyHeaders)
}

// The bytes up to the last LF among the first 8,192.
#[tactic(auto, using(crate::proofs::LineLemmas::seen_by, crate::proofs::LineLemmas::seen_lines, crate::proofs::LineLemmas::seen_short))]
fn whole_lines(bytes: &[u8]) -> &[u8]
    ensures seen { result.now ≡ seen bytes.now }
    ensures lines { lines_len result.now ≡ length result.now }
    ensures few { length result.now ≤ 8192 }
{
    let front = &bytes[..bytes.len().min(8192)];
    &bytes[..count_lines(front)]
}

// How many bytes there are up to and with the last LF, which is looked for from behind.
#[tactic(auto, using(crate::proofs::LineLemmas::line_here, crate::proofs::LineLemmas::line_before))]
fn count_lines(bytes: &[u8]) -> usize
    ensures lines { result ≡ lines_len bytes.now }
    ensures within { result ≤ length bytes.now }
{
    let mut len = bytes.len();
    while len > 0 {
        if bytes[len - 1] == b'\n' {
            return len;
        }
        len -= 1;
    }
    0
}

// What stands there while no whole head does.
fn unfinished(there: usize) -> Cutting
    ensures { result ≡ unfinished_front there }
{
    if there < 8192 {
        Cutting::More
    } else {
        Cutting::Bad(431)
    }
}

// A head with more headers than are served is a fault, once it is whole.
fn crowded_front(alloc: Global, text: &[u8], there: usize) -> Result<Cutting, OutOfMemory>
    requires lines { lines_len text.now ≡ length text.now }
    requires few { length text.now ≤ 8192 }
    requires crowded { RequestOverflows 32 text.now }
    ensures { IfOk result (IsFrontOf text.now there) }
{
    let mut headers = vec![in alloc; EMPTY_HEADER_SPAN; 2731]?;
    match read_head(text, &mut headers) {
        Reading::Whole(_) => Ok(Cutting::Bad(431)),
        Reading::More => Ok(unfinished(there)),
        Reading::Refused => Ok(Cutting::Bad(400)),
        Reading::Crowded => Ok(Cutting::Bad(431)),
    }
}

fn whole_front(
    routes: &Routes,
    text: &[u8],
    headers: &[HeaderSpan],
    spans: &RequestSpans,
    there: usize,
) -> Cutting
    requires head { IsWholeHead text.now headers.now spans.now }
    requires few { length headers.now ≤ 32 }
    requires short { length text.now ≤ 8192 }
    ensures { IsFrontOf text.now there result }
{
    front_of_head(routes, text, &headers[..spans.headers], spans, there)
}

fn front_of_head(
    routes: &Routes,
    text: &[u8],
    headers: &[HeaderSpan],
    spans: &RequestSpans,
    there: usize,
) -> Cutting
    requires method { IsWithin (length text.now) spans.now.method }
    requires path { IsWithin (length text.now) spans.now.path }
    requires within { All (IsHeaderWithin (length text.now)) headers.now }
    requires target { IsUtf8 (span_bytes text.now spans.now.path) }
    requires few { length headers.now ≤ 32 }
    requires small { spans.now.len ≤ 8192 }
    ensures { result ≡ front_after there (spanned_head text.now headers.now spans.now) }
{
    match find_length(text, headers, spans.method.of(text)) {
        Ok(body) if there < spans.len + body => Cutting::More,
        Ok(body) => Cutting::Whole(HttpRequest {
            target: find_target(routes, spans.method.of(text), spans.path.of(text)),
            key: find_key(text, headers),
            body_start: spans.len,
            used: spans.len + body,
            close: spans.version == 0 || asks_to_close(text, headers),
        }),
        Err(code) => Cutting::Bad(code),
    }
}
