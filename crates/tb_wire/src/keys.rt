//! The key word of a request.
ghost use Rattle.std.specs.Prelude.{◌≡◌, All, length, map};
ghost use Rattle.httparse.specs.Spans.{IsHeaderWithin, header_bytes};
ghost use Rattle.tb_message.specs.Keys.{key_of};
ghost use Rattle.tb_wire.specs.Headers.{values_of};
ghost use Rattle.tb_wire.specs.Front.{key_said};

use crate::headers::{Standing, find_header};
use httparse::spans::HeaderSpan;
use tb_message::Key;

/// The key word of the one `Auction-Key` header. `None` where there is none, more than one, or no key word in it.
pub(crate) fn find_key(text: &[u8], headers: &[HeaderSpan]) -> Option<Key>
    requires within { All (IsHeaderWithin (length text.now)) headers.now }
    ensures { result ≡ key_said (map (header_bytes text.now) headers.now) }
{
    match find_header(text, headers, b"auction-key") {
        Standing::Once(value) => read_key(value.of(text)),
        _ => None,
    }
}

// What is no text is no key word either.
#[tactic(auto, using(crate::proofs::KeyLemmas::no_key))]
fn read_key(bytes: &[u8]) -> Option<Key>
    ensures { result ≡ key_of bytes.now }
{
    match str::from_utf8(bytes) {
        Ok(text) => Key::read(text),
        Err(_) => None,
    }
}
