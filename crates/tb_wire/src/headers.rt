//! The headers of a request, by name.
ghost use Rattle.std.specs.Prelude.{◌≡◌, ◌≤◌, ◌++◌, [], ◌∷◌, ℕ, List, All, length, map};
ghost use Rattle.std.specs.List.{list_any};
ghost use Rattle.httparse.specs.Spans.{IsWithin, IsHeaderWithin, header_bytes, span_bytes};
ghost use Rattle.tb_wire.specs.Headers.{is_word, values_of, closes, Stands};

use httparse::spans::{HeaderSpan, Span};

/// How often a header stands, with the place of its value where it stands once.
#[derive(Clone, Copy)]
pub(crate) enum Standing {
    Nowhere,
    Once(Span),
    Often,
}

/// Whether bytes are this word, in any case.
pub(crate) fn is_that_word(bytes: &[u8], word: &[u8]) -> bool
    ensures { result ≡ is_word word.now bytes.now }
{
    bytes.eq_ignore_ascii_case(word)
}

/// How often the header of this name stands.
pub(crate) fn find_header(text: &[u8], headers: &[HeaderSpan], name: &[u8]) -> Standing
    requires within { All (IsHeaderWithin (length text.now)) headers.now }
    ensures { Stands text.now result (values_of name.now (map (header_bytes text.now) headers.now)) }
{
    let mut standing = Standing::Nowhere;
    for header in headers {
        standing = with_header(text, standing, header, name);
    }
    standing
}

// With one header more, which may have the name.
fn with_header(text: &[u8], standing: Standing, header: &HeaderSpan, name: &[u8]) -> Standing
    requires within { IsHeaderWithin (length text.now) header.now }
    ensures { (values : List (List ℕ)) → Stands text.now standing values
        → Stands text.now result (values ++ values_of name.now (header_bytes text.now header.now ∷ [])) }
{
    if has_name(text, header, name) {
        return once_more(text, standing, header.value);
    }
    standing
}

fn has_name(text: &[u8], header: &HeaderSpan, name: &[u8]) -> bool
    requires within { IsHeaderWithin (length text.now) header.now }
    ensures { result ≡ is_word name.now (header_bytes text.now header.now).0 }
{
    is_that_word(header.name.of(text), name)
}

fn once_more(text: &[u8], standing: Standing, value: Span) -> Standing
    requires within { IsWithin (length text.now) value }
    ensures { (values : List (List ℕ)) → Stands text.now standing values
        → Stands text.now result (values ++ span_bytes text.now value ∷ []) }
{
    match standing {
        Standing::Nowhere => Standing::Once(value),
        _ => Standing::Often,
    }
}

/// Whether a `Connection` header has the value `close`.
pub(crate) fn asks_to_close(text: &[u8], headers: &[HeaderSpan]) -> bool
    requires within { All (IsHeaderWithin (length text.now)) headers.now }
    ensures { result ≡ list_any closes (map (header_bytes text.now) headers.now) }
{
    for header in headers {
        if says_close(text, header) {
            return true;
        }
    }
    false
}

fn says_close(text: &[u8], header: &HeaderSpan) -> bool
    requires within { IsHeaderWithin (length text.now) header.now }
    ensures { result ≡ closes (header_bytes text.now header.now) }
{
    is_that_word(header.name.of(text), b"connection")
        && is_that_word(header.value.of(text), b"close")
}
