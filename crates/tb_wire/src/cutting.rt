//! What stands at the front of a stream.
use tb_message::{Key, Query};

/// Where a request leads.
#[derive(Clone, Copy, Debug, PartialEq, Eq)]
pub enum Target {
    /// A message in the body, sent by POST.
    Messages,
    /// A query, asked by GET.
    Read(Query),
    /// The path is not served.
    NoRoute,
    /// The path is served by GET alone, and the method is another.
    GetOnly,
    /// The path is served by POST alone, and the method is another.
    PostOnly,
}

/// A whole request: its body is the bytes from `body_start` to `used`.
#[derive(Clone, Copy, Debug, PartialEq, Eq)]
pub struct HttpRequest {
    pub target: Target,
    /// The key word of the one `Auction-Key` header.
    pub key: Option<Key>,
    /// Bytes of the head.
    pub body_start: usize,
    /// Bytes of head and body.
    pub used: usize,
    /// Whether it asks to close the link.
    pub close: bool,
}

/// The front of a stream: a whole request, the code of the first fault, or less than a request.
#[derive(Clone, Copy, Debug, PartialEq, Eq)]
pub enum Cutting {
    Whole(HttpRequest),
    Bad(u16),
    More,
}
