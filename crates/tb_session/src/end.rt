//! How a link ended.

/// How a link ended.
#[derive(Clone, Copy, Debug, PartialEq, Eq)]
pub enum End {
    /// The input ended between two requests.
    EndOfInput,
    /// It ended inside of one, which got no reply.
    CutShort,
    /// A request asked to close.
    Asked,
    /// The last request that a link may have was served, its 1,000,000th.
    Turns,
    /// The bytes are no request, for the fault with this code.
    BadRequest(u16),
    /// The link's count of read faults rose.
    ReadFault,
    /// The link's count of write faults rose.
    WriteFault,
    /// There was no memory, and that was replied, or tried.
    OutOfMemory,
}
