//! Queries, and what a JSON request asks.
use crate::message::Message;
use tb_terms::{Cusip, Field};
use tb_units::Ident;

/// What is asked of the host without a change.
#[derive(Clone, Copy, Debug, PartialEq, Eq)]
pub enum Query {
    /// The announced terms of an auction.
    Terms(Ident),
    /// The published results of an auction.
    Results(Ident),
    /// The awards of the caller's bidders in an auction.
    Awards(Ident),
    /// The caller's bids in an auction.
    Bids(Ident),
    /// What the caller holds of each bill.
    Holdings,
    /// Who was paid what when the bill was redeemed.
    Redemption(Cusip),
    /// The caller's balance.
    Funds,
}

/// The kinds of queries.
#[derive(Clone, Copy, Debug, PartialEq, Eq)]
pub enum QueryKind {
    Terms,
    Results,
    Awards,
    Bids,
    Holdings,
    Redemption,
    Funds,
}

/// A request, as it is read from JSON: a message under its sender's number, or a query.
#[derive(Clone, Copy, Debug, PartialEq, Eq)]
pub enum Request {
    Message { number: u64, message: Message },
    Query(Query),
}

/// Why bytes are no request.
#[derive(Clone, Copy, Debug, PartialEq, Eq)]
pub enum ReadFault {
    /// They are no JSON text.
    BadJson,
    /// This member is the first that is missing or not of its form.
    BadShape(Field),
    /// There was no memory to read them.
    OutOfMemory,
}
