//! By what names and rows are found and counted.
use crate::row::{BidRow, Row};
use tb_index::KeyOf;
use tb_units::Ident;

/// By the name itself.
pub(crate) struct ByName;

/// By the number of a message and its submitter. The number comes first, since few submitters have the same, and a
/// comparison ends there. Rows are found by its order, and not by its hash: senders choose the numbers, and the seed of
/// the hash is fixed, so that they could choose such as collide.
pub(crate) struct ByNumber;

/// By the submitter.
pub(crate) struct BySubmitter;

impl KeyOf<Ident> for ByName {
    type Key = Ident;

    ghost key_of = { λ name. name };

    fn key_of(name: &Ident) -> Ident {
        *name
    }
}

impl KeyOf<Row> for ByNumber {
    type Key = (u64, u32);

    ghost key_of = { λ row. (row.number, row.submitter) };

    fn key_of(row: &Row) -> (u64, u32) {
        (row.number, row.submitter)
    }
}

impl KeyOf<Row> for BySubmitter {
    type Key = u32;

    ghost key_of = { λ row. row.submitter };

    fn key_of(row: &Row) -> u32 {
        row.submitter
    }
}

/// By the auction of a bid and its bidder.
pub(crate) struct ByBidder;

/// By the submitter and the auction of a bid.
pub(crate) struct BySender;

impl KeyOf<BidRow> for ByBidder {
    type Key = (u32, u32);

    ghost key_of = { λ row. (row.auction, row.bidder) };

    fn key_of(row: &BidRow) -> (u32, u32) {
        (row.auction, row.bidder)
    }
}

impl KeyOf<BidRow> for BySender {
    type Key = (u32, u32);

    ghost key_of = { λ row. (row.submitter, row.auction) };

    fn key_of(row: &BidRow) -> (u32, u32) {
        (row.submitter, row.auction)
    }
}
