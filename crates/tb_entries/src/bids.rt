//! The accepted bids, in their order.
ghost use Rattle.std.specs.Prelude.{◌≡◌, ℕ, ◌+◌, ◌^◌, ◌<◌, ◌≤◌, ◌↔◌, ◌&&◌, List, [], ◌∷◌, ◌++◌, map, length, IsNone, IfOk, IfSome, OnOk};
ghost use Rattle.std.specs.List.{filter, All};
ghost use Rattle.tb_history.specs.declared.bids.Bid.{Bid};
ghost use Rattle.tb_history.specs.Entries.{is_same};
ghost use Rattle.tb_history.specs.LiveBids.{bids_of};
ghost use Rattle.tb_entries.specs.Rows.{bid_in, IsBidRow, IsOwnNumber};

use crate::keys::{ByBidder, BySender};
use crate::names::{self, Names, find_near, number_near, number_of, spare_of};
use crate::row::BidRow;
use std::alloc::Global;
use std::marker::Model;
use tb_history::Bid;
use tb_index::{Chained, Named};
use tb_units::{Ident, OutOfMemory};

/// The accepted bids in their order, counted by auction and bidder, and gone through by submitter and auction.
/// Contracts see the list of them, and how many adds are sure.
#[derive(Drop)]
pub struct Bids {
    names: Names,
    rows: Chained<BidRow, ByBidder, BySender>,
}

impl Model for Bids {
    ghost use Rattle.std.specs.Prelude.{◌^◌, ◌≤◌, min, map, length};
    ghost use Rattle.std.specs.List.{All};
    ghost use Rattle.tb_index.specs.Listed.{Listed};
    ghost use Rattle.tb_history.specs.declared.bids.Bid.{Bid};
    ghost use Rattle.tb_entries.specs.Rows.{spare_in, bid_in, IsBidRow};

    ghost Value = { Listed Bid };

    ghost view = { λ bids. record {
      list = map (bid_in bids.names.list) bids.rows.list;
      spare = min (spare_in bids.names.list bids.names.spare) bids.rows.spare;
    } };

    ghost invariant = { λ bids. All (IsBidRow bids.names.list) bids.rows.list × (length bids.names.list ≤ 2 ^ 32) };
}

impl Bids {
    /// No bids, which take no memory.
    pub fn new(alloc: Global) -> Bids
        ensures list { result.list ≡ [] }
        ensures spare { result.spare ≡ 0 }
    {
        Bids {
            names: Named::new(alloc),
            rows: Chained::new(alloc),
        }
    }

    /// Makes so many adds sure.
    pub fn reserve(&mut self, more: usize) -> Result<(), OutOfMemory>
        ensures spare { OnOk result (more ≤ self.new.spare) }
        // The bids stay, and no room is lost, whatever the result.
        ensures list { self.new.list ≡ self.old.list }
        ensures room { self.old.spare ≤ self.new.spare }
    {
        names::reserve(&mut self.names, more)?;
        self.rows.reserve(more)?;
        Ok(())
    }

    /// How many adds are sure.
    pub fn spare(&self) -> usize
        ensures { result ≡ self.now.spare }
    {
        spare_of(&self.names).min(self.rows.spare())
    }

    /// How many bids there are.
    pub fn len(&self) -> usize
        ensures len { result ≡ length self.now.list }
        ensures few { result < 2 ^ 63 }
    {
        self.rows.rows().len()
    }

    /// How many bids of the bidder there are in the auction.
    pub fn count(&self, auction: &Ident, bidder: &Ident) -> usize
        ensures { result ≡ length (bids_of self.now.list auction.now bidder.now) }
    {
        let (_, near) = last_numbers(self.rows.rows());
        let Some(auction_place) = find_near(&self.names, auction, near) else {
            return 0;
        };
        let Some(bidder_place) = self.names.find(bidder) else {
            return 0;
        };
        self.rows
            .count(&(auction_place as u32, bidder_place as u32))
    }

    /// The submitter's bids in the auction, in the order of acceptance. No others are gone through.
    pub fn from(
        &self,
        alloc: Global,
        submitter: &Ident,
        auction: &Ident,
    ) -> Result<Vec<Bid>, OutOfMemory>
        ensures { IfOk result
            (λ own. own.items ≡ filter
            (λ (bid : Bid). is_same bid.submitter submitter.now && is_same bid.auction auction.now) self.now.list) }
    {
        let Some(submitter_place) = self.names.find(submitter) else {
            return Ok(Vec::new(alloc));
        };
        let Some(auction_place) = self.names.find(auction) else {
            return Ok(Vec::new(alloc));
        };
        let rows = self
            .rows
            .rows_in(alloc, &(submitter_place as u32, auction_place as u32))?;
        bids_in(alloc, self.names.rows(), &rows)
    }

    /// Adds a bid at the end, which can't fail.
    pub fn push(&mut self, bid: &Bid)
        requires { 0 < self.old.spare }
        ensures list { self.new.list ≡ self.old.list ++ bid.now ∷ [] }
        ensures spare { self.old.spare ≤ self.new.spare + 1 }
    {
        let (near_submitter, near_auction) = last_numbers(self.rows.rows());
        let submitter = number_near(&mut self.names, &bid.submitter, near_submitter);
        let auction = number_near(&mut self.names, &bid.auction, near_auction);
        let bidder = number_of(&mut self.names, &bid.bidder);
        self.rows.push(BidRow {
            submitter,
            auction,
            bidder,
            number: bid.number,
            rate: bid.rate,
            amount: bid.amount,
        });
    }

    /// Takes the last bid back. `None` where there is none.
    pub fn pop(&mut self) -> Option<Bid>
        ensures none { IsNone result ↔ (self.old.list ≡ []) }
        ensures some { IfSome result (λ bid. self.old.list ≡ self.new.list ++ bid ∷ []) }
        ensures unchanged { IsNone result → self.new.list ≡ self.old.list }
        // No room is lost.
        ensures spare { self.old.spare ≤ self.new.spare }
    {
        let row = self.rows.pop()?;
        Some(bid_of_row(self.names.rows(), &row))
    }
}

// The numbers of the last bid's submitter and auction, which the next one often has too.
fn last_numbers(rows: &[BidRow]) -> (Option<u32>, Option<u32>)
    ensures submitter { (names : List (List ℕ)) → All (IsBidRow names) rows.now → IfSome result.0 (IsOwnNumber names) }
    ensures auction { (names : List (List ℕ)) → All (IsBidRow names) rows.now → IfSome result.1 (IsOwnNumber names) }
{
    if rows.is_empty() {
        return (None, None);
    }
    let last = &rows[rows.len() - 1];
    (Some(last.submitter), Some(last.auction))
}

fn bid_of_row(names: &[Ident], row: &BidRow) -> Bid
    requires { IsBidRow names.now row.now }
    ensures { result ≡ bid_in names.now row.now }
{
    Bid {
        submitter: names[row.submitter as usize],
        number: row.number,
        auction: names[row.auction as usize],
        bidder: names[row.bidder as usize],
        rate: row.rate,
        amount: row.amount,
    }
}

// The bids of these rows.
fn bids_in(alloc: Global, names: &[Ident], rows: &[BidRow]) -> Result<Vec<Bid>, OutOfMemory>
    requires { All (IsBidRow names.now) rows.now }
    ensures { IfOk result (λ bids. bids.items ≡ map (bid_in names.now) rows.now) }
{
    let mut bids = Vec::with_capacity(alloc, rows.len())?;
    for row in rows {
        bids.push_reserved(bid_of_row(names, row));
    }
    Ok(bids)
}
