//! The books of auctions, as messages change them.
ghost use Rattle.std.specs.Prelude.{◌≡◌, ◌<◌, ◌^◌, length};
ghost use Rattle.tb_history.specs.Legal.{IsLegal};
ghost use Rattle.tb_history.specs.LiveBids.{bid_of, bids};
ghost use Rattle.tb_shelving.specs.Shelving.{HasShelved, IsOut, TakesMessage};

use tb_book::BookLine;
use tb_entries::Entries;
use tb_message::Message;
use tb_shelf::Shelf;
use tb_tables::{Bidders, find_bid, number_of};
use tb_units::Ident;

/// Puts a book there for an auction that is announced, adds the line of a bid of the sender under its number, takes
/// that of a bid that it cancels out, which the entries before the message have, or opens the book of an auction that
/// is published.
pub fn enter_line(
    shelf: &mut Shelf,
    bidders: &Bidders,
    entries: &Entries,
    sender: &Ident,
    number: u64,
    message: &Message,
)
    requires legal { IsLegal entries.now.list }
    requires few { length bidders.now.list < 2 ^ 32 }
    requires takes { TakesMessage bidders.now.list sender.now number message.now shelf.old }
    ensures { HasShelved bidders.now.list (bids entries.now.list) sender.now number message.now shelf.old shelf.new }
{
    match message {
        Message::Announce { terms } => shelf.open(terms.auction),
        Message::Bid {
            auction,
            bidder,
            rate,
            amount,
        } => {
            let line = BookLine {
                bidder: number_of(bidders, bidder),
                number,
                rate: *rate,
                amount: *amount,
            };
            shelf.add(auction, line);
        }
        Message::Cancel { auction, bid } => cancel_line(
            shelf, bidders, entries, sender, auction, *bid,
        ),
        Message::Publish { auction } => shelf.unseal(auction),
        _ => (),
    }
}

// Takes the line of the sender's bid of this number out of the auction's book.
fn cancel_line(
    shelf: &mut Shelf,
    bidders: &Bidders,
    entries: &Entries,
    sender: &Ident,
    auction: &Ident,
    number: u64,
)
    requires legal { IsLegal entries.now.list }
    requires few { length bidders.now.list < 2 ^ 32 }
    ensures out { IsOut bidders.now.list (bid_of (bids entries.now.list) sender.now auction.now number)
        auction.now number shelf.old.books shelf.new.books }
    ensures ready { (shelf.new.ready ≡ shelf.old.ready) × (shelf.new.places ≡ shelf.old.places) }
{
    if let Some(bid) = find_bid(entries, sender, auction, number) {
        let bidder = number_of(bidders, &bid.bidder);
        shelf.take_out(auction, bid.rate, bidder, number);
    }
}
