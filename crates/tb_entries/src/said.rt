//! What an entry says, in few bytes where it is sent often.
ghost use Rattle.std.specs.Prelude.{◌≡◌, ◌+◌, ◌-◌, ◌<◌, ◌≤◌, ◌^◌, ℕ, List, length, vec_len, vec_capacity, IfSome};
ghost use Rattle.tb_message.specs.declared.message.Message.{Message};
ghost use Rattle.tb_entries.specs.Rows.{message_of, IsSaid, IsOwnNumber, Grown};

use crate::names::{Names, number_near, number_of};
use tb_message::Message;
use tb_terms::Cusip;
use tb_units::{Dollars, Ident, Rate};

/// What is sent often, its names told by their numbers; other messages stand whole in a list, and here is their place.
#[derive(Clone, Copy, Drop)]
pub(crate) enum Said {
    Bid {
        auction: u32,
        bidder: u32,
        rate: Option<Rate>,
        amount: Dollars,
    },
    Cancel {
        auction: u32,
        bid: u64,
    },
    Position {
        auction: u32,
        bidder: u32,
        position: i64,
    },
    Transfer {
        cusip: Cusip,
        to: u32,
        amount: Dollars,
    },
    Pledge {
        cusip: Cusip,
        to: u32,
        amount: Dollars,
    },
    Release {
        holder: u32,
        pledge: u64,
        amount: Dollars,
    },
    Whole {
        place: usize,
    },
}

/// The message that was said.
pub(crate) fn message_in(names: &[Ident], others: &[Message], said: &Said) -> Message
    requires { IsSaid names.now others.now said.now }
    ensures { result ≡ message_of names.now others.now said.now }
{
    match said {
        Said::Bid {
            auction,
            bidder,
            rate,
            amount,
        } => Message::Bid {
            auction: names[*auction as usize],
            bidder: names[*bidder as usize],
            rate: *rate,
            amount: *amount,
        },
        Said::Cancel { auction, bid } => Message::Cancel {
            auction: names[*auction as usize],
            bid: *bid,
        },
        Said::Position {
            auction,
            bidder,
            position,
        } => Message::Position {
            auction: names[*auction as usize],
            bidder: names[*bidder as usize],
            position: *position,
        },
        Said::Transfer { cusip, to, amount } => Message::Transfer {
            cusip: *cusip,
            to: names[*to as usize],
            amount: *amount,
        },
        Said::Pledge { cusip, to, amount } => Message::Pledge {
            cusip: *cusip,
            to: names[*to as usize],
            amount: *amount,
        },
        Said::Release {
            holder,
            pledge,
            amount,
        } => Message::Release {
            holder: names[*holder as usize],
            pledge: *pledge,
            amount: *amount,
        },
        Said::Whole { place } => others[*place],
    }
}

/// The number of the auction that a bid, a cancel or a position was said of.
pub(crate) fn auction_in(said: &Said) -> Option<u32>
    ensures { (names : List (List ℕ)) (others : List Message) → IsSaid names others said.now
        → IfSome result (IsOwnNumber names) }
{
    match said {
        Said::Bid { auction, .. } => Some(*auction),
        Said::Cancel { auction, .. } => Some(*auction),
        Said::Position { auction, .. } => Some(*auction),
        _ => None,
    }
}

/// What the message says, its names numbered, or kept whole among the others. The number that its auction may have is
/// looked at first.
pub(crate) fn said_of(
    names: &mut Names,
    others: &mut Vec<Message>,
    message: &Message,
    near: Option<u32>,
) -> Said
    requires room { 2 ≤ names.old.spare }
    requires few { length names.old.list + 2 ≤ 2 ^ 32 }
    requires other { vec_len others.old < vec_capacity others.old }
    requires near { IfSome near (IsOwnNumber names.old.list) }
    ensures says { message_of names.new.list others.new.items result ≡ message.now }
    ensures is { IsSaid names.new.list others.new.items result }
    ensures names { Grown names.old.list names.new.list }
    ensures others { Grown others.old.items others.new.items }
    ensures long { length names.new.list ≤ length names.old.list + 2 }
    ensures spare { names.old.spare ≤ names.new.spare + 2 }
    ensures left { vec_capacity others.old - vec_len others.old ≤ vec_capacity others.new - vec_len others.new + 1 }
{
    match message {
        Message::Bid {
            auction,
            bidder,
            rate,
            amount,
        } => {
            let auction = number_near(names, auction, near);
            let bidder = number_of(names, bidder);
            Said::Bid {
                auction,
                bidder,
                rate: *rate,
                amount: *amount,
            }
        }
        Message::Cancel { auction, bid } => Said::Cancel {
            auction: number_near(names, auction, near),
            bid: *bid,
        },
        Message::Position {
            auction,
            bidder,
            position,
        } => {
            let auction = number_near(names, auction, near);
            let bidder = number_of(names, bidder);
            Said::Position {
                auction,
                bidder,
                position: *position,
            }
        }
        Message::Transfer { cusip, to, amount } => Said::Transfer {
            cusip: *cusip,
            to: number_of(names, to),
            amount: *amount,
        },
        Message::Pledge { cusip, to, amount } => Said::Pledge {
            cusip: *cusip,
            to: number_of(names, to),
            amount: *amount,
        },
        Message::Release {
            holder,
            pledge,
            amount,
        } => Said::Release {
            holder: number_of(names, holder),
            pledge: *pledge,
            amount: *amount,
        },
        _ => {
            let place = others.len();
            others.push_reserved(*message);
            Said::Whole { place }
        }
    }
}
