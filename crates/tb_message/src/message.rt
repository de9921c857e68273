//! Messages of submitters and of the operator, and the entries of the history.
ghost use Rattle.std.specs.Prelude.{◌≡◌};
ghost use Rattle.tb_message.specs.Messages.{kind_of};

use crate::kind::Kind;
use tb_terms::{Announcement, Cusip};
use tb_units::{Cents, Day, Dollars, Ident, Moment, Rate};

/// What a submitter or the operator asks to be entered. The operator registers, enrols, announces, publishes, settles
/// and redeems, enters holidays and add-ons, and takes money in and pays it out; submitters send the rest.
#[derive(Clone, Copy, Debug, PartialEq, Eq)]
pub enum Message {
    /// A submitter, and the key by which it is known.
    Register {
        submitter: Ident,
        key: Ident,
    },
    /// A bidder, under the submitter that bids for it.
    Enrol {
        bidder: Ident,
        submitter: Ident,
    },
    /// A day on which nothing is paid.
    Holiday {
        day: Day,
    },
    /// An auction with its terms.
    Announce {
        terms: Announcement,
    },
    /// A bid for par of an auction; without a rate it is noncompetitive.
    Bid {
        auction: Ident,
        bidder: Ident,
        rate: Option<Rate>,
        amount: Dollars,
    },
    /// The sender's bid of this number is taken back.
    Cancel {
        auction: Ident,
        bid: u64,
    },
    /// A report of the bidder's net long position in the bill, in whole dollars; it may be below zero.
    Position {
        auction: Ident,
        bidder: Ident,
        position: i64,
    },
    /// The results of an auction are made known.
    Publish {
        auction: Ident,
    },
    /// The awards of an auction are credited.
    Settle {
        auction: Ident,
    },
    /// Par that goes from the sender to another submitter.
    Transfer {
        cusip: Cusip,
        to: Ident,
        amount: Dollars,
    },
    /// Par that the sender keeps, marked for another submitter.
    Pledge {
        cusip: Cusip,
        to: Ident,
        amount: Dollars,
    },
    /// Par of the holder's pledge of this number that its pledgee gives free.
    Release {
        holder: Ident,
        pledge: u64,
        amount: Dollars,
    },
    /// A bill that has matured is paid.
    Redeem {
        cusip: Cusip,
    },
    /// Par that the holder is issued in an auction beside its offering, where the auction has awards.
    AddOn {
        auction: Ident,
        holder: Ident,
        amount: Dollars,
    },
    /// Money that comes into the participant's balance.
    Deposit {
        participant: Ident,
        cents: Cents,
    },
    /// Money that is paid out of it.
    Withdraw {
        participant: Ident,
        cents: Cents,
    },
    /// Par of the sender that is offered to another submitter for a price.
    Sell {
        cusip: Cusip,
        to: Ident,
        amount: Dollars,
        price: Cents,
    },
    /// The seller's offer of this number is bought: its par for its price.
    Buy {
        seller: Ident,
        offer: u64,
    },
    /// The sender's offer of this number is taken back.
    Retract {
        offer: u64,
    },
}

/// A message that was accepted, with its submitter, the submitter's number for it and the running moment. The
/// operator's entries have the submitter `operator`.
#[derive(Clone, Copy, Debug, PartialEq, Eq)]
pub struct Entry {
    pub submitter: Ident,
    pub number: u64,
    pub moment: Moment,
    pub message: Message,
}

impl Message {
    /// The kind of the message.
    pub(crate) fn kind(&self) -> Kind
        ensures { result ≡ kind_of self.now }
    {
        match self {
            Message::Register { .. } => Kind::Register,
            Message::Enrol { .. } => Kind::Enrol,
            Message::Holiday { .. } => Kind::Holiday,
            Message::Announce { .. } => Kind::Announce,
            Message::Bid { rate: Some(_), .. } => Kind::Bid,
            Message::Bid { rate: None, .. } => Kind::Noncompetitive,
            Message::Cancel { .. } => Kind::Cancel,
            Message::Position { .. } => Kind::Position,
            Message::Publish { .. } => Kind::Publish,
            Message::Settle { .. } => Kind::Settle,
            Message::Transfer { .. } => Kind::Transfer,
            Message::Pledge { .. } => Kind::Pledge,
            Message::Release { .. } => Kind::Release,
            Message::Redeem { .. } => Kind::Redeem,
            Message::AddOn { .. } => Kind::AddOn,
            Message::Deposit { .. } => Kind::Deposit,
            Message::Withdraw { .. } => Kind::Withdraw,
            Message::Sell { .. } => Kind::Sell,
            Message::Buy { .. } => Kind::Buy,
            Message::Retract { .. } => Kind::Retract,
        }
    }
}
