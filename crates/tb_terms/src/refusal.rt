//! Refusals of messages and queries, each with its number, its name and the values that are printed with it.
ghost use Rattle.std.specs.Prelude.{◌≡◌, ◌≤◌, length};
ghost use Rattle.tb_terms.specs.Refusals.{number_of, name_of, member_of};

use tb_units::{Cents, Day, Dollars, Ident, Moment};

/// A member of a request that is missing or not of its form; `Body` where the request is no object.
#[derive(Clone, Copy, Debug, PartialEq, Eq)]
pub enum Field {
    Body,
    Number,
    Kind,
    Submitter,
    Key,
    Bidder,
    Day,
    Auction,
    Cusip,
    Offering,
    Minimum,
    Ceiling,
    Floor,
    Threshold,
    Date,
    NcClose,
    CClose,
    Issue,
    Maturity,
    Rate,
    Amount,
    Bid,
    Position,
    To,
    Holder,
    Pledge,
    Participant,
    Cents,
    Seller,
    Offer,
}

/// Why a message or a query is refused. Refusals are tried in the order of the message's kind, and the first that holds
/// is answered.
#[derive(Clone, Copy, Debug, PartialEq, Eq)]
pub enum Refusal {
    /// The key is neither a registered submitter's nor the operator's.
    UnknownKey,
    /// Only the other party, the operator or submitters, sends messages of this kind.
    NotPermitted,
    /// The sender's accepted message of this number is another one.
    NumberReused,
    /// The sender has 1,048,576 accepted messages.
    MessageQuota,
    /// The text isn't JSON.
    BadJson,
    /// This member is missing or not of its form.
    BadShape(Field),
    /// The path isn't served.
    NoRoute,
    /// The path is served, but not by this method.
    BadMethod,
    /// No auction of this name is announced.
    UnknownAuction,
    /// The bidder isn't enrolled under the sender.
    UnknownBidder,
    /// The amount is below the announced minimum.
    BelowMinimum,
    /// The amount is zero or no multiple of 100.
    NotMultiple,
    /// The price at this rate, to the nearest millionth, isn't above zero.
    RateTooHigh,
    /// The running moment is at or after the closing.
    Late { moment: Moment, closing: Moment },
    /// The bidder's live noncompetitive bids with this one are above the announced ceiling.
    NoncompetitiveCeiling,
    /// The bidder has a live bid of the other kind in this auction.
    MixedBids,
    /// The bidder's live competitive bids with this one reach the threshold, and no report of its position stands.
    PositionRequired,
    /// The bidder has 1,000 accepted bids in this auction, cancelled ones counted.
    BidQuota,
    /// The sender has no accepted bid of this number in this auction.
    UnknownBid,
    /// The bid is cancelled.
    AlreadyCancelled,
    /// An auction of this name is announced.
    AuctionExists,
    /// The CUSIP has another character than `0-9A-Z`, or another check digit.
    BadCusip,
    /// The dates aren't in their order, or are past their limits.
    BadDates,
    /// An announced amount isn't a multiple of its unit, or is out of its range.
    BadAmounts,
    /// A closing is out of its range, or the noncompetitive one is the later one.
    BadClosing,
    /// An auction of this CUSIP was announced with this other maturity.
    MaturityDiffers { maturity: Day },
    /// An add-on of the auction stands.
    AddOnExists,
    /// The name, the key, the enrolment or the holiday is entered already, as the name `operator` always is.
    Exists,
    /// As many submitters, bidders, auctions or holidays are entered as there may be.
    RosterFull,
    /// The bidder is enrolled under another submitter.
    OtherSubmitter,
    /// The running moment is before the competitive closing.
    NotClosed { moment: Moment, closing: Moment },
    /// The results of the auction are published.
    AlreadyPublished,
    /// The results of the auction aren't published.
    NotPublished,
    /// The running moment is before the issue date.
    NotIssueDate { issue: Day },
    /// The auction is settled.
    AlreadySettled,
    /// No auction of this CUSIP is announced.
    UnknownSecurity,
    /// No submitter of this name is registered.
    UnknownParticipant,
    /// The amount is above the sender's free par.
    InsufficientFree { free: Dollars },
    /// This auction of the bill isn't settled; of several it is the first that was announced.
    Unsettled { auction: Ident },
    /// The receiver is the sender.
    SelfTransfer,
    /// The running moment is on the maturity date or later.
    Matured,
    /// The holder has no accepted pledge of this number.
    UnknownPledge,
    /// The sender isn't the pledgee.
    NotPledgee,
    /// The amount is above what is left of the pledge.
    MoreThanPledged { left: Dollars },
    /// The running moment is before the payment date.
    NotDue { payment: Day },
    /// The bill is redeemed.
    AlreadyRedeemed,
    /// The sender has 1,000 pledges with something left.
    PledgeQuota,
    /// The bill isn't redeemed.
    NotRedeemed,
    /// The amount is above the balance of the participant, or of the buyer.
    InsufficientFunds { balance: Cents },
    /// The seller has no accepted sell of this number.
    UnknownOffer,
    /// The sender isn't the one to whom the sell is made.
    NotBuyer,
    /// The sell is bought or retracted.
    OfferClosed,
    /// The par is above the seller's free par.
    OfferUncovered,
    /// The sender has 1,000 sells that are neither bought nor retracted.
    OfferQuota,
}

impl Refusal {
    /// The number that is printed.
    pub fn number(&self) -> u8
        ensures number { result ≡ number_of self.now }
        ensures two_digits { result ≤ 99 }
    {
        self.told().0
    }

    /// The name that is printed after the number.
    pub fn name(&self) -> &'static [u8]
        ensures name { result.now ≡ name_of self.now }
        ensures short { length result.now ≤ 21 }
    {
        self.told().1
    }

    // A refusal is told by its number and its name, whatever values it carries.
    fn told(&self) -> (u8, &'static [u8])
        ensures number { result.0 ≡ number_of self.now }
        ensures name { result.1.now ≡ name_of self.now }
        ensures two_digits { result.0 ≤ 99 }
        ensures short { length result.1.now ≤ 21 }
    {
        match self {
            Refusal::UnknownKey => (1, b"UnknownKey"),
            Refusal::NotPermitted => (2, b"NotPermitted"),
            Refusal::NumberReused => (3, b"NumberReused"),
            Refusal::MessageQuota => (4, b"MessageQuota"),
            Refusal::BadJson => (5, b"BadJson"),
            Refusal::BadShape(_) => (6, b"BadShape"),
            Refusal::NoRoute => (7, b"NoRoute"),
            Refusal::BadMethod => (8, b"BadMethod"),
            Refusal::UnknownAuction => (10, b"UnknownAuction"),
            Refusal::UnknownBidder => (11, b"UnknownBidder"),
            Refusal::BelowMinimum => (12, b"BelowMinimum"),
            Refusal::NotMultiple => (13, b"NotMultiple"),
            Refusal::RateTooHigh => (16, b"RateTooHigh"),
            Refusal::Late { .. } => (17, b"Late"),
            Refusal::NoncompetitiveCeiling => (18, b"NoncompetitiveCeiling"),
            Refusal::MixedBids => (19, b"MixedBids"),
            Refusal::PositionRequired => (20, b"PositionRequired"),
            Refusal::BidQuota => (21, b"BidQuota"),
            Refusal::UnknownBid => (30, b"UnknownBid"),
            Refusal::AlreadyCancelled => (31, b"AlreadyCancelled"),
            Refusal::AuctionExists => (40, b"AuctionExists"),
            Refusal::BadCusip => (41, b"BadCusip"),
            Refusal::BadDates => (42, b"BadDates"),
            Refusal::BadAmounts => (43, b"BadAmounts"),
            Refusal::BadClosing => (44, b"BadClosing"),
            Refusal::MaturityDiffers { .. } => (45, b"MaturityDiffers"),
            Refusal::AddOnExists => (46, b"AddOnExists"),
            Refusal::Exists => (50, b"Exists"),
            Refusal::RosterFull => (51, b"RosterFull"),
            Refusal::OtherSubmitter => (52, b"OtherSubmitter"),
            Refusal::NotClosed { .. } => (60, b"NotClosed"),
            Refusal::AlreadyPublished => (61, b"AlreadyPublished"),
            Refusal::NotPublished => (62, b"NotPublished"),
            Refusal::NotIssueDate { .. } => (63, b"NotIssueDate"),
            Refusal::AlreadySettled => (64, b"AlreadySettled"),
            Refusal::UnknownSecurity => (70, b"UnknownSecurity"),
            Refusal::UnknownParticipant => (71, b"UnknownParticipant"),
            Refusal::InsufficientFree { .. } => (73, b"InsufficientFree"),
            Refusal::Unsettled { .. } => (74, b"Unsettled"),
            Refusal::SelfTransfer => (76, b"SelfTransfer"),
            Refusal::Matured => (77, b"Matured"),
            Refusal::UnknownPledge => (78, b"UnknownPledge"),
            Refusal::NotPledgee => (79, b"NotPledgee"),
            Refusal::MoreThanPledged { .. } => (80, b"MoreThanPledged"),
            Refusal::NotDue { .. } => (81, b"NotDue"),
            Refusal::AlreadyRedeemed => (82, b"AlreadyRedeemed"),
            Refusal::PledgeQuota => (83, b"PledgeQuota"),
            Refusal::NotRedeemed => (84, b"NotRedeemed"),
            Refusal::InsufficientFunds { .. } => (90, b"InsufficientFunds"),
            Refusal::UnknownOffer => (91, b"UnknownOffer"),
            Refusal::NotBuyer => (92, b"NotBuyer"),
            Refusal::OfferClosed => (93, b"OfferClosed"),
            Refusal::OfferUncovered => (94, b"OfferUncovered"),
            Refusal::OfferQuota => (95, b"OfferQuota"),
        }
    }
}

impl Field {
    /// The name of the member as it is printed.
    pub fn member(self) -> &'static str
        ensures member { result.now ≡ member_of self }
        ensures short { length result.now ≤ 11 }
    {
        match self {
            Field::Body => "body",
            Field::Number => "number",
            Field::Kind => "kind",
            Field::Submitter => "submitter",
            Field::Key => "key",
            Field::Bidder => "bidder",
            Field::Day => "day",
            Field::Auction => "auction",
            Field::Cusip => "cusip",
            Field::Offering => "offering",
            Field::Minimum => "minimum",
            Field::Ceiling => "ceiling",
            Field::Floor => "floor",
            Field::Threshold => "threshold",
            Field::Date => "date",
            Field::NcClose => "nc_close",
            Field::CClose => "c_close",
            Field::Issue => "issue",
            Field::Maturity => "maturity",
            Field::Rate => "rate",
            Field::Amount => "amount",
            Field::Bid => "bid",
            Field::Position => "position",
            Field::To => "to",
            Field::Holder => "holder",
            Field::Pledge => "pledge",
            Field::Participant => "participant",
            Field::Cents => "cents",
            Field::Seller => "seller",
            Field::Offer => "offer",
        }
    }
}
