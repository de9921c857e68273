//! What queries are answered, line by line.
ghost use Rattle.std.specs.Prelude.{◌≡◌, ℕ, List, Option};
ghost use Rattle.tb_message.specs.declared.message.Entry.{Entry};
ghost use Rattle.tb_message.specs.declared.query.Query.{Query};
ghost use Rattle.tb_history.specs.declared.reading.Reading.{Reading};
ghost use Rattle.tb_history.specs.declared.reading.Awards.{Awards};
ghost use Rattle.tb_history.specs.declared.accounts.AddOn.{AddOn};
ghost use Rattle.tb_history.specs.Awarded.{Bidding};
ghost use Rattle.tb_history.specs.Readings.{AreResults, AreAwards, AreHoldings, IsReading, IsRedemption};

use tb_award::Cut;
use tb_price::Investment;
use tb_terms::{Announcement, Cusip};
use tb_units::{Cents, Dollars, Ident, Rate};

/// The results of an auction. Without figures nobody got an award.
#[derive(Clone, Copy, Debug, PartialEq, Eq)]
pub struct Results {
    pub terms: Announcement,
    pub noncompetitive: Dollars,
    /// 0 where no add-on stands.
    pub addon: Dollars,
    pub figures: Option<Figures>,
}

/// The figures of an auction with awards. `competitive` is the sum of the competitive awards.
#[derive(Clone, Copy, Debug, PartialEq, Eq)]
pub struct Figures {
    pub cut: Cut,
    pub competitive: Dollars,
    pub median: Rate,
    pub low: Rate,
    pub investment: Investment,
}

/// What a bidder was awarded, and what it pays.
#[derive(Clone, Copy, Debug, PartialEq, Eq)]
pub struct AwardLine {
    pub bidder: Ident,
    pub amount: Dollars,
    pub payment: Cents,
}

/// What the holder of an auction's add-on was awarded, and what it pays.
#[derive(Clone, Copy, Debug, PartialEq, Eq)]
pub struct AddOnLine {
    pub amount: Dollars,
    pub payment: Cents,
}

/// An accepted bid as its submitter reads it. Without a rate it is noncompetitive.
#[derive(Clone, Copy, Debug, PartialEq, Eq)]
pub struct BidLine {
    pub number: u64,
    pub bidder: Ident,
    pub rate: Option<Rate>,
    pub amount: Dollars,
    pub live: bool,
}

/// What a participant holds of a bill, and how much of it is pledged and free.
#[derive(Clone, Copy, Debug, PartialEq, Eq)]
pub struct HoldingLine {
    pub cusip: Cusip,
    pub held: Dollars,
    pub pledged: Dollars,
    pub free: Dollars,
}

/// What a holder was paid when a bill was redeemed.
#[derive(Clone, Copy, Debug, PartialEq, Eq)]
pub struct PaidLine {
    pub holder: Ident,
    pub paid: Dollars,
}

/// There is one reading of each query on a legal history. It does nothing.
pub fn readings_are_one()
    ensures results { (bidding : Bidding) (add_on : Option AddOn) (one other : Results)
        → AreResults bidding add_on one
        → AreResults bidding add_on other
        → one ≡ other }
    ensures awards { (history : List Entry) (a : Announcement) (caller : List ℕ) (one other : Awards)
        → AreAwards history a caller one
        → AreAwards history a caller other
        → one ≡ other }
    ensures holdings { (history : List Entry) (caller : List ℕ) (one other : List HoldingLine)
        → AreHoldings history caller one
        → AreHoldings history caller other
        → one ≡ other }
    ensures redemption { (history : List Entry) (cusip : Cusip) (one other : List PaidLine)
        → IsRedemption history cusip one
        → IsRedemption history cusip other
        → one ≡ other }
    ensures readings { (history : List Entry) (caller : List ℕ) (query : Query) (one other : Reading)
        → IsReading history caller query one
        → IsReading history caller query other
        → one ≡ other }
{}
