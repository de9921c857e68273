//! What holds of every legal history.
ghost use Rattle.std.specs.Prelude.{◌≡◌, ℕ, ◌+◌, ◌*◌, ◌≤◌, ◌↔◌, true, false, max, List, [], ◌∷◌, ◌++◌, length};
ghost use Rattle.std.specs.List.{AllPairs};
ghost use Rattle.tb_units.specs.declared.day.Day.{Day};
ghost use Rattle.tb_units.specs.declared.moment.Moment.{Moment};
ghost use Rattle.tb_terms.specs.Payable.{numbers_of, IsPaymentDate};
ghost use Rattle.tb_message.specs.declared.message.Entry.{Entry};
ghost use Rattle.tb_message.specs.declared.message.Message.{Message};
ghost use Rattle.tb_message.specs.declared.verdict.Verdict.TheVariants as verdict;
ghost use Rattle.tb_history.specs.declared.bids.Bid.{Bid};
ghost use Rattle.tb_history.specs.declared.bids.Cancel.{Cancel};
ghost use Rattle.tb_history.specs.declared.bids.Report.{Report};
ghost use Rattle.tb_history.specs.LiveBids.{position_of, is_live, standing_of};
ghost use Rattle.tb_history.specs.Same.{same_message};
ghost use Rattle.tb_history.specs.Tables.{payment_day};
ghost use Rattle.tb_history.specs.Verdict.{verdict_on};
ghost use Rattle.tb_history.specs.Legal.{IsLegal, Follows, last_of, running, IsNotEarlier, IsOther};

/// Holds of every legal history. It does nothing.
pub fn histories_grow()
    // Each beginning of a legal history is legal, and the entry behind it was accepted on it.
    ensures begins { (history more : List Entry) → IsLegal (history ++ more) → IsLegal history }
    ensures follows { (history more : List Entry) (entry : Entry)
        → IsLegal (history ++ entry ∷ more)
        → Follows history entry }
    // Moments never fall, and a running moment is the later of a moment and the last entry's.
    ensures moments { (history : List Entry) → IsLegal history → AllPairs IsNotEarlier history }
    ensures running { (history : List Entry) (moment : Moment)
        → (running history moment).seconds ≡ max moment.seconds (last_of history) }
    // A submitter's number stands once.
    ensures numbers { (history : List Entry) → IsLegal history → AllPairs IsOther history }
    // An accepted message that is sent again under its number gets its number and its moment, whatever came since.
    ensures repeats { (history more : List Entry) (entry : Entry) (moment : Moment)
        → IsLegal (history ++ entry ∷ more)
        → verdict_on (history ++ entry ∷ more) entry.submitter entry.number moment entry.message
        ≡ verdict.Repeat entry.number entry.moment }
    // The last report of a position counts.
    ensures positions { (reported : List Report) (report : Report)
        → position_of (reported ++ report ∷ []) report.auction report.bidder ≡ report.position }
    // A cancelled bid leaves its bidder's sums, and counts among its accepted bids.
    ensures cancelled { (all : List Bid) (cancelled : List Cancel) (reported : List Report) (auction bidder : List ℕ)
        (bid : Bid)
        → is_live cancelled bid ≡ false
        → ((standing_of (all ++ bid ∷ []) cancelled reported auction bidder).competitive
        ≡ (standing_of all cancelled reported auction bidder).competitive)
        × ((standing_of (all ++ bid ∷ []) cancelled reported auction bidder).noncompetitive
        ≡ (standing_of all cancelled reported auction bidder).noncompetitive) }
    ensures counted { (all : List Bid) (cancelled : List Cancel) (reported : List Report) (bid : Bid)
        → (standing_of (all ++ bid ∷ []) cancelled reported bid.auction bid.bidder).accepted
        ≡ (standing_of all cancelled reported bid.auction bid.bidder).accepted + 1 }
    // At most 4,096 submitters and the operator have at most 1,048,576 accepted messages each.
    ensures length { (history : List Entry) → IsLegal history → length history ≤ 4097 * 1048576 }
{}

/// Two messages are the same one just where they are equal. It does nothing.
pub fn same_messages_are_equal()
    ensures same { (one other : Message) → (same_message one other ≡ true) ↔ (one ≡ other) }
{}

/// A bill's payment day is the date on which it is paid. It does nothing.
pub fn payment_days_are_first()
    ensures { (entered : List Day) (maturity : Day) (day : ℕ)
        → IsPaymentDate (numbers_of entered) maturity.number day
        → day ≤ 47481
        → payment_day entered maturity ≡ day }
{}
