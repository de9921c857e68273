//! Bids that break no rule are accepted.
ghost use Rattle.std.specs.Prelude.{◌≡◌, ◌↔◌, ℕ, List, Option, Some, None};
ghost use Rattle.tb_units.specs.declared.moment.Moment.{Moment};
ghost use Rattle.tb_units.specs.declared.amount.Dollars.{Dollars};
ghost use Rattle.tb_units.specs.declared.rate.Rate.{Rate};
ghost use Rattle.tb_message.specs.declared.message.Entry.{Entry};
ghost use Rattle.tb_message.specs.declared.message.Message.TheVariants as message;
ghost use Rattle.tb_message.specs.declared.verdict.Verdict.TheVariants as verdict;
ghost use Rattle.tb_history.specs.Roster.{kept};
ghost use Rattle.tb_history.specs.Verdict.{verdict_on};
ghost use Rattle.tb_history.specs.Legal.{IsLegal};
ghost use Rattle.tb_history.specs.SoundBids.{IsSoundBid};

/// Holds of every legal history and every bid. It does nothing.
pub fn sound_bids_are_accepted()
    // Under a number that nothing stands under, a bid is accepted just where it is sound.
    ensures accepted { (history : List Entry) (submitter : List ℕ) (number : ℕ) (moment : Moment)
        (auction bidder : List ℕ) (rate : Option Rate) (amount : Dollars)
        → IsLegal history
        → kept history submitter number ≡ None
        → IsSoundBid history submitter moment auction bidder rate amount.value
        ↔ (verdict_on history submitter number moment (message.Bid auction bidder rate amount)
        ≡ verdict.Accepted number moment) }
    // What stands under its number gets its kept reply when it is sent again, sound or not by then.
    ensures repeated { (history : List Entry) (submitter : List ℕ) (number : ℕ) (moment : Moment) (entry : Entry)
        → IsLegal history
        → kept history submitter number ≡ Some entry
        → verdict_on history submitter number moment entry.message ≡ verdict.Repeat entry.number entry.moment }
{}
