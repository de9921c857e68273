//! Money of participants: it is neither made nor lost, and moves against par in one entry.
ghost use Rattle.std.specs.Prelude.{◌≡◌, ℕ, ◌+◌, ◌*◌, ◌≤◌, ◌^◌, ◌++◌, ◌∷◌, [], List, Some, true, false, sum_by};
ghost use Rattle.tb_terms.specs.declared.cusip.Cusip.{Cusip};
ghost use Rattle.tb_message.specs.declared.message.Entry.{Entry};
ghost use Rattle.tb_message.specs.declared.message.Message.TheVariants as message;
ghost use Rattle.tb_history.specs.declared.roster.Registration.{Registration};
ghost use Rattle.tb_history.specs.declared.accounts.Offer.{Offer};
ghost use Rattle.tb_history.specs.Roster.{registrations, is_registered};
ghost use Rattle.tb_history.specs.Holdings.{held_of};
ghost use Rattle.tb_history.specs.Offers.{offers, offer_of};
ghost use Rattle.tb_history.specs.Funds.{deposits, withdrawals, cents_in, money_to, money_from, balance_of};
ghost use Rattle.tb_history.specs.Legal.{IsLegal, Follows};
ghost use Rattle.tb_history.specs.Trades.{IsExchange, is_cash, is_purchase};

/// Holds of every legal history. It does nothing.
pub fn money_is_conserved()
    // No more goes from a participant than came to it.
    ensures covered { (history : List Entry) (participant : List ℕ)
        → IsLegal history
        → money_from history participant ≤ money_to history participant }
    // What all participants have is what was deposited and not withdrawn.
    ensures balances { (history : List Entry)
        → IsLegal history
        → sum_by (λ (r : Registration). balance_of history r.submitter) (registrations history)
        + cents_in (withdrawals history)
        ≡ cents_in (deposits history) }
    // Whoever isn't registered has nothing.
    ensures strangers { (history : List Entry) (stranger : List ℕ)
        → IsLegal history
        → is_registered (registrations history) stranger ≡ false
        → balance_of history stranger ≡ 0 }
    // What is deposited is no more than funds hold.
    ensures limited { (history : List Entry) → IsLegal history → cents_in (deposits history) ≤ 10 ^ 22 }
{}

/// Holds of every legal history and the entry that is accepted on it. It does nothing.
pub fn purchases_move_both()
    // A purchase moves the par of an offer one way and its price the other way, between its two parties.
    ensures exchange { (history : List Entry) (entry : Entry) (seller : List ℕ) (number : ℕ)
        → IsLegal history
        → Follows history entry
        → entry.message ≡ message.Buy seller number
        → (offer : Offer) × (offer_of (offers history) seller number ≡ Some offer)
        × (offer.buyer ≡ entry.submitter) × IsExchange history (history ++ entry ∷ []) offer }
    // Deposits and withdrawals move no par, and what is neither of them and no purchase moves no money.
    ensures par_stays { (history : List Entry) (entry : Entry) (participant : List ℕ) (cusip : Cusip)
        → IsLegal history
        → Follows history entry
        → is_cash entry.message ≡ true
        → held_of (history ++ entry ∷ []) participant cusip ≡ held_of history participant cusip }
    ensures money_stays { (history : List Entry) (entry : Entry) (participant : List ℕ)
        → IsLegal history
        → Follows history entry
        → is_cash entry.message ≡ false
        → is_purchase entry.message ≡ false
        → balance_of (history ++ entry ∷ []) participant ≡ balance_of history participant }
{}
