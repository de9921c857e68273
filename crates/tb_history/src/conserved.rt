//! What all participants hold of a bill is what is issued of it and not redeemed.
ghost use Rattle.std.specs.Prelude.{◌≡◌, ℕ, ◌≤◌, ◌++◌, ◌∷◌, [], List, Some, true, false};
ghost use Rattle.std.specs.Prelude.{sum_by, option_to_list, if◌then◌else◌};
ghost use Rattle.std.specs.Option.{option_map};
ghost use Rattle.tb_units.specs.Multiples.{most_par};
ghost use Rattle.tb_terms.specs.declared.cusip.Cusip.{Cusip};
ghost use Rattle.tb_movements.specs.Holdings.{held, paid};
ghost use Rattle.tb_movements.specs.Marks.{free};
ghost use Rattle.tb_movements.specs.Marks.{Mark as MovedMark, mark_of as moved_mark, left_of as moved_left};
ghost use Rattle.tb_movements.specs.Marks.{open_marks as moved_opens};
ghost use Rattle.tb_movements.specs.Legal as movements;
ghost use Rattle.tb_message.specs.declared.message.Entry.{Entry};
ghost use Rattle.tb_history.specs.declared.roster.Registration.{Registration};
ghost use Rattle.tb_history.specs.declared.accounts.Mark.{Mark};
ghost use Rattle.tb_history.specs.Roster.{registrations, announcements, redemptions, is_registered, is_redeemed};
ghost use Rattle.tb_history.specs.Holdings.{held_of, issued, paid_to, pledged_of, free_of};
ghost use Rattle.tb_history.specs.Holdings.{mark_of, left_of, open_marks};
ghost use Rattle.tb_history.specs.Legal.{IsLegal, Follows};
ghost use Rattle.tb_history.specs.Moves.{Numbering, numbering_of, movements_by, meaning_by, has_bill};
ghost use Rattle.tb_history.specs.Moves.{participants_of, as_moved, AreNumbered};

/// Holds of every legal history and every bill. It does nothing.
pub fn par_is_conserved()
    ensures holdings { (history : List Entry) (cusip : Cusip)
        → IsLegal history
        → sum_by (λ (r : Registration). held_of history r.submitter cusip) (registrations history)
        ≡ (if is_redeemed (redemptions history) cusip then 0 else issued history cusip) }
    // After the redemption the participants were paid what was issued.
    ensures payments { (history : List Entry) (cusip : Cusip)
        → IsLegal history
        → is_redeemed (redemptions history) cusip ≡ true
        → sum_by (λ (r : Registration). paid_to history r.submitter cusip) (registrations history)
        ≡ issued history cusip }
    // Nobody has pledged more than it holds.
    ensures covered { (history : List Entry) (participant : List ℕ) (cusip : Cusip)
        → IsLegal history
        → pledged_of history participant cusip ≤ held_of history participant cusip }
    // Whoever isn't registered holds nothing, and was paid nothing.
    ensures strangers { (history : List Entry) (stranger : List ℕ) (cusip : Cusip)
        → IsLegal history
        → is_registered (registrations history) stranger ≡ false
        → (held_of history stranger cusip ≡ 0) × (paid_to history stranger cusip ≡ 0) }
    // What is issued of a bill is no more than is summed up.
    ensures limited { (history : List Entry) (cusip : Cusip) → IsLegal history → issued history cusip ≤ most_par }
{}

/// The movements of a legal history, by numbers for its participants and bills, are legal and tell its holdings: the
/// working form of the book of accounts. It does nothing.
pub fn movements_tell_holdings()
    // A submitter's number is its place in the order of registration, a bill's the place of its first announcement.
    ensures places { (history : List Entry)
        → IsLegal history
        → AreNumbered (numbering_of (registrations history) (announcements history))
        (participants_of (numbering_of (registrations history) (announcements history)) (registrations history))
        history }
    ensures legal { (numbers : Numbering) (participants : List ℕ) (history : List Entry)
        → IsLegal history
        → AreNumbered numbers participants history
        → movements.IsLegal (movements_by numbers history) }
    ensures held { (numbers : Numbering) (participants : List ℕ) (history : List Entry) (participant : List ℕ)
        (cusip : Cusip)
        → IsLegal history
        → AreNumbered numbers participants history
        → is_registered (registrations history) participant ≡ true
        → has_bill (announcements history) cusip.bytes ≡ true
        → held (numbers.holder participant) (numbers.security cusip.bytes) (movements_by numbers history)
        ≡ held_of history participant cusip }
    ensures free { (numbers : Numbering) (participants : List ℕ) (history : List Entry) (participant : List ℕ)
        (cusip : Cusip)
        → IsLegal history
        → AreNumbered numbers participants history
        → is_registered (registrations history) participant ≡ true
        → has_bill (announcements history) cusip.bytes ≡ true
        → free (numbers.holder participant) (numbers.security cusip.bytes) (movements_by numbers history)
        ≡ free_of history participant cusip }
    ensures paid { (numbers : Numbering) (participants : List ℕ) (history : List Entry) (participant : List ℕ)
        (cusip : Cusip)
        → IsLegal history
        → AreNumbered numbers participants history
        → is_registered (registrations history) participant ≡ true
        → has_bill (announcements history) cusip.bytes ≡ true
        → paid (numbers.holder participant) (numbers.security cusip.bytes) (movements_by numbers history)
        ≡ paid_to history participant cusip }
    ensures mark { (numbers : Numbering) (participants : List ℕ) (history : List Entry) (holder : List ℕ) (number : ℕ)
        → IsLegal history
        → AreNumbered numbers participants history
        → moved_mark (numbers.holder holder) number (movements_by numbers history)
        ≡ option_map {U = MovedMark} (as_moved numbers) (mark_of history holder number) }
    ensures left { (numbers : Numbering) (participants : List ℕ) (history : List Entry) (holder : List ℕ) (number : ℕ)
        (mark : Mark)
        → IsLegal history
        → AreNumbered numbers participants history
        → mark_of history holder number ≡ Some mark
        → moved_left (movements_by numbers history) (as_moved numbers mark) ≡ left_of history mark }
    ensures opens { (numbers : Numbering) (participants : List ℕ) (history : List Entry) (holder : List ℕ)
        → IsLegal history
        → AreNumbered numbers participants history
        → moved_opens (numbers.holder holder) (movements_by numbers history) ≡ open_marks history holder }
    // By the places of a longer history the movements before stay, and the next entry moves what it means on them.
    ensures grows { (history : List Entry) (entry : Entry)
        → IsLegal history
        → Follows history entry
        → movements_by (numbering_of (registrations (history ++ entry ∷ [])) (announcements (history ++ entry ∷ [])))
        (history ++ entry ∷ [])
        ≡ movements_by (numbering_of (registrations history) (announcements history)) history
        ++ option_to_list (meaning_by (numbering_of (registrations history) (announcements history)) history entry) }
{}
