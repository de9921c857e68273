//! What is awarded in an auction never changes once its results are published.
ghost use Rattle.std.specs.Prelude.{◌≡◌, ℕ, ◌≤◌, ◌++◌, true, Some, List};
ghost use Rattle.tb_terms.specs.Closings.{c_closing};
ghost use Rattle.tb_terms.specs.declared.announcement.Announcement.{Announcement};
ghost use Rattle.tb_message.specs.declared.message.Entry.{Entry};
ghost use Rattle.tb_history.specs.Roster.{announcements, announcement_of, is_published};
ghost use Rattle.tb_history.specs.Awarded.{stop_of, percent_of, par_in_all};
ghost use Rattle.tb_history.specs.Holdings.{award_in, awarded_add_on, bidding_in};
ghost use Rattle.tb_history.specs.Legal.{IsLegal, last_of};

/// Holds of every legal history. It does nothing.
pub fn awards_are_final()
    // The competitive closing of a published auction has come, and its announcement stays.
    ensures closed { (history : List Entry) (auction : List ℕ) (a : Announcement)
        → IsLegal history
        → is_published history auction ≡ true
        → announcement_of (announcements history) auction ≡ Some a
        → (c_closing a).seconds ≤ last_of history }
    ensures announced { (history more : List Entry) (auction : List ℕ) (a : Announcement)
        → announcement_of (announcements history) auction ≡ Some a
        → announcement_of (announcements (history ++ more)) auction ≡ Some a }
    // Whatever comes later, the bids in it, what is awarded on them, the stop-out rate and the percentage are the same.
    ensures awards { (history more : List Entry) (auction bidder : List ℕ) (a : Announcement)
        → IsLegal (history ++ more)
        → is_published history auction ≡ true
        → announcement_of (announcements history) auction ≡ Some a
        → award_in (history ++ more) a bidder ≡ award_in history a bidder }
    ensures add_on { (history more : List Entry) (auction : List ℕ) (a : Announcement)
        → IsLegal (history ++ more)
        → is_published history auction ≡ true
        → announcement_of (announcements history) auction ≡ Some a
        → awarded_add_on (history ++ more) a ≡ awarded_add_on history a }
    ensures cut { (history more : List Entry) (auction : List ℕ) (a : Announcement)
        → IsLegal (history ++ more)
        → is_published history auction ≡ true
        → announcement_of (announcements history) auction ≡ Some a
        → (stop_of (bidding_in (history ++ more) a) ≡ stop_of (bidding_in history a))
        × (percent_of (bidding_in (history ++ more) a) ≡ percent_of (bidding_in history a))
        × ((bidding_in (history ++ more) a).live ≡ (bidding_in history a).live) }
{}
