//! The biddings of legal histories can be cut, and so can every book of sound lines.
ghost use Rattle.std.specs.Prelude.{◌≡◌, ℕ, pos, ◌%◌, ◌≤◌, true, Some, List, length, replicate, All};
ghost use Rattle.tb_terms.specs.declared.announcement.Announcement.{Announcement};
ghost use Rattle.tb_terms.specs.declared.terms.Terms.{Terms};
ghost use Rattle.tb_book.specs.declared.book_line.BookLine.{BookLine};
ghost use Rattle.tb_message.specs.declared.message.Entry.{Entry};
ghost use Rattle.tb_history.specs.declared.roster.Enrolment.{Enrolment};
ghost use Rattle.tb_history.specs.Roster.{announcements, announcement_of};
ghost use Rattle.tb_history.specs.Awarded.{Bidding};
ghost use Rattle.tb_history.specs.Holdings.{bidding_in};
ghost use Rattle.tb_history.specs.Legal.{IsLegal};
ghost use Rattle.tb_history.specs.Readings.{AreDistinct};
ghost use Rattle.tb_results.specs.Biddings.{IsBookOf, IsSound, is_sound_line};

/// Holds of every auction that is announced in a legal history. It does nothing.
pub fn legal_biddings_are_sound()
    ensures { (history : List Entry) (auction : List ℕ) (a : Announcement) → IsLegal history
        → announcement_of (announcements history) auction ≡ Some a → IsSound (bidding_in history a) }
{}

/// The conditions of `results` and `awards` can be met: each book of sound lines is of some bidding of the bidders that
/// are enrolled, in which nobody reported a position. It does nothing.
pub fn sound_books_are_kept()
    ensures { (terms : Terms) (lines : List BookLine) (enrolled : List Enrolment)
        → AreDistinct enrolled
        → terms.announcement.offering.value % 100 ≡ 0
        → 100 ≤ terms.announcement.competitive_floor.value
        → All (λ line. is_sound_line (length enrolled) terms.days.count line ≡ true) lines
        → (bidding : Bidding) × IsBookOf bidding terms lines (replicate (length enrolled) (pos 0))
        × (bidding.enrolled ≡ enrolled) }
{}
