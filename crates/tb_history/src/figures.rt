//! The figures of an auction are the circular's (31 CFR 356.20 to 356.22): holdings are stated with awards that are
//! found rate by rate from the bidding, results with the list of what is recognised. Both say the same.
ghost use Rattle.std.specs.Prelude.{◌≡◌, ℕ, ◌<◌, ◌≤◌, ◌↔◌, [], Some, List, length};
ghost use Rattle.tb_units.specs.declared.lines.RateLine.{RateLine};
ghost use Rattle.tb_terms.specs.declared.announcement.Announcement.{Announcement};
ghost use Rattle.tb_award.specs.Awards.{AreAwards, AreClose, AreWithin, awarded_to};
ghost use Rattle.tb_award.specs.Cuts.{IsCut, par_of, total_of, under};
ghost use Rattle.tb_message.specs.declared.message.Entry.{Entry};
ghost use Rattle.tb_history.specs.declared.roster.Enrolment.{Enrolment};
ghost use Rattle.tb_history.specs.Roster.{announcements, enrolments, announcement_of};
ghost use Rattle.tb_history.specs.Awarded.{Bidding, rates, par_under, par_in_all, sought_in};
ghost use Rattle.tb_history.specs.Awarded.{stop_of, percent_of, awards_under};
ghost use Rattle.tb_history.specs.Holdings.{bidding_in};
ghost use Rattle.tb_history.specs.Legal.{IsLegal};
ghost use Rattle.tb_history.specs.Readings.{AreDistinct, AreRecognisedOf, bidder_at};

/// Holds of every bidding in which no bidder is enrolled twice and something is sought. It does nothing.
pub fn figures_are_the_circulars()
    // What is recognised under a rate, and in all.
    ensures par { (bidding : Bidding) (recognised : List RateLine) (steps : ℕ)
        → AreDistinct bidding.enrolled
        → AreRecognisedOf bidding recognised
        → steps ≤ rates
        → par_of recognised (under steps) ≡ par_under bidding steps }
    ensures none { (bidding : Bidding) (recognised : List RateLine)
        → AreDistinct bidding.enrolled
        → AreRecognisedOf bidding recognised
        → (par_in_all bidding ≡ 0) ↔ (recognised ≡ []) }
    // The stop-out rate and the percentage.
    ensures cut { (bidding : Bidding) (recognised : List RateLine) (stop percent : ℕ)
        → AreDistinct bidding.enrolled
        → AreRecognisedOf bidding recognised
        → 0 < sought_in bidding
        → IsCut (par_of recognised) (sought_in bidding) stop percent
        → (stop ≡ stop_of bidding) × (percent ≡ percent_of bidding) }
    // The awards of each bidder.
    ensures awards { (bidding : Bidding) (recognised awards : List RateLine) (number : ℕ) (d : Enrolment)
        → AreDistinct bidding.enrolled
        → AreRecognisedOf bidding recognised
        → AreAwards (stop_of bidding) (percent_of bidding) recognised awards
        → number < length bidding.enrolled
        → awarded_to number awards ≡ awards_under bidding (bidder_at bidding.enrolled number d) rates }
{}

/// Holds of every auction that is announced in a legal history. It does nothing.
pub fn awards_come_close()
    ensures bidders { (history : List Entry) → IsLegal history → AreDistinct (enrolments history) }
    ensures sought { (history : List Entry) (auction : List ℕ) (a : Announcement)
        → IsLegal history
        → announcement_of (announcements history) auction ≡ Some a
        → 100 ≤ sought_in (bidding_in history a) }
    // Where the bids reach what is sought, the awards come to no less and to little more; where they fall short, all
    // that is recognised is awarded. No award is above what is recognised.
    ensures close { (history : List Entry) (auction : List ℕ) (a : Announcement) (recognised awards : List RateLine)
        (stop percent : ℕ)
        → IsLegal history
        → announcement_of (announcements history) auction ≡ Some a
        → AreRecognisedOf (bidding_in history a) recognised
        → IsCut (par_of recognised) (sought_in (bidding_in history a)) stop percent
        → AreAwards stop percent recognised awards
        → (sought_in (bidding_in history a) ≤ total_of recognised
        → AreClose recognised (sought_in (bidding_in history a)) stop awards)
        × (total_of recognised < sought_in (bidding_in history a) → awards ≡ recognised)
        × AreWithin recognised awards }
{}
