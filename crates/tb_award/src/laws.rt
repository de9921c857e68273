//! Laws of the definitions: what is recognised, the cut, the awards and their median and low rate are each one, and the
//! awards come close to what is sought.
ghost use Rattle.std.specs.Prelude.{◌≡◌, ◌*◌, ◌^◌, ◌+◌, ◌<◌, ◌≤◌, ◌%◌, ℕ, ℤ, List, All};
ghost use Rattle.tb_units.specs.declared.lines.RateLine.{RateLine};
ghost use Rattle.tb_award.specs.Awards.{AreAwards, AreClose, AreWithin, IsAward, IsInHundreds};
ghost use Rattle.tb_award.specs.Awards.{IsProrated, IsRateOfPart};
ghost use Rattle.tb_award.specs.Cuts.{FallsShort, IsCut, Reaches, hundred_percent, par_of};
ghost use Rattle.tb_award.specs.Recognition.{IsRecognitionOf, limits_by, recognised_of};

/// There is one recognised list.
pub fn one_recognition()
    ensures { (lines : List RateLine) (positions : List ℤ) (offering : ℕ) (one other : List RateLine)
        → IsRecognitionOf lines positions offering one
        → IsRecognitionOf lines positions offering other
        → one ≡ other }
{}

/// What is recognised is in multiples of 100 where the bids are, and of no bidder more than its limit.
pub fn recognised_amounts()
    ensures hundreds { (lines : List RateLine) (positions : List ℤ) (offering : ℕ) (recognised : List RateLine)
        → IsRecognitionOf lines positions offering recognised
        → All IsInHundreds lines
        → All IsInHundreds recognised }
    ensures limited { (lines : List RateLine) (positions : List ℤ) (offering : ℕ) (recognised : List RateLine)
        (bidder : ℕ)
        → IsRecognitionOf lines positions offering recognised
        → recognised_of bidder recognised ≤ limits_by offering positions bidder }
{}

/// There is one stop and one percentage.
pub fn one_cut()
    ensures { (recognised : List RateLine) (sought stop percent other_stop other_percent : ℕ)
        → IsCut (par_of recognised) sought stop percent
        → IsCut (par_of recognised) sought other_stop other_percent
        → (stop ≡ other_stop) × (percent ≡ other_percent) }
{}

/// There is one award of an amount at a rate, and so one list of awards.
pub fn one_award()
    ensures award { (stop percent steps recognised one other : ℕ)
        → IsAward stop percent steps recognised one
        → IsAward stop percent steps recognised other
        → one ≡ other }
    ensures awards { (stop percent : ℕ) (recognised one other : List RateLine)
        → AreAwards stop percent recognised one
        → AreAwards stop percent recognised other
        → one ≡ other }
{}

/// There is one median rate, one low rate, and one such rate for any other part of the awards.
pub fn one_rate_of_part()
    ensures { (parts : ℕ) (awards : List RateLine) (one other : ℕ)
        → IsRateOfPart parts awards one
        → IsRateOfPart parts awards other
        → one ≡ other }
{}

/// An award at the stop is under the exact share plus 100 dollars. Where the bids reach the amount sought, the awards
/// come to no less, and to little more; where they fall short of it, each award is what is recognised. No award is
/// above that.
pub fn awards_are_close()
    ensures share { (percent recognised award : ℕ)
        → IsProrated percent recognised award
        → hundred_percent * award < percent * recognised + 10 ^ 6 }
    ensures reaching { (recognised awards : List RateLine) (sought stop percent : ℕ)
        → 0 < sought
        → Reaches (par_of recognised) sought stop percent
        → AreAwards stop percent recognised awards
        → AreClose recognised sought stop awards }
    ensures short { (recognised awards : List RateLine) (sought stop percent : ℕ)
        → FallsShort (par_of recognised) sought stop percent
        → All IsInHundreds recognised
        → AreAwards stop percent recognised awards
        → awards ≡ recognised }
    ensures within { (recognised awards : List RateLine) (stop percent : ℕ)
        → percent ≤ hundred_percent
        → All IsInHundreds recognised
        → AreAwards stop percent recognised awards
        → AreWithin recognised awards }
{}
