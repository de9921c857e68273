//! Lines that wait to be put in order among others.
ghost use Rattle.std.specs.Prelude.{◌≡◌, ◌+◌, ◌<◌, ◌≤◌, ◌++◌, [], ◌∷◌, true, false, length, IfNone, IfSome};
ghost use Rattle.std.specs.Prelude.{IsPermutation};
ghost use Rattle.std.specs.List.{AllPairs};
ghost use Rattle.tb_book.specs.Books.{AreApart, HasBid, HasBidAt, IsEarlier};

use crate::stored_line::{StoredLine, rank};
use tb_blocks::{Keyed, Ordered};
use tb_units::Rate;

/// Puts those that wait among the others, which have the room. The last one goes first.
pub fn settle(sorted: &mut Ordered<StoredLine>, waiting: &mut Vec<StoredLine>)
    requires room { length waiting.old.items ≤ sorted.old.spare }
    requires apart { AllPairs AreApart (sorted.old.elements ++ waiting.old.items) }
    requires order { AllPairs IsEarlier sorted.old.elements }
    ensures elements { IsPermutation (sorted.old.elements ++ waiting.old.items) sorted.new.elements }
    ensures none { waiting.new.items ≡ [] }
    ensures order { AllPairs IsEarlier sorted.new.elements }
    ensures spare { sorted.new.spare + length waiting.old.items ≡ sorted.old.spare }
{
    waiting.sort_unstable_by_key(|line| line.key());
    while let Some(line) = waiting.pop() {
        sorted.insert(line);
    }
}

/// Lets a line wait. Where there is no place to wait all are put in order.
pub fn wait(sorted: &mut Ordered<StoredLine>, waiting: &mut Vec<StoredLine>, line: StoredLine)
    requires room { length waiting.old.items < sorted.old.spare }
    requires apart { AllPairs AreApart (sorted.old.elements ++ waiting.old.items) }
    requires order { AllPairs IsEarlier sorted.old.elements }
    requires new { ¬ (HasBid line.bidder line.number (sorted.old.elements ++ waiting.old.items)) }
    ensures elements { IsPermutation (line ∷ (sorted.old.elements ++ waiting.old.items))
        (sorted.new.elements ++ waiting.new.items) }
    ensures order { AllPairs IsEarlier sorted.new.elements }
    ensures spare { sorted.new.spare + length waiting.old.items + 1 ≡ sorted.old.spare + length waiting.new.items }
{
    if waiting.len() < waiting.capacity() {
        waiting.push_reserved(line);
    } else {
        settle(sorted, waiting);
        sorted.insert(line);
    }
}

/// The bidder's line of this number.
pub fn find_waiting(waiting: &[StoredLine], bidder: u32, number: u64) -> Option<StoredLine>
    ensures found { IfSome result (λ line. HasBidAt line.rate bidder number waiting.now) }
    ensures none { IfNone result (¬ (HasBid bidder number waiting.now)) }
{
    for line in waiting {
        if line.is_of(bidder, number) {
            return Some(*line);
        }
    }
    None
}

/// Whether the bidder's line of this rate, or of none, and of this number is there.
pub fn has_waiting(waiting: &[StoredLine], rate: Option<Rate>, bidder: u32, number: u64) -> bool
    ensures there { result ≡ true → HasBidAt rate bidder number waiting.now }
    ensures none { result ≡ false → ¬ (HasBidAt rate bidder number waiting.now) }
{
    let wanted = rank(rate);
    for line in waiting {
        if line.is_of(bidder, number) && line.rank() == wanted {
            return true;
        }
    }
    false
}
