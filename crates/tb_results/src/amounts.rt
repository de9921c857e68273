//! What all bidders are awarded, each at its number.
ghost use Rattle.std.specs.Prelude.{◌≡◌, ℕ, ◌+◌, ◌<◌, ◌≤◌, ◌==◌, if◌then◌else◌, All};
ghost use Rattle.std.specs.Prelude.{length, replicate, slice_index, vec_capacity};
ghost use Rattle.tb_units.specs.Multiples.{most_par};
ghost use Rattle.tb_award.specs.Awards.{IsInHundreds};
ghost use Rattle.tb_award.specs.Cuts.{total_of};
ghost use Rattle.tb_book.specs.Books.{noncompetitive_of};
ghost use Rattle.tb_history.specs.Awarded.{Bidding};
ghost use Rattle.tb_results.specs.Outcomes.{IsAmountOf, IsCutIn, IsRaisedBy, awards_of};

use tb_award::{Cut, Outcome, Recognised, award};
use tb_book::Book;
use tb_units::Dollars;

/// Puts what each bidder is awarded at its number, in whole dollars, competitive and noncompetitive together: nothing
/// where nobody gets an award. The list has room for so many bidders, which are all that are enrolled. It looks at each
/// recognised line once and takes no memory, so that a settlement can credit each bidder's submitter.
pub fn award_all(
    into: &mut Vec<u128>,
    outcome: &Outcome,
    recognised: &Recognised,
    book: &Book,
    bidders: u32,
)
    requires bidding { (bidding : Bidding) × IsCutIn bidding book.now.lines recognised.now.lines outcome.now
        × (bidders ≡ length bidding.enrolled) }
    requires room { bidders ≤ vec_capacity into.old }
    ensures awards { (bidding : Bidding) → IsCutIn bidding book.now.lines recognised.now.lines outcome.now
        → bidders ≡ length bidding.enrolled → into.new.items ≡ awards_of bidding bidding.enrolled }
    ensures limited { All (λ amount. amount ≤ most_par) into.new.items }
    ensures room { vec_capacity into.new ≡ vec_capacity into.old }
{
    match *outcome {
        Outcome::NoAwards => award_nothing(into, bidders),
        Outcome::Cut(cut) => award_by_cut(into, &cut, recognised, book, bidders),
    }
}

// So many bidders get nothing.
fn award_nothing(amounts: &mut Vec<u128>, bidders: u32)
    requires { bidders ≤ vec_capacity amounts.old }
    ensures amounts { amounts.new.items ≡ replicate bidders 0 }
    ensures room { vec_capacity amounts.new ≡ vec_capacity amounts.old }
{
    amounts.clear();
    for _ in 0..bidders {
        amounts.push_reserved(0);
    }
}

// Each number's noncompetitive par and its awards.
fn award_by_cut(
    amounts: &mut Vec<u128>,
    cut: &Cut,
    recognised: &Recognised,
    book: &Book,
    bidders: u32,
)
    requires room { bidders ≤ vec_capacity amounts.old }
    requires known { All (λ line. line.bidder < bidders) recognised.now.lines }
    requires hundreds { All IsInHundreds recognised.now.lines }
    requires fits { (k : ℕ) → noncompetitive_of k book.now.lines + total_of recognised.now.lines ≤ most_par }
    ensures count { length amounts.new.items ≡ bidders }
    ensures awards { (k : ℕ) → k < bidders
        → IsAmountOf cut.now recognised.now.lines book.now.lines k (slice_index amounts.new.items k) }
    ensures room { vec_capacity amounts.new ≡ vec_capacity amounts.old }
{
    start_with_noncompetitive(amounts, book, bidders);
    add_awards(amounts, cut, recognised);
}

// Each number's noncompetitive par.
fn start_with_noncompetitive(amounts: &mut Vec<u128>, book: &Book, bidders: u32)
    requires { bidders ≤ vec_capacity amounts.old }
    ensures count { length amounts.new.items ≡ bidders }
    ensures amounts { (k : ℕ) → k < bidders → slice_index amounts.new.items k ≡ noncompetitive_of k book.now.lines }
    ensures room { vec_capacity amounts.new ≡ vec_capacity amounts.old }
{
    amounts.clear();
    for number in 0..bidders {
        let (_, noncompetitive) = book.totals(number);
        amounts.push_reserved(noncompetitive.value);
    }
}

// The awards of all recognised lines, added at their bidders' numbers.
fn add_awards(amounts: &mut Vec<u128>, cut: &Cut, recognised: &Recognised)
    requires known { All (λ line. line.bidder < length amounts.old.items) recognised.now.lines }
    requires hundreds { All IsInHundreds recognised.now.lines }
    requires fits { (k : ℕ) → k < length amounts.old.items
        → slice_index amounts.old.items k + total_of recognised.now.lines ≤ most_par }
    ensures count { length amounts.new.items ≡ length amounts.old.items }
    ensures awards { (k : ℕ) → k < length amounts.old.items
        → IsRaisedBy cut.now recognised.now.lines k (slice_index amounts.old.items k)
        (slice_index amounts.new.items k) }
    ensures room { vec_capacity amounts.new ≡ vec_capacity amounts.old }
{
    for place in 0..recognised.count() {
        let line = recognised.line(place);
        add_award(amounts, line.bidder, award(cut, line.rate, line.amount));
    }
}

// An award, added at its bidder's number.
fn add_award(amounts: &mut Vec<u128>, bidder: u32, award: Dollars)
    requires known { bidder < length amounts.old.items }
    requires fits { slice_index amounts.old.items bidder + award.value ≤ most_par }
    ensures count { length amounts.new.items ≡ length amounts.old.items }
    ensures added { (k : ℕ) → k < length amounts.old.items
        → slice_index amounts.new.items k ≡ slice_index amounts.old.items k + (if bidder == k then award.value else 0) }
    ensures room { vec_capacity amounts.new ≡ vec_capacity amounts.old }
{
    amounts[bidder as usize] += award.value;
}
