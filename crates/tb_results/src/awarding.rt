//! What a submitter's bidders are awarded, and what they pay.
ghost use Rattle.std.specs.Prelude.{◌≡◌, ℕ, ◌+◌, ◌<◌, ◌≤◌, ◌==◌, ◌^◌, ◌&&◌, if◌then◌else◌, List, length};
ghost use Rattle.std.specs.Prelude.{nat_lt, true, All, IfOk, IfSome};
ghost use Rattle.tb_units.specs.declared.lines.RateLine.{RateLine};
ghost use Rattle.tb_units.specs.Multiples.{most_par};
ghost use Rattle.tb_book.specs.declared.book_line.BookLine.{BookLine};
ghost use Rattle.tb_book.specs.Books.{competitive_of, noncompetitive_of};
ghost use Rattle.tb_history.specs.Entries.{is_same};
ghost use Rattle.tb_history.specs.Awarded.{Bidding, awarded, par_in_all};
ghost use Rattle.tb_history.specs.Readings.{AreAddOn, AreAwardLines, IsAwardLine, IsPaid};
ghost use Rattle.tb_results.specs.Biddings.{IsBookOf};
ghost use Rattle.tb_results.specs.Outcomes.{AreAwardedIn, IsCutIn, bidders_among};

use crate::amounts::award_all;
use crate::cutting::cut_book;
use std::alloc::Global;
use tb_award::{Outcome, Recognised};
use tb_book::Book;
use tb_history::{AddOn, AddOnLine, AwardLine, Awards, Enrolment, Listing};
use tb_price::payment;
use tb_terms::Terms;
use tb_units::{Cents, Dollars, Ident, Lines, OutOfMemory};

/// The awards of the caller's bidders with a live bid, by the auction's book, which is open, in the order of enrolment,
/// and the add-on where the caller is its holder. `bidders` are all that are enrolled; `add_on` is the auction's, which
/// has at most 10^22 of par.
pub fn awards(
    alloc: Global,
    terms: &Terms,
    book: &Book,
    positions: &[i64],
    bidders: &[Enrolment],
    add_on: Option<AddOn>,
    caller: &Ident,
) -> Result<Awards, OutOfMemory>
    requires bidding { (bidding : Bidding) × IsBookOf bidding terms.now book.now.lines positions.now
        × (bidders.now ≡ bidding.enrolled) }
    requires opened { book.now.opened ≡ true }
    requires few { length bidders.now < 2 ^ 32 }
    requires range { IfSome add_on (λ x. x.amount.value ≤ most_par) }
    ensures lines { IfOk result (λ awards. (bidding : Bidding)
        → IsBookOf bidding terms.now book.now.lines positions.now
        → bidders.now ≡ bidding.enrolled
        → AreAwardLines bidding (bidders_among bidding caller.now bidders.now) awards.lines) }
    ensures addon { IfOk result (λ awards. (bidding : Bidding)
        → IsBookOf bidding terms.now book.now.lines positions.now
        → AreAddOn bidding add_on caller.now awards.addon) }
{
    let mut recognised = Recognised::empty(alloc);
    recognised.reserve(book.lines(), positions.len() as u64)?;
    let outcome = cut_book(&mut recognised, terms, book, positions);
    let mut amounts = Vec::new(alloc);
    amounts.reserve(bidders.len())?;
    award_all(
        &mut amounts,
        &outcome,
        &recognised,
        book,
        bidders.len() as u32,
    );
    let lines = award_lines(alloc, &outcome, book, bidders, &amounts, caller)?;
    let addon = add_on_line(&outcome, &add_on, caller);
    Ok(Awards { lines, addon })
}

// The lines of the caller's bidders with a bid in the book, where all bidders are awarded these amounts.
fn award_lines(
    alloc: Global,
    outcome: &Outcome,
    book: &Book,
    bidders: &[Enrolment],
    amounts: &[u128],
    caller: &Ident,
) -> Result<Listing<AwardLine>, OutOfMemory>
    requires bidding { (bidding : Bidding) × (recognised : List RateLine)
        × AreAwardedIn bidding book.now.lines recognised outcome.now bidders.now amounts.now }
    requires limited { All (λ amount. amount ≤ most_par) amounts.now }
    requires few { length bidders.now < 2 ^ 32 }
    ensures { IfOk result (λ lines. (bidding : Bidding) (recognised : List RateLine)
        → AreAwardedIn bidding book.now.lines recognised outcome.now bidders.now amounts.now
        → AreAwardLines bidding (bidders_among bidding caller.now bidders.now) lines) }
{
    let mut lines = Listing::new(alloc);
    for (number, bidder) in bidders.iter().enumerate() {
        if is_asked(book, bidder, number as u32, caller) {
            let amount = Dollars {
                value: amounts[number],
            };
            let line = award_line(outcome, bidder, amount);
            lines.push(line)?;
        }
    }
    Ok(lines)
}

// Whether the bidder of this number is the caller's and has a bid in the book.
fn is_asked(book: &Book, bidder: &Enrolment, number: u32, caller: &Ident) -> bool
    ensures { result ≡ (is_same bidder.now.submitter caller.now
        && nat_lt 0 (competitive_of number book.now.lines + noncompetitive_of number book.now.lines)) }
{
    is_same(&bidder.submitter, caller) && has_bid(book, number)
}

// Whether two names are one.
fn is_same(one: &Ident, other: &Ident) -> bool
    ensures { result ≡ is_same one.now other.now }
{
    one.bytes() == other.bytes()
}

// Whether the bidder of this number has a bid in the book.
fn has_bid(book: &Book, bidder: u32) -> bool
    ensures { result ≡ nat_lt 0 (competitive_of bidder book.now.lines + noncompetitive_of bidder book.now.lines) }
{
    let (competitive, noncompetitive) = book.totals(bidder);
    competitive.value + noncompetitive.value > 0
}

// The line of a bidder that is awarded so much.
fn award_line(outcome: &Outcome, bidder: &Enrolment, amount: Dollars) -> AwardLine
    requires { amount.value ≤ most_par }
    ensures { (bidding : Bidding) (lines : List BookLine) (recognised : List RateLine)
        → IsCutIn bidding lines recognised outcome.now → amount.value ≡ awarded bidding bidder.now.bidder
        → IsAwardLine bidding bidder.now.bidder result }
{
    AwardLine {
        bidder: bidder.bidder,
        amount,
        payment: payment_for(outcome, amount),
    }
}

// What is paid for the award.
fn payment_for(outcome: &Outcome, amount: Dollars) -> Cents
    requires { amount.value ≤ most_par }
    ensures { (bidding : Bidding) (lines : List BookLine) (recognised : List RateLine)
        → IsCutIn bidding lines recognised outcome.now → (par_in_all bidding ≡ 0 → amount.value ≡ 0)
        → IsPaid bidding amount.value result.value }
{
    match *outcome {
        Outcome::NoAwards => Cents { value: 0 },
        Outcome::Cut(cut) => payment(amount, cut.price),
    }
}

// The line of the add-on, where the caller is its holder.
fn add_on_line(outcome: &Outcome, add_on: &Option<AddOn>, caller: &Ident) -> Option<AddOnLine>
    requires { IfSome add_on.now (λ x. x.amount.value ≤ most_par) }
    ensures { (bidding : Bidding) (lines : List BookLine) (recognised : List RateLine)
        → IsCutIn bidding lines recognised outcome.now → AreAddOn bidding add_on.now caller.now result }
{
    let Some(add_on) = add_on else {
        return None;
    };
    if !is_same(&add_on.holder, caller) {
        return None;
    }
    let amount = if_awarded(outcome, add_on.amount);
    Some(AddOnLine {
        amount,
        payment: payment_for(outcome, amount),
    })
}

// An add-on of so much is awarded in full where anything is awarded, and else nothing of it.
fn if_awarded(outcome: &Outcome, amount: Dollars) -> Dollars
    ensures awarded { (bidding : Bidding) (lines : List BookLine) (recognised : List RateLine)
        → IsCutIn bidding lines recognised outcome.now
        → result.value ≡ (if par_in_all bidding == 0 then 0 else amount.value) }
    ensures most { result.value ≤ amount.value }
{
    match outcome {
        Outcome::NoAwards => Dollars { value: 0 },
        Outcome::Cut(_) => amount,
    }
}
