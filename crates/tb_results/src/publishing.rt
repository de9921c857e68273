//! The results of an auction.
ghost use Rattle.std.specs.Prelude.{◌≡◌, ◌≤◌, true, List, IfOk};
ghost use Rattle.tb_award.specs.Cuts.{most_recognised, total_of};
ghost use Rattle.tb_book.specs.declared.book_line.BookLine.{BookLine};
ghost use Rattle.tb_history.specs.Awarded.{Bidding};
ghost use Rattle.tb_history.specs.Holdings.{par_added};
ghost use Rattle.tb_history.specs.Readings.{AreFigures, AreResults, IsInvestment};
ghost use Rattle.tb_results.specs.Biddings.{IsBookOf};
ghost use Rattle.tb_results.specs.Outcomes.{AreFiguresOf, IsCutIn};

use crate::cutting::cut_book;
use std::alloc::Global;
use tb_award::{Cut, Outcome, Recognised, awarded, low_rate, median_rate};
use tb_book::Book;
use tb_history::{AddOn, Figures, Results};
use tb_price::{Investment, investment};
use tb_terms::{Terms, year_length};
use tb_units::{Dollars, Lines, OutOfMemory, Price};

/// The results of the auction, by its book, which is open. Each bidder's position stands at its number, in whole
/// dollars. The add-on is the auction's: it is told as it stands, and enters nothing else.
pub fn results(
    alloc: Global,
    terms: &Terms,
    book: &Book,
    positions: &[i64],
    add_on: Option<AddOn>,
) -> Result<Results, OutOfMemory>
    requires bidding { (bidding : Bidding) × IsBookOf bidding terms.now book.now.lines positions.now }
    requires opened { book.now.opened ≡ true }
    ensures { IfOk result (λ results. (bidding : Bidding) → IsBookOf bidding terms.now book.now.lines positions.now
        → AreResults bidding add_on results) }
{
    let mut recognised = Recognised::empty(alloc);
    recognised.reserve(book.lines(), positions.len() as u64)?;
    let outcome = cut_book(&mut recognised, terms, book, positions);
    Ok(Results {
        terms: terms.announcement,
        noncompetitive: book.noncompetitive(),
        addon: par_of(&add_on),
        figures: figures_of(terms, &recognised, &outcome),
    })
}

// The par of the add-on, 0 where none stands.
fn par_of(add_on: &Option<AddOn>) -> Dollars
    ensures { result.value ≡ par_added (λ name. true) add_on.now }
{
    match add_on {
        Some(add_on) => add_on.amount,
        None => Dollars { value: 0 },
    }
}

// The figures, where somebody gets an award.
fn figures_of(terms: &Terms, recognised: &Recognised, outcome: &Outcome) -> Option<Figures>
    requires { total_of recognised.now.lines ≤ most_recognised }
    ensures { (bidding : Bidding) (lines : List BookLine) → IsCutIn bidding lines recognised.now.lines outcome.now
        → terms.now.announcement ≡ bidding.announcement → AreFigures bidding result }
{
    match *outcome {
        Outcome::NoAwards => None,
        Outcome::Cut(cut) => Some(figures_at(terms, &cut, recognised)),
    }
}

// The figures of a cut.
fn figures_at(terms: &Terms, cut: &Cut, recognised: &Recognised) -> Figures
    requires { total_of recognised.now.lines ≤ most_recognised }
    ensures figures { AreFiguresOf cut.now recognised.now.lines result }
    ensures investment { IsInvestment terms.now.announcement cut.now.price.millionths result.investment.thousandths }
{
    Figures {
        cut: *cut,
        competitive: awarded(cut, recognised),
        median: median_rate(cut, recognised),
        low: low_rate(cut, recognised),
        investment: investment_at(terms, cut.price),
    }
}

// The investment rate of the bill at a price.
fn investment_at(terms: &Terms, price: Price) -> Investment
    ensures { IsInvestment terms.now.announcement price.millionths result.thousandths }
{
    investment(price, terms.days, year_length(terms.announcement.issue))
}
