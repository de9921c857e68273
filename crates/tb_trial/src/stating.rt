//! The bids of a trial, as lines of a book.
ghost use Rattle.std.specs.Prelude.{◌≡◌, ℕ, ◌+◌, ◌<◌, ◌≤◌, ◌^◌, true, IfOk, OnOk};
ghost use Rattle.tb_results.specs.Biddings.{AreBooked, book_line_of};
ghost use Rattle.tb_trial.specs.Trials.{bidders, most_bidders, next, stated_bid, trial_bidding};

use std::alloc::Global;
use tb_book::{Book, BookLine};
use tb_units::{Dollars, OutOfMemory, Rate};

/// How many bidders there are.
pub const BIDDERS: u32 = 4096;

/// For so many lines memory is taken at once: for few enough that little of it stays unused.
const LINES_AHEAD: u64 = 1024;

/// A book of the bids, which is open.
pub fn stated_book(alloc: Global, seed: u64, count: u64) -> Result<Book, OutOfMemory>
    requires { count ≤ 10 ^ 6 }
    ensures booked { IfOk result (λ book. AreBooked (trial_bidding seed count) book.lines) }
    ensures opened { IfOk result (λ book. book.opened ≡ true) }
{
    let mut book = Book::sealed(alloc);
    let mut drawn = seed;
    for stated in 0..count {
        make_room(&mut book)?;
        drawn = next(drawn);
        book.add(stated_line(stated + 1, drawn));
    }
    book.unseal();
    Ok(book)
}

// Takes memory for the next lines where there is no room for one.
fn make_room(book: &mut Book) -> Result<(), OutOfMemory>
    ensures room { OnOk result (0 < book.new.spare) }
    ensures lines { book.new.lines ≡ book.old.lines }
{
    if book.spare() == 0 {
        book.reserve(LINES_AHEAD)?;
    }
    Ok(())
}

// What is drawn after it.
fn next(drawn: u64) -> u64
    ensures { result ≡ next drawn }
{
    drawn
        .wrapping_mul(6_364_136_223_846_793_005)
        .wrapping_add(1_442_695_040_888_963_407)
}

// The bid of this number, for which this was drawn.
fn stated_line(number: u64, drawn: u64) -> BookLine
    ensures { result ≡ book_line_of (bidders most_bidders) (stated_bid number drawn) }
{
    BookLine {
        bidder: (number % BIDDERS as u64) as u32,
        number,
        rate: Some(Rate {
            steps: 1000 + ((drawn >> 33) % 101) as u32,
        }),
        amount: Dollars {
            value: 100 * (1 + (drawn >> 40) % 1000) as u128,
        },
    }
}
