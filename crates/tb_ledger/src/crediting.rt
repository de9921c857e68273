//! What a settlement credits.
ghost use Rattle.std.specs.Prelude.{◌≡◌, ◌+◌, ◌^◌, ◌<◌, ◌≤◌, ◌++◌, List, Some, length, vec_capacity, All};
ghost use Rattle.tb_units.specs.Multiples.{most_par};
ghost use Rattle.tb_units.specs.declared.lines.RateLine.{RateLine};
ghost use Rattle.tb_book.specs.declared.book_line.BookLine.{BookLine};
ghost use Rattle.tb_holdings.specs.Book.{IsRedeemed, TakesRoom, most_held, total_of};
ghost use Rattle.tb_holdings.specs.Book as held;
ghost use Rattle.tb_movements.specs.Credits.{CreditsBook};
ghost use Rattle.tb_movements.specs.Movements.{Credit, Settled, credited_in_all};
ghost use Rattle.tb_history.specs.Awarded.{Bidding};
ghost use Rattle.tb_history.specs.Holdings.{if_awarded};
ghost use Rattle.tb_results.specs.Outcomes.{IsCutIn, awards_of};
ghost use Rattle.tb_ledger.specs.Accounting.{TellsNext};
ghost use Rattle.tb_ledger.specs.Credits.{add_on_for, credits_for, settled_for};
ghost use Rattle.tb_ledger.specs.Settling.{KeepsScratch};

use crate::accounts::holder_number;
use crate::scratch::Scratch;
use tb_award::Outcome;
use tb_book::Book;
use tb_history::{AddOn, Enrolment};
use tb_holdings::Accounts;
use tb_results::award_all;
use tb_tables::Submitters;
use tb_units::Dollars;

/// Credits each bidder's participant what the bidder is awarded of the security, by what is recognised of the bids in
/// the book and what becomes of them, and the add-on's holder with the add-on where anything is awarded. All awards
/// stand in the scratch array then. It takes no memory, and loses no room there.
pub fn credit_awards(
    accounts: &mut Accounts,
    scratch: &mut Scratch,
    submitters: &Submitters,
    bidders: &[Enrolment],
    security: u32,
    outcome: &Outcome,
    book: &Book,
    add_on: &Option<AddOn>,
)
    requires few { length bidders.now < 2 ^ 32 }
    requires numbered { length submitters.now.list < 2 ^ 32 }
    requires bidding { (bidding : Bidding) × IsCutIn bidding book.now.lines scratch.old.recognised.lines outcome.now
        × (bidding.enrolled ≡ bidders.now)
        × (total_of security accounts.old
        + credited_in_all (settled_for submitters.now.list bidding bidders.now add_on.now) ≤ most_held) }
    requires awards { length bidders.now ≤ vec_capacity scratch.old.awards }
    requires room { length bidders.now + 1 ≤ accounts.old.spare_accounts }
    requires live { ¬ (IsRedeemed security accounts.old) }
    ensures told { (bidding : Bidding) → IsCutIn bidding book.now.lines scratch.old.recognised.lines outcome.now
        → bidding.enrolled ≡ bidders.now
        → TellsNext (Some (Settled security (settled_for submitters.now.list bidding bidders.now add_on.now)))
        accounts.old accounts.new }
    ensures room { TakesRoom (length bidders.now + 1) 0 0 accounts.old accounts.new }
    ensures keeps { KeepsScratch scratch.old scratch.new }
{
    award_all(
        &mut scratch.awards,
        outcome,
        &scratch.recognised,
        book,
        bidders.len() as u32,
    );
    credit_each(accounts, submitters, bidders, security, &scratch.awards);
    credit_add_on(accounts, submitters, security, outcome, add_on);
}

// Credits each bidder's participant the bidder's award of the security.
fn credit_each(
    accounts: &mut Accounts,
    submitters: &Submitters,
    bidders: &[Enrolment],
    security: u32,
    awards: &[u128],
)
    requires numbered { length submitters.now.list < 2 ^ 32 }
    requires awards { (bidding : Bidding) × (awards.now ≡ awards_of bidding bidders.now)
        × (total_of security accounts.old + credited_in_all (credits_for submitters.now.list bidding bidders.now)
        ≤ most_held) }
    requires limited { All (λ award. award ≤ most_par) awards.now }
    requires room { length bidders.now ≤ accounts.old.spare_accounts }
    requires live { ¬ (IsRedeemed security accounts.old) }
    ensures credits { (bidding : Bidding) → awards.now ≡ awards_of bidding bidders.now
        → CreditsBook security (credits_for submitters.now.list bidding bidders.now) accounts.old accounts.new }
    ensures room { TakesRoom (length bidders.now) 0 0 accounts.old accounts.new }
    ensures live { accounts.new.redeemed ≡ accounts.old.redeemed }
{
    for place in 0..bidders.len() {
        let par = Dollars {
            value: awards[place],
        };
        let holder = holder_number(submitters, &bidders[place].submitter);
        accounts.credit(holder, security, par);
    }
}

// Credits the add-on's holder with it, where anything is awarded.
fn credit_add_on(
    accounts: &mut Accounts,
    submitters: &Submitters,
    security: u32,
    outcome: &Outcome,
    add_on: &Option<AddOn>,
)
    requires numbered { length submitters.now.list < 2 ^ 32 }
    requires fits { (bidding : Bidding) × (lines : List BookLine) × (recognised : List RateLine)
        × IsCutIn bidding lines recognised outcome.now
        × (total_of security accounts.old
        + credited_in_all (add_on_for submitters.now.list (if_awarded bidding add_on.now)) ≤ most_held) }
    requires room { 0 < accounts.old.spare_accounts }
    requires live { ¬ (IsRedeemed security accounts.old) }
    ensures credits { (bidding : Bidding) (lines : List BookLine) (recognised : List RateLine)
        (given : List Credit) (first : held.Book)
        → IsCutIn bidding lines recognised outcome.now
        → CreditsBook security given first accounts.old
        → CreditsBook security (given ++ add_on_for submitters.now.list (if_awarded bidding add_on.now))
        first accounts.new }
    ensures room { TakesRoom 1 0 0 accounts.old accounts.new }
{
    let Outcome::Cut(_) = outcome else {
        return;
    };
    let Some(add_on) = add_on else {
        return;
    };
    let holder = holder_number(submitters, &add_on.holder);
    accounts.credit(holder, security, add_on.amount);
}
