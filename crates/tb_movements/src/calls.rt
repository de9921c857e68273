//! The calls of a book of accounts, each with the movement by which the book then tells more.
ghost use Rattle.std.specs.Prelude.{ℕ, ◌≡◌, ◌≢◌, ◌+◌, ◌<◌, ◌≤◌, ◌↔◌, ◌∷◌, ◌++◌, [], List, None, length, OnOk, OnErr, IfErr, IsErr, IsOk};
ghost use Rattle.tb_holdings.specs.Book.{free_of, total_of, mark_of, open_marks_of, most_held, most_open, IsRedeemed, SameLists, ChangesAccountsOnly, ChangesMarksOnly, TakesRoom};
ghost use Rattle.tb_holdings.specs.Refusals.{IsPledgeCause, IsReleaseCause, MayRelease};
ghost use Rattle.tb_movements.specs.Movements.{Movement, Settled, Transferred, Pledged, Released, Redeemed, credited_in_all};
ghost use Rattle.tb_movements.specs.Credits.{credits_of, CreditsBook};
ghost use Rattle.tb_movements.specs.Told.{IsTold, TellsMore};

use crate::award::Award;
use std::alloc::Global;
use tb_holdings::{Accounts, InsufficientFree, PledgeRefused, ReleaseRefused};
use tb_units::{Dollars, OutOfMemory};

/// An empty book. It tells that nothing has moved.
pub fn empty_book(alloc: Global) -> Accounts
    ensures told { IsTold [] result }
    ensures lists { (result.accounts ≡ []) × (result.marks ≡ []) × (result.redeemed ≡ []) × (result.paid ≡ []) }
{
    Accounts::new(alloc)
}

/// Takes the memory for so many more accounts, marks and redemptions. The book tells what it told.
pub fn reserve(
    accounts: &mut Accounts,
    more_accounts: u64,
    marks: u64,
    redeems: u64,
) -> Result<(), OutOfMemory>
    ensures told { (history : List Movement) → IsTold history accounts.old → IsTold history accounts.new }
    ensures lists { SameLists accounts.old accounts.new }
    ensures room { TakesRoom 0 0 0 accounts.old accounts.new }
    ensures accounts { OnOk result (more_accounts ≤ accounts.new.spare_accounts) }
    ensures marks { OnOk result (marks ≤ accounts.new.spare_marks) }
    ensures redeems { OnOk result (redeems ≤ accounts.new.spare_redeems) }
{
    accounts.reserve(more_accounts, marks, redeems)
}

/// Credits each participant what it was awarded of the security.
pub fn credit_all(accounts: &mut Accounts, security: u32, awards: &[Award])
    requires room { length awards.now ≤ accounts.old.spare_accounts }
    requires live { ¬ (IsRedeemed security accounts.old) }
    requires limit { total_of security accounts.old + credited_in_all (credits_of awards.now) ≤ most_held }
    ensures credits { CreditsBook security (credits_of awards.now) accounts.old accounts.new }
    ensures told { TellsMore (Settled security (credits_of awards.now)) accounts.old accounts.new }
    ensures room { TakesRoom (length awards.now) 0 0 accounts.old accounts.new }
{
    for award in awards {
        accounts.credit(award.holder, security, award.par);
    }
}

/// Moves par from one holder to another.
pub fn transfer(
    accounts: &mut Accounts,
    from: u32,
    to: u32,
    security: u32,
    par: Dollars,
) -> Result<(), InsufficientFree>
    requires room { 0 < accounts.old.spare_accounts }
    requires apart { from ≢ to }
    requires live { ¬ (IsRedeemed security accounts.old) }
    ensures refused { IsErr result ↔ (free_of from security accounts.old < par.value) }
    ensures shows_free { IfErr result (λ refusal. refusal.free.value ≡ free_of from security accounts.old) }
    ensures told { OnOk result (TellsMore (Transferred from to security par.value) accounts.old accounts.new) }
    ensures others { ChangesAccountsOnly accounts.old accounts.new }
    ensures unchanged { OnErr result (accounts.new ≡ accounts.old) }
    ensures room { TakesRoom 1 0 0 accounts.old accounts.new }
{
    accounts.transfer(from, to, security, par)
}

/// Pledges par of what is free to another.
pub fn pledge(
    accounts: &mut Accounts,
    holder: u32,
    number: u64,
    pledgee: u32,
    security: u32,
    par: Dollars,
) -> Result<(), PledgeRefused>
    requires room { 0 < accounts.old.spare_marks }
    requires new { mark_of holder number accounts.old ≡ None }
    requires apart { holder ≢ pledgee }
    requires least { 100 ≤ par.value }
    requires live { ¬ (IsRedeemed security accounts.old) }
    ensures pledged { IsOk result
        ↔ ((par.value ≤ free_of holder security accounts.old) × (open_marks_of holder accounts.old < most_open)) }
    ensures cause { IfErr result
        (IsPledgeCause (free_of holder security accounts.old) (open_marks_of holder accounts.old) par.value) }
    ensures told { OnOk result
        (TellsMore (Pledged holder number pledgee security par.value) accounts.old accounts.new) }
    ensures others { ChangesMarksOnly accounts.old accounts.new }
    ensures unchanged { OnErr result (accounts.new ≡ accounts.old) }
    ensures room { TakesRoom 0 1 0 accounts.old accounts.new }
{
    accounts.pledge(holder, number, pledgee, security, par)
}

/// Releases par of a mark. Only its pledgee may.
pub fn release(
    accounts: &mut Accounts,
    holder: u32,
    number: u64,
    caller: u32,
    par: Dollars,
) -> Result<(), ReleaseRefused>
    ensures released { IsOk result ↔ MayRelease (mark_of holder number accounts.old) caller par.value }
    ensures cause { IfErr result (IsReleaseCause (mark_of holder number accounts.old) caller par.value) }
    ensures told { OnOk result (TellsMore (Released holder number caller par.value) accounts.old accounts.new) }
    ensures others { ChangesMarksOnly accounts.old accounts.new }
    ensures unchanged { OnErr result (accounts.new ≡ accounts.old) }
    ensures room { TakesRoom 0 0 0 accounts.old accounts.new }
{
    accounts.release(holder, number, caller, par)
}

/// Pays every holder of the security what it holds. The sum that was paid.
pub fn redeem(accounts: &mut Accounts, security: u32) -> Dollars
    requires live { ¬ (IsRedeemed security accounts.old) }
    requires room { 0 < accounts.old.spare_redeems }
    ensures total { result.value ≡ total_of security accounts.old }
    ensures told { TellsMore (Redeemed security) accounts.old accounts.new }
    ensures redeemed { accounts.new.redeemed ≡ accounts.old.redeemed ++ security ∷ [] }
    ensures room { TakesRoom 0 0 1 accounts.old accounts.new }
{
    accounts.redeem(security)
}
