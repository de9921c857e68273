//! The book of accounts.
ghost use Rattle.std.specs.Prelude.{ℕ, List, sum_by, ◌≡◌, ◌≢◌, ◌+◌, ◌-◌, ◌<◌, ◌≤◌, ◌++◌, ◌∷◌, [], ◌↔◌, None, Some, filter, length, Contains, OnOk, OnErr, IfOk, IfErr, IfSome, IsOk, IsErr, IsNone, vec_len, vec_capacity};
ghost use Rattle.std.specs.Option.{option_map};
ghost use Rattle.tb_holdings.specs.Holdings.{AreHolders, is_of, credited, moved, without};
ghost use Rattle.tb_holdings.specs.Marks.{new_mark, left_at, with_mark, released, cleared, open_marks_beside};
ghost use Rattle.tb_holdings.specs.Book.{Book, held_of, pledged_of, free_of, paid_of, total_of, mark_of, open_marks_of, IsRedeemed, most_held, most_open, IsKept, SameLists, ChangesAccountsOnly, ChangesMarksOnly, KeepsOthers, TakesRoom};
ghost use Rattle.tb_holdings.specs.Refusals.{IsPledgeCause, IsReleaseCause, MayRelease};

use crate::account::{
    Account, close_accounts, held_by, held_by_all, move_held, next_held, set_held,
};
use crate::mark::{KeptMark, Mark};
use crate::marks::Marks;
use crate::refusals::{InsufficientFree, PledgeRefused, ReleaseRefused};
use crate::runs::{Run, paid_to, pay_off};
use std::alloc::Global;
use std::marker::Model;
use tb_blocks::Ordered;
use tb_units::{Dollars, OutOfMemory};

/// The accounts, the marks on them, and what was paid. Contracts see these lists and the room for more.
///
/// Pledged par stays in the holder's total and can't be transferred, and only the pledgee releases it (our choice).
#[derive(Drop)]
pub struct Accounts {
    accounts: Ordered<Account>,
    marks: Marks,
    redeemed: Vec<u32>,
    paid: Vec<Account>,
    // Where the payments of each redeemed security stand, in order of security.
    runs: Vec<Run>,
}

impl Model for Accounts {
    ghost use Rattle.std.specs.Prelude.{◌+◌, ◌-◌, ◌≤◌, length, min, vec_len, vec_capacity};
    ghost use Rattle.tb_holdings.specs.Book.{Book, AreKept};
    ghost use Rattle.tb_holdings.specs.Runs.{AreRuns, AreRunsOf};

    ghost Value = { Book };

    // An account has room if it also has room among those that are paid.
    ghost view = { λ a. record {
      accounts = a.accounts.elements;
      marks = a.marks.list;
      redeemed = a.redeemed.items;
      paid = a.paid.items;
      spare_accounts = min a.accounts.spare
          (vec_capacity a.paid - (length a.accounts.elements + vec_len a.paid));
      spare_marks = a.marks.spare;
      spare_redeems = min (vec_capacity a.redeemed - vec_len a.redeemed) (vec_capacity a.runs - vec_len a.runs);
    } };

    ghost invariant = { λ a. AreKept a.accounts.elements a.marks.list a.redeemed.items a.paid.items
        × (length a.accounts.elements + vec_len a.paid ≤ vec_capacity a.paid)
        × AreRuns a.paid.items a.runs.items
        × AreRunsOf a.redeemed.items a.runs.items };
}

impl Accounts {
    // The most open marks of one holder.
    const MOST_OPEN: u64 = 1000;

    /// An empty book.
    pub fn new(alloc: Global) -> Accounts
        ensures accounts { result.accounts ≡ [] }
        ensures marks { result.marks ≡ [] }
        ensures redeemed { (result.redeemed ≡ []) × (result.paid ≡ []) }
    {
        Accounts {
            accounts: Ordered::new(alloc),
            marks: Marks::new(alloc),
            redeemed: Vec::new(alloc),
            paid: Vec::new(alloc),
            runs: Vec::new(alloc),
        }
    }

    /// Takes the memory for so many more accounts, marks and redemptions. No other call takes memory.
    pub fn reserve(&mut self, accounts: u64, marks: u64, redeems: u64) -> Result<(), OutOfMemory>
        ensures accounts { OnOk result (accounts ≤ self.new.spare_accounts) }
        ensures marks { OnOk result (marks ≤ self.new.spare_marks) }
        ensures redeems { OnOk result (redeems ≤ self.new.spare_redeems) }
        // The lists stay, and no room is lost, whatever the result.
        ensures lists { SameLists self.old self.new }
        ensures room { TakesRoom 0 0 0 self.old self.new }
    {
        reserve_accounts(&mut self.accounts, &mut self.paid, accounts as usize)?;
        self.marks.reserve(marks as usize)?;
        self.redeemed.reserve(redeems as usize)?;
        self.runs.reserve(redeems as usize)?;
        Ok(())
    }

    /// Gives the holder par of the security.
    pub fn credit(&mut self, holder: u32, security: u32, par: Dollars)
        requires room { 0 < self.old.spare_accounts }
        requires live { ¬ (IsRedeemed security self.old) }
        requires limit { total_of security self.old + par.value ≤ most_held }
        ensures accounts { self.new.accounts ≡ credited holder security par.value self.old.accounts }
        ensures total { total_of security self.new ≡ total_of security self.old + par.value }
        ensures total_others { (other : ℕ) → other ≢ security → total_of other self.new ≡ total_of other self.old }
        ensures others { ChangesAccountsOnly self.old self.new }
        ensures room { TakesRoom 1 0 0 self.old self.new }
        ensures laws { IsKept self.new }
    {
        let held = self.held(holder, security);
        set_held(&mut self.accounts, holder, security, held.value + par.value);
    }

    /// Moves par from one holder to another. Refuses where the sender has less free, and shows what is free.
    pub fn transfer(
        &mut self,
        from: u32,
        to: u32,
        security: u32,
        par: Dollars,
    ) -> Result<(), InsufficientFree>
        requires room { 0 < self.old.spare_accounts }
        requires apart { from ≢ to }
        requires live { ¬ (IsRedeemed security self.old) }
        ensures refused { IsErr result ↔ (free_of from security self.old < par.value) }
        ensures shows_free { IfErr result (λ refusal. refusal.free.value ≡ free_of from security self.old) }
        ensures moved { OnOk result (self.new.accounts ≡ moved from to security par.value self.old.accounts) }
        ensures total { total_of security self.new ≡ total_of security self.old }
        ensures total_others { (other : ℕ) → other ≢ security → total_of other self.new ≡ total_of other self.old }
        ensures others { ChangesAccountsOnly self.old self.new }
        ensures unchanged { OnErr result (self.new ≡ self.old) }
        ensures room { TakesRoom 1 0 0 self.old self.new }
        ensures laws { IsKept self.new }
    {
        let free = self.free(from, security);
        if par.value > free.value {
            return Err(InsufficientFree { free });
        }
        move_held(&mut self.accounts, from, to, security, par.value);
        Ok(())
    }

    /// Pledges par of what is free to another. It stays in the holder's total.
    pub fn pledge(
        &mut self,
        holder: u32,
        number: u64,
        pledgee: u32,
        security: u32,
        par: Dollars,
    ) -> Result<(), PledgeRefused>
        requires room { 0 < self.old.spare_marks }
        requires new { mark_of holder number self.old ≡ None }
        requires apart { holder ≢ pledgee }
        requires least { 100 ≤ par.value }
        requires live { ¬ (IsRedeemed security self.old) }
        ensures pledged { IsOk result
            ↔ ((par.value ≤ free_of holder security self.old) × (open_marks_of holder self.old < most_open)) }
        ensures cause { IfErr result
            (IsPledgeCause (free_of holder security self.old) (open_marks_of holder self.old) par.value) }
        ensures mark { OnOk result (self.new.marks
            ≡ with_mark (new_mark holder number pledgee security par.value) self.old.marks) }
        ensures others { ChangesMarksOnly self.old self.new }
        ensures unchanged { OnErr result (self.new ≡ self.old) }
        ensures room { TakesRoom 0 1 0 self.old self.new }
        ensures laws { IsKept self.new }
    {
        let free = self.free(holder, security);
        if par.value > free.value {
            return Err(PledgeRefused::InsufficientFree { free });
        }
        if self.open_marks(holder) >= Accounts::MOST_OPEN {
            return Err(PledgeRefused::PledgeQuota);
        }
        let mark = KeptMark {
            holder,
            number,
            pledgee,
            security,
            left: par.value,
        };
        self.marks.add(mark);
        Ok(())
    }

    /// Releases par of a mark. Only its pledgee may.
    pub fn release(
        &mut self,
        holder: u32,
        number: u64,
        caller: u32,
        par: Dollars,
    ) -> Result<(), ReleaseRefused>
        ensures released { IsOk result ↔ MayRelease (mark_of holder number self.old) caller par.value }
        ensures cause { IfErr result (IsReleaseCause (mark_of holder number self.old) caller par.value) }
        ensures marks { OnOk result (self.new.marks ≡ released holder number par.value self.old.marks) }
        ensures left { OnOk result (mark_of holder number self.new
            ≡ option_map (left_at (λ mark. mark.left - par.value)) (mark_of holder number self.old)) }
        ensures others { ChangesMarksOnly self.old self.new }
        ensures unchanged { OnErr result (self.new ≡ self.old) }
        ensures room { TakesRoom 0 0 0 self.old self.new }
        ensures laws { IsKept self.new }
    {
        let Some(mark) = self.mark(holder, number) else {
            return Err(ReleaseRefused::UnknownPledge);
        };
        if mark.pledgee != caller {
            return Err(ReleaseRefused::NotPledgee);
        }
        if par.value > mark.left.value {
            return Err(ReleaseRefused::MoreThanPledged { left: mark.left });
        }
        self.marks.release(holder, number, par.value);
        Ok(())
    }

    /// Pays every holder of the security what it holds, and ends the pledges of it. The sum that was paid.
    pub fn redeem(&mut self, security: u32) -> Dollars
        requires live { ¬ (IsRedeemed security self.old) }
        requires room { 0 < self.old.spare_redeems }
        ensures total { result.value ≡ total_of security self.old }
        ensures accounts { self.new.accounts ≡ without security self.old.accounts }
        ensures marks { self.new.marks ≡ cleared security self.old.marks }
        ensures redeemed { self.new.redeemed ≡ self.old.redeemed ++ security ∷ [] }
        ensures paid { self.new.paid ≡ self.old.paid ++ filter (is_of security) self.old.accounts }
        // Every holder was paid what it held, and nothing is held or pledged of the security any more.
        ensures paid_all { (holder : ℕ) → paid_of holder security self.new ≡ held_of holder security self.old }
        ensures none_held { total_of security self.new ≡ 0 }
        ensures none_pledged { (holder : ℕ) → pledged_of holder security self.new ≡ 0 }
        ensures others { KeepsOthers security self.old self.new }
        ensures open_marks { (holder : ℕ)
            → open_marks_of holder self.new ≡ open_marks_beside security holder self.old.marks }
        ensures room { TakesRoom 0 0 1 self.old self.new }
        ensures laws { IsKept self.new }
    {
        let total = self.total(security);
        pay_off(&self.accounts, security, &mut self.paid, &mut self.runs);
        close_accounts(&mut self.accounts, security);
        self.marks.clear(security);
        self.redeemed.push_reserved(security);
        total
    }

    /// The mark of this holder and number.
    pub fn mark(&self, holder: u32, number: u64) -> Option<Mark>
        ensures none { IsNone result ↔ (mark_of holder number self.now ≡ None) }
        ensures found { IfSome result (λ mark. mark_of holder number self.now
            ≡ Some (new_mark holder number mark.pledgee mark.security mark.left.value)) }
        ensures laws { IsKept self.now }
    {
        match self.marks.find(holder, number) {
            None => None,
            Some(found) => Some(Mark {
                pledgee: found.pledgee,
                security: found.security,
                left: Dollars { value: found.left },
            }),
        }
    }

    /// How many of the holder's marks have something left.
    pub fn open_marks(&self, holder: u32) -> u64
        ensures open_marks { result ≡ open_marks_of holder self.now }
        ensures few { result ≤ most_open }
        ensures laws { IsKept self.now }
    {
        self.marks.open_marks(holder)
    }

    /// What the holder holds of the security, its pledged par with it.
    pub fn held(&self, holder: u32, security: u32) -> Dollars
        ensures held { result.value ≡ held_of holder security self.now }
        ensures part { held_of holder security self.now ≤ total_of security self.now }
        ensures laws { IsKept self.now }
    {
        Dollars {
            value: held_by(&self.accounts, holder, security),
        }
    }

    /// The next security, from this one on, of which the holder holds something.
    pub fn next_held(&self, holder: u32, from: u32) -> Option<u32>
        ensures next { IfSome result (λ next. (from ≤ next) × (0 < held_of holder next self.now)) }
        ensures none_between { IfSome result (λ next. (security : ℕ) → from ≤ security → security < next
            → held_of holder security self.now ≡ 0) }
        ensures none { IsNone result → (security : ℕ) → from ≤ security → held_of holder security self.now ≡ 0 }
        ensures laws { IsKept self.now }
    {
        next_held(&self.accounts, holder, from)
    }

    /// What is pledged of the holder's par of the security.
    pub fn pledged(&self, holder: u32, security: u32) -> Dollars
        ensures pledged { result.value ≡ pledged_of holder security self.now }
        ensures covered { pledged_of holder security self.now ≤ held_of holder security self.now }
        ensures laws { IsKept self.now }
    {
        Dollars {
            value: self.marks.pledged(holder, security),
        }
    }

    /// What the holder can transfer or pledge of the security.
    pub fn free(&self, holder: u32, security: u32) -> Dollars
        ensures free { result.value ≡ free_of holder security self.now }
        ensures whole { result.value + pledged_of holder security self.now ≡ held_of holder security self.now }
        ensures laws { IsKept self.now }
    {
        Dollars {
            value: self.held(holder, security).value - self.pledged(holder, security).value,
        }
    }

    /// What the holder was paid when the security was redeemed.
    pub fn paid(&self, holder: u32, security: u32) -> Dollars
        ensures paid { result.value ≡ paid_of holder security self.now }
        ensures not_yet { ¬ (IsRedeemed security self.now) → paid_of holder security self.now ≡ 0 }
        ensures laws { IsKept self.now }
    {
        Dollars {
            value: paid_to(&self.paid, &self.runs, holder, security),
        }
    }

    /// What all holders together hold of the security.
    pub fn total(&self, security: u32) -> Dollars
        ensures total { result.value ≡ total_of security self.now }
        ensures limit { total_of security self.now ≤ most_held }
        ensures holders { (holders : List ℕ) → AreHolders holders self.now.accounts
            → sum_by (λ holder. held_of holder security self.now) holders ≡ total_of security self.now }
        ensures none_redeemed { IsRedeemed security self.now → total_of security self.now ≡ 0 }
        ensures laws { IsKept self.now }
    {
        Dollars {
            value: held_by_all(&self.accounts, security),
        }
    }
}

// Room for more accounts, each of which may be paid one day.
fn reserve_accounts(
    accounts: &mut Ordered<Account>,
    paid: &mut Vec<Account>,
    more: usize,
) -> Result<(), OutOfMemory>
    ensures accounts { accounts.new.elements ≡ accounts.old.elements }
    ensures paid { (paid.new.items ≡ paid.old.items) × (vec_len paid.new ≡ vec_len paid.old) }
    ensures room { OnOk result (more ≤ accounts.new.spare) }
    ensures paid_room { OnOk result (length accounts.new.elements + vec_len paid.new + more ≤ vec_capacity paid.new) }
    ensures capacity { (accounts.old.spare ≤ accounts.new.spare) × (vec_capacity paid.old ≤ vec_capacity paid.new) }
{
    let open = accounts.len();
    accounts.reserve(more)?;
    paid.reserve(open.checked_add(more).ok_or(OutOfMemory)?)?;
    Ok(())
}
