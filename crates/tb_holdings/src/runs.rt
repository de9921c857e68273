//! Runs: where the payments of each redeemed security stand, in order of security.
ghost use Rattle.std.specs.Prelude.{◌≡◌, ◌≢◌, ◌+◌, ◌<◌, ◌≤◌, ◌++◌, ◌∷◌, [], ℕ, List, All, Contains, filter, length, vec_len, vec_capacity, IfSome, IsNone};
ghost use Rattle.tb_holdings.specs.Holdings.{AreInOrder, HoldSomething, held_in, is_of};
ghost use Rattle.tb_holdings.specs.Runs.{AreRuns, AreRunsOf, HaveNoRun, RunsAreInOrder, stands_before};
ghost use Rattle.tb_units.specs.Places.{HasOneMore, IsPlace};

use crate::account::{Account, held_among, pay_accounts};
use tb_blocks::Ordered;

/// Where the payments of one security stand among all payments: so many, from this place on.
#[derive(Clone, Copy, Debug, PartialEq, Eq)]
pub struct Run {
    security: u32,
    first: usize,
    count: usize,
}

impl Run {
    ghost use Rattle.tb_holdings.specs.Runs.{stands_before};

    fn stands_before(&self, security: u32) -> bool
        ensures { result ≡ stands_before security self.now }
    {
        self.security < security
    }
}

// The place of the first run that doesn't stand before that of this security.
fn run_place_of(runs: &[Run], security: u32) -> usize
    requires { RunsAreInOrder runs.now }
    ensures { IsPlace (stands_before security) runs.now result }
{
    runs.partition_point(|run| run.stands_before(security))
}

// The run of the security, where there is one.
fn find_run(runs: &[Run], security: u32) -> Option<Run>
    requires { RunsAreInOrder runs.now }
    ensures found { IfSome result (λ run. Contains runs.now run) }
    ensures own { IfSome result (λ run. run.security ≡ security) }
    ensures none { IsNone result → HaveNoRun security runs.now }
{
    let place = run_place_of(runs, security);
    if place < runs.len() && runs[place].security == security {
        Some(runs[place])
    } else {
        None
    }
}

// Puts a new run in at its place.
fn add_run(runs: &mut Vec<Run>, run: Run)
    requires in_order { RunsAreInOrder runs.old.items }
    requires room { vec_len runs.old < vec_capacity runs.old }
    requires new { HaveNoRun run.security runs.old.items }
    ensures runs { HasOneMore run runs.old.items runs.new.items }
    ensures in_order { RunsAreInOrder runs.new.items }
    ensures one_more { vec_len runs.new ≡ vec_len runs.old + 1 }
    ensures capacity { vec_capacity runs.new ≡ vec_capacity runs.old }
{
    let place = run_place_of(runs, run.security);
    runs.insert(place, run).unwrap();
}

/// What the holder was paid of the security, found by halving the runs, and then the security's.
pub fn paid_to(paid: &[Account], runs: &[Run], holder: u32, security: u32) -> u128
    requires { AreRuns paid.now runs.now }
    ensures { result ≡ held_in holder security paid.now }
{
    match find_run(runs, security) {
        Some(run) => {
            let rest = &paid[run.first..];
            held_among(&rest[..run.count], holder, security)
        }
        None => 0,
    }
}

/// Puts the accounts of the security behind those that were paid, and notes where they stand.
pub fn pay_off(
    accounts: &Ordered<Account>,
    security: u32,
    paid: &mut Vec<Account>,
    runs: &mut Vec<Run>,
)
    requires in_order { AreInOrder accounts.now.elements }
    requires none_empty { HoldSomething accounts.now.elements }
    requires runs { AreRuns paid.old.items runs.old.items }
    requires new { HaveNoRun security runs.old.items }
    requires room { length accounts.now.elements + vec_len paid.old ≤ vec_capacity paid.old }
    requires run_room { vec_len runs.old < vec_capacity runs.old }
    ensures paid { paid.new.items ≡ paid.old.items ++ filter (is_of security) accounts.now.elements }
    ensures runs { AreRuns paid.new.items runs.new.items }
    ensures runs_of { (redeemed : List ℕ) → AreRunsOf redeemed runs.old.items
        → AreRunsOf (redeemed ++ security ∷ []) runs.new.items }
    ensures one_more { vec_len runs.new ≡ vec_len runs.old + 1 }
    ensures capacity { vec_capacity paid.new ≡ vec_capacity paid.old }
    ensures run_capacity { vec_capacity runs.new ≡ vec_capacity runs.old }
{
    let first = paid.len();
    pay_accounts(accounts, security, paid);
    let run = Run {
        security,
        first,
        count: paid.len() - first,
    };
    add_run(runs, run);
}
