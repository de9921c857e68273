//! Accounts: what each holder holds of each security, in order of holder and then security.
ghost use Rattle.std.specs.Prelude.{◌≡◌, ◌≢◌, ◌+◌, ◌^◌, ◌<◌, ◌≤◌, ◌++◌, length, filter, vec_len, vec_capacity, ℕ, IfSome, IsNone};
ghost use Rattle.tb_holdings.specs.Holdings.{is_of, AreInOrder, HoldSomething, held_in, total_in, with_held, moved, without, comes_before};
ghost use Rattle.tb_units.specs.Places.{IsPlace};

use tb_blocks::{Keyed, Ordered};

/// What one holder holds of one security. An account with nothing held isn't kept.
#[derive(Clone, Copy, Debug, PartialEq, Eq)]
pub struct Account {
    pub holder: u32,
    pub security: u32,
    // Whole dollars. A plain number, since definitions compute it.
    pub held: u128,
}

impl Keyed for Account {
    type Key = (u32, u32);

    ghost key_of = { λ account. record { 0 = account.holder; 1 = account.security } };

    fn key(&self) -> (u32, u32) {
        (self.holder, self.security)
    }
}

impl Account {
    ghost use Rattle.tb_holdings.specs.Holdings.{is_account, is_of, comes_before};

    fn is_account(&self, holder: u32, security: u32) -> bool
        ensures { result ≡ is_account holder security self.now }
    {
        self.holder == holder && self.security == security
    }

    fn is_of(&self, security: u32) -> bool
        ensures { result ≡ is_of security self.now }
    {
        self.security == security
    }

    fn comes_before(&self, holder: u32, security: u32) -> bool
        ensures { result ≡ comes_before holder security self.now }
    {
        self.holder < holder || (self.holder == holder && self.security < security)
    }
}

// What all holders together hold of the security among these accounts.
fn total_among(accounts: &[Account], security: u32) -> u128
    requires { total_in security accounts.now < 2 ^ 128 }
    ensures { result ≡ total_in security accounts.now }
{
    accounts
        .iter()
        .filter(|account| account.is_of(security))
        .map(|account| account.held)
        .sum()
}

/// What all holders together hold of the security.
pub fn held_by_all(accounts: &Ordered<Account>, security: u32) -> u128
    requires { total_in security accounts.now.elements < 2 ^ 128 }
    ensures { result ≡ total_in security accounts.now.elements }
{
    let mut total = 0;
    let mut place = 0;
    while place < accounts.len() {
        let run = accounts.run_from(place);
        total += total_among(run, security);
        place += run.len();
    }
    total
}

// The place of the first of these accounts that doesn't stand before that of this holder and security.
fn place_among(accounts: &[Account], holder: u32, security: u32) -> usize
    requires { AreInOrder accounts.now }
    ensures { IsPlace (comes_before holder security) accounts.now result }
{
    accounts.partition_point(|account| account.comes_before(holder, security))
}

/// What the holder holds of the security among these accounts.
pub fn held_among(accounts: &[Account], holder: u32, security: u32) -> u128
    requires in_order { AreInOrder accounts.now }
    requires none_empty { HoldSomething accounts.now }
    ensures { result ≡ held_in holder security accounts.now }
{
    let place = place_among(accounts, holder, security);
    if place == accounts.len() {
        return 0;
    }
    let account = accounts[place];
    if account.is_account(holder, security) {
        account.held
    } else {
        0
    }
}

/// What the holder holds of the security.
pub fn held_by(accounts: &Ordered<Account>, holder: u32, security: u32) -> u128
    requires in_order { AreInOrder accounts.now.elements }
    requires none_empty { HoldSomething accounts.now.elements }
    ensures { result ≡ held_in holder security accounts.now.elements }
{
    match accounts.find(&(holder, security)) {
        Some(spot) => accounts.at_spot(spot).held,
        None => 0,
    }
}

// The place of the first account that doesn't stand before that of this holder and security.
fn place_of(accounts: &Ordered<Account>, holder: u32, security: u32) -> usize
    ensures { IsPlace (comes_before holder security) accounts.now.elements result }
{
    accounts.place_of(&(holder, security))
}

/// The next security, from this one on, of which the holder holds something.
pub fn next_held(accounts: &Ordered<Account>, holder: u32, from: u32) -> Option<u32>
    requires in_order { AreInOrder accounts.now.elements }
    requires none_empty { HoldSomething accounts.now.elements }
    ensures next { IfSome result (λ next. (from ≤ next) × (0 < held_in holder next accounts.now.elements)) }
    ensures none_between { IfSome result (λ next. (security : ℕ) → from ≤ security → security < next
        → held_in holder security accounts.now.elements ≡ 0) }
    ensures none { IsNone result → (security : ℕ) → from ≤ security
        → held_in holder security accounts.now.elements ≡ 0 }
{
    let place = place_of(accounts, holder, from);
    if place == accounts.len() {
        return None;
    }
    let account = accounts.at(place);
    if account.holder == holder {
        Some(account.security)
    } else {
        None
    }
}

/// Lets the holder hold so much of the security.
pub fn set_held(accounts: &mut Ordered<Account>, holder: u32, security: u32, held: u128)
    requires in_order { AreInOrder accounts.old.elements }
    requires room { 0 < accounts.old.spare }
    ensures accounts { accounts.new.elements ≡ with_held holder security held accounts.old.elements }
    ensures in_order { AreInOrder accounts.new.elements }
    ensures one_more { length accounts.new.elements ≤ length accounts.old.elements + 1 }
    ensures no_more { held ≤ held_in holder security accounts.old.elements
        → length accounts.new.elements ≤ length accounts.old.elements }
    ensures keeps_room { held ≤ held_in holder security accounts.old.elements
        → accounts.old.spare ≤ accounts.new.spare }
    ensures room { accounts.old.spare ≤ accounts.new.spare + 1 }
{
    let account = Account {
        holder,
        security,
        held,
    };
    match accounts.find(&(holder, security)) {
        Some(spot) if held > 0 => {
            accounts.replace_at(spot, account);
        }
        Some(_) => {
            accounts.remove(&(holder, security));
        }
        None if held > 0 => accounts.insert(account),
        None => {}
    }
}

/// Moves par from one holder to another.
pub fn move_held(accounts: &mut Ordered<Account>, from: u32, to: u32, security: u32, par: u128)
    requires in_order { AreInOrder accounts.old.elements }
    requires none_empty { HoldSomething accounts.old.elements }
    requires room { 0 < accounts.old.spare }
    requires held { par ≤ held_in from security accounts.old.elements }
    requires sent { held_in from security accounts.old.elements < 2 ^ 128 }
    requires received { held_in to security accounts.old.elements + par < 2 ^ 128 }
    ensures accounts { accounts.new.elements ≡ moved from to security par accounts.old.elements }
    ensures one_more { length accounts.new.elements ≤ length accounts.old.elements + 1 }
    ensures room { accounts.old.spare ≤ accounts.new.spare + 1 }
{
    let sender = held_by(accounts, from, security);
    let receiver = held_by(accounts, to, security);
    set_held(accounts, from, security, sender - par);
    set_held(accounts, to, security, receiver + par);
}

// Puts those of these accounts that are of the security behind those that were paid.
fn pay_run(accounts: &[Account], security: u32, paid: &mut Vec<Account>)
    requires { length accounts.now + vec_len paid.old ≤ vec_capacity paid.old }
    ensures paid { paid.new.items ≡ paid.old.items ++ filter (is_of security) accounts.now }
    ensures capacity { vec_capacity paid.new ≡ vec_capacity paid.old }
{
    for account in accounts {
        if account.is_of(security) {
            paid.push_reserved(*account);
        }
    }
}

/// Puts the accounts of the security behind those that were paid.
pub fn pay_accounts(accounts: &Ordered<Account>, security: u32, paid: &mut Vec<Account>)
    requires { length accounts.now.elements + vec_len paid.old ≤ vec_capacity paid.old }
    ensures paid { paid.new.items ≡ paid.old.items ++ filter (is_of security) accounts.now.elements }
    ensures capacity { vec_capacity paid.new ≡ vec_capacity paid.old }
{
    let mut place = 0;
    while place < accounts.len() {
        let run = accounts.run_from(place);
        pay_run(run, security, paid);
        place += run.len();
    }
}

/// Takes out the accounts of the security.
pub fn close_accounts(accounts: &mut Ordered<Account>, security: u32)
    ensures accounts { accounts.new.elements ≡ without security accounts.old.elements }
    ensures room { accounts.new.spare ≡ accounts.old.spare }
{
    for place in (0..accounts.len()).rev() {
        let account = accounts.at(place);
        if account.is_of(security) {
            let key = (account.holder, account.security);
            accounts.remove(&key);
        }
    }
}
