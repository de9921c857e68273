//! The accounts of participants in bills, and what a message moves in them (31 CFR Part 357, Subpart B).
ghost use Rattle.std.specs.Prelude.{◌≡◌, ◌+◌, ◌*◌, ◌^◌, ◌<◌, ◌≤◌, ◌↔◌, [], None, Some, false, length, IfSome, IsNone, OnOk};
ghost use Rattle.std.specs.List.{position, position_or_len};
ghost use Rattle.tb_holdings.specs.Book.{TakesRoom, free_of, mark_of, open_marks_of};
ghost use Rattle.tb_holdings.specs.Marks.{new_mark};
ghost use Rattle.tb_movements.specs.Movements.{Transferred, Pledged, Released, Redeemed};
ghost use Rattle.tb_history.specs.Entries.{is_same};
ghost use Rattle.tb_history.specs.Moves.{movement_by};
ghost use Rattle.tb_history.specs.Trades.{is_purchase};
ghost use Rattle.tb_tables.specs.Kinds.{settles};
ghost use Rattle.tb_tables.specs.Auctions.{announced_in};
ghost use Rattle.tb_ledger.specs.Accounting.{numbers_in, IsReady, TellsNext, TellsSame};

use tb_history::Registration;
use tb_holdings::{Accounts, Mark};
use tb_message::Message;
use tb_movements::{pledge, redeem, release, reserve, transfer};
use tb_tables::{Auctions, Submitters, is_same, place_of_bill};
use tb_terms::Cusip;
use tb_units::{Dollars, Ident, OutOfMemory};

/// Makes it sure that so many messages can be entered, where so many bidders are enrolled. A settlement may open an
/// account for each bidder and one for the holder of an add-on, and each message may enrol one more.
pub fn reserve_accounts(
    accounts: &mut Accounts,
    bidders: usize,
    more: usize,
) -> Result<(), OutOfMemory>
    ensures accounts { OnOk result (more * (bidders + more + 1) ≤ accounts.new.spare_accounts) }
    ensures marks { OnOk result (more ≤ accounts.new.spare_marks) }
    ensures redeems { OnOk result (more ≤ accounts.new.spare_redeems) }
    // The book stays, and no room is lost, whatever the result.
    ensures same { TellsSame accounts.old accounts.new }
    ensures room { TakesRoom 0 0 0 accounts.old accounts.new }
{
    let opened = bidders.checked_add(more).ok_or(OutOfMemory)?;
    let opened = opened.checked_add(1).ok_or(OutOfMemory)?;
    let opened = opened.checked_mul(more).ok_or(OutOfMemory)?;
    reserve(accounts, opened as u64, more as u64, more as u64)
}

fn place_of_submitter(submitters: &Submitters, name: &Ident) -> Option<usize>
    ensures { result ≡ position (λ r. is_same r.submitter name.now) submitters.now.list }
{
    submitters.named().find(name)
}

/// A participant's number in the accounts: its place in the order of registration.
pub fn holder_number(submitters: &Submitters, name: &Ident) -> u32
    requires { length submitters.now.list < 2 ^ 32 }
    ensures { result ≡ position_or_len (λ r. is_same r.submitter name.now) submitters.now.list }
{
    match place_of_submitter(submitters, name) {
        Some(place) => place as u32,
        None => submitters.rows().len() as u32,
    }
}

/// A bill's number in the accounts: the place of its first announcement.
pub fn bill_number(auctions: &Auctions, cusip: &Cusip) -> u32
    requires { length auctions.now.list < 2 ^ 32 }
    ensures { result ≡ position_or_len (λ a. is_same a.cusip.bytes cusip.now.bytes) (announced_in auctions.now.list) }
{
    match place_of_bill(auctions, cusip) {
        Some(place) => place as u32,
        None => auctions.rows().len() as u32,
    }
}

/// What the participant can transfer or pledge of the bill.
pub fn free_par(
    accounts: &Accounts,
    submitters: &Submitters,
    auctions: &Auctions,
    name: &Ident,
    cusip: &Cusip,
) -> Dollars
    requires submitters { length submitters.now.list < 2 ^ 32 }
    requires auctions { length auctions.now.list < 2 ^ 32 }
    ensures { result.value
        ≡ free_of ((numbers_in submitters.now.list auctions.now.list).holder name.now)
        ((numbers_in submitters.now.list auctions.now.list).security cusip.now.bytes) accounts.now }
{
    let holder = holder_number(submitters, name);
    let security = bill_number(auctions, cusip);
    accounts.free(holder, security)
}

/// How many pledges of the participant are open.
pub fn open_pledges(accounts: &Accounts, submitters: &Submitters, name: &Ident) -> u64
    requires { length submitters.now.list < 2 ^ 32 }
    ensures { result ≡ open_marks_of (position_or_len (λ r. is_same r.submitter name.now) submitters.now.list)
        accounts.now }
{
    accounts.open_marks(holder_number(submitters, name))
}

/// The participant's pledge of this number.
pub fn find_pledge(
    accounts: &Accounts,
    submitters: &Submitters,
    name: &Ident,
    number: u64,
) -> Option<Mark>
    requires { length submitters.now.list < 2 ^ 32 }
    ensures none { IsNone result
        ↔ (mark_of (position_or_len (λ r. is_same r.submitter name.now) submitters.now.list) number accounts.now
        ≡ None) }
    ensures found { IfSome result
        (λ mark. mark_of (position_or_len (λ r. is_same r.submitter name.now) submitters.now.list) number accounts.now
        ≡ Some (new_mark (position_or_len (λ r. is_same r.submitter name.now) submitters.now.list)
        number mark.pledgee mark.security mark.left.value)) }
{
    accounts.mark(holder_number(submitters, name), number)
}

/// Moves par from one participant to another: what a transfer says, or a purchase.
pub fn enter_transfer(accounts: &mut Accounts, from: u32, to: u32, security: u32, par: Dollars)
    requires room { 0 < accounts.old.spare_accounts }
    requires ready { IsReady (Some (Transferred from to security par.value)) accounts.old }
    ensures told { TellsNext (Some (Transferred from to security par.value)) accounts.old accounts.new }
    ensures room { TakesRoom 1 1 1 accounts.old accounts.new }
{
    let _ = transfer(accounts, from, to, security, par);
}

fn enter_pledge(
    accounts: &mut Accounts,
    holder: u32,
    number: u64,
    pledgee: u32,
    security: u32,
    par: Dollars,
)
    requires room { 0 < accounts.old.spare_marks }
    requires ready { IsReady (Some (Pledged holder number pledgee security par.value)) accounts.old }
    ensures told { TellsNext (Some (Pledged holder number pledgee security par.value)) accounts.old accounts.new }
    ensures room { TakesRoom 1 1 1 accounts.old accounts.new }
{
    let _ = pledge(accounts, holder, number, pledgee, security, par);
}

fn enter_release(accounts: &mut Accounts, holder: u32, number: u64, caller: u32, par: Dollars)
    requires ready { IsReady (Some (Released holder number caller par.value)) accounts.old }
    ensures told { TellsNext (Some (Released holder number caller par.value)) accounts.old accounts.new }
    ensures room { TakesRoom 1 1 1 accounts.old accounts.new }
{
    let _ = release(accounts, holder, number, caller, par);
}

fn enter_redemption(accounts: &mut Accounts, security: u32)
    requires room { 0 < accounts.old.spare_redeems }
    requires ready { IsReady (Some (Redeemed security)) accounts.old }
    ensures told { TellsNext (Some (Redeemed security)) accounts.old accounts.new }
    ensures room { TakesRoom 1 1 1 accounts.old accounts.new }
{
    let _ = redeem(accounts, security);
}

/// Moves what a message of a sender under its number moves, unless it settles an auction or buys an offer. None that
/// moves par is refused.
pub fn account(
    accounts: &mut Accounts,
    submitters: &Submitters,
    auctions: &Auctions,
    sender: &Ident,
    number: u64,
    message: &Message,
)
    requires plain { settles message.now ≡ false }
    requires unbought { is_purchase message.now ≡ false }
    requires submitters { length submitters.now.list < 2 ^ 32 }
    requires auctions { length auctions.now.list < 2 ^ 32 }
    requires accounts { 0 < accounts.old.spare_accounts }
    requires marks { 0 < accounts.old.spare_marks }
    requires redeems { 0 < accounts.old.spare_redeems }
    requires ready { IsReady
        (movement_by (numbers_in submitters.now.list auctions.now.list) [] sender.now number message.now) accounts.old }
    ensures told { TellsNext
        (movement_by (numbers_in submitters.now.list auctions.now.list) [] sender.now number message.now)
        accounts.old accounts.new }
    ensures room { TakesRoom 1 1 1 accounts.old accounts.new }
{
    match message {
        Message::Transfer { cusip, to, amount } => {
            let from = holder_number(submitters, sender);
            let to = holder_number(submitters, to);
            let security = bill_number(auctions, cusip);
            enter_transfer(accounts, from, to, security, *amount);
        }
        Message::Pledge { cusip, to, amount } => {
            let holder = holder_number(submitters, sender);
            let pledgee = holder_number(submitters, to);
            let security = bill_number(auctions, cusip);
            enter_pledge(accounts, holder, number, pledgee, security, *amount);
        }
        Message::Release {
            holder,
            pledge,
            amount,
        } => {
            let holder = holder_number(submitters, holder);
            let caller = holder_number(submitters, sender);
            enter_release(accounts, holder, *pledge, caller, *amount);
        }
        Message::Redeem { cusip } => {
            let security = bill_number(auctions, cusip);
            enter_redemption(accounts, security);
        }
        // These move nothing, and the caller rules a settlement and a purchase out.
        Message::Register { .. }
        | Message::Enrol { .. }
        | Message::Holiday { .. }
        | Message::Announce { .. }
        | Message::Bid { .. }
        | Message::Cancel { .. }
        | Message::Position { .. }
        | Message::Publish { .. }
        | Message::Settle { .. }
        | Message::AddOn { .. }
        | Message::Deposit { .. }
        | Message::Withdraw { .. }
        | Message::Sell { .. }
        | Message::Buy { .. }
        | Message::Retract { .. } => {}
    }
}
