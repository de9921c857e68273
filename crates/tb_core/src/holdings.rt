//! What a participant holds, and what the holders of a redeemed bill were paid, line by line.
ghost use Rattle.std.specs.Prelude.{◌≡◌, ℕ, ◌^◌, ◌<◌, ◌≤◌, ◌∷◌, ◌++◌, [], List, true, All, filter, length, nat_lt, IfOk, IfSome, IsNone, OnOk};
ghost use Rattle.tb_terms.specs.declared.announcement.Announcement.{Announcement};
ghost use Rattle.tb_terms.specs.declared.cusip.Cusip.{Cusip};
ghost use Rattle.tb_message.specs.declared.message.Entry.{Entry};
ghost use Rattle.tb_history.specs.declared.roster.Registration.{Registration};
ghost use Rattle.tb_history.specs.Roster.{registrations, announcements, bill_of, is_registered};
ghost use Rattle.tb_history.specs.Holdings.{paid_to};
ghost use Rattle.tb_history.specs.Moves.{has_bill};
ghost use Rattle.tb_history.specs.Readings.{AreHoldings, AreHoldingLines, ArePaidLines, IsRedemption};
ghost use Rattle.tb_history.specs.Readings as readings;
ghost use Rattle.tb_tables.specs.Auctions.{announced_in};
ghost use Rattle.tb_ledger.specs.Accounting.{numbers_in};
ghost use Rattle.tb_core.specs.Shown.{HasNoLine, IsLineOf, IsShown, IsPaidOut, is_shown};
ghost use Rattle.tb_core.specs.House.{AreTied, AreFew};

use crate::tables::Tables;
use std::alloc::Global;
use tb_history::{HoldingLine, Holdings, Listing, PaidLine, Redemption, Registration};
use tb_holdings::Accounts;
use tb_ledger::{bill_number, holder_number};
use tb_tables::{Auctions, bill_terms, is_same};
use tb_terms::{Cusip, Terms};
use tb_units::{Ident, OutOfMemory};

// Whether of all auctions of its bill this one was announced first.
fn is_first(auctions: &Auctions, terms: &Terms) -> bool
    ensures { result ≡ readings.is_first (bill_of (announced_in auctions.now.list) terms.now.announcement.cusip)
        terms.now.announcement }
{
    match bill_terms(auctions, &terms.announcement.cusip) {
        Some(first) => is_same(&first.announcement.auction, &terms.announcement.auction),
        None => false,
    }
}

fn line_of(accounts: &Accounts, holder: u32, security: u32, cusip: &Cusip) -> HoldingLine
    ensures { IsLineOf accounts.now holder security cusip.now result }
{
    HoldingLine {
        cusip: *cusip,
        held: accounts.held(holder, security),
        pledged: accounts.pledged(holder, security),
        free: accounts.free(holder, security),
    }
}

// The line of the bill, where this is its first auction and the participant holds some of it.
fn shown_line(tables: &Tables, holder: u32, terms: &Terms) -> Option<HoldingLine>
    requires { length tables.now.auctions.list < 2 ^ 32 }
    ensures { (history : List Entry) (participant : List ℕ) → AreTied history tables.now
        → is_registered (registrations history) participant ≡ true
        → holder ≡ (numbers_in tables.now.submitters.list tables.now.auctions.list).holder participant
        → IsShown history participant terms.now.announcement result }
{
    if !is_first(&tables.auctions, terms) {
        return None;
    }
    let cusip = &terms.announcement.cusip;
    let security = bill_number(&tables.auctions, cusip);
    let line = line_of(&tables.accounts, holder, security, cusip);
    if line.held.value == 0 {
        return None;
    }
    Some(line)
}

// Adds that line, if there is one.
fn add_shown(
    lines: &mut Holdings,
    tables: &Tables,
    holder: u32,
    terms: &Terms,
) -> Result<(), OutOfMemory>
    requires { length tables.now.auctions.list < 2 ^ 32 }
    ensures { OnOk result ((history : List Entry) (participant : List ℕ) (front : List Announcement)
        → AreTied history tables.now
        → is_registered (registrations history) participant ≡ true
        → holder ≡ (numbers_in tables.now.submitters.list tables.now.auctions.list).holder participant
        → AreHoldingLines history participant (filter (is_shown history participant) front) lines.old
        → AreHoldingLines history participant
        (filter (is_shown history participant) (front ++ terms.now.announcement ∷ [])) lines.new) }
{
    match shown_line(tables, holder, terms) {
        Some(line) => lines.push(line),
        None => Ok(()),
    }
}

// The place of the next auction, from this place on, at which the holder has an account. No auction between has a line.
fn next_shown(tables: &Tables, holder: u32, from: u32) -> Option<u32>
    ensures within { IfSome result (λ place. (from ≤ place) × (place < length tables.now.auctions.list)) }
    ensures none_between { IfSome result (λ place. HasNoLine tables.now holder from place) }
    ensures none { IsNone result → HasNoLine tables.now holder from (length tables.now.auctions.list) }
{
    let place = tables.accounts.next_held(holder, from)?;
    if (place as usize) < tables.auctions.rows().len() {
        return Some(place);
    }
    None
}

// A holder's accounts stand in the order of the bills' first announcements, so that they are gone through alone.
fn shown_lines(alloc: Global, tables: &Tables, holder: u32) -> Result<Holdings, OutOfMemory>
    requires { length tables.now.auctions.list < 2 ^ 32 }
    ensures { IfOk result (λ lines. (history : List Entry) (participant : List ℕ) → AreTied history tables.now
        → is_registered (registrations history) participant ≡ true
        → holder ≡ (numbers_in tables.now.submitters.list tables.now.auctions.list).holder participant
        → AreHoldingLines history participant
        (filter (is_shown history participant) (announced_in tables.now.auctions.list)) lines) }
{
    let auctions = tables.auctions.rows();
    let mut lines = Listing::new(alloc);
    let mut from = 0;
    while let Some(place) = next_shown(tables, holder, from) {
        add_shown(&mut lines, tables, holder, &auctions[place as usize])?;
        from = place + 1;
    }
    Ok(lines)
}

/// The bills that the participant holds, in the order of their first announcement.
pub fn holdings_lines(
    alloc: Global,
    tables: &Tables,
    participant: &Ident,
) -> Result<Holdings, OutOfMemory>
    requires { AreFew tables.now }
    ensures { IfOk result (λ lines. (history : List Entry) → AreTied history tables.now
        → is_registered (registrations history) participant.now ≡ true
        → AreHoldings history participant.now lines) }
{
    let holder = holder_number(&tables.submitters, participant);
    shown_lines(alloc, tables, holder)
}

// The line of the submitter, where it was paid something.
fn paid_line(tables: &Tables, registration: &Registration, security: u32) -> Option<PaidLine>
    requires { length tables.now.submitters.list < 2 ^ 32 }
    ensures { (history : List Entry) (cusip : Cusip) → AreTied history tables.now
        → has_bill (announcements history) cusip.bytes ≡ true
        → is_registered (registrations history) registration.now.submitter ≡ true
        → security ≡ (numbers_in tables.now.submitters.list tables.now.auctions.list).security cusip.bytes
        → IsPaidOut history cusip registration.now result }
{
    let holder = holder_number(&tables.submitters, &registration.submitter);
    let paid = tables.accounts.paid(holder, security);
    if paid.value == 0 {
        return None;
    }
    Some(PaidLine {
        holder: registration.submitter,
        paid,
    })
}

// Adds that line, if there is one.
fn add_paid(
    lines: &mut Redemption,
    tables: &Tables,
    registration: &Registration,
    security: u32,
) -> Result<(), OutOfMemory>
    requires { length tables.now.submitters.list < 2 ^ 32 }
    ensures { OnOk result ((history : List Entry) (cusip : Cusip) (front : List Registration)
        → AreTied history tables.now
        → has_bill (announcements history) cusip.bytes ≡ true
        → is_registered (registrations history) registration.now.submitter ≡ true
        → security ≡ (numbers_in tables.now.submitters.list tables.now.auctions.list).security cusip.bytes
        → ArePaidLines history cusip (filter (λ (r : Registration). nat_lt 0 (paid_to history r.submitter cusip)) front)
        lines.old
        → ArePaidLines history cusip
        (filter (λ (r : Registration). nat_lt 0 (paid_to history r.submitter cusip))
        (front ++ registration.now ∷ [])) lines.new) }
{
    match paid_line(tables, registration, security) {
        Some(line) => lines.push(line),
        None => Ok(()),
    }
}

fn paid_lines(
    alloc: Global,
    tables: &Tables,
    holders: &[Registration],
    security: u32,
) -> Result<Redemption, OutOfMemory>
    requires { length tables.now.submitters.list < 2 ^ 32 }
    ensures { IfOk result (λ lines. (history : List Entry) (cusip : Cusip) → AreTied history tables.now
        → has_bill (announcements history) cusip.bytes ≡ true
        → All (λ (r : Registration). is_registered (registrations history) r.submitter ≡ true) holders.now
        → security ≡ (numbers_in tables.now.submitters.list tables.now.auctions.list).security cusip.bytes
        → ArePaidLines history cusip
        (filter (λ (r : Registration). nat_lt 0 (paid_to history r.submitter cusip)) holders.now) lines) }
{
    let mut lines = Listing::new(alloc);
    for registration in holders {
        add_paid(&mut lines, tables, registration, security)?;
    }
    Ok(lines)
}

/// Those that were paid for the bill, in the order of registration.
pub fn redemption_lines(
    alloc: Global,
    tables: &Tables,
    cusip: &Cusip,
) -> Result<Redemption, OutOfMemory>
    requires { AreFew tables.now }
    ensures { IfOk result (λ lines. (history : List Entry) → AreTied history tables.now
        → has_bill (announcements history) cusip.now.bytes ≡ true
        → IsRedemption history cusip.now lines) }
{
    let security = bill_number(&tables.auctions, cusip);
    paid_lines(alloc, tables, tables.submitters.rows(), security)
}
