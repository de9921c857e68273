//! The tables of the host together.
ghost use Rattle.std.specs.Prelude.{◌≡◌, ℕ, ◌+◌, ◌≤◌, ◌<◌, ◌^◌, ◌↔◌, true, List, Some, [], length, OnOk};
ghost use Rattle.tb_shelving.specs.Rooms.{HasRoomAhead, behind_all};
ghost use Rattle.tb_tables.specs.Kinds.{settles};
ghost use Rattle.tb_ledger.specs.Settling.{HasScratch};
ghost use Rattle.tb_shelf.specs.Shelves.{book_in, is_open};
ghost use Rattle.tb_shelving.specs.Shelving.{TakesMessage};
ghost use Rattle.tb_movements.specs.Told.{IsTold};
ghost use Rattle.tb_holdings.specs.Book.{TakesRoom};
ghost use Rattle.tb_message.specs.declared.message.Entry.{Entry};
ghost use Rattle.tb_history.specs.Legal.{IsLegal};
ghost use Rattle.tb_history.specs.LiveBids.{bids};
ghost use Rattle.tb_history.specs.Roster.{announcement_of, announcements};
ghost use Rattle.tb_tables.specs.Auctions.{IsInOrder, announced_in};
ghost use Rattle.tb_ledger.specs.Accounting.{IsReady, TellsNext};
ghost use Rattle.tb_funds.specs.Funds as funds;
ghost use Rattle.tb_funds.specs.Funds.{offer_of};
ghost use Rattle.tb_ledger.specs.Accounting.{numbers_in};
ghost use Rattle.tb_cashbook.specs.Cashbook as cashbook;
ghost use Rattle.tb_cashbook.specs.Cashbook.{Means, TellsFunds};
ghost use Rattle.tb_core.specs.Crediting.{HasSettleRoom, cash_in, movement_in, settled_in, sold_in};
ghost use Rattle.tb_core.specs.House.{AreFew, AreSame, AreTied, HasEntered, HasMoneyRoom, HasRoom, HasRows, IsTakenBack, KeepsRows};

use std::alloc::Global;
use tb_cashbook::{CashMovement, enter_cash, no_funds};
use tb_entries::{Bids, Entries};
use tb_funds::{Funds, Offer};
use tb_holdings::Accounts;
use tb_index::{Keyed, Latest, Named, TwiceKeyed};
use tb_ledger::{
    Scratch, account, bill_number, credit_awards, cut_auction, enter_transfer, holder_number,
    reserve_accounts,
};
use tb_message::{Entry, Message};
use tb_movements::empty_book;
use tb_shelf::Shelf;
use tb_shelving::{count_announced, enter_line, has_settlement, have_places, reserve_places};
use tb_tables::{
    AddOns, Auctions, Bidders, Bills, Calendar, Cancels, Holidays, Names, Reports, Submitters,
    enter_add_on, enter_auction, enter_bid, enter_bidder, enter_calendar, enter_cancel,
    enter_holiday, enter_published, enter_redeemed, enter_report, enter_settled, enter_submitter,
    find_add_on, number_of, terms_of,
};
use tb_terms::{EasternDays, Terms};
use tb_units::{Ident, Moment, OutOfMemory};

/// What the history says of each kind, in its order, the books of its live bids, and the moment of its last entry; and
/// what a settlement works in.
#[derive(Drop)]
pub struct Tables {
    pub submitters: Submitters,
    pub bidders: Bidders,
    pub holidays: Holidays,
    pub calendar: Calendar,
    pub auctions: Auctions,
    pub bids: Bids,
    pub cancels: Cancels,
    pub reports: Reports,
    pub published: Names,
    pub settled: Names,
    pub redeemed: Bills,
    pub add_ons: AddOns,
    pub shelf: Shelf,
    pub scratch: Scratch,
    pub accounts: Accounts,
    pub funds: Funds,
    pub last: Moment,
}

impl Tables {
    /// Empty tables, which take no memory.
    pub fn new(alloc: Global) -> Tables
        ensures roster { (result.submitters.list ≡ []) × (result.bidders.list ≡ []) × (result.holidays.list ≡ [])
            × (result.calendar.list ≡ []) }
        ensures auctions { (result.auctions.list ≡ []) × (result.published.list ≡ []) × (result.settled.list ≡ [])
            × (result.redeemed.list ≡ []) × (result.add_ons.list ≡ []) }
        ensures bids { (result.bids.list ≡ []) × (result.cancels.list ≡ []) × (result.reports.list ≡ []) }
        ensures shelf { (result.shelf.books ≡ []) × (result.scratch.lasts ≡ 0) }
        ensures accounts { IsTold [] result.accounts }
        ensures funds { TellsFunds [] result.funds }
        ensures last { result.last.seconds ≡ 946702800 }
    {
        Tables {
            submitters: TwiceKeyed::new(alloc),
            bidders: Named::new(alloc),
            holidays: Keyed::new(alloc),
            calendar: Calendar::new(alloc),
            auctions: TwiceKeyed::new(alloc),
            bids: Bids::new(alloc),
            cancels: Keyed::new(alloc),
            reports: Latest::new(alloc),
            published: Named::new(alloc),
            settled: Named::new(alloc),
            redeemed: Named::new(alloc),
            add_ons: Named::new(alloc),
            shelf: Shelf::new(alloc),
            scratch: Scratch::new(alloc),
            accounts: empty_book(alloc),
            funds: no_funds(alloc),
            last: Moment {
                seconds: Moment::FIRST,
            },
        }
    }

    /// Makes so many adds sure in each table, and so many places in each book that stands ready.
    pub fn reserve_rows(&mut self, more: usize) -> Result<(), OutOfMemory>
        ensures spare { OnOk result (HasRoom more self.new) }
        // The rows stay, and no room is lost, whatever the result.
        ensures same { AreSame self.old self.new }
        ensures room { (room : ℕ) → HasRoom room self.old → HasRoom room self.new }
        ensures scratch { self.new.scratch ≡ self.old.scratch }
    {
        self.submitters.reserve(more)?;
        self.bidders.reserve(more)?;
        self.holidays.reserve(more)?;
        self.calendar.reserve(more)?;
        self.auctions.reserve(more)?;
        self.bids.reserve(more)?;
        self.cancels.reserve(more)?;
        self.reports.reserve(more)?;
        self.published.reserve(more)?;
        self.settled.reserve(more)?;
        self.redeemed.reserve(more)?;
        self.add_ons.reserve(more)?;
        self.funds.reserve(more as u64, more as u64)?;
        reserve_accounts(&mut self.accounts, self.bidders.rows().len(), more)?;
        self.shelf.prepare(0, more as u64)
    }

    /// Takes the room that books and settlements need for the messages of these entries, and then for these.
    pub fn reserve_ahead(
        &mut self,
        ahead: &[Entry],
        messages: &[(u64, Message)],
    ) -> Result<(), OutOfMemory>
        requires { HasScratch (length self.old.bids.list) (length self.old.bidders.list) self.old.scratch }
        ensures ahead { OnOk result
            (HasRoomAhead self.new.shelf self.new.scratch.lasts (behind_all ahead.now messages.now)) }
        // The rows stay, and no room is lost, whatever the result.
        ensures same { AreSame self.old self.new }
        ensures room { (room : ℕ) → HasRoom room self.old → HasRoom room self.new }
        ensures scratch { HasScratch (length self.new.bids.list) (length self.new.bidders.list) self.new.scratch }
    {
        let more = ahead.len() + messages.len();
        self.shelf
            .prepare(count_announced(ahead, messages), more as u64)?;
        reserve_places(&mut self.shelf, ahead, messages, more as u64)?;
        if has_settlement(ahead, messages) {
            let bids = self.bids.len();
            let bidders = self.bidders.rows().len();
            self.scratch.reserve(bids, bidders, more)?;
        }
        Ok(())
    }

    /// Whether books and settlements have the room for the messages of these entries, and then for these.
    pub fn has_room_ahead(&self, ahead: &[Entry], messages: &[(u64, Message)]) -> bool
        ensures { (result ≡ true)
            ↔ HasRoomAhead self.now.shelf self.now.scratch.lasts (behind_all ahead.now messages.now) }
    {
        if count_announced(ahead, messages) > self.shelf.ready() {
            return false;
        }
        let more = ahead.len() + messages.len();
        if !have_places(&self.shelf, ahead, messages, more as u64) {
            return false;
        }
        if has_settlement(ahead, messages) {
            return more <= self.scratch.lasts;
        }
        true
    }

    // Credits what is awarded in the announced auction of these terms, which is cut by its book, which is open.
    fn settle_by(&mut self, terms: &Terms)
        requires tied { (history : List Entry) × AreTied history self.old
            × (announcement_of (announcements history) terms.now.announcement.auction ≡ Some terms.now.announcement) }
        requires opened { is_open (book_in self.old.shelf.books terms.now.announcement.auction) ≡ true }
        requires room { HasSettleRoom self.old }
        requires accounts { length self.old.bidders.list + 1 ≤ self.old.accounts.spare_accounts }
        requires numbered { AreFew self.old }
        requires ready { IsReady (settled_in self.old (Some terms.now.announcement)) self.old.accounts }
        ensures keeps { KeepsRows self.old self.new }
        ensures told { TellsNext (settled_in self.old (Some terms.now.announcement))
            self.old.accounts self.new.accounts }
        ensures room { TakesRoom (length self.old.bidders.list + 1) 0 0 self.old.accounts self.new.accounts }
        ensures funds { self.new.funds ≡ self.old.funds }
    {
        if let Some(book) = self.shelf.book(&terms.announcement.auction) {
            let outcome = cut_auction(&mut self.scratch, &self.bidders, &self.reports, terms, book);
            let security = bill_number(&self.auctions, &terms.announcement.cusip);
            let add_on = find_add_on(&self.add_ons, &terms.announcement.auction);
            credit_awards(
                &mut self.accounts,
                &mut self.scratch,
                &self.submitters,
                self.bidders.rows(),
                security,
                &outcome,
                book,
                &add_on,
            );
        }
    }

    // Credits what is awarded in the auction.
    fn settle(&mut self, auction: &Ident)
        requires tied { (history : List Entry) × AreTied history self.old }
        requires opened { is_open (book_in self.old.shelf.books auction.now) ≡ true }
        requires room { HasSettleRoom self.old }
        requires accounts { length self.old.bidders.list + 1 ≤ self.old.accounts.spare_accounts }
        requires numbered { AreFew self.old }
        requires ready { IsReady
            (settled_in self.old (announcement_of (announced_in self.old.auctions.list) auction.now))
            self.old.accounts }
        ensures keeps { KeepsRows self.old self.new }
        ensures told { TellsNext
            (settled_in self.old (announcement_of (announced_in self.old.auctions.list) auction.now))
            self.old.accounts self.new.accounts }
        ensures room { TakesRoom (length self.old.bidders.list + 1) 0 0 self.old.accounts self.new.accounts }
        ensures funds { self.new.funds ≡ self.old.funds }
    {
        if let Some(terms) = terms_of(&self.auctions, auction) {
            self.settle_by(&terms);
        }
    }

    // Moves the par of the seller's offer of this number.
    fn sell(&mut self, seller: &Ident, number: u64)
        requires numbered { AreFew self.old }
        requires accounts { 0 < self.old.accounts.spare_accounts }
        requires ready { IsReady
            (sold_in (offer_of ((numbers_in self.old.submitters.list self.old.auctions.list).holder seller.now) number
            self.old.funds)) self.old.accounts }
        ensures keeps { KeepsRows self.old self.new }
        ensures told { TellsNext
            (sold_in (offer_of ((numbers_in self.old.submitters.list self.old.auctions.list).holder seller.now) number
            self.old.funds)) self.old.accounts self.new.accounts }
        ensures room { TakesRoom 1 1 1 self.old.accounts self.new.accounts }
        ensures funds { self.new.funds ≡ self.old.funds }
    {
        let seller = holder_number(&self.submitters, seller);
        if let Some((offer, _)) = self.funds.find(seller, number) {
            enter_transfer(
                &mut self.accounts,
                offer.seller,
                offer.buyer,
                offer.security,
                offer.par,
            );
        }
    }

    // Moves what a message of a sender under its number moves.
    fn move_par(&mut self, sender: &Ident, number: u64, message: &Message)
        requires tied { (history : List Entry) × AreTied history self.old }
        requires takes { TakesMessage self.old.bidders.list sender.now number message.now self.old.shelf }
        requires room { HasRoom 1 self.old }
        requires settling { settles message.now ≡ true → HasSettleRoom self.old }
        requires numbered { AreFew self.old }
        requires ready { IsReady (movement_in self.old sender.now number message.now) self.old.accounts }
        ensures keeps { KeepsRows self.old self.new }
        ensures told { TellsNext (movement_in self.old sender.now number message.now)
            self.old.accounts self.new.accounts }
        ensures room { TakesRoom (length self.old.bidders.list + 1) 1 1 self.old.accounts self.new.accounts }
        ensures funds { self.new.funds ≡ self.old.funds }
    {
        match message {
            Message::Settle { auction } => self.settle(auction),
            Message::Buy { seller, offer } => self.sell(seller, *offer),
            _ => account(
                &mut self.accounts,
                &self.submitters,
                &self.auctions,
                sender,
                number,
                message,
            ),
        }
    }

    // Adds the rows of a message of a sender under its number. The entries are those before it.
    fn enter_rows(
        &mut self,
        entries: &Entries,
        days: &EasternDays,
        sender: &Ident,
        number: u64,
        moment: Moment,
        message: &Message,
    )
        requires legal { IsLegal entries.now.list }
        requires tied { self.old.bids.list ≡ bids entries.now.list }
        requires room { HasRows 1 self.old }
        requires order { IsInOrder message.now }
        requires few { length self.old.bidders.list < 2 ^ 32 }
        requires takes { TakesMessage self.old.bidders.list sender.now number message.now self.old.shelf }
        ensures entered { HasEntered sender.now number message.now self.old self.new }
        ensures room { (room : ℕ) → HasRows (room + 1) self.old → HasRows room self.new }
        ensures accounts { self.new.accounts ≡ self.old.accounts }
        ensures funds { self.new.funds ≡ self.old.funds }
        ensures last { self.new.last ≡ moment }
    {
        enter_line(
            &mut self.shelf,
            &self.bidders,
            entries,
            sender,
            number,
            message,
        );
        self.scratch.take();
        self.last = moment;
        match message {
            Message::Register { .. } => enter_submitter(&mut self.submitters, message),
            Message::Enrol { .. } => enter_bidder(&mut self.bidders, message),
            Message::Holiday { .. } => {
                enter_holiday(&mut self.holidays, message);
                enter_calendar(&mut self.calendar, message);
            }
            Message::Announce { .. } => enter_auction(&mut self.auctions, days, message),
            Message::Bid { .. } => enter_bid(&mut self.bids, sender, number, message),
            Message::Cancel { .. } => enter_cancel(&mut self.cancels, sender, message),
            Message::Position { .. } => enter_report(&mut self.reports, sender, message),
            Message::Publish { .. } => enter_published(&mut self.published, message),
            Message::Settle { .. } => enter_settled(&mut self.settled, message),
            Message::Redeem { .. } => enter_redeemed(&mut self.redeemed, message),
            Message::AddOn { .. } => enter_add_on(&mut self.add_ons, message),
            // What else moves par or money has no row.
            Message::Transfer { .. }
            | Message::Pledge { .. }
            | Message::Release { .. }
            | Message::Deposit { .. }
            | Message::Withdraw { .. }
            | Message::Sell { .. }
            | Message::Buy { .. }
            | Message::Retract { .. } => {}
        }
    }

    // What a message of a sender under its number does to the funds, if it does anything.
    fn cash_in(&self, sender: &Ident, number: u64, message: &Message) -> Option<CashMovement>
        requires { AreFew self.now }
        ensures { result ≡ cash_in self.now sender.now number message.now }
    {
        match message {
            Message::Deposit { participant, cents } => Some(CashMovement::Deposited {
                holder: holder_number(&self.submitters, participant),
                cents: *cents,
            }),
            Message::Withdraw { participant, cents } => Some(CashMovement::Withdrawn {
                holder: holder_number(&self.submitters, participant),
                cents: *cents,
            }),
            Message::Sell {
                cusip,
                to,
                amount,
                price,
            } => Some(CashMovement::Offered {
                offer: Offer {
                    seller: holder_number(&self.submitters, sender),
                    number,
                    buyer: holder_number(&self.submitters, to),
                    security: bill_number(&self.auctions, cusip),
                    par: *amount,
                    price: *price,
                },
            }),
            Message::Buy { seller, offer } => Some(CashMovement::Bought {
                seller: holder_number(&self.submitters, seller),
                number: *offer,
            }),
            Message::Retract { offer } => Some(CashMovement::Retracted {
                seller: holder_number(&self.submitters, sender),
                number: *offer,
            }),
            // No other message changes the funds.
            _ => None,
        }
    }

    // Does it to the funds.
    fn enter_money(&mut self, sender: &Ident, number: u64, message: &Message)
        requires room { HasMoneyRoom 1 self.old.funds }
        requires numbered { AreFew self.old }
        requires next { cashbook.CanEnter (Means (cash_in self.old sender.now number message.now)) self.old.funds }
        ensures told { cashbook.TellsNext (Means (cash_in self.old sender.now number message.now))
            self.old.funds self.new.funds }
        ensures keeps { KeepsRows self.old self.new }
        ensures accounts { self.new.accounts ≡ self.old.accounts }
        ensures room { funds.TakesRoom 1 1 self.old.funds self.new.funds }
    {
        if let Some(cash) = self.cash_in(sender, number, message) {
            enter_cash(&mut self.funds, &cash);
        }
    }

    // Moves what a message of a sender under its number moves, par and money: both, since nothing here is refused.
    fn move_all(&mut self, sender: &Ident, number: u64, message: &Message)
        requires tied { (history : List Entry) × AreTied history self.old }
        requires takes { TakesMessage self.old.bidders.list sender.now number message.now self.old.shelf }
        requires room { HasRoom 1 self.old }
        requires settling { settles message.now ≡ true → HasSettleRoom self.old }
        requires numbered { AreFew self.old }
        requires ready { IsReady (movement_in self.old sender.now number message.now) self.old.accounts }
        requires next { cashbook.CanEnter (Means (cash_in self.old sender.now number message.now)) self.old.funds }
        ensures keeps { KeepsRows self.old self.new }
        ensures told { TellsNext (movement_in self.old sender.now number message.now)
            self.old.accounts self.new.accounts }
        ensures funds { cashbook.TellsNext (Means (cash_in self.old sender.now number message.now))
            self.old.funds self.new.funds }
        ensures room { TakesRoom (length self.old.bidders.list + 1) 1 1 self.old.accounts self.new.accounts }
        ensures spends { funds.TakesRoom 1 1 self.old.funds self.new.funds }
    {
        self.move_par(sender, number, message);
        self.enter_money(sender, number, message);
    }

    /// Takes the last bid back with its line, where the entry before it has this moment.
    pub fn take_back(&mut self, before: Moment)
        requires some { ¬ (self.old.bids.list ≡ []) }
        requires few { length self.old.bidders.list < 2 ^ 32 }
        ensures { IsTakenBack before self.old self.new }
    {
        let bid = self.bids.pop().unwrap();
        let bidder = number_of(&self.bidders, &bid.bidder);
        self.shelf
            .take_out(&bid.auction, bid.rate, bidder, bid.number);
        self.last = before;
    }

    /// Enters what a message of a sender under its number says, and moves what it moves. The entries are those before
    /// it.
    pub fn enter(
        &mut self,
        entries: &Entries,
        days: &EasternDays,
        sender: &Ident,
        number: u64,
        moment: Moment,
        message: &Message,
    )
        requires tied { AreTied entries.now.list self.old }
        requires room { HasRoom 1 self.old }
        requires order { IsInOrder message.now }
        requires few { length self.old.bidders.list < 2 ^ 32 }
        requires takes { TakesMessage self.old.bidders.list sender.now number message.now self.old.shelf }
        requires settling { settles message.now ≡ true → HasSettleRoom self.old }
        requires numbered { AreFew self.old }
        requires ready { IsReady (movement_in self.old sender.now number message.now) self.old.accounts }
        requires next { cashbook.CanEnter (Means (cash_in self.old sender.now number message.now)) self.old.funds }
        ensures entered { HasEntered sender.now number message.now self.old self.new }
        ensures told { TellsNext (movement_in self.old sender.now number message.now)
            self.old.accounts self.new.accounts }
        ensures funds { cashbook.TellsNext (Means (cash_in self.old sender.now number message.now))
            self.old.funds self.new.funds }
        ensures room { (room : ℕ) → HasRoom (room + 1) self.old → HasRoom room self.new }
        ensures last { self.new.last ≡ moment }
    {
        self.move_all(sender, number, message);
        self.enter_rows(entries, days, sender, number, moment, message);
    }
}
