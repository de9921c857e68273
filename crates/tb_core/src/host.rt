//! The host machine.
ghost use Rattle.std.specs.Prelude.{◌≡◌, ℕ, ℤ, List, ◌+◌, ◌*◌, ◌≤◌, ◌↔◌, true, false, is_some, Some, [], ◌∷◌, ◌++◌, length, nat_le, slice_get, IfOk, OnOk};
ghost use Rattle.std.specs.Option.{option_map};
ghost use Rattle.tb_units.specs.declared.moment.Moment.{Moment};
ghost use Rattle.tb_message.specs.declared.message.Entry.{Entry};
ghost use Rattle.tb_message.specs.declared.message.Message.TheVariants as message;
ghost use Rattle.tb_message.specs.declared.query.Query.TheVariants as query;
ghost use Rattle.tb_terms.specs.Rows.{refusal_in};
ghost use Rattle.tb_terms.specs.declared.announcement.Announcement.{Announcement};
ghost use Rattle.tb_history.specs.Roster.{add_on_of, add_ons, announcement_of, announcements, publications, registrations};
ghost use Rattle.tb_history.specs.Roster.{is_caller, is_published, is_registered, sent_by};
ghost use Rattle.tb_history.specs.Roster as roster;
ghost use Rattle.tb_history.specs.Tables.{par_rows, rows_of};
ghost use Rattle.tb_history.specs.Verdict.{is_permitted, verdict_on};
ghost use Rattle.tb_history.specs.Legal.{Follows, IsLegal, last_of};
ghost use Rattle.tb_history.specs.OwnPart.{own_part, depends_on_others};
ghost use Rattle.tb_history.specs.LiveBids.{bids, cancels};
ghost use Rattle.tb_history.specs.Answer.{asked_rows, asks_on, auction_rows, query_refusal, submitter_of};
ghost use Rattle.tb_history.specs.Holdings.{bidding_in};
ghost use Rattle.tb_history.specs.Moves.{has_bill};
ghost use Rattle.tb_history.specs.Readings.{AreAwards, AreHoldings, AreResults, IsReading, IsRedemption, OfAnnounced, bid_lines};
ghost use Rattle.tb_results.specs.Biddings.{AreBooked};
ghost use Rattle.tb_units.specs.declared.cents.Cents.{Cents};
ghost use Rattle.tb_history.specs.Funds.{balance_of};
ghost use Rattle.tb_core.specs.Conserved.{IsConserved};
ghost use Rattle.tb_core.specs.Funded.{IsFunded};
ghost use Rattle.tb_core.specs.CloseAwards.{IsClose};
ghost use Rattle.tb_core.specs.House.{EndsWithBid, IsHouse, room_of};
ghost use Rattle.tb_core.specs.Offered.{found_offer, is_gone};
ghost use Rattle.tb_tables.specs.Auctions.{announcement_in};
ghost use Rattle.tb_shelving.specs.Rooms.{Fits, KeepsRoom, TakesRoom, behind, behind_all};

use crate::books::book_of;
use crate::holdings::{holdings_lines, redemption_lines};
use crate::reading::{awards_reading, bid_lines, results_reading};
use crate::refused::QueryRefused;
use crate::standing::own_of;
use crate::tables::Tables;
use std::alloc::Global;
use std::marker::Model;
use tb_book::Book;
use tb_entries::Entries;
use tb_funds::{Offer, State};
use tb_history::{Awards, Bids, Holdings, Reading, Redemption, Results};
use tb_ledger::{find_pledge, free_par, holder_number, open_pledges};
use tb_message::{Entry, Message, Query, Verdict};
use tb_refusals::{
    add_on_refusal, announce_refusal, auction_refusal, bid_refusal, buy_refusal, cancel_refusal,
    deposit_refusal, enrol_refusal, holiday_refusal, is_permitted, may_ask, pledge_refusal,
    position_refusal, publish_refusal, redeem_refusal, redemption_refusal, register_refusal,
    release_refusal, repeated, retract_refusal, sell_refusal, settle_refusal, transfer_refusal,
    withdraw_refusal,
};
use tb_tables::{
    bill_terms, find_add_on, find_bid, find_submitter, has_bill, has_cancel, has_name,
    has_submitter, is_enrolled, is_operator, is_same, number_under, terms_at, terms_of,
    unsettled_terms,
};
use tb_terms::{Announcement, Cusip, EasternDays, Refusal, Terms};
use tb_units::{Cents, Dollars, Ident, Moment, OutOfMemory, Rate};

/// All that was accepted. Contracts see the history, which is legal, and for which messages there is room.
pub struct Host {
    days: EasternDays,
    entries: Entries,
    tables: Tables,
    room: usize,
}

// By hand, so that letting go of a host is one call wherever it happens: a derived one would be written out, table by
// table, at each way out of each function that has a host.
impl Drop for Host {
    fn drop(self) {
        let Host {
            days: _,
            entries: _,
            tables: _,
            room: _,
        } = self;
    }
}

impl Model for Host {
    ghost use Rattle.tb_core.specs.House.{House, IsHouse, room_of};

    ghost Value = { House };

    ghost view = { λ h. record { history = h.entries.list; room = room_of h.room h.tables } };

    ghost invariant = { λ h. IsHouse h.entries h.tables h.room };
}

// For so many entries room is taken at once, since each time all tables are looked at. A settlement may open an account
// for each bidder, so that room for more would be large.
const ROOM_AT_ONCE: usize = 8;

// Takes the room for so many entries in the tables, where there isn't so much yet.
fn reserve_rows(
    entries: &mut Entries,
    tables: &mut Tables,
    room: &mut usize,
    more: usize,
) -> Result<(), OutOfMemory>
    requires { IsHouse entries.old tables.old room.old }
    ensures enough { OnOk result (more ≤ room.new) }
    ensures house { IsHouse entries.new tables.new room.new }
    ensures history { entries.new.list ≡ entries.old.list }
    ensures room { KeepsRoom (room_of room.old tables.old) (room_of room.new tables.new) }
{
    if more <= *room {
        return Ok(());
    }
    let rows = more.max(ROOM_AT_ONCE);
    entries.reserve(rows)?;
    tables.reserve_rows(rows)?;
    *room = rows;
    Ok(())
}

// Takes the room for the messages of these entries, and then for these.
fn reserve(
    entries: &mut Entries,
    tables: &mut Tables,
    room: &mut usize,
    ahead: &[Entry],
    messages: &[(u64, Message)],
) -> Result<(), OutOfMemory>
    requires { IsHouse entries.old tables.old room.old }
    ensures fits { OnOk result (Fits (room_of room.new tables.new) (behind_all ahead.now messages.now)) }
    ensures house { IsHouse entries.new tables.new room.new }
    ensures history { entries.new.list ≡ entries.old.list }
    ensures room { KeepsRoom (room_of room.old tables.old) (room_of room.new tables.new) }
{
    reserve_rows(entries, tables, room, ahead.len() + messages.len())?;
    tables.reserve_ahead(ahead, messages)
}

// Enters an accepted entry everywhere.
fn enter(
    entries: &mut Entries,
    tables: &mut Tables,
    room: &mut usize,
    days: &EasternDays,
    entry: Entry,
)
    requires house { IsHouse entries.old tables.old room.old }
    requires follows { Follows entries.old.list entry }
    requires fits { Fits (room_of room.old tables.old) (entry.message ∷ []) }
    ensures house { IsHouse entries.new tables.new room.new }
    ensures history { entries.new.list ≡ entries.old.list ++ entry ∷ [] }
    ensures room { TakesRoom entry.message (room_of room.old tables.old) (room_of room.new tables.new) }
{
    tables.enter(
        entries,
        days,
        &entry.submitter,
        entry.number,
        entry.moment,
        &entry.message,
    );
    entries.push(&entry);
    *room -= 1;
}

// Takes the last entry back everywhere, which is a bid.
fn take_back(entries: &mut Entries, tables: &mut Tables, before: Moment)
    requires house { (room : ℕ) × IsHouse entries.old tables.old room }
    requires bid { EndsWithBid entries.old.list before }
    ensures house { (room : ℕ) → IsHouse entries.old tables.old room → IsHouse entries.new tables.new room }
    ensures history { (earlier : List Entry) (last : Entry) → entries.old.list ≡ earlier ++ last ∷ []
        → entries.new.list ≡ earlier }
    ensures room { (room : ℕ) → KeepsRoom (room_of room tables.old) (room_of room tables.new) }
{
    let _ = entries.pop();
    tables.take_back(before);
}

impl Host {
    // Accepted messages of one submitter.
    const MOST_MESSAGES: usize = 1_048_576;

    /// An empty host.
    pub fn new(alloc: Global) -> Result<Host, OutOfMemory>
        ensures { IfOk result (λ host. host.history ≡ []) }
    {
        let days = EasternDays::new(alloc)?;
        Ok(Host {
            days,
            entries: Entries::new(alloc),
            tables: Tables::new(alloc),
            room: 0,
        })
    }

    /// Takes the memory to apply the messages of the entries that are still undecided, and then this one. No other call
    /// takes memory but `make_room_group` and `read`.
    pub fn make_room(&mut self, ahead: &[Entry], message: &Message) -> Result<(), OutOfMemory>
        ensures fits { OnOk result (Fits self.new.room (behind ahead.now message.now)) }
        // The history stays, and no room is lost, whatever the result.
        ensures history { self.new.history ≡ self.old.history }
        ensures room { KeepsRoom self.old.room self.new.room }
    {
        self.make_room_group(ahead, &[(0, *message)])
    }

    /// Takes the memory to apply the messages of the entries that are still undecided, and then these in their order.
    pub fn make_room_group(
        &mut self,
        ahead: &[Entry],
        messages: &[(u64, Message)],
    ) -> Result<(), OutOfMemory>
        ensures fits { OnOk result (Fits self.new.room (behind_all ahead.now messages.now)) }
        // The history stays, and no room is lost, whatever the result.
        ensures history { self.new.history ≡ self.old.history }
        ensures room { KeepsRoom self.old.room self.new.room }
    {
        reserve(
            &mut self.entries,
            &mut self.tables,
            &mut self.room,
            ahead,
            messages,
        )
    }

    /// Whether there is room to apply the messages of these entries, and then this one.
    pub fn has_room(&self, ahead: &[Entry], message: &Message) -> bool
        ensures { (result ≡ true) ↔ Fits self.now.room (behind ahead.now message.now) }
    {
        self.has_room_group(ahead, &[(0, *message)])
    }

    /// Whether there is room to apply the messages of these entries, and then these in their order.
    pub fn has_room_group(&self, ahead: &[Entry], messages: &[(u64, Message)]) -> bool
        ensures { (result ≡ true) ↔ Fits self.now.room (behind_all ahead.now messages.now) }
    {
        if ahead.len() + messages.len() > self.room {
            return false;
        }
        self.tables.has_room_ahead(ahead, messages)
    }

    /// The submitter that is registered with the key.
    pub fn caller(&self, key: &Ident) -> Option<Ident>
        ensures { result ≡ submitter_of (registrations self.now.history) key.now }
    {
        find_submitter(&self.tables.submitters, key)
    }

    /// The moment of the accepted message of this submitter and number.
    pub fn kept(&self, submitter: &Ident, number: u64) -> Option<Moment>
        ensures { result ≡ option_map (λ entry. entry.moment) (roster.kept self.now.history submitter.now number) }
    {
        match self.entries.find(submitter, number) {
            Some(entry) => Some(entry.moment),
            None => None,
        }
    }

    /// The moment of the last entry, and the first moment there is where there is none.
    pub fn last(&self) -> Moment
        ensures { result.seconds ≡ last_of self.now.history }
    {
        self.tables.last
    }

    /// The entry at the place in the history. `None` where it has not so many.
    pub fn entry(&self, place: u64) -> Option<Entry>
        ensures { result ≡ slice_get self.now.history place }
    {
        self.entries.get(place as usize)
    }

    /// The auction whose results were published when so many had been before: none where there are not more.
    pub fn published(&self, place: u64) -> Option<Ident>
        ensures { result ≡ slice_get (publications self.now.history) place }
    {
        self.tables.published.rows().get(place as usize).copied()
    }

    /// How many entries the history has.
    pub fn entries(&self) -> u64
        ensures entries { result ≡ length self.now.history }
        ensures limit { length self.now.history ≤ 4097 * 1048576 }
        ensures legal { IsLegal self.now.history }
    {
        self.entries.len() as u64
    }

    /// The verdict on a message, which changes nothing.
    pub fn decide(
        &self,
        submitter: &Ident,
        number: u64,
        moment: Moment,
        message: &Message,
    ) -> Verdict
        ensures verdict { result ≡ verdict_on self.now.history submitter.now number moment message.now }
        // Par is conserved over all that was accepted, and so is money.
        ensures conserved { IsConserved self.now.history }
        ensures funded { IsFunded self.now.history }
        // Replies are sealed: they are those on the sender's own part of the history.
        ensures sealed { depends_on_others message.now ≡ false
            → result ≡ verdict_on (own_part submitter.now self.now.history) submitter.now number moment message.now }
    {
        let _ = &self.days;
        self.verdict(submitter, number, moment, message)
    }

    /// Adds an entry that was accepted. It takes no memory.
    pub fn apply(&mut self, entry: Entry)
        requires follows { Follows self.old.history entry }
        requires fits { Fits self.old.room (entry.message ∷ []) }
        ensures history { self.new.history ≡ self.old.history ++ entry ∷ [] }
        ensures conserved { IsConserved self.new.history }
        ensures funded { IsFunded self.new.history }
        ensures room { TakesRoom entry.message self.old.room self.new.room }
    {
        enter(
            &mut self.entries,
            &mut self.tables,
            &mut self.room,
            &self.days,
            entry,
        );
    }

    /// Takes back the last entry, which is a bid, where `before` is the moment of the entry before it, and the first
    /// moment there is where there is none. It takes no memory, and what fitted still fits.
    pub fn take_back(&mut self, before: Moment)
        requires { EndsWithBid self.old.history before }
        ensures history { (earlier : List Entry) (last : Entry) → self.old.history ≡ earlier ++ last ∷ []
            → self.new.history ≡ earlier }
        ensures room { KeepsRoom self.old.room self.new.room }
    {
        take_back(&mut self.entries, &mut self.tables, before);
    }

    /// What a query of the submitter is answered.
    pub fn read(
        &self,
        alloc: Global,
        submitter: &Ident,
        query: &Query,
    ) -> Result<Reading, QueryRefused>
        ensures refused { (refusal : Refusal) → (result ≡ Err (QueryRefused.Refused refusal))
            ↔ (query_refusal self.now.history submitter.now query.now ≡ Some refusal) }
        ensures reading { IfOk result (λ reading. IsReading self.now.history submitter.now query.now reading) }
        // Answers are sealed: a refusal is that on the submitter's own part of the history, and so is what is read on
        // an auction whose results aren't published.
        ensures sealed_refusal { (refusal : Refusal) → (result ≡ Err (QueryRefused.Refused refusal))
            ↔ (query_refusal (own_part submitter.now self.now.history) submitter.now query.now ≡ Some refusal) }
        ensures sealed_reading { (auction : List ℕ) → asks_on auction query.now ≡ true
            → is_published self.now.history auction ≡ false
            → IfOk result (λ reading. IsReading (own_part submitter.now self.now.history)
            submitter.now query.now reading) }
        ensures close { IfOk result (λ reading. IsClose self.now.history query.now reading) }
        // Par and money are conserved over all that is read.
        ensures conserved { IsConserved self.now.history }
        ensures funded { IsFunded self.now.history }
    {
        let _ = &self.days;
        if let Some(refusal) = self.query_refusal(submitter, query) {
            return Err(QueryRefused::Refused(refusal));
        }
        match self.reading(alloc, submitter, query) {
            Ok(reading) => Ok(reading),
            Err(_) => Err(QueryRefused::OutOfMemory),
        }
    }

    // The first refusal of the query whose cause holds.
    fn query_refusal(&self, caller: &Ident, query: &Query) -> Option<Refusal>
        ensures { result ≡ query_refusal self.now.history caller.now query.now }
    {
        if !self.is_caller(caller) {
            return Some(Refusal::UnknownKey);
        }
        if !may_ask(caller, query) {
            return Some(Refusal::NotPermitted);
        }
        self.asked_refusal(query)
    }

    // The first refusal of the query's own table.
    fn asked_refusal(&self, query: &Query) -> Option<Refusal>
        ensures { result ≡ refusal_in (asked_rows self.now.history query.now) }
    {
        match query {
            Query::Terms(auction) => self.auction_refusal(auction, false),
            Query::Results(auction) => self.auction_refusal(auction, true),
            Query::Awards(auction) => self.auction_refusal(auction, true),
            Query::Bids(auction) => self.auction_refusal(auction, false),
            Query::Holdings | Query::Funds => None,
            Query::Redemption(cusip) => self.redemption_refusal(cusip),
        }
    }

    fn auction_refusal(&self, auction: &Ident, shows_results: bool) -> Option<Refusal>
        ensures { result ≡ refusal_in
            (auction_rows (announcement_of (announcements self.now.history) auction.now) shows_results
            (is_published self.now.history auction.now)) }
    {
        let terms = terms_of(&self.tables.auctions, auction);
        let published = has_name(&self.tables.published, auction);
        auction_refusal(terms, shows_results, published)
    }

    fn redemption_refusal(&self, cusip: &Cusip) -> Option<Refusal>
        ensures { result ≡ refusal_in (asked_rows self.now.history (query.Redemption cusip.now)) }
    {
        let terms = bill_terms(&self.tables.auctions, cusip);
        let redeemed = has_bill(&self.tables.redeemed, cusip);
        redemption_refusal(terms, redeemed)
    }

    // What is read, where the query isn't refused.
    fn reading(&self, alloc: Global, caller: &Ident, query: &Query) -> Result<Reading, OutOfMemory>
        requires { query_refusal self.now.history caller.now query.now ≡ None }
        ensures { IfOk result (λ reading. IsReading self.now.history caller.now query.now reading) }
    {
        match query {
            Query::Terms(auction) => Ok(Reading::Terms(self.announced(auction).announcement)),
            Query::Results(auction) => Ok(Reading::Results(self.results(alloc, auction)?)),
            Query::Awards(auction) => Ok(Reading::Awards(self.awards(alloc, caller, auction)?)),
            Query::Bids(auction) => Ok(Reading::Bids(self.bids(alloc, caller, auction)?)),
            Query::Holdings => Ok(Reading::Holdings(self.holdings(alloc, caller)?)),
            Query::Redemption(cusip) => Ok(Reading::Redemption(self.redemption(alloc, cusip)?)),
            Query::Funds => Ok(Reading::Funds(self.balance(caller))),
        }
    }

    fn announced(&self, auction: &Ident) -> Terms
        requires { is_some (announcement_of (announcements self.now.history) auction.now) ≡ true }
        ensures { announcement_of (announcements self.now.history) auction.now ≡ Some result.announcement }
    {
        terms_of(&self.tables.auctions, auction).unwrap()
    }

    fn results(&self, alloc: Global, auction: &Ident) -> Result<Results, OutOfMemory>
        requires announced { is_some (announcement_of (announcements self.now.history) auction.now) ≡ true }
        requires published { is_published self.now.history auction.now ≡ true }
        ensures { IfOk result
            (λ results. OfAnnounced self.now.history auction.now
            (λ a. AreResults (bidding_in self.now.history a) (add_on_of (add_ons self.now.history) a.auction)
            results)) }
    {
        let terms = self.announced(auction);
        results_reading(alloc, &self.tables, &terms, self.book(auction))
    }

    fn awards(&self, alloc: Global, caller: &Ident, auction: &Ident) -> Result<Awards, OutOfMemory>
        requires announced { is_some (announcement_of (announcements self.now.history) auction.now) ≡ true }
        requires published { is_published self.now.history auction.now ≡ true }
        ensures { IfOk result
            (λ awards. OfAnnounced self.now.history auction.now
            (λ a. AreAwards self.now.history a caller.now awards)) }
    {
        let terms = self.announced(auction);
        awards_reading(alloc, &self.tables, &terms, self.book(auction), caller)
    }

    fn bids(&self, alloc: Global, caller: &Ident, auction: &Ident) -> Result<Bids, OutOfMemory>
        ensures { IfOk result
            (λ lines. lines ≡ bid_lines (bids self.now.history) (cancels self.now.history) caller.now auction.now) }
    {
        bid_lines(
            alloc,
            &self.tables.bids,
            &self.tables.cancels,
            caller,
            auction,
        )
    }

    fn holdings(&self, alloc: Global, caller: &Ident) -> Result<Holdings, OutOfMemory>
        requires { is_registered (registrations self.now.history) caller.now ≡ true }
        ensures { IfOk result (λ lines. AreHoldings self.now.history caller.now lines) }
    {
        holdings_lines(alloc, &self.tables, caller)
    }

    fn redemption(&self, alloc: Global, cusip: &Cusip) -> Result<Redemption, OutOfMemory>
        requires { has_bill (announcements self.now.history) cusip.now.bytes ≡ true }
        ensures { IfOk result (λ lines. IsRedemption self.now.history cusip.now lines) }
    {
        redemption_lines(alloc, &self.tables, cusip)
    }

    // The participant's balance.
    fn balance(&self, participant: &Ident) -> Cents
        ensures { result.value ≡ balance_of self.now.history participant.now }
    {
        let holder = holder_number(&self.tables.submitters, participant);
        self.tables.funds.balance(holder)
    }

    // The book of an announced auction, which is open once that is published.
    fn book(&self, auction: &Ident) -> &Book
        requires { is_some (announcement_of (announcements self.now.history) auction.now) ≡ true }
        ensures booked { (a : Announcement) → announcement_of (announcements self.now.history) auction.now ≡ Some a
            → AreBooked (bidding_in self.now.history a) result.now.lines }
        ensures opened { is_published self.now.history auction.now ≡ true → result.now.opened ≡ true }
    {
        book_of(&self.tables, auction).unwrap()
    }

    fn verdict(&self, submitter: &Ident, number: u64, moment: Moment, message: &Message) -> Verdict
        ensures { result ≡ verdict_on self.now.history submitter.now number moment message.now }
    {
        if !self.is_caller(submitter) {
            return Verdict::Refused(Refusal::UnknownKey);
        }
        if !is_permitted(submitter, message) {
            return Verdict::Refused(Refusal::NotPermitted);
        }
        if let Some(entry) = self.entries.find(submitter, number) {
            return repeated(&entry, message);
        }
        if self.has_sent_all(submitter) {
            return Verdict::Refused(Refusal::MessageQuota);
        }
        match self.refusal(submitter, moment, message) {
            Some(refusal) => Verdict::Refused(refusal),
            None => Verdict::Accepted { number, moment },
        }
    }

    // Whether the submitter has sent as many messages as it may. Nobody has where there are fewer entries.
    fn has_sent_all(&self, submitter: &Ident) -> bool
        ensures { result ≡ nat_le 1048576 (sent_by self.now.history submitter.now) }
    {
        self.entries.len() >= Host::MOST_MESSAGES
            && self.entries.count(submitter) >= Host::MOST_MESSAGES
    }

    fn is_caller(&self, submitter: &Ident) -> bool
        ensures { result ≡ is_caller (registrations self.now.history) submitter.now }
    {
        is_operator(submitter) || has_submitter(&self.tables.submitters, submitter)
    }

    // The first refusal of the message's own table whose cause holds.
    fn refusal(&self, sender: &Ident, moment: Moment, message: &Message) -> Option<Refusal>
        requires caller { is_caller (registrations self.now.history) sender.now ≡ true }
        requires permitted { is_permitted sender.now message.now ≡ true }
        ensures { result ≡ refusal_in (rows_of self.now.history sender.now moment message.now) }
    {
        match message {
            Message::Register { submitter, key } => {
                register_refusal(&self.tables.submitters, submitter, key)
            }
            Message::Enrol { bidder, submitter } => enrol_refusal(
                &self.tables.bidders,
                &self.tables.submitters,
                bidder,
                submitter,
            ),
            Message::Holiday { day } => holiday_refusal(&self.tables.holidays, *day),
            Message::Announce { terms } => self.announce(terms),
            Message::Bid {
                auction,
                bidder,
                rate,
                amount,
            } => self.bid(sender, moment, auction, bidder, *rate, *amount),
            Message::Cancel { auction, bid } => self.cancel(sender, moment, auction, *bid),
            Message::Position {
                auction,
                bidder,
                ..
            } => self.position(sender, moment, auction, bidder),
            Message::Publish { auction } => self.publish(moment, auction),
            Message::Settle { auction } => self.settle(moment, auction),
            Message::Transfer { cusip, to, amount } => {
                self.transfer(sender, moment, cusip, to, *amount)
            }
            Message::Pledge { cusip, to, amount } => {
                self.pledge(sender, moment, cusip, to, *amount)
            }
            Message::Release {
                holder,
                pledge,
                amount,
            } => self.release(sender, holder, *pledge, *amount),
            Message::Redeem { cusip } => self.redeem(moment, cusip),
            Message::AddOn {
                auction,
                holder,
                amount,
            } => self.add_on(moment, auction, holder, *amount),
            Message::Deposit { participant, .. } => self.deposit(participant),
            Message::Withdraw { participant, cents } => self.withdraw(participant, *cents),
            Message::Sell {
                cusip,
                to,
                amount,
                ..
            } => self.sell(sender, moment, cusip, to, *amount),
            Message::Buy { seller, offer } => self.buy(sender, moment, seller, *offer),
            Message::Retract { offer } => self.retract(sender, *offer),
        }
    }

    fn announce(&self, terms: &Announcement) -> Option<Refusal>
        ensures { (sender : List ℕ) (moment : Moment)
            → result ≡ refusal_in (rows_of self.now.history sender moment (message.Announce terms.now)) }
    {
        let redeemed = has_bill(&self.tables.redeemed, &terms.cusip);
        announce_refusal(&self.tables.auctions, redeemed, &self.days, terms)
    }

    fn bid(
        &self,
        sender: &Ident,
        moment: Moment,
        auction: &Ident,
        bidder: &Ident,
        rate: Option<Rate>,
        amount: Dollars,
    ) -> Option<Refusal>
        ensures { result ≡ refusal_in
            (rows_of self.now.history sender.now moment (message.Bid auction.now bidder.now rate amount)) }
    {
        let terms = terms_of(&self.tables.auctions, auction);
        let (number, enrolled) = number_under(&self.tables.bidders, bidder, sender);
        let own = own_of(&self.tables, auction, bidder, number);
        bid_refusal(terms, enrolled, &own, moment, rate, amount)
    }

    fn cancel(
        &self,
        sender: &Ident,
        moment: Moment,
        auction: &Ident,
        number: u64,
    ) -> Option<Refusal>
        ensures { result ≡ refusal_in (rows_of self.now.history sender.now moment (message.Cancel auction.now number)) }
    {
        let terms = terms_of(&self.tables.auctions, auction);
        let bid = find_bid(&self.entries, sender, auction, number);
        let cancelled = has_cancel(&self.tables.cancels, sender, auction, number);
        cancel_refusal(terms, bid, cancelled, moment)
    }

    fn position(
        &self,
        sender: &Ident,
        moment: Moment,
        auction: &Ident,
        bidder: &Ident,
    ) -> Option<Refusal>
        ensures { (position : ℤ)
            → result ≡ refusal_in
            (rows_of self.now.history sender.now moment (message.Position auction.now bidder.now position)) }
    {
        let terms = terms_of(&self.tables.auctions, auction);
        let enrolled = is_enrolled(&self.tables.bidders, bidder, sender);
        position_refusal(terms, enrolled, moment)
    }

    fn publish(&self, moment: Moment, auction: &Ident) -> Option<Refusal>
        ensures { (sender : List ℕ)
            → result ≡ refusal_in (rows_of self.now.history sender moment (message.Publish auction.now)) }
    {
        let terms = terms_of(&self.tables.auctions, auction);
        let published = has_name(&self.tables.published, auction);
        publish_refusal(terms, published, moment)
    }

    fn settle(&self, moment: Moment, auction: &Ident) -> Option<Refusal>
        ensures { (sender : List ℕ)
            → result ≡ refusal_in (rows_of self.now.history sender moment (message.Settle auction.now)) }
    {
        let terms = terms_of(&self.tables.auctions, auction);
        let published = has_name(&self.tables.published, auction);
        let settled = has_name(&self.tables.settled, auction);
        settle_refusal(terms, published, settled, moment)
    }

    fn transfer(
        &self,
        sender: &Ident,
        moment: Moment,
        cusip: &Cusip,
        to: &Ident,
        amount: Dollars,
    ) -> Option<Refusal>
        requires { is_registered (registrations self.now.history) sender.now ≡ true }
        ensures { result ≡ refusal_in (par_rows self.now.history sender.now moment cusip.now to.now amount.value) }
    {
        let terms = bill_terms(&self.tables.auctions, cusip);
        let known = has_submitter(&self.tables.submitters, to);
        let own = is_same(to, sender);
        let redeemed = has_bill(&self.tables.redeemed, cusip);
        let free = free_par(
            &self.tables.accounts,
            &self.tables.submitters,
            &self.tables.auctions,
            sender,
            cusip,
        );
        transfer_refusal(terms, known, own, redeemed, free, moment, amount)
    }

    fn pledge(
        &self,
        sender: &Ident,
        moment: Moment,
        cusip: &Cusip,
        to: &Ident,
        amount: Dollars,
    ) -> Option<Refusal>
        requires { is_registered (registrations self.now.history) sender.now ≡ true }
        ensures { result ≡ refusal_in
            (rows_of self.now.history sender.now moment (message.Pledge cusip.now to.now amount)) }
    {
        let as_transfer = self.transfer(sender, moment, cusip, to, amount);
        let open_marks = open_pledges(&self.tables.accounts, &self.tables.submitters, sender);
        pledge_refusal(as_transfer, open_marks)
    }

    fn release(
        &self,
        sender: &Ident,
        holder: &Ident,
        number: u64,
        amount: Dollars,
    ) -> Option<Refusal>
        requires { is_registered (registrations self.now.history) sender.now ≡ true }
        ensures { (moment : Moment)
            → result ≡ refusal_in
            (rows_of self.now.history sender.now moment (message.Release holder.now number amount)) }
    {
        let found = find_pledge(
            &self.tables.accounts,
            &self.tables.submitters,
            holder,
            number,
        );
        let caller = holder_number(&self.tables.submitters, sender);
        release_refusal(found, caller, amount)
    }

    fn redeem(&self, moment: Moment, cusip: &Cusip) -> Option<Refusal>
        ensures { (sender : List ℕ)
            → result ≡ refusal_in (rows_of self.now.history sender moment (message.Redeem cusip.now)) }
    {
        let terms = bill_terms(&self.tables.auctions, cusip);
        let redeemed = has_bill(&self.tables.redeemed, cusip);
        let unsettled = unsettled_terms(&self.tables.auctions, &self.tables.settled, cusip);
        redeem_refusal(
            &self.days,
            &self.tables.calendar,
            terms,
            redeemed,
            unsettled,
            moment,
        )
    }

    fn add_on(
        &self,
        moment: Moment,
        auction: &Ident,
        holder: &Ident,
        amount: Dollars,
    ) -> Option<Refusal>
        ensures { (sender : List ℕ)
            → result ≡ refusal_in
            (rows_of self.now.history sender moment (message.AddOn auction.now holder.now amount)) }
    {
        let terms = terms_of(&self.tables.auctions, auction);
        let known = has_submitter(&self.tables.submitters, holder);
        let standing = find_add_on(&self.tables.add_ons, auction).is_some();
        add_on_refusal(terms, known, standing, moment, amount)
    }

    fn deposit(&self, participant: &Ident) -> Option<Refusal>
        ensures { (sender : List ℕ) (moment : Moment) (cents : Cents)
            → result ≡ refusal_in (rows_of self.now.history sender moment (message.Deposit participant.now cents)) }
    {
        deposit_refusal(has_submitter(&self.tables.submitters, participant))
    }

    fn withdraw(&self, participant: &Ident, cents: Cents) -> Option<Refusal>
        ensures { (sender : List ℕ) (moment : Moment)
            → result ≡ refusal_in (rows_of self.now.history sender moment (message.Withdraw participant.now cents)) }
    {
        let known = has_submitter(&self.tables.submitters, participant);
        withdraw_refusal(known, self.balance(participant), cents)
    }

    fn sell(
        &self,
        sender: &Ident,
        moment: Moment,
        cusip: &Cusip,
        to: &Ident,
        amount: Dollars,
    ) -> Option<Refusal>
        ensures { (price : Cents)
            → result ≡ refusal_in
            (rows_of self.now.history sender.now moment (message.Sell cusip.now to.now amount price)) }
    {
        let terms = bill_terms(&self.tables.auctions, cusip);
        let known = has_submitter(&self.tables.submitters, to);
        let own = is_same(to, sender);
        let redeemed = has_bill(&self.tables.redeemed, cusip);
        let seller = holder_number(&self.tables.submitters, sender);
        let open_offers = self.tables.funds.open_offers(seller);
        sell_refusal(terms, known, own, redeemed, open_offers, moment, amount)
    }

    // The seller's offer of this number, and what became of it.
    fn offer(&self, seller: &Ident, number: u64) -> Option<(Offer, State)>
        ensures { result ≡ found_offer self.now.history seller.now number }
    {
        let holder = holder_number(&self.tables.submitters, seller);
        self.tables.funds.find(holder, number)
    }

    fn buy(&self, sender: &Ident, moment: Moment, seller: &Ident, number: u64) -> Option<Refusal>
        ensures { result ≡ refusal_in
            (rows_of self.now.history sender.now moment (message.Buy seller.now number)) }
    {
        let Some((offer, state)) = self.offer(seller, number) else {
            return Some(Refusal::UnknownOffer);
        };
        let caller = holder_number(&self.tables.submitters, sender);
        let terms = terms_at(&self.tables.auctions, offer.security);
        let redeemed = self.is_redeemed(&terms);
        let free = self.tables.accounts.free(offer.seller, offer.security);
        let balance = self.balance(sender);
        buy_refusal(
            Some((offer, state)),
            caller,
            redeemed,
            terms,
            free,
            balance,
            moment,
        )
    }

    // Whether the bill of these terms is redeemed.
    fn is_redeemed(&self, terms: &Option<Terms>) -> bool
        ensures { result ≡ is_gone self.now.history (announcement_in terms.now) }
    {
        match terms {
            Some(terms) => has_bill(&self.tables.redeemed, &terms.announcement.cusip),
            None => false,
        }
    }

    fn retract(&self, sender: &Ident, number: u64) -> Option<Refusal>
        ensures { (moment : Moment)
            → result ≡ refusal_in (rows_of self.now.history sender.now moment (message.Retract number)) }
    {
        retract_refusal(self.offer(sender, number))
    }
}
