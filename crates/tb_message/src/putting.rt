//! Entries, spelled as records.
ghost use Rattle.std.specs.Prelude.{◌≡◌, ◌+◌, ◌≤◌, ◌^◌, ◌++◌, length, Some, None};
ghost use Rattle.tb_message.specs.Forms.{text, whole, signed};
ghost use Rattle.tb_message.specs.Forms as form;
ghost use Rattle.tb_message.specs.Spelling.{spelled, spelling, fields_of, FitsFields, IsInRange};
ghost use Rattle.tb_message.specs.declared.message.Message.TheVariants as messages;
ghost use Rattle.tb_message.specs.declared.version.Version.TheVariants as versions;

use crate::message::{Entry, Message};
use crate::record::Record;
use tb_terms::{Announcement, Cusip};
use tb_units::{Cents, Day, Dollars, Ident, Moment, Rate};

impl Record {
    #[tactic(auto, unfolding(crate::specs::Spelling::spelled))]
    fn amount(&mut self, amount: Dollars)
        requires room { length self.old ≤ 500 }
        requires range { amount.value ≤ 10 ^ 12 }
        ensures amount { self.new ≡ self.old ++ spelled form.amount (whole amount.value) }
        ensures size { length self.new ≡ length self.old + 8 }
    {
        self.push(&(amount.value as u64).to_be_bytes());
    }

    #[tactic(auto, unfolding(crate::specs::Spelling::spelled))]
    fn money(&mut self, money: Cents)
        requires room { length self.old ≤ 500 }
        requires range { money.value ≤ 10 ^ 14 }
        ensures money { self.new ≡ self.old ++ spelled form.money (whole money.value) }
        ensures size { length self.new ≡ length self.old + 8 }
    {
        self.push(&(money.value as u64).to_be_bytes());
    }

    #[tactic(auto, unfolding(crate::specs::Spelling::spelled))]
    fn number(&mut self, number: u64)
        requires room { length self.old ≤ 500 }
        ensures number { self.new ≡ self.old ++ spelled form.number (whole number) }
        ensures size { length self.new ≡ length self.old + 8 }
    {
        self.push(&number.to_be_bytes());
    }

    #[tactic(auto, unfolding(crate::specs::Spelling::spelled))]
    fn position(&mut self, position: i64)
        requires room { length self.old ≤ 500 }
        ensures position { self.new ≡ self.old ++ spelled form.position (signed position) }
        ensures size { length self.new ≡ length self.old + 8 }
    {
        self.push(&position.to_be_bytes());
    }

    #[tactic(auto, unfolding(crate::specs::Spelling::spelled))]
    fn rate(&mut self, rate: Rate)
        requires room { length self.old ≤ 500 }
        ensures rate { self.new ≡ self.old ++ spelled form.rate (whole rate.steps) }
        ensures size { length self.new ≡ length self.old + 4 }
    {
        self.push(&rate.steps.to_be_bytes());
    }

    #[tactic(auto, unfolding(crate::specs::Spelling::spelled))]
    fn day(&mut self, day: Day)
        requires room { length self.old ≤ 500 }
        ensures day { self.new ≡ self.old ++ spelled form.day (whole day.number) }
        ensures size { length self.new ≡ length self.old + 4 }
    {
        self.push(&day.number.to_be_bytes());
    }

    #[tactic(auto, unfolding(crate::specs::Spelling::spelled))]
    fn moment(&mut self, moment: Moment)
        requires room { length self.old ≤ 500 }
        ensures moment { self.new ≡ self.old ++ spelled (form.moment versions.Second) (whole moment.seconds) }
        ensures size { length self.new ≡ length self.old + 8 }
    {
        self.push(&moment.seconds.to_be_bytes());
    }

    #[tactic(auto, unfolding(crate::specs::Spelling::spelled))]
    fn minute(&mut self, minute: u16)
        requires room { length self.old ≤ 500 }
        ensures minute { self.new ≡ self.old ++ spelled form.minute (whole minute) }
        ensures size { length self.new ≡ length self.old + 2 }
    {
        self.push(&minute.to_be_bytes());
    }

    #[tactic(auto, unfolding(crate::specs::Spelling::spelled))]
    fn cusip(&mut self, cusip: &Cusip)
        requires room { length self.old ≤ 500 }
        ensures cusip { self.new ≡ self.old ++ spelled form.cusip (text cusip.now.bytes) }
        ensures size { length self.new ≡ length self.old + 9 }
    {
        self.push(&cusip.bytes);
    }

    #[tactic(auto, unfolding(crate::specs::Spelling::spelled))]
    fn name(&mut self, name: &Ident)
        requires room { length self.old ≤ 470 }
        ensures name { self.new ≡ self.old ++ spelled form.name (text name.now) }
        ensures size { length self.new ≤ length self.old + 33 }
    {
        let bytes = name.bytes();
        self.push(&[bytes.len() as u8]);
        self.push(bytes);
    }

    #[tactic(auto, using(crate::proofs::Texts::joined))]
    fn names(&mut self, first: &Ident, second: &Ident)
        requires room { length self.old ≤ 100 }
        ensures { self.new ≡ self.old ++ (spelled form.name (text first.now) ++ spelled form.name (text second.now)) }
    {
        self.name(first);
        self.name(second);
    }

    #[tactic(auto, using(crate::proofs::Texts::joined))]
    fn terms(&mut self, terms: &Announcement)
        requires room { length self.old ≤ 100 }
        requires range { FitsFields (messages.Announce terms.now) }
        ensures { self.new ≡ self.old ++ fields_of (messages.Announce terms.now) }
    {
        self.name(&terms.auction);
        self.cusip(&terms.cusip);
        self.amount(terms.offering);
        self.amount(terms.minimum);
        self.amount(terms.nc_ceiling);
        self.amount(terms.competitive_floor);
        self.amount(terms.nlp_threshold);
        self.day(terms.auction_date);
        self.minute(terms.nc_close);
        self.minute(terms.c_close);
        self.day(terms.issue);
        self.day(terms.maturity);
    }

    #[tactic(auto, using(crate::proofs::Texts::joined))]
    fn bid(&mut self, auction: &Ident, bidder: &Ident, rate: Rate, amount: Dollars)
        requires room { length self.old ≤ 100 }
        requires range { FitsFields (messages.Bid auction.now bidder.now (Some rate) amount) }
        ensures { self.new ≡ self.old ++ fields_of (messages.Bid auction.now bidder.now (Some rate) amount) }
    {
        self.name(auction);
        self.name(bidder);
        self.rate(rate);
        self.amount(amount);
    }

    #[tactic(auto, using(crate::proofs::Texts::joined))]
    fn noncompetitive(&mut self, auction: &Ident, bidder: &Ident, amount: Dollars)
        requires room { length self.old ≤ 100 }
        requires range { FitsFields (messages.Bid auction.now bidder.now None amount) }
        ensures { self.new ≡ self.old ++ fields_of (messages.Bid auction.now bidder.now None amount) }
    {
        self.name(auction);
        self.name(bidder);
        self.amount(amount);
    }

    // A cancel, or a purchase: their fields are alike.
    #[tactic(auto, using(crate::proofs::Texts::joined))]
    fn cancel(&mut self, auction: &Ident, bid: u64)
        requires room { length self.old ≤ 100 }
        ensures { self.new ≡ self.old ++ fields_of (messages.Cancel auction.now bid) }
    {
        self.name(auction);
        self.number(bid);
    }

    #[tactic(auto, using(crate::proofs::Texts::joined))]
    fn position_report(&mut self, auction: &Ident, bidder: &Ident, position: i64)
        requires room { length self.old ≤ 100 }
        ensures { self.new ≡ self.old ++ fields_of (messages.Position auction.now bidder.now position) }
    {
        self.name(auction);
        self.name(bidder);
        self.position(position);
    }

    // A transfer, or a pledge: their fields are alike.
    #[tactic(auto, using(crate::proofs::Texts::joined))]
    fn movement(&mut self, cusip: &Cusip, to: &Ident, amount: Dollars)
        requires room { length self.old ≤ 100 }
        requires range { FitsFields (messages.Transfer cusip.now to.now amount) }
        ensures { self.new ≡ self.old ++ fields_of (messages.Transfer cusip.now to.now amount) }
    {
        self.cusip(cusip);
        self.name(to);
        self.amount(amount);
    }

    #[tactic(auto, using(crate::proofs::Texts::joined))]
    fn release(&mut self, holder: &Ident, pledge: u64, amount: Dollars)
        requires room { length self.old ≤ 100 }
        requires range { FitsFields (messages.Release holder.now pledge amount) }
        ensures { self.new ≡ self.old ++ fields_of (messages.Release holder.now pledge amount) }
    {
        self.name(holder);
        self.number(pledge);
        self.amount(amount);
    }

    #[tactic(auto, using(crate::proofs::Texts::joined))]
    fn add_on(&mut self, auction: &Ident, holder: &Ident, amount: Dollars)
        requires room { length self.old ≤ 100 }
        requires range { FitsFields (messages.AddOn auction.now holder.now amount) }
        ensures { self.new ≡ self.old ++ fields_of (messages.AddOn auction.now holder.now amount) }
    {
        self.name(auction);
        self.name(holder);
        self.amount(amount);
    }

    // A deposit, or a withdrawal: their fields are alike.
    #[tactic(auto, using(crate::proofs::Texts::joined))]
    fn cash(&mut self, participant: &Ident, cents: Cents)
        requires room { length self.old ≤ 100 }
        requires range { FitsFields (messages.Deposit participant.now cents) }
        ensures { self.new ≡ self.old ++ fields_of (messages.Deposit participant.now cents) }
    {
        self.name(participant);
        self.money(cents);
    }

    #[tactic(auto, using(crate::proofs::Texts::joined))]
    fn sell(&mut self, cusip: &Cusip, to: &Ident, amount: Dollars, price: Cents)
        requires room { length self.old ≤ 100 }
        requires range { FitsFields (messages.Sell cusip.now to.now amount price) }
        ensures { self.new ≡ self.old ++ fields_of (messages.Sell cusip.now to.now amount price) }
    {
        self.cusip(cusip);
        self.name(to);
        self.amount(amount);
        self.money(price);
    }

    #[tactic(auto, using(crate::proofs::Texts::joined))]
    fn body(&mut self, message: &Message)
        requires room { length self.old ≤ 100 }
        requires range { FitsFields message.now }
        ensures { self.new ≡ self.old ++ fields_of message.now }
    {
        match message {
            Message::Register { submitter, key } => self.names(submitter, key),
            Message::Enrol { bidder, submitter } => self.names(bidder, submitter),
            Message::Holiday { day } => self.day(*day),
            Message::Announce { terms } => self.terms(terms),
            Message::Bid {
                auction,
                bidder,
                rate: Some(rate),
                amount,
            } => self.bid(auction, bidder, *rate, *amount),
            Message::Bid {
                auction,
                bidder,
                rate: None,
                amount,
            } => self.noncompetitive(auction, bidder, *amount),
            Message::Cancel { auction, bid } => self.cancel(auction, *bid),
            Message::Position {
                auction,
                bidder,
                position,
            } => self.position_report(auction, bidder, *position),
            Message::Publish { auction } | Message::Settle { auction } => self.name(auction),
            Message::Transfer { cusip, to, amount } | Message::Pledge { cusip, to, amount } => {
                self.movement(cusip, to, *amount)
            }
            Message::Release {
                holder,
                pledge,
                amount,
            } => self.release(holder, *pledge, *amount),
            Message::Redeem { cusip } => self.cusip(cusip),
            Message::AddOn {
                auction,
                holder,
                amount,
            } => self.add_on(auction, holder, *amount),
            Message::Deposit { participant, cents } | Message::Withdraw { participant, cents } => {
                self.cash(participant, *cents)
            }
            Message::Sell {
                cusip,
                to,
                amount,
                price,
            } => self.sell(cusip, to, *amount, *price),
            Message::Buy { seller, offer } => self.cancel(seller, *offer),
            Message::Retract { offer } => self.number(*offer),
        }
    }
}

impl Entry {
    /// The record of the entry: its one spelling.
    #[tactic(auto, using(crate::proofs::Texts::joined))]
    pub fn put(&self) -> Record
        requires { IsInRange self.now }
        ensures { result ≡ spelling self.now }
    {
        let mut record = Record::new();
        record.name(&self.submitter);
        record.number(self.number);
        record.moment(self.moment);
        record.push(&[self.message.kind().tag()]);
        record.body(&self.message);
        record
    }
}
