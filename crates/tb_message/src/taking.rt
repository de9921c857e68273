//! Entries, read from the front of the bytes.
ghost use Rattle.std.specs.Prelude.{◌≡◌, IfSome, IfNone};
ghost use Rattle.std.specs.Option.{option_map};
ghost use Rattle.tb_message.specs.Messages.{kind_of, parts_of};
ghost use Rattle.tb_message.specs.Reading.{message_at, tagged_at, entry_at};
ghost use Rattle.tb_message.specs.Spelling.{IsTaken, IsTakenIn, IsNoRecordIn, head_of};
ghost use Rattle.tb_message.specs.declared.kind.Kind.TheVariants as kinds;
ghost use Rattle.tb_message.specs.declared.version.Version.TheVariants as versions;

use crate::fields::Fields;
use crate::kind::Kind;
use crate::message::{Entry, Message};
use crate::version::Version;
use tb_terms::Announcement;

impl<'a> Fields<'a> {
    fn register(&mut self) -> Option<Message>
        ensures { option_map (λ m. (kind_of m, parts_of m, self.new.rest.now)) result
            ≡ message_at kinds.Register self.old.rest.now }
    {
        Some(Message::Register {
            submitter: self.name()?,
            key: self.name()?,
        })
    }

    fn enrol(&mut self) -> Option<Message>
        ensures { option_map (λ m. (kind_of m, parts_of m, self.new.rest.now)) result
            ≡ message_at kinds.Enrol self.old.rest.now }
    {
        Some(Message::Enrol {
            bidder: self.name()?,
            submitter: self.name()?,
        })
    }

    fn holiday(&mut self) -> Option<Message>
        ensures { option_map (λ m. (kind_of m, parts_of m, self.new.rest.now)) result
            ≡ message_at kinds.Holiday self.old.rest.now }
    {
        Some(Message::Holiday { day: self.day()? })
    }

    fn announce(&mut self) -> Option<Message>
        ensures { option_map (λ m. (kind_of m, parts_of m, self.new.rest.now)) result
            ≡ message_at kinds.Announce self.old.rest.now }
    {
        Some(Message::Announce {
            terms: Announcement {
                auction: self.name()?,
                cusip: self.cusip()?,
                offering: self.amount()?,
                minimum: self.amount()?,
                nc_ceiling: self.amount()?,
                competitive_floor: self.amount()?,
                nlp_threshold: self.amount()?,
                auction_date: self.day()?,
                nc_close: self.minute()?,
                c_close: self.minute()?,
                issue: self.day()?,
                maturity: self.day()?,
            },
        })
    }

    fn bid(&mut self) -> Option<Message>
        ensures { option_map (λ m. (kind_of m, parts_of m, self.new.rest.now)) result
            ≡ message_at kinds.Bid self.old.rest.now }
    {
        Some(Message::Bid {
            auction: self.name()?,
            bidder: self.name()?,
            rate: Some(self.rate()?),
            amount: self.amount()?,
        })
    }

    fn noncompetitive(&mut self) -> Option<Message>
        ensures { option_map (λ m. (kind_of m, parts_of m, self.new.rest.now)) result
            ≡ message_at kinds.Noncompetitive self.old.rest.now }
    {
        Some(Message::Bid {
            auction: self.name()?,
            bidder: self.name()?,
            rate: None,
            amount: self.amount()?,
        })
    }

    fn cancel(&mut self) -> Option<Message>
        ensures { option_map (λ m. (kind_of m, parts_of m, self.new.rest.now)) result
            ≡ message_at kinds.Cancel self.old.rest.now }
    {
        Some(Message::Cancel {
            auction: self.name()?,
            bid: self.number()?,
        })
    }

    fn position_report(&mut self) -> Option<Message>
        ensures { option_map (λ m. (kind_of m, parts_of m, self.new.rest.now)) result
            ≡ message_at kinds.Position self.old.rest.now }
    {
        Some(Message::Position {
            auction: self.name()?,
            bidder: self.name()?,
            position: self.position()?,
        })
    }

    fn publish(&mut self) -> Option<Message>
        ensures { option_map (λ m. (kind_of m, parts_of m, self.new.rest.now)) result
            ≡ message_at kinds.Publish self.old.rest.now }
    {
        Some(Message::Publish {
            auction: self.name()?,
        })
    }

    fn settle(&mut self) -> Option<Message>
        ensures { option_map (λ m. (kind_of m, parts_of m, self.new.rest.now)) result
            ≡ message_at kinds.Settle self.old.rest.now }
    {
        Some(Message::Settle {
            auction: self.name()?,
        })
    }

    fn transfer(&mut self) -> Option<Message>
        ensures { option_map (λ m. (kind_of m, parts_of m, self.new.rest.now)) result
            ≡ message_at kinds.Transfer self.old.rest.now }
    {
        Some(Message::Transfer {
            cusip: self.cusip()?,
            to: self.name()?,
            amount: self.amount()?,
        })
    }

    fn pledge(&mut self) -> Option<Message>
        ensures { option_map (λ m. (kind_of m, parts_of m, self.new.rest.now)) result
            ≡ message_at kinds.Pledge self.old.rest.now }
    {
        Some(Message::Pledge {
            cusip: self.cusip()?,
            to: self.name()?,
            amount: self.amount()?,
        })
    }

    fn release(&mut self) -> Option<Message>
        ensures { option_map (λ m. (kind_of m, parts_of m, self.new.rest.now)) result
            ≡ message_at kinds.Release self.old.rest.now }
    {
        Some(Message::Release {
            holder: self.name()?,
            pledge: self.number()?,
            amount: self.amount()?,
        })
    }

    fn redeem(&mut self) -> Option<Message>
        ensures { option_map (λ m. (kind_of m, parts_of m, self.new.rest.now)) result
            ≡ message_at kinds.Redeem self.old.rest.now }
    {
        Some(Message::Redeem {
            cusip: self.cusip()?,
        })
    }

    fn add_on(&mut self) -> Option<Message>
        ensures { option_map (λ m. (kind_of m, parts_of m, self.new.rest.now)) result
            ≡ message_at kinds.AddOn self.old.rest.now }
    {
        Some(Message::AddOn {
            auction: self.name()?,
            holder: self.name()?,
            amount: self.amount()?,
        })
    }

    fn deposit(&mut self) -> Option<Message>
        ensures { option_map (λ m. (kind_of m, parts_of m, self.new.rest.now)) result
            ≡ message_at kinds.Deposit self.old.rest.now }
    {
        Some(Message::Deposit {
            participant: self.name()?,
            cents: self.money()?,
        })
    }

    fn withdraw(&mut self) -> Option<Message>
        ensures { option_map (λ m. (kind_of m, parts_of m, self.new.rest.now)) result
            ≡ message_at kinds.Withdraw self.old.rest.now }
    {
        Some(Message::Withdraw {
            participant: self.name()?,
            cents: self.money()?,
        })
    }

    fn sell(&mut self) -> Option<Message>
        ensures { option_map (λ m. (kind_of m, parts_of m, self.new.rest.now)) result
            ≡ message_at kinds.Sell self.old.rest.now }
    {
        Some(Message::Sell {
            cusip: self.cusip()?,
            to: self.name()?,
            amount: self.amount()?,
            price: self.money()?,
        })
    }

    fn buy(&mut self) -> Option<Message>
        ensures { option_map (λ m. (kind_of m, parts_of m, self.new.rest.now)) result
            ≡ message_at kinds.Buy self.old.rest.now }
    {
        Some(Message::Buy {
            seller: self.name()?,
            offer: self.number()?,
        })
    }

    fn retract(&mut self) -> Option<Message>
        ensures { option_map (λ m. (kind_of m, parts_of m, self.new.rest.now)) result
            ≡ message_at kinds.Retract self.old.rest.now }
    {
        Some(Message::Retract {
            offer: self.number()?,
        })
    }

    fn message(&mut self, kind: Kind) -> Option<Message>
        ensures { option_map (λ m. (kind_of m, parts_of m, self.new.rest.now)) result
            ≡ message_at kind self.old.rest.now }
    {
        match kind {
            Kind::Register => self.register(),
            Kind::Enrol => self.enrol(),
            Kind::Holiday => self.holiday(),
            Kind::Announce => self.announce(),
            Kind::Bid => self.bid(),
            Kind::Noncompetitive => self.noncompetitive(),
            Kind::Cancel => self.cancel(),
            Kind::Position => self.position_report(),
            Kind::Publish => self.publish(),
            Kind::Settle => self.settle(),
            Kind::Transfer => self.transfer(),
            Kind::Pledge => self.pledge(),
            Kind::Release => self.release(),
            Kind::Redeem => self.redeem(),
            Kind::AddOn => self.add_on(),
            Kind::Deposit => self.deposit(),
            Kind::Withdraw => self.withdraw(),
            Kind::Sell => self.sell(),
            Kind::Buy => self.buy(),
            Kind::Retract => self.retract(),
        }
    }

    // A tag, and the fields of its kind.
    fn tagged(&mut self) -> Option<Message>
        ensures { option_map (λ m. (kind_of m, parts_of m, self.new.rest.now)) result
            ≡ tagged_at self.old.rest.now }
    {
        let [tag, rest @ ..] = self.rest else {
            return None;
        };
        self.rest = rest;
        self.message(Kind::of_tag(*tag)?)
    }

    fn entry(&mut self, version: Version) -> Option<Entry>
        ensures { option_map (λ x. (head_of x, kind_of x.message, parts_of x.message, self.new.rest.now)) result
            ≡ entry_at version self.old.rest.now }
    {
        Some(Entry {
            submitter: self.name()?,
            number: self.number()?,
            moment: self.moment(version)?,
            message: self.tagged()?,
        })
    }
}

impl Entry {
    /// Reads the entry whose spelling begins the bytes, and tells how many bytes that is. Bytes that begin with no
    /// spelling are `None`.
    pub fn take(bytes: &[u8]) -> Option<(Entry, usize)>
        ensures found { IfSome result (λ x. IsTaken bytes.now x.0 x.1) }
        ensures none { IfNone result (IsNoRecordIn versions.Second bytes.now) }
    {
        Entry::take_in(Version::Second, bytes)
    }

    /// The same by the spelling of the first version, in which a moment has four bytes.
    pub fn take_first(bytes: &[u8]) -> Option<(Entry, usize)>
        ensures found { IfSome result (λ x. IsTakenIn versions.First bytes.now x.0 x.1) }
        ensures none { IfNone result (IsNoRecordIn versions.First bytes.now) }
    {
        Entry::take_in(Version::First, bytes)
    }

    fn take_in(version: Version, bytes: &[u8]) -> Option<(Entry, usize)>
        ensures found { IfSome result (λ x. IsTakenIn version bytes.now x.0 x.1) }
        ensures none { IfNone result (IsNoRecordIn version bytes.now) }
    {
        let mut fields = Fields { rest: bytes };
        let Some(entry) = fields.entry(version) else {
            return None;
        };
        Some((entry, bytes.len() - fields.rest.len()))
    }
}
