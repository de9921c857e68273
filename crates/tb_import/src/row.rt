//! A row of a table, and the message that it asks to enter.
ghost use Rattle.std.specs.Prelude.{◌≡◌, ◌≤◌, ◌∷◌, [], option_map, IfSome, IfNone};
ghost use Rattle.csv.specs.Records.{fields_of};
ghost use Rattle.tb_import.specs.declared.row.Row.{Row};
ghost use Rattle.tb_import.specs.Rows.{IsRowOf};
ghost use Rattle.tb_import.specs.Sent.{IsInRange, rate_of, sent_of};

use crate::field::{number_in, rate_in};
use crate::records::{Five, five_of};
use csv::ByteRecord;
use tb_message::Message;
use tb_units::{Dollars, Ident, Rate};

/// A bid under its sender's number. Without a rate it is noncompetitive.
#[derive(Clone, Copy, Debug, PartialEq, Eq, Hash)]
pub(crate) struct Row {
    pub(crate) number: u64,
    pub(crate) auction: Ident,
    pub(crate) bidder: Ident,
    /// The rate, in steps of 0.005 percent.
    pub(crate) steps: Option<u32>,
    /// Par in whole dollars.
    pub(crate) amount: u64,
}

impl Row {
    /// The bid that the row is, under its number.
    pub(crate) fn sent(&self) -> (u64, Message)
        requires { IsInRange self.now }
        ensures { result ≡ sent_of self.now }
    {
        let bid = Message::Bid {
            auction: self.auction,
            bidder: self.bidder,
            rate: rate(self.steps),
            amount: Dollars {
                value: self.amount as u128,
            },
        };
        (self.number, bid)
    }
}

// The rate of so many steps, or none.
fn rate(steps: Option<u32>) -> Option<Rate>
    requires { IfSome steps (λ steps. steps ≤ 199999) }
    ensures { result ≡ option_map rate_of steps }
{
    match steps {
        None => None,
        Some(steps) => Some(Rate { steps }),
    }
}

/// The row that a record is.
pub(crate) fn read_row(fields: &ByteRecord) -> Option<Row>
    ensures row { IfSome result (IsRowOf (fields_of fields.now)) }
    ensures in_range { IfSome result IsInRange }
    ensures none { IfNone result ((row : Row) → ¬ (IsRowOf (fields_of fields.now) row)) }
{
    let Five {
        number,
        auction,
        bidder,
        rate,
        amount,
    } = five_of(fields)?;
    row_from(number, auction, bidder, rate, amount)
}

fn row_from(number: &[u8], auction: &[u8], bidder: &[u8], rate: &[u8], amount: &[u8]) -> Option<Row>
    ensures row { IfSome result
        (IsRowOf (number.now ∷ auction.now ∷ bidder.now ∷ rate.now ∷ amount.now ∷ [])) }
    ensures in_range { IfSome result IsInRange }
    ensures none { IfNone result ((row : Row)
        → ¬ (IsRowOf (number.now ∷ auction.now ∷ bidder.now ∷ rate.now ∷ amount.now ∷ []) row)) }
{
    let number = number_in(number, 1, 1_000_000_000_000_000)?;
    let auction = Ident::of_bytes(auction)?;
    let bidder = Ident::of_bytes(bidder)?;
    let rate = rate_in(rate)?;
    let amount = number_in(amount, 0, Dollars::MOST_READ)?;
    Some(Row {
        number,
        auction,
        bidder,
        steps: rate.map(|rate| rate.steps),
        amount,
    })
}
