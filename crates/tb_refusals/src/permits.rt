//! Who may send a message, and what a repeated one is told.
ghost use Rattle.std.specs.Prelude.{◌≡◌};
ghost use Rattle.tb_history.specs.Verdict as verdicts;

use tb_message::{Entry, Message, Verdict};
use tb_tables::is_operator;
use tb_terms::Refusal;
use tb_units::Ident;

/// Whether the sender is of the party that may send messages of this kind.
pub fn is_permitted(submitter: &Ident, message: &Message) -> bool
    ensures { result ≡ verdicts.is_permitted submitter.now message.now }
{
    match message {
        Message::Register { .. }
        | Message::Enrol { .. }
        | Message::Holiday { .. }
        | Message::Announce { .. }
        | Message::Publish { .. }
        | Message::Settle { .. }
        | Message::Redeem { .. }
        | Message::AddOn { .. }
        | Message::Deposit { .. }
        | Message::Withdraw { .. } => is_operator(submitter),
        Message::Bid { .. }
        | Message::Cancel { .. }
        | Message::Position { .. }
        | Message::Transfer { .. }
        | Message::Pledge { .. }
        | Message::Release { .. }
        | Message::Sell { .. }
        | Message::Buy { .. }
        | Message::Retract { .. } => !is_operator(submitter),
    }
}

/// What is told where a message stands under the number.
pub fn repeated(entry: &Entry, message: &Message) -> Verdict
    ensures { result ≡ verdicts.repeated entry.now message.now }
{
    if entry.message == *message {
        return Verdict::Repeat {
            number: entry.number,
            moment: entry.moment,
        };
    }
    Verdict::Refused(Refusal::NumberReused)
}
