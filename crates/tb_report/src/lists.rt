//! Lines of awards, bids, holdings and payments, as texts.
ghost use Rattle.std.specs.Prelude.{◌≡◌, ◌≤◌, ◌^◌, ◌∷◌, ◌++◌, map, option_to_list, OnOk};
ghost use Rattle.tb_units.specs.Bytes.{blank};
ghost use Rattle.tb_report.specs.Lines.{line, text_of};
ghost use Rattle.tb_report.specs.Lists.{award_words, bidder_words, add_on_words, awards_lines};
ghost use Rattle.tb_report.specs.Lists.{bid_words, rate_word, state_word, holding_words, paid_words, total_paid, redemption_lines};

use crate::growing::Text;
use tb_history::{AddOnLine, AwardLine, Awards, BidLine, HoldingLine, PaidLine};
use tb_units::{Cents, Dollars, OutOfMemory, Rate, Short};

/// Puts the awards of bidders at the end, and that of an add-on behind them.
#[tactic(auto, using(crate::proofs::Texts::text_of_joined))]
pub(crate) fn push_awards(text: &mut Text, awards: &Awards) -> Result<(), OutOfMemory>
    ensures { OnOk result (text.new ≡ text.old ++ text_of (awards_lines awards.now)) }
{
    push_bidders(text, awards.lines.lines())?;
    push_add_on(text, &awards.addon)
}

fn push_bidders(text: &mut Text, awards: &[AwardLine]) -> Result<(), OutOfMemory>
    ensures { OnOk result (text.new ≡ text.old ++ text_of (map bidder_words awards.now)) }
{
    for award in awards {
        push_award(text, award.bidder.bytes(), award.amount, award.payment)?;
    }
    Ok(())
}

#[tactic(auto, using(crate::proofs::Texts::joined))]
fn push_add_on(text: &mut Text, addon: &Option<AddOnLine>) -> Result<(), OutOfMemory>
    ensures { OnOk result (text.new ≡ text.old ++ text_of (map add_on_words (option_to_list addon.now))) }
{
    match addon {
        None => Ok(()),
        Some(award) => push_award(text, b"+", award.amount, award.payment),
    }
}

#[tactic(auto, using(crate::proofs::Texts::joined))]
fn push_award(
    text: &mut Text,
    whose: &[u8],
    amount: Dollars,
    payment: Cents,
) -> Result<(), OutOfMemory>
    ensures { OnOk result (text.new ≡ text.old ++ line (award_words whose.now amount.value payment.value)) }
{
    text.begin(whose)?;
    text.word(amount.print().bytes())?;
    text.word(payment.print().bytes())?;
    text.end()
}

/// Puts the bids at the end.
pub(crate) fn push_bids(text: &mut Text, bids: &[BidLine]) -> Result<(), OutOfMemory>
    ensures { OnOk result (text.new ≡ text.old ++ text_of (map bid_words bids.now)) }
{
    for bid in bids {
        push_bid(text, bid)?;
    }
    Ok(())
}

#[tactic(auto, using(crate::proofs::Texts::joined))]
fn push_bid(text: &mut Text, bid: &BidLine) -> Result<(), OutOfMemory>
    ensures { OnOk result (text.new ≡ text.old ++ line (bid_words bid.now)) }
{
    text.begin(Short::whole(bid.number as u128).bytes())?;
    text.word(bid.bidder.bytes())?;
    push_rate(text, bid.rate)?;
    text.word(bid.amount.print().bytes())?;
    push_state(text, bid.live)?;
    text.end()
}

fn push_rate(text: &mut Text, rate: Option<Rate>) -> Result<(), OutOfMemory>
    ensures { OnOk result (text.new ≡ text.old ++ blank ∷ rate_word rate) }
{
    match rate {
        None => text.word(b"n"),
        Some(rate) => text.word(rate.print().bytes()),
    }
}

fn push_state(text: &mut Text, live: bool) -> Result<(), OutOfMemory>
    ensures { OnOk result (text.new ≡ text.old ++ blank ∷ state_word live) }
{
    if live {
        text.word(b"live")
    } else {
        text.word(b"cancelled")
    }
}

/// Puts the holdings at the end.
pub(crate) fn push_holdings(text: &mut Text, holdings: &[HoldingLine]) -> Result<(), OutOfMemory>
    ensures { OnOk result (text.new ≡ text.old ++ text_of (map holding_words holdings.now)) }
{
    for holding in holdings {
        push_holding(text, holding)?;
    }
    Ok(())
}

#[tactic(auto, using(crate::proofs::Texts::joined))]
fn push_holding(text: &mut Text, holding: &HoldingLine) -> Result<(), OutOfMemory>
    ensures { OnOk result (text.new ≡ text.old ++ line (holding_words holding.now)) }
{
    text.begin(&holding.cusip.bytes)?;
    text.word(holding.held.print().bytes())?;
    text.word(holding.pledged.print().bytes())?;
    text.word(holding.free.print().bytes())?;
    text.end()
}

/// Puts the payments and their sum at the end.
pub(crate) fn push_redemption(text: &mut Text, paid: &[PaidLine]) -> Result<(), OutOfMemory>
    requires { total_paid paid.now ≤ 10 ^ 22 }
    ensures { OnOk result (text.new ≡ text.old ++ text_of (redemption_lines paid.now)) }
{
    push_payments(text, paid)?;
    text.labelled(b"total", Short::whole(sum_of(paid)).bytes())
}

fn push_payments(text: &mut Text, paid: &[PaidLine]) -> Result<(), OutOfMemory>
    ensures { OnOk result (text.new ≡ text.old ++ text_of (map paid_words paid.now)) }
{
    for payment in paid {
        text.labelled(payment.holder.bytes(), payment.paid.print().bytes())?;
    }
    Ok(())
}

fn sum_of(paid: &[PaidLine]) -> u128
    requires { total_paid paid.now ≤ 10 ^ 22 }
    ensures { result ≡ total_paid paid.now }
{
    paid.iter().map(|line| line.paid.value).sum()
}
