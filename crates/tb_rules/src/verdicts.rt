//! Verdicts on bids and on reports of positions.
ghost use Rattle.std.specs.Prelude.{◌≡◌};
ghost use Rattle.tb_terms.specs.Rows.{refusal_in};
ghost use Rattle.tb_rules.specs.BidRule.{bid_rule, position_rule, standing_in, is_no_par};
ghost use Rattle.tb_rules.specs.BidRule as rules;

use crate::own::Own;
use tb_price::above_zero;
use tb_terms::{Refusal, Terms};
use tb_units::{Dollars, Moment, Rate};

// Accepted bids of a bidder in an auction.
const MOST_BIDS: u32 = 1000;

/// The first rule that a bid breaks at a running moment, in the order of the refusals' numbers: 12, 13, 16, 17, 18,
/// 19, 20, 21. `None` where it breaks none. A bid without a rate is noncompetitive.
pub fn bid_verdict(
    terms: &Terms,
    own: &Own,
    rate: Option<Rate>,
    amount: Dollars,
    moment: Moment,
) -> Option<Refusal>
    ensures { result ≡ refusal_in (bid_rule terms.now.announcement (standing_in own.now) moment rate amount.value) }
{
    if amount.value < terms.announcement.minimum.value {
        return Some(Refusal::BelowMinimum);
    }
    if is_no_multiple(amount) {
        return Some(Refusal::NotMultiple);
    }
    if lacks_price(terms, rate) {
        return Some(Refusal::RateTooHigh);
    }
    let closing = closing_for(terms, rate);
    if moment.seconds >= closing.seconds {
        return Some(Refusal::Late { moment, closing });
    }
    if passes_ceiling(terms, own, rate, amount) {
        return Some(Refusal::NoncompetitiveCeiling);
    }
    if par_of_other_kind(own, rate).value > 0 {
        return Some(Refusal::MixedBids);
    }
    if lacks_report(terms, own, rate, amount) {
        return Some(Refusal::PositionRequired);
    }
    if own.accepted >= MOST_BIDS {
        return Some(Refusal::BidQuota);
    }
    None
}

fn is_no_multiple(amount: Dollars) -> bool
    ensures { result ≡ is_no_par amount.value }
{
    amount.value == 0 || amount.value % 100 != 0
}

fn lacks_price(terms: &Terms, rate: Option<Rate>) -> bool
    ensures { result ≡ rules.lacks_price terms.now.announcement rate }
{
    match rate {
        Some(rate) => !above_zero(rate, terms.days),
        None => false,
    }
}

fn closing_for(terms: &Terms, rate: Option<Rate>) -> Moment
    ensures { result ≡ rules.closing_for terms.now.announcement rate }
{
    match rate {
        Some(_) => terms.c_moment,
        None => terms.nc_moment,
    }
}

fn passes_ceiling(terms: &Terms, own: &Own, rate: Option<Rate>, amount: Dollars) -> bool
    ensures { result ≡ rules.passes_ceiling terms.now.announcement (standing_in own.now) rate amount.value }
{
    rate.is_none() && own.noncompetitive.value + amount.value > terms.announcement.nc_ceiling.value
}

fn par_of_other_kind(own: &Own, rate: Option<Rate>) -> Dollars
    ensures { result.value ≡ rules.par_of_other_kind (standing_in own.now) rate }
{
    match rate {
        Some(_) => own.noncompetitive,
        None => own.competitive,
    }
}

fn lacks_report(terms: &Terms, own: &Own, rate: Option<Rate>, amount: Dollars) -> bool
    ensures { result ≡ rules.lacks_report terms.now.announcement (standing_in own.now) rate amount.value }
{
    rate.is_some()
        && own.competitive.value + amount.value >= terms.announcement.nlp_threshold.value
        && !own.reported
}

/// `Late` where a report's running moment is at or after the competitive closing; else `None`.
pub fn position_verdict(terms: &Terms, moment: Moment) -> Option<Refusal>
    ensures { result ≡ refusal_in (position_rule terms.now.announcement moment) }
{
    if moment.seconds < terms.c_moment.seconds {
        return None;
    }
    Some(Refusal::Late {
        moment,
        closing: terms.c_moment,
    })
}
