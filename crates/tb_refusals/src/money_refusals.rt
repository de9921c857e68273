//! The first refusal of a message on money whose cause holds, by what it looks at.
ghost use Rattle.std.specs.Prelude.{◌≡◌, ◌∷◌, ◌++◌, [], not};
ghost use Rattle.tb_terms.specs.declared.refusal.Refusal.TheVariants as refusals;
ghost use Rattle.tb_terms.specs.Rows.{refusal_in};
ghost use Rattle.tb_history.specs.Tables.{funds_row, matured_rows, sell_rows};
ghost use Rattle.tb_tables.specs.Auctions.{announcement_in};
ghost use Rattle.tb_funds.specs.Offers.{is_open};
ghost use Rattle.tb_refusals.specs.OfferRows.{covered_rows, kept_buy_rows, kept_retract_rows};

use crate::par_refusals::{has_matured, is_no_par};
use tb_funds::{Offer, State};
use tb_terms::{Refusal, Terms};
use tb_units::{Cents, Dollars, Moment};

// Open offers of a seller.
const MOST_OPEN: u64 = 1000;

fn funds_refusal(balance: Cents, cents: Cents) -> Option<Refusal>
    ensures { result ≡ refusal_in (funds_row balance.value cents.value ∷ []) }
{
    if balance.value < cents.value {
        return Some(Refusal::InsufficientFunds { balance });
    }
    None
}

/// Of a deposit, by whether the participant is registered.
pub fn deposit_refusal(known: bool) -> Option<Refusal>
    ensures { result ≡ refusal_in ((refusals.UnknownParticipant, not known) ∷ []) }
{
    if !known {
        return Some(Refusal::UnknownParticipant);
    }
    None
}

/// Of a withdrawal, by whether the participant is registered, and its balance.
pub fn withdraw_refusal(known: bool, balance: Cents, cents: Cents) -> Option<Refusal>
    ensures { result ≡ refusal_in
        ((refusals.UnknownParticipant, not known) ∷ funds_row balance.value cents.value ∷ []) }
{
    if !known {
        return Some(Refusal::UnknownParticipant);
    }
    funds_refusal(balance, cents)
}

/// Of a sell, by the terms of the bill, whether the buyer is registered and whether it is the sender, whether the bill
/// is redeemed, and how many offers of the sender are open.
pub fn sell_refusal(
    terms: Option<Terms>,
    known: bool,
    own: bool,
    redeemed: bool,
    open_offers: u64,
    moment: Moment,
    amount: Dollars,
) -> Option<Refusal>
    ensures { result ≡ refusal_in
        (sell_rows (announcement_in terms) known own redeemed moment amount.value open_offers) }
{
    let Some(terms) = terms else {
        return Some(Refusal::UnknownSecurity);
    };
    if !known {
        return Some(Refusal::UnknownParticipant);
    }
    if is_no_par(amount) {
        return Some(Refusal::NotMultiple);
    }
    if own {
        return Some(Refusal::SelfTransfer);
    }
    if redeemed {
        return Some(Refusal::AlreadyRedeemed);
    }
    if has_matured(&terms, moment) {
        return Some(Refusal::Matured);
    }
    if open_offers >= MOST_OPEN {
        return Some(Refusal::OfferQuota);
    }
    None
}

// What an offer has to meet at last: that its par is free to its seller, and its price in the buyer's balance.
fn covered_refusal(offer: &Offer, free: Dollars, balance: Cents) -> Option<Refusal>
    ensures { result ≡ refusal_in (covered_rows offer.now free.value balance.value) }
{
    if free.value < offer.par.value {
        return Some(Refusal::OfferUncovered);
    }
    funds_refusal(balance, offer.price)
}

// And before that, that its bill hasn't matured.
fn matured_refusal(
    terms: Option<Terms>,
    moment: Moment,
    offer: &Offer,
    free: Dollars,
    balance: Cents,
) -> Option<Refusal>
    ensures { result ≡ refusal_in
        (matured_rows (announcement_in terms) moment ++ covered_rows offer.now free.value balance.value) }
{
    if let Some(terms) = terms {
        if has_matured(&terms, moment) {
            return Some(Refusal::Matured);
        }
    }
    covered_refusal(offer, free, balance)
}

fn is_closed(state: State) -> bool
    ensures { result ≡ not (is_open state) }
{
    match state {
        State::Open => false,
        State::Bought | State::Retracted => true,
    }
}

/// Of a buy, by the offer that is found, the caller's number, whether the offer's bill is redeemed, its terms, what of
/// it is free to the seller, and the buyer's balance.
pub fn buy_refusal(
    found: Option<(Offer, State)>,
    caller: u32,
    redeemed: bool,
    terms: Option<Terms>,
    free: Dollars,
    balance: Cents,
    moment: Moment,
) -> Option<Refusal>
    ensures { result ≡ refusal_in
        (kept_buy_rows found caller redeemed (announcement_in terms) free.value balance.value moment) }
{
    let Some((offer, state)) = found else {
        return Some(Refusal::UnknownOffer);
    };
    if offer.buyer != caller {
        return Some(Refusal::NotBuyer);
    }
    if is_closed(state) {
        return Some(Refusal::OfferClosed);
    }
    if redeemed {
        return Some(Refusal::AlreadyRedeemed);
    }
    matured_refusal(terms, moment, &offer, free, balance)
}

/// Of a retract, by the sender's offer that is found.
pub fn retract_refusal(found: Option<(Offer, State)>) -> Option<Refusal>
    ensures { result ≡ refusal_in (kept_retract_rows found) }
{
    let Some((_, state)) = found else {
        return Some(Refusal::UnknownOffer);
    };
    if is_closed(state) {
        return Some(Refusal::OfferClosed);
    }
    None
}
