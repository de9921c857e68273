//! The first refusal of a message that moves par whose cause holds, by what it looks at.
ghost use Rattle.std.specs.Prelude.{◌≡◌, ◌∷◌, ◌++◌, ◌≤◌, [], List, nat_le, nat_lt, length, IfSome};
ghost use Rattle.tb_units.specs.Amounts.{dollars_of};
ghost use Rattle.tb_units.specs.declared.day.Day.{Day};
ghost use Rattle.tb_terms.specs.declared.refusal.Refusal.TheVariants as refusals;
ghost use Rattle.tb_terms.specs.Rows.{Row, refusal_in};
ghost use Rattle.tb_terms.specs.Eastern.{start_of};
ghost use Rattle.tb_rules.specs.BidRule as rules;
ghost use Rattle.tb_history.specs.Tables.{transfer_rows, pledge_rows, unsettled_rows, redeem_rows};
ghost use Rattle.tb_tables.specs.Auctions.{announcement_in};
ghost use Rattle.tb_tables.specs.Calendar.{IsCalendar};
ghost use Rattle.tb_refusals.specs.ParRows.{kept_release_rows};

use tb_holdings::Mark;
use tb_tables::Calendar;
use tb_terms::{EasternDays, Refusal, Terms};
use tb_units::{Day, Dollars, Moment};

// Open pledges of a holder.
const MOST_OPEN: u64 = 1000;

// Whether it is nothing or no multiple of 100.
pub(crate) fn is_no_par(amount: Dollars) -> bool
    ensures { result ≡ rules.is_no_par amount.value }
{
    amount.value == 0 || amount.value % 100 != 0
}

// Whether the maturity date has begun.
pub(crate) fn has_matured(terms: &Terms, moment: Moment) -> bool
    ensures { result ≡ nat_le (start_of terms.now.announcement.maturity.number) moment.seconds }
{
    terms.maturity_moment.seconds <= moment.seconds
}

fn free_refusal(free: Dollars, amount: Dollars) -> Option<Refusal>
    ensures { result ≡ refusal_in
        ((refusals.InsufficientFree (dollars_of free.value), nat_lt free.value amount.value) ∷ []) }
{
    if free.value < amount.value {
        return Some(Refusal::InsufficientFree { free });
    }
    None
}

/// Of a transfer, by the terms of the bill, whether the receiver is registered and whether it is the sender, whether
/// the bill is redeemed, and what the sender has free.
pub fn transfer_refusal(
    terms: Option<Terms>,
    known: bool,
    own: bool,
    redeemed: bool,
    free: Dollars,
    moment: Moment,
    amount: Dollars,
) -> Option<Refusal>
    ensures { result ≡ refusal_in
        (transfer_rows (announcement_in terms) known own redeemed free.value moment amount.value) }
{
    let Some(terms) = terms else {
        return Some(Refusal::UnknownSecurity);
    };
    if !known {
        return Some(Refusal::UnknownParticipant);
    }
    if is_no_par(amount) {
        return Some(Refusal::NotMultiple);
    }
    if own {
        return Some(Refusal::SelfTransfer);
    }
    if redeemed {
        return Some(Refusal::AlreadyRedeemed);
    }
    if has_matured(&terms, moment) {
        return Some(Refusal::Matured);
    }
    free_refusal(free, amount)
}

fn quota_refusal(open_marks: u64) -> Option<Refusal>
    ensures { result ≡ refusal_in ((refusals.PledgeQuota, nat_le 1000 open_marks) ∷ []) }
{
    if open_marks >= MOST_OPEN {
        return Some(Refusal::PledgeQuota);
    }
    None
}

/// Of a pledge, by its refusal as of a transfer, and how many pledges of the sender are open.
pub fn pledge_refusal(as_transfer: Option<Refusal>, open_marks: u64) -> Option<Refusal>
    ensures { (rows : List Row) → as_transfer ≡ refusal_in rows → result ≡ refusal_in (pledge_rows rows open_marks) }
{
    match as_transfer {
        Some(refusal) => Some(refusal),
        None => quota_refusal(open_marks),
    }
}

/// Of a release, by the mark that is found, and the caller's number.
pub fn release_refusal(found: Option<Mark>, caller: u32, amount: Dollars) -> Option<Refusal>
    ensures { result ≡ refusal_in (kept_release_rows found caller amount.value) }
{
    if is_no_par(amount) {
        return Some(Refusal::NotMultiple);
    }
    let Some(mark) = found else {
        return Some(Refusal::UnknownPledge);
    };
    if caller != mark.pledgee {
        return Some(Refusal::NotPledgee);
    }
    if mark.left.value < amount.value {
        return Some(Refusal::MoreThanPledged { left: mark.left });
    }
    None
}

fn due_refusal(days: &EasternDays, payment: Day, moment: Moment) -> Option<Refusal>
    ensures { result ≡ refusal_in ((refusals.NotDue payment, nat_lt moment.seconds (start_of payment.number)) ∷ []) }
{
    if moment.seconds < days.start_of(payment).seconds {
        return Some(Refusal::NotDue { payment });
    }
    None
}

// Every auction of the bill is to be settled, and then it has to be due.
fn settled_refusal(
    days: &EasternDays,
    unsettled: Option<Terms>,
    payment: Day,
    moment: Moment,
) -> Option<Refusal>
    ensures { result ≡ refusal_in
        (unsettled_rows (announcement_in unsettled) ++ (
          refusals.NotDue payment,
          nat_lt moment.seconds (start_of payment.number),
        ) ∷ []) }
{
    if let Some(other) = unsettled {
        return Some(Refusal::Unsettled {
            auction: other.announcement.auction,
        });
    }
    due_refusal(days, payment, moment)
}

/// Of a redemption, by the terms of the bill, whether it is redeemed, and the terms of its first auction that isn't
/// settled.
pub fn redeem_refusal(
    days: &EasternDays,
    calendar: &Calendar,
    terms: Option<Terms>,
    redeemed: bool,
    unsettled: Option<Terms>,
    moment: Moment,
) -> Option<Refusal>
    requires few { length calendar.now.list ≤ 4096 }
    requires early { IfSome terms (λ t. t.announcement.maturity.number ≤ 40176) }
    ensures { (entered : List Day) → IsCalendar calendar.now.list entered
        → result
        ≡ refusal_in (redeem_rows (announcement_in terms) redeemed (announcement_in unsettled) entered moment) }
{
    let Some(terms) = terms else {
        return Some(Refusal::UnknownSecurity);
    };
    if redeemed {
        return Some(Refusal::AlreadyRedeemed);
    }
    let payment = calendar.payment_date(terms.announcement.maturity);
    settled_refusal(days, unsettled, payment, moment)
}
