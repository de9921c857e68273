//! The cut of an auction: the stop-out rate, and the percentage of what is recognised at it (31 CFR 356.20 and 356.21).
ghost use Rattle.std.specs.Prelude.{◌≡◌, ◌≤◌, ◌<◌, ◌^◌, ◌↔◌, [], All};
ghost use Rattle.tb_price.specs.Prices.{HasPrice};
ghost use Rattle.tb_award.specs.Cuts.{IsCutOf, most_recognised, total_of};
ghost use Rattle.tb_award.specs.Stops.{AreCuttable, IsPercentage, IsStop, on_side, par_on};
ghost use Rattle.tb_award.specs.declared.outcome.Cut.{Cut};
ghost use Rattle.tb_award.specs.declared.outcome.Outcome.TheVariants as outcome;

use crate::outcome::{Cut, Outcome};
use crate::recognised::Recognised;
use std::cmp::Ordering;
use tb_price::price;
use tb_units::{Days, Dollars, Percent, Rate, RateLine};

// 100.00 percent, in hundredths of a percent.
const HUNDRED_PERCENT: u32 = 10_000;

/// Where the auction stops, for the recognised lines, the amount sought from competitive bids, and the days of the
/// bill.
pub fn cut(recognised: &Recognised, sought: Dollars, days: Days) -> Outcome
    requires sought { 100 ≤ sought.value }
    requires priced { All (λ line. HasPrice line.rate.steps days.count) recognised.now.lines }
    requires fits { total_of recognised.now.lines ≤ most_recognised }
    ensures none { (result ≡ outcome.NoAwards) ↔ (recognised.now.lines ≡ []) }
    ensures cut { (cut : Cut) → result ≡ outcome.Cut cut → IsCutOf recognised.now.lines sought.value days.count cut }
{
    let lines = recognised.as_slice();
    if lines.is_empty() {
        return Outcome::NoAwards;
    }
    Outcome::Cut(cut_of(lines, sought, days))
}

fn cut_of(lines: &[RateLine], sought: Dollars, days: Days) -> Cut
    requires lines { AreCuttable lines.now }
    requires sought { 0 < sought.value }
    requires priced { All (λ line. HasPrice line.rate.steps days.count) lines.now }
    ensures { IsCutOf lines.now sought.value days.count result }
{
    let stop = stop_of(lines, sought);
    let below = par(lines, stop, Ordering::Less);
    let at_stop = par(lines, stop, Ordering::Equal);
    Cut {
        stop,
        percent: percent_of(sought.value - below, at_stop),
        price: price(stop, days),
        below: Dollars { value: below },
        at_stop: Dollars { value: at_stop },
        sought,
    }
}

// The rate of the line with which the amounts, added up in order, reach the amount sought, and the last rate where they
// fall short of it.
fn stop_of(lines: &[RateLine], sought: Dollars) -> Rate
    requires lines { AreCuttable lines.now }
    requires sought { 0 < sought.value }
    ensures { IsStop lines.now sought.value result.steps }
{
    let mut total = 0;
    for line in lines {
        total += line.amount.value;
        if total >= sought.value {
            return line.rate;
        }
    }
    lines[lines.len() - 1].rate
}

// What is recognised at the rates on one side of the stop, or at it.
fn par(lines: &[RateLine], stop: Rate, side: Ordering) -> u128
    requires { par_on side stop.steps lines.now < 2 ^ 128 }
    ensures { result ≡ par_on side stop.steps lines.now }
{
    lines
        .iter()
        .filter(|line| is_on(line, stop, side))
        .map(|line| line.amount.value)
        .sum()
}

fn is_on(line: &RateLine, stop: Rate, side: Ordering) -> bool
    ensures { result ≡ on_side side stop.steps line.now.rate.steps }
{
    line.rate.steps.cmp(&stop.steps) == side
}

// The least percentage that reaches what is missing, and 100.00 where all that is recognised at the stop doesn't.
fn percent_of(missing: u128, at_stop: u128) -> Percent
    requires some { 0 < missing }
    requires at_stop { 0 < at_stop }
    requires fits { at_stop ≤ most_recognised }
    ensures { IsPercentage missing at_stop result.hundredths }
{
    if missing > at_stop {
        return Percent {
            hundredths: HUNDRED_PERCENT,
        };
    }
    Percent {
        hundredths: (HUNDRED_PERCENT as u128 * missing).div_ceil(at_stop) as u32,
    }
}
