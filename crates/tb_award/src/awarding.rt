//! What is awarded of a bid (31 CFR 356.20 and 356.21).
ghost use Rattle.std.specs.Prelude.{◌≤◌, ◌*◌, ◌^◌};
ghost use Rattle.tb_award.specs.Awards.{IsAward, IsProrated};

use crate::outcome::Cut;
use std::cmp::Ordering;
use tb_units::{Dollars, Percent, Rate};

// 100.00 percent, in hundredths of a percent.
const HUNDRED_PERCENT: u128 = 10_000;

/// What is awarded of an amount that is recognised at a rate: all of it under the stop-out rate, nothing above it, and
/// at it the cut's percentage, raised to the next multiple of 100.
pub fn award(cut: &Cut, rate: Rate, recognised: Dollars) -> Dollars
    ensures { IsAward cut.now.stop.steps cut.now.percent.hundredths rate.steps recognised.value result.value }
{
    match rate.steps.cmp(&cut.stop.steps) {
        Ordering::Less => recognised,
        Ordering::Equal => prorated(cut.percent, recognised),
        Ordering::Greater => Dollars { value: 0 },
    }
}

// The least whole hundreds that reach the percentage.
fn prorated(percent: Percent, recognised: Dollars) -> Dollars
    ensures { IsProrated percent.hundredths recognised.value result.value }
{
    let share = percent.hundredths as u128 * recognised.value;
    Dollars {
        value: share.div_ceil(100 * HUNDRED_PERCENT) * 100,
    }
}
