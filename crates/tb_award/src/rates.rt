//! The median and the low rate of the awards.
ghost use Rattle.std.specs.Prelude.{◌≡◌, ◌<◌, ◌≤◌, List, length, All};
ghost use Rattle.tb_units.specs.declared.lines.RateLine.{RateLine};
ghost use Rattle.tb_award.specs.Awards.{AreAwardsOf, IsLowRate, IsMedianRate, IsRateOfPart};
ghost use Rattle.tb_award.specs.Cuts.{AreByRate, amount_of, most_recognised, total_of};
ghost use Rattle.tb_award.specs.Stops.{AwardsSumTo, IsStop};

use crate::awarding::award;
use crate::outcome::Cut;
use crate::recognised::Recognised;
use tb_units::{Dollars, Rate, RateLine};

/// The sum of all awards of what is recognised.
pub fn awarded(cut: &Cut, recognised: &Recognised) -> Dollars
    requires { total_of recognised.now.lines ≤ most_recognised }
    ensures { (awards : List RateLine) × AreAwardsOf cut.now recognised.now.lines awards
        × (result.value ≡ total_of awards) }
{
    Dollars {
        value: sum_of(cut, recognised.as_slice()),
    }
}

/// The median rate: the least at or below which half of all awards lie, or more. 0.000 percent where there are none.
pub fn median_rate(cut: &Cut, recognised: &Recognised) -> Rate
    requires { total_of recognised.now.lines ≤ most_recognised }
    ensures { (awards : List RateLine) × AreAwardsOf cut.now recognised.now.lines awards
        × IsMedianRate awards result.steps }
{
    rate_of_part(cut, recognised.as_slice(), 2)
}

/// The low rate: the least at or below which one twentieth of all awards lie, or more. 0.000 percent where there are
/// none.
pub fn low_rate(cut: &Cut, recognised: &Recognised) -> Rate
    requires { total_of recognised.now.lines ≤ most_recognised }
    ensures { (awards : List RateLine) × AreAwardsOf cut.now recognised.now.lines awards
        × IsLowRate awards result.steps }
{
    rate_of_part(cut, recognised.as_slice(), 20)
}

fn rate_of_part(cut: &Cut, lines: &[RateLine], parts: u128) -> Rate
    requires parts { 0 < parts }
    requires order { AreByRate lines.now }
    requires amounts { All (λ line. 1 ≤ amount_of line) lines.now }
    requires fits { total_of lines.now ≤ most_recognised }
    ensures { (awards : List RateLine) × AreAwardsOf cut.now lines.now awards × IsRateOfPart parts awards result.steps }
{
    let all = sum_of(cut, lines);
    if all == 0 {
        return Rate { steps: 0 };
    }
    rate_reaching(cut, lines, all.div_ceil(parts))
}

// The sum of all awards.
fn sum_of(cut: &Cut, lines: &[RateLine]) -> u128
    requires amounts { All (λ line. 1 ≤ amount_of line) lines.now }
    requires fits { total_of lines.now ≤ most_recognised }
    ensures { AwardsSumTo cut.now lines.now result }
{
    let mut sum = 0;
    for line in lines {
        sum += award(cut, line.rate, line.amount).value;
    }
    sum
}

// The rate of the line with which the awards, added up in order, reach a part of them.
fn rate_reaching(cut: &Cut, lines: &[RateLine], part: u128) -> Rate
    requires some { 0 < length lines.now }
    requires part { 0 < part }
    requires amounts { All (λ line. 1 ≤ amount_of line) lines.now }
    requires fits { total_of lines.now ≤ most_recognised }
    ensures { (awards : List RateLine) → AreAwardsOf cut.now lines.now awards → IsStop awards part result.steps }
{
    let mut sum = 0;
    for line in lines {
        sum += award(cut, line.rate, line.amount).value;
        if sum >= part {
            return line.rate;
        }
    }
    lines[lines.len() - 1].rate
}
