//! The 35 percent limits, and the amount sought (31 CFR 356.20 and 356.22).
ghost use Rattle.std.specs.Prelude.{◌≡◌, ◌%◌};
ghost use Rattle.tb_award.specs.Limits.{cap_of, counted, limit_of, sought_of};

use tb_units::Dollars;

/// 35 percent of the offering, which is a multiple of 100.
pub fn cap(offering: Dollars) -> Dollars
    requires { offering.value % 100 ≡ 0 }
    ensures { result.value ≡ cap_of offering.value }
{
    Dollars {
        value: offering.value / 100 * 35,
    }
}

/// What of its bids may be recognised of a bidder with this position in whole dollars: the cap less the position,
/// rounded down to a multiple of 100. A negative position counts as zero.
pub fn limit(offering: Dollars, position: i64) -> Dollars
    requires { offering.value % 100 ≡ 0 }
    ensures { result.value ≡ limit_of offering.value position }
{
    let left = cap(offering).value.saturating_sub(counted(position));
    Dollars {
        value: left - left % 100,
    }
}

fn counted(position: i64) -> u128
    ensures { result ≡ counted position }
{
    if position > 0 { position as u128 } else { 0 }
}

/// The amount sought from competitive bids: what noncompetitive bids leave of the offering, and at least the floor.
pub fn sought(offering: Dollars, noncompetitive: Dollars, floor: Dollars) -> Dollars
    ensures { result.value ≡ sought_of offering.value noncompetitive.value floor.value }
{
    let left = offering.value.saturating_sub(noncompetitive.value);
    Dollars {
        value: left.max(floor.value),
    }
}
