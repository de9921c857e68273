//! What is announced for a trial.
ghost use Rattle.std.specs.Prelude.{◌≡◌, ◌≤◌, ◌^◌, codes, IfOk};
ghost use Rattle.tb_units.specs.Names.{is_name};
ghost use Rattle.tb_trial.specs.Trials.{trial_announcement};

use std::alloc::Global;
use tb_terms::{Announcement, Cusip, EasternDays, Terms};
use tb_units::{Day, Dollars, Ident, OutOfMemory};

/// The announcement with its days and moments.
pub fn trial_terms(alloc: Global) -> Result<Terms, OutOfMemory>
    ensures { IfOk result (λ terms. terms.announcement ≡ trial_announcement) }
{
    let days = EasternDays::new(alloc)?;
    Ok(Terms::check(&announced(), &days).unwrap())
}

// A bill of 91 days from 2024-11-07 to 2025-02-06, whose auction is on 2024-11-04.
fn announced() -> Announcement
    ensures { result ≡ trial_announcement }
{
    Announcement {
        auction: Ident::read("trial").unwrap(),
        cusip: Cusip {
            bytes: *b"912797AA5",
        },
        offering: dollars(1_000_000_000),
        minimum: dollars(100),
        nc_ceiling: dollars(10_000_000),
        competitive_floor: dollars(1_000_000),
        nlp_threshold: dollars(350_000_000),
        auction_date: Day { number: 20_031 },
        nc_close: 660,
        c_close: 690,
        issue: Day { number: 20_034 },
        maturity: Day { number: 20_125 },
    }
}

fn dollars(value: u128) -> Dollars
    requires { value ≤ 10 ^ 27 }
    ensures { result.value ≡ value }
{
    Dollars { value }
}
