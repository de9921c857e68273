//! Eastern days: when each begins, which one a moment lies in, and when bidding closes.
ghost use Rattle.std.specs.Prelude.{◌≡◌, ℕ, ◌+◌, ◌≤◌, ◌<◌, slice_index, vec_len};
ghost use Rattle.tb_terms.specs.Eastern.{start_of, closing_of, IsDateOf};

use crate::zone::{eastern, start_of_day};
use std::alloc::Global;
use tb_units::{Day, Moment, OutOfMemory};

/// The number of 2000-01-01.
const FIRST: u32 = 10_957;

/// The number of 2099-12-31.
const LAST: u32 = 47_481;

/// The first moments of the days from 2000-01-01 to 2099-12-31.
#[derive(Drop)]
pub struct EasternDays {
    starts: Vec<u64>,
    ghost whole: { vec_len starts ≡ 36525 },
    ghost each: { (place : ℕ) → place < 36525 → slice_index starts.items place ≡ start_of (10957 + place) },
}

impl EasternDays {
    /// Looks up each day in the zone.
    pub fn new(alloc: Global) -> Result<EasternDays, OutOfMemory> {
        let zone = eastern().unwrap();
        let mut starts = Vec::with_capacity(alloc, 36_525)?;
        for number in FIRST..LAST + 1 {
            starts.push(start_of_day(&zone, Day { number }))?;
        }
        Ok(EasternDays { starts })
    }

    fn first_second(&self, number: u32) -> u64
        requires from { 10957 ≤ number }
        requires to { number ≤ 47481 }
        ensures { result ≡ start_of number }
    {
        self.starts[(number - FIRST) as usize]
    }

    /// The first moment of a day.
    pub fn start_of(&self, day: Day) -> Moment
        ensures { result.seconds ≡ start_of day.number }
    {
        Moment {
            seconds: self.first_second(day.number),
        }
    }

    /// The Eastern date of a moment.
    pub fn date_of(&self, moment: Moment) -> Day
        ensures { IsDateOf moment.seconds result.number }
    {
        // A day begins four or five hours after its midnight in UTC.
        let number = ((moment.seconds - 18_000) / 86_400) as u32;
        if number < LAST && self.first_second(number + 1) <= moment.seconds {
            return Day { number: number + 1 };
        }
        Day { number }
    }

    /// The moment of a minute of a day from 8:00 to 18:00, for a day up to 2079-12-31.
    pub fn closing(&self, day: Day, minute: u16) -> Moment
        requires early { 480 ≤ minute }
        requires late { minute ≤ 1080 }
        requires day { day.number ≤ 40176 }
        ensures { result.seconds ≡ closing_of day.number minute }
    {
        // Clocks change at two in the morning, so from 8:00 on the time is that in which the next day begins.
        Moment {
            seconds: self.first_second(day.number + 1) - 60 * (1440 - minute as u64),
        }
    }
}
