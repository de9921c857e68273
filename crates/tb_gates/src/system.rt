//! The system's clock.
ghost use Rattle.std.specs.Prelude.{◌≡◌, ◌≤◌};
ghost use Rattle.tb_link.specs.Counts.{last_count};

use crate::clock::Clock;
use std::time::{Clock as Time, SystemTime, UNIX_EPOCH};
use tb_units::Moment;

/// Tells the system's time, kept in the range of moments. Where the system gives none it repeats its last reading, at
/// first the least moment.
#[derive(Drop)]
pub struct SystemClock<'a, R> {
    time: &'a R,
    last: Moment,
    readings: u64,
    ghost few: { readings ≤ last_count },
}

impl<'a, R: Time> SystemClock<'a, R> {
    /// A clock that has given no reading.
    pub fn new(time: &'a R) -> SystemClock<'a, R>
        ensures { (result.readings ≡ 0) × (result.last.seconds ≡ 946702800) }
    {
        SystemClock {
            time,
            last: Moment {
                seconds: Moment::FIRST,
            },
            readings: 0,
        }
    }
}

// What the system gives, in seconds after 1970-01-01 in UTC.
fn system_seconds<R: Time>(time: &R) -> Option<u64> {
    let now = SystemTime::now(time).ok()?;
    let since = now.duration_since(UNIX_EPOCH).ok()?;
    Some(since.as_secs())
}

// The moment that is nearest.
fn in_range(seconds: u64) -> Moment {
    Moment {
        seconds: seconds.max(Moment::FIRST).min(Moment::LAST),
    }
}

impl<R: Time> Clock for SystemClock<'_, R> {
    ghost use Rattle.tb_gates.specs.Tcp.{system_clock};

    ghost clock = { system_clock };

    fn now(&mut self) -> Moment {
        if let Some(seconds) = system_seconds(self.time) {
            self.last = in_range(seconds);
        }
        self.readings = self.readings.saturating_add(1);
        self.last
    }

    ghost bounded = { λ self. self.few };
}
