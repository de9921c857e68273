//! A clock in memory, which tells its moments.
ghost use Rattle.std.specs.Prelude.{◌≡◌, ◌+◌, ◌-◌, ◌<◌, ◌≤◌, min, get_or, map, vec_len};
ghost use Rattle.tb_gates.specs.Clocks.{ReadsClock};
ghost use Rattle.tb_link.specs.Counts.{last_count};

use crate::clock::Clock;
use tb_units::Moment;

/// Gives the moments of a list in order, and its last one again and again.
#[derive(Drop)]
pub struct ListClock {
    moments: Vec<Moment>,
    at: usize,
    last: Moment,
    readings: u64,
    ghost few: { readings ≤ last_count },
    ghost within: { at < vec_len moments },
    ghost in_turn: { at ≡ min readings (vec_len moments - 1) },
}

impl ListClock {
    /// Gives these moments, of which there has to be one.
    pub fn new(moments: Vec<Moment>) -> ListClock
        requires { 1 ≤ vec_len moments }
        ensures moments { result.moments.items ≡ moments.items }
        ensures start { (result.at ≡ 0) × (result.readings ≡ 0) }
    {
        let last = moments[0];
        ListClock {
            moments,
            at: 0,
            last,
            readings: 0,
        }
    }
}

impl Clock for ListClock {
    ghost use Rattle.tb_gates.specs.Memory.{list_clock, seconds_of};

    ghost clock = { list_clock };

    #[tactic(auto, using(crate::proofs::ClockLemmas::seconds_at, crate::proofs::ClockLemmas::contains_at))]
    fn now(&mut self) -> Moment
        ensures reads { ReadsClock (list_clock self.old) (list_clock self.new) result.seconds }
        // It gives the next moment of its list, and the last one again.
        ensures next { result.seconds ≡ get_or (seconds_of self.old.moments.items) self.old.at 0 }
        ensures on { self.new.at ≡ min (self.old.at + 1) (vec_len self.old.moments - 1) }
    {
        let moment = self.moments[self.at];
        if self.at + 1 < self.moments.len() {
            self.at += 1;
        }
        self.readings = self.readings.saturating_add(1);
        self.last = moment;
        moment
    }

    ghost bounded = { λ self. self.few };
}
