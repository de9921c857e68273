//! Clocks.
ghost use Rattle.std.specs.Prelude.{◌≤◌};
ghost use Rattle.tb_link.specs.Counts.{last_count};
ghost use Rattle.tb_gates.specs.Clocks.{ClockState, ReadsClock};

use tb_units::Moment;

/// Tells the moment. It always answers.
pub trait Clock {
    /// The last reading, how many readings there were, and the moments that it gives, in order, where it tells them.
    ghost clock: { Self → ClockState };

    /// Reads the clock.
    fn now(&mut self) -> Moment
        ensures reads { ReadsClock (clock self.old) (clock self.new) result.seconds };

    /// The number of readings is at most its last value.
    ghost bounded: { (self : Self) → (clock self).readings ≤ last_count };
}
