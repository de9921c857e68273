//! Holidays in the order of their dates, and the payment date of a bill (31 CFR 356.30).
ghost use Rattle.std.specs.Prelude.{◌≡◌, ◌≢◌, ◌+◌, ◌<◌, ◌≤◌, ◌∷◌, List, [], true, false, nat_lt, slice_index_or, length, OnOk, vec_len, vec_capacity};
ghost use Rattle.tb_units.specs.Places.{IsPlace};
ghost use Rattle.tb_units.specs.declared.day.Day.{Day};
ghost use Rattle.tb_history.specs.Tables.{payment_day};
ghost use Rattle.tb_tables.specs.Calendar.{AreByDate, AddsDays, IsCalendar};

use std::alloc::Global;
use std::marker::Model;
use tb_terms::payment_date;
use tb_units::{Day, OutOfMemory};

/// Holidays in order. Contracts see them, and how many adds are sure.
#[derive(Drop)]
pub struct Calendar {
    days: Vec<Day>,
}

impl Model for Calendar {
    ghost use Rattle.std.specs.Prelude.{◌-◌, vec_len, vec_capacity};
    ghost use Rattle.tb_units.specs.declared.day.Day.{Day};
    ghost use Rattle.tb_index.specs.Listed.{Listed};
    ghost use Rattle.tb_tables.specs.Calendar.{AreByDate};

    ghost Value = { Listed Day };

    ghost view = { λ calendar.
        record { list = calendar.days.items; spare = vec_capacity calendar.days - vec_len calendar.days } };

    ghost invariant = { λ calendar. AreByDate calendar.days.items };
}

fn place_of(days: &[Day], day: Day) -> usize
    requires { AreByDate days.now }
    ensures { IsPlace (λ other. nat_lt other.number day.number) days.now result }
{
    days.partition_point(|other| other.number < day.number)
}

fn is_at(days: &[Day], place: usize, day: Day) -> bool
    ensures there { result ≡ true
        → (place < length days.now) × ((d : Day) → (slice_index_or days.now place d).number ≡ day.number) }
    ensures absent { result ≡ false → (d : Day) → place < length days.now
        → (slice_index_or days.now place d).number ≢ day.number }
{
    place < days.len() && days[place].number == day.number
}

// Puts a day at its place, where it isn't there already.
fn put(days: &mut Vec<Day>, day: Day)
    requires order { AreByDate days.old.items }
    requires room { vec_len days.old < vec_capacity days.old }
    ensures order { AreByDate days.new.items }
    ensures added { AddsDays (day ∷ []) days.old.items days.new.items }
    ensures few { vec_len days.new ≤ vec_len days.old + 1 }
    ensures capacity { vec_capacity days.new ≡ vec_capacity days.old }
{
    let place = place_of(days, day);
    if is_at(days, place, day) {
        return;
    }
    days.insert(place, day).unwrap();
}

impl Calendar {
    /// No days, which takes no memory.
    pub fn new(alloc: Global) -> Calendar
        ensures { result.list ≡ [] }
    {
        Calendar {
            days: Vec::new(alloc),
        }
    }

    /// Makes so many adds sure. No other call takes memory.
    pub fn reserve(&mut self, more: usize) -> Result<(), OutOfMemory>
        ensures spare { OnOk result (more ≤ self.new.spare) }
        // The days stay, and no room is lost, whatever the result.
        ensures list { self.new.list ≡ self.old.list }
        ensures room { self.old.spare ≤ self.new.spare }
    {
        self.days.reserve(more)?;
        Ok(())
    }

    /// Enters a day, which can't fail.
    pub fn enter(&mut self, day: Day)
        requires { 0 < self.old.spare }
        ensures added { AddsDays (day ∷ []) self.old.list self.new.list }
        ensures spare { self.old.spare ≤ self.new.spare + 1 }
    {
        put(&mut self.days, day);
    }

    /// The day on which a bill that matures is paid.
    pub fn payment_date(&self, maturity: Day) -> Day
        requires few { length self.now.list ≤ 4096 }
        requires early { maturity.number ≤ 40176 }
        ensures { (entered : List Day) → IsCalendar self.now.list entered → payment_day entered maturity
            ≡ result.number }
    {
        payment_date(maturity, &self.days)
    }
}
