//! Fields of a record, read from the front of what is left of it.
ghost use Rattle.std.specs.Prelude.{◌≡◌};
ghost use Rattle.std.specs.Option.{option_map};
ghost use Rattle.std.specs.Int.{w32, w64};
ghost use Rattle.tb_message.specs.Forms.{text, whole, signed, width_of};
ghost use Rattle.tb_message.specs.Forms as form;
ghost use Rattle.tb_message.specs.Reading.{front_at, part_at, whole_at};

use crate::version::Version;
use tb_terms::Cusip;
use tb_units::{Cents, Day, Dollars, Ident, Moment, Rate};

/// What is left of the bytes that are read.
#[derive(Drop)]
pub(crate) struct Fields<'a> {
    pub(crate) rest: &'a [u8],
}

impl<'a> Fields<'a> {
    // So many bytes.
    fn front(&mut self, size: usize) -> Option<&'a [u8]>
        ensures { option_map (λ x. (x.now, self.new.rest.now)) result ≡ front_at size self.old.rest.now }
    {
        if self.rest.len() < size {
            return None;
        }
        let (front, rest) = self.rest.split_at(size);
        self.rest = rest;
        Some(front)
    }

    fn word64(&mut self) -> Option<u64>
        ensures { option_map (λ n. (whole n, self.new.rest.now)) result ≡ whole_at w64 self.old.rest.now }
    {
        let front = self.front(8)?;
        Some(u64::from_be_bytes([
            front[0], front[1], front[2], front[3], front[4], front[5], front[6], front[7],
        ]))
    }

    fn word32(&mut self) -> Option<u32>
        ensures { option_map (λ n. (whole n, self.new.rest.now)) result ≡ whole_at w32 self.old.rest.now }
    {
        let front = self.front(4)?;
        Some(u32::from_be_bytes([front[0], front[1], front[2], front[3]]))
    }

    #[tactic(auto, unfolding(crate::specs::Reading::part_at), using(std::proofs::lemmas::Bool::Decides::nat_tests))]
    pub(crate) fn amount(&mut self) -> Option<Dollars>
        ensures { option_map (λ x. (whole x.value, self.new.rest.now)) result ≡ part_at form.amount self.old.rest.now }
    {
        let value = self.word64()?;
        if value > Dollars::MOST_READ {
            return None;
        }
        Some(Dollars {
            value: value as u128,
        })
    }

    #[tactic(auto, unfolding(crate::specs::Reading::part_at), using(std::proofs::lemmas::Bool::Decides::nat_tests))]
    pub(crate) fn money(&mut self) -> Option<Cents>
        ensures { option_map (λ x. (whole x.value, self.new.rest.now)) result ≡ part_at form.money self.old.rest.now }
    {
        let value = self.word64()?;
        if value < 1 || value > 100_000_000_000_000 {
            return None;
        }
        Some(Cents {
            value: value as u128,
        })
    }

    #[tactic(auto, unfolding(crate::specs::Reading::part_at), using(std::proofs::lemmas::Bool::Decides::nat_tests))]
    pub(crate) fn name(&mut self) -> Option<Ident>
        ensures { option_map (λ x. (text x, self.new.rest.now)) result ≡ part_at form.name self.old.rest.now }
    {
        let [size, rest @ ..] = self.rest else {
            return None;
        };
        self.rest = rest;
        let front = self.front(*size as usize)?;
        Ident::of_bytes(front)
    }

    #[tactic(auto, unfolding(crate::specs::Reading::part_at), using(std::proofs::lemmas::Bool::Decides::nat_tests))]
    pub(crate) fn cusip(&mut self) -> Option<Cusip>
        ensures { option_map (λ x. (text x.bytes, self.new.rest.now)) result ≡ part_at form.cusip self.old.rest.now }
    {
        let mut bytes = [0; 9];
        bytes.copy_from_slice(self.front(9)?);
        Some(Cusip { bytes })
    }

    #[tactic(auto, unfolding(crate::specs::Reading::part_at), using(std::proofs::lemmas::Bool::Decides::nat_tests))]
    pub(crate) fn number(&mut self) -> Option<u64>
        ensures { option_map (λ x. (whole x, self.new.rest.now)) result ≡ part_at form.number self.old.rest.now }
    {
        let number = self.word64()?;
        if number < 1 || number > 1_000_000_000_000_000 {
            return None;
        }
        Some(number)
    }

    #[tactic(auto, unfolding(crate::specs::Reading::part_at), using(std::proofs::lemmas::Bool::Decides::nat_tests))]
    pub(crate) fn position(&mut self) -> Option<i64>
        ensures { option_map (λ x. (signed x, self.new.rest.now)) result ≡ part_at form.position self.old.rest.now }
    {
        let front = self.front(8)?;
        let position = i64::from_be_bytes([
            front[0], front[1], front[2], front[3], front[4], front[5], front[6], front[7],
        ]);
        if position.unsigned_abs() > Dollars::MOST_READ {
            return None;
        }
        Some(position)
    }

    #[tactic(auto, unfolding(crate::specs::Reading::part_at), using(std::proofs::lemmas::Bool::Decides::nat_tests))]
    pub(crate) fn rate(&mut self) -> Option<Rate>
        ensures { option_map (λ x. (whole x.steps, self.new.rest.now)) result ≡ part_at form.rate self.old.rest.now }
    {
        let steps = self.word32()?;
        if steps > 199_999 {
            return None;
        }
        Some(Rate { steps })
    }

    #[tactic(auto, unfolding(crate::specs::Reading::part_at), using(std::proofs::lemmas::Bool::Decides::nat_tests))]
    pub(crate) fn day(&mut self) -> Option<Day>
        ensures { option_map (λ x. (whole x.number, self.new.rest.now)) result ≡ part_at form.day self.old.rest.now }
    {
        let number = self.word32()?;
        if number < 10_957 || number > 47_481 {
            return None;
        }
        Some(Day { number })
    }

    #[tactic(auto, unfolding(crate::specs::Reading::part_at), using(std::proofs::lemmas::Bool::Decides::nat_tests))]
    pub(crate) fn minute(&mut self) -> Option<u16>
        ensures { option_map (λ x. (whole x, self.new.rest.now)) result ≡ part_at form.minute self.old.rest.now }
    {
        let front = self.front(2)?;
        let minute = u16::from_be_bytes([front[0], front[1]]);
        if minute >= 1440 {
            return None;
        }
        Some(minute)
    }

    // The seconds of a moment, in the width of the version.
    fn seconds(&mut self, version: Version) -> Option<u64>
        ensures { option_map (λ n. (whole n, self.new.rest.now)) result
            ≡ whole_at (width_of version) self.old.rest.now }
    {
        match version {
            Version::First => Some(self.word32()? as u64),
            Version::Second => self.word64(),
        }
    }

    #[tactic(auto, unfolding(crate::specs::Reading::part_at), using(std::proofs::lemmas::Bool::Decides::nat_tests))]
    pub(crate) fn moment(&mut self, version: Version) -> Option<Moment>
        ensures { option_map (λ x. (whole x.seconds, self.new.rest.now)) result
            ≡ part_at (form.moment version) self.old.rest.now }
    {
        let seconds = self.seconds(version)?;
        if seconds < Moment::FIRST || seconds > Moment::LAST {
            return None;
        }
        Some(Moment { seconds })
    }
}
