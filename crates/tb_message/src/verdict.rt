//! Verdicts on messages, and the lines that tell them.
ghost use Rattle.std.specs.Prelude.{◌≡◌, ◌+◌, ◌<◌, ◌≤◌, ◌^◌, [], ◌∷◌, ◌++◌, length, take, codes};
ghost use Rattle.std.specs.Fmt.{decimal};
ghost use Rattle.tb_terms.specs.Texts.{day_text};
ghost use Rattle.tb_terms.specs.Refusals.{number_of, name_of};
ghost use Rattle.tb_message.specs.Verdicts.{spaced, values_of, verdict_text};

use crate::writing::write_at;
use std::marker::Model;
use tb_terms::{Refusal, print_day};
use tb_units::{Day, Ident, Moment, Short};

/// What a message is answered. Accepted and repeated messages are told with their sender's number and the moment of
/// their entry.
#[derive(Clone, Copy, Debug, PartialEq, Eq)]
pub enum Verdict {
    Accepted { number: u64, moment: Moment },
    Repeat { number: u64, moment: Moment },
    Refused(Refusal),
}

/// A text of at most 160 bytes. Contracts see its bytes.
#[derive(Debug, Drop)]
pub struct Line {
    bytes: [u8; 160],
    used: usize,
}

impl Model for Line {
    ghost use Rattle.std.specs.Prelude.{ℕ, ◌≤◌, List, take};

    ghost Value = { List ℕ };

    ghost view = { λ r. take r.used r.bytes };

    ghost invariant = { λ r. r.used ≤ 160 };
}

impl Line {
    /// The bytes of the text.
    pub fn bytes(&self) -> &[u8]
        ensures bytes { result.now ≡ self.now }
        ensures few { length result.now ≤ 160 }
    {
        &self.bytes[..self.used]
    }

    fn new() -> Line
        ensures { result ≡ [] }
    {
        Line {
            bytes: [0; 160],
            used: 0,
        }
    }

    fn push(&mut self, more: &[u8])
        requires { length self.old + length more.now ≤ 160 }
        ensures { self.new ≡ self.old ++ more.now }
    {
        write_at(&mut self.bytes, self.used, more);
        self.used += more.len();
    }

    #[tactic(auto, using(crate::proofs::Texts::joined))]
    fn word(&mut self, word: &[u8])
        requires { length self.old + length word.now < 160 }
        ensures { self.new ≡ self.old ++ 32 ∷ word.now }
    {
        self.push(b" ");
        self.push(word);
    }

    fn number(&mut self, number: u128)
        requires small { number < 10 ^ 30 }
        requires room { length self.old ≤ 120 }
        ensures number { self.new ≡ self.old ++ 32 ∷ decimal number }
        ensures size { length self.new ≤ length self.old + 31 }
    {
        self.word(Short::whole(number).bytes());
    }

    fn day(&mut self, day: Day)
        requires room { length self.old ≤ 120 }
        ensures day { self.new ≡ self.old ++ 32 ∷ day_text day.number }
    {
        self.word(print_day(day).bytes());
    }

    fn name(&mut self, name: &Ident)
        requires room { length self.old ≤ 120 }
        ensures name { self.new ≡ self.old ++ 32 ∷ name.now }
    {
        self.word(name.bytes());
    }

    #[tactic(auto, using(crate::proofs::Texts::joined))]
    fn moments(&mut self, moment: Moment, closing: Moment)
        requires room { length self.old ≤ 60 }
        ensures { self.new ≡ self.old ++ spaced (decimal moment.seconds ∷ decimal closing.seconds ∷ []) }
    {
        self.number(moment.seconds as u128);
        self.number(closing.seconds as u128);
    }

    // What is printed behind the name of a refusal.
    #[tactic(auto, using(crate::proofs::Texts::joined))]
    fn values(&mut self, refusal: &Refusal)
        requires room { length self.old ≤ 60 }
        ensures { self.new ≡ self.old ++ spaced (values_of refusal.now) }
    {
        match refusal {
            Refusal::BadShape(field) => self.word(field.member().as_bytes()),
            Refusal::Late { moment, closing } => self.moments(*moment, *closing),
            Refusal::NotClosed { moment, closing } => self.moments(*moment, *closing),
            Refusal::MaturityDiffers { maturity } => self.day(*maturity),
            Refusal::NotIssueDate { issue } => self.day(*issue),
            Refusal::InsufficientFree { free } => self.number(free.value),
            Refusal::Unsettled { auction } => self.name(auction),
            Refusal::MoreThanPledged { left } => self.number(left.value),
            Refusal::NotDue { payment } => self.day(*payment),
            Refusal::InsufficientFunds { balance } => self.word(balance.print().bytes()),
            _ => {}
        }
    }
}

#[tactic(auto, using(crate::proofs::Texts::joined))]
fn accepted_line(number: u64, moment: Moment) -> Line
    ensures { result ≡ codes "accepted" ++ spaced (decimal number ∷ decimal moment.seconds ∷ []) }
{
    let mut line = Line::new();
    line.push(b"accepted");
    line.number(number as u128);
    line.number(moment.seconds as u128);
    line
}

#[tactic(auto, using(crate::proofs::Texts::joined))]
fn refused_line(refusal: &Refusal) -> Line
    ensures { result ≡ codes "refused"
        ++ spaced (decimal (number_of refusal.now) ∷ name_of refusal.now ∷ values_of refusal.now) }
{
    let mut line = Line::new();
    line.push(b"refused");
    line.number(refusal.number() as u128);
    line.word(refusal.name());
    line.values(refusal);
    line
}

/// The line that tells a verdict: `accepted` or `refused`, and its values, each after one space.
pub fn verdict_line(verdict: &Verdict) -> Line
    ensures { result ≡ verdict_text verdict.now }
{
    match verdict {
        Verdict::Accepted { number, moment } | Verdict::Repeat { number, moment } => {
            accepted_line(*number, *moment)
        }
        Verdict::Refused(refusal) => refused_line(refusal),
    }
}
