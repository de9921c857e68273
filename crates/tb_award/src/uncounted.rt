//! Recognition for callers who count no steps.
ghost use Rattle.std.specs.Prelude.{◌≡◌, ◌%◌, ◌<◌, ◌≤◌, length, All, IfOk};
ghost use Rattle.tb_award.specs.Cuts.{total_of};
ghost use Rattle.tb_award.specs.Recognition.{IsRecognitionOf};
ghost use Rattle.tb_award.specs.Room.{KeepsRoom};

use crate::recognised::Recognised;
use crate::recognising::recognise_into;
use std::alloc::Global;
use std::marker::Brand;
use std::sync::ledger::{Blank, Ledger};
use tb_units::{Dollars, Lines, OutOfMemory, Steps};

/// Like `recognise`, without a count of steps.
pub fn recognise_uncounted<B: Lines>(
    alloc: Global,
    lines: &B,
    positions: &[i64],
    offering: Dollars,
) -> Result<Recognised, OutOfMemory>
    requires hundreds { offering.value % 100 ≡ 0 }
    requires known { All (λ line. line.bidder < length positions.now) (B.lines_of lines.now) }
    ensures recognised { IfOk result
        (λ recognised. IsRecognitionOf (B.lines_of lines.now) positions.now offering.value recognised.lines) }
    ensures within { IfOk result (λ recognised. total_of recognised.lines ≤ total_of (B.lines_of lines.now)) }
{
    let mut recognised = Recognised::empty(alloc);
    recognised.reserve(lines.lines(), positions.len() as u64)?;
    recognise_into_uncounted(&mut recognised, lines, positions, offering);
    Ok(recognised)
}

/// Like `recognise_into`, without a count of steps.
pub fn recognise_into_uncounted<B: Lines>(
    into: &mut Recognised,
    lines: &B,
    positions: &[i64],
    offering: Dollars,
)
    requires hundreds { offering.value % 100 ≡ 0 }
    requires known { All (λ line. line.bidder < length positions.now) (B.lines_of lines.now) }
    requires line_room { length (B.lines_of lines.now) ≤ into.old.line_room }
    requires bidder_room { length positions.now ≤ into.old.bidder_room }
    ensures recognised { IsRecognitionOf (B.lines_of lines.now) positions.now offering.value into.new.lines }
    ensures within { total_of into.new.lines ≤ total_of (B.lines_of lines.now) }
    ensures room { KeepsRoom into.old into.new }
{
    recognise_for::<B, Brand>(into, Blank::new(1), lines, positions, offering);
}

// The steps are counted in a ledger of their own, which nobody reads.
fn recognise_for<B: Lines, L: Ledger>(
    into: &mut Recognised,
    blank: Blank,
    lines: &B,
    positions: &[i64],
    offering: Dollars,
)
    requires name { blank.name ≡ L.name }
    requires parts { blank.parts ≡ L.parts }
    requires some { 0 < L.parts }
    requires hundreds { offering.value % 100 ≡ 0 }
    requires known { All (λ line. line.bidder < length positions.now) (B.lines_of lines.now) }
    requires line_room { length (B.lines_of lines.now) ≤ into.old.line_room }
    requires bidder_room { length positions.now ≤ into.old.bidder_room }
    ensures recognised { IsRecognitionOf (B.lines_of lines.now) positions.now offering.value into.new.lines }
    ensures within { total_of into.new.lines ≤ total_of (B.lines_of lines.now) }
    ensures room { KeepsRoom into.old into.new }
{
    let mut steps = Steps::<L>::new(blank);
    recognise_into(into, lines, positions, offering, &mut steps);
}
