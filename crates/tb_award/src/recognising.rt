//! What is recognised of the lines of a book (31 CFR 356.12 and 356.22).
ghost use Rattle.std.specs.Prelude.{◌≡◌, ◌+◌, ◌*◌, ◌%◌, ◌<◌, ◌≤◌, ◌↔◌, ◌++◌, ◌∷◌, [], length, replicate, slice_index};
ghost use Rattle.std.specs.Prelude.{min, All, IfOk, IsTrue, List, vec_len, vec_capacity};
ghost use Rattle.tb_units.specs.declared.lines.RateLine.{RateLine};
ghost use Rattle.tb_units.specs.LineOrder.{AreInOrder};
ghost use Rattle.tb_award.specs.Cuts.{total_of};
ghost use Rattle.tb_award.specs.Limits.{cap_of};
ghost use Rattle.tb_award.specs.Recognition.{limits_by, IsRecognitionOf};
ghost use Rattle.tb_award.specs.Passes.{AreSettledOf, IsReadingOf, IsSameBid, with_line};
ghost use Rattle.tb_award.specs.Room.{KeepsRoom};

use crate::limits::{cap, limit};
use crate::recognised::Recognised;
use std::alloc::Global;
use std::sync::ledger::Ledger;
use tb_units::{Dollars, Lines, OutOfMemory, RateLine, Steps};

/// What is recognised of lines in order. `positions` has each bidder's reported position by its number, in whole
/// dollars; a negative one counts as zero. The offering is a multiple of 100. `OutOfMemory` where the memory for the
/// result is wanting.
pub fn recognise<B: Lines, L: Ledger>(
    alloc: Global,
    lines: &B,
    positions: &[i64],
    offering: Dollars,
    steps: &mut Steps<L>,
) -> Result<Recognised, OutOfMemory>
    requires hundreds { offering.value % 100 ≡ 0 }
    requires known { All (λ line. line.bidder < length positions.now) (B.lines_of lines.now) }
    ensures recognised { IfOk result
        (λ recognised. IsRecognitionOf (B.lines_of lines.now) positions.now offering.value recognised.lines) }
    // No more is recognised than is bid.
    ensures within { IfOk result (λ recognised. total_of recognised.lines ≤ total_of (B.lines_of lines.now)) }
    ensures steps { steps.new ≤ steps.old + length (B.lines_of lines.now) * B.cost lines.now }
{
    let mut recognised = Recognised::empty(alloc);
    recognised.reserve(lines.lines(), positions.len() as u64)?;
    recognise_into(&mut recognised, lines, positions, offering, steps);
    Ok(recognised)
}

/// Like `recognise`, into a result that already has the room. It takes no memory, and loses no room.
pub fn recognise_into<B: Lines, L: Ledger>(
    into: &mut Recognised,
    lines: &B,
    positions: &[i64],
    offering: Dollars,
    steps: &mut Steps<L>,
)
    requires hundreds { offering.value % 100 ≡ 0 }
    requires known { All (λ line. line.bidder < length positions.now) (B.lines_of lines.now) }
    requires line_room { length (B.lines_of lines.now) ≤ into.old.line_room }
    requires bidder_room { length positions.now ≤ into.old.bidder_room }
    ensures recognised { IsRecognitionOf (B.lines_of lines.now) positions.now offering.value into.new.lines }
    ensures within { total_of into.new.lines ≤ total_of (B.lines_of lines.now) }
    ensures room { KeepsRoom into.old into.new }
    ensures steps { steps.new ≤ steps.old + length (B.lines_of lines.now) * B.cost lines.now }
{
    start(&mut into.lines, &mut into.taken, positions.len());
    recognise_lines(
        &mut into.lines,
        &mut into.taken,
        lines,
        positions,
        offering,
        steps,
    );
}

// Nothing is recognised yet, and nothing taken of any bidder's limit.
fn start(recognised: &mut Vec<RateLine>, taken: &mut Vec<u128>, bidders: usize)
    requires { bidders ≤ vec_capacity taken.old }
    ensures recognised { recognised.new.items ≡ [] }
    ensures taken { taken.new.items ≡ replicate bidders 0 }
    ensures room { vec_capacity recognised.new ≡ vec_capacity recognised.old }
    ensures taken_room { vec_capacity taken.new ≡ vec_capacity taken.old }
{
    recognised.clear();
    taken.clear();
    for _ in 0..bidders {
        taken.push_reserved(0);
    }
}

// What is recognised of all lines, where nothing is yet.
fn recognise_lines<B: Lines, L: Ledger>(
    recognised: &mut Vec<RateLine>,
    taken: &mut Vec<u128>,
    lines: &B,
    positions: &[i64],
    offering: Dollars,
    steps: &mut Steps<L>,
)
    requires hundreds { offering.value % 100 ≡ 0 }
    requires known { All (λ line. line.bidder < length positions.now) (B.lines_of lines.now) }
    requires room { length (B.lines_of lines.now) ≤ vec_capacity recognised.old }
    requires none { AreSettledOf [] positions.now offering.value recognised.old.items taken.old.items }
    ensures settled { AreSettledOf (B.lines_of lines.now) positions.now offering.value recognised.new.items
        taken.new.items }
    ensures room { vec_capacity recognised.new ≡ vec_capacity recognised.old }
    ensures taken_room { vec_capacity taken.new ≡ vec_capacity taken.old }
    ensures steps { steps.new ≤ steps.old + length (B.lines_of lines.now) * B.cost lines.now }
{
    let mut reading: Option<RateLine> = None;
    for place in 0..lines.lines() {
        let line = lines.line(place, steps);
        reading = Some(match reading {
            None => capped(line, line.amount.value, offering),
            Some(bid) => read_on(recognised, taken, bid, line, positions, offering),
        });
    }
    if let Some(bid) = reading {
        settle(recognised, taken, bid, positions, offering);
    }
}

// The bid that is read after this line: the old one grown by the line or, once that is settled, the line itself.
fn read_on(
    recognised: &mut Vec<RateLine>,
    taken: &mut Vec<u128>,
    bid: RateLine,
    line: RateLine,
    positions: &[i64],
    offering: Dollars,
) -> RateLine
    requires hundreds { offering.value % 100 ≡ 0 }
    requires bidders { length taken.old.items ≡ length positions.now }
    requires known { bid.bidder < length positions.now }
    requires line_known { line.bidder < length positions.now }
    requires left { slice_index taken.old.items bid.bidder ≤ limits_by offering.value positions.now bid.bidder }
    requires room { vec_len recognised.old < vec_capacity recognised.old }
    ensures reading { (lines : List RateLine) → AreInOrder (lines ++ line ∷ [])
        → IsReadingOf lines positions.now offering.value recognised.old.items taken.old.items bid
        → IsReadingOf (lines ++ line ∷ []) positions.now offering.value recognised.new.items taken.new.items result }
    ensures room { vec_capacity recognised.new ≡ vec_capacity recognised.old }
    ensures taken_room { vec_capacity taken.new ≡ vec_capacity taken.old }
{
    if is_same_bid(&bid, &line) {
        return capped(bid, bid.amount.value + line.amount.value, offering);
    }
    settle(recognised, taken, bid, positions, offering);
    capped(line, line.amount.value, offering)
}

// The bids are of one bidder at one rate.
fn is_same_bid(one: &RateLine, other: &RateLine) -> bool
    ensures { IsTrue result ↔ IsSameBid one.now other.now }
{
    one.rate.steps == other.rate.steps && one.bidder == other.bidder
}

// The bid with this amount, cut to the cap.
fn capped(bid: RateLine, amount: u128, offering: Dollars) -> RateLine
    requires { offering.value % 100 ≡ 0 }
    ensures same { IsSameBid result bid }
    ensures amount { result.amount.value ≡ min amount (cap_of offering.value) }
{
    RateLine {
        amount: Dollars {
            value: amount.min(cap(offering).value),
        },
        ..bid
    }
}

// Recognises of the bidder's bid at a rate what its limit still lets through.
fn settle(
    recognised: &mut Vec<RateLine>,
    taken: &mut Vec<u128>,
    bid: RateLine,
    positions: &[i64],
    offering: Dollars,
)
    requires hundreds { offering.value % 100 ≡ 0 }
    requires bidders { length taken.old.items ≡ length positions.now }
    requires known { bid.bidder < length positions.now }
    requires left { slice_index taken.old.items bid.bidder ≤ limits_by offering.value positions.now bid.bidder }
    requires room { vec_len recognised.old < vec_capacity recognised.old }
    ensures settled { (lines : List RateLine)
        → IsReadingOf lines positions.now offering.value recognised.old.items taken.old.items bid
        → AreSettledOf lines positions.now offering.value recognised.new.items taken.new.items }
    ensures room { vec_capacity recognised.new ≡ vec_capacity recognised.old }
    ensures taken_room { vec_capacity taken.new ≡ vec_capacity taken.old }
{
    let bidder = bid.bidder as usize;
    let left = limit(offering, positions[bidder]).value - taken[bidder];
    let amount = bid.amount.value.min(left);
    taken[bidder] += amount;
    keep(
        recognised,
        RateLine {
            amount: Dollars { value: amount },
            ..bid
        },
    );
}

// Adds the line, if it has an amount.
fn keep(recognised: &mut Vec<RateLine>, line: RateLine)
    requires { vec_len recognised.old < vec_capacity recognised.old }
    ensures recognised { recognised.new.items ≡ with_line recognised.old.items line }
    ensures room { vec_capacity recognised.new ≡ vec_capacity recognised.old }
{
    if line.amount.value > 0 {
        recognised.push_reserved(line);
    }
}
