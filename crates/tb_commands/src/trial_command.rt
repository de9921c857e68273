//! The command `trial`.
ghost use Rattle.std.specs.Prelude.{◌≡◌, ◌≤◌, ◌^◌, IfOk};
ghost use Rattle.tb_link.specs.Counts.{NeverFalls};
ghost use Rattle.tb_commands.specs.TrialRun.{TrialEnds, trial_text};

use crate::command_endings::PrintEnding;
use std::alloc::Global;
use tb_history::Figures;
use tb_link::Sink;
use tb_text_book::{cut_lines, push_line};
use tb_units::{OutOfMemory, Short};

/// Prints the figures of the auction of so many bids, 1 to 1,000,000, that follow from the seed. Nothing is written
/// before they are all there.
pub fn trial<O: Sink>(alloc: Global, seed: u64, count: u64, out: &mut O) -> PrintEnding
    requires some { 1 ≤ count }
    requires limited { count ≤ 10 ^ 6 }
    ensures ends { TrialEnds seed count result (O.sink out.old) (O.sink out.new) }
    ensures out_count { NeverFalls (O.sink out.old).faults (O.sink out.new).faults }
{
    let figures = match tb_trial::trial(alloc, seed, count) {
        Ok(figures) => figures,
        Err(_) => return PrintEnding::OutOfMemory,
    };
    match trial_text(alloc, count, &figures) {
        Ok(text) => match out.write(&text) {
            Ok(()) => PrintEnding::Done,
            Err(_) => PrintEnding::WriteFault,
        },
        Err(_) => PrintEnding::OutOfMemory,
    }
}

// The lines of the figures.
fn trial_text(alloc: Global, count: u64, figures: &Figures) -> Result<Vec<u8>, OutOfMemory>
    ensures { IfOk result (λ text. text.items ≡ trial_text count figures.now) }
{
    let mut text = Vec::new(alloc);
    push_line(&mut text, b"bids", Short::whole(count as u128).bytes())?;
    text.extend_from_slice(&cut_lines(alloc, &figures.cut)?)?;
    push_line(&mut text, b"awarded", figures.competitive.print().bytes())?;
    Ok(text)
}
