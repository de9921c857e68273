//! What becomes of a trial.
ghost use Rattle.std.specs.Prelude.{◌≡◌, ◌≤◌, ◌^◌, pos, replicate, IfOk};
ghost use Rattle.tb_history.specs.Readings.{HasFigures};
ghost use Rattle.tb_trial.specs.Trials.{most_bidders, trial_bidding};

use crate::announcing::trial_terms;
use crate::stating::{BIDDERS, stated_book};
use std::alloc::Global;
use tb_history::Figures;
use tb_results::results;
use tb_units::OutOfMemory;

/// The figures of the auction of so many bids, 1 to 1,000,000, that follow from the seed. They are those of the
/// `results` reading of an auction with these bids.
pub fn trial(alloc: Global, seed: u64, count: u64) -> Result<Figures, OutOfMemory>
    requires some { 1 ≤ count }
    requires limited { count ≤ 10 ^ 6 }
    ensures { IfOk result (λ figures. HasFigures (trial_bidding seed count) figures) }
{
    let terms = trial_terms(alloc)?;
    let positions = no_positions(alloc)?;
    let book = stated_book(alloc, seed, count)?;
    let results = results(alloc, &terms, &book, &positions, None)?;
    Ok(results.figures.unwrap())
}

// Nobody reports a position.
fn no_positions(alloc: Global) -> Result<Vec<i64>, OutOfMemory>
    ensures { IfOk result (λ positions. positions.items ≡ replicate most_bidders (pos 0)) }
{
    Ok(vec![in alloc; 0; BIDDERS as usize]?)
}
