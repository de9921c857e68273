//! The reported positions of an auction's bidders, for a reading.
ghost use Rattle.std.specs.Prelude.{◌≡◌, IfOk};
ghost use Rattle.tb_ledger.specs.Settling.{positions_by};

use crate::settling::fill_positions;
use std::alloc::Global;
use tb_tables::{Bidders, Reports};
use tb_units::{Ident, OutOfMemory};

/// The last reported position of each bidder in the auction, in whole dollars, at the bidder's place in the order of
/// enrolment. It is 0 where none is reported.
pub fn positions_in(
    alloc: Global,
    bidders: &Bidders,
    reports: &Reports,
    auction: &Ident,
) -> Result<Vec<i64>, OutOfMemory>
    ensures { IfOk result (λ positions. positions.items ≡ positions_by reports.now.list auction.now bidders.now.list) }
{
    let mut positions = Vec::new(alloc);
    positions.reserve(bidders.rows().len())?;
    fill_positions(&mut positions, bidders, reports, auction);
    Ok(positions)
}
