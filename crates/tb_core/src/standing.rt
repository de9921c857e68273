//! What stands of a bidder in an auction.
ghost use Rattle.std.specs.Prelude.{◌≡◌, List};
ghost use Rattle.tb_rules.specs.BidRule.{standing_in};
ghost use Rattle.tb_message.specs.declared.message.Entry.{Entry};
ghost use Rattle.tb_history.specs.LiveBids.{standing_of};
ghost use Rattle.tb_history.specs.Readings.{place_of};
ghost use Rattle.tb_core.specs.House.{AreTied};
ghost use Rattle.tb_shelving.specs.Standings.{capped};

use crate::tables::Tables;
use tb_rules::Own;
use tb_shelving::sums_of;
use tb_tables::{few_bids, has_report};
use tb_units::Ident;

/// What stands of the bidder of this number in the auction, its par by the auction's book. Accepted bids are counted up
/// to the most there can be.
pub fn own_of(tables: &Tables, auction: &Ident, bidder: &Ident, number: u32) -> Own
    requires tied { (history : List Entry) × AreTied history tables.now }
    requires number { number ≡ place_of tables.now.bidders.list bidder.now }
    ensures { standing_in result
        ≡ capped (standing_of tables.now.bids.list tables.now.cancels.list tables.now.reports.list auction.now
        bidder.now) }
{
    let (competitive, noncompetitive) = sums_of(&tables.shelf, auction, number);
    let accepted = few_bids(&tables.bids, auction, bidder);
    let reported = has_report(&tables.reports, auction, bidder);
    Own {
        competitive,
        noncompetitive,
        accepted,
        reported,
    }
}
