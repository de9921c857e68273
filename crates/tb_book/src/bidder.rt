//! What each bidder bids, kept as a sum of each kind and found by the hash of the bidder's number.
ghost use Rattle.std.specs.Prelude.{◌≡◌, ◌+◌, ◌<◌, ◌≤◌};
ghost use Rattle.std.specs.HashMap.{spare};
ghost use Rattle.tb_book.specs.Books.{most_bid};
ghost use Rattle.tb_book.specs.Indexes.{IsRaised, total_of};

use std::collections::HashMap;

/// A bidder's par in whole dollars: of its lines with a rate, and of those without.
#[derive(Clone, Copy)]
pub struct Sums {
    pub competitive: u128,
    pub noncompetitive: u128,
}

// The seed of the hash is fixed, so that one who chooses keys could choose such as collide, and each look-up would go
// over all of them. A bidder's number is given by its enrolment, which is the operator's: no sender chooses it.
/// The sums of bidders by their numbers.
pub type Bidders = HashMap<u32, Sums>;

/// The bidder's sums, which are zero where it has no entry.
#[tactic(auto, unfolding(crate::specs::Indexes::total_of))]
pub fn totals_of(bidders: &Bidders, bidder: u32) -> (u128, u128)
    ensures competitive { result.0 ≡ total_of (λ sums. sums.competitive) bidder bidders.now }
    ensures noncompetitive { result.1 ≡ total_of (λ sums. sums.noncompetitive) bidder bidders.now }
{
    match bidders.get(&bidder) {
        Some(sums) => (sums.competitive, sums.noncompetitive),
        None => (0, 0),
    }
}

/// Adds these amounts to the bidder's sums.
#[tactic(auto, unfolding(crate::specs::Indexes::total_of))]
pub fn raise(bidders: &mut Bidders, bidder: u32, competitive: u128, noncompetitive: u128)
    requires room { 0 < spare bidders.old }
    requires competitive { total_of (λ sums. sums.competitive) bidder bidders.old + competitive ≤ most_bid }
    requires noncompetitive { total_of (λ sums. sums.noncompetitive) bidder bidders.old + noncompetitive ≤ most_bid }
    ensures competitive { IsRaised (λ sums. sums.competitive) bidder competitive bidders.old bidders.new }
    ensures noncompetitive { IsRaised (λ sums. sums.noncompetitive) bidder noncompetitive bidders.old bidders.new }
    ensures room { spare bidders.old ≤ spare bidders.new + 1 }
{
    match bidders.get_mut(&bidder) {
        Some(sums) => {
            sums.competitive += competitive;
            sums.noncompetitive += noncompetitive;
        }
        None => {
            let _ = bidders.insert(
                bidder,
                Sums {
                    competitive,
                    noncompetitive,
                },
            );
        }
    }
}

/// Takes these amounts off the bidder's sums, for which no room is needed. An entry whose sums are zero stays.
#[tactic(auto, unfolding(crate::specs::Indexes::total_of))]
pub fn lower(bidders: &mut Bidders, bidder: u32, competitive: u128, noncompetitive: u128)
    requires competitive { competitive ≤ total_of (λ sums. sums.competitive) bidder bidders.old }
    requires noncompetitive { noncompetitive ≤ total_of (λ sums. sums.noncompetitive) bidder bidders.old }
    ensures competitive { IsRaised (λ sums. sums.competitive) bidder competitive bidders.new bidders.old }
    ensures noncompetitive { IsRaised (λ sums. sums.noncompetitive) bidder noncompetitive bidders.new bidders.old }
    ensures room { spare bidders.new ≡ spare bidders.old }
{
    if let Some(sums) = bidders.get_mut(&bidder) {
        sums.competitive -= competitive;
        sums.noncompetitive -= noncompetitive;
    }
}
