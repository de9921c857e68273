//! Offers by their sellers and numbers.
ghost use Rattle.std.specs.Prelude.{◌≡◌, ℕ, ◌+◌, ◌<◌, ◌≤◌, ◌==◌, None, Some, IsSomeAnd, true};
ghost use Rattle.tb_funds.specs.Amounts.{part};
ghost use Rattle.tb_funds.specs.Offers.{OffersAreInOrder, Puts, is_open, is_open_of, offer_in, open_in};

use tb_blocks::{Keyed, Ordered};
use tb_units::{Cents, Dollars};

/// Par of a security that the seller offers the buyer for a price, under a number of the seller's.
#[derive(Clone, Copy, Debug, PartialEq, Eq)]
pub struct Offer {
    pub seller: u32,
    pub number: u64,
    pub buyer: u32,
    pub security: u32,
    pub par: Dollars,
    pub price: Cents,
}

/// What became of an offer.
#[derive(Clone, Copy, Debug, PartialEq, Eq)]
pub enum State {
    Open,
    Bought,
    Retracted,
}

/// An offer as it is kept, with what became of it.
#[derive(Clone, Copy, Debug, PartialEq, Eq)]
pub struct KeptOffer {
    pub seller: u32,
    pub number: u64,
    pub buyer: u32,
    pub security: u32,
    pub par: Dollars,
    pub price: Cents,
    pub state: State,
}

impl Keyed for KeptOffer {
    type Key = (u32, u64);

    ghost key_of = { λ kept. record { 0 = kept.seller; 1 = kept.number } };

    fn key(&self) -> (u32, u64) {
        (self.seller, self.number)
    }
}

/// The offer of this seller and number, where there is one.
pub fn find_offer(offers: &Ordered<KeptOffer>, seller: u32, number: u64) -> Option<KeptOffer>
    requires { OffersAreInOrder offers.now.elements }
    ensures { result ≡ offer_in seller number offers.now.elements }
{
    match offers.find(&(seller, number)) {
        Some(spot) => Some(*offers.at_spot(spot)),
        None => None,
    }
}

/// Adds an offer of a seller and number of which there is none.
pub fn add_offer(offers: &mut Ordered<KeptOffer>, kept: KeptOffer)
    requires in_order { OffersAreInOrder offers.old.elements }
    requires new { offer_in kept.seller kept.number offers.old.elements ≡ None }
    requires room { 0 < offers.old.spare }
    ensures offers { Puts kept offers.old.elements offers.new.elements }
    ensures opens { (other : ℕ) → open_in other offers.new.elements
        ≡ open_in other offers.old.elements + part (is_open_of other kept) 1 }
    ensures in_order { OffersAreInOrder offers.new.elements }
    ensures room { offers.new.spare + 1 ≡ offers.old.spare }
{
    offers.insert(kept);
}

/// Puts another in place of the offer of this seller and number.
pub fn put_offer(offers: &mut Ordered<KeptOffer>, old: KeptOffer, kept: KeptOffer)
    requires in_order { OffersAreInOrder offers.old.elements }
    requires there { offer_in kept.seller kept.number offers.old.elements ≡ Some old }
    ensures offers { Puts kept offers.old.elements offers.new.elements }
    ensures opens { (other : ℕ) → open_in other offers.new.elements + part (is_open_of other old) 1
        ≡ open_in other offers.old.elements + part (is_open_of other kept) 1 }
    ensures in_order { OffersAreInOrder offers.new.elements }
    ensures room { offers.new.spare ≡ offers.old.spare }
{
    if let Some(spot) = offers.find(&(kept.seller, kept.number)) {
        let _ = offers.replace_at(spot, kept);
    }
}
