//! The funds: what participants have, and what they offer.
ghost use Rattle.std.specs.Prelude.{◌≡◌, ℕ, ◌+◌, ◌<◌, ◌≤◌, ◌==◌, ◌↔◌, [], None, Some, OnOk, OnErr, IfErr, IfSome};
ghost use Rattle.std.specs.Prelude.{IsErr, IsNone};
ghost use Rattle.std.specs.Option.{option_map};
ghost use Rattle.tb_funds.specs.declared.offer.KeptOffer.{KeptOffer};
ghost use Rattle.tb_funds.specs.declared.offer.State.TheVariants as state;
ghost use Rattle.tb_funds.specs.Amounts.{part};
ghost use Rattle.tb_funds.specs.Offers.{Puts};
ghost use Rattle.tb_funds.specs.Funds.{balance_of, total_of, offer_of, open_of, most_funds, most_offers};
ghost use Rattle.tb_funds.specs.Funds.{SameMoney, TakesRoom, kept_as, offered, HasOpenOffer, MovesPrice, ClosesOne};

use crate::amount::{Amount, amount_of, lower, raise};
use crate::offer::{KeptOffer, Offer, State, add_offer, find_offer, put_offer};
use std::alloc::Global;
use std::marker::Model;
use tb_blocks::Ordered;
use tb_units::{Cents, OutOfMemory};

/// The balance is less than what is asked.
#[derive(Clone, Copy, Debug, PartialEq, Eq)]
pub struct InsufficientFunds {
    pub balance: Cents,
}

/// The seller has 1,000 open offers.
#[derive(Clone, Copy, Debug, PartialEq, Eq)]
pub struct OfferQuota;

/// Balances by their holders, and offers by their sellers and numbers. Contracts see these lists and the room for more.
#[derive(Drop)]
pub struct Funds {
    balances: Ordered<Amount>,
    // All balances together.
    total: u128,
    offers: Ordered<KeptOffer>,
    // How many offers of each seller are open.
    opens: Ordered<Amount>,
}

impl Model for Funds {
    ghost use Rattle.std.specs.Prelude.{min};
    ghost use Rattle.tb_funds.specs.Funds.{Money, AreKept};

    ghost Value = { Money };

    ghost view = { λ funds. record {
      balances = funds.balances.elements;
      offers = funds.offers.elements;
      spare_balances = funds.balances.spare;
      spare_offers = min funds.offers.spare funds.opens.spare;
    } };

    ghost invariant = { λ funds. AreKept funds.balances.elements funds.total funds.offers.elements
        funds.opens.elements };
}

impl Funds {
    // The most open offers of one seller.
    const MOST_OPEN: u128 = 1000;

    /// Nothing, which takes no memory.
    pub fn new(alloc: Global) -> Funds
        ensures balances { result.balances ≡ [] }
        ensures offers { result.offers ≡ [] }
    {
        Funds {
            balances: Ordered::new(alloc),
            total: 0,
            offers: Ordered::new(alloc),
            opens: Ordered::new(alloc),
        }
    }

    /// Takes the memory for so many more balances and offers. No other call takes memory.
    pub fn reserve(&mut self, balances: u64, offers: u64) -> Result<(), OutOfMemory>
        ensures balances { OnOk result (balances ≤ self.new.spare_balances) }
        ensures offers { OnOk result (offers ≤ self.new.spare_offers) }
        // The lists stay, and no room is lost, whatever the result.
        ensures lists { SameMoney self.old self.new }
        ensures room { TakesRoom 0 0 self.old self.new }
    {
        self.balances.reserve(balances as usize)?;
        self.offers.reserve(offers as usize)?;
        self.opens.reserve(offers as usize)?;
        Ok(())
    }

    /// Gives the holder so much.
    pub fn deposit(&mut self, holder: u32, cents: Cents)
        requires room { 0 < self.old.spare_balances }
        requires limit { total_of self.old + cents.value ≤ most_funds }
        ensures balances { (other : ℕ) → balance_of other self.new
            ≡ balance_of other self.old + part (holder == other) cents.value }
        ensures total { total_of self.new ≡ total_of self.old + cents.value }
        ensures offers { self.new.offers ≡ self.old.offers }
        ensures room { TakesRoom 1 0 self.old self.new }
    {
        raise(&mut self.balances, holder, cents.value);
        self.total += cents.value;
    }

    /// Takes so much from the holder. Refuses where the balance is less, and shows it.
    pub fn withdraw(&mut self, holder: u32, cents: Cents) -> Result<(), InsufficientFunds>
        ensures refused { IsErr result ↔ (balance_of holder self.old < cents.value) }
        ensures shows_balance { IfErr result (λ refusal. refusal.balance.value ≡ balance_of holder self.old) }
        ensures balances { OnOk result ((other : ℕ) → balance_of other self.new + part (holder == other) cents.value
            ≡ balance_of other self.old) }
        ensures total { OnOk result (total_of self.new + cents.value ≡ total_of self.old) }
        ensures offers { self.new.offers ≡ self.old.offers }
        ensures unchanged { OnErr result (self.new ≡ self.old) }
        ensures room { TakesRoom 0 0 self.old self.new }
    {
        let balance = self.balance(holder);
        if cents.value > balance.value {
            return Err(InsufficientFunds { balance });
        }
        lower(&mut self.balances, holder, cents.value);
        self.total -= cents.value;
        Ok(())
    }

    /// Keeps the offer, open. Refuses where 1,000 of the seller are.
    pub fn offer(&mut self, offer: Offer) -> Result<(), OfferQuota>
        requires room { 0 < self.old.spare_offers }
        requires new { offer_of offer.seller offer.number self.old ≡ None }
        ensures refused { IsErr result ↔ (most_offers ≤ open_of offer.seller self.old) }
        ensures offers { OnOk result (Puts (kept_as offer state.Open) self.old.offers self.new.offers) }
        ensures opens { OnOk result ((other : ℕ) → open_of other self.new
            ≡ open_of other self.old + part (offer.seller == other) 1) }
        ensures balances { self.new.balances ≡ self.old.balances }
        ensures unchanged { OnErr result (self.new ≡ self.old) }
        ensures room { TakesRoom 0 1 self.old self.new }
    {
        if amount_of(&self.opens, offer.seller) >= Funds::MOST_OPEN {
            return Err(OfferQuota);
        }
        add_offer(&mut self.offers, kept(offer));
        raise(&mut self.opens, offer.seller, 1);
        Ok(())
    }

    /// The offer of this seller and number with what became of it, where there is one.
    pub fn find(&self, seller: u32, number: u64) -> Option<(Offer, State)>
        ensures found { result
            ≡ option_map (λ (kept : KeptOffer). (offered kept, kept.state)) (offer_of seller number self.now) }
        // What the calls that go on with it require.
        ensures none { IsNone result → offer_of seller number self.now ≡ None }
        ensures there { IfSome result (λ found. found.1 ≡ state.Open → HasOpenOffer seller number self.now) }
    {
        let kept = find_offer(&self.offers, seller, number)?;
        Some((offer_of_kept(kept), kept.state))
    }

    /// Moves the price of an open offer from its buyer to its seller. Refuses where the buyer's balance is less, and
    /// shows it.
    pub fn buy(&mut self, seller: u32, number: u64) -> Result<(), InsufficientFunds>
        requires room { 0 < self.old.spare_balances }
        requires there { HasOpenOffer seller number self.old }
        ensures refused { (kept : KeptOffer) → offer_of seller number self.old ≡ Some kept
            → IsErr result ↔ (balance_of kept.buyer self.old < kept.price.value) }
        ensures shows_balance { (kept : KeptOffer) → offer_of seller number self.old ≡ Some kept
            → IfErr result (λ refusal. refusal.balance.value ≡ balance_of kept.buyer self.old) }
        ensures balances { (kept : KeptOffer) → offer_of seller number self.old ≡ Some kept
            → OnOk result (MovesPrice kept self.old self.new) }
        ensures offers { (kept : KeptOffer) → offer_of seller number self.old ≡ Some kept
            → OnOk result (Puts (kept_as (offered kept) state.Bought) self.old.offers self.new.offers) }
        ensures opens { OnOk result (ClosesOne seller self.old self.new) }
        ensures total { total_of self.new ≡ total_of self.old }
        ensures unchanged { OnErr result (self.new ≡ self.old) }
        ensures room { TakesRoom 1 0 self.old self.new }
    {
        let Some(kept) = find_offer(&self.offers, seller, number) else {
            return Ok(());
        };
        let balance = self.balance(kept.buyer);
        if kept.price.value > balance.value {
            return Err(InsufficientFunds { balance });
        }
        lower(&mut self.balances, kept.buyer, kept.price.value);
        raise(&mut self.balances, kept.seller, kept.price.value);
        put_offer(&mut self.offers, kept, closed(kept, State::Bought));
        lower(&mut self.opens, seller, 1);
        Ok(())
    }

    /// Takes an open offer back.
    pub fn retract(&mut self, seller: u32, number: u64)
        requires there { HasOpenOffer seller number self.old }
        ensures offers { (kept : KeptOffer) → offer_of seller number self.old ≡ Some kept
            → Puts (kept_as (offered kept) state.Retracted) self.old.offers self.new.offers }
        ensures opens { ClosesOne seller self.old self.new }
        ensures balances { self.new.balances ≡ self.old.balances }
        ensures room { TakesRoom 0 0 self.old self.new }
    {
        if let Some(kept) = find_offer(&self.offers, seller, number) {
            put_offer(&mut self.offers, kept, closed(kept, State::Retracted));
            lower(&mut self.opens, seller, 1);
        }
    }

    /// The holder's balance.
    pub fn balance(&self, holder: u32) -> Cents
        ensures balance { result.value ≡ balance_of holder self.now }
        ensures within { balance_of holder self.now ≤ total_of self.now }
    {
        Cents {
            value: amount_of(&self.balances, holder),
        }
    }

    /// All balances together.
    pub fn total(&self) -> Cents
        ensures total { result.value ≡ total_of self.now }
        ensures limited { total_of self.now ≤ most_funds }
    {
        Cents { value: self.total }
    }

    /// How many of the seller's offers are open.
    pub fn open_offers(&self, seller: u32) -> u64
        ensures open_offers { result ≡ open_of seller self.now }
        ensures few { open_of seller self.now ≤ most_offers }
    {
        amount_of(&self.opens, seller) as u64
    }
}

// An offer that is made is open.
fn kept(offer: Offer) -> KeptOffer
    ensures { result ≡ kept_as offer state.Open }
{
    KeptOffer {
        seller: offer.seller,
        number: offer.number,
        buyer: offer.buyer,
        security: offer.security,
        par: offer.par,
        price: offer.price,
        state: State::Open,
    }
}

// The offer that is kept.
fn offer_of_kept(kept: KeptOffer) -> Offer
    ensures { result ≡ offered kept }
{
    Offer {
        seller: kept.seller,
        number: kept.number,
        buyer: kept.buyer,
        security: kept.security,
        par: kept.par,
        price: kept.price,
    }
}

// The offer in another state.
fn closed(kept: KeptOffer, state: State) -> KeptOffer
    ensures { result ≡ kept_as (offered kept) state }
{
    KeptOffer { state, ..kept }
}
