//! What a message does to the funds, as a value.
use tb_funds::Offer;
use tb_units::Cents;

/// What an accepted message does to balances and offers, by the numbers of participants and bills.
#[derive(Clone, Copy, Debug, PartialEq, Eq)]
pub enum CashMovement {
    /// Cash comes to the holder.
    Deposited { holder: u32, cents: Cents },
    /// Cash leaves it.
    Withdrawn { holder: u32, cents: Cents },
    /// The offer is made.
    Offered { offer: Offer },
    /// The price of the seller's offer of this number goes from its buyer to the seller.
    Bought { seller: u32, number: u64 },
    /// The seller takes it back.
    Retracted { seller: u32, number: u64 },
}
