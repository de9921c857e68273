//! Amounts by the number under which they stand.
ghost use Rattle.std.specs.Prelude.{◌≡◌, ℕ, ◌+◌, ◌^◌, ◌<◌, ◌≤◌, ◌==◌};
ghost use Rattle.tb_funds.specs.Amounts.{AreInOrder, amount_in, total_in, part};

use tb_blocks::{Keyed, Ordered};

/// An amount under its number.
#[derive(Clone, Copy, Debug, PartialEq, Eq)]
pub struct Amount {
    pub key: u32,
    pub value: u128,
}

impl Keyed for Amount {
    type Key = u32;

    ghost key_of = { λ amount. amount.key };

    fn key(&self) -> u32 {
        self.key
    }
}

/// What stands under the number, and 0 where nothing does.
pub fn amount_of(amounts: &Ordered<Amount>, key: u32) -> u128
    requires { AreInOrder amounts.now.elements }
    ensures { result ≡ amount_in key amounts.now.elements }
{
    match amounts.find(&key) {
        Some(spot) => amounts.at_spot(spot).value,
        None => 0,
    }
}

/// Adds so much to what stands under the number.
pub fn raise(amounts: &mut Ordered<Amount>, key: u32, more: u128)
    requires in_order { AreInOrder amounts.old.elements }
    requires room { 0 < amounts.old.spare }
    requires fits { amount_in key amounts.old.elements + more < 2 ^ 128 }
    ensures amounts { (other : ℕ) → amount_in other amounts.new.elements
        ≡ amount_in other amounts.old.elements + part (key == other) more }
    ensures total { total_in amounts.new.elements ≡ total_in amounts.old.elements + more }
    ensures in_order { AreInOrder amounts.new.elements }
    ensures room { amounts.old.spare ≤ amounts.new.spare + 1 }
{
    match amounts.find(&key) {
        Some(spot) => {
            let value = amounts.at_spot(spot).value + more;
            let _ = amounts.replace_at(spot, Amount { key, value });
        }
        None => amounts.insert(Amount { key, value: more }),
    }
}

/// Takes so much from what stands under the number.
pub fn lower(amounts: &mut Ordered<Amount>, key: u32, less: u128)
    requires in_order { AreInOrder amounts.old.elements }
    requires there { less ≤ amount_in key amounts.old.elements }
    ensures amounts { (other : ℕ) → amount_in other amounts.new.elements + part (key == other) less
        ≡ amount_in other amounts.old.elements }
    ensures total { total_in amounts.new.elements + less ≡ total_in amounts.old.elements }
    ensures in_order { AreInOrder amounts.new.elements }
    ensures room { amounts.new.spare ≡ amounts.old.spare }
{
    if let Some(spot) = amounts.find(&key) {
        let value = amounts.at_spot(spot).value - less;
        let _ = amounts.replace_at(spot, Amount { key, value });
    }
}
