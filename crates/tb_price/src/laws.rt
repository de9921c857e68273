//! Laws of the definitions: each figure is one number.
ghost use Rattle.std.specs.Prelude.{◌≡◌, ℕ};
ghost use Rattle.tb_price.specs.Prices.{IsPrice};
ghost use Rattle.tb_price.specs.Payments.{IsPayment};
ghost use Rattle.tb_price.specs.Investments.{IsShortRate, IsLongRate};

/// There is one price, one payment and one investment rate.
pub fn figures_are_one()
    ensures price { (steps days one other : ℕ) → IsPrice steps days one → IsPrice steps days other → one ≡ other }
    ensures payment { (par millionths one other : ℕ)
        → IsPayment par millionths one → IsPayment par millionths other → one ≡ other }
    ensures short { (millionths days year one other : ℕ)
        → IsShortRate millionths days year one → IsShortRate millionths days year other → one ≡ other }
    ensures long { (millionths days year one other : ℕ)
        → IsLongRate millionths days year one → IsLongRate millionths days year other → one ≡ other }
{}
