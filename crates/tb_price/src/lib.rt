//! Prices, payments and investment rates of Treasury bills (31 CFR Part 356, Appendix B).
#![tactic(auto)]

mod investing;
mod laws;
mod paying;
mod pricing;
mod yearly;

pub use investing::investment;
pub use laws::figures_are_one;
pub use paying::payment;
pub use pricing::{above_zero, price};
pub use yearly::Investment;
