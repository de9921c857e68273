//! What moves par, as a list of movements: what each participant holds is a sum over it, and par is conserved.
#![tactic(auto)]

mod award;
mod calls;
mod laws;

pub use award::Award;
pub use calls::{credit_all, empty_book, pledge, redeem, release, reserve, transfer};
pub use laws::{entries_mean_legal_movements, figures_are_told, par_is_conserved};
