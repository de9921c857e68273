//! What an accepted message does to the funds is done to them, which is never refused.
ghost use Rattle.std.specs.Prelude.{◌<◌, Some, []};
ghost use Rattle.tb_funds.specs.Funds.{TakesRoom};
ghost use Rattle.tb_cashbook.specs.Cashbook.{CanEnter, Means, TellsFunds, TellsNext};

use crate::cash::CashMovement;
use std::alloc::Global;
use tb_funds::Funds;

/// The funds of the empty history.
pub fn no_funds(alloc: Global) -> Funds
    ensures { TellsFunds [] result }
{
    Funds::new(alloc)
}

/// Does what an accepted message means. The par of an offer that is bought moves in the accounts.
pub fn enter_cash(funds: &mut Funds, cash: &CashMovement)
    requires balances { 0 < funds.old.spare_balances }
    requires offers { 0 < funds.old.spare_offers }
    requires next { CanEnter (Means (Some cash.now)) funds.old }
    ensures told { TellsNext (Means (Some cash.now)) funds.old funds.new }
    ensures room { TakesRoom 1 1 funds.old funds.new }
{
    match cash {
        CashMovement::Deposited { holder, cents } => funds.deposit(*holder, *cents),
        CashMovement::Withdrawn { holder, cents } => {
            let _ = funds.withdraw(*holder, *cents);
        }
        CashMovement::Offered { offer } => {
            let _ = funds.offer(*offer);
        }
        CashMovement::Bought { seller, number } => {
            let _ = funds.buy(*seller, *number);
        }
        CashMovement::Retracted { seller, number } => funds.retract(*seller, *number),
    }
}
