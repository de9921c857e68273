//! What leaves the funds as they are.
ghost use Rattle.std.specs.Prelude.{None};
ghost use Rattle.tb_funds.specs.Funds.{Money};
ghost use Rattle.tb_cashbook.specs.Cashbook.{Means, TellsNext};

/// Funds that tell a history tell an entry more that means nothing for them.
pub fn other_entries_leave_funds()
    ensures { (money : Money) → TellsNext (Means None) money money }
{}
