//! What holds of files and histories.
ghost use Rattle.std.specs.Prelude.{◌≡◌, ℕ, List};
ghost use Rattle.tb_message.specs.declared.message.Entry.{Entry};
ghost use Rattle.tb_history.specs.Legal.{IsLegal};
ghost use Rattle.tb_desk.specs.Stands.{StandsForHistory};

/// A file stands for at most one legal history. It does nothing.
pub fn one_history()
    ensures { (file : List ℕ) (one other : List Entry) → IsLegal one → IsLegal other → StandsForHistory one file
        → StandsForHistory other file
        → one ≡ other }
{}
