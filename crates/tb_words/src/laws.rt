//! A law of the command set: no two commands have the same words.
ghost use Rattle.std.specs.Prelude.{◌≡◌, List};
ghost use Rattle.tb_words.specs.declared.command.Command.{Command};
ghost use Rattle.tb_words.specs.Items.{Text};
ghost use Rattle.tb_words.specs.Commands.{AreWordsOf};

/// Words are those of at most one command, with one value each.
pub fn one_command()
    ensures { (words : List Text) (one other : Command) → AreWordsOf one words → AreWordsOf other words
        → one ≡ other }
{}
