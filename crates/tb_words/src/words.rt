//! The call that reads the words of a command line.
ghost use Rattle.std.specs.Prelude.{◌≡◌, ◌↔◌, Err, IfOk, map, string_bytes};
ghost use Rattle.tb_words.specs.Commands.{AreCommand, AreWordsOf};

use crate::clap_reader::taken_by_clap;
use crate::command::{Command, WordsFault};
use crate::plain::plain_command;
use std::alloc::Global;
use tb_units::OutOfMemory;

/// The command that the words are; the program's own name isn't among them. Words outside the command set are `Usage`,
/// whether there is memory or not.
pub fn read_words(alloc: Global, words: &[String]) -> Result<Command, WordsFault>
    ensures command { IfOk result (λ command. AreWordsOf command (map string_bytes words.now)) }
    ensures usage { (result ≡ Err WordsFault.Usage) ↔ ¬ (AreCommand (map string_bytes words.now)) }
    ensures memory { result ≡ Err WordsFault.OutOfMemory → AreCommand (map string_bytes words.now) }
{
    match plain_command(words) {
        None => Err(WordsFault::Usage),
        // The plain reader decides; where `clap` takes the words, its values are the same.
        Some(command) => match taken_by_clap(alloc, words) {
            Ok(_) => Ok(command),
            Err(OutOfMemory) => Err(WordsFault::OutOfMemory),
        },
    }
}
