//! The plan for words.
ghost use Rattle.std.specs.Prelude.{◌≡◌, ◌≤◌, ◌↔◌, true, IfOk, map, string_bytes};
ghost use Rattle.tb_gates.specs.Gates.{most_links};
ghost use Rattle.tb_words.specs.Commands.{AreCommand, AreWordsOf};
ghost use Rattle.tb_words.specs.declared.command.Command as declared;
ghost use Rattle.tb_host.specs.Commands.{nothing, plan_of};
ghost use Rattle.tb_words.specs.Commands.{IsInRange};

use crate::planned::Plan;
use std::alloc::Global;
use tb_units::OutOfMemory;
use tb_words::{Command, WordsFault, read_words};

/// The plan for the words: whether the command works on the journal and on the register, and the numbers of `serve`,
/// else port 0, no worker and no link. It refuses for memory alone.
pub fn plan(alloc: Global, words: &[String]) -> Result<Plan, OutOfMemory>
    ensures command { IfOk result (λ plan. (said : declared.Command) → AreWordsOf said (map string_bytes words.now)
        → plan ≡ plan_of said) }
    ensures other { IfOk result (λ plan. (¬ (AreCommand (map string_bytes words.now))) → plan ≡ nothing) }
    ensures few { IfOk result (λ plan. (plan.workers ≤ 64) × (plan.links ≤ most_links)) }
{
    match read_words(alloc, words) {
        Ok(command) => Ok(planned(&command)),
        Err(WordsFault::Usage) => Ok(Plan {
            journal: false,
            register: false,
            port: 0,
            workers: 0,
            links: 0,
        }),
        Err(WordsFault::OutOfMemory) => Err(OutOfMemory),
    }
}

// The plan for a command.
fn planned(command: &Command) -> Plan
    requires in_range { IsInRange command.now }
    ensures plan { result ≡ plan_of command.now }
    ensures few { (result.workers ≤ 64) × (result.links ≤ most_links) }
{
    let (port, workers, links) = match command {
        Command::Serve {
            port,
            workers,
            links,
            ..
        } => (*port, *workers, *links),
        _ => (0, 0, 0),
    };
    Plan {
        journal: !matches!(command, Command::Award { .. } | Command::Trial { .. }),
        register: matches!(command, Command::Register { .. }),
        port,
        workers,
        links,
    }
}
