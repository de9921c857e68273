//! The command set for `clap`, and the command that it reads.
ghost use Rattle.std.specs.Prelude.{◌≤◌, IfSome};

use crate::command::Command;
use crate::plain::{asked, is_tabled};
use crate::shape::{Places, read_bill};
use clap::error::ErrorKind;
use clap::{Arg, ArgAction, ArgMatches};
use std::alloc::{AllocError, Global};
use tb_message::{Key, Query};
use tb_units::{Ident, OutOfMemory, read_within};

/// The command that `clap` takes the words for, if it does and the values are in their ranges.
pub fn taken_by_clap(alloc: Global, words: &[String]) -> Result<Option<Command>, OutOfMemory> {
    match host(alloc)?.try_get_matches_from(words) {
        Ok(matches) => Ok(said(&matches)),
        Err(error) if error.kind() == ErrorKind::OutOfMemory => Err(OutOfMemory),
        Err(_) => Ok(None),
    }
}

// All commands, without help and version.
fn host<'a>(alloc: Global) -> Result<clap::Command<'a>, AllocError> {
    clap::Command::new(alloc, "tbhost")
        .no_binary_name(true)
        .disable_help_flag(true)
        .disable_help_subcommand(true)
        .subcommand_required(true)
        .subcommand(award(alloc)?)?
        .subcommand(run(alloc)?)?
        .subcommand(serve(alloc)?)?
        .subcommand(import(alloc)?)?
        .subcommand(report(alloc)?)?
        .subcommand(clap::Command::new(alloc, "migrate"))?
        .subcommand(clap::Command::new(alloc, "check"))?
        .subcommand(follow(alloc)?)?
        .subcommand(register(alloc)?)?
        .subcommand(trial(alloc)?)
}

fn award<'a>(alloc: Global) -> Result<clap::Command<'a>, AllocError> {
    clap::Command::new(alloc, "award").arg(Arg::new(alloc, "full"))
}

fn run<'a>(alloc: Global) -> Result<clap::Command<'a>, AllocError> {
    clap::Command::new(alloc, "run").arg(option(alloc, "op"))
}

fn serve<'a>(alloc: Global) -> Result<clap::Command<'a>, AllocError> {
    clap::Command::new(alloc, "serve")
        .arg(option(alloc, "op"))?
        .arg(option(alloc, "port"))?
        .arg(option(alloc, "workers"))?
        .arg(option(alloc, "links"))
}

fn import<'a>(alloc: Global) -> Result<clap::Command<'a>, AllocError> {
    clap::Command::new(alloc, "import")
        .arg(option(alloc, "op"))?
        .arg(option(alloc, "key"))
}

fn report<'a>(alloc: Global) -> Result<clap::Command<'a>, AllocError> {
    clap::Command::new(alloc, "report")
        .arg(place(alloc, "kind"))?
        .arg(Arg::new(alloc, "named"))?
        .arg(option(alloc, "op"))?
        .arg(option(alloc, "key"))?
        .arg(
            Arg::new(alloc, "csv")
                .long("csv")
                .action(ArgAction::SetTrue),
        )
}

fn follow<'a>(alloc: Global) -> Result<clap::Command<'a>, AllocError> {
    clap::Command::new(alloc, "follow")
        .arg(place(alloc, "way"))?
        .arg(Arg::new(alloc, "from"))
}

fn register<'a>(alloc: Global) -> Result<clap::Command<'a>, AllocError> {
    clap::Command::new(alloc, "register").arg(Arg::new(alloc, "cusip").long("cusip"))
}

fn trial<'a>(alloc: Global) -> Result<clap::Command<'a>, AllocError> {
    clap::Command::new(alloc, "trial")
        .arg(place(alloc, "seed"))?
        .arg(place(alloc, "count"))
}

fn option<'a>(alloc: Global, name: &'static str) -> Arg<'a> {
    Arg::new(alloc, name).long(name).required(true)
}

fn place<'a>(alloc: Global, name: &'static str) -> Arg<'a> {
    Arg::new(alloc, name).required(true)
}

// The command that matches say.
fn said(matches: &ArgMatches<'_>) -> Option<Command> {
    let (name, given) = matches.subcommand()?;
    if name == "award" {
        said_award(given)
    } else if name == "run" {
        Some(Command::Run {
            operator: operator(given)?,
        })
    } else if name == "serve" {
        said_serve(given)
    } else if name == "import" {
        Some(Command::Import {
            operator: operator(given)?,
            key: caller(given)?,
        })
    } else if name == "report" {
        said_report(given)
    } else if name == "migrate" {
        Some(Command::Migrate)
    } else if name == "check" {
        Some(Command::Check)
    } else if name == "follow" {
        said_follow(given)
    } else if name == "register" {
        said_register(given)
    } else {
        Some(Command::Trial {
            seed: number(given, "seed", 0, u64::MAX)?,
            count: number(given, "count", 1, 1_000_000)?,
        })
    }
}

fn said_award(given: &ArgMatches<'_>) -> Option<Command> {
    match given.get_str("full") {
        None => Some(Command::Award { full: false }),
        Some(word) if word == "full" => Some(Command::Award { full: true }),
        Some(_) => None,
    }
}

fn said_serve(given: &ArgMatches<'_>) -> Option<Command> {
    let operator = operator(given)?;
    let port = number(given, "port", 1, 65_535)?;
    let workers = number(given, "workers", 1, 64)?;
    let links = number(given, "links", 1, 1_000_000)?;
    Some(Command::Serve {
        operator,
        port: port as u16,
        workers: workers as u32,
        links,
    })
}

fn said_report(given: &ArgMatches<'_>) -> Option<Command> {
    let query = said_query(given)?;
    let csv = given.get_flag("csv");
    if csv && !is_tabled(&query) {
        return None;
    }
    Some(Command::Report {
        operator: operator(given)?,
        key: caller(given)?,
        query,
        csv,
    })
}

fn said_query(given: &ArgMatches<'_>) -> Option<Query> {
    let kind = given.get_str("kind")?;
    match given.get_str("named") {
        None => asked(Places::One(kind)),
        Some(named) => asked(Places::Two(kind, named)),
    }
}

fn said_follow(given: &ArgMatches<'_>) -> Option<Command> {
    let way = given.get_str("way")?;
    match given.get_str("from") {
        None if way == "take" => Some(Command::FollowTake),
        Some(from) if way == "send" => {
            let from = read_within(from, 0, u64::MAX)?;
            Some(Command::FollowSend { from })
        }
        _ => None,
    }
}

fn said_register(given: &ArgMatches<'_>) -> Option<Command> {
    let Some(text) = given.get_str("cusip") else {
        return Some(Command::Register { cusip: None });
    };
    let cusip = read_bill(text)?;
    Some(Command::Register { cusip: Some(cusip) })
}

fn operator(given: &ArgMatches<'_>) -> Option<Ident> {
    Ident::read(given.get_str("op")?)
}

fn caller(given: &ArgMatches<'_>) -> Option<Key> {
    Key::read(given.get_str("key")?)
}

fn number(given: &ArgMatches<'_>, name: &str, least: u64, most: u64) -> Option<u64>
    ensures { IfSome result (λ number. (least ≤ number) × (number ≤ most)) }
{
    read_within(given.get_str(name)?, least, most)
}
