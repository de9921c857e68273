//! The plain reader, which takes no memory: the command that words are.
ghost use Rattle.std.specs.Prelude.{◌≡◌, ◌≢◌, ◌∷◌, [], map, string_bytes, length, codes, IfSome, IfNone};
ghost use Rattle.tb_message.specs.declared.query.Query.{Query};
ghost use Rattle.tb_words.specs.declared.command.Command.{Command};
ghost use Rattle.tb_words.specs.Commands.{AreWordsOf, IsQuery, has_table, query_words};
ghost use Rattle.tb_words.specs.Parts.{IsReadAs, texts_of};

use crate::command::Command;
use crate::shape::{
    Options, Places, bill_under, caller, has_options_alone, name_under, nine_bytes, number_under,
    places_alone, read_shape,
};
use tb_message::Query;
use tb_units::{Ident, read_within};

/// The command that the words are, if they are one.
pub fn plain_command(words: &[String]) -> Option<Command>
    ensures command { IfSome result (λ command. AreWordsOf command (map string_bytes words.now)) }
    ensures none { IfNone result ((command : Command) → ¬ (AreWordsOf command (map string_bytes words.now))) }
{
    let (name, words) = words.split_first()?;
    read_named(name.as_str(), words)
}

// The command of this name, with the words behind it.
fn read_named(name: &str, words: &[String]) -> Option<Command>
    ensures { IsReadAs name.now (map string_bytes words.now) result }
{
    if name == "award" {
        award(words)
    } else if name == "run" {
        run(words)
    } else if name == "serve" {
        serve(words)
    } else if name == "import" {
        import(words)
    } else if name == "report" {
        report(words)
    } else if name == "migrate" {
        migrate(words)
    } else if name == "check" {
        check(words)
    } else if name == "follow" {
        follow(words)
    } else if name == "register" {
        register(words)
    } else if name == "trial" {
        trial(words)
    } else {
        None
    }
}

fn award(words: &[String]) -> Option<Command>
    ensures { IsReadAs (codes "award") (map string_bytes words.now) result }
{
    match places_alone(words)? {
        Places::Nothing => Some(Command::Award { full: false }),
        Places::One(word) if word == "full" => Some(Command::Award { full: true }),
        _ => None,
    }
}

fn run(words: &[String]) -> Option<Command>
    ensures { IsReadAs (codes "run") (map string_bytes words.now) result }
{
    if !has_options_alone(words, Options::Operator) {
        return None;
    }
    let operator = name_under(words, "--op")?;
    Some(Command::Run { operator })
}

fn serve(words: &[String]) -> Option<Command>
    ensures { IsReadAs (codes "serve") (map string_bytes words.now) result }
{
    if !has_options_alone(words, Options::Serving) {
        return None;
    }
    let operator = name_under(words, "--op")?;
    let port = number_under(words, "--port", 1, 65_535)?;
    let workers = number_under(words, "--workers", 1, 64)?;
    let links = number_under(words, "--links", 1, 1_000_000)?;
    Some(Command::Serve {
        operator,
        port: port as u16,
        workers: workers as u32,
        links,
    })
}

fn import(words: &[String]) -> Option<Command>
    ensures { IsReadAs (codes "import") (map string_bytes words.now) result }
{
    if !has_options_alone(words, Options::Keyed) {
        return None;
    }
    let operator = name_under(words, "--op")?;
    let key = caller(words)?;
    Some(Command::Import { operator, key })
}

fn report(words: &[String]) -> Option<Command>
    ensures { IsReadAs (codes "report") (map string_bytes words.now) result }
{
    let shape = read_shape(words, Options::Keyed)?;
    let query = asked(shape.places)?;
    if shape.csv && !is_tabled(&query) {
        return None;
    }
    let operator = name_under(words, "--op")?;
    let key = caller(words)?;
    Some(Command::Report {
        operator,
        key,
        query,
        csv: shape.csv,
    })
}

fn migrate(words: &[String]) -> Option<Command>
    ensures { IsReadAs (codes "migrate") (map string_bytes words.now) result }
{
    match places_alone(words)? {
        Places::Nothing => Some(Command::Migrate),
        _ => None,
    }
}

fn check(words: &[String]) -> Option<Command>
    ensures { IsReadAs (codes "check") (map string_bytes words.now) result }
{
    match places_alone(words)? {
        Places::Nothing => Some(Command::Check),
        _ => None,
    }
}

fn follow(words: &[String]) -> Option<Command>
    ensures { IsReadAs (codes "follow") (map string_bytes words.now) result }
{
    match places_alone(words)? {
        Places::One(way) if way == "take" => Some(Command::FollowTake),
        Places::Two(way, from) if way == "send" => {
            let from = read_within(from, 0, u64::MAX)?;
            Some(Command::FollowSend { from })
        }
        _ => None,
    }
}

fn register(words: &[String]) -> Option<Command>
    ensures { IsReadAs (codes "register") (map string_bytes words.now) result }
{
    if has_options_alone(words, Options::Nothing) {
        return Some(Command::Register { cusip: None });
    }
    if !has_options_alone(words, Options::Bill) {
        return None;
    }
    let cusip = bill_under(words)?;
    Some(Command::Register { cusip: Some(cusip) })
}

fn trial(words: &[String]) -> Option<Command>
    ensures { IsReadAs (codes "trial") (map string_bytes words.now) result }
{
    let Places::Two(seed, count) = places_alone(words)? else {
        return None;
    };
    let seed = read_within(seed, 0, u64::MAX)?;
    let count = read_within(count, 1, 1_000_000)?;
    Some(Command::Trial { seed, count })
}

/// Whether a query is also answered by a table.
pub(crate) fn is_tabled(query: &Query) -> bool
    ensures { result ≡ has_table query.now }
{
    match query {
        Query::Awards(_) | Query::Holdings => true,
        Query::Terms(_)
        | Query::Results(_)
        | Query::Bids(_)
        | Query::Redemption(_)
        | Query::Funds => false,
    }
}

/// The query that positional words ask.
pub(crate) fn asked(places: Places<'_>) -> Option<Query>
    ensures query { IfSome result (λ query. IsQuery query × (texts_of places.entry ≡ query_words query)) }
    ensures none { IfNone result ((query : Query) → IsQuery query → texts_of places.entry ≢ query_words query) }
{
    match places {
        Places::One(kind) if kind == "holdings" => Some(Query::Holdings),
        Places::Two(kind, named) if kind == "redemption" => nine_bytes(named).map(
            Query::Redemption,
        ),
        Places::Two(kind, named) => asked_of(kind, Ident::read(named)?),
        _ => None,
    }
}

// The query of this kind on an auction.
fn asked_of(kind: &str, auction: Ident) -> Option<Query>
    ensures query { IfSome result (λ query. kind.now ∷ auction ∷ [] ≡ query_words query) }
    ensures none { IfNone result ((query : Query) → kind.now ≢ codes "redemption"
        → kind.now ∷ auction ∷ [] ≢ query_words query) }
{
    if kind == "terms" {
        Some(Query::Terms(auction))
    } else if kind == "results" {
        Some(Query::Results(auction))
    } else if kind == "awards" {
        Some(Query::Awards(auction))
    } else if kind == "bids" {
        Some(Query::Bids(auction))
    } else {
        None
    }
}
