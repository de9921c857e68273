//! A reading as a text.
ghost use Rattle.std.specs.Prelude.{◌≡◌, ◌≤◌, ◌^◌, ◌++◌, length, IfOk, OnOk};
ghost use Rattle.tb_report.specs.Lines.{text_of};
ghost use Rattle.tb_report.specs.Results.{results_lines};
ghost use Rattle.tb_report.specs.Lists.{awards_lines};
ghost use Rattle.tb_report.specs.Readings.{lines_of, IsPrintable};
ghost use Rattle.tb_history.specs.declared.reading.Reading.TheVariants as reading;

use crate::growing::Text;
use crate::lists::{push_awards, push_bids, push_holdings, push_redemption};
use crate::results::push_results;
use crate::terms::push_terms;
use std::alloc::Global;
use tb_history::{Awards, Reading, Results};
use tb_units::{Cents, OutOfMemory};

/// The text of a reading: its lines, each of words with a space between, and ended by a line feed.
///
/// In terms both closings are minutes of a day, in results the bill matures after its issue, and in a redemption all
/// payments come to at most 10^22 dollars.
pub fn text(alloc: Global, reading: &Reading) -> Result<Vec<u8>, OutOfMemory>
    requires { IsPrintable reading.now }
    ensures { IfOk result (λ text. text.items ≡ text_of (lines_of reading.now)) }
{
    let mut text = Text::with_room(alloc, line_count(reading))?;
    push_reading(&mut text, reading)?;
    Ok(text.into_bytes())
}

/// How many lines the text has.
pub fn line_count(reading: &Reading) -> u128
    ensures lines { result ≡ length (lines_of reading.now) }
    ensures few { result ≤ 2 ^ 64 }
{
    match reading {
        Reading::Terms(_) => 12,
        Reading::Results(results) => results_count(results),
        Reading::Awards(awards) => awards_count(awards),
        Reading::Bids(bids) => bids.count() as u128,
        Reading::Holdings(holdings) => holdings.count() as u128,
        Reading::Redemption(paid) => paid.count() as u128 + 1,
        Reading::Funds(_) => 1,
    }
}

fn results_count(results: &Results) -> u128
    ensures lines { result ≡ length (results_lines results.now) }
    ensures few { result ≤ 17 }
{
    match results.figures {
        None => 8,
        Some(_) => 17,
    }
}

fn awards_count(awards: &Awards) -> u128
    ensures lines { result ≡ length (awards_lines awards.now) }
    ensures few { result ≤ 2 ^ 64 }
{
    let bidders = awards.lines.count() as u128;
    match awards.addon {
        None => bidders,
        Some(_) => bidders + 1,
    }
}

fn push_reading(text: &mut Text, reading: &Reading) -> Result<(), OutOfMemory>
    requires { IsPrintable reading.now }
    ensures { OnOk result (text.new ≡ text.old ++ text_of (lines_of reading.now)) }
{
    match reading {
        Reading::Terms(terms) => push_terms(text, terms),
        Reading::Results(results) => push_results(text, results),
        Reading::Awards(awards) => push_awards(text, awards),
        Reading::Bids(bids) => push_bids(text, bids.lines()),
        Reading::Holdings(holdings) => push_holdings(text, holdings.lines()),
        Reading::Redemption(paid) => push_redemption(text, paid.lines()),
        Reading::Funds(cents) => push_funds(text, *cents),
    }
}

fn push_funds(text: &mut Text, cents: Cents) -> Result<(), OutOfMemory>
    ensures { OnOk result (text.new ≡ text.old ++ text_of (lines_of (reading.Funds cents))) }
{
    text.labelled(b"funds", cents.print().bytes())
}
