//! The register as a text.
ghost use Rattle.std.specs.Prelude.{◌≡◌, ◌∷◌, ◌++◌, [], map, Some, None, IfOk, OnOk};
ghost use Rattle.std.specs.Fmt.{decimal};
ghost use Rattle.tb_units.specs.Bytes.{blank};
ghost use Rattle.tb_message.specs.Verdicts.{spaced};
ghost use Rattle.tb_report.specs.Lines.{line, text_of};
ghost use Rattle.tb_register.specs.Rows.{kept, kept_figures};
ghost use Rattle.std.specs.Option.{option_map};
ghost use Rattle.tb_filing.specs.Texts.{figure_words, row_words};
ghost use Rattle.tb_filing.specs.Texts as told;

use crate::filing::Tally;
use std::alloc::Global;
use tb_register::{Row, RowFigures};
use tb_terms::print_day;
use tb_units::{OutOfMemory, Short};

/// How many rows were added and how many were there, and then these rows, a line each.
#[tactic(auto, using(tb_report::proofs::Texts::joined))]
pub fn register_text(alloc: Global, tally: Tally, rows: &[Row]) -> Result<Vec<u8>, OutOfMemory>
    ensures { IfOk result (λ text. text.items ≡ told.register_text tally.added tally.present (map kept rows.now)) }
{
    let mut text = Vec::new(alloc);
    push_count(&mut text, b"added", tally.added)?;
    push_count(&mut text, b"present", tally.present)?;
    push_rows(&mut text, rows)?;
    Ok(text)
}

#[tactic(auto, using(tb_report::proofs::Texts::joined))]
fn push_count(text: &mut Vec<u8>, what: &[u8], number: u64) -> Result<(), OutOfMemory>
    ensures { OnOk result (text.new.items ≡ text.old.items ++ line (what.now ∷ decimal number ∷ [])) }
{
    text.extend_from_slice(what)?;
    push_word(text, Short::whole(number as u128).bytes())?;
    text.push(b'\n')?;
    Ok(())
}

fn push_rows(text: &mut Vec<u8>, rows: &[Row]) -> Result<(), OutOfMemory>
    ensures { OnOk result (text.new.items ≡ text.old.items ++ text_of (map row_words (map kept rows.now))) }
{
    for row in rows {
        push_row(text, row)?;
    }
    Ok(())
}

#[tactic(auto, using(tb_report::proofs::Texts::joined))]
fn push_row(text: &mut Vec<u8>, row: &Row) -> Result<(), OutOfMemory>
    ensures { OnOk result (text.new.items ≡ text.old.items ++ line (row_words (kept row.now))) }
{
    text.extend_from_slice(row.auction.bytes())?;
    push_word(text, print_day(row.issue).bytes())?;
    push_word(text, print_day(row.maturity).bytes())?;
    push_word(text, row.offering.print().bytes())?;
    push_word(text, row.total.print().bytes())?;
    push_figures(text, &row.figures)?;
    text.push(b'\n')?;
    Ok(())
}

// The last three words of a row.
fn push_figures(text: &mut Vec<u8>, figures: &Option<RowFigures>) -> Result<(), OutOfMemory>
    ensures { OnOk result (text.new.items
        ≡ text.old.items ++ spaced (figure_words (option_map kept_figures figures.now))) }
{
    match figures {
        Some(figures) => push_known(text, figures),
        None => push_unknown(text),
    }
}

#[tactic(auto, using(tb_report::proofs::Texts::joined))]
fn push_known(text: &mut Vec<u8>, figures: &RowFigures) -> Result<(), OutOfMemory>
    ensures { OnOk result (text.new.items
        ≡ text.old.items ++ spaced (figure_words (option_map kept_figures (Some figures.now)))) }
{
    push_word(text, figures.high.print().bytes())?;
    push_word(text, figures.percent.print().bytes())?;
    push_word(text, figures.price.print().bytes())
}

#[tactic(auto, using(tb_report::proofs::Texts::joined))]
fn push_unknown(text: &mut Vec<u8>) -> Result<(), OutOfMemory>
    ensures { OnOk result (text.new.items ≡ text.old.items ++ spaced (figure_words None)) }
{
    push_word(text, b"-")?;
    push_word(text, b"-")?;
    push_word(text, b"-")
}

fn push_word(text: &mut Vec<u8>, word: &[u8]) -> Result<(), OutOfMemory>
    ensures { OnOk result (text.new.items ≡ text.old.items ++ blank ∷ word.now) }
{
    text.push(b' ')?;
    text.extend_from_slice(word)?;
    Ok(())
}
