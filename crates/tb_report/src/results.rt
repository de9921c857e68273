//! The results of an auction, as a text.
ghost use Rattle.std.specs.Prelude.{◌≡◌, ◌<◌, ◌++◌, OnOk};
ghost use Rattle.tb_report.specs.Lines.{text_of, with_lines};
ghost use Rattle.tb_report.specs.Results.{results_lines, bill_lines, figures_lines, awarded_lines, par_lines, rate_lines};

use crate::growing::Text;
use tb_history::{Figures, Results};
use tb_terms::{Announcement, print_day};
use tb_units::{Dollars, OutOfMemory, Short};

/// Puts the results at the end.
pub(crate) fn push_results(text: &mut Text, results: &Results) -> Result<(), OutOfMemory>
    requires { results.now.terms.issue.number < results.now.terms.maturity.number }
    ensures { OnOk result (text.new ≡ text.old ++ text_of (results_lines results.now)) }
{
    push_bill(text, &results.terms, results.noncompetitive)?;
    push_figures(text, results.noncompetitive, results.addon, results.figures)
}

fn push_bill(
    text: &mut Text,
    terms: &Announcement,
    noncompetitive: Dollars,
) -> Result<(), OutOfMemory>
    requires { terms.now.issue.number < terms.now.maturity.number }
    ensures { OnOk result (text.new ≡ with_lines text.old (bill_lines terms.now noncompetitive.value)) }
{
    let days = terms.maturity.number - terms.issue.number;
    text.labelled(b"auction", terms.auction.bytes())?;
    text.labelled(b"cusip", &terms.cusip.bytes)?;
    text.labelled(b"issue", print_day(terms.issue).bytes())?;
    text.labelled(b"maturity", print_day(terms.maturity).bytes())?;
    text.labelled(b"days", Short::whole(days as u128).bytes())?;
    text.labelled(b"offering", terms.offering.print().bytes())?;
    text.labelled(b"noncompetitive", noncompetitive.print().bytes())
}

fn push_figures(
    text: &mut Text,
    noncompetitive: Dollars,
    addon: Dollars,
    figures: Option<Figures>,
) -> Result<(), OutOfMemory>
    ensures { OnOk result
        (text.new ≡ with_lines text.old (figures_lines noncompetitive.value addon.value figures)) }
{
    match figures {
        None => text.line(b"no awards"),
        Some(figures) => push_awarded(text, noncompetitive, addon, &figures),
    }
}

#[tactic(auto, using(crate::proofs::Texts::with_lines_joined))]
fn push_awarded(
    text: &mut Text,
    noncompetitive: Dollars,
    addon: Dollars,
    figures: &Figures,
) -> Result<(), OutOfMemory>
    ensures { OnOk result
        (text.new ≡ with_lines text.old (awarded_lines noncompetitive.value addon.value figures.now)) }
{
    push_par(text, noncompetitive, figures.competitive, addon)?;
    push_rates(text, figures)
}

fn push_par(
    text: &mut Text,
    noncompetitive: Dollars,
    competitive: Dollars,
    addon: Dollars,
) -> Result<(), OutOfMemory>
    ensures { OnOk result
        (text.new ≡ with_lines text.old (par_lines noncompetitive.value competitive.value addon.value)) }
{
    let total = noncompetitive.value + competitive.value + addon.value;
    text.labelled(b"competitive", competitive.print().bytes())?;
    text.labelled(b"addon", addon.print().bytes())?;
    text.labelled(b"total", Short::whole(total).bytes())
}

fn push_rates(text: &mut Text, figures: &Figures) -> Result<(), OutOfMemory>
    ensures { OnOk result (text.new ≡ with_lines text.old (rate_lines figures.now)) }
{
    text.labelled(b"high", figures.cut.stop.print().bytes())?;
    text.labelled(b"allotted", figures.cut.percent.print().bytes())?;
    text.labelled(b"median", figures.median.print().bytes())?;
    text.labelled(b"low", figures.low.print().bytes())?;
    text.labelled(b"price", figures.cut.price.print().bytes())?;
    text.labelled(b"investment", figures.investment.print().bytes())?;
    text.line(b"bids at lower rates were accepted in full")
}
