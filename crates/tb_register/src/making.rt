//! The row of an auction, from its results.
ghost use Rattle.std.specs.Prelude.{◌≡◌, ◌≤◌, ◌^◌};
ghost use Rattle.tb_register.specs.Rows.{kept, kept_figures};
ghost use Rattle.tb_register.specs.Making.{row_of, figures_of, total_of, FitsRow};

use crate::row::{Row, RowFigures};
use tb_history::{Figures, Results};
use tb_units::Dollars;

/// The row of an auction with these results. What was offered and what was awarded are at most 10^17 each.
pub fn row_of(results: &Results) -> Row
    requires { FitsRow results.now }
    ensures { kept result ≡ row_of results.now }
{
    Row {
        auction: results.terms.auction,
        cusip: results.terms.cusip,
        issue: results.terms.issue,
        maturity: results.terms.maturity,
        offering: results.terms.offering,
        total: total_of(results),
        figures: results.figures.map(figures_of),
    }
}

// The sum of all awards.
fn total_of(results: &Results) -> Dollars
    requires { total_of results.now ≤ 10 ^ 17 }
    ensures { result.value ≡ total_of results.now }
{
    Dollars {
        value: match results.figures {
            Some(figures) => {
                results.noncompetitive.value + figures.competitive.value + results.addon.value
            }
            None => 0,
        },
    }
}

fn figures_of(figures: Figures) -> RowFigures
    ensures { kept_figures result ≡ figures_of figures }
{
    RowFigures {
        high: figures.cut.stop,
        percent: figures.cut.percent,
        price: figures.cut.price,
    }
}
