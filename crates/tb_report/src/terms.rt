//! The announced terms of an auction, as a text.
ghost use Rattle.std.specs.Prelude.{◌≡◌, ◌<◌, ◌++◌, OnOk};
ghost use Rattle.tb_report.specs.Lines.{text_of, with_lines};
ghost use Rattle.tb_report.specs.Terms.{terms_lines, offer_lines, date_lines};

use crate::growing::Text;
use tb_terms::{Announcement, print_day, print_minute};
use tb_units::OutOfMemory;

/// Puts the terms at the end.
pub(crate) fn push_terms(text: &mut Text, terms: &Announcement) -> Result<(), OutOfMemory>
    requires noncompetitive { terms.now.nc_close < 1440 }
    requires competitive { terms.now.c_close < 1440 }
    ensures { OnOk result (text.new ≡ text.old ++ text_of (terms_lines terms.now)) }
{
    push_offer(text, terms)?;
    push_dates(text, terms)
}

fn push_offer(text: &mut Text, terms: &Announcement) -> Result<(), OutOfMemory>
    ensures { OnOk result (text.new ≡ with_lines text.old (offer_lines terms.now)) }
{
    text.labelled(b"auction", terms.auction.bytes())?;
    text.labelled(b"cusip", &terms.cusip.bytes)?;
    text.labelled(b"offering", terms.offering.print().bytes())?;
    text.labelled(b"minimum", terms.minimum.print().bytes())?;
    text.labelled(b"ceiling", terms.nc_ceiling.print().bytes())?;
    text.labelled(b"floor", terms.competitive_floor.print().bytes())?;
    text.labelled(b"threshold", terms.nlp_threshold.print().bytes())
}

fn push_dates(text: &mut Text, terms: &Announcement) -> Result<(), OutOfMemory>
    requires noncompetitive { terms.now.nc_close < 1440 }
    requires competitive { terms.now.c_close < 1440 }
    ensures { OnOk result (text.new ≡ with_lines text.old (date_lines terms.now)) }
{
    text.labelled(b"date", print_day(terms.auction_date).bytes())?;
    text.labelled(b"nc_close", print_minute(terms.nc_close).bytes())?;
    text.labelled(b"c_close", print_minute(terms.c_close).bytes())?;
    text.labelled(b"issue", print_day(terms.issue).bytes())?;
    text.labelled(b"maturity", print_day(terms.maturity).bytes())
}
