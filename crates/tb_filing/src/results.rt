//! The row of a published auction, by its results.
ghost use Rattle.std.specs.Prelude.{◌≡◌, true, IfOk};
ghost use Rattle.tb_history.specs.Entries.{operator};
ghost use Rattle.tb_history.specs.Readings.{IsReading};
ghost use Rattle.tb_history.specs.Roster.{is_published};
ghost use Rattle.tb_history.specs.declared.reading.Reading.TheVariants as answer;
ghost use Rattle.tb_history.specs.declared.readings.Results as told;
ghost use Rattle.tb_message.specs.declared.query.Query.TheVariants as query;
ghost use Rattle.tb_register.specs.Rows.{kept};
ghost use Rattle.tb_filing.specs.Rows.{IsRowOf};

use std::alloc::Global;
use tb_core::QueryRefused;
use tb_desk::Desk;
use tb_disk::Disk;
use tb_history::{Reading, Results};
use tb_message::Query;
use tb_register::{Row, row_of};
use tb_units::{Ident, OutOfMemory};

/// The row of an auction whose results are published.
pub(crate) fn row_on<D: Disk>(
    alloc: Global,
    desk: &Desk<D>,
    auction: &Ident,
) -> Result<Row, OutOfMemory>
    requires { is_published desk.now.host.history auction.now ≡ true }
    ensures { IfOk result (λ row. IsRowOf desk.now.host.history auction.now (kept row)) }
{
    // The history is legal, which the desk tells with the number of its entries.
    let _ = desk.entries();
    let results = results_on(alloc, desk, auction)?;
    Ok(row_of(&results))
}

// The results as the operator reads them.
fn results_on<D: Disk>(
    alloc: Global,
    desk: &Desk<D>,
    auction: &Ident,
) -> Result<Results, OutOfMemory>
    requires { is_published desk.now.host.history auction.now ≡ true }
    ensures { IfOk result (λ results.
        IsReading desk.now.host.history operator (query.Results auction.now) (answer.Results results)) }
{
    let _ = desk.entries();
    match desk.read(alloc, &operator(), &Query::Results(*auction)) {
        Ok(reading) => Ok(results_in(&reading)),
        Err(QueryRefused::Refused(_)) => unreachable!(),
        Err(QueryRefused::OutOfMemory) => Err(OutOfMemory),
    }
}

// The results that a reading is.
fn results_in(reading: &Reading) -> Results
    requires { (results : told.Results) × (reading.now ≡ answer.Results results) }
    ensures { reading.now ≡ answer.Results result }
{
    match reading {
        Reading::Results(results) => *results,
        _ => unreachable!(),
    }
}

fn operator() -> Ident
    ensures { result ≡ operator }
{
    match Ident::of_bytes(b"operator") {
        Some(name) => name,
        None => unreachable!(),
    }
}
