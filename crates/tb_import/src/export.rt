//! Tables of awards and of holdings, written as CSV.
ghost use Rattle.std.specs.Prelude.{◌≡◌, List, [], ◌∷◌, ◌++◌, map, option_to_list, IfOk, OnOk};
ghost use Rattle.tb_import.specs.Rows.{Fields};
ghost use Rattle.tb_import.specs.Exports.{fields_of_award, add_on_fields, bidders_table, awards_table, table_text};
ghost use Rattle.tb_import.specs.Exports.{holding_fields, holdings_table};
ghost use Rattle.tb_import.specs.Writers.{HasWritten};

use csv::{Writer, WriterBuilder};
use std::alloc::Global;
use tb_history::{AddOnLine, AwardLine, Awards, HoldingLine, Holdings};
use tb_units::{Cents, Dollars, OutOfMemory};

/// The table `bidder,amount,payment` of awards: par in whole dollars, payments in dollars and cents. An add-on stands
/// last, with `+` in the place of a bidder.
pub fn export_awards(alloc: Global, awards: &Awards) -> Result<Vec<u8>, OutOfMemory>
    ensures { IfOk result (λ table. table.items ≡ table_text (awards_table awards.now)) }
{
    let mut writer = begin(alloc);
    write_bidders(&mut writer, awards.lines.lines())?;
    write_add_on(&mut writer, &awards.addon)?;
    end(writer)
}

// The header, and the awards of bidders.
fn write_bidders(writer: &mut Writer<Vec<u8>>, awards: &[AwardLine]) -> Result<(), OutOfMemory>
    requires { HasWritten [] writer.old }
    ensures { OnOk result (HasWritten (bidders_table awards.now) writer.new) }
{
    write(writer, &[b"bidder", b"amount", b"payment"])?;
    for award in awards {
        write_award(writer, award.bidder.bytes(), award.amount, award.payment)?;
    }
    Ok(())
}

// An add-on, if there is one.
fn write_add_on(writer: &mut Writer<Vec<u8>>, addon: &Option<AddOnLine>) -> Result<(), OutOfMemory>
    ensures { OnOk result ((records : List Fields) → HasWritten records writer.old
        → HasWritten (records ++ map add_on_fields (option_to_list addon.now)) writer.new) }
{
    match addon {
        None => Ok(()),
        Some(award) => write_award(writer, b"+", award.amount, award.payment),
    }
}

/// The table `cusip,held,pledged,free` of holdings, all par in whole dollars.
pub fn export_holdings(alloc: Global, holdings: &Holdings) -> Result<Vec<u8>, OutOfMemory>
    ensures { IfOk result (λ table. table.items ≡ table_text (holdings_table holdings.now)) }
{
    let mut writer = begin(alloc);
    write(&mut writer, &[b"cusip", b"held", b"pledged", b"free"])?;
    for holding in holdings.lines() {
        write_holding(&mut writer, holding)?;
    }
    end(writer)
}

fn write_award(
    writer: &mut Writer<Vec<u8>>,
    whose: &[u8],
    amount: Dollars,
    payment: Cents,
) -> Result<(), OutOfMemory>
    ensures { OnOk result ((records : List Fields) → HasWritten records writer.old
        → HasWritten (records ++ fields_of_award whose.now amount.value payment.value ∷ []) writer.new) }
{
    let amount = amount.print();
    let payment = payment.print();
    write(writer, &[whose, amount.bytes(), payment.bytes()])
}

fn write_holding(writer: &mut Writer<Vec<u8>>, holding: &HoldingLine) -> Result<(), OutOfMemory>
    ensures { OnOk result ((records : List Fields) → HasWritten records writer.old
        → HasWritten (records ++ holding_fields holding.now ∷ []) writer.new) }
{
    let held = holding.held.print();
    let pledged = holding.pledged.print();
    let free = holding.free.print();
    write(
        writer,
        &[
            &holding.cusip.bytes,
            held.bytes(),
            pledged.bytes(),
            free.bytes(),
        ],
    )
}

// A writer that has written nothing.
fn begin(alloc: Global) -> Writer<Vec<u8>>
    ensures { HasWritten [] result }
{
    WriterBuilder::new().from_writer(Vec::new(alloc))
}

// Writes one record. Into memory no write fails but for memory.
fn write(writer: &mut Writer<Vec<u8>>, fields: &[&[u8]]) -> Result<(), OutOfMemory>
    ensures { OnOk result ((records : List Fields) → HasWritten records writer.old
        → HasWritten (records ++ map (λ f. f.now) fields.now ∷ []) writer.new) }
{
    match writer.write_fields(fields) {
        Ok(()) => Ok(()),
        Err(_) => Err(OutOfMemory),
    }
}

// The text of all records that were written.
fn end(writer: Writer<Vec<u8>>) -> Result<Vec<u8>, OutOfMemory>
    ensures { IfOk result (λ text. (records : List Fields) → HasWritten records writer
        → text.items ≡ table_text records) }
{
    match writer.into_inner() {
        Ok(text) => Ok(text),
        Err(_) => Err(OutOfMemory),
    }
}
