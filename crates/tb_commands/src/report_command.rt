//! The command `report`.
ghost use Rattle.std.specs.Prelude.{◌≡◌, Some, IfOk};
ghost use Rattle.tb_desk.specs.declared.fault.OpenFault.{OpenFault};
ghost use Rattle.tb_history.specs.Answer.{query_refusal};
ghost use Rattle.tb_link.specs.Sources.{SourceState};
ghost use Rattle.tb_report.specs.Readings.{IsPrintable};
ghost use Rattle.tb_commands.specs.Answers.{reply_text};
ghost use Rattle.tb_commands.specs.ReportRun.{IsReport, IsShown, Reads, ReportEnds};
ghost use Rattle.tb_commands.specs.ReportRun as spec;

use crate::answer::caller;
use crate::command_endings::{DiskEnding, PrintEnding};
use crate::reply::Reply;
use crate::sender::Sender;
use std::alloc::Global;
use tb_core::QueryRefused;
use tb_desk::Desk;
use tb_disk::Disk;
use tb_history::Reading;
use tb_import::{export_awards, export_holdings};
use tb_link::Sink;
use tb_message::Query;
use tb_report::text;
use tb_terms::Refusal;
use tb_units::{Ident, OutOfMemory};

/// What is asked, in whose name, and whether a table is wanted.
#[derive(Clone, Copy, Debug, PartialEq, Eq)]
pub struct Inquiry {
    pub sender: Sender,
    pub query: Query,
    pub csv: bool,
}

/// Answers one query by the history that the disk stands for, in one write, and hands the disk back. It reads no input
/// and adds nothing to the history.
pub fn report<D: Disk, O: Sink>(
    alloc: Global,
    asked: &Inquiry,
    out: &mut O,
    disk: D,
) -> (DiskEnding<PrintEnding>, D)
    ensures ends { (input : SourceState) → ReportEnds asked.now result.0 input input
        (record { out = O.sink out.old; disk = D.disk disk })
        (record { out = O.sink out.new; disk = D.disk result.1 }) }
    // The desk was opened before anything was written.
    ensures unbegun { (why : OpenFault) → result.0 ≡ DiskEnding.Unopened why → out.new ≡ out.old }
{
    match Desk::open(alloc, disk) {
        Ok(desk) => {
            let ending = write_answer(alloc, &desk, asked, out);
            (DiskEnding::Opened(ending), desk.into_disk())
        }
        Err((disk, fault)) => (DiskEnding::Unopened(fault), disk),
    }
}

fn write_answer<D: Disk, O: Sink>(
    alloc: Global,
    desk: &Desk<D>,
    asked: &Inquiry,
    out: &mut O,
) -> PrintEnding
    ensures reads { Reads asked.now result desk.now.host.history (O.sink out.old) (O.sink out.new) }
{
    match answered(alloc, desk, asked) {
        Ok(reply) => match reply.write(out) {
            Ok(()) => PrintEnding::Done,
            Err(_) => PrintEnding::WriteFault,
        },
        Err(_) => PrintEnding::OutOfMemory,
    }
}

fn answered<D: Disk>(alloc: Global, desk: &Desk<D>, asked: &Inquiry) -> Result<Reply, OutOfMemory>
    ensures { IfOk result (λ reply. IsReport desk.now.host.history asked.now (reply_text reply)) }
{
    match caller(desk, &asked.sender.operator, &asked.sender.key) {
        None => Ok(Reply::refused(Refusal::UnknownKey)),
        Some(caller) => answered_to(alloc, desk, &caller, asked),
    }
}

fn answered_to<D: Disk>(
    alloc: Global,
    desk: &Desk<D>,
    caller: &Ident,
    asked: &Inquiry,
) -> Result<Reply, OutOfMemory>
    ensures { IfOk result (λ reply. IsShown desk.now.host.history (Some caller.now) asked.now
        (query_refusal desk.now.host.history caller.now asked.now.query) (reply_text reply)) }
{
    // The history is legal, which the desk tells with the number of its entries.
    let _ = desk.entries();
    match desk.read(alloc, caller, &asked.query) {
        Ok(reading) => {
            let text = printed(alloc, &reading, asked.csv)?;
            Ok(Reply::Reading(text))
        }
        Err(QueryRefused::Refused(refusal)) => Ok(Reply::refused(refusal)),
        Err(QueryRefused::OutOfMemory) => Err(OutOfMemory),
    }
}

// A reading as its table, where one is asked for and there is one, and else as its lines.
fn printed(alloc: Global, reading: &Reading, csv: bool) -> Result<Vec<u8>, OutOfMemory>
    requires { IsPrintable reading.now }
    ensures { IfOk result (λ text. text.items ≡ spec.printed csv reading.now) }
{
    if !csv {
        return text(alloc, reading);
    }
    match reading {
        Reading::Awards(awards) => export_awards(alloc, awards),
        Reading::Holdings(holdings) => export_holdings(alloc, holdings),
        Reading::Terms(_)
        | Reading::Results(_)
        | Reading::Bids(_)
        | Reading::Redemption(_)
        | Reading::Funds(_) => text(alloc, reading),
    }
}
