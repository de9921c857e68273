//! The command `import`.
ghost use Rattle.std.specs.Prelude.{◌≡◌, ◌≤◌, [], length, Option, None, IfOk, OnOk, OnErr, vec_capacity};
ghost use Rattle.tb_units.specs.declared.moment.Moment.{Moment};
ghost use Rattle.tb_gates.specs.Clocks.{ReadsClock};
ghost use Rattle.tb_terms.specs.declared.refusal.Refusal.TheVariants as refusal;
ghost use Rattle.tb_core.specs.Rooms.{Fits, behind_all};
ghost use Rattle.tb_desk.specs.Desks.{Tells};
ghost use Rattle.tb_desk.specs.Turn.{Replies, AreBids, AreNumbered};
ghost use Rattle.tb_desk.specs.declared.fault.OpenFault.{OpenFault};
ghost use Rattle.tb_history.specs.Answer.{caller_of};
ghost use Rattle.tb_history.specs.Roster.{registrations};
ghost use Rattle.tb_commands.specs.DiskRun.{HasGrown};
ghost use Rattle.tb_commands.specs.ImportRun.{AreSent, ImportEnds, TableEnds, group_text, same_lines};
ghost use Rattle.tb_commands.specs.ImportSteps.{AreAsMany, GroupEnds, RowsEnd};
ghost use Rattle.tb_lines.specs.Reads.{ReadsToEnd};
ghost use Rattle.tb_commands.specs.Replies.{refused};
ghost use Rattle.tb_commands.specs.Standings.{standing};
ghost use Rattle.tb_lines.specs.Told.{WhereTold};
ghost use Rattle.tb_commands.specs.Turns.{MakesTurn};

use crate::answer::caller;
use crate::command_endings::{DiskEnding, TextEnding};
use crate::row_lines::{LONGEST_ROW, push_same, push_verdicts};
use crate::sender::Sender;
use crate::table_input::read_table;
use std::alloc::Global;
use tb_desk::{Desk, GroupReply};
use tb_disk::Disk;
use tb_gates::Clock;
use tb_import::BidTable;
use tb_link::{Sink, Source};
use tb_message::{Message, Verdict, verdict_line};
use tb_terms::Refusal;
use tb_units::{Ident, OutOfMemory};

/// Rows of one turn, at most.
const LONGEST_RUN: usize = 64;

/// Bytes of what they are answered, at most.
const LONGEST_TEXT: usize = LONGEST_RUN * LONGEST_ROW;

/// Sends the rows of the table that the input is, in the name of a key, and hands the disk back. The journal is opened
/// before the input is read, and the whole input is read and checked before the first row is sent. The rows make turns
/// of 64 and a last one of fewer, each at one reading of the clock, which is taken for it; what a turn's rows are
/// answered is written before the next turn is made. Where the key is nobody's the rows are refused, and the clock
/// isn't read.
pub fn import<D: Disk, C: Clock, I: Source, O: Sink>(
    alloc: Global,
    sender: &Sender,
    input: &mut I,
    out: &mut O,
    disk: D,
    clock: &mut C,
) -> (DiskEnding<TextEnding>, D)
    ensures ends { ImportEnds sender.now (C.clock clock.old) (C.clock clock.new) result.0
        (I.source input.old) (I.source input.new)
        (record { out = O.sink out.old; disk = D.disk disk })
        (record { out = O.sink out.new; disk = D.disk result.1 }) }
    ensures unbegun { (why : OpenFault) → result.0 ≡ DiskEnding.Unopened why
        → (input.new ≡ input.old) × (out.new ≡ out.old) }
{
    match Desk::open(alloc, disk) {
        Ok(mut desk) => {
            let ending = import_table(alloc, &mut desk, sender, input, out, clock);
            (DiskEnding::Opened(ending), desk.into_disk())
        }
        Err((disk, fault)) => (DiskEnding::Unopened(fault), disk),
    }
}

fn import_table<D: Disk, C: Clock, I: Source, O: Sink>(
    alloc: Global,
    desk: &mut Desk<D>,
    sender: &Sender,
    input: &mut I,
    out: &mut O,
    clock: &mut C,
) -> TextEnding
    ensures ends { TableEnds sender.now (C.clock clock.old) (C.clock clock.new) result
        (I.source input.old) (I.source input.new) (O.sink out.old) (O.sink out.new)
        (standing (D.disk desk.old.disk) desk.old) (standing (D.disk desk.new.disk) desk.new) }
    ensures reads { WhereTold (I.source input.old).left
        (ReadsToEnd (I.source input.old).reads (I.source input.new).reads) }
    ensures grown { HasGrown (standing (D.disk desk.old.disk) desk.old) (standing (D.disk desk.new.disk) desk.new) }
    ensures kept { (desk.new.opened ≡ desk.old.opened) × (desk.new.recovered ≡ desk.old.recovered) }
    ensures no_fault { result ≡ TextEnding.Done → ((I.source input.new).faults ≡ (I.source input.old).faults)
        × ((O.sink out.new).faults ≡ (O.sink out.old).faults) }
{
    match read_table(alloc, input) {
        Ok(table) => send_rows(alloc, desk, sender, &table, out, clock),
        Err(ending) => ending,
    }
}

// Sends the rows, run by run.
fn send_rows<D: Disk, C: Clock, O: Sink>(
    alloc: Global,
    desk: &mut Desk<D>,
    sender: &Sender,
    table: &BidTable,
    out: &mut O,
    clock: &mut C,
) -> TextEnding
    requires bids { AreBids table.now }
    requires numbered { AreNumbered table.now }
    ensures ends { RowsEnd sender.now (C.clock clock.old) (C.clock clock.new) table.now result
        (O.sink out.old) (O.sink out.new)
        (standing (D.disk desk.old.disk) desk.old) (standing (D.disk desk.new.disk) desk.new) }
    ensures grown { HasGrown (standing (D.disk desk.old.disk) desk.old) (standing (D.disk desk.new.disk) desk.new) }
    ensures kept { (desk.new.opened ≡ desk.old.opened) × (desk.new.recovered ≡ desk.old.recovered) }
{
    let Ok(mut run) = Vec::with_capacity(alloc, LONGEST_RUN) else {
        return TextEnding::OutOfMemory;
    };
    let Ok(mut text) = Vec::with_capacity(alloc, LONGEST_TEXT) else {
        return TextEnding::OutOfMemory;
    };
    let mut place = 0;
    while place < table.len() {
        table.put_run(place, LONGEST_RUN, &mut run);
        if let Some(ending) = send_run(desk, sender, &run, &mut text, out, clock) {
            return ending;
        }
        place += run.len();
    }
    TextEnding::Done
}

// Sends a run of rows, and writes what they are answered, in one write. `None` where the import goes on.
fn send_run<D: Disk, C: Clock, O: Sink>(
    desk: &mut Desk<D>,
    sender: &Sender,
    run: &[(u64, Message)],
    text: &mut Vec<u8>,
    out: &mut O,
    clock: &mut C,
) -> Option<TextEnding>
    requires size { (1 ≤ length run.now) × (length run.now ≤ 64) }
    requires bids { AreBids run.now }
    requires numbered { AreNumbered run.now }
    requires room { 13440 ≤ vec_capacity text.old }
    ensures ends { GroupEnds sender.now (C.clock clock.old) (C.clock clock.new) run.now result
        (O.sink out.old) (O.sink out.new)
        (standing (D.disk desk.old.disk) desk.old) (standing (D.disk desk.new.disk) desk.new) }
    ensures kept { (desk.new.opened ≡ desk.old.opened) × (desk.new.recovered ≡ desk.old.recovered) }
    ensures room { vec_capacity text.new ≡ vec_capacity text.old }
{
    text.clear();
    match send(desk, sender, run, text, clock) {
        Ok(()) => match out.write(text) {
            Ok(()) => None,
            Err(_) => Some(TextEnding::WriteFault),
        },
        Err(OutOfMemory) => Some(TextEnding::OutOfMemory),
    }
}

// Sends a run of rows, and puts what they are answered behind the text. Where memory runs out nothing was sent;
// it is wanting only where the desk has no room for the run then.
fn send<D: Disk, C: Clock>(
    desk: &mut Desk<D>,
    sender: &Sender,
    run: &[(u64, Message)],
    text: &mut Vec<u8>,
    clock: &mut C,
) -> Result<(), OutOfMemory>
    requires size { (1 ≤ length run.now) × (length run.now ≤ 64) }
    requires bids { AreBids run.now }
    requires numbered { AreNumbered run.now }
    requires empty { text.old.items ≡ [] }
    requires room { 13440 ≤ vec_capacity text.old }
    ensures sent { OnOk result (AreSent
        (caller_of (registrations desk.old.host.history) sender.now.operator sender.now.key)
        (C.clock clock.old) (C.clock clock.new) run.now (standing (D.disk desk.old.disk) desk.old) text.new.items
        (standing (D.disk desk.new.disk) desk.new)) }
    ensures stays { OnErr result (standing (D.disk desk.new.disk) desk.new ≡ standing (D.disk desk.old.disk) desk.old) }
    ensures lacks { OnErr result (¬ Fits desk.new.host.room (behind_all desk.new.doubt run.now)) }
    ensures unread { OnErr result (C.clock clock.new ≡ C.clock clock.old) }
    ensures kept { (desk.new.opened ≡ desk.old.opened) × (desk.new.recovered ≡ desk.old.recovered) }
    ensures room { vec_capacity text.new ≡ vec_capacity text.old }
{
    let Some(caller) = caller(desk, &sender.operator, &sender.key) else {
        push_refused(text, run);
        return Ok(());
    };
    let mut verdicts = [None; LONGEST_RUN];
    let reply = submit(desk, &caller, run, &mut verdicts, clock)?;
    push_answers(text, run, &reply, &verdicts);
    Ok(())
}

// One turn of the desk for a run of rows, with room for what it may keep, at a reading of the clock. Memory is wanting
// only where there is no such room.
fn submit<D: Disk, C: Clock>(
    desk: &mut Desk<D>,
    caller: &Ident,
    run: &[(u64, Message)],
    verdicts: &mut [Option<Verdict>; 64],
    clock: &mut C,
) -> Result<GroupReply, OutOfMemory>
    requires size { (1 ≤ length run.now) × (length run.now ≤ 64) }
    requires bids { AreBids run.now }
    requires numbered { AreNumbered run.now }
    ensures turn { IfOk result (λ reply. (moment : Moment)
        × ReadsClock (C.clock clock.old) (C.clock clock.new) moment.seconds
        × (replies : Replies) × Tells reply verdicts.new replies
        × MakesTurn (record { submitter = caller.now; moment = moment; messages = run.now })
        (standing (D.disk desk.old.disk) desk.old) (standing (D.disk desk.new.disk) desk.new) replies) }
    ensures stays { OnErr result (standing (D.disk desk.new.disk) desk.new ≡ standing (D.disk desk.old.disk) desk.old) }
    ensures lacks { OnErr result (¬ Fits desk.new.host.room (behind_all desk.new.doubt run.now)) }
    ensures unread { OnErr result (C.clock clock.new ≡ C.clock clock.old) }
    ensures kept { (desk.new.opened ≡ desk.old.opened) × (desk.new.recovered ≡ desk.old.recovered) }
{
    desk.make_room_group(run)?;
    let moment = clock.now();
    Ok(desk.submit_group(caller, moment, run, verdicts))
}

// The lines of rows whose key is nobody's.
fn push_refused(text: &mut Vec<u8>, run: &[(u64, Message)])
    requires size { length run.now ≤ 64 }
    requires empty { text.old.items ≡ [] }
    requires room { 13440 ≤ vec_capacity text.old }
    ensures lines { text.new.items ≡ same_lines (refused refusal.UnknownKey) run.now }
    ensures room { vec_capacity text.new ≡ vec_capacity text.old }
{
    let line = verdict_line(&Verdict::Refused(Refusal::UnknownKey));
    push_same(text, run, line.bytes());
}

// The lines of rows that made one turn.
fn push_answers(
    text: &mut Vec<u8>,
    run: &[(u64, Message)],
    reply: &GroupReply,
    verdicts: &[Option<Verdict>; 64],
)
    requires size { length run.now ≤ 64 }
    requires empty { text.old.items ≡ [] }
    requires room { 13440 ≤ vec_capacity text.old }
    ensures lines { (replies : Replies)
        → Tells reply.now verdicts.now replies
        → AreAsMany run.now replies
        → text.new.items ≡ group_text run.now replies }
    ensures room { vec_capacity text.new ≡ vec_capacity text.old }
{
    match reply {
        GroupReply::Verdicts => push_verdicts(text, run, verdicts),
        GroupReply::DiskFault => push_same(text, run, b"unavailable DiskFault"),
    }
}
