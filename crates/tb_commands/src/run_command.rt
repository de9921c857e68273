//! The command `run`.
ghost use Rattle.std.specs.Prelude.{◌≡◌, ℕ, Some, position};
ghost use Rattle.tb_desk.specs.declared.fault.OpenFault.{OpenFault};
ghost use Rattle.tb_commands.specs.DiskRun.{HasGrown};
ghost use Rattle.tb_lines.specs.LineEnds.{is_line_feed};
ghost use Rattle.tb_lines.specs.Lines.{ahead, unread, StaysAtEnd};
ghost use Rattle.tb_lines.specs.Reads.{ReadsLines};
ghost use Rattle.tb_commands.specs.RunEnds.{RunEnds, ScriptEnds};
ghost use Rattle.tb_commands.specs.ScriptSteps.{LineEnds, NextEnds};
ghost use Rattle.tb_commands.specs.Standings.{standing};
ghost use Rattle.tb_lines.specs.Told.{WhereTold};

use crate::answer::answer;
use crate::command_endings::{DiskEnding, TextEnding};
use crate::script_line::{ScriptLine, read_script_line};
use std::alloc::Global;
use tb_desk::Desk;
use tb_disk::Disk;
use tb_lines::{InputFault, LineReader, MOST_LINES, NextLine};
use tb_link::{Sink, Source};
use tb_message::RequestReader;
use tb_units::Ident;

/// Acts on a script over the history that the disk stands for, and hands the disk back: each reply is written as soon
/// as its line was acted on, in one write, before more is read. The journal is opened before the first line is
/// read. The operator's key is `op:` and this name.
pub fn run<D: Disk, I: Source, O: Sink>(
    alloc: Global,
    operator: &Ident,
    input: &mut I,
    out: &mut O,
    disk: D,
) -> (DiskEnding<TextEnding>, D)
    ensures ends { RunEnds operator.now result.0 (I.source input.old) (I.source input.new)
        (record { out = O.sink out.old; disk = D.disk disk })
        (record { out = O.sink out.new; disk = D.disk result.1 }) }
    // The desk was opened before anything was read or written.
    ensures unbegun { (why : OpenFault) → result.0 ≡ DiskEnding.Unopened why
        → (input.new ≡ input.old) × (out.new ≡ out.old) }
{
    match Desk::open(alloc, disk) {
        Ok(mut desk) => {
            let ending = act_on_script(alloc, &mut desk, operator, input, out);
            (DiskEnding::Opened(ending), desk.into_disk())
        }
        Err((disk, fault)) => (DiskEnding::Unopened(fault), disk),
    }
}

fn act_on_script<D: Disk, I: Source, O: Sink>(
    alloc: Global,
    desk: &mut Desk<D>,
    operator: &Ident,
    input: &mut I,
    out: &mut O,
) -> TextEnding
    ensures ends { ScriptEnds operator.now result (I.source input.old) (I.source input.new) (O.sink out.old)
        (O.sink out.new) (standing (D.disk desk.old.disk) desk.old) (standing (D.disk desk.new.disk) desk.new) }
    ensures grown { HasGrown (standing (D.disk desk.old.disk) desk.old) (standing (D.disk desk.new.disk) desk.new) }
    ensures kept { (desk.new.opened ≡ desk.old.opened) × (desk.new.recovered ≡ desk.old.recovered) }
    ensures no_fault { result ≡ TextEnding.Done → ((I.source input.new).faults ≡ (I.source input.old).faults)
        × ((O.sink out.new).faults ≡ (O.sink out.old).faults) }
{
    let mut reader = LineReader::new(alloc);
    let mut requests = RequestReader::new(alloc);
    for read in 0..MOST_LINES {
        if let Some(ending) = act_on_next(
            alloc,
            &mut requests,
            desk,
            operator,
            &mut reader,
            read + 1,
            input,
            out,
        ) {
            return ending;
        }
    }
    TextEnding::BadInput(MOST_LINES + 1)
}

// Acts on the next line, the line of this number. `None` where the script goes on.
fn act_on_next<D: Disk, I: Source, O: Sink>(
    alloc: Global,
    requests: &mut RequestReader,
    desk: &mut Desk<D>,
    operator: &Ident,
    reader: &mut LineReader,
    number: u64,
    input: &mut I,
    out: &mut O,
) -> Option<TextEnding>
    ensures ends { NextEnds operator.now number result
        (record {
          reader = reader.old;
          source = I.source input.old;
          stands = standing (D.disk desk.old.disk) desk.old;
          out = O.sink out.old;
        })
        (record {
          reader = reader.new;
          source = I.source input.new;
          stands = standing (D.disk desk.new.disk) desk.new;
          out = O.sink out.new;
        }) }
    ensures kept { (desk.new.opened ≡ desk.old.opened) × (desk.new.recovered ≡ desk.old.recovered) }
    // However it ends, nothing behind the line was read.
    ensures alone { WhereTold (ahead reader.old (I.source input.old))
        (ReadsLines 1 (I.source input.old).reads (I.source input.new).reads) }
    // Where a whole line waits nothing is read, so that no reply is held back by a read.
    ensures waits { (end : ℕ) → position is_line_feed (unread reader.old) ≡ Some end → input.new ≡ input.old }
    ensures once { StaysAtEnd reader.old reader.new (I.source input.old) (I.source input.new) }
{
    match reader.next_line(input) {
        Ok(NextLine::Line) => act_on_line(
            alloc,
            requests,
            desk,
            operator,
            reader.line(),
            number,
            out,
        ),
        Ok(NextLine::End) => Some(TextEnding::BadInput(number)),
        Ok(NextLine::TooLong) => Some(TextEnding::BadInput(number)),
        Err(InputFault::Read) => Some(TextEnding::ReadFault),
        Err(InputFault::OutOfMemory) => Some(TextEnding::OutOfMemory),
    }
}

fn act_on_line<D: Disk, O: Sink>(
    alloc: Global,
    requests: &mut RequestReader,
    desk: &mut Desk<D>,
    operator: &Ident,
    line: &[u8],
    number: u64,
    out: &mut O,
) -> Option<TextEnding>
    ensures ends { LineEnds operator.now number line.now result (standing (D.disk desk.old.disk) desk.old)
        (standing (D.disk desk.new.disk) desk.new) (O.sink out.old) (O.sink out.new) }
    ensures kept { (desk.new.opened ≡ desk.old.opened) × (desk.new.recovered ≡ desk.old.recovered) }
{
    match read_script_line(line) {
        Some(ScriptLine::Ask(ask)) => {
            let json = &line[ask.json_at..];
            match answer(alloc, requests, desk, operator, ask.moment, &ask.key, json) {
                Ok(reply) => match reply.write(out) {
                    Ok(()) => None,
                    Err(_) => Some(TextEnding::WriteFault),
                },
                Err(_) => Some(TextEnding::OutOfMemory),
            }
        }
        Some(ScriptLine::End) => Some(TextEnding::Done),
        None => Some(TextEnding::BadInput(number)),
    }
}
