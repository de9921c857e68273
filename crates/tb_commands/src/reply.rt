//! What a line of a script is answered.
ghost use Rattle.std.specs.Prelude.{◌≡◌, ◌∷◌, ◌++◌, [], OnOk, OnErr, IfOk};
ghost use Rattle.tb_units.specs.Bytes.{line_feed};
ghost use Rattle.tb_link.specs.Sinks.{Takes, FailsToTake};
ghost use Rattle.tb_report.specs.Readings.{IsPrintable};
ghost use Rattle.tb_commands.specs.Replies.{reading_text, refused};
ghost use Rattle.tb_commands.specs.Answers.{reply_text};
ghost use Rattle.tb_commands.specs.Turns.{turn_text};

use std::alloc::Global;
use tb_history::Reading;
use tb_link::{Failed, Sink};
use tb_message::{Line, Verdict, verdict_line};
use tb_report::{line_count, text};
use tb_terms::Refusal;
use tb_units::{OutOfMemory, Short};

/// What a line of a script is answered: a verdict, that the disk failed, or the text of a reading.
#[derive(Drop)]
pub enum Reply {
    Verdict(Verdict),
    /// The message may or may not have been accepted.
    DiskFault,
    Reading(Vec<u8>),
}

impl Reply {
    /// What a turn of the desk was answered.
    pub fn of_turn(turned: tb_desk::Reply) -> Reply
        ensures { reply_text result ≡ turn_text turned }
    {
        match turned {
            tb_desk::Reply::Verdict(verdict) => Reply::Verdict(verdict),
            tb_desk::Reply::DiskFault => Reply::DiskFault,
        }
    }

    pub fn refused(refusal: Refusal) -> Reply
        ensures { reply_text result ≡ refused refusal }
    {
        Reply::Verdict(Verdict::Refused(refusal))
    }

    /// The number of lines of a reading, and its lines.
    pub fn of_reading(alloc: Global, reading: &Reading) -> Result<Reply, OutOfMemory>
        requires { IsPrintable reading.now }
        ensures { IfOk result (λ reply. reply_text reply ≡ reading_text reading.now) }
    {
        let lines = text(alloc, reading)?;
        let mut reply = Vec::with_capacity(alloc, lines.len().saturating_add(48))?;
        reply.extend_from_slice(b"lines ")?;
        reply.extend_from_slice(Short::whole(line_count(reading)).bytes())?;
        reply.push(b'\n')?;
        reply.extend_from_slice(&lines)?;
        Ok(Reply::Reading(reply))
    }

    /// Writes the reply, in one write.
    pub fn write<O: Sink>(&self, out: &mut O) -> Result<(), Failed>
        ensures takes { OnOk result (Takes (O.sink out.old) (O.sink out.new) (reply_text self.now)) }
        ensures fails { OnErr result (FailsToTake (O.sink out.old) (O.sink out.new) (reply_text self.now)) }
    {
        match self {
            Reply::Verdict(verdict) => write_line(&verdict_line(verdict), out),
            Reply::DiskFault => out.write(b"unavailable DiskFault\n"),
            Reply::Reading(text) => out.write(text),
        }
    }
}

// Writes the line and its line feed, which takes no memory: where a message was entered its reply is sure.
fn write_line<O: Sink>(line: &Line, out: &mut O) -> Result<(), Failed>
    ensures takes { OnOk result (Takes (O.sink out.old) (O.sink out.new) (line.now ++ line_feed ∷ [])) }
    ensures fails { OnErr result (FailsToTake (O.sink out.old) (O.sink out.new) (line.now ++ line_feed ∷ [])) }
{
    let mut ended = [0; 161];
    let bytes = line.bytes();
    let count = bytes.len();
    ended[..count].copy_from_slice(bytes);
    ended[count] = b'\n';
    out.write(&ended[..count + 1])
}
