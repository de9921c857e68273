//! Replies as bytes.
ghost use Rattle.std.specs.Prelude.{◌≡◌, ◌+◌, ◌≤◌, [], ◌∷◌, ◌++◌, length, true, None, IfOk};
ghost use Rattle.tb_units.specs.Bytes.{line_feed};
ghost use Rattle.tb_report.specs.Lines.{text_of};
ghost use Rattle.tb_report.specs.Readings.{IsPrintable, lines_of};
ghost use Rattle.tb_wire.specs.Codes.{is_told};
ghost use Rattle.tb_wire.specs.Replies.{head_text, rendered};
ghost use Rattle.tb_session.specs.Replies as spec;
ghost use Rattle.tb_session.specs.Replies.{allow_of, verdict_body};

use std::alloc::Global;
use std::marker::Model;
use tb_history::Reading;
use tb_message::{Verdict, verdict_line};
use tb_report::text;
use tb_units::OutOfMemory;
use tb_wire::{Allow, Target, refusal_code, reply_head};

/// The reply to a verdict, of at most 361 bytes, which takes no memory. Contracts see its bytes.
#[derive(Drop)]
pub(crate) struct VerdictReply {
    bytes: [u8; 361],
    used: usize,
}

impl Model for VerdictReply {
    ghost use Rattle.std.specs.Prelude.{ℕ, ◌≤◌, List, take};

    ghost Value = { List ℕ };

    ghost view = { λ reply. take reply.used reply.bytes };

    ghost invariant = { λ reply. reply.used ≤ 361 };
}

impl VerdictReply {
    /// Its bytes.
    pub fn bytes(&self) -> &[u8]
        ensures { result.now ≡ self.now }
    {
        &self.bytes[..self.used]
    }

    fn push(&mut self, more: &[u8])
        requires { length self.old + length more.now ≤ 361 }
        ensures { self.new ≡ self.old ++ more.now }
    {
        let end = self.used + more.len();
        self.bytes[self.used..end].copy_from_slice(more);
        self.used = end;
    }
}

fn verdict_code(verdict: &Verdict) -> u16
    ensures code { result ≡ spec.verdict_code verdict.now }
    ensures told { is_told result ≡ true }
{
    match verdict {
        Verdict::Accepted { .. } | Verdict::Repeat { .. } => 200,
        Verdict::Refused(refusal) => refusal_code(refusal),
    }
}

/// The method that is told where another was used.
pub(crate) fn find_allow(target: Target) -> Option<Allow>
    ensures { result ≡ allow_of target }
{
    match target {
        Target::GetOnly => Some(Allow::Get),
        Target::PostOnly => Some(Allow::Post),
        Target::Messages | Target::Read(_) | Target::NoRoute => None,
    }
}

/// The reply to a verdict, which says whether the link closes.
pub(crate) fn verdict_reply(verdict: &Verdict, allow: Option<Allow>, close: bool) -> VerdictReply
    ensures { result ≡ rendered (spec.verdict_code verdict.now) (verdict_body verdict.now) allow close }
{
    let line = verdict_line(verdict);
    let head = reply_head(verdict_code(verdict), line.bytes().len() + 1, allow, close);
    let mut reply = VerdictReply {
        bytes: [0; 361],
        used: 0,
    };
    reply.push(head.bytes());
    reply.push(line.bytes());
    reply.push(b"\n");
    reply
}

/// The reply to a reading, which says whether the link closes.
pub(crate) fn reading_reply(
    alloc: Global,
    reading: &Reading,
    close: bool,
) -> Result<Vec<u8>, OutOfMemory>
    requires { IsPrintable reading.now }
    ensures { IfOk result (λ reply. reply.items ≡ rendered 200 (text_of (lines_of reading.now)) None close) }
{
    let body = text(alloc, reading)?;
    let head = reply_head(200, body.len(), None, close);
    let mut reply = Vec::new(alloc);
    reply.extend_from_slice(head.bytes())?;
    reply.extend_from_slice(&body)?;
    Ok(reply)
}
