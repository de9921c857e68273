//! The heads of replies.
ghost use Rattle.std.specs.Prelude.{◌≡◌, ◌+◌, ◌≤◌, [], ◌++◌, true, None, length, take, drop};
ghost use Rattle.std.specs.Fmt.{decimal};
ghost use Rattle.tb_wire.specs.Codes.{is_told};
ghost use Rattle.tb_wire.specs.Replies.{head_text, status_line, content_lines, crlf, allow_line, close_line, rendered, bad_front, disk_fault, no_memory};

use crate::phrases::phrase;
use std::marker::Model;
use tb_units::Short;

/// The one method that a path is served by.
#[derive(Clone, Copy, Debug, PartialEq, Eq)]
pub enum Allow {
    Get,
    Post,
}

/// The head of a reply, of at most 200 bytes. Contracts see its bytes.
#[derive(Debug, Drop)]
pub struct Head {
    bytes: [u8; 200],
    used: usize,
}

impl Model for Head {
    ghost use Rattle.std.specs.Prelude.{ℕ, ◌≤◌, List, take};

    ghost Value = { List ℕ };

    ghost view = { λ head. take head.used head.bytes };

    ghost invariant = { λ head. head.used ≤ 200 };
}

impl Head {
    /// The bytes of the head.
    pub fn bytes(&self) -> &[u8]
        ensures bytes { result.now ≡ self.now }
        ensures few { length result.now ≤ 200 }
    {
        &self.bytes[..self.used]
    }

    fn new() -> Head
        ensures { result ≡ [] }
    {
        Head {
            bytes: [0; 200],
            used: 0,
        }
    }

    fn push(&mut self, more: &[u8])
        requires { length self.old + length more.now ≤ 200 }
        ensures bytes { self.new ≡ self.old ++ more.now }
        ensures size { length self.new ≡ length self.old + length more.now }
    {
        write_at(&mut self.bytes, self.used, more);
        self.used += more.len();
    }

    #[tactic(auto, using(crate::proofs::Texts::number_few))]
    fn number(&mut self, number: u64)
        requires room { length self.old ≤ 150 }
        ensures number { self.new ≡ self.old ++ decimal number }
        ensures size { length self.new ≤ length self.old + 20 }
    {
        let text = Short::whole(number as u128);
        self.push(text.bytes());
    }

    fn end_line(&mut self)
        requires room { length self.old ≤ 198 }
        ensures { self.new ≡ self.old ++ crlf }
    {
        self.push(b"\r\n");
    }

    #[tactic(auto, using(crate::proofs::Texts::joined))]
    fn status(&mut self, code: u16)
        requires told { is_told code ≡ true }
        requires empty { self.old ≡ [] }
        ensures line { self.new ≡ status_line code }
        ensures few { length self.new ≤ 63 }
    {
        self.push(b"HTTP/1.1 ");
        self.number(code as u64);
        self.push(b" ");
        self.push(phrase(code).as_bytes());
        self.end_line();
    }

    #[tactic(auto, using(crate::proofs::Texts::joined))]
    fn content(&mut self, size: usize)
        requires room { length self.old ≤ 80 }
        ensures lines { self.new ≡ self.old ++ content_lines size }
        ensures few { length self.new ≤ length self.old + 64 }
    {
        self.push(b"Content-Type: text/plain");
        self.end_line();
        self.push(b"Content-Length: ");
        self.number(size as u64);
        self.end_line();
    }

    #[tactic(auto, using(crate::proofs::Texts::joined))]
    fn allow(&mut self, allow: Option<Allow>)
        requires room { length self.old ≤ 180 }
        ensures line { self.new ≡ self.old ++ allow_line allow }
        ensures size { length self.new ≡ length self.old + length (allow_line allow) }
        ensures few { length self.new ≤ length self.old + 13 }
    {
        match allow {
            Some(Allow::Get) => self.push(b"Allow: GET\r\n"),
            Some(Allow::Post) => self.push(b"Allow: POST\r\n"),
            None => {}
        }
    }

    #[tactic(auto, using(crate::proofs::Texts::joined))]
    fn close(&mut self, close: bool)
        requires room { length self.old ≤ 175 }
        ensures line { self.new ≡ self.old ++ close_line close }
        ensures few { length self.new ≤ length self.old + 19 }
    {
        if close {
            self.push(b"Connection: close\r\n");
        }
    }
}

/// A whole reply, of at most 200 bytes. Contracts see its bytes.
#[derive(Debug, Drop)]
pub struct Reply {
    text: Head,
}

impl Model for Reply {
    ghost use Rattle.std.specs.Prelude.{ℕ, List};

    ghost Value = { List ℕ };

    ghost view = { λ reply. reply.text };
}

impl Reply {
    /// The bytes of the reply, its head and its body.
    pub fn bytes(&self) -> &[u8]
        ensures bytes { result.now ≡ self.now }
        ensures few { length result.now ≤ 200 }
    {
        self.text.bytes()
    }
}

/// The head of a reply with a code, the length of its body in bytes, for a method that isn't served the one that is,
/// and whether the link closes (RFC 9112, section 4).
pub fn reply_head(code: u16, length: usize, allow: Option<Allow>, close: bool) -> Head
    requires told { is_told code ≡ true }
    ensures { result ≡ head_text code length allow close }
{
    spell_head(code, length, allow, close)
}

/// The reply to a fault in the bytes of a link, by its code. The link closes.
pub fn bad_front_reply(code: u16) -> Reply
    requires told { is_told code ≡ true }
    ensures { result ≡ bad_front code }
{
    spell_reply(code, b"bad request\n", true)
}

/// The reply to a fault of the disk, after which the link may go on.
pub fn disk_fault_reply(close: bool) -> Reply
    ensures { result ≡ disk_fault close }
{
    spell_reply(503, b"unavailable DiskFault\n", close)
}

/// The reply where memory is wanting. The link closes.
pub fn no_memory_reply() -> Reply
    ensures { result ≡ no_memory }
{
    spell_reply(507, b"unavailable OutOfMemory\n", true)
}

#[tactic(auto, using(crate::proofs::Texts::joined))]
fn spell_head(code: u16, size: usize, allow: Option<Allow>, close: bool) -> Head
    requires told { is_told code ≡ true }
    ensures head { result ≡ head_text code size allow close }
    ensures few { length result ≤ 148 + length (allow_line allow) }
{
    let mut head = Head::new();
    head.status(code);
    head.content(size);
    head.allow(allow);
    head.close(close);
    head.end_line();
    head
}

fn spell_reply(code: u16, body: &[u8], close: bool) -> Reply
    requires told { is_told code ≡ true }
    requires short { length body.now ≤ 50 }
    ensures { result ≡ rendered code body.now None close }
{
    let mut text = spell_head(code, body.len(), None, close);
    text.push(body);
    Reply { text }
}

// Writes more over the bytes from a place on.
fn write_at(bytes: &mut [u8], at: usize, more: &[u8])
    requires { at + length more.now ≤ length bytes.old }
    ensures { bytes.new ≡ take at bytes.old ++ (more.now ++ drop (at + length more.now) bytes.old) }
{
    let (_, rest) = bytes.split_at_mut(at);
    let (front, _) = rest.split_at_mut(more.len());
    front.copy_from_slice(more);
}
