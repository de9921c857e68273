//! How a command ends.
ghost use Rattle.std.specs.Prelude.{◌≡◌, ◌+◌, ◌*◌, ◌<◌, ◌≤◌, ◌++◌, ◌∷◌, [], false, length};
ghost use Rattle.std.specs.Fmt.{digit_glyph};
ghost use Rattle.tb_commands.specs.Endings.{status_of, ending_of, message_of, hexadecimal};
ghost use Rattle.tb_commands.specs.declared.ending.Ending.TheVariants as ending;

use crate::notice::Notice;
use crate::number_line::number_line;
use tb_desk::OpenFault;
use tb_units::Ident;

/// How a command ends.
#[derive(Clone, Copy, Debug, PartialEq, Eq)]
pub enum Ending {
    Done,
    /// The words are outside the command set.
    Usage,
    /// The first line outside the grammar was reached, the line of this number, counted from 1.
    BadInput(u64),
    ReadFault,
    WriteFault,
    /// The disk failed: before anything was read or written, but for `follow`.
    DiskFault,
    /// The disk has more than 18 bytes that don't begin with a journal's header, but with these.
    NotAJournal([u8; 16]),
    /// At this place the disk has no whole frame, or none whose entries can follow on those before.
    Damaged(u64),
    OutOfMemory,
    /// A gate failed.
    GateFault,
    /// The disk has more than 18 bytes with a journal's header, and this byte, which isn't 1, in the place of its seal.
    Unsealed(u8),
    /// The register has another row of this auction.
    RegisterDiffers(Ident),
    /// The keeper of the register failed.
    KeeperFault,
    /// The parcel of this place can't be of the history that is followed.
    Forked(u64),
    /// Behind the gate at this place of the journal stands what no append leaves.
    DamagedBehind(u64),
}

impl Ending {
    /// The ending where the desk wasn't opened.
    pub fn of(fault: OpenFault) -> Ending
        ensures { result ≡ ending_of fault }
    {
        match fault {
            OpenFault::DiskFault => Ending::DiskFault,
            OpenFault::NotAJournal(found) => Ending::NotAJournal(found),
            OpenFault::Unsealed(byte) => Ending::Unsealed(byte),
            OpenFault::Damaged(place) => Ending::Damaged(place),
            OpenFault::OutOfMemory => Ending::OutOfMemory,
        }
    }

    /// The status of the program.
    pub fn status(&self) -> u8
        ensures { result ≡ status_of self.now }
    {
        match self {
            Ending::Done => 0,
            Ending::Usage => 2,
            Ending::BadInput(_) => 3,
            Ending::ReadFault => 4,
            Ending::WriteFault => 5,
            Ending::DiskFault => 6,
            Ending::NotAJournal(_) => 7,
            Ending::Damaged(_) => 8,
            Ending::OutOfMemory => 9,
            Ending::GateFault => 10,
            Ending::Unsealed(_) => 11,
            Ending::RegisterDiffers(_) => 12,
            Ending::KeeperFault => 13,
            Ending::Forked(_) => 14,
            Ending::DamagedBehind(_) => 15,
        }
    }

    /// What is told of it, a line; nothing where the command did all.
    pub fn message(&self) -> Notice
        ensures { result ≡ message_of self.now }
    {
        match self {
            Ending::Done => Notice::new(),
            Ending::Usage => text(b"usage\n"),
            Ending::BadInput(line) => number_line(b"bad input at line ", *line),
            Ending::ReadFault => text(b"read fault\n"),
            Ending::WriteFault => text(b"write fault\n"),
            Ending::DiskFault => text(b"disk fault\n"),
            Ending::NotAJournal(found) => not_a_journal(found),
            Ending::Damaged(place) => number_line(b"damaged at ", *place),
            Ending::OutOfMemory => text(b"out of memory\n"),
            Ending::GateFault => text(b"gate fault\n"),
            Ending::Unsealed(byte) => unsealed(*byte),
            Ending::RegisterDiffers(auction) => register_differs(auction),
            Ending::KeeperFault => text(b"keeper fault\n"),
            Ending::Forked(place) => number_line(b"forked at ", *place),
            Ending::DamagedBehind(place) => number_line(b"damaged behind ", *place),
        }
    }
}

// The bytes found stand in lower-case hexadecimal.
fn not_a_journal(found: &[u8; 16]) -> Notice
    ensures { result ≡ message_of (ending.NotAJournal found.now) }
{
    let mut message = text(b"not a journal ");
    for byte in found {
        push_hexadecimal(&mut message, *byte);
    }
    message.push(b'\n');
    message
}

fn unsealed(byte: u8) -> Notice
    ensures { result ≡ message_of (ending.Unsealed byte) }
{
    let mut message = text(b"unsealed ");
    push_hexadecimal(&mut message, byte);
    message.push(b'\n');
    message
}

fn push_hexadecimal(text: &mut Notice, byte: u8)
    requires { length text.old + 2 ≤ 64 }
    ensures { text.new ≡ text.old ++ hexadecimal (byte ∷ []) }
{
    text.push(hex_digit(byte / 16));
    text.push(hex_digit(byte % 16));
}

fn hex_digit(value: u8) -> u8
    requires { value < 16 }
    ensures { result ≡ digit_glyph false value }
{
    if value < 10 {
        b'0' + value
    } else {
        b'a' + (value - 10)
    }
}

fn register_differs(auction: &Ident) -> Notice
    ensures { result ≡ message_of (ending.RegisterDiffers auction.now) }
{
    let mut message = text(b"register differs at ");
    push_text(&mut message, auction.bytes());
    message.push(b'\n');
    message
}

// At most 64 bytes.
pub(crate) fn text(bytes: &[u8]) -> Notice
    requires { length bytes.now ≤ 64 }
    ensures { result ≡ bytes.now }
{
    let mut text = Notice::new();
    push_text(&mut text, bytes);
    text
}

pub(crate) fn push_text(text: &mut Notice, bytes: &[u8])
    requires { length text.old + length bytes.now ≤ 64 }
    ensures { text.new ≡ text.old ++ bytes.now }
{
    for byte in bytes {
        text.push(*byte);
    }
}
