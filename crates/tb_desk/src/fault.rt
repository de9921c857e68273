//! Why a desk isn't opened.
ghost use Rattle.std.specs.Prelude.{◌≡◌};
ghost use Rattle.tb_desk.specs.Replay as spec;

use tb_journal::JournalFault;

/// Why a desk isn't opened.
#[derive(Clone, Copy, Debug, PartialEq, Eq)]
pub enum OpenFault {
    /// The disk failed, and its count of faults has risen.
    DiskFault,
    /// More than 18 bytes that don't begin with the header, but with these.
    NotAJournal([u8; 16]),
    /// More than 18 bytes with the header, and this byte, which isn't 1, in the place of the seal.
    Unsealed(u8),
    /// At this place there is no whole frame, or none whose entries can follow on those before.
    Damaged(u64),
    OutOfMemory,
}

/// Why a journal of the first version isn't migrated.
#[derive(Clone, Copy, Debug, PartialEq, Eq)]
pub enum MigrateFault {
    /// The first disk isn't opened. The spare wasn't touched.
    From(OpenFault),
    /// The spare failed, and its count of faults has risen.
    SpareFault,
}

/// A refusal of the journal is one of the desk.
pub(crate) fn lifted(fault: JournalFault) -> OpenFault
    ensures { result ≡ spec.lifted fault }
{
    match fault {
        JournalFault::DiskFault => OpenFault::DiskFault,
        JournalFault::NotAJournal(found) => OpenFault::NotAJournal(found),
        JournalFault::Unsealed(byte) => OpenFault::Unsealed(byte),
        JournalFault::Damaged(place) => OpenFault::Damaged(place),
        JournalFault::OutOfMemory => OpenFault::OutOfMemory,
    }
}
