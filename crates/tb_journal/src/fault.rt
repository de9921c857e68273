//! Why a journal isn't opened, and why a payload isn't acknowledged.
ghost use Rattle.std.specs.Prelude.{◌≡◌, Some, codes};
ghost use Rattle.tb_journal.specs.declared.fault.JournalFault.TheVariants.{OutOfMemory, DiskFault};

use std::alloc::{AllocError, AllocFailed};
use std::error::Error;
use std::fmt;
use tb_link::Failed;

/// The disk failed, and its count of faults has risen.
#[derive(Clone, Copy, Debug, PartialEq, Eq)]
pub struct DiskFault;

impl fmt::Display for DiskFault {
    ghost output = { λ _. Some (codes "the disk failed") };

    fn fmt<W: fmt::Write>(&self, f: &mut fmt::Formatter<W>) -> fmt::Result {
        write!(f, "the disk failed")
    }
}

impl Error for DiskFault {}

/// Why a journal isn't opened.
#[derive(Clone, Copy, Debug, PartialEq, Eq)]
pub enum JournalFault {
    /// The disk failed, and its count of faults has risen.
    DiskFault,
    /// It is longer than an empty journal and doesn't begin with the title, but with these bytes.
    NotAJournal([u8; 16]),
    /// It is longer than an empty journal and begins with the title, but this byte, which isn't 1, stands in the place
    /// of the seal.
    Unsealed(u8),
    /// At this place a gate byte is missing, or an open one stands before no frame with the ordinal of that place.
    Damaged(u64),
    OutOfMemory,
}

impl From<Failed> for JournalFault {
    ghost from_gives = { λ _ e. e ≡ DiskFault };

    fn from(_failed: Failed) -> JournalFault {
        JournalFault::DiskFault
    }
}

impl From<AllocError> for JournalFault {
    ghost from_gives = { λ _ e. e ≡ OutOfMemory };

    fn from(_error: AllocError) -> JournalFault {
        JournalFault::OutOfMemory
    }
}

impl<T: Drop> From<AllocFailed<T>> for JournalFault {
    ghost from_gives = { λ _ e. e ≡ OutOfMemory };

    fn from(_error: AllocFailed<T>) -> JournalFault {
        JournalFault::OutOfMemory
    }
}
