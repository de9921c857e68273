//! Why the top call isn't made, and how that is told.
use sqlite::{Error, ErrorCode};
use std::fs::TryLockError;
use std::io;
use std::io::ErrorKind;
use tb_link::{Failed, Sink};
use tb_units::Short;

/// What the program opens, makes or listens on before its top call.
#[derive(Clone, Copy)]
pub(crate) enum Needed {
    /// The current folder.
    Folder,
    /// A file of the current folder, by its name.
    File(&'static str),
    /// A port of the local machine.
    Port(u16),
}

/// Why it isn't to be had.
#[derive(Clone, Copy)]
pub(crate) enum Reason {
    Words(&'static str),
    /// An error that has no words here, by the system's number.
    Number(u32),
}

/// Why the top call isn't made.
#[derive(Clone, Copy)]
pub(crate) enum StartFault {
    /// What is needed can't be opened, made, locked or listened on.
    CannotStart(Needed, Reason),
    /// Another host has the journal.
    InUse,
    OutOfMemory,
}

impl StartFault {
    /// A call of the system for this failed.
    pub(crate) fn of_system(needed: Needed, error: &io::Error) -> StartFault {
        match error.kind() {
            ErrorKind::OutOfMemory => StartFault::OutOfMemory,
            _ => StartFault::CannotStart(needed, reason_of(error)),
        }
    }

    /// This isn't locked.
    pub(crate) fn of_lock(needed: Needed, refused: &TryLockError) -> StartFault {
        match refused {
            TryLockError::WouldBlock => StartFault::CannotStart(needed, Reason::Words(LOCKED)),
            TryLockError::Error(error) => StartFault::of_system(needed, error),
        }
    }

    /// This isn't opened as a database.
    pub(crate) fn of_register(needed: Needed, error: &Error) -> StartFault {
        let words = match error {
            Error::SqliteFailure(ErrorCode::OutOfMemory) => return StartFault::OutOfMemory,
            Error::SqliteFailure(ErrorCode::DatabaseBusy) => LOCKED,
            Error::SqliteFailure(ErrorCode::DiskFull) => FULL,
            Error::SqliteFailure(ErrorCode::CannotOpen) => "not to be opened",
            Error::SqliteFailure(ErrorCode::SystemIoFailure) => "not to be read or written",
            _ => "no register, or damaged",
        };
        StartFault::CannotStart(needed, Reason::Words(words))
    }

    /// The status of the process.
    pub(crate) fn status(self) -> u8 {
        match self {
            StartFault::CannotStart(..) | StartFault::InUse => 1,
            StartFault::OutOfMemory => 9,
        }
    }

    /// Writes its lines.
    pub(crate) fn tell<S: Sink>(self, err: &mut S) -> Result<(), Failed> {
        match self {
            StartFault::OutOfMemory => err.write(b"out of memory\n"),
            StartFault::InUse => err.write(b"cannot start\nauction.journal is in use\n"),
            StartFault::CannotStart(needed, reason) => {
                err.write(b"cannot start\n")?;
                match needed {
                    Needed::Folder => err.write(b"the folder")?,
                    Needed::File(name) => err.write(name.as_bytes())?,
                    Needed::Port(port) => tell_number(err, b"port ", u32::from(port))?,
                }
                err.write(b": ")?;
                match reason {
                    Reason::Words(words) => err.write(words.as_bytes())?,
                    Reason::Number(number) => tell_number(err, b"error of the system ", number)?,
                }
                err.write(b"\n")
            }
        }
    }
}

fn tell_number<S: Sink>(err: &mut S, label: &[u8], number: u32) -> Result<(), Failed> {
    err.write(label)?;
    err.write(Short::whole(u128::from(number)).bytes())
}

const LOCKED: &str = "locked";

const FULL: &str = "no room on the file system";

/// Why a call of the system failed.
fn reason_of(error: &io::Error) -> Reason {
    Reason::Words(match error.kind() {
        ErrorKind::PermissionDenied => "permission denied",
        ErrorKind::NotFound => "not found",
        ErrorKind::AddrInUse => "address in use",
        ErrorKind::IsADirectory => "it is a folder",
        ErrorKind::FilesystemLoop => "a link that leads to itself",
        ErrorKind::ReadOnlyFilesystem => "the file system is read only",
        ErrorKind::StorageFull => FULL,
        ErrorKind::QuotaExceeded => "the quota is used up",
        _ => return Reason::Number(error.raw_os_error().map_or(0, i32::unsigned_abs)),
    })
}
