//! How each command ends: the endings that it has, and no others.
ghost use Rattle.std.specs.Prelude.{◌≡◌};
ghost use Rattle.tb_commands.specs.Endings.{of_disk, of_migrate, of_print, of_register, of_send, of_serve, of_take};
ghost use Rattle.tb_commands.specs.Endings.{of_check, of_text};

use crate::ending::Ending;
use tb_desk::{MigrateFault, OpenFault};
use tb_units::Ident;

/// How a command ends that reads a text: `award`, and on a desk that was opened `run` and `import`.
#[derive(Clone, Copy, Debug, PartialEq, Eq)]
pub enum TextEnding {
    Done,
    /// The first line outside the grammar was reached, the line of this number, counted from 1; of a table the record.
    BadInput(u64),
    ReadFault,
    WriteFault,
    OutOfMemory,
}

/// How a command ends that only prints: `trial`, and on a desk that was opened `report`.
#[derive(Clone, Copy, Debug, PartialEq, Eq)]
pub enum PrintEnding {
    Done,
    WriteFault,
    OutOfMemory,
}

/// How a command ends that opens the disk.
#[derive(Clone, Copy, Debug, PartialEq, Eq)]
pub enum DiskEnding<E> {
    /// A desk was opened, and on it the command ended so.
    Opened(E),
    /// None was opened.
    Unopened(OpenFault),
}

/// How `migrate` ends.
#[derive(Clone, Copy, Debug, PartialEq, Eq)]
pub enum MigrateEnding {
    Done,
    WriteFault,
    /// The journal wasn't migrated.
    Unmigrated(MigrateFault),
}

/// How `follow send` ends on a desk that was opened.
#[derive(Clone, Copy, Debug, PartialEq, Eq)]
pub enum SendEnding {
    Done,
    WriteFault,
    DiskFault,
    /// The group at this place reads otherwise than it was opened.
    Damaged(u64),
}

/// How `check` ends on a desk that was opened.
#[derive(Clone, Copy, Debug, PartialEq, Eq)]
pub enum CheckEnding {
    Done,
    WriteFault,
    DiskFault,
    /// Behind the gate at this place stands what no append leaves.
    DamagedBehind(u64),
}

/// How `follow take` ends with a copy that was opened.
#[derive(Clone, Copy, Debug, PartialEq, Eq)]
pub enum TakeEnding {
    Done,
    /// The parcel of this number, counted from 1, is the first that is none.
    BadInput(u64),
    ReadFault,
    WriteFault,
    DiskFault,
    /// The parcel of this place can't be of the history that is followed.
    Forked(u64),
    OutOfMemory,
}

/// How `register` ends on a desk that was opened.
#[derive(Clone, Copy, Debug, PartialEq, Eq)]
pub enum RegisterEnding {
    Done,
    WriteFault,
    /// The register has another row of this auction.
    Differs(Ident),
    /// The keeper of the register failed.
    KeeperFault,
    OutOfMemory,
}

/// How `serve` ends.
#[derive(Clone, Copy, Debug, PartialEq, Eq)]
pub enum ServeEnding {
    Done,
    WriteFault,
    /// A gate failed.
    GateFault,
    /// No link was taken: no desk was opened, or there was no memory for the lock or the workers.
    Unserved(OpenFault),
}

impl TextEnding {
    /// How the program ends then.
    pub fn ending(self) -> Ending
        ensures { result ≡ of_text self }
    {
        match self {
            TextEnding::Done => Ending::Done,
            TextEnding::BadInput(number) => Ending::BadInput(number),
            TextEnding::ReadFault => Ending::ReadFault,
            TextEnding::WriteFault => Ending::WriteFault,
            TextEnding::OutOfMemory => Ending::OutOfMemory,
        }
    }
}

impl PrintEnding {
    /// How the program ends then.
    pub fn ending(self) -> Ending
        ensures { result ≡ of_print self }
    {
        match self {
            PrintEnding::Done => Ending::Done,
            PrintEnding::WriteFault => Ending::WriteFault,
            PrintEnding::OutOfMemory => Ending::OutOfMemory,
        }
    }
}

impl DiskEnding<TextEnding> {
    /// How the program ends then.
    pub fn ending(self) -> Ending
        ensures { result ≡ of_disk of_text self }
    {
        match self {
            DiskEnding::Opened(own) => own.ending(),
            DiskEnding::Unopened(fault) => Ending::of(fault),
        }
    }
}

impl DiskEnding<PrintEnding> {
    /// How the program ends then.
    pub fn ending(self) -> Ending
        ensures { result ≡ of_disk of_print self }
    {
        match self {
            DiskEnding::Opened(own) => own.ending(),
            DiskEnding::Unopened(fault) => Ending::of(fault),
        }
    }
}

impl MigrateEnding {
    /// How the program ends then.
    pub fn ending(self) -> Ending
        ensures { result ≡ of_migrate self }
    {
        match self {
            MigrateEnding::Done => Ending::Done,
            MigrateEnding::WriteFault => Ending::WriteFault,
            MigrateEnding::Unmigrated(MigrateFault::From(fault)) => Ending::of(fault),
            MigrateEnding::Unmigrated(MigrateFault::SpareFault) => Ending::DiskFault,
        }
    }
}

impl SendEnding {
    /// How the program ends then.
    pub fn ending(self) -> Ending
        ensures { result ≡ of_send self }
    {
        match self {
            SendEnding::Done => Ending::Done,
            SendEnding::WriteFault => Ending::WriteFault,
            SendEnding::DiskFault => Ending::DiskFault,
            SendEnding::Damaged(place) => Ending::Damaged(place),
        }
    }
}

impl TakeEnding {
    /// How the program ends then.
    pub fn ending(self) -> Ending
        ensures { result ≡ of_take self }
    {
        match self {
            TakeEnding::Done => Ending::Done,
            TakeEnding::BadInput(number) => Ending::BadInput(number),
            TakeEnding::ReadFault => Ending::ReadFault,
            TakeEnding::WriteFault => Ending::WriteFault,
            TakeEnding::DiskFault => Ending::DiskFault,
            TakeEnding::Forked(place) => Ending::Forked(place),
            TakeEnding::OutOfMemory => Ending::OutOfMemory,
        }
    }
}

impl CheckEnding {
    /// How the program ends then.
    pub fn ending(self) -> Ending
        ensures { result ≡ of_check self }
    {
        match self {
            CheckEnding::Done => Ending::Done,
            CheckEnding::WriteFault => Ending::WriteFault,
            CheckEnding::DiskFault => Ending::DiskFault,
            CheckEnding::DamagedBehind(place) => Ending::DamagedBehind(place),
        }
    }
}

impl DiskEnding<CheckEnding> {
    /// How the program ends then.
    pub fn ending(self) -> Ending
        ensures { result ≡ of_disk of_check self }
    {
        match self {
            DiskEnding::Opened(own) => own.ending(),
            DiskEnding::Unopened(fault) => Ending::of(fault),
        }
    }
}

impl DiskEnding<SendEnding> {
    /// How the program ends then.
    pub fn ending(self) -> Ending
        ensures { result ≡ of_disk of_send self }
    {
        match self {
            DiskEnding::Opened(own) => own.ending(),
            DiskEnding::Unopened(fault) => Ending::of(fault),
        }
    }
}

impl DiskEnding<TakeEnding> {
    /// How the program ends then.
    pub fn ending(self) -> Ending
        ensures { result ≡ of_disk of_take self }
    {
        match self {
            DiskEnding::Opened(own) => own.ending(),
            DiskEnding::Unopened(fault) => Ending::of(fault),
        }
    }
}

impl RegisterEnding {
    /// How the program ends then.
    pub fn ending(self) -> Ending
        ensures { result ≡ of_register self }
    {
        match self {
            RegisterEnding::Done => Ending::Done,
            RegisterEnding::WriteFault => Ending::WriteFault,
            RegisterEnding::Differs(auction) => Ending::RegisterDiffers(auction),
            RegisterEnding::KeeperFault => Ending::KeeperFault,
            RegisterEnding::OutOfMemory => Ending::OutOfMemory,
        }
    }
}

impl DiskEnding<RegisterEnding> {
    /// How the program ends then.
    pub fn ending(self) -> Ending
        ensures { result ≡ of_disk of_register self }
    {
        match self {
            DiskEnding::Opened(own) => own.ending(),
            DiskEnding::Unopened(fault) => Ending::of(fault),
        }
    }
}

impl ServeEnding {
    /// How the program ends then.
    pub fn ending(self) -> Ending
        ensures { result ≡ of_serve self }
    {
        match self {
            ServeEnding::Done => Ending::Done,
            ServeEnding::WriteFault => Ending::WriteFault,
            ServeEnding::GateFault => Ending::GateFault,
            ServeEnding::Unserved(fault) => Ending::of(fault),
        }
    }
}
