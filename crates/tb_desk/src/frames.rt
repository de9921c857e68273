//! The frames of a journal of either version.
ghost use Rattle.std.specs.Prelude.{◌≡◌, ◌↔◌, ℕ, Option, None, Some, length, IfOk, OnOk, OnErr, IfSome, IsNone};
ghost use Rattle.tb_link.specs.Counts.{Rose, NeverFalls};
ghost use Rattle.tb_disk.specs.Disks.{DiskState};
ghost use Rattle.tb_journal.specs.Frames.{first_place};
ghost use Rattle.tb_journal.specs.Places.{StandsAtIn, GivesFrameIn, StandsBetweenIn};
ghost use Rattle.tb_journal.specs.Windows.{Shows};
ghost use Rattle.tb_message.specs.declared.version.Version.{Version};
ghost use Rattle.tb_message.specs.declared.version.Version.TheVariants as versions;
ghost use Rattle.tb_desk.specs.Stands.{form_of};
ghost use base.Fml.{GName};

use tb_disk::Disk;
use tb_journal::{DiskFault, FirstJournal, Journal, Window};
use tb_message::Version;

/// A journal whose frames are read one after another.
pub trait Frames {
    ghost version: { Version };

    ghost disk: { Self → DiskState };

    ghost gate: { Self → ℕ };
    /// Where a payload may count or not, the place of the gate behind it.
    ghost doubt: { Self → Option ℕ };
    /// The reference to the disk, where it is borrowed.
    ghost name: { Self → Option GName };

    fn version() -> Version
        ensures { result ≡ version };

    /// The place behind the header.
    fn first_place() -> u64
        ensures { result ≡ first_place (form_of version) };

    /// Reads the payload of the frame at a place into the window, as `Journal::next_frame` does.
    fn next_frame(
        &mut self,
        place: u64,
        into: &mut Window,
    ) -> Result<Option<(usize, u64)>, DiskFault>
        requires sure { doubt self.old ≡ None }
        requires place { StandsAtIn (form_of version) (disk self.old) (gate self.old) place }
        requires window { Shows (disk self.old) into.old }
        ensures end { IfOk result (λ found. IsNone found ↔ (place ≡ gate self.old)) }
        ensures frame { IfOk result (λ found. IfSome found (λ frame. IfSome (disk self.old).past
            (GivesFrameIn (form_of version) (gate self.old) place into.new.payload frame.1))) }
        ensures size { IfOk result (λ found. IfSome found (λ frame. frame.0 ≡ length into.new.payload)) }
        ensures between { IfOk result (λ found. IfSome found
            (λ frame. StandsBetweenIn (form_of version) (gate self.old) place frame.0 frame.1)) }
        ensures next { IfOk result (λ found. IfSome found
            (λ frame. StandsAtIn (form_of version) (disk self.new) (gate self.new) frame.1)) }
        ensures window { Shows (disk self.new) into.new }
        ensures kept { (disk self.new).past ≡ (disk self.old).past }
        ensures same { (gate self.new ≡ gate self.old) × (doubt self.new ≡ doubt self.old)
            × (name self.new ≡ name self.old) }
        ensures fault { OnErr result (Rose (disk self.old).faults (disk self.new).faults) }
        ensures no_fault { OnOk result ((disk self.new).faults ≡ (disk self.old).faults) }
        ensures count { NeverFalls (disk self.old).faults (disk self.new).faults };
}

impl<D: Disk> Frames for Journal<D> {
    ghost version = { versions.Second };

    ghost disk = { λ journal. D.disk journal.disk };

    ghost gate = { λ journal. journal.gate };

    ghost doubt = { λ journal. journal.doubt };

    ghost name = { λ _. None };

    fn version() -> Version {
        Version::Second
    }

    fn first_place() -> u64 {
        17
    }

    fn next_frame(
        &mut self,
        place: u64,
        into: &mut Window,
    ) -> Result<Option<(usize, u64)>, DiskFault> {
        Journal::next_frame(self, place, into)
    }
}

impl<'d, D: Disk> Frames for FirstJournal<'d, D> {
    ghost version = { versions.First };

    ghost disk = { λ journal. D.disk journal.disk.now };

    ghost gate = { λ journal. journal.gate };

    ghost doubt = { λ _. None };

    ghost name = { λ journal. Some journal.disk.ghost_name };

    fn version() -> Version {
        Version::First
    }

    fn first_place() -> u64 {
        16
    }

    fn next_frame(
        &mut self,
        place: u64,
        into: &mut Window,
    ) -> Result<Option<(usize, u64)>, DiskFault> {
        FirstJournal::next_frame(self, place, into)
    }
}
