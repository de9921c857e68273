//! A journal of the first form, which is read and never written.
ghost use Rattle.std.specs.Prelude.{◌≡◌, ◌≢◌, ◌≤◌, ◌↔◌, length, IfOk, IfErr, OnOk, OnErr, IfSome, IsNone, Err};
ghost use Rattle.tb_journal.specs.declared.fault.JournalFault.TheVariants as fault;
ghost use Rattle.tb_journal.specs.declared.form.Form.TheVariants.{First};
ghost use Rattle.tb_link.specs.Counts.{Rose, NeverFalls};
ghost use Rattle.tb_disk.specs.Steps.{Synced};
ghost use Rattle.tb_disk.specs.Past.{Then, contents_of};
ghost use Rattle.tb_journal.specs.Journal.{Told, SyncsOrNot};
ghost use Rattle.tb_journal.specs.Places.{ReadsSome, StandsAtIn, GivesFrameIn, StandsBetweenIn};
ghost use Rattle.tb_journal.specs.Windows.{Shows};
ghost use Rattle.tb_journal.specs.Answers.{ComesOfWalk, IsTrueIn, IsExactIn, IsExactAtIn};

use crate::device::read_frame;
use crate::fault::{DiskFault, JournalFault};
use crate::form::Form;
use crate::walk::{find_gate, measure};
use crate::window::Window;
use std::alloc::Global;
use tb_disk::Disk;
use tb_link::Failed;

// How long an empty journal of the first form is at most.
const EMPTY: u64 = 17;

/// A list of payloads on a disk that a journal of the first form wrote. It keeps the place of the gate byte, or where
/// the disk has at most 17 bytes the place where it would stand. Nothing is written.
#[derive(Drop)]
pub struct FirstJournal<'d, D: Disk> {
    disk: &'d mut D,
    gate: u64,
}

// The place of the gate behind the payloads on the disk.
fn find_first<D: Disk>(disk: &mut D) -> Result<u64, JournalFault>
    ensures ok { IfOk result (λ gate. Told (D.disk disk.old) (D.disk disk.new) (λ before now.
        (now ≡ Then Synced before) × ReadsSome First gate (contents_of before))) }
    ensures behind { IfOk result (λ gate. 16 ≤ gate) }
    ensures err { IfErr result (λ why. Told (D.disk disk.old) (D.disk disk.new) (λ before now.
        SyncsOrNot before now × IsTrueIn First (contents_of before) (Err why))) }
    ensures walks { IfErr result (λ why. ComesOfWalk why First) }
    ensures fault { IfErr result (λ why. why ≡ fault.DiskFault
        → Rose (D.disk disk.old).faults (D.disk disk.new).faults) }
    ensures no_fault { OnOk result ((D.disk disk.new).faults ≡ (D.disk disk.old).faults) }
    ensures no_fault_refused { IfErr result (λ why. why ≢ fault.DiskFault
        → (D.disk disk.new).faults ≡ (D.disk disk.old).faults) }
    ensures count { NeverFalls (D.disk disk.old).faults (D.disk disk.new).faults }
{
    let size = measure(disk)?;
    if size <= EMPTY {
        return Ok(Form::First.first_gate());
    }
    let (gate, _) = find_gate(disk, Form::First, size)?;
    Ok(gate)
}

impl<'d, D: Disk> FirstJournal<'d, D> {
    /// Opens the journal of the first form on a disk, and keeps the place of its gate byte. It syncs, and writes
    /// nothing. A refusal hands the disk back.
    pub fn open(
        _alloc: Global,
        disk: &'d mut D,
    ) -> Result<FirstJournal<'d, D>, (&'d mut D, JournalFault)>
        ensures same_reference { IfOk result (λ journal. journal.disk.ghost_name ≡ disk.entry.ghost_name) }
        ensures handed_back { IfErr result (λ refused. refused.0.ghost_name ≡ disk.entry.ghost_name) }
        // A sync and nothing else.
        ensures steps { IfOk result (λ journal. Told (D.disk disk.old) (D.disk journal.disk.now)
            (λ before now. now ≡ Then Synced before)) }
        ensures steps_refused { IfErr result (λ refused. Told (D.disk disk.old) (D.disk refused.0.now) SyncsOrNot) }
        // The first frame stands behind the header, or the gate does.
        ensures first { IfOk result (λ journal. StandsAtIn First (D.disk journal.disk.now) journal.gate 16) }
        // Each answer is given exactly where it is true of the file.
        ensures exact { IfOk result (λ journal. IfSome (D.disk disk.old).past
            (λ past. IsExactAtIn First journal.gate (contents_of past))) }
        ensures exact_refusal { IfErr result (λ refused. IfSome (D.disk disk.old).past
            (λ past. IsExactIn First (contents_of past) (Err refused.1))) }
        // It is never refused for want of memory, or as unsealed.
        ensures walks { IfErr result (λ refused. ComesOfWalk refused.1 First) }
        ensures fault { IfErr result (λ refused. refused.1 ≡ fault.DiskFault
            → Rose (D.disk disk.old).faults (D.disk refused.0.now).faults) }
        ensures no_fault { IfOk result (λ journal. (D.disk journal.disk.now).faults ≡ (D.disk disk.old).faults) }
        ensures no_fault_refused { IfErr result (λ refused. refused.1 ≢ fault.DiskFault
            → (D.disk refused.0.now).faults ≡ (D.disk disk.old).faults) }
        ensures count_refused { IfErr result (λ refused.
            NeverFalls (D.disk disk.old).faults (D.disk refused.0.now).faults) }
    {
        match find_first(disk) {
            Ok(gate) => Ok(FirstJournal { disk, gate }),
            Err(fault) => Err((disk, fault)),
        }
    }

    /// Reads the payload of the frame at a place into the window, as `Journal::next_frame` does.
    pub fn next_frame(
        &mut self,
        place: u64,
        into: &mut Window,
    ) -> Result<Option<(usize, u64)>, DiskFault>
        requires place { StandsAtIn First (D.disk self.old.disk.now) self.old.gate place }
        requires window { Shows (D.disk self.old.disk.now) into.old }
        ensures same_reference { self.new.disk.ghost_name ≡ self.old.disk.ghost_name }
        ensures end { IfOk result (λ found. IsNone found ↔ (place ≡ self.old.gate)) }
        ensures frame { IfOk result (λ found. IfSome found (λ frame. IfSome (D.disk self.old.disk.now).past
            (GivesFrameIn First self.old.gate place into.new.payload frame.1))) }
        ensures size { IfOk result (λ found. IfSome found (λ frame. frame.0 ≡ length into.new.payload)) }
        ensures between { IfOk result (λ found. IfSome found
            (λ frame. StandsBetweenIn First self.old.gate place frame.0 frame.1)) }
        ensures next { IfOk result (λ found. IfSome found
            (λ frame. StandsAtIn First (D.disk self.new.disk.now) self.new.gate frame.1)) }
        ensures window { Shows (D.disk self.new.disk.now) into.new }
        ensures kept { (D.disk self.new.disk.now).past ≡ (D.disk self.old.disk.now).past }
        ensures same { self.new.gate ≡ self.old.gate }
        ensures fault { OnErr result (Rose (D.disk self.old.disk.now).faults (D.disk self.new.disk.now).faults) }
        ensures no_fault { OnOk result ((D.disk self.new.disk.now).faults ≡ (D.disk self.old.disk.now).faults) }
        ensures count { NeverFalls (D.disk self.old.disk.now).faults (D.disk self.new.disk.now).faults }
    {
        if place == self.gate {
            return Ok(None);
        }
        match read_frame(self.disk, Form::First, place, self.gate, into) {
            Ok(found) => Ok(Some(found)),
            Err(Failed) => Err(DiskFault),
        }
    }
}
