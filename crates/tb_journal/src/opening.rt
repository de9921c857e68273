//! Opening a journal.
ghost use Rattle.std.specs.Prelude.{◌≡◌, ◌≢◌, ◌≤◌, None, IfOk, IfErr, OnOk, OnErr, IfSome, Err};
ghost use Rattle.tb_journal.specs.declared.fault.JournalFault.TheVariants.{DiskFault};
ghost use Rattle.tb_link.specs.Counts.{Rose, NeverFalls};
ghost use Rattle.tb_disk.specs.Past.{contents_of};
ghost use Rattle.tb_journal.specs.Journal.{Told};
ghost use Rattle.tb_journal.specs.Opening.{Opens, Finds, FindsSoMany, IsHarmless, made_past, MadeInPart};
ghost use Rattle.tb_journal.specs.Places.{StandsAt};
ghost use Rattle.tb_journal.specs.Answers.{IsTrueOf, IsExact, IsExactAt, LeavesRefused};

use crate::fault::JournalFault;
use crate::form::Form;
use crate::journal::{BLOCK, Journal, opened};
use crate::walk::{find_gate, measure};
use std::alloc::Global;
use tb_disk::Disk;
use tb_link::Failed;

// The title, the seal and a closed gate.
const EMPTY: &[u8] = b"TBHOSTJOURNAL002\x01\0";

// Writes an empty journal over a file of at most 18 bytes.
fn make<D: Disk>(disk: &mut D) -> Result<(), Failed>
    ensures ok { OnOk result (Told (D.disk disk.old) (D.disk disk.new) (λ before now. now ≡ made_past before)) }
    ensures err { OnErr result (Told (D.disk disk.old) (D.disk disk.new) MadeInPart) }
    ensures fault { OnErr result (Rose (D.disk disk.old).faults (D.disk disk.new).faults) }
    ensures no_fault { OnOk result ((D.disk disk.new).faults ≡ (D.disk disk.old).faults) }
    ensures count { NeverFalls (D.disk disk.old).faults (D.disk disk.new).faults }
{
    disk.write_at(0, EMPTY)?;
    disk.sync()
}

// The place of the gate behind the payloads on the disk, and how many there are.
fn find<D: Disk>(disk: &mut D) -> Result<(u64, u64), JournalFault>
    ensures ok { IfOk result (λ found. Told (D.disk disk.old) (D.disk disk.new) (λ before now.
        Finds found.0 before now × FindsSoMany found.1 before now × IsHarmless before now)) }
    ensures steps { OnOk result (Told (D.disk disk.old) (D.disk disk.new) Opens) }
    ensures behind { IfOk result (λ found. (17 ≤ found.0) × (found.1 ≤ found.0)) }
    ensures err { IfErr result (λ fault. Told (D.disk disk.old) (D.disk disk.new) (λ before now.
        IsTrueOf (contents_of before) (Err fault) × LeavesRefused fault before now × IsHarmless before now)) }
    ensures fault { IfErr result (λ fault. fault ≡ DiskFault → Rose (D.disk disk.old).faults (D.disk disk.new).faults) }
    ensures no_fault { OnOk result ((D.disk disk.new).faults ≡ (D.disk disk.old).faults) }
    ensures no_fault_refused { IfErr result (λ fault. fault ≢ DiskFault
        → (D.disk disk.new).faults ≡ (D.disk disk.old).faults) }
    ensures count { NeverFalls (D.disk disk.old).faults (D.disk disk.new).faults }
{
    let size = measure(disk)?;
    if size <= EMPTY.len() as u64 {
        make(disk)?;
        return Ok((Form::Second.first_gate(), 0));
    }
    find_gate(disk, Form::Second, size)
}

impl<D: Disk> Journal<D> {
    /// Opens the journal on a disk, and keeps the place of its gate byte and how many frames stand before it. An empty
    /// one is made where there are at most 18 bytes. A refusal hands the disk back.
    pub fn open(alloc: Global, mut disk: D) -> Result<Journal<D>, (D, JournalFault)>
        // The disk holds the payloads that the file stood for.
        ensures found { IfOk result (λ journal. Told (D.disk disk) (D.disk journal.disk) (Finds journal.gate)) }
        ensures ordinal { IfOk result (λ journal. Told (D.disk disk) (D.disk journal.disk)
            (FindsSoMany journal.ordinal)) }
        ensures sure { IfOk result (λ journal. journal.doubt ≡ None) }
        ensures opened { IfOk result (λ journal. journal.opened ≡ journal.disk) }
        // The first frame stands behind the header, or the gate does.
        ensures first { IfOk result (λ journal. StandsAt (D.disk journal.disk) journal.gate 17) }
        // It begins with a sync. Over more than 18 bytes that is all; else it writes an empty journal and syncs.
        ensures steps { IfOk result (λ journal. Told (D.disk disk) (D.disk journal.disk) Opens) }
        // Each answer is given exactly where it is true of the file.
        ensures exact { IfOk result (λ journal. IfSome (D.disk disk).past
            (λ past. IsExactAt journal.gate (contents_of past))) }
        ensures exact_refusal { IfErr result (λ refused. IfSome (D.disk disk).past
            (λ past. IsExact (contents_of past) (Err refused.1))) }
        ensures refused { IfErr result (λ refused. Told (D.disk disk) (D.disk refused.0) (LeavesRefused refused.1)) }
        // A crash at any moment leaves what a crash before the call could leave, or what stands for the same payloads.
        ensures crash { IfOk result (λ journal. Told (D.disk disk) (D.disk journal.disk) IsHarmless) }
        ensures crash_refused { IfErr result (λ refused. Told (D.disk disk) (D.disk refused.0) IsHarmless) }
        ensures fault { IfErr result (λ refused. refused.1 ≡ DiskFault
            → Rose (D.disk disk).faults (D.disk refused.0).faults) }
        ensures no_fault { IfOk result (λ journal. (D.disk journal.disk).faults ≡ (D.disk disk).faults) }
        ensures no_fault_refused { IfErr result (λ refused. refused.1 ≢ DiskFault
            → (D.disk refused.0).faults ≡ (D.disk disk).faults) }
        ensures count_refused { IfErr result (λ refused. NeverFalls (D.disk disk).faults (D.disk refused.0).faults) }
    {
        match find(&mut disk) {
            Ok((gate, ordinal)) => match Vec::with_capacity(alloc, BLOCK) {
                Ok(block) => Ok(opened(disk, gate, ordinal, block)),
                Err(_) => Err((disk, JournalFault::OutOfMemory)),
            },
            Err(fault) => Err((disk, fault)),
        }
    }
}
