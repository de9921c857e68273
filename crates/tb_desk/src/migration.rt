//! A journal of the first version is written anew on a spare, in the second.
ghost use Rattle.std.specs.Prelude.{◌≡◌, ◌≢◌, ℕ, List, ◌+◌, ◌<◌, ◌≤◌, ◌^◌, length, map, IfOk, IfErr, IfSome, OnOk, OnErr, Ok, Err};
ghost use Rattle.std.specs.List.{All};
ghost use Rattle.tb_link.specs.Counts.{Rose, NeverFalls};
ghost use Rattle.tb_disk.specs.Past.{contents_of};
ghost use Rattle.tb_message.specs.declared.message.Entry.{Entry};
ghost use Rattle.tb_message.specs.declared.version.Version.TheVariants.{First};
ghost use Rattle.tb_message.specs.Spelling.{spelling, IsInRange};
ghost use Rattle.tb_journal.specs.Frames.{frames, front};
ghost use Rattle.tb_journal.specs.Journal.{Told, SyncsOrNot};
ghost use Rattle.tb_journal.specs.Writing.{IsWriting, AddsAll, AddsAllInPart, Rewrites, RewritesInPart};
ghost use Rattle.tb_desk.specs.declared.fault.OpenFault.TheVariants as open_fault;
ghost use Rattle.tb_desk.specs.declared.fault.MigrateFault.TheVariants as fault;
ghost use Rattle.tb_desk.specs.Replay.{IsExactIn, IsSealed};
ghost use Rattle.tb_desk.specs.Migration.{HasNoSeal, Migrated, LeavesMigrated, IsExactRefusal};

use crate::fault::{MigrateFault, OpenFault, lifted};
use crate::replay::replay;
use std::alloc::Global;
use tb_core::Host;
use tb_disk::Disk;
use tb_journal::{DiskFault, FirstJournal, Writer};

// The history of a journal of the first version.
fn open_first<D: Disk>(alloc: Global, from: &mut D) -> Result<Host, OpenFault>
    ensures kept { Told (D.disk from.old) (D.disk from.new) SyncsOrNot }
    ensures exact { IfOk result (λ host. IfSome (D.disk from.old).past
        (λ past. IsExactIn First (contents_of past) (Ok host.history))) }
    ensures exact_refusal { IfErr result (λ why. IfSome (D.disk from.old).past
        (λ past. IsExactIn First (contents_of past) (Err why))) }
    ensures sealed { IfErr result IsSealed }
    ensures fault { IfErr result (λ why. why ≡ open_fault.DiskFault
        → Rose (D.disk from.old).faults (D.disk from.new).faults) }
    ensures no_fault { OnOk result ((D.disk from.new).faults ≡ (D.disk from.old).faults) }
    ensures no_fault_refused { IfErr result (λ why. why ≢ open_fault.DiskFault
        → (D.disk from.new).faults ≡ (D.disk from.old).faults) }
    ensures count { NeverFalls (D.disk from.old).faults (D.disk from.new).faults }
{
    match FirstJournal::open(alloc, from) {
        Ok(mut journal) => replay(alloc, &mut journal),
        Err((_, fault)) => Err(lifted(fault)),
    }
}

// Writes a frame for each entry of the host's.
fn add_entries<D: Disk>(writer: &mut Writer<'_, D>, host: &Host) -> Result<(), DiskFault>
    requires writing { IfSome (D.disk writer.old.disk.now).past (IsWriting writer.old.place writer.old.ordinal) }
    requires sizes { All IsInRange host.now.history }
    requires end { writer.old.place + length (frames writer.old.ordinal (map spelling host.now.history)) + 1 < 2 ^ 42 }
    requires count { writer.old.ordinal ≤ writer.old.place }
    ensures same_reference { writer.new.disk.ghost_name ≡ writer.old.disk.ghost_name }
    ensures adds { OnOk result (Told (D.disk writer.old.disk.now) (D.disk writer.new.disk.now)
        (AddsAll (map spelling host.now.history) writer.old.ordinal writer.old.place)) }
    ensures next { OnOk result ((writer.new.place
        ≡ writer.old.place + length (frames writer.old.ordinal (map spelling host.now.history)))
        × (writer.new.ordinal ≡ writer.old.ordinal + length host.now.history)) }
    ensures in_part { OnErr result (Told (D.disk writer.old.disk.now) (D.disk writer.new.disk.now)
        (AddsAllInPart writer.old.ordinal writer.old.place)) }
    ensures fault { OnErr result (Rose (D.disk writer.old.disk.now).faults (D.disk writer.new.disk.now).faults) }
    ensures no_fault { OnOk result ((D.disk writer.new.disk.now).faults ≡ (D.disk writer.old.disk.now).faults) }
    ensures count { NeverFalls (D.disk writer.old.disk.now).faults (D.disk writer.new.disk.now).faults }
{
    for place in 0..host.entries() {
        let entry = host.entry(place).unwrap();
        writer.add(entry.put().bytes())?;
    }
    Ok(())
}

// Writes a journal of the host's entries over whatever the spare held, a frame for each.
fn write_anew<D: Disk>(to: &mut D, host: &Host) -> Result<(), DiskFault>
    requires sizes { All IsInRange host.now.history }
    requires end { length (front (map spelling host.now.history)) + 1 < 2 ^ 42 }
    ensures written { OnOk result (Told (D.disk to.old) (D.disk to.new) (Rewrites (map spelling host.now.history))) }
    ensures in_part { OnErr result (Told (D.disk to.old) (D.disk to.new)
        (RewritesInPart (map spelling host.now.history))) }
    ensures fault { OnErr result (Rose (D.disk to.old).faults (D.disk to.new).faults) }
    ensures no_fault { OnOk result ((D.disk to.new).faults ≡ (D.disk to.old).faults) }
    ensures count { NeverFalls (D.disk to.old).faults (D.disk to.new).faults }
{
    match Writer::begin(to) {
        Ok(mut writer) => {
            add_entries(&mut writer, host)?;
            writer.seal()
        }
        Err((_, fault)) => Err(fault),
    }
}

/// Writes the history of a journal of the first version anew on a spare, in the second, a frame for each entry, and
/// tells how many there are. The first disk is opened and replayed whole before the spare is touched. Nothing is
/// written on the first disk.
pub fn migrate<D: Disk>(alloc: Global, from: &mut D, to: &mut D) -> Result<u64, MigrateFault>
    // The first disk is synced, or nothing happens to it.
    ensures first_kept { Told (D.disk from.old) (D.disk from.new) SyncsOrNot }
    // It stood for a legal history of so many entries, and each crash of the spare leaves that.
    ensures migrated { IfOk result (Migrated (D.disk from.old).past (D.disk to.new).past) }
    // A crash of the spare since its first sync leaves what it held then, what is blank, or such a history.
    ensures crash { Told (D.disk to.old) (D.disk to.new) (LeavesMigrated (D.disk from.old).past) }
    // Each refusal of the first disk is given exactly where it is true of it, and the spare isn't touched then.
    ensures exact_refusal { IfErr result (IsExactRefusal (D.disk from.old).past) }
    // A journal of the first version has no seal.
    ensures sealed { IfErr result HasNoSeal }
    ensures untouched { IfErr result (λ why. why ≢ fault.SpareFault → D.disk to.new ≡ D.disk to.old) }
    ensures fault { IfErr result (λ why. why ≡ fault.From open_fault.DiskFault
        → Rose (D.disk from.old).faults (D.disk from.new).faults) }
    ensures spare_fault { IfErr result (λ why. why ≡ fault.SpareFault
        → Rose (D.disk to.old).faults (D.disk to.new).faults) }
    ensures no_fault { IfErr result (λ why. why ≢ fault.From open_fault.DiskFault
        → (D.disk from.new).faults ≡ (D.disk from.old).faults) }
    ensures no_faults { OnOk result (((D.disk from.new).faults ≡ (D.disk from.old).faults)
        × ((D.disk to.new).faults ≡ (D.disk to.old).faults)) }
    ensures count { NeverFalls (D.disk from.old).faults (D.disk from.new).faults }
    ensures spare_count { NeverFalls (D.disk to.old).faults (D.disk to.new).faults }
{
    let host = match open_first(alloc, from) {
        Ok(host) => host,
        Err(fault) => return Err(MigrateFault::From(fault)),
    };
    // The history is legal, which the host tells with the number of its entries.
    let count = host.entries();
    match write_anew(to, &host) {
        Ok(()) => Ok(count),
        Err(DiskFault) => Err(MigrateFault::SpareFault),
    }
}
