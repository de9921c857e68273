//! A whole journal that is written from a list of payloads.
ghost use Rattle.std.specs.Prelude.{◌≡◌, ◌+◌, ◌<◌, ◌≤◌, ◌^◌, length, map, OnOk, OnErr, IfSome};
ghost use Rattle.tb_link.specs.Counts.{Rose, NeverFalls};
ghost use Rattle.tb_journal.specs.Journal.{Told};
ghost use Rattle.tb_journal.specs.Frames.{ArePayloads, frames, front};
ghost use Rattle.tb_journal.specs.Writing.{IsWriting, AddsAll, AddsAllInPart, Rewrites, RewritesInPart};

use crate::fault::DiskFault;
use crate::writer::Writer;
use tb_disk::Disk;

/// Writes payloads behind those before them, each of 1 to 32,768 bytes. The end, with a closed gate behind, is below
/// 2^42.
pub fn add_all<D: Disk>(writer: &mut Writer<'_, D>, payloads: &[&[u8]]) -> Result<(), DiskFault>
    requires writing { IfSome (D.disk writer.old.disk.now).past (IsWriting writer.old.place writer.old.ordinal) }
    requires sizes { ArePayloads (map (λ p. p.now) payloads.now) }
    requires end { writer.old.place + length (frames writer.old.ordinal (map (λ p. p.now) payloads.now)) + 1 < 2 ^ 42 }
    requires count { writer.old.ordinal ≤ writer.old.place }
    ensures same_reference { writer.new.disk.ghost_name ≡ writer.old.disk.ghost_name }
    ensures adds { OnOk result (Told (D.disk writer.old.disk.now) (D.disk writer.new.disk.now)
        (AddsAll (map (λ p. p.now) payloads.now) writer.old.ordinal writer.old.place)) }
    ensures next { OnOk result ((writer.new.place
        ≡ writer.old.place + length (frames writer.old.ordinal (map (λ p. p.now) payloads.now)))
        × (writer.new.ordinal ≡ writer.old.ordinal + length payloads.now)) }
    ensures in_part { OnErr result (Told (D.disk writer.old.disk.now) (D.disk writer.new.disk.now)
        (AddsAllInPart writer.old.ordinal writer.old.place)) }
    ensures fault { OnErr result (Rose (D.disk writer.old.disk.now).faults (D.disk writer.new.disk.now).faults) }
    ensures no_fault { OnOk result ((D.disk writer.new.disk.now).faults ≡ (D.disk writer.old.disk.now).faults) }
    ensures count { NeverFalls (D.disk writer.old.disk.now).faults (D.disk writer.new.disk.now).faults }
{
    for payload in payloads {
        writer.add(payload)?;
    }
    Ok(())
}

/// Writes a journal of these payloads over whatever the disk held, each of 1 to 32,768 bytes. The end, with a closed
/// gate behind, is below 2^42.
pub fn rewrite<D: Disk>(disk: &mut D, payloads: &[&[u8]]) -> Result<(), DiskFault>
    requires sizes { ArePayloads (map (λ p. p.now) payloads.now) }
    requires end { length (front (map (λ p. p.now) payloads.now)) + 1 < 2 ^ 42 }
    ensures rewrites { OnOk result (Told (D.disk disk.old) (D.disk disk.new)
        (Rewrites (map (λ p. p.now) payloads.now))) }
    ensures in_part { OnErr result (Told (D.disk disk.old) (D.disk disk.new)
        (RewritesInPart (map (λ p. p.now) payloads.now))) }
    ensures fault { OnErr result (Rose (D.disk disk.old).faults (D.disk disk.new).faults) }
    ensures no_fault { OnOk result ((D.disk disk.new).faults ≡ (D.disk disk.old).faults) }
    ensures count { NeverFalls (D.disk disk.old).faults (D.disk disk.new).faults }
{
    match Writer::begin(disk) {
        Ok(mut writer) => {
            add_all(&mut writer, payloads)?;
            writer.seal()
        }
        Err((_, fault)) => Err(fault),
    }
}
