//! Finding the gate of a journal of either form.
ghost use Rattle.std.specs.Prelude.{◌≡◌, ◌≢◌, ◌<◌, ◌≤◌, length, take, slice_index, IfOk, IfErr, OnOk, OnErr, IfSome, Err};
ghost use Rattle.tb_journal.specs.declared.fault.JournalFault.TheVariants.{DiskFault};
ghost use Rattle.tb_journal.specs.declared.form.Form.TheVariants.{Second};
ghost use Rattle.tb_link.specs.Counts.{Rose, NeverFalls};
ghost use Rattle.tb_disk.specs.Past.{contents_of};
ghost use Rattle.tb_disk.specs.Disks.{HasLength};
ghost use Rattle.tb_journal.specs.Frames.{title_of, sealed, header_of, first_place, empty_of, empty_size};
ghost use Rattle.tb_journal.specs.Journal.{Told, SyncsOrNot};
ghost use Rattle.tb_journal.specs.Opening.{Measures};
ghost use Rattle.tb_journal.specs.Places.{EndsAt, PassesFrame, StopsAt};
ghost use Rattle.tb_journal.specs.Windows.{Shows};
ghost use Rattle.tb_journal.specs.Answers.{ComesOfWalk, IsTrueIn};

use crate::fault::JournalFault;
use crate::form::Form;
use crate::frames::{OPEN, numbered_size};
use crate::window::Window;
use tb_disk::Disk;

// The place of the seal, behind the title.
const SEAL: u64 = 16;

const SEALED: u8 = 1;

const UNSEALED: u8 = 0;

/// Syncs the disk, and tells how long it is.
pub fn measure<D: Disk>(disk: &mut D) -> Result<u64, JournalFault>
    ensures ok { IfOk result (λ size. Told (D.disk disk.old) (D.disk disk.new) (Measures size)) }
    ensures err { IfErr result (λ fault. Told (D.disk disk.old) (D.disk disk.new) SyncsOrNot × (fault ≡ DiskFault)) }
    ensures fault { OnErr result (Rose (D.disk disk.old).faults (D.disk disk.new).faults) }
    ensures no_fault { OnOk result ((D.disk disk.new).faults ≡ (D.disk disk.old).faults) }
    ensures count { NeverFalls (D.disk disk.old).faults (D.disk disk.new).faults }
{
    disk.sync()?;
    let size = disk.len()?;
    Ok(size)
}

// Reads the title of a file that is longer than an empty journal.
fn read_title<D: Disk>(disk: &mut D, form: Form) -> Result<(), JournalFault>
    requires long { IfSome (D.disk disk.old).past (λ past. empty_of form < length (contents_of past)) }
    ensures ok { OnOk result (IfSome (D.disk disk.old).past (λ past. take 16 (contents_of past) ≡ title_of form)) }
    ensures err { IfErr result (λ fault. IfSome (D.disk disk.old).past
        (λ past. IsTrueIn form (contents_of past) (Err fault))) }
    ensures walks { IfErr result (λ fault. ComesOfWalk fault form) }
    ensures kept { (D.disk disk.new).past ≡ (D.disk disk.old).past }
    ensures fault { IfErr result (λ fault. fault ≡ DiskFault → Rose (D.disk disk.old).faults (D.disk disk.new).faults) }
    ensures no_fault { OnOk result ((D.disk disk.new).faults ≡ (D.disk disk.old).faults) }
    ensures no_fault_refused { IfErr result (λ fault. fault ≢ DiskFault
        → (D.disk disk.new).faults ≡ (D.disk disk.old).faults) }
    ensures count { NeverFalls (D.disk disk.old).faults (D.disk disk.new).faults }
{
    let mut found = [0u8; 16];
    disk.read(0, &mut found)?;
    if found != form.title() {
        return Err(JournalFault::NotAJournal(found));
    }
    Ok(())
}

// Reads the seal behind the title.
fn read_seal<D: Disk>(disk: &mut D) -> Result<(), JournalFault>
    requires long { IfSome (D.disk disk.old).past (λ past. empty_size < length (contents_of past)) }
    requires title { IfSome (D.disk disk.old).past (λ past. take 16 (contents_of past) ≡ title_of Second) }
    ensures ok { OnOk result (IfSome (D.disk disk.old).past (λ past. slice_index (contents_of past) 16 ≡ sealed)) }
    ensures err { IfErr result (λ fault. IfSome (D.disk disk.old).past
        (λ past. IsTrueIn Second (contents_of past) (Err fault))) }
    ensures walks { IfErr result (λ fault. ComesOfWalk fault Second) }
    ensures kept { (D.disk disk.new).past ≡ (D.disk disk.old).past }
    ensures fault { IfErr result (λ fault. fault ≡ DiskFault → Rose (D.disk disk.old).faults (D.disk disk.new).faults) }
    ensures no_fault { OnOk result ((D.disk disk.new).faults ≡ (D.disk disk.old).faults) }
    ensures no_fault_refused { IfErr result (λ fault. fault ≢ DiskFault
        → (D.disk disk.new).faults ≡ (D.disk disk.old).faults) }
    ensures count { NeverFalls (D.disk disk.old).faults (D.disk disk.new).faults }
{
    let mut seal = [UNSEALED];
    disk.read(SEAL, &mut seal)?;
    if seal[0] != SEALED {
        return Err(JournalFault::Unsealed(seal[0]));
    }
    Ok(())
}

// Reads the header of a file that is longer than an empty journal.
fn read_header<D: Disk>(disk: &mut D, form: Form) -> Result<(), JournalFault>
    requires long { IfSome (D.disk disk.old).past (λ past. empty_of form < length (contents_of past)) }
    ensures ok { OnOk result (IfSome (D.disk disk.old).past
        (λ past. take (first_place form) (contents_of past) ≡ header_of form)) }
    ensures err { IfErr result (λ fault. IfSome (D.disk disk.old).past
        (λ past. IsTrueIn form (contents_of past) (Err fault))) }
    ensures walks { IfErr result (λ fault. ComesOfWalk fault form) }
    ensures kept { (D.disk disk.new).past ≡ (D.disk disk.old).past }
    ensures fault { IfErr result (λ fault. fault ≡ DiskFault → Rose (D.disk disk.old).faults (D.disk disk.new).faults) }
    ensures no_fault { OnOk result ((D.disk disk.new).faults ≡ (D.disk disk.old).faults) }
    ensures no_fault_refused { IfErr result (λ fault. fault ≢ DiskFault
        → (D.disk disk.new).faults ≡ (D.disk disk.old).faults) }
    ensures count { NeverFalls (D.disk disk.old).faults (D.disk disk.new).faults }
{
    read_title(disk, form)?;
    match form {
        Form::First => Ok(()),
        Form::Second => read_seal(disk),
    }
}

// The place behind the frame with this ordinal at a place, or none where its gate is closed.
fn pass_frame<D: Disk>(
    disk: &mut D,
    form: Form,
    ordinal: u64,
    place: u64,
    size: u64,
    window: &mut Window,
) -> Result<Option<u64>, JournalFault>
    requires within { place ≤ size }
    requires size { HasLength (D.disk disk.old) size }
    requires window { Shows (D.disk disk.old) window.old }
    ensures found { IfOk result (λ found. IfSome (D.disk disk.old).past
        (λ past. PassesFrame form ordinal place (contents_of past) found)) }
    ensures within { IfOk result (λ found. IfSome found (λ next. (place < next) × (next ≤ size))) }
    ensures err { IfErr result (λ fault. IfSome (D.disk disk.old).past
        (λ past. StopsAt form ordinal place (contents_of past) fault)) }
    ensures window { Shows (D.disk disk.new) window.new }
    ensures walks { IfErr result (λ fault. ComesOfWalk fault form) }
    ensures kept { (D.disk disk.new).past ≡ (D.disk disk.old).past }
    ensures fault { IfErr result (λ fault. fault ≡ DiskFault → Rose (D.disk disk.old).faults (D.disk disk.new).faults) }
    ensures no_fault { OnOk result ((D.disk disk.new).faults ≡ (D.disk disk.old).faults) }
    ensures no_fault_refused { IfErr result (λ fault. fault ≢ DiskFault
        → (D.disk disk.new).faults ≡ (D.disk disk.old).faults) }
    ensures count { NeverFalls (D.disk disk.old).faults (D.disk disk.new).faults }
{
    let before = 1 + form.head_size();
    window.fill(disk, place, before)?;
    let bytes = window.bytes_at(place, before);
    if bytes.is_empty() {
        return Err(JournalFault::Damaged(place));
    }
    if bytes[0] != OPEN {
        return Ok(None);
    }
    let Some(payload) = numbered_size(form, ordinal, &bytes[1..]) else {
        return Err(JournalFault::Damaged(place));
    };
    let frame = (before + payload) as u64;
    if frame > size - place {
        return Err(JournalFault::Damaged(place));
    }
    Ok(Some(place + frame))
}

/// The place of the gate behind the frames of a file of so many bytes, and how many frames there are.
pub fn find_gate<D: Disk>(disk: &mut D, form: Form, size: u64) -> Result<(u64, u64), JournalFault>
    requires long { empty_of form < size }
    requires size { HasLength (D.disk disk.old) size }
    ensures ok { IfOk result (λ found. IfSome (D.disk disk.old).past
        (λ past. EndsAt form found.0 found.1 (contents_of past))) }
    ensures behind { IfOk result (λ found. (first_place form ≤ found.0) × (found.1 ≤ found.0)) }
    ensures err { IfErr result (λ fault. IfSome (D.disk disk.old).past
        (λ past. IsTrueIn form (contents_of past) (Err fault))) }
    ensures walks { IfErr result (λ fault. ComesOfWalk fault form) }
    ensures kept { (D.disk disk.new).past ≡ (D.disk disk.old).past }
    ensures fault { IfErr result (λ fault. fault ≡ DiskFault → Rose (D.disk disk.old).faults (D.disk disk.new).faults) }
    ensures no_fault { OnOk result ((D.disk disk.new).faults ≡ (D.disk disk.old).faults) }
    ensures no_fault_refused { IfErr result (λ fault. fault ≢ DiskFault
        → (D.disk disk.new).faults ≡ (D.disk disk.old).faults) }
    ensures count { NeverFalls (D.disk disk.old).faults (D.disk disk.new).faults }
{
    read_header(disk, form)?;
    let mut window = Window::new();
    let mut place = form.first_gate();
    let mut ordinal = 0;
    'frames: while let Some(next) = pass_frame(disk, form, ordinal, place, size, &mut window)? {
        place = next;
        ordinal += 1;
    }
    Ok((place, ordinal))
}
