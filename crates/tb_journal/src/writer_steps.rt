//! The steps of a writer, each of at most four device calls.
ghost use Rattle.std.specs.Prelude.{◌≡◌, ◌+◌, ◌<◌, ◌^◌, [], ◌∷◌, ◌++◌, length, OnOk, OnErr, IfOk, IfSome};
ghost use Rattle.tb_link.specs.Counts.{Rose, NeverFalls};
ghost use Rattle.tb_disk.specs.Steps.{Wrote, Synced};
ghost use Rattle.tb_disk.specs.Past.{Then, contents_of};
ghost use Rattle.tb_disk.specs.Disks.{Reaches};
ghost use Rattle.tb_journal.specs.Journal.{Told, WritesInPart, SyncsOrNot};
ghost use Rattle.tb_journal.specs.Opening.{Measures};
ghost use Rattle.tb_journal.specs.declared.form.Form.TheVariants.{Second};
ghost use Rattle.tb_journal.specs.Frames.{open_gate, head_in, IsPayload};
ghost use Rattle.tb_journal.specs.Writing.{Begins, StopsUnsealed, Adds, AddsInPart, Seals, SealsInPart};
ghost use Rattle.tb_journal.specs.WriterSteps.{IsLong, IsShort, IsBroken, IsCut, LeavesOldOrBlank, LeavesBlank, Unseals, Cuts, Titles, Replaces, Closes, IsPlaceOf, SetsSeal, SetsSealInPart};

use crate::form::Form;
use tb_disk::Disk;
use tb_link::Failed;

// The title and a byte that is no seal.
const BEGUN: &[u8] = b"TBHOSTJOURNAL002\0";

// The place of the seal, and of the first frame behind it.
const SEAL: u64 = 16;

pub(crate) const FIRST_GATE: u64 = 17;

const SEALED: u8 = 1;

const OPEN: u8 = 1;

const CLOSED: u8 = 0;

/// How many bytes of a frame stand before its payload.
pub(crate) const FRAME_HEAD: u64 = 13;

// Writes bytes and syncs.
fn put<D: Disk>(disk: &mut D, place: u64, bytes: &[u8]) -> Result<(), Failed>
    requires place { Reaches (D.disk disk.old) place }
    requires end { place + length bytes.now < 2 ^ 42 }
    ensures ok { OnOk result (Told (D.disk disk.old) (D.disk disk.new)
        (λ before now. now ≡ Then Synced (Then (Wrote place bytes.now) before))) }
    ensures err { OnErr result (Told (D.disk disk.old) (D.disk disk.new) (WritesInPart place bytes.now)) }
    ensures fault { OnErr result (Rose (D.disk disk.old).faults (D.disk disk.new).faults) }
    ensures no_fault { OnOk result ((D.disk disk.new).faults ≡ (D.disk disk.old).faults) }
    ensures count { NeverFalls (D.disk disk.old).faults (D.disk disk.new).faults }
{
    disk.write_at(place, bytes)?;
    disk.sync()
}

// Syncs the disk, and tells how long it is.
fn measure<D: Disk>(disk: &mut D) -> Result<u64, Failed>
    ensures ok { IfOk result (λ size. Told (D.disk disk.old) (D.disk disk.new) (Measures size)) }
    ensures err { OnErr result (Told (D.disk disk.old) (D.disk disk.new) SyncsOrNot) }
    ensures fault { OnErr result (Rose (D.disk disk.old).faults (D.disk disk.new).faults) }
    ensures no_fault { OnOk result ((D.disk disk.new).faults ≡ (D.disk disk.old).faults) }
    ensures count { NeverFalls (D.disk disk.old).faults (D.disk disk.new).faults }
{
    disk.sync()?;
    disk.len()
}

// Breaks the seal of a file of more than 16 bytes, where it has one.
fn unseal<D: Disk>(disk: &mut D) -> Result<(), Failed>
    requires long { IfSome (D.disk disk.old).past IsLong }
    ensures ok { OnOk result (Told (D.disk disk.old) (D.disk disk.new) Unseals) }
    ensures err { OnErr result (Told (D.disk disk.old) (D.disk disk.new) LeavesOldOrBlank) }
    ensures fault { OnErr result (Rose (D.disk disk.old).faults (D.disk disk.new).faults) }
    ensures no_fault { OnOk result ((D.disk disk.new).faults ≡ (D.disk disk.old).faults) }
    ensures count { NeverFalls (D.disk disk.old).faults (D.disk disk.new).faults }
{
    let mut byte = [SEALED];
    let _count = disk.read(SEAL, &mut byte)?;
    if byte[0] != SEALED {
        return Ok(());
    }
    // A cut that isn't on the disk would leave a shorter journal that is sealed still.
    put(disk, SEAL, &[0])
}

// Cuts a file whose seal is broken behind the seal's place.
fn cut_off<D: Disk>(disk: &mut D) -> Result<(), Failed>
    requires broken { IfSome (D.disk disk.old).past IsBroken }
    ensures ok { OnOk result (Told (D.disk disk.old) (D.disk disk.new) Cuts) }
    ensures err { OnErr result (Told (D.disk disk.old) (D.disk disk.new) LeavesBlank) }
    ensures fault { OnErr result (Rose (D.disk disk.old).faults (D.disk disk.new).faults) }
    ensures no_fault { OnOk result ((D.disk disk.new).faults ≡ (D.disk disk.old).faults) }
    ensures count { NeverFalls (D.disk disk.old).faults (D.disk disk.new).faults }
{
    disk.cut(FIRST_GATE)?;
    disk.sync()
}

// Writes the title over a file that was cut.
fn write_title<D: Disk>(disk: &mut D) -> Result<(), Failed>
    requires cut { IfSome (D.disk disk.old).past IsCut }
    ensures ok { OnOk result (Told (D.disk disk.old) (D.disk disk.new) Titles) }
    ensures err { OnErr result (Told (D.disk disk.old) (D.disk disk.new) LeavesBlank) }
    ensures fault { OnErr result (Rose (D.disk disk.old).faults (D.disk disk.new).faults) }
    ensures no_fault { OnOk result ((D.disk disk.new).faults ≡ (D.disk disk.old).faults) }
    ensures count { NeverFalls (D.disk disk.old).faults (D.disk disk.new).faults }
{
    put(disk, 0, &Form::Second.title())
}

// Writes the title and a byte that is no seal over at most 16 bytes.
#[tactic(auto, unfolding(crate::specs::Frames::title_of))]
fn write_short<D: Disk>(disk: &mut D) -> Result<(), Failed>
    requires short { IfSome (D.disk disk.old).past IsShort }
    ensures ok { OnOk result (Told (D.disk disk.old) (D.disk disk.new) Titles) }
    ensures err { OnErr result (Told (D.disk disk.old) (D.disk disk.new) LeavesBlank) }
    ensures fault { OnErr result (Rose (D.disk disk.old).faults (D.disk disk.new).faults) }
    ensures no_fault { OnOk result ((D.disk disk.new).faults ≡ (D.disk disk.old).faults) }
    ensures count { NeverFalls (D.disk disk.old).faults (D.disk disk.new).faults }
{
    put(disk, 0, BEGUN)
}

// Begins a journal over a file of more than 16 bytes.
fn replace<D: Disk>(disk: &mut D) -> Result<(), Failed>
    requires long { IfSome (D.disk disk.old).past IsLong }
    ensures ok { OnOk result (Told (D.disk disk.old) (D.disk disk.new) Replaces) }
    ensures err { OnErr result (Told (D.disk disk.old) (D.disk disk.new) LeavesOldOrBlank) }
    ensures fault { OnErr result (Rose (D.disk disk.old).faults (D.disk disk.new).faults) }
    ensures no_fault { OnOk result ((D.disk disk.new).faults ≡ (D.disk disk.old).faults) }
    ensures count { NeverFalls (D.disk disk.old).faults (D.disk disk.new).faults }
{
    unseal(disk)?;
    cut_off(disk)?;
    write_title(disk)
}

/// Begins a journal over whatever the file was.
pub fn begin<D: Disk>(disk: &mut D) -> Result<(), Failed>
    ensures ok { OnOk result (Told (D.disk disk.old) (D.disk disk.new) Begins) }
    ensures err { OnErr result (Told (D.disk disk.old) (D.disk disk.new) StopsUnsealed) }
    ensures fault { OnErr result (Rose (D.disk disk.old).faults (D.disk disk.new).faults) }
    ensures no_fault { OnOk result ((D.disk disk.new).faults ≡ (D.disk disk.old).faults) }
    ensures count { NeverFalls (D.disk disk.old).faults (D.disk disk.new).faults }
{
    let size = measure(disk)?;
    if size <= SEAL {
        return write_short(disk);
    }
    replace(disk)
}

// What stands before a payload of this size: an open gate, the size and the ordinal.
#[tactic(auto, unfolding(crate::specs::Frames::head_in))]
fn frame_head(size: u32, ordinal: u64) -> [u8; 13]
    ensures { result ≡ open_gate ∷ head_in Second ordinal size }
{
    let [a, b, c, d] = size.to_be_bytes();
    let [e, f, g, h, i, j, k, l] = ordinal.to_be_bytes();
    [OPEN, a, b, c, d, e, f, g, h, i, j, k, l]
}

/// Writes a frame at the end.
pub fn add<D: Disk>(disk: &mut D, place: u64, ordinal: u64, payload: &[u8]) -> Result<(), Failed>
    requires size { IsPayload payload.now }
    requires place { Reaches (D.disk disk.old) place }
    requires end { place + 14 + length payload.now < 2 ^ 42 }
    ensures ok { OnOk result (Told (D.disk disk.old) (D.disk disk.new) (Adds payload.now ordinal place)) }
    ensures err { OnErr result (Told (D.disk disk.old) (D.disk disk.new) (AddsInPart place)) }
    ensures fault { OnErr result (Rose (D.disk disk.old).faults (D.disk disk.new).faults) }
    ensures no_fault { OnOk result ((D.disk disk.new).faults ≡ (D.disk disk.old).faults) }
    ensures count { NeverFalls (D.disk disk.old).faults (D.disk disk.new).faults }
{
    let head = frame_head(payload.len() as u32, ordinal);
    disk.write_at(place, &head)?;
    disk.write_at(place + FRAME_HEAD, payload)
}

// Writes a closed gate at the end, and puts all on the disk.
fn close<D: Disk>(disk: &mut D, place: u64) -> Result<(), Failed>
    requires place { Reaches (D.disk disk.old) place }
    requires end { place + 1 < 2 ^ 42 }
    ensures ok { OnOk result (Told (D.disk disk.old) (D.disk disk.new) (Closes place)) }
    ensures long { OnOk result (IfSome (D.disk disk.old).past (IsPlaceOf place)
        → IfSome (D.disk disk.new).past (λ past. 16 < length (contents_of past))) }
    ensures err { OnErr result (Told (D.disk disk.old) (D.disk disk.new) (AddsInPart place)) }
    ensures fault { OnErr result (Rose (D.disk disk.old).faults (D.disk disk.new).faults) }
    ensures no_fault { OnOk result ((D.disk disk.new).faults ≡ (D.disk disk.old).faults) }
    ensures count { NeverFalls (D.disk disk.old).faults (D.disk disk.new).faults }
{
    put(disk, place, &[CLOSED])
}

// Sets the seal of a closed journal.
fn set_seal<D: Disk>(disk: &mut D) -> Result<(), Failed>
    requires long { IfSome (D.disk disk.old).past (λ past. 16 < length (contents_of past)) }
    ensures ok { OnOk result (Told (D.disk disk.old) (D.disk disk.new) SetsSeal) }
    ensures err { OnErr result (Told (D.disk disk.old) (D.disk disk.new) SetsSealInPart) }
    ensures fault { OnErr result (Rose (D.disk disk.old).faults (D.disk disk.new).faults) }
    ensures no_fault { OnOk result ((D.disk disk.new).faults ≡ (D.disk disk.old).faults) }
    ensures count { NeverFalls (D.disk disk.old).faults (D.disk disk.new).faults }
{
    put(disk, SEAL, &[SEALED])
}

/// Puts the frames on the disk, and then the seal.
pub fn finish<D: Disk>(disk: &mut D, place: u64) -> Result<(), Failed>
    requires writing { IfSome (D.disk disk.old).past (IsPlaceOf place) }
    requires end { place + 1 < 2 ^ 42 }
    ensures ok { OnOk result (Told (D.disk disk.old) (D.disk disk.new) (Seals place)) }
    ensures err { OnErr result (Told (D.disk disk.old) (D.disk disk.new) (SealsInPart place)) }
    ensures fault { OnErr result (Rose (D.disk disk.old).faults (D.disk disk.new).faults) }
    ensures no_fault { OnOk result ((D.disk disk.new).faults ≡ (D.disk disk.old).faults) }
    ensures count { NeverFalls (D.disk disk.old).faults (D.disk disk.new).faults }
{
    // The frames are on the disk before the seal: a sealed journal is whole.
    close(disk, place)?;
    set_seal(disk)
}
