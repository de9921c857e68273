//! The history that an opening finds.
ghost use Rattle.std.specs.Prelude.{ℕ, ◌≡◌, ◌≢◌, ◌≤◌, ◌++◌, ◌∷◌, [], List, None, length, true, false, OnOk, IfOk, IfErr, IfSome, IfNone};
ghost use Rattle.tb_link.specs.Counts.{Rose, NeverFalls};
ghost use Rattle.tb_disk.specs.Past.{contents_of};
ghost use Rattle.tb_message.specs.declared.message.Entry.{Entry};
ghost use Rattle.tb_message.specs.Spelling.{spellings_in, IsInRange, IsTakenIn, IsNoRecordIn};
ghost use Rattle.tb_history.specs.Legal.{IsLegal, Follows};
ghost use Rattle.tb_journal.specs.Frames.{first_place};
ghost use Rattle.tb_journal.specs.Places.{StandsAtIn};
ghost use Rattle.tb_desk.specs.declared.replay.Unfit.TheVariants as unfit;
ghost use Rattle.tb_desk.specs.declared.fault.OpenFault.TheVariants as fault;
ghost use Rattle.tb_desk.specs.Stands.{form_of, IsGroup};
ghost use Rattle.tb_desk.specs.Replay.{IsNoGroupIn, IsSealed};
ghost use Rattle.tb_desk.specs.Replaying.{IsReplayedIn, IsReplayFaultIn};

use crate::fault::OpenFault;
use crate::frames::Frames;
use std::alloc::Global;
use tb_core::Host;
use tb_journal::{DiskFault, Window};
use tb_message::{Entry, Message, Verdict, Version};
use tb_units::{Moment, OutOfMemory};

/// Why entries aren't replayed.
#[derive(Clone, Copy, Debug, PartialEq, Eq)]
pub enum Unfit {
    /// They can't follow on those before.
    Bad,
    OutOfMemory,
}

impl From<OutOfMemory> for Unfit {
    ghost from_gives = { λ _ e. e ≡ unfit.OutOfMemory };

    fn from(_error: OutOfMemory) -> Unfit {
        Unfit::OutOfMemory
    }
}

// Enters an entry, where it can follow on the history.
fn enter(host: &mut Host, entry: &Entry) -> Result<(), Unfit>
    requires in_range { IsInRange entry.now }
    ensures entered { OnOk result (Follows host.old.history entry.now
        × (host.new.history ≡ host.old.history ++ entry.now ∷ [])) }
    ensures refused { IfErr result (λ why. why ≡ unfit.Bad → ¬ (Follows host.old.history entry.now)) }
{
    if entry.moment.seconds < host.last().seconds {
        return Err(Unfit::Bad);
    }
    let Verdict::Accepted { .. } = host.decide(
        &entry.submitter,
        entry.number,
        entry.moment,
        &entry.message,
    ) else {
        return Err(Unfit::Bad);
    };
    host.make_room(&[], &entry.message)?;
    host.apply(*entry);
    Ok(())
}

// Whether no bytes are left.
fn is_done(rest: &[u8]) -> bool
    ensures done { result ≡ true → rest.now ≡ [] }
    ensures more { result ≡ false → 1 ≤ length rest.now }
{
    rest.is_empty()
}

// The entry whose record begins the bytes, and how long that is.
fn take(version: Version, bytes: &[u8]) -> Option<(Entry, usize)>
    ensures found { IfSome result (λ x. IsTakenIn version bytes.now x.0 x.1) }
    ensures none { IfNone result (IsNoRecordIn version bytes.now) }
{
    match version {
        Version::First => Entry::take_first(bytes),
        Version::Second => Entry::take(bytes),
    }
}

// Enters the group of a payload, where it can follow on the history.
fn enter_group(host: &mut Host, version: Version, payload: &[u8]) -> Result<(), Unfit>
    requires legal { IsLegal host.old.history }
    ensures legal { OnOk result (IsLegal host.new.history) }
    ensures entered { OnOk result ((group : List Entry) × IsGroup group × (payload.now ≡ spellings_in version group)
        × (host.new.history ≡ host.old.history ++ group)) }
    ensures refused { IfErr result (λ why. why ≡ unfit.Bad → IsNoGroupIn version host.old.history payload.now) }
{
    let mut rest = payload;
    'entries: loop {
        let Some((entry, size)) = take(version, rest) else {
            return Err(Unfit::Bad);
        };
        enter(host, &entry)?;
        rest = &rest[size..];
        if is_done(rest) {
            return Ok(());
        }
    }
}

// Enters the groups of the payloads into an empty host.
fn enter_all<J: Frames>(journal: &mut J, host: &mut Host) -> Result<(), OpenFault>
    requires sure { J.doubt journal.old ≡ None }
    requires first { StandsAtIn (form_of J.version) (J.disk journal.old) (J.gate journal.old)
        (first_place (form_of J.version)) }
    requires empty { host.old.history ≡ [] }
    ensures found { OnOk result (IsReplayedIn J.version (J.disk journal.old) (J.gate journal.old) host.new.history) }
    ensures refused { IfErr result (IsReplayFaultIn J.version (J.disk journal.old) (J.gate journal.old)) }
    ensures sealed { IfErr result IsSealed }
    ensures kept { (J.disk journal.new).past ≡ (J.disk journal.old).past }
    ensures same { (J.gate journal.new ≡ J.gate journal.old) × (J.doubt journal.new ≡ J.doubt journal.old)
        × (J.name journal.new ≡ J.name journal.old) }
    ensures fault { IfErr result (λ why. why ≡ fault.DiskFault
        → Rose (J.disk journal.old).faults (J.disk journal.new).faults) }
    ensures no_fault { OnOk result ((J.disk journal.new).faults ≡ (J.disk journal.old).faults) }
    ensures no_fault_refused { IfErr result (λ why. why ≢ fault.DiskFault
        → (J.disk journal.new).faults ≡ (J.disk journal.old).faults) }
    ensures count { NeverFalls (J.disk journal.old).faults (J.disk journal.new).faults }
{
    let version = J::version();
    let mut window = Window::new();
    let mut place = J::first_place();
    'frames: loop {
        match journal.next_frame(place, &mut window) {
            Ok(Some((_size, next))) => match enter_group(host, version, window.payload()) {
                Ok(()) => place = next,
                Err(Unfit::Bad) => return Err(OpenFault::Damaged(place)),
                Err(Unfit::OutOfMemory) => return Err(OpenFault::OutOfMemory),
            },
            Ok(None) => return Ok(()),
            Err(DiskFault) => return Err(OpenFault::DiskFault),
        }
    }
}

/// The history that the payloads make up.
pub fn replay<J: Frames>(alloc: Global, journal: &mut J) -> Result<Host, OpenFault>
    requires sure { J.doubt journal.old ≡ None }
    requires first { StandsAtIn (form_of J.version) (J.disk journal.old) (J.gate journal.old)
        (first_place (form_of J.version)) }
    ensures found { IfOk result
        (λ host. IsReplayedIn J.version (J.disk journal.old) (J.gate journal.old) host.history) }
    ensures refused { IfErr result (IsReplayFaultIn J.version (J.disk journal.old) (J.gate journal.old)) }
    ensures sealed { IfErr result IsSealed }
    ensures kept { (J.disk journal.new).past ≡ (J.disk journal.old).past }
    ensures same { (J.gate journal.new ≡ J.gate journal.old) × (J.doubt journal.new ≡ J.doubt journal.old)
        × (J.name journal.new ≡ J.name journal.old) }
    ensures fault { IfErr result (λ why. why ≡ fault.DiskFault
        → Rose (J.disk journal.old).faults (J.disk journal.new).faults) }
    ensures no_fault { OnOk result ((J.disk journal.new).faults ≡ (J.disk journal.old).faults) }
    ensures no_fault_refused { IfErr result (λ why. why ≢ fault.DiskFault
        → (J.disk journal.new).faults ≡ (J.disk journal.old).faults) }
    ensures count { NeverFalls (J.disk journal.old).faults (J.disk journal.new).faults }
{
    match Host::new(alloc) {
        Err(_) => Err(OpenFault::OutOfMemory),
        Ok(mut host) => match enter_all(journal, &mut host) {
            Ok(()) => Ok(host),
            Err(fault) => Err(fault),
        },
    }
}
