//! A follower: a desk that takes parcels of another's history.
ghost use Rattle.std.specs.Prelude.{◌≡◌, ◌≢◌, ◌⊎◌, ◌+◌, ◌*◌, ◌≤◌, ◌++◌, [], IfSome, IfOk, IfErr, Ok, Err, None, length};
ghost use Rattle.tb_link.specs.Counts.{Rose, NeverFalls, last_count};
ghost use Rattle.tb_disk.specs.Past.{contents_of};
ghost use Rattle.tb_message.specs.Spelling.{IsInRange};
ghost use Rattle.tb_history.specs.Legal.{IsLegal};
ghost use Rattle.tb_journal.specs.Journal.{Told};
ghost use Rattle.tb_journal.specs.Opening.{IsHarmless, Opens};
ghost use Rattle.tb_desk.specs.declared.fault.OpenFault.TheVariants as unopened;
ghost use Rattle.tb_desk.specs.Stands.{CrashesLeave, StandsForHistory, StandsForEither, LeavesEither};
ghost use Rattle.tb_desk.specs.Desks.{CrashesSince, doubted_by, held};
ghost use Rattle.tb_desk.specs.Replay.{IsExact, LeavesRefused};
ghost use Rattle.tb_replica.specs.declared.taken.TakeFault.TheVariants as fault;
ghost use Rattle.tb_replica.specs.Following.{Runs, Takes};
ghost use Rattle.tb_replica.specs.Followers.{following, IsOpened, IsFresh, AreInRange};
ghost use Rattle.tb_replica.specs.Adding.{IsAdded, IsToldBy};
ghost use Rattle.tb_replica.specs.Crashes.{IsInDoubt, IsLeft, WaitsBehind, WaitsFor};

use crate::taken::{TakeFault, Taken};
use crate::window::{PLACES, Window};
use std::alloc::Global;
use std::marker::Model;
use tb_desk::{Desk, OpenFault, Reply};
use tb_disk::Disk;
use tb_message::{Entry, Message, Verdict};
use tb_parcel::Parcel;

/// A copy of a history on a disk, and the entries that are kept ahead of it.
#[derive(Drop)]
pub struct Follower<D: Disk> {
    desk: Desk<D>,
    ahead: Window<Entry>,
}

impl<D: Disk> Model for Follower<D> {
    ghost use Rattle.tb_replica.specs.Followers.{FollowerView, follower_code, IsFollower};

    ghost Value = { FollowerView D };

    ghost coded = { follower_code D.code };

    ghost view = { λ a. record { desk = a.desk; ahead = a.ahead } };

    ghost invariant = { λ a. IsFollower a.ahead };
}

// Whether an entry was accepted: each other verdict is a fork at its place.
fn told(verdict: &Verdict, place: u64) -> Result<(), TakeFault>
    ensures told { IsToldBy verdict.now place result }
    ensures no_fault { result ≢ Err fault.DiskFault }
{
    match verdict {
        Verdict::Accepted { .. } => Ok(()),
        _ => Err(TakeFault::Forked(place)),
    }
}

// Adds an entry to a history, where it can follow on it.
fn add<D: Disk>(desk: &mut Desk<D>, entry: &Entry) -> Result<(), TakeFault>
    requires sure { desk.old.doubt ≡ [] }
    requires in_range { IsInRange entry.now }
    ensures added { IsAdded desk.old.host.history entry.now desk.new.host.history result }
    ensures crash { CrashesLeave (IsLeft desk.old.host.history (held desk.new)) (D.disk desk.old.disk)
        (D.disk desk.new.disk) }
    ensures leaves { LeavesEither (D.disk desk.new.disk) desk.new.host.history desk.new.doubt }
    ensures in_doubt { result ≡ Err fault.DiskFault
        → IsInDoubt (λ place waiting. waiting ≡ entry.now) (held desk.new) }
    ensures doubted { result ≡ Err fault.DiskFault
        → desk.new.doubted ≡ desk.old.doubted ++ doubted_by None (held desk.new) }
    ensures undoubted { result ≢ Err fault.DiskFault → desk.new.doubted ≡ desk.old.doubted }
    ensures sure { result ≢ Err fault.DiskFault → desk.new.doubt ≡ [] }
    ensures fault { result ≡ Err fault.DiskFault → Rose (D.disk desk.old.disk).faults (D.disk desk.new.disk).faults }
    ensures no_fault { result ≢ Err fault.DiskFault
        → (D.disk desk.new.disk).faults ≡ (D.disk desk.old.disk).faults }
    ensures count { NeverFalls (D.disk desk.old.disk).faults (D.disk desk.new.disk).faults }
    ensures kept { (desk.new.opened ≡ desk.old.opened) × (desk.new.recovered ≡ desk.old.recovered) }
{
    let place = desk.entries();
    if entry.moment.seconds < desk.last().seconds {
        return Err(TakeFault::Forked(place));
    }
    if desk.make_room(&entry.message).is_err() {
        return Err(TakeFault::OutOfMemory);
    }
    match desk.submit(&entry.submitter, entry.number, entry.moment, &entry.message) {
        Reply::Verdict(verdict) => told(&verdict, place),
        Reply::DiskFault => Err(TakeFault::DiskFault),
    }
}

// Adds what is kept for the places behind the copy, as long as the next one is there. One entry was added before.
fn run<D: Disk>(desk: &mut Desk<D>, ahead: &mut Window<Entry>) -> Result<Taken, TakeFault>
    requires sure { desk.old.doubt ≡ [] }
    requires leaves { LeavesEither (D.disk desk.old.disk) desk.old.host.history desk.old.doubt }
    requires in_range { AreInRange ahead.old }
    requires window { length ahead.old ≡ 1023 }
    ensures runs { Runs (record { history = desk.new.host.history; ahead = ahead.new }) result
        desk.old.host.history ahead.old 1 }
    ensures crash { CrashesLeave (IsLeft desk.old.host.history (held desk.new)) (D.disk desk.old.disk)
        (D.disk desk.new.disk) }
    ensures in_doubt { result ≡ Err fault.DiskFault
        → IsInDoubt (WaitsBehind desk.old.host.history ahead.old) (held desk.new) }
    ensures doubted { result ≡ Err fault.DiskFault
        → desk.new.doubted ≡ desk.old.doubted ++ doubted_by None (held desk.new) }
    ensures undoubted { result ≢ Err fault.DiskFault → desk.new.doubted ≡ desk.old.doubted }
    ensures in_range { AreInRange ahead.new }
    ensures window { length ahead.new ≡ 1023 }
    ensures sure { result ≢ Err fault.DiskFault → desk.new.doubt ≡ [] }
    ensures fault { result ≡ Err fault.DiskFault → Rose (D.disk desk.old.disk).faults (D.disk desk.new.disk).faults }
    ensures no_fault { result ≢ Err fault.DiskFault
        → (D.disk desk.new.disk).faults ≡ (D.disk desk.old.disk).faults }
    ensures count { NeverFalls (D.disk desk.old.disk).faults (D.disk desk.new.disk).faults }
    ensures kept { (desk.new.opened ≡ desk.old.opened) × (desk.new.recovered ≡ desk.old.recovered) }
{
    let mut added: u64 = 1;
    'kept: loop {
        let Some(entry) = ahead.next() else {
            return Ok(Taken::Added(added));
        };
        if desk.stands(&entry) {
            return Ok(Taken::Added(added));
        }
        if let Err(fault) = add(desk, &entry) {
            return Err(fault);
        }
        added += 1;
    }
}

impl<D: Disk> Follower<D> {
    /// Opens a copy on a disk, with the history that it stands for, and takes the memory for the 1,023 parcels that may
    /// be kept ahead. A refusal hands the disk back.
    pub fn open(alloc: Global, disk: D) -> Result<Follower<D>, (D, OpenFault)>
        ensures found { IfOk result (λ follower. IfSome (D.disk disk).past
            (λ past. StandsForHistory follower.desk.host.history (contents_of past))) }
        ensures made { IfOk result (λ follower. IsOpened follower.desk) }
        ensures nothing { IfOk result (λ follower. IsFresh (following follower)) }
        // Each answer is given exactly where it is true of the file.
        ensures exact { IfOk result (λ follower. IfSome (D.disk disk).past
            (λ past. IsExact (contents_of past) (Ok follower.desk.host.history))) }
        ensures exact_refusal { IfErr result (λ refused. IfSome (D.disk disk).past
            (λ past. IsExact (contents_of past) (Err refused.1))) }
        // What it does to the disk is what the opening of a desk does.
        ensures steps { IfOk result (λ follower. Told (D.disk disk) (D.disk follower.desk.disk) Opens) }
        ensures refused { IfErr result (λ refused. Told (D.disk disk) (D.disk refused.0) (LeavesRefused refused.1)) }
        ensures crash { IfOk result (λ follower. Told (D.disk disk) (D.disk follower.desk.disk) IsHarmless) }
        ensures crash_refused { IfErr result (λ refused. Told (D.disk disk) (D.disk refused.0) IsHarmless) }
        ensures fault { IfErr result (λ refused. refused.1 ≡ unopened.DiskFault
            → Rose (D.disk disk).faults (D.disk refused.0).faults) }
        ensures no_fault { IfOk result (λ follower. (D.disk follower.desk.disk).faults ≡ (D.disk disk).faults) }
        ensures no_fault_refused { IfErr result (λ refused. refused.1 ≢ unopened.DiskFault
            → (D.disk refused.0).faults ≡ (D.disk disk).faults) }
        ensures count_refused { IfErr result (λ refused. NeverFalls (D.disk disk).faults (D.disk refused.0).faults) }
    {
        // The window's memory comes first: where it isn't had, nothing was done to the disk.
        let Ok(ahead) = Window::new(alloc) else {
            return Err((disk, OpenFault::OutOfMemory));
        };
        match Desk::open(alloc, disk) {
            Ok(desk) => Ok(Follower { desk, ahead }),
            Err(refused) => Err(refused),
        }
    }

    /// Takes a parcel: adds its entry and those behind it that are kept, keeps it, or lets it go. After a fault of the
    /// disk the follower is given up.
    pub fn take(&mut self, parcel: &Parcel) -> Result<Taken, TakeFault>
        requires sure { self.old.desk.doubt ≡ [] }
        requires in_range { IsInRange parcel.now.entry }
        ensures takes { Takes parcel.now (following self.old) (following self.new) result }
        // A crash at any moment of the call leaves a beginning of the copy that has all that it had before, or the copy
        // followed by what is in doubt: the parcel's entry, or one that was kept, at its place.
        ensures crash { CrashesLeave (IsLeft self.old.desk.host.history (held self.new.desk))
            (D.disk self.old.desk.disk) (D.disk self.new.desk.disk) }
        ensures in_doubt { result ≡ Err fault.DiskFault
            → IsInDoubt (WaitsFor parcel.now (following self.old)) (held self.new.desk) }
        // After a disk fault the entry that is in doubt then is noted, and after nothing else.
        ensures doubted { result ≡ Err fault.DiskFault
            → self.new.desk.doubted ≡ self.old.desk.doubted ++ doubted_by None (held self.new.desk) }
        ensures undoubted { result ≢ Err fault.DiskFault → self.new.desk.doubted ≡ self.old.desk.doubted }
        ensures sure { result ≢ Err fault.DiskFault → self.new.desk.doubt ≡ [] }
        ensures fault { result ≡ Err fault.DiskFault
            → Rose (D.disk self.old.desk.disk).faults (D.disk self.new.desk.disk).faults }
        ensures no_fault { result ≢ Err fault.DiskFault
            → (D.disk self.new.desk.disk).faults ≡ (D.disk self.old.desk.disk).faults }
        ensures count { NeverFalls (D.disk self.old.desk.disk).faults (D.disk self.new.desk.disk).faults }
        ensures kept { (self.new.desk.opened ≡ self.old.desk.opened)
            × (self.new.desk.recovered ≡ self.old.desk.recovered) }
    {
        let next = self.desk.entries();
        if self.desk.stands(&parcel.entry) {
            return Ok(Taken::Standing);
        }
        if parcel.place < next {
            return Err(TakeFault::Forked(parcel.place));
        }
        if parcel.place == next {
            add(&mut self.desk, &parcel.entry)?;
            return run(&mut self.desk, &mut self.ahead);
        }
        if parcel.place - next > PLACES as u64 {
            return Ok(Taken::Dropped);
        }
        self.ahead
            .keep((parcel.place - next - 1) as usize, &parcel.entry);
        Ok(Taken::Ahead)
    }

    /// How many entries the copy has.
    pub fn entries(&self) -> u64
        ensures entries { result ≡ length self.now.desk.host.history }
        ensures limit { length self.now.desk.host.history ≤ 4097 * 1048576 }
        ensures legal { IsLegal self.now.desk.host.history }
        ensures leaves { LeavesEither (D.disk self.now.desk.disk) self.now.desk.host.history self.now.desk.doubt }
        ensures since { CrashesSince (D.disk self.now.desk.opened) (D.disk self.now.desk.disk)
            self.now.desk.host.history self.now.desk.doubt self.now.desk.recovered self.now.desk.faults
            self.now.desk.doubted }
    {
        self.desk.entries()
    }

    /// The disk as it stands.
    pub fn into_disk(self) -> D
        ensures disk { result ≡ self.desk.disk }
        ensures legal { IsLegal self.desk.host.history }
        ensures accepted { IsLegal (self.desk.host.history ++ self.desk.doubt) }
        ensures stands { IfSome (D.disk result).past
            (λ past. StandsForEither self.desk.host.history self.desk.doubt (contents_of past)) }
        ensures leaves { LeavesEither (D.disk result) self.desk.host.history self.desk.doubt }
        // What every crash since the opening left.
        ensures since { CrashesSince (D.disk self.desk.opened) (D.disk result) self.desk.host.history
            self.desk.doubt self.desk.recovered self.desk.faults self.desk.doubted }
        ensures counted { ((D.disk self.desk.opened).faults + self.desk.faults ≤ (D.disk result).faults)
            ⊎ ((D.disk result).faults ≡ last_count) }
    {
        let Follower { desk, ahead: _ } = self;
        desk.into_disk()
    }
}
