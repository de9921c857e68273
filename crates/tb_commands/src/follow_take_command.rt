//! The command `follow take`.
ghost use Rattle.std.specs.Prelude.{◌≡◌, ◌≢◌, [], ◌++◌, Err, None};
ghost use Rattle.tb_link.specs.Counts.{Rose};
ghost use Rattle.tb_message.specs.Spelling.{IsInRange};
ghost use Rattle.tb_history.specs.Legal.{IsLegal};
ghost use Rattle.tb_desk.specs.Desks.{doubted_by, held};
ghost use Rattle.tb_desk.specs.declared.fault.OpenFault.{OpenFault};
ghost use Rattle.tb_replica.specs.Crashes.{IsInDoubt, WaitsFor};
ghost use Rattle.tb_replica.specs.Followers.{IsFresh, following};
ghost use Rattle.tb_commands.specs.DiskRun.{HasGrown};
ghost use Rattle.tb_commands.specs.FollowSteps.{InputTaken, IsTakenAs};
ghost use Rattle.tb_commands.specs.FollowTakeRun.{FollowTakeEnds, TakeEnds};
ghost use Rattle.tb_commands.specs.Standings.{standing};

use crate::command_endings::{DiskEnding, TakeEnding};
use crate::number_line::tell_count;
use crate::parcel_input::{ParcelFault, ParcelReader};
use std::alloc::Global;
use tb_disk::Disk;
use tb_link::{Sink, Source};
use tb_parcel::Parcel;
use tb_replica::{Follower, TakeFault};

/// Parcels of one input, at most: 2^40.
const MOST_PARCELS: u64 = 1_099_511_627_776;

/// Takes the parcels of the input into the copy that the disk holds, and hands the disk back. The journal is opened
/// before the input is read. Each parcel is taken as soon as it is whole. Once all of them were taken, the number of
/// entries is printed.
pub fn follow_take<D: Disk, I: Source, O: Sink>(
    alloc: Global,
    input: &mut I,
    out: &mut O,
    disk: D,
) -> (DiskEnding<TakeEnding>, D)
    ensures ends { FollowTakeEnds result.0 (I.source input.old) (I.source input.new)
        (record { out = O.sink out.old; disk = D.disk disk })
        (record { out = O.sink out.new; disk = D.disk result.1 }) }
    // The copy was opened before anything was read or written.
    ensures unbegun { (why : OpenFault) → result.0 ≡ DiskEnding.Unopened why
        → (input.new ≡ input.old) × (out.new ≡ out.old) }
{
    match Follower::open(alloc, disk) {
        Ok(mut follower) => {
            // By its clauses the history is legal.
            let _entries = follower.entries();
            let ending = take_and_tell(alloc, &mut follower, input, out);
            (DiskEnding::Opened(ending), follower.into_disk())
        }
        Err((disk, fault)) => (DiskEnding::Unopened(fault), disk),
    }
}

// Takes the parcels of the input, and tells how many entries there are then.
fn take_and_tell<D: Disk, I: Source, O: Sink>(
    alloc: Global,
    follower: &mut Follower<D>,
    input: &mut I,
    out: &mut O,
) -> TakeEnding
    requires sure { follower.old.desk.doubt ≡ [] }
    requires fresh { IsFresh (following follower.old) }
    requires legal { IsLegal follower.old.desk.host.history }
    ensures ends { TakeEnds result (I.source input.old) (I.source input.new)
        (record { out = O.sink out.old; disk = D.disk follower.old.desk.disk })
        (record { out = O.sink out.new; disk = D.disk follower.new.desk.disk })
        (standing (D.disk follower.old.desk.disk) follower.old.desk)
        (standing (D.disk follower.new.desk.disk) follower.new.desk) }
    ensures grown { HasGrown (standing (D.disk follower.old.desk.disk) follower.old.desk)
        (standing (D.disk follower.new.desk.disk) follower.new.desk) }
    ensures kept { (follower.new.desk.opened ≡ follower.old.desk.opened)
        × (follower.new.desk.recovered ≡ follower.old.desk.recovered) }
{
    match take_all(alloc, follower, input) {
        Ok(()) => match tell_count(b"next ", follower.entries(), out) {
            Ok(()) => TakeEnding::Done,
            Err(_) => TakeEnding::WriteFault,
        },
        Err(ending) => ending,
    }
}

// Takes the parcels of the input up to its end.
fn take_all<D: Disk, I: Source>(
    alloc: Global,
    follower: &mut Follower<D>,
    input: &mut I,
) -> Result<(), TakeEnding>
    requires sure { follower.old.desk.doubt ≡ [] }
    requires fresh { IsFresh (following follower.old) }
    requires legal { IsLegal follower.old.desk.host.history }
    ensures taken { InputTaken result (I.source input.old) (I.source input.new)
        (D.disk follower.old.desk.disk).faults (D.disk follower.new.desk.disk).faults
        (standing (D.disk follower.old.desk.disk) follower.old.desk)
        (standing (D.disk follower.new.desk.disk) follower.new.desk) }
    ensures grown { HasGrown (standing (D.disk follower.old.desk.disk) follower.old.desk)
        (standing (D.disk follower.new.desk.disk) follower.new.desk) }
    ensures kept { (follower.new.desk.opened ≡ follower.old.desk.opened)
        × (follower.new.desk.recovered ≡ follower.old.desk.recovered) }
{
    let mut reader = ParcelReader::new(alloc);
    let mut number: u64 = 1;
    'parcels: loop {
        match reader.next_parcel(input) {
            Ok(Some(parcel)) => {
                if number > MOST_PARCELS {
                    return Err(TakeEnding::BadInput(number));
                }
                take(follower, &parcel)?;
                number += 1;
            }
            Ok(None) => return Ok(()),
            Err(ParcelFault::Bad) => return Err(TakeEnding::BadInput(number)),
            Err(ParcelFault::Read) => return Err(TakeEnding::ReadFault),
            Err(ParcelFault::OutOfMemory) => return Err(TakeEnding::OutOfMemory),
        }
    }
}

// Takes a parcel.
fn take<D: Disk>(follower: &mut Follower<D>, parcel: &Parcel) -> Result<(), TakeEnding>
    requires sure { follower.old.desk.doubt ≡ [] }
    requires in_range { IsInRange parcel.now.entry }
    ensures taken { IsTakenAs parcel.now (following follower.old) (following follower.new) result }
    ensures in_doubt { result ≡ Err TakeEnding.DiskFault
        → IsInDoubt (WaitsFor parcel.now (following follower.old)) (held follower.new.desk) }
    ensures doubted { result ≡ Err TakeEnding.DiskFault
        → follower.new.desk.doubted ≡ follower.old.desk.doubted ++ doubted_by None (held follower.new.desk) }
    ensures undoubted { result ≢ Err TakeEnding.DiskFault
        → follower.new.desk.doubted ≡ follower.old.desk.doubted }
    ensures sure { result ≢ Err TakeEnding.DiskFault → follower.new.desk.doubt ≡ [] }
    ensures fault { result ≡ Err TakeEnding.DiskFault
        → Rose (D.disk follower.old.desk.disk).faults (D.disk follower.new.desk.disk).faults }
    ensures no_fault { result ≢ Err TakeEnding.DiskFault
        → (D.disk follower.new.desk.disk).faults ≡ (D.disk follower.old.desk.disk).faults }
    ensures kept { (follower.new.desk.opened ≡ follower.old.desk.opened)
        × (follower.new.desk.recovered ≡ follower.old.desk.recovered) }
{
    match follower.take(parcel) {
        Ok(_) => Ok(()),
        Err(TakeFault::Forked(place)) => Err(TakeEnding::Forked(place)),
        Err(TakeFault::DiskFault) => Err(TakeEnding::DiskFault),
        Err(TakeFault::OutOfMemory) => Err(TakeEnding::OutOfMemory),
    }
}
