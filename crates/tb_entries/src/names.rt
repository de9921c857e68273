//! Names and their numbers.
ghost use Rattle.std.specs.Prelude.{◌≡◌, ◌+◌, ◌<◌, ◌≤◌, ◌^◌, length, IfSome, OnOk};
ghost use Rattle.std.specs.List.{position};
ghost use Rattle.tb_history.specs.Entries.{is_same};
ghost use Rattle.tb_entries.specs.Rows.{spare_in, IsNumber, IsOwnNumber, Grown};

use crate::keys::ByName;
use tb_index::Named;
use tb_units::{Ident, OutOfMemory};

/// Names, whose numbers are their places.
pub(crate) type Names = Named<Ident, ByName>;

// A number has 32 bits.
const MOST_NAMES: usize = 1 << 32;

// An entry has a submitter and names two others at most.
const NAMES: usize = 3;

/// For how many entries there is room for names.
pub(crate) fn spare_of(names: &Names) -> usize
    requires { length names.now.list ≤ 2 ^ 32 }
    ensures { result ≡ spare_in names.now.list names.now.spare }
{
    names.spare().min(MOST_NAMES - names.len()) / NAMES
}

/// Takes room for the names of so many entries.
pub(crate) fn reserve(names: &mut Names, more: usize) -> Result<(), OutOfMemory>
    requires { length names.old.list ≤ 2 ^ 32 }
    ensures spare { OnOk result (more ≤ spare_in names.new.list names.new.spare) }
    ensures list { names.new.list ≡ names.old.list }
    ensures room { names.old.spare ≤ names.new.spare }
{
    if more > (MOST_NAMES - names.len()) / NAMES {
        return Err(OutOfMemory);
    }
    names.reserve(more * NAMES)?;
    Ok(())
}

/// The place of the name, where it is there. The number that it may have is looked at first.
pub(crate) fn find_near(names: &Names, name: &Ident, near: Option<u32>) -> Option<usize>
    requires near { IfSome near (IsOwnNumber names.now.list) }
    ensures { result ≡ position (λ other. is_same other name.now) names.now.list }
{
    if let Some(number) = near {
        if names.rows()[number as usize] == *name {
            return Some(number as usize);
        }
    }
    names.find(name)
}

/// The number of the name, which is added where it isn't there yet. The number that it may have is looked at first.
pub(crate) fn number_near(names: &mut Names, name: &Ident, near: Option<u32>) -> u32
    requires room { 0 < names.old.spare }
    requires few { length names.old.list < 2 ^ 32 }
    requires near { IfSome near (IsOwnNumber names.old.list) }
    ensures number { IsNumber names.new.list name.now result }
    ensures grown { Grown names.old.list names.new.list }
    ensures long { length names.new.list ≤ length names.old.list + 1 }
    ensures spare { names.old.spare ≤ names.new.spare + 1 }
{
    match find_near(names, name, near) {
        Some(place) => place as u32,
        None => {
            let place = names.len() as u32;
            names.push(*name);
            place
        }
    }
}

/// The number of the name, which is added where it isn't there yet.
pub(crate) fn number_of(names: &mut Names, name: &Ident) -> u32
    requires room { 0 < names.old.spare }
    requires few { length names.old.list < 2 ^ 32 }
    ensures number { IsNumber names.new.list name.now result }
    ensures grown { Grown names.old.list names.new.list }
    ensures long { length names.new.list ≤ length names.old.list + 1 }
    ensures spare { names.old.spare ≤ names.new.spare + 1 }
{
    number_near(names, name, None)
}
