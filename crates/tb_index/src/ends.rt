//! How many rows there are up to the last one of each name, found by the hash of the name.
ghost use Rattle.std.specs.Prelude.{◌≡◌, ◌+◌, ◌<◌, ◌≤◌, [], ◌∷◌, ◌++◌, List, length};
ghost use Rattle.std.specs.HashMap.{spare};
ghost use Rattle.tb_index.specs.Indexes.{end_of, AreEnds};

use crate::counts::Counts;
use std::hash::Hash;

/// How many names of the list there are up to the last place of this one. It is 0 where the name isn't there.
pub fn end_in<K: Eq + Hash + Copy + Drop>(ends: &Counts<K>, key: &K) -> usize
    ensures { (keys : List K) → AreEnds K.eq keys ends.now → result ≡ end_of K.eq key.now keys }
{
    ends.get(key).copied().unwrap_or(0)
}

/// Adds the name at the end of a list that has so many names then. Gives its end before.
pub fn add_end<K: Eq + Hash + Copy + Drop>(ends: &mut Counts<K>, key: K, end: usize) -> usize
    requires { 0 < spare ends.old }
    ensures before { (keys : List K) → AreEnds K.eq keys ends.old → result ≡ end_of K.eq key keys }
    ensures ends { (keys : List K) → length keys + 1 ≡ end → AreEnds K.eq keys ends.old
        → AreEnds K.eq (keys ++ key ∷ []) ends.new }
    ensures spare { spare ends.old ≤ spare ends.new + 1 }
{
    match ends.insert(key, end) {
        Ok(Some(before)) => before,
        _ => 0,
    }
}

/// Takes the name off the end of the list, in which its end is this one then.
pub fn take_end<K: Eq + Hash + Copy + Drop>(ends: &mut Counts<K>, key: &K, end: usize)
    ensures ends { (keys : List K) → end_of K.eq key.now keys ≡ end
        → AreEnds K.eq (keys ++ key.now ∷ []) ends.old → AreEnds K.eq keys ends.new }
    ensures spare { spare ends.old ≤ spare ends.new }
{
    if let Some(last) = ends.get_mut(key) {
        *last = end;
    }
}
