//! The first place of each name of a list, found by the hash of the name.
ghost use Rattle.std.specs.Prelude.{◌≡◌, ◌+◌, ◌<◌, ◌≤◌, [], ◌∷◌, ◌++◌, List, length};
ghost use Rattle.std.specs.HashMap.{spare};
ghost use Rattle.tb_index.specs.Indexes.{first_of, AreFirsts};

use std::collections::HashMap;
use std::hash::Hash;

// The seed of the hash is fixed, so that one who chooses keys could choose such as collide, and each look-up would go
// over all of them. Names are entered by the operator alone; keys that senders choose stand in an order.
/// The names of a list with their first places.
pub type Firsts<K> = HashMap<K, usize>;

/// The first place of the name in the list.
pub fn first_in<K: Eq + Hash + Copy + Drop>(firsts: &Firsts<K>, key: &K) -> Option<usize>
    ensures { (keys : List K) → AreFirsts K.eq keys firsts.now → result ≡ first_of K.eq key.now keys }
{
    firsts.get(key).copied()
}

/// Adds the name at the end of the list, which is the place.
pub fn add_first<K: Eq + Hash + Copy + Drop>(firsts: &mut Firsts<K>, key: K, place: usize)
    requires { 0 < spare firsts.old }
    ensures firsts { (keys : List K) → length keys ≡ place → AreFirsts K.eq keys firsts.old
        → AreFirsts K.eq (keys ++ key ∷ []) firsts.new }
    ensures spare { spare firsts.old ≤ spare firsts.new + 1 }
{
    if !firsts.contains_key(&key) {
        let _ = firsts.insert(key, place);
    }
}

/// Takes the name off the end of the list, which is the place.
pub fn take_first<K: Eq + Hash + Copy + Drop>(firsts: &mut Firsts<K>, key: &K, place: usize)
    ensures firsts { (keys : List K) → length keys ≡ place → AreFirsts K.eq (keys ++ key.now ∷ []) firsts.old
        → AreFirsts K.eq keys firsts.new }
    ensures spare { spare firsts.old ≤ spare firsts.new }
{
    if firsts.get(key).copied() == Some(place) {
        let _ = firsts.remove(key);
    }
}
